//! The two budgets, and what is counted of each.

ghost use Rattle.std.specs.Prelude.{◌≡◌, ◌+◌, ◌*◌, ◌^◌, ◌<◌, ◌≤◌, ◌++◌, [], ◌∷◌, List, length};
ghost use Rattle.pacer.specs.declared.sent.Sent.{Sent};
ghost use Rattle.send_core.specs.History.{sent_by};
ghost use Rattle.send_laws.specs.Budgets.{rate_in, IsCount};

use gcc_units::Rate;
use pacer::{Kind, Sent, Tally};
use send_core::Reply;

/// What is counted: paced media, with the probes before the last of it, or padding.
#[derive(Clone, Copy)]
pub enum Budget {
    Media,
    Padding,
}

/// What was counted.
#[derive(Clone, Copy)]
pub struct Counted {
    /// The bytes of the packets, and for media of the probes before the last of them.
    pub bytes: u64,
    /// The bytes of the probes since then.
    pub since: u64,
    /// The bytes of the last packet, which is no probe.
    pub last: u32,
}

impl Budget {
    /// The rate that the budget grows at, in bit/s.
    pub fn rate(self, tally: Tally) -> Rate
        ensures { result ≡ rate_in self tally }
    {
        match self {
            Budget::Media => tally.rate,
            Budget::Padding => tally.padding_rate,
        }
    }

    // With one packet more.
    fn with_packet(self, so_far: Counted, packet: &Sent) -> Counted
        requires { so_far.bytes + so_far.since + 2 ^ 32 ≤ 2 ^ 64 }
        ensures counts { (records : List Sent) → IsCount self records so_far → IsCount self (records ++ packet.now ∷ []) result }
        ensures few { result.bytes + result.since ≤ so_far.bytes + so_far.since + 2 ^ 32 }
    {
        match (self, packet.kind) {
            (Budget::Media, Kind::Media) => with_size(so_far, packet.size),
            (Budget::Padding, Kind::Padding) => with_size(so_far, packet.size),
            (Budget::Media, Kind::Probe(_)) => with_probe(so_far, packet.size),
            (Budget::Media, Kind::Audio) => so_far,
            (Budget::Media, Kind::Padding) => so_far,
            (Budget::Padding, Kind::Audio) => so_far,
            (Budget::Padding, Kind::Media) => so_far,
            (Budget::Padding, Kind::Probe(_)) => so_far,
        }
    }

    // With these packets.
    fn with_packets(self, so_far: Counted, packets: &[Sent]) -> Counted
        requires { so_far.bytes + so_far.since + 2 ^ 32 * length packets.now < 2 ^ 64 }
        ensures counts { (records : List Sent) → IsCount self records so_far → IsCount self (records ++ packets.now) result }
        ensures few { result.bytes + result.since ≤ so_far.bytes + so_far.since + 2 ^ 32 * length packets.now }
    {
        let mut counted = so_far;
        for packet in packets {
            counted = self.with_packet(counted, packet);
        }
        counted
    }

    /// With what a reply says was sent.
    pub fn with_reply(self, so_far: Counted, reply: &Reply) -> Counted
        requires { so_far.bytes + so_far.since + 2 ^ 32 * length (sent_by reply.now) < 2 ^ 64 }
        ensures counts { (records : List Sent) → IsCount self records so_far → IsCount self (records ++ sent_by reply.now) result }
        ensures few { result.bytes + result.since ≤ so_far.bytes + so_far.since + 2 ^ 32 * length (sent_by reply.now) }
    {
        match reply {
            Reply::Paced { sent, .. } => self.with_packets(so_far, sent.as_slice()),
            Reply::Accepted { .. } => so_far,
            Reply::Credited { .. } => so_far,
            Reply::Configured { .. } => so_far,
            Reply::Refused { .. } => so_far,
        }
    }
}

// With a packet of this size, for which the budget had to be open.
fn with_size(so_far: Counted, size: u32) -> Counted
    requires { so_far.bytes + so_far.since + 2 ^ 32 ≤ 2 ^ 64 }
    ensures { result ≡ record { bytes = so_far.bytes + so_far.since + size; since = 0; last = size } }
{
    Counted {
        bytes: so_far.bytes + so_far.since + u64::from(size),
        since: 0,
        last: size,
    }
}

// With a probe of this size.
fn with_probe(so_far: Counted, size: u32) -> Counted
    requires { so_far.bytes + so_far.since + 2 ^ 32 ≤ 2 ^ 64 }
    ensures { result ≡ record { bytes = so_far.bytes; since = so_far.since + size; last = so_far.last } }
{
    Counted {
        bytes: so_far.bytes,
        since: so_far.since + u64::from(size),
        last: so_far.last,
    }
}
