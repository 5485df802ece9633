//! What was sent for a probe cluster of a sender.

ghost use Rattle.std.specs.Prelude.{◌≡◌, ◌+◌, ◌*◌, ◌^◌, ◌<◌, ◌≤◌, ◌↔◌, Some, [], ◌++◌, List, length, IsNone, IfSome};
ghost use Rattle.probe_clusters.specs.Deeds.{Deed};
ghost use Rattle.pacer.specs.Course.{probe_by, probes_of};
ghost use Rattle.send_core.specs.History.{sent_by};
ghost use Rattle.send_core.specs.Reply.{IsLegal};
ghost use Rattle.send_core.specs.Reports.{cluster_deeds};
ghost use Rattle.send_laws.specs.Probes.{planned_rate, probe_sizes, probe_moments, before_last, time_over};
ghost use Rattle.send_laws.specs.ProbeSends.{sends_in, is_for, AreSends};

use crate::plans::rate_of;
use crate::reading::entry_at;
use gcc_units::{Moment, Rate};
use pacer::{Kind, Sent};
use send_core::{Journal, Reply, Sender};

/// What was sent for a probe cluster, and what holds it back.
#[derive(Clone, Copy, PartialEq, Eq, Debug)]
pub struct ClusterSpan {
    /// The bytes before the last packet.
    pub before_last: u64,
    /// The cluster's rate, in bit/s.
    pub rate: Rate,
    /// From the first packet to the last, in microseconds.
    pub time: u64,
}

/// The packets that a sender sent for the probe cluster with this id; `None` exactly where there is
/// none. The bytes before the last packet are no more than the rate times the time (8,000,000
/// micro-bits a byte).
pub fn span_cluster(sender: &Sender, id: u32) -> Option<ClusterSpan>
    ensures none { IsNone result ↔ (probe_sizes id sender.now ≡ []) }
    ensures before_last { IfSome result (λ s. s.before_last ≡ before_last (probe_sizes id sender.now)) }
    ensures rate { IfSome result (λ s. planned_rate id sender.now ≡ Some s.rate) }
    ensures time { IfSome result (λ s. s.time ≡ time_over (probe_moments id sender.now)) }
    ensures bound { IfSome result (λ s. 8000000 * s.before_last ≤ s.rate * s.time) }
{
    let journal = sender.journal();
    let sends = sends_for(journal, id);
    let Some(first) = sends.first else {
        return None;
    };
    let Some(rate) = rate_of(journal, id) else {
        unreachable!()
    };
    Some(ClusterSpan {
        before_last: sends.before_last,
        rate,
        time: sends.last - first,
    })
}

/// What was sent for a cluster.
#[derive(Clone, Copy)]
struct Sends {
    bytes: u64,
    before_last: u64,
    first: Option<Moment>,
    last: Moment,
}

// What the entries of a journal sent for a cluster.
fn sends_for(journal: &Journal, id: u32) -> Sends
    requires { IsLegal journal.now.items }
    ensures { AreSends id (cluster_deeds journal.now.items) result }
{
    let mut sends = Sends {
        bytes: 0,
        before_last: 0,
        first: None,
        last: 0,
    };
    for k in 0..journal.len() {
        sends = with_reply(sends, id, &entry_at(journal, k).reply);
    }
    sends
}

// With what a reply says was sent.
fn with_reply(so_far: Sends, id: u32, reply: &Reply) -> Sends
    requires { so_far.bytes + 2 ^ 32 * length (sent_by reply.now) < 2 ^ 64 }
    ensures sends { (ds : List Deed) → AreSends id ds so_far → AreSends id (ds ++ sends_in reply.now) result }
    ensures few { result.bytes ≤ so_far.bytes + 2 ^ 32 * length (sent_by reply.now) }
{
    match reply {
        Reply::Paced { at, sent } => with_packets(so_far, id, *at, sent.as_slice()),
        Reply::Accepted { .. } => so_far,
        Reply::Credited { .. } => so_far,
        Reply::Configured { .. } => so_far,
        Reply::Refused { .. } => so_far,
    }
}

// With these packets, which were sent at a moment.
fn with_packets(so_far: Sends, id: u32, moment: Moment, packets: &[Sent]) -> Sends
    requires { so_far.bytes + 2 ^ 32 * length packets.now < 2 ^ 64 }
    ensures sends { (ds : List Deed) → AreSends id ds so_far → AreSends id (ds ++ probes_of moment packets.now) result }
    ensures few { result.bytes ≤ so_far.bytes + 2 ^ 32 * length packets.now }
{
    let mut sends = so_far;
    for packet in packets {
        sends = with_packet(sends, id, moment, packet);
    }
    sends
}

// With this packet, where it is one of the cluster's.
fn with_packet(so_far: Sends, id: u32, moment: Moment, packet: &Sent) -> Sends
    requires { so_far.bytes + 2 ^ 32 ≤ 2 ^ 64 }
    ensures sends { (ds : List Deed) → AreSends id ds so_far → AreSends id (ds ++ probe_by moment packet.now) result }
    ensures few { result.bytes ≤ so_far.bytes + 2 ^ 32 }
{
    if is_for(packet.kind, id) {
        Sends {
            bytes: so_far.bytes + u64::from(packet.size),
            before_last: so_far.bytes,
            first: Some(so_far.first.unwrap_or(moment)),
            last: moment,
        }
    } else {
        so_far
    }
}

// Whether a packet of this kind was sent for the cluster.
fn is_for(kind: Kind, id: u32) -> bool
    ensures { result ≡ is_for id kind }
{
    match kind {
        Kind::Probe(k) => k == id,
        Kind::Audio | Kind::Media | Kind::Padding => false,
    }
}
