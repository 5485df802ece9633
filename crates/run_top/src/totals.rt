//! What was sent, counted.

ghost use Rattle.std.specs.Prelude.{◌≡◌, ◌+◌, ◌-◌, ◌^◌, ◌<◌, ◌≤◌, length, fold};
ghost use Rattle.send_core.specs.History.{sent, sent_by};
ghost use Rattle.run_top.specs.Totals.{IsSmall, counted, totals_of};

use gcc_units::MOST_ENTRIES;
use pacer::{Kind, Sent};
use send_core::{Journal, Reply};

/// How many packets were sent, their bytes, and how many of them are of each kind.
#[derive(Clone, Copy, PartialEq, Eq, Debug)]
pub struct Totals {
    pub packets: u64,
    pub bytes: u128,
    pub audio: u64,
    pub media: u64,
    pub probe: u64,
    pub padding: u64,
}

/// Nothing was sent.
const NOTHING: Totals = Totals {
    packets: 0,
    bytes: 0,
    audio: 0,
    media: 0,
    probe: 0,
    padding: 0,
};

/// One packet more.
#[tactic(auto, using(crate::proofs::CountedWhole::counted_small))]
fn counted(totals: Totals, packet: Sent) -> Totals
    requires small { IsSmall totals }
    requires few { totals.packets < 2 ^ 60 }
    ensures counted { result ≡ counted totals packet }
    ensures small { IsSmall result }
{
    let more = Totals {
        packets: totals.packets + 1,
        bytes: totals.bytes + u128::from(packet.size),
        ..totals
    };
    match packet.kind {
        Kind::Audio => Totals {
            audio: totals.audio + 1,
            ..more
        },
        Kind::Media => Totals {
            media: totals.media + 1,
            ..more
        },
        Kind::Probe(_) => Totals {
            probe: totals.probe + 1,
            ..more
        },
        Kind::Padding => Totals {
            padding: totals.padding + 1,
            ..more
        },
    }
}

/// The packets of these records more.
fn all_counted(totals: Totals, records: &[Sent]) -> Totals
    requires small { IsSmall totals }
    requires few { totals.packets + length records.now ≤ 2 ^ 60 }
    ensures counted { result ≡ fold counted totals records.now }
    ensures packets { result.packets ≡ totals.packets + length records.now }
    ensures small { IsSmall result }
{
    let mut sum = totals;
    for packet in records {
        sum = counted(sum, *packet);
    }
    sum
}

/// The packets of a reply more.
fn reply_counted(totals: Totals, reply: &Reply) -> Totals
    requires small { IsSmall totals }
    requires few { totals.packets ≤ 2 ^ 59 }
    ensures counted { result ≡ fold counted totals (sent_by reply.now) }
    ensures packets { result.packets ≤ totals.packets + (2 ^ 32 - 1) }
    ensures small { IsSmall result }
{
    match reply {
        Reply::Paced { sent, .. } => all_counted(totals, sent.as_slice()),
        Reply::Accepted { .. }
        | Reply::Credited { .. }
        | Reply::Configured { .. }
        | Reply::Refused { .. } => totals,
    }
}

/// What was sent with all entries of a journal.
pub fn count_sent(journal: &Journal) -> Totals
    requires { length journal.now.items ≤ MOST_ENTRIES }
    ensures { result ≡ totals_of (sent journal.now.items) }
{
    let mut sum = NOTHING;
    for k in 0..journal.len() {
        let Some(entry) = journal.entry(k) else {
            unreachable!()
        };
        sum = reply_counted(sum, &entry.reply);
    }
    sum
}
