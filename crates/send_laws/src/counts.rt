//! What became of the packets that were sent.

ghost use Rattle.std.specs.Prelude.{◌≡◌, ◌+◌, ◌^◌, ◌<◌, ◌≤◌, nat_le, min, length, count_by};
ghost use Rattle.gcc_units.specs.declared.limits.TheConstants.{KEPT_PACKETS};
ghost use Rattle.sent_history.specs.Crediting.{account, outstanding};
ghost use Rattle.sent_history.specs.Balance.{expired};
ghost use Rattle.send_core.specs.History.{sent, sent_by};
ghost use Rattle.send_core.specs.Reports.{events};
ghost use Rattle.send_core.specs.Reply.{IsLegal};
ghost use Rattle.send_laws.specs.Credits.{credits, credited_numbers, is_from};

use crate::bytes::entries_have_bytes;
use crate::reading::entry_at;
use gcc_units::{Credit, KEPT_PACKETS};
use send_core::{Journal, Reply, Sender};

/// How many packets were sent, and what became of them.
#[derive(Clone, Copy, PartialEq, Eq, Debug)]
pub struct PacketCounts {
    pub sent: u64,
    /// Those that the replies to reports list as credited.
    pub credited: u64,
    /// Those that a report may still credit.
    pub outstanding: u64,
    /// Those that no report credited in time.
    pub expired: u64,
}

/// What became of the packets that a sender sent: each was credited, is outstanding or expired.
pub fn balance(sender: &Sender) -> PacketCounts
    ensures sent { result.sent ≡ length (sent sender.now) }
    ensures credited { result.credited ≡ length (credited_numbers sender.now) }
    ensures judged { result.credited ≡ length (account (events sender.now)).credited }
    ensures outstanding { result.outstanding ≡ outstanding (events sender.now) }
    ensures expired { result.expired ≡ expired (events sender.now) }
    ensures balance { result.sent ≡ result.credited + result.outstanding + result.expired }
{
    let journal = sender.journal();
    let sent = sent_in(journal);
    let credits = credits_of(journal, sent);
    let outstanding = sent.min(u64::from(KEPT_PACKETS)) - credits.kept;
    PacketCounts {
        sent,
        credited: credits.all,
        outstanding,
        expired: sent - credits.all - outstanding,
    }
}

// The credits that were given.
#[derive(Clone, Copy)]
struct Credits {
    all: u64,
    // Those of numbers from the first kept one on.
    kept: u64,
}

// How many packets were sent.
fn sent_in(journal: &Journal) -> u64
    ensures { result ≡ length (sent journal.now.items) }
{
    let mut count: u64 = 0;
    for k in 0..journal.len() {
        count += u64::from(records_in(&entry_at(journal, k).reply));
    }
    count
}

// How many packets a reply says were sent.
fn records_in(reply: &Reply) -> u32
    ensures { result ≡ length (sent_by reply.now) }
{
    match reply {
        Reply::Paced { sent, .. } => sent.len(),
        Reply::Accepted { .. } => 0,
        Reply::Credited { .. } => 0,
        Reply::Configured { .. } => 0,
        Reply::Refused { .. } => 0,
    }
}

// All credits, and those of numbers that are kept, where so many packets were sent.
fn credits_of(journal: &Journal, count: u64) -> Credits
    requires count { count ≡ length (sent journal.now.items) }
    requires legal { IsLegal journal.now.items }
    ensures all { result.all ≡ length (credited_numbers journal.now.items) }
    ensures judged { result.all ≡ length (account (events journal.now.items)).credited }
    ensures kept { outstanding (events journal.now.items) + result.kept ≡ min count KEPT_PACKETS }
    ensures balance { count ≡ result.all + outstanding (events journal.now.items) + expired (events journal.now.items) }
{
    entries_have_bytes(journal);
    credits_in(journal, count.saturating_sub(u64::from(KEPT_PACKETS)))
}

// All credits, and those of numbers from this one on.
fn credits_in(journal: &Journal, first: u64) -> Credits
    ensures all { result.all ≡ length (credited_numbers journal.now.items) }
    ensures kept { result.kept ≡ count_by (nat_le first) (credited_numbers journal.now.items) }
{
    let mut credits = Credits { all: 0, kept: 0 };
    for k in 0..journal.len() {
        credits = with_reply(credits, first, &entry_at(journal, k).reply);
    }
    credits
}

// With the credits of a reply.
fn with_reply(so_far: Credits, first: u64, reply: &Reply) -> Credits
    requires all { so_far.all + 2 ^ 32 ≤ 2 ^ 64 }
    requires kept { so_far.kept ≤ so_far.all }
    ensures all { result.all ≡ so_far.all + length (credits reply.now) }
    ensures kept { result.kept ≡ so_far.kept + count_by (is_from first) (credits reply.now) }
    ensures few { length (credits reply.now) < 2 ^ 32 }
{
    match reply {
        Reply::Credited { judged, .. } => Credits {
            all: so_far.all + u64::from(judged.received.len()),
            kept: so_far.kept + kept_in(judged.received.as_slice(), first),
        },
        Reply::Accepted { .. } => so_far,
        Reply::Paced { .. } => so_far,
        Reply::Configured { .. } => so_far,
        Reply::Refused { .. } => so_far,
    }
}

// How many credits are of numbers from this one on.
fn kept_in(credits: &[Credit], first: u64) -> u64
    ensures { result ≡ count_by (is_from first) credits.now }
{
    credits
        .iter()
        .filter(|credit| first <= credit.number)
        .count() as u64
}
