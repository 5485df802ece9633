//! What a report tells of each packet for the first time.

ghost use Rattle.std.specs.Prelude.{◌≡◌, pos, neg_ℤ, ◌+◌, ◌^◌, ◌≤◌, ◌≤ℤ◌, ◌++◌, length, IfOk, OnOk};
ghost use Rattle.gcc_units.specs.Listed.{bare};
ghost use Rattle.sent_history.specs.Crediting.{finding_in, findings};
ghost use Rattle.sent_history.specs.Judging.{running, slot_verdict};

use crate::judging::{delta_of, verdict_at};
use crate::kept_slots::KeptSlots;
use crate::slot::Verdict;
use gcc_units::{Credit, MOST_STATUSES, NoMemory, Sequence};
use std::alloc::Global;
use twcc_report::Status;

/// What a report tells of a packet for the first time.
#[derive(Clone, Copy)]
pub enum Finding {
    /// It arrived.
    Credited(Credit),
    /// It did not, by its number: how many were sent before it. A later report may credit it all the same.
    Missing(u64),
}

/// Findings in the order of their statuses.
pub type FindingList = Sequence<Finding>;

/// Adds what a verdict finds, if it finds anything.
fn note(found: &mut FindingList, verdict: Verdict) -> Result<(), NoMemory>
    ensures { OnOk result (found.old.spare ≡ 0 → found.new ≡ bare (found.old.items ++ finding_in verdict)) }
{
    let finding = match verdict {
        Verdict::Received(credit) => Finding::Credited(credit),
        Verdict::Missing(number) => Finding::Missing(number),
        Verdict::Unknown => return Ok(()),
        Verdict::Repeated => return Ok(()),
    };
    match found.push(finding) {
        Ok(()) => Ok(()),
        Err((failed, _finding)) => Err(failed),
    }
}

/// What the statuses find, in their order. The first delta counts from `start`.
pub fn findings_of(
    alloc: Global,
    slots: &KeptSlots,
    sent: u64,
    base: u16,
    start: i64,
    statuses: &[Status],
) -> Result<FindingList, NoMemory>
    requires slots { length slots.now ≤ sent }
    requires few { length statuses.now ≤ MOST_STATUSES }
    requires low { neg_ℤ (pos (2 ^ 61 + 2 ^ 31)) ≤ℤ start }
    requires high { start ≤ℤ pos (2 ^ 61 + 2 ^ 31) }
    ensures { IfOk result (λ list. list ≡ bare (findings (running (slot_verdict slots.now sent) sent base start statuses.now))) }
{
    let mut found = FindingList::new(alloc);
    let mut low = base;
    let mut arrival = start;
    for status in statuses {
        arrival += delta_of(*status);
        note(&mut found, verdict_at(slots, sent, low, *status, arrival))?;
        low = low.wrapping_add(1);
    }
    Ok(found)
}
