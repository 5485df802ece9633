//! Judging the statuses of a report, and marking the packets that they name.

ghost use Rattle.std.specs.Prelude.{◌≡◌, ℕ, pos, neg_ℤ, ◌+◌, ◌-◌, ◌*◌, ◌%◌, ◌^◌, ◌<◌, ◌≤◌, ◌≤ℤ◌, ◌∷◌, ◌++◌, [], List, length, count_by, All, IfOk, slice_index_or};
ghost use Rattle.std.specs.Option.{option_copied};
ghost use Rattle.gcc_units.specs.Unwrapping.{named_number};
ghost use Rattle.sent_history.specs.declared.slot.Slot.{Slot};
ghost use Rattle.sent_history.specs.declared.slot.Verdict.{Verdict};
ghost use Rattle.sent_history.specs.Crediting.{is_received, delta_of, verdict_on, credit_in, told, ArrivesInRange};
ghost use Rattle.sent_history.specs.Judging.{kept_slot, slot_verdict, running, settled, marked, marked_if, is_number, all_marks};

use crate::kept_slots::KeptSlots;
use crate::slot::{Slot, Verdict};
use gcc_units::{Credit, Judged, MOST_STATUSES, NoMemory, Sequence, unwrap16};
use std::alloc::Global;
use twcc_report::Status;

/// Whether the status says that its packet was received.
pub fn is_received(status: Status) -> bool
    ensures { result ≡ is_received status }
{
    match status {
        Status::NotReceived => false,
        Status::Small(_) => true,
        Status::Large(_) => true,
    }
}

/// How much later than the packet received before it, in quarter-milliseconds.
pub(crate) fn delta_of(status: Status) -> i64
    ensures value { result ≡ delta_of status }
    ensures low { neg_ℤ (pos 32768) ≤ℤ result }
    ensures high { result ≤ℤ pos 32768 }
{
    match status {
        Status::NotReceived => 0,
        Status::Small(delta) => i64::from(delta),
        Status::Large(delta) => i64::from(delta),
    }
}

/// The slot of a packet, where it is kept.
#[tactic(auto, unfolding(crate::specs::Judging::kept_slot))]
fn kept_slot(slots: &KeptSlots, sent: u64, number: u64) -> Option<&Slot>
    requires { length slots.now ≤ sent }
    ensures { option_copied result ≡ kept_slot slots.now sent number }
{
    let first = sent - slots.len() as u64;
    if number < first {
        return None;
    }
    slots.get((number - first) as usize)
}

/// The verdict on a status that names a kept packet.
#[tactic(auto, unfolding(crate::specs::Crediting::verdict_on))]
fn verdict_on(slot: &Slot, number: u64, status: Status, arrival: i64) -> Verdict
    ensures { result
        ≡ verdict_on slot.now.credited slot.now.missed number slot.now.packet status arrival }
{
    if slot.credited {
        return Verdict::Repeated;
    }
    if is_received(status) {
        return Verdict::Received(Credit {
            number,
            sent_at: slot.packet.sent_at,
            arrival,
            size: slot.packet.size,
            cluster: slot.packet.cluster,
        });
    }
    if slot.missed {
        Verdict::Repeated
    } else {
        Verdict::Missing(number)
    }
}

/// The verdict on a status that names by these low 16 bits.
#[tactic(auto, unfolding(crate::specs::Judging::slot_verdict))]
pub(crate) fn verdict_at(
    slots: &KeptSlots,
    sent: u64,
    low: u16,
    status: Status,
    arrival: i64,
) -> Verdict
    requires { length slots.now ≤ sent }
    ensures { result ≡ slot_verdict slots.now sent status (named_number sent low) arrival }
{
    let Some(number) = unwrap16(sent, low) else {
        return Verdict::Unknown;
    };
    match kept_slot(slots, sent, number) {
        None => Verdict::Unknown,
        Some(slot) => verdict_on(slot, number, status, arrival),
    }
}

/// Adds a verdict to those that are told. There is room for a credit.
pub(crate) fn tell(judged: &mut Judged, verdict: Verdict)
    requires few { (before : List Verdict) × (settled judged.old ≡ told before) × (length before < MOST_STATUSES) }
    requires room { length (credit_in verdict) ≤ judged.old.received.spare }
    ensures told { (before : List Verdict) → settled judged.old ≡ told before
        → settled judged.new ≡ told (before ++ verdict ∷ []) }
    ensures room { judged.new.received.spare + length (credit_in verdict) ≡ judged.old.received.spare }
{
    match verdict {
        Verdict::Received(credit) => judged.received.put(credit),
        Verdict::Missing(_) => judged.missing += 1,
        Verdict::Unknown => judged.unknown += 1,
        Verdict::Repeated => judged.repeated += 1,
    }
}

/// Marks a packet by what a status says of it.
fn mark(slot: &mut Slot, status: Status)
    ensures { slot.new ≡ marked status slot.old }
{
    if is_received(status) {
        slot.credited = true;
    } else {
        slot.missed = true;
    }
}

/// Marks the packet that a status names, where it is kept.
pub(crate) fn mark_number(slots: &mut KeptSlots, sent: u64, low: u16, status: Status)
    requires { length slots.old ≤ sent }
    ensures length { length slots.new ≡ length slots.old }
    ensures marks { (k : ℕ) (d : Slot) → k < length slots.old
        → slice_index_or slots.new k d
        ≡ marked_if (is_number (named_number sent low) (sent - length slots.old + k)) status (slice_index_or slots.old k d) }
{
    let Some(number) = unwrap16(sent, low) else {
        return;
    };
    let first = sent - slots.len() as u64;
    if number >= first {
        let place = (number - first) as usize;
        if let Some(kept) = slots.get(place) {
            let mut slot = *kept;
            mark(&mut slot, status);
            slots.replace(place, slot);
        }
    }
}
