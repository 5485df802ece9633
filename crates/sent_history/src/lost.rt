//! Runs of lost statuses: how they are judged, and what they mark. The work goes with the fresh packets that they
//! name, and with one step for 64 packets that are kept.

ghost use Rattle.std.specs.Prelude.{◌≡◌, ℕ, ℤ, ◌+◌, ◌-◌, ◌%◌, ◌^◌, ◌<◌, ◌≤◌, ◌≢◌, ◌++◌, List, length, replicate, slice_index_or, IfSome};
ghost use Rattle.twcc_report.specs.declared.report.Status.TheVariants.{NotReceived};
ghost use Rattle.sent_history.specs.declared.slot.Slot.{Slot};
ghost use Rattle.sent_history.specs.declared.slot.Verdict.{Verdict};
ghost use Rattle.sent_history.specs.Crediting.{told};
ghost use Rattle.sent_history.specs.Judging.{slot_verdict, running, settled, all_marks};
ghost use Rattle.sent_history.specs.Fresh.{fresh_in};
ghost use Rattle.sent_history.specs.Stretches.{IsStretch, with_stretch, Agrees, missed};

use crate::kept_slots::KeptSlots;
use crate::slot::Slot;
use gcc_units::{Judged, MOST_STATUSES};

/// Packets in a row that a run names: so many from a place on that are kept, or so many that are not.
#[derive(Clone, Copy)]
pub struct Stretch {
    place: Option<usize>,
    count: u16,
}

/// The longest stretch that a run begins with.
fn stretch_at(kept: usize, sent: u64, low: u16, left: u16) -> Stretch
    requires kept { kept ≤ sent }
    requires few { kept ≤ 32768 }
    requires some { 1 ≤ left }
    ensures { IsStretch sent kept low left result }
{
    let age = (sent % 65_536 + 65_535 - u64::from(low)) % 65_536;
    let kept = kept as u64;
    if age < kept {
        Stretch {
            place: Some((kept - 1 - age) as usize),
            count: u64::from(left).min(age + 1) as u16,
        }
    } else {
        Stretch {
            place: None,
            count: u64::from(left).min(age - kept + 1) as u16,
        }
    }
}

/// How many slots from one place up to another are fresh.
fn missing_in(slots: &KeptSlots, from: usize, to: usize) -> u32
    requires order { from ≤ to }
    requires inside { to ≤ length slots.now }
    requires few { to ≤ 32768 }
    ensures count { result ≡ fresh_in slots.now from (to - from) }
    ensures few { result ≤ to - from }
{
    let mut at = from;
    let mut count = 0;
    while at < to {
        let place = slots.next_fresh(at, to);
        if place == to {
            return count;
        }
        count += 1;
        at = place + 1;
    }
    count
}

/// Adds the verdicts on a stretch to those that are told.
fn tell_stretch(judged: &mut Judged, slots: &KeptSlots, stretch: Stretch)
    requires inside { IfSome stretch.place (λ place. place + stretch.count ≤ length slots.now) }
    requires few { length slots.now ≤ 32768 }
    requires missing { judged.old.missing + stretch.count < 2 ^ 32 }
    requires unknown { judged.old.unknown + stretch.count < 2 ^ 32 }
    requires repeated { judged.old.repeated + stretch.count < 2 ^ 32 }
    ensures { judged.new ≡ with_stretch slots.now judged.old stretch.place stretch.count }
{
    let Some(place) = stretch.place else {
        judged.unknown += u32::from(stretch.count);
        return;
    };
    let missing = missing_in(slots, place, place + stretch.count as usize);
    judged.missing += missing;
    judged.repeated += u32::from(stretch.count) - missing;
}

/// Adds the verdicts on a run of lost statuses to those that are told.
pub fn tell_lost(judged: &mut Judged, slots: &KeptSlots, sent: u64, low: u16, count: u16)
    requires slots { length slots.now ≤ sent }
    requires few { (before : List Verdict) × (settled judged.old ≡ told before) × (length before + count ≤ MOST_STATUSES) }
    ensures told { (before : List Verdict) (arrived : ℤ) → settled judged.old ≡ told before
        → settled judged.new ≡ told (before ++ running (slot_verdict slots.now sent) sent low arrived (replicate count NotReceived)) }
    ensures room { judged.new.received.spare ≡ judged.old.received.spare }
{
    let mut next = low;
    let mut left = count;
    while left > 0 {
        let stretch = stretch_at(slots.len(), sent, next, left);
        tell_stretch(judged, slots, stretch);
        next = next.wrapping_add(stretch.count);
        left -= stretch.count;
    }
}

/// Marks the fresh slots from one place up to another as missed.
fn miss_in(slots: &mut KeptSlots, from: usize, to: usize)
    requires order { from ≤ to }
    requires inside { to ≤ length slots.old }
    ensures length { length slots.new ≡ length slots.old }
    ensures named { (k : ℕ) (d : Slot) → from ≤ k → k < to → Agrees (slice_index_or slots.new k d) (missed (slice_index_or slots.old k d)) }
    ensures before { (k : ℕ) (d : Slot) → k < from → slice_index_or slots.new k d ≡ slice_index_or slots.old k d }
    ensures behind { (k : ℕ) (d : Slot) → to ≤ k → slice_index_or slots.new k d ≡ slice_index_or slots.old k d }
{
    let mut at = from;
    while at < to {
        let place = slots.next_fresh(at, to);
        if place == to {
            return;
        }
        miss(slots, place);
        at = place + 1;
    }
}

/// Marks a slot as missed.
fn miss(slots: &mut KeptSlots, place: usize)
    requires { place < length slots.old }
    ensures length { length slots.new ≡ length slots.old }
    ensures named { (d : Slot) → slice_index_or slots.new place d ≡ missed (slice_index_or slots.old place d) }
    ensures others { (k : ℕ) (d : Slot) → k ≢ place → slice_index_or slots.new k d ≡ slice_index_or slots.old k d }
{
    if let Some(kept) = slots.get(place) {
        let mut slot = *kept;
        slot.missed = true;
        slots.replace(place, slot);
    }
}

/// Marks the packets of a stretch, where they are kept.
fn mark_stretch(slots: &mut KeptSlots, sent: u64, low: u16, left: u16, stretch: Stretch)
    requires slots { length slots.old ≤ sent }
    requires stretch { IsStretch sent (length slots.old) low left stretch }
    requires low { low < 65536 }
    ensures length { length slots.new ≡ length slots.old }
    ensures marks { (k : ℕ) (d : Slot) → k < length slots.old
        → Agrees (slice_index_or slots.new k d)
        (all_marks sent low (replicate stretch.count NotReceived) (sent - length slots.old + k) (slice_index_or slots.old k d)) }
{
    if let Some(place) = stretch.place {
        miss_in(slots, place, place + stretch.count as usize);
    }
}

/// Marks the packets that a run of lost statuses names.
pub fn mark_lost(slots: &mut KeptSlots, sent: u64, low: u16, count: u16)
    requires { length slots.old ≤ sent }
    ensures length { length slots.new ≡ length slots.old }
    ensures marks { (k : ℕ) (d : Slot) → k < length slots.old
        → Agrees (slice_index_or slots.new k d)
        (all_marks sent low (replicate count NotReceived) (sent - length slots.old + k) (slice_index_or slots.old k d)) }
{
    let mut next = low;
    let mut left = count;
    while left > 0 {
        let stretch = stretch_at(slots.len(), sent, next, left);
        mark_stretch(slots, sent, next, left, stretch);
        next = next.wrapping_add(stretch.count);
        left -= stretch.count;
    }
}
