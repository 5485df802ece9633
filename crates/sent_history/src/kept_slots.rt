//! The last packets that were sent, and which of them are fresh: neither credited nor missed.

ghost use Rattle.std.specs.Prelude.{◌≡◌, ◌+◌, ◌-◌, ◌<◌, ◌≤◌, ◌∷◌, ◌++◌, [], ℕ, true, false, length, drop, count_by, slice_get, slice_set, slice_index_or, IfOk};
ghost use Rattle.std.specs.Option.{option_copied};
ghost use Rattle.sent_history.specs.declared.slot.Slot.{Slot};
ghost use Rattle.sent_history.specs.Judging.{is_uncredited};
ghost use Rattle.sent_history.specs.Fresh.{bit_of, is_fresh};

use crate::place_set::PlaceSet;
use crate::ring::Ring;
use crate::slot::Slot;
use gcc_units::{KEPT_PACKETS, NoMemory};
use std::alloc::Global;
use std::marker::Model;

/// How many slots are kept.
const PLACES: usize = KEPT_PACKETS as usize;

/// As many slots as are kept, from the oldest to the newest. The slot at a place stands in the set at that place
/// behind `origin`, in a circle.
#[derive(Drop)]
pub struct KeptSlots {
    slots: Ring,
    fresh: PlaceSet,
    origin: usize,
}

impl Model for KeptSlots {
    ghost use Rattle.std.specs.Prelude.{◌<◌, ◌≤◌, List, length};
    ghost use Rattle.gcc_units.specs.declared.limits.TheConstants.{KEPT_PACKETS};
    ghost use Rattle.sent_history.specs.declared.slot.Slot.{Slot};
    ghost use Rattle.sent_history.specs.Fresh.{HasFresh};

    ghost Value = { List Slot };

    ghost view = { λ r. r.slots };

    ghost invariant = { λ r. (length r.slots ≤ KEPT_PACKETS) × (r.origin < KEPT_PACKETS) × HasFresh r.origin r.fresh r.slots };
}

impl KeptSlots {
    /// No slot. It takes the memory for all that are ever kept.
    pub fn new(alloc: Global) -> Result<Self, NoMemory>
        ensures { IfOk result (λ r. r ≡ []) }
    {
        Ok(KeptSlots {
            slots: Ring::new(alloc)?,
            fresh: PlaceSet::new(alloc)?,
            origin: 0,
        })
    }

    /// How many slots there are.
    pub fn len(&self) -> usize
        ensures len { result ≡ length self.now }
        ensures few { result ≤ KEPT_PACKETS }
    {
        self.slots.len()
    }

    /// How many of them are not credited.
    pub fn uncredited(&self) -> u32
        ensures { result ≡ count_by is_uncredited self.now }
    {
        self.slots.uncredited()
    }

    /// The slot at a place, counted from the oldest.
    pub fn get(&self, place: usize) -> Option<&Slot>
        ensures { option_copied result ≡ slice_get self.now place }
    {
        self.slots.get(place)
    }

    /// Puts a fresh slot at the end. Where there are as many as are kept, the oldest goes.
    pub fn push(&mut self, slot: Slot)
        requires credited { slot.credited ≡ false }
        requires missed { slot.missed ≡ false }
        ensures { self.new ≡ drop (length self.old + 1 - KEPT_PACKETS) self.old ++ slot ∷ [] }
    {
        let len = self.slots.len();
        self.fresh.insert((self.origin + len) % PLACES);
        self.slots.push(slot);
        self.origin = (self.origin + (len + 1).saturating_sub(PLACES)) % PLACES;
    }

    /// Puts a slot that is no longer fresh in the place of another.
    pub fn replace(&mut self, place: usize, slot: Slot)
        requires inside { place < length self.old }
        requires fresh { is_fresh slot ≡ false }
        ensures { self.new ≡ slice_set self.old place slot }
    {
        self.fresh.remove((self.origin + place) % PLACES);
        self.slots.replace(place, slot);
    }

    /// The place of the first fresh slot from `from` on, or `to` where none is below it.
    pub fn next_fresh(&self, from: usize, to: usize) -> usize
        requires order { from ≤ to }
        requires inside { to ≤ length self.now }
        ensures low { from ≤ result }
        ensures high { result ≤ to }
        ensures none { (k : ℕ) (d : Slot) → from ≤ k → k < result → is_fresh (slice_index_or self.now k d) ≡ false }
        ensures found { (d : Slot) → result < to → is_fresh (slice_index_or self.now result d) ≡ true }
    {
        let turn = PLACES - self.origin;
        let middle = turn.max(from).min(to);
        let place = next_from(&self.fresh, (self.origin + from) % PLACES, from, middle);
        if place < middle {
            return place;
        }
        next_from(&self.fresh, (self.origin + middle) % PLACES, middle, to)
    }
}

/// The first from `from` on that is in the set, where the set has `from` at the place `base`; `to` where none is
/// below it.
fn next_from(fresh: &PlaceSet, base: usize, from: usize, to: usize) -> usize
    requires order { from ≤ to }
    requires inside { base + (to - from) ≤ 32768 }
    ensures low { from ≤ result }
    ensures high { result ≤ to }
    ensures none { (k : ℕ) → from ≤ k → k < result → bit_of fresh.now (base + (k - from)) ≡ 0 }
    ensures found { result < to → bit_of fresh.now (base + (result - from)) ≡ 1 }
{
    fresh.first(base, base + (to - from)) - base + from
}
