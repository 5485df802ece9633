//! The last packets that were sent, with a running count of those that are not credited.

ghost use Rattle.std.specs.Prelude.{◌≡◌, ◌+◌, ◌-◌, ◌<◌, ◌≤◌, ◌∷◌, ◌++◌, [], false, length, drop, count_by, slice_get, slice_set, IfOk};
ghost use Rattle.std.specs.Option.{option_copied};
ghost use Rattle.circular_buffer.specs.Buffer.{buffer};
ghost use Rattle.sent_history.specs.Judging.{is_uncredited, uncredited_in};

use crate::slot::Slot;
use circular_buffer::HeapCircularBuffer;
use gcc_units::{KEPT_PACKETS, NoMemory};
use std::alloc::Global;
use std::marker::Model;

/// As many slots as are kept, from the oldest to the newest.
#[derive(Drop)]
pub struct Ring {
    slots: HeapCircularBuffer<Slot>,
    uncredited: u32,
}

impl Model for Ring {
    ghost use Rattle.std.specs.Prelude.{◌≡◌, ◌≤◌, List, length, count_by};
    ghost use Rattle.gcc_units.specs.declared.limits.TheConstants.{KEPT_PACKETS};
    ghost use Rattle.sent_history.specs.declared.slot.Slot.{Slot};
    ghost use Rattle.sent_history.specs.Judging.{is_uncredited};

    ghost Value = { List Slot };

    ghost view = { λ r. r.slots.items };

    ghost invariant = { λ r. (r.slots.capacity ≡ KEPT_PACKETS)
        × (length r.slots.items ≤ KEPT_PACKETS)
        × (r.uncredited ≡ count_by is_uncredited r.slots.items) };
}

impl Ring {
    /// No slot. It takes the memory for all that are ever kept.
    pub fn new(alloc: Global) -> Result<Self, NoMemory>
        ensures { IfOk result (λ r. r ≡ []) }
    {
        Ok(Ring {
            slots: HeapCircularBuffer::with_capacity(alloc, KEPT_PACKETS as usize)?,
            uncredited: 0,
        })
    }

    /// How many slots there are.
    pub fn len(&self) -> usize
        ensures len { result ≡ length self.now }
        ensures few { result ≤ KEPT_PACKETS }
    {
        self.slots.len()
    }

    /// How many of them are not credited.
    pub fn uncredited(&self) -> u32
        ensures { result ≡ count_by is_uncredited self.now }
    {
        self.uncredited
    }

    /// The slot at a place, counted from the oldest.
    pub fn get(&self, place: usize) -> Option<&Slot>
        ensures { option_copied result ≡ slice_get self.now place }
    {
        self.slots.get(place)
    }

    /// Puts a slot at the end. Where there are as many as are kept, the oldest goes.
    pub fn push(&mut self, slot: Slot)
        requires { slot.credited ≡ false }
        ensures { self.new ≡ drop (length self.old + 1 - KEPT_PACKETS) self.old ++ slot ∷ [] }
    {
        let expired = self.slots.push_back(slot);
        self.uncredited = self.uncredited + 1 - uncredited_in(expired);
    }

    /// Puts a slot in the place of another.
    pub fn replace(&mut self, place: usize, slot: Slot)
        requires { place < length self.old }
        ensures { self.new ≡ slice_set self.old place slot }
    {
        let before = uncredited_in(self.slots.get(place).copied());
        put(&mut self.slots, place, slot);
        self.uncredited = self.uncredited + uncredited_in(Some(slot)) - before;
    }
}

// Puts a slot in the place of another.
fn put(slots: &mut HeapCircularBuffer<Slot>, place: usize, slot: Slot)
    requires { place < length slots.old.items }
    ensures { slots.new ≡ buffer (slice_set slots.old.items place slot) slots.old.capacity }
{
    if let Some(kept) = slots.get_mut(place) {
        *kept = slot;
    }
}

// Whether there is a slot that is not credited, as a count.
fn uncredited_in(slot: Option<Slot>) -> u32
    ensures count { result ≡ uncredited_in slot }
    ensures few { result ≤ 1 }
{
    match slot {
        None => 0,
        Some(slot) => u32::from(!slot.credited),
    }
}
