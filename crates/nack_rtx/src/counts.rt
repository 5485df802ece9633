//! How often each stored packet was sent again.

ghost use Rattle.std.specs.Prelude.{◌≡◌, ◌+◌, ◌^◌, ◌<◌, ◌≤◌, [], ◌∷◌, ◌++◌, length, IfOk, slice_get, slice_index, slice_set};
ghost use Rattle.std.specs.Option.{option_copied};
ghost use Rattle.circular_buffer.specs.Buffer.{buffer, keep_last};

use crate::MOST_STORED;
use circular_buffer::HeapCircularBuffer;
use gcc_units::NoMemory;
use std::alloc::Global;
use std::marker::Model;

/// A count for each stored packet, from the oldest to the newest.
#[derive(Drop)]
pub(crate) struct Counts {
    counts: HeapCircularBuffer<u32>,
}

impl Model for Counts {
    ghost use Rattle.std.specs.Prelude.{◌≡◌, ◌≤◌, List, ℕ, length};
    ghost use Rattle.nack_rtx.specs.declared.TheConstants.{MOST_STORED};

    ghost Value = { List ℕ };

    ghost view = { λ c. c.counts.items };

    ghost invariant = { λ c. (c.counts.capacity ≡ MOST_STORED) × (length c.counts.items ≤ MOST_STORED) };
}

impl Counts {
    /// No count. It takes the memory for all that there ever are.
    pub fn new(alloc: Global) -> Result<Counts, NoMemory>
        ensures { IfOk result (λ c. c ≡ []) }
    {
        Ok(Counts {
            counts: HeapCircularBuffer::with_capacity(alloc, MOST_STORED)?,
        })
    }

    /// The count at a place.
    pub fn get(&self, place: usize) -> Option<u32>
        ensures { result ≡ slice_get self.now place }
    {
        self.counts.get(place).copied()
    }

    /// Puts a 0 at the end. Where there are as many as are stored, the oldest goes.
    pub fn push(&mut self)
        ensures { self.new ≡ keep_last MOST_STORED (self.old ++ 0 ∷ []) }
    {
        self.counts.push_back(0);
    }

    /// Puts a count in the place of another.
    pub fn set(&mut self, place: usize, count: u32)
        ensures { self.new ≡ slice_set self.old place count }
    {
        if let Some(there) = self.counts.get_mut(place) {
            *there = count;
        }
    }

    /// The same counts once more.
    pub fn copy(&self, alloc: Global) -> Result<Counts, NoMemory>
        ensures { IfOk result (λ c. c ≡ self.now) }
    {
        let mut more = Counts::new(alloc)?;
        for count in self.counts.iter() {
            more.counts.push_back(*count);
        }
        Ok(more)
    }
}
