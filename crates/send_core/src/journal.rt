//! The entries of all calls that were served.

ghost use Rattle.std.specs.Prelude.{◌≡◌, ◌==◌, ◌<◌, [], ◌∷◌, ◌++◌, ◌≤◌, ◌↔◌, Some, length, map, take, IfOk, OnOk, IsNone, slice_get};
ghost use Rattle.std.specs.Option.{option_copied};
ghost use Rattle.send_core.specs.History.{AcceptedPacket, accepted, accepted_by, wire_in};
ghost use Rattle.send_core.specs.Estimates.{target as target_of};
ghost use Rattle.send_core.specs.Levels.{tally_of};

use crate::call::{Call, Entry, Reply};
use gcc_units::{IdList, NoMemory, Rate, Sequence};
use pacer::Tally;
use std::alloc::Global;
use std::marker::Model;

/// The entries of a sender, the oldest first.
#[derive(Drop)]
pub struct Journal {
    entries: Sequence<Entry>,
    /// For each accepted packet the number of its entry.
    places: IdList,
    /// What the time after the first n entries counts at, for each n.
    tallies: Sequence<Tally>,
    /// The target rate after all entries, in bit/s.
    target: Rate,
}

impl Model for Journal {
    ghost use Rattle.gcc_units.specs.Listed.{Listed};
    ghost use Rattle.send_core.specs.declared.call.Entry.{Entry};

    ghost Value = { Listed Entry };

    ghost use Rattle.send_core.specs.Places.{entries_of, IsKept};

    ghost view = { entries_of };

    ghost invariant = { IsKept };
}

impl Journal {
    /// No entry yet. It takes the memory of the first tally.
    pub(crate) fn new(alloc: Global, first: Tally, target: Rate) -> Result<Self, NoMemory>
        requires tally { first ≡ tally_of [] }
        requires target { target ≡ target_of [] }
        ensures { IfOk result (λ j. j.items ≡ []) }
    {
        let mut tallies = Sequence::new(alloc);
        tallies.reserve(1)?;
        tallies.put(first);
        Ok(Journal {
            entries: Sequence::new(alloc),
            places: IdList::new(alloc),
            tallies,
            target,
        })
    }

    /// How many entries there are.
    pub fn len(&self) -> u32
        ensures { result ≡ length self.now.items }
    {
        self.entries.len()
    }

    /// Whether there is no entry.
    pub fn is_empty(&self) -> bool
        ensures { result ≡ (length self.now.items == 0) }
    {
        self.entries.is_empty()
    }

    /// An entry by its number, from 0; `None` exactly past the end.
    pub fn entry(&self, k: u32) -> Option<&Entry>
        ensures { option_copied result ≡ slice_get self.now.items k }
    {
        self.entries.get(k)
    }

    /// The rate in force, the window and the padding rate after the first `n` entries; `None` exactly
    /// where there are fewer.
    pub fn tally(&self, n: u32) -> Option<Tally>
        ensures some { n ≤ length self.now.items → result ≡ Some (tally_of (take n self.now.items)) }
        ensures none { IsNone result ↔ (length self.now.items < n) }
    {
        self.tallies.get(n).copied()
    }

    /// The target rate after all entries, in bit/s.
    pub fn target(&self) -> Rate
        ensures { result ≡ target_of self.now.items }
    {
        self.target
    }

    /// Makes room for one more entry.
    pub(crate) fn reserve(&mut self) -> Result<(), NoMemory>
        ensures items { self.new.items ≡ self.old.items }
        ensures room { OnOk result (0 < self.new.spare) }
    {
        self.places.reserve(1)?;
        self.tallies.reserve(1)?;
        self.entries.reserve(1)
    }

    /// Adds an entry, for which there is room, and the tally and the target after it.
    pub(crate) fn add(&mut self, entry: Entry, tally: Tally, target: Rate)
        requires room { 0 < self.old.spare }
        requires tally { tally ≡ tally_of (self.old.items ++ entry ∷ []) }
        requires target { target ≡ target_of (self.old.items ++ entry ∷ []) }
        ensures { self.new.items ≡ self.old.items ++ entry ∷ [] }
    {
        note_place(&mut self.places, self.entries.len(), &entry);
        self.tallies.put(tally);
        self.target = target;
        self.entries.put(entry);
    }

    /// The bytes of an accepted packet.
    pub(crate) fn packet(&self, index: u32) -> &[u8]
        requires { index < length (accepted self.now.items) }
        ensures { slice_get (map wire_in (accepted self.now.items)) index ≡ Some result.now }
    {
        let Some(place) = self.places.get(index) else {
            unreachable!()
        };
        let Some(entry) = self.entries.get(*place) else {
            unreachable!()
        };
        match &entry.call {
            Call::Enqueue { wire, .. } => wire.as_slice(),
            Call::Pace { .. } => unreachable!(),
            Call::Report { .. } => unreachable!(),
            Call::Configure { .. } => unreachable!(),
        }
    }
}

/// Where the entry is that of an accepted packet, its number is kept.
fn note_place(places: &mut IdList, number: u32, entry: &Entry)
    requires { 0 < places.old.spare }
    ensures { places.new.items ≡ places.old.items ++ map (λ (p : AcceptedPacket). number) (accepted_by entry.now.call entry.now.reply) }
{
    if is_accepted(entry) {
        places.put(number);
    }
}

/// Whether the entry is that of an accepted packet.
fn is_accepted(entry: &Entry) -> bool
    ensures { result ≡ (length (accepted_by entry.now.call entry.now.reply) == 1) }
{
    match (&entry.call, &entry.reply) {
        (Call::Enqueue { .. }, Reply::Accepted { .. }) => true,
        _ => false,
    }
}
