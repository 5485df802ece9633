//! Lists that contracts see as their items and a promise of room.

ghost use Rattle.std.specs.Prelude.{◌≡◌, ℕ, ◌+◌, ◌-◌, ◌^◌, ◌<◌, ◌≤◌, ◌==◌, [], ◌∷◌, ◌++◌, length, IfSome, IfNone, IfOk, IfErr, IsOk, OnOk, OnErr, slice_get, vec_len, vec_capacity};
ghost use Rattle.std.specs.Option.{option_copied};
ghost use Rattle.gcc_units.specs.Listed.{Listed, bare};

use std::alloc::{AllocError, Global};
use std::marker::Model;

/// Memory ran out. What was asked for was not done.
#[derive(Clone, Copy, PartialEq, Eq, Debug)]
pub struct NoMemory;

impl From<AllocError> for NoMemory {
    ghost use Rattle.std.specs.Prelude.{◌≡◌};
    ghost use Rattle.gcc_units.specs.declared.sequence.NoMemory.{NoMemory};

    ghost from_gives = { λ _ made. made ≡ record {} };

    fn from(_error: AllocError) -> NoMemory {
        NoMemory
    }
}

/// A list of at most 2^32 - 1 items. Contracts see its items and its spare number: so many more
/// can be put at the end before memory is asked for.
#[derive(Drop)]
pub struct Sequence<T> {
    held: Vec<T>,
    room: u32,
}

impl<T> Model for Sequence<T> {
    ghost use Rattle.std.specs.Prelude.{◌+◌, ◌^◌, ◌≤◌, ◌<◌};
    ghost use Rattle.std.specs.Vec.{vec_len, vec_capacity};
    ghost use Rattle.gcc_units.specs.Listed.{Listed, coded_listed};

    ghost Value = { Listed T };

    ghost coded = { coded_listed T.code };

    ghost view = { λ s. record { items = s.held.items; spare = s.room } };

    ghost invariant = { λ s. (vec_len s.held + s.room ≤ vec_capacity s.held) × (vec_len s.held + s.room < 2 ^ 32) };
}

/// Bytes.
pub type Bytes = Sequence<u8>;

/// Ids.
pub type IdList = Sequence<u32>;

/// Sees to room for `n` items behind those of a list that promises `room` already, and answers how many it
/// promises then. At `NoMemory` the items are as before.
pub fn promise<T>(held: &mut Vec<T>, room: u32, n: u32) -> Result<u32, NoMemory>
    requires room { vec_len held.old + room ≤ vec_capacity held.old }
    requires few { vec_len held.old + room < 2 ^ 32 }
    ensures items { held.new.items ≡ held.old.items }
    ensures capacity { vec_capacity held.old ≤ vec_capacity held.new }
    ensures asked { IfOk result (λ promised. n ≤ promised) }
    ensures grows { IfOk result (λ promised. room ≤ promised) }
    ensures room { IfOk result (λ promised. vec_len held.new + promised ≤ vec_capacity held.new) }
    ensures few { IfOk result (λ promised. vec_len held.new + promised < 2 ^ 32) }
{
    if n <= room {
        return Ok(room);
    }
    if n > u32::MAX - held.len() as u32 {
        return Err(NoMemory);
    }
    held.reserve(n as usize)?;
    Ok(n)
}

impl<T> Sequence<T> {
    /// The empty list, with no room. It takes no memory.
    pub fn new(alloc: Global) -> Self
        ensures { result ≡ bare [] }
    {
        Sequence {
            held: Vec::new(alloc),
            room: 0,
        }
    }

    /// How many items there are.
    pub fn len(&self) -> u32
        ensures { result ≡ length self.now.items }
    {
        self.held.len() as u32
    }

    /// Whether there is no item.
    pub fn is_empty(&self) -> bool
        ensures { result ≡ (length self.now.items == 0) }
    {
        self.held.is_empty()
    }

    /// The item at a place, counted from 0; `None` exactly past the end.
    pub fn get(&self, k: u32) -> Option<&T>
        ensures { option_copied result ≡ slice_get self.now.items k }
    {
        self.held.get(k as usize)
    }

    /// The items.
    pub fn as_slice(&self) -> &[T]
        ensures items { result.now ≡ self.now.items }
        ensures bound { length result.now < 2 ^ 32 }
    {
        self.held.as_slice()
    }

    /// Makes the spare number at least `n`. At `NoMemory` the list is as before.
    pub fn reserve(&mut self, n: u32) -> Result<(), NoMemory>
        ensures items { self.new.items ≡ self.old.items }
        ensures room { OnOk result (n ≤ self.new.spare) }
        ensures grows { self.old.spare ≤ self.new.spare }
        ensures err { OnErr result (self.new ≡ self.old) }
    {
        self.room = promise(&mut self.held, self.room, n)?;
        Ok(())
    }

    /// Puts an item at the end. With spare room it is never refused; at `NoMemory` the list is as
    /// before and the item comes back.
    pub fn push(&mut self, item: T) -> Result<(), (NoMemory, T)>
        ensures ok { OnOk result (self.new ≡ record { items = self.old.items ++ item ∷ []; spare = self.old.spare - 1 }) }
        ensures err { IfErr result (λ e. (self.new ≡ self.old) × (e.1 ≡ item)) }
        ensures room { 0 < self.old.spare → IsOk result }
    {
        if self.room > 0 {
            self.put(item);
            return Ok(());
        }
        if self.len() == u32::MAX {
            return Err((NoMemory, item));
        }
        match self.held.push(item) {
            Ok(()) => Ok(()),
            Err(failed) => Err((NoMemory, failed.value)),
        }
    }

    /// Puts an item at the end, for which there is room.
    pub fn put(&mut self, item: T)
        requires { 0 < self.old.spare }
        ensures { self.new ≡ record { items = self.old.items ++ item ∷ []; spare = self.old.spare - 1 } }
    {
        self.held.push_reserved(item);
        self.room -= 1;
    }

    /// Takes the last item out, whose place is spare from now on; `None` exactly where there is no
    /// item.
    pub fn pop(&mut self) -> Option<T>
        ensures some { IfSome result (λ x. self.old.items ≡ self.new.items ++ x ∷ []) }
        ensures spare { IfSome result (λ x. self.new.spare ≡ self.old.spare + 1) }
        ensures none { IfNone result ((self.old.items ≡ []) × (self.new ≡ self.old)) }
    {
        let item = self.held.pop()?;
        self.room += 1;
        Some(item)
    }

    /// Gives up the promise of room, so that two lists of the same items are the same value.
    pub fn settle(&mut self)
        ensures { self.new ≡ bare self.old.items }
    {
        self.room = 0;
    }

    /// Gives up the promise of room, and the memory that no item uses.
    pub fn trim(&mut self)
        ensures { self.new ≡ bare self.old.items }
    {
        self.settle();
        self.held.shrink_to_fit();
    }

    /// The list of a vector's items, with no promise of room.
    pub fn from_vec(items: Vec<T>) -> Self
        requires { vec_len items < 2 ^ 32 }
        ensures { result ≡ bare items.items }
    {
        Sequence {
            held: items,
            room: 0,
        }
    }

    /// The items as a vector.
    pub fn into_vec(self) -> Vec<T>
        ensures items { result.items ≡ self.items }
        ensures bound { vec_len result < 2 ^ 32 }
    {
        self.held
    }
}

impl<T: Copy> Sequence<T> {
    /// Puts the items at the end of another list, which has room for them and has so much less then.
    pub fn fill(&self, other: &mut Sequence<T>)
        requires { length self.now.items ≤ other.old.spare }
        ensures items { other.new.items ≡ other.old.items ++ self.now.items }
        ensures spare { other.new.spare ≡ other.old.spare - length self.now.items }
    {
        for item in self.as_slice() {
            other.put(*item);
        }
    }
}

/// A value that can be made a second time.
pub trait Duplicate {
    /// The same value once more.
    fn duplicate(&self, alloc: Global) -> Result<Self, NoMemory>
        ensures { IfOk result (λ v. v ≡ self.now) };
}

impl Duplicate for u8 {
    fn duplicate(&self, _alloc: Global) -> Result<u8, NoMemory> {
        Ok(*self)
    }
}

impl Duplicate for u16 {
    fn duplicate(&self, _alloc: Global) -> Result<u16, NoMemory> {
        Ok(*self)
    }
}

impl Duplicate for u32 {
    fn duplicate(&self, _alloc: Global) -> Result<u32, NoMemory> {
        Ok(*self)
    }
}

impl Duplicate for u64 {
    fn duplicate(&self, _alloc: Global) -> Result<u64, NoMemory> {
        Ok(*self)
    }
}

impl<T: Duplicate + Drop> Duplicate for Sequence<T> {
    fn duplicate(&self, alloc: Global) -> Result<Sequence<T>, NoMemory> {
        self.copy(alloc)
    }
}

impl<T: Duplicate + Drop> Sequence<T> {
    /// The same list once more, with the same promise of room.
    pub fn copy(&self, alloc: Global) -> Result<Self, NoMemory>
        ensures { IfOk result (λ s. s ≡ self.now) }
    {
        let mut held = Vec::with_capacity(alloc, self.held.len() + self.room as usize)?;
        for item in self.held.as_slice() {
            held.push_reserved(item.duplicate(alloc)?);
        }
        Ok(Sequence {
            held,
            room: self.room,
        })
    }
}
