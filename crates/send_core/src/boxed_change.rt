//! A change of the settings on the heap, so that the calls of a journal are small.

ghost use Rattle.std.specs.Prelude.{◌≡◌, IfOk};

use crate::call::Change;
use gcc_units::NoMemory;
use std::alloc::Global;
use std::marker::Model;

/// A change of the settings that stands on the heap.
#[derive(Drop)]
pub struct BoxedChange {
    held: Box<Change>,
}

impl Model for BoxedChange {
    ghost use Rattle.send_core.specs.declared.call.Change.{Change};

    ghost Value = { Change };

    ghost view = { λ b. b.held.value };
}

impl BoxedChange {
    /// Puts a change on the heap.
    pub fn new(alloc: Global, change: Change) -> Result<Self, NoMemory>
        ensures { IfOk result (λ boxed. boxed ≡ change) }
    {
        match Box::new(alloc, change) {
            Ok(held) => Ok(BoxedChange { held }),
            Err(_failed) => Err(NoMemory),
        }
    }

    /// The change.
    pub fn get(&self) -> &Change
        ensures { result.now ≡ self.now }
    {
        &self.held
    }

    /// The change, taken off the heap.
    pub fn into_change(self) -> Change
        ensures { result ≡ self }
    {
        Box::into_inner(self.held)
    }
}
