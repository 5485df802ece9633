//! What an actor saw at a glance.

use gcc_units::{Duplicate, NoMemory, Rate, Sequence};
use std::alloc::Global;

/// A glance: how many calls an actor saw, and the target after them, in bit/s.
#[derive(Clone, Copy, PartialEq, Eq, Debug)]
pub struct Seen {
    pub actor: u32,
    pub calls: u32,
    pub target: Rate,
}

/// Glances, each actor's in their order.
pub type SeenList = Sequence<Seen>;

impl Duplicate for Seen {
    fn duplicate(&self, _alloc: Global) -> Result<Seen, NoMemory> {
        Ok(*self)
    }
}
