//! The record of a packet that was sent.

use gcc_units::{Duplicate, NoMemory, Sequence};
use std::alloc::Global;

/// What a packet was sent as.
#[derive(Clone, Copy, PartialEq, Eq, Debug)]
pub enum Kind {
    /// Audio, which no budget holds back.
    Audio,
    /// Media within the budget.
    Media,
    /// A packet of the probe cluster with this id.
    Probe(u32),
    /// A packet that carries no media.
    Padding,
}

/// A packet that was sent.
#[derive(Clone, Copy, PartialEq, Eq, Debug)]
pub struct Sent {
    /// Its transport-wide number: the count of packets sent before it
    /// (draft-holmer-rmcat-transport-wide-cc-extensions-01, section 2).
    pub number: u64,
    /// Which accepted packet it is, by its place among them; none for a padding packet.
    pub index: Option<u32>,
    pub kind: Kind,
    /// Its bytes.
    pub size: u32,
}

/// Sent packets in the order of their numbers.
pub type SentList = Sequence<Sent>;

impl Duplicate for Sent {
    fn duplicate(&self, _alloc: Global) -> Result<Sent, NoMemory> {
        Ok(*self)
    }
}
