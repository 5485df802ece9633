//! What is told of a NACK.

use gcc_units::Sequence;

/// What became of a NACK's numbers.
#[derive(Clone, Copy, PartialEq, Eq, Debug)]
pub struct NackLine {
    /// How many numbers it named.
    pub named: u32,
    /// How many of their packets were sent again.
    pub resent: u32,
    /// How many numbers no stored packet has.
    pub unknown: u32,
    /// How many numbers are those of packets that were sent again as often as may be.
    pub spent: u32,
}

/// What is told of NACKs, in the order in which they came.
pub type NackLineList = Sequence<NackLine>;
