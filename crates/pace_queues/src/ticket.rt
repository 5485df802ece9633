use gcc_units::{Class, Moment};

/// What is kept of a packet while it waits.
#[derive(Clone, Copy, Debug, PartialEq, Eq)]
pub struct Ticket {
    /// The packet's place among the accepted packets, from 0.
    pub index: u32,
    /// The packet's class, whose rank decides what goes first.
    pub class: Class,
    /// The packet's RTP bytes.
    pub size: u32,
    /// When the packet was accepted, in microseconds.
    pub accepted_at: Moment,
}

/// As many packets wait as may.
#[derive(Clone, Copy, Debug, PartialEq, Eq)]
pub struct Full {
    /// How many wait.
    pub waiting: u32,
}
