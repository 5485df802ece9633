//! Sent packets, and verdicts on them.

use gcc_units::{Credit, Moment};

/// A packet that was sent.
#[derive(Clone, Copy, PartialEq, Eq, Debug)]
pub struct Outgoing {
    /// When it was sent, in microseconds.
    pub sent_at: Moment,
    /// Its bytes.
    pub size: u32,
    /// The probe cluster that it was sent for.
    pub cluster: Option<u32>,
}

/// A kept packet, and what reports said of it.
#[derive(Clone, Copy)]
pub struct Slot {
    pub packet: Outgoing,
    pub credited: bool,
    /// Whether a report said that it was not received.
    pub missed: bool,
}

/// How a status is judged.
#[derive(Clone, Copy)]
pub enum Verdict {
    /// It credits a packet.
    Received(Credit),
    /// It reports the packet of this number missing, for the first time.
    Missing(u64),
    /// It names no packet that is kept.
    Unknown,
    /// It says nothing new.
    Repeated,
}
