//! The settings of a pacer.

use gcc_units::Rate;

/// The pacing rate that a pacer begins with, in bit/s: that of a sender's first target (ours).
pub const START_PACING: Rate = 750_000;

/// The window that a pacer begins with, in microseconds (ours; libwebrtc sends each 5 ms).
pub const START_WINDOW: u64 = 5_000;

/// The padding rate that a pacer begins with, in bit/s (ours).
pub const START_PADDING: Rate = 0;

/// What is asked of a pacer.
#[derive(Clone, Copy, PartialEq, Eq, Debug)]
pub struct Pacing {
    /// The pacing rate, in bit/s.
    pub rate: Rate,
    /// For how long both levels may gather, in microseconds.
    pub window: u64,
    /// The rate of padding, in bit/s.
    pub padding_rate: Rate,
    /// Whether audio is held back by the media level.
    pub paced_audio: bool,
}

/// What the time that passes next counts at.
#[derive(Clone, Copy, PartialEq, Eq, Debug)]
pub struct Tally {
    /// The rate in force, in bit/s.
    pub rate: Rate,
    /// In microseconds.
    pub window: u64,
    /// In bit/s.
    pub padding_rate: Rate,
}
