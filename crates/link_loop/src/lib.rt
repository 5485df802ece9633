//! A sender in a closed loop over a stated link.
//!
//! An audio and a video source, a pacer and a receiver ask a sender, millisecond by millisecond, what a made
//! trace asks. What a pace sends is offered to a link, and the receiver reports what arrives from it as
//! transport-wide feedback (draft-holmer-rmcat-transport-wide-cc-extensions-01, section 3.1). Reports come back
//! at once, and none is lost. The loop is this project's own.
#![tactic(auto)]

mod looper;
mod pacing;
mod receiving;
mod running;
mod sources;

pub use running::{LoopEnd, run_loop};

/// The most milliseconds of a run: ten minutes.
pub const MOST_MILLIS: u32 = 600_000;

/// The caller of the sources' calls (ours).
pub const SOURCES: u32 = 0;

/// The caller of the paces (ours).
pub const PACER: u32 = 1;

/// The caller of the reports (ours).
pub const REPORTER: u32 = 2;

/// The caller of the change that a run begins with (ours).
pub const OPENER: u32 = 3;

#[cfg(test)]
mod tests;
