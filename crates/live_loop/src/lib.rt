//! One or two live senders in a closed loop over a stated link, and what was measured.
//!
//! Each sender has an audio and a video source, a pacer and a receiver of its own; all share one line with a
//! rate that may change, a queue before it that drops what does not fit, and a delay behind it, in which packets
//! may be lost or held up. The receiver's reports come back after the same delay, and none is lost. The loop and
//! its measures are this project's own. Moments and delays are microseconds, rates bit/s, sizes bytes.
#![tactic(auto)]

mod hearing;
mod line;
mod measures;
mod peer;
mod plan;
mod running;
mod sampling;
mod steering;
mod telling;
mod way;

pub use line::{Begun, Line, Packet};
pub use measures::{
    fairness, kept_below, mean_millis, per_mille, percentile_millis, reached_after, used_per_mille,
};
pub use plan::{
    ALL_PACKETS, GREATEST_LINE_RATE, LEAST_LINE_RATE, MOST_SECONDS, MOST_STEPS, MOST_WAIT, Plan,
    Step,
};
pub use running::{Measured, run_live};
pub use steering::{LoopFault, START};
pub use telling::told;

#[cfg(test)]
mod tests;
