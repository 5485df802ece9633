//! The pacer: which of the packets that wait leave in one pace, and what they spend (`PacingController` of
//! libwebrtc).
//!
//! The rule: audio that is not paced, then what a due probe cluster wants, then media while its level is above
//! 0, then padding; each packet by the first that applies, at most 64. The rules, the levels, the rate in force
//! and the padding are this project's own.
//!
//! Those above use that a pace is the longest list of records by these rules, and what it leaves of levels and
//! queues.
#![tactic(auto)]

mod course;
mod force;
mod opening;
mod pacer;
mod pacing;
mod sent;

pub use pacer::Pacer;
pub use pacing::{Pacing, START_PACING, START_PADDING, START_WINDOW, Tally};
pub use sent::{Kind, Sent, SentList};
