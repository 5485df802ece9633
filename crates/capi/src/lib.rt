//! The bodies of the C library's calls, in plain Rust: a sender that hands out one packet at a time,
//! and a number for each cause.
#![tactic(auto)]

mod changing;
mod controls;
mod fault;
mod feedback;
mod looking;
mod popping;
mod sender;
mod stamping;
mod telling;

pub use changing::{Settings, StreamGiven};
pub use controls::{START, control_named};
pub use fault::Fault;
pub use feedback::Heard;
pub use looking::{
    NO_TIME, ProbeTold, QueueTold, RatesTold, ResultTold, ShareTold, StatsTold, TotalTold,
};
pub use popping::Popped;
pub use sender::Sender;
pub use stamping::{place_in, stamp};
pub use telling::{
    Info, NO_INDEX, tell_done, tell_found, tell_heard, tell_index, tell_moment, tell_popped,
    tell_probe, tell_share,
};
