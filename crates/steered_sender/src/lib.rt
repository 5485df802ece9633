//! A live sender whose rate the level control may steer.
//!
//! The control stands above the sender: after each report that was judged it makes its step, and asks for an
//! ordinary change of the settings that holds its rate as `start`, and a probe cluster where it asks for one. So
//! every law of the sender holds of a steered one, and what it did is a history of ordinary calls. Moments are
//! microseconds, rates bit/s, delays quarter-milliseconds.
//!
//! Those above use that each reply is the one of the history, in which the control's change stands right behind
//! the report that it follows from.
#![tactic(auto)]

mod choosing;
mod clustering;
pub mod laws;
mod measuring;
mod serving;
mod steered;
mod steering;

pub use steered::{Control, Heard, SteeredSender};
pub use steering::CONTROL_CALLER;

#[cfg(test)]
mod tests;
