//! A media sender that callers on many threads share. Each has a seat. All calls stand in one
//! history, and each reply is the one that the entries before it determine.
//!
//! It is the sender under the turn lock. Those above use that a caller's answer is that of a one-thread sender
//! after all that the caller had seen, and that at the end the journal has just each seat's calls.
#![tactic(auto)]

mod held;
mod shared;

pub use held::Held;
pub use shared::{Glance, SenderNote, SenderSeat, SenderSeats, Shared};
