//! A lock for callers on many threads: they wait in line, and all of them see beginnings of one
//! history.
//!
//! The rule: each caller draws a ticket, and the tickets are served by their numbers. Those above use that a
//! call's entry stands behind all that its caller had seen, and that at the end the one history has just each
//! seat's entries.
#![tactic(auto)]

mod entry;
mod law;
mod object;
mod seat;
mod steps;
mod turn;
mod view;

pub use entry::Entry;
pub use object::Object;
pub use seat::{Note, SEATS, Seat, SeatList};
pub use turn::Turn;

#[cfg(test)]
mod adder;
#[cfg(test)]
mod tests;
