//! The packets that wait to be sent, and which of them goes next (`PrioritizedPacketQueue` of libwebrtc).
//!
//! The rule: audio before retransmissions before video and forward error correction, and within a rank the
//! packet that came first. [`Queues`] keeps a [`Ticket`] for each waiting packet. Contracts see it as the
//! list of the waiting tickets, in the order of their arrival.
//!
//! Those above use that the head has the least pair of rank and index, and the sums of what waits.
#![tactic(auto)]

mod queues;
mod ticket;

pub use queues::Queues;
pub use ticket::{Full, Ticket};

#[cfg(test)]
mod tests;
