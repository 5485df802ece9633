//! A media sender for calls without end: the same replies as the sender with a journal, and no
//! journal. The history of its calls stands in its contracts alone. What it keeps are the packets
//! that wait, the last sent packets, the probe clusters that were planned, and what the replies add
//! up to. From these it says when the next packet may leave, what waits, and what the whole history
//! comes to.
#![tactic(auto)]

mod live;
mod looking;
mod packets;
mod serving;
mod stamping;
mod sums;

pub use live::{LiveFault, LiveSender};
pub use looking::{Counters, Queue};
pub use sums::{MOST_COUNTED, SentTotals, Total};

#[cfg(test)]
mod tests;
