//! Serving a trace of one actor on a shared sender, where lost packets are sent again.
//!
//! Lines are served in order. A report whose bytes are a NACK is answered: the packets that are sent
//! again are handed in at its moment. Each packet that leaves is kept for that.
//!
//! Those above use that the sender's history is that of the calls, one after the other, with these packets
//! among them, and what is told of each NACK.
#![tactic(auto)]

mod asking;
mod keeping;
mod laws;
mod nack_line;
mod server;
mod serving;
mod stop;
mod text;

pub use laws::entries_are_few;
pub use nack_line::{NackLine, NackLineList};
pub use serving::{MOST_REPEATS, MOST_RESEND_LINES, Served, serve};
pub use text::nack_lines;

#[cfg(test)]
mod tests;
