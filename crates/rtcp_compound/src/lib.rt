//! RTCP as a network hands it over: packets of RTCP one behind the other (RFC 3550, section 6.1; RFC 5506), and
//! the transport-wide feedback packets among them.
//!
//! The rule: a packet has version 2 and ends where its length field says; the next one begins there. What is no
//! transport-wide feedback is passed over. Which packets a compound must have is not asked (RFC 5506).
//!
//! Those above use that the feedback packets are found in their order, or the first place where no packet stands.
#![tactic(auto)]

mod cutting;
mod laws;

pub use cutting::{Part, PartList, ReadCompound, feedback_parts, is_feedback, next_packet};
pub use laws::bytes_are_cut_in_one_way;

#[cfg(test)]
mod tests;
