//! NACK and retransmission.
//!
//! A receiver names lost packets by the generic NACK (RFC 4585, section 6.2.1), and the sender sends
//! them again in the retransmission payload format (RFC 4588, section 4).
#![tactic(auto)]

mod counts;
mod fault;
mod laws;
mod nack;
mod named;
mod reading;
mod resender;
mod stored;

pub use fault::{NackFault, ReadNack};
pub use laws::{
    lost_are_the_named, none_beyond_its_repeats, one_nack, reading_is_by_checks, resends_are_few,
    resent_packets_are_of_rtx, stored_are_the_newest, yields_what_it_names,
};
pub use nack::{Nack, SeqList};
pub use reading::read_nack;
pub use resender::{Answered, Resend, ResendList, Resender, RtxSettings};

/// The most packets that are stored for being sent again (this project's own rule).
pub const MOST_STORED: usize = 4_096;

/// The most bytes of a packet that is kept: with the two bytes of its original sequence number it is
/// no greater than a packet may be.
pub const MOST_KEPT_BYTES: usize = 1_498;

#[cfg(test)]
mod tests;
