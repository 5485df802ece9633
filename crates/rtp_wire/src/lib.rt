//! RTP packets that carry a transport-wide sequence number.
//!
//! A packet is read as RTP (RFC 3550) with a header extension in the one-byte form (RFC 8285), in
//! which one element holds the number
//! (draft-holmer-rmcat-transport-wide-cc-extensions-01, section 2). Lists of packets are stamped
//! with the numbers that they leave with.
//!
//! Those above use that reading gives the place of the number or the first check that fails, and that a stamp
//! changes two bytes and nothing else.
#![tactic(auto)]

mod laws;
mod packet;
mod wires;

pub use laws::{
    extensions_are_of_one_kind, padding_packets_are_read, places_are_inside, reading_is_by_checks,
    stamps_change_two_bytes,
};
pub use packet::{Wire, WireFault, read_wire};
pub use wires::{WireList, put};

#[cfg(test)]
mod tests;
