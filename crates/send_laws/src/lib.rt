//! Laws of every legal history of a sender, and calls that answer their numbers for a sender's own
//! journal.
//!
//! Order, numbers, exact credit, the balance of what was sent, and the bounds on media, padding and probes.
//! Those above use that a sender's journal keeps them, and the numbers of a summary.
#![tactic(auto)]

mod budget;
mod bytes;
mod counts;
mod keeping;
mod laws;
mod plans;
mod probes;
mod read_laws;
mod reading;
mod spans;

pub use bytes::entries_have_bytes;
pub use counts::{PacketCounts, balance};
pub use keeping::keeps_laws;
pub use laws::{
    credits_are_in_range, media_and_probes_are_bounded, media_is_bounded, media_level_is_least,
    no_number_is_credited_twice, no_packet_leaves_twice, numbers_are_places, packets_balance,
    packets_leave_in_order, padding_is_bounded, probes_are_bounded, replies_list_the_credits,
    reports_credit_exactly,
};
pub use probes::{ClusterSpan, span_cluster};
pub use read_laws::sent_packets_are_read;
pub use spans::{Span, span_media, span_padding};
