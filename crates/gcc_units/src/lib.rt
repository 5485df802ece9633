//! Units, limits, lists and shared types of the media sender.
//!
//! Moments are microseconds, rates are whole bits per second, levels are micro-bits (a byte is
//! 8,000,000 of them, and a rate times microseconds is a level), arrivals are quarter-milliseconds.
#![tactic(auto)]

mod class;
mod limits;
mod numbers;
mod sequence;
mod shared_types;
mod unwrapping;

pub use class::Class;
pub use limits::{
    ARRIVAL_MICROSECONDS, BOARD_LENGTHS, BYTE, GREATEST_ARRIVAL, GREATEST_DELAY, GREATEST_MOMENT,
    GREATEST_PACKET, GREATEST_RATE, JOURNAL_ARRIVAL, JOURNAL_PACKETS, KEPT_PACKETS, LEAST_PACKET,
    LEAST_RATE, MOST_ACTORS, MOST_CHECK_BYTES, MOST_CLUSTERS, MOST_ENTRIES, MOST_LINES,
    MOST_PACKETS, MOST_REPORTS, MOST_SENDS, MOST_STATUSES, MOST_STREAMS, MOST_TRACE_BYTES,
    MOST_WAITING, PADDING_PACKET,
};
pub use numbers::{number16, number32};
pub use sequence::{Bytes, Duplicate, IdList, NoMemory, Sequence, promise};
pub use shared_types::{
    Bounds, Credit, CreditList, Judged, Level, Moment, Rate, Sample, Share, ShareList, Signal,
};
pub use unwrapping::{unwrap16, unwrap24};

#[cfg(test)]
mod tests;
