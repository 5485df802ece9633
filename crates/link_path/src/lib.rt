//! A stated link and its receiver, for runs of a sender in a closed loop.
//!
//! The link is a line with a rate, a queue before it that drops what does not fit, and a delay behind it.
//! The receiver reports what came as transport-wide feedback
//! (draft-holmer-rmcat-transport-wide-cc-extensions-01, section 3.1). Moments are microseconds, rates
//! bit/s, sizes bytes. How the link drops and how the receiver divides what it reports are this project's
//! own rules.
#![tactic(auto)]

mod building;
mod laws;
mod line;
mod link;
mod receiver;

pub use building::ReportList;
pub use laws::{
    dropped_where_full, no_faster_than_its_rate, none_early, none_lost_from_the_count,
    reports_tell_of_each_number_once, the_one_division,
};
pub use link::{Arrival, ArrivalList, Fate, Link, LinkSettings, NumberList};
pub use receiver::Receiver;

/// The least queue of a link, in bytes: one packet of the greatest size.
pub const LEAST_QUEUE: u64 = 1_500;

/// The greatest queue of a link, in bytes.
pub const GREATEST_QUEUE: u64 = 1_000_000_000;

/// The longest delay of a link, in microseconds: 10 s.
pub const LONGEST_DELAY: u64 = 10_000_000;

/// The greatest delta that a status tells as a small one, in quarter-milliseconds: 8 bits
/// (draft-holmer-rmcat-transport-wide-cc-extensions-01, section 3.1.5).
pub const GREATEST_SMALL_DELTA: u32 = 255;

/// The greatest delta that a status tells, in quarter-milliseconds: 16 bits with a sign
/// (draft-holmer-rmcat-transport-wide-cc-extensions-01, section 3.1.5).
pub const GREATEST_DELTA: u32 = 32_767;

/// The greatest moment at which a receiver takes a packet, in microseconds: 2^38 (ours). Then a reference fits
/// its 24 bits.
pub const GREATEST_TAKEN: u64 = 274_877_906_944;

/// The SSRC of the receiver (ours).
pub const RECEIVER: u32 = 1;

/// The SSRC of the media (ours).
pub const MEDIA: u32 = 2;

#[cfg(test)]
mod tests;
