//! What the estimator says.

use gcc_units::{Rate, Signal};

/// The round-trip time before the first packet was received, in microseconds (`kDefaultRtt` of
/// libwebrtc).
pub const START_ROUND_TRIP: u64 = 200_000;

/// The estimates, and what they rest on.
#[derive(Clone, Copy)]
pub struct Estimate {
    /// The estimate of delay control, in bit/s.
    pub delay: Rate,
    /// The estimate of loss control, in bit/s.
    pub loss: Rate,
    /// The lesser of the two.
    pub target: Rate,
    /// The signal of the last report that gave one; `Normal` before.
    pub signal: Signal,
    /// The mean of the arrival filter, in 1/65536 millisecond.
    pub m: i64,
    /// The received rate in bit/s, where there is one.
    pub acked: Option<Rate>,
}
