//! Probe clusters: bursts of packets that are sent at a planned rate, and the rate of the path that
//! their credits show (`BitrateProber` and `ProbeBitrateEstimator` of libwebrtc, in outline).
//!
//! The rule: a cluster goes out at its rate until it has five packets and 15 ms worth of bytes, and its result
//! is the lesser of the rates at which it was sent and at which it arrived. That clusters go one after another
//! by their ids is this project's own rule. Rates are bit/s, moments microseconds, arrivals
//! quarter-milliseconds. A cluster's id is the count of clusters that were planned before it.
//!
//! Those above use which cluster is due, and that each result is taken once, from its credits alone.
#![tactic(auto)]

mod cluster;
mod heard;
mod laws;
mod probes;

pub use laws::{
    clusters_wait_once, credits_stand, credits_together, outcomes_stand, results_are_taken_once,
};
pub use probes::{Clusters, NextProbe, Outcome, PlanFault};

/// The fewest packets that are sent for a cluster (`min_probe_packets_sent` of libwebrtc).
pub const LEAST_PACKETS: u32 = 5;

/// A cluster waits until its bytes fill this time at its rate, in microseconds
/// (`min_probe_duration` of libwebrtc).
pub const LEAST_TIME: u64 = 15_000;

/// A cluster has a result once so many of `ALL_PARTS` parts of its packets and of its bytes were
/// credited (`kMinReceivedProbesRatio`, `kMinReceivedBytesRatio` of libwebrtc).
pub const ENOUGH_PARTS: u32 = 4;

/// The parts that `ENOUGH_PARTS` are of.
pub const ALL_PARTS: u32 = 5;

/// The longest time from the first to the last departure or arrival of a cluster that gives a
/// result, in microseconds (`kMaxProbeInterval` of libwebrtc).
pub const GREATEST_SPAN: u64 = 1_000_000;

/// Packets that arrive more than so many times as fast as they were sent give no result
/// (`kMaxValidRatio` of libwebrtc).
pub const MOST_TIMES: u64 = 2;

/// Where packets arrive below this part of the rate at which they were sent, in percent, the
/// cluster overloaded the path (`kMinRatioForUnsaturatedLink` of libwebrtc).
pub const UNLOADED_PERCENT: u64 = 90;

/// The part of the rate of arriving that is taken then, in percent (`kTargetUtilizationFraction` of
/// libwebrtc).
pub const TAKEN_PERCENT: u64 = 95;

#[cfg(test)]
mod tests;
