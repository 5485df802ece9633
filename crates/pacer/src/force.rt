//! The rate in force.

ghost use Rattle.std.specs.Prelude.{◌≡◌, ◌≤◌, ◌+◌, ◌-◌, ◌*◌, ◌/◌, ◌^◌, ◌<◌, length, max, sum_by, All};
ghost use Rattle.pace_queues.specs.Waiting.{size_of, accepted_at_of};
ghost use Rattle.pacer.specs.Force.{ceiling, drain, in_force, sending_time, waited};
ghost use Rattle.pacer.specs.State.{IsDue};

use gcc_units::{BYTE, GREATEST_MOMENT, GREATEST_RATE, Moment, Rate};
use pace_queues::Queues;

/// What waits is sent before it has waited for so long on average, in microseconds
/// (`kMaxExpectedQueueLength` of libwebrtc).
pub const DRAIN_TIME: u64 = 2_000_000;

/// The least time in which the queue is drained, in microseconds (libwebrtc: 1 ms).
pub const LEAST_DRAIN_TIME: u64 = 1_000;

/// The rate in force: the pacing rate, or what drains the queue in time, at most `GREATEST_RATE`.
pub fn in_force(pacing: Rate, moment: Moment, queues: &Queues) -> Rate
    requires moment { moment ≤ GREATEST_MOMENT }
    requires due { All (IsDue moment) queues.now }
    ensures value { result ≡ in_force pacing moment queues.now }
    ensures bound { result ≤ GREATEST_RATE }
{
    GREATEST_RATE.min(pacing.max(drain(moment, queues)))
}

// The rate that drains the queue in time.
fn drain(moment: Moment, queues: &Queues) -> Rate
    requires moment { moment ≤ GREATEST_MOMENT }
    requires due { All (IsDue moment) queues.now }
    ensures { result ≡ drain moment queues.now }
{
    let count = queues.len();
    if count == 0 {
        return 0;
    }
    let waited = average(count, moment, queues.accepted_sum());
    let time = LEAST_DRAIN_TIME.max(DRAIN_TIME.saturating_sub(waited));
    ceiling(BYTE * queues.bytes(), time)
}

/// The time in which a rate in bit/s sends what waits, in microseconds and rounded up. `None` exactly
/// where the rate is 0.
pub fn sending_time(rate: Rate, moment: Moment, queues: &Queues) -> Option<u64>
    requires due { All (IsDue moment) queues.now }
    ensures { result ≡ sending_time rate queues.now }
{
    if rate == 0 {
        return None;
    }
    // Few enough packets wait that the product fits.
    let _few = queues.len();
    Some((BYTE * queues.bytes()).div_ceil(rate))
}

// How long so many packets have waited on average, by the sum of the moments at which they came.
fn average(count: u32, moment: Moment, accepted_sum: u128) -> u64
    requires some { 0 < count }
    requires moment { moment ≤ GREATEST_MOMENT }
    requires sum { accepted_sum ≤ count * moment }
    ensures { result ≡ (count * moment - accepted_sum) / count }
{
    let count = u128::from(count);
    ((count * u128::from(moment) - accepted_sum) / count) as u64
}

// A quotient, rounded up.
fn ceiling(a: u64, b: u64) -> u64
    requires some { 0 < b }
    requires fits { a + b < 2 ^ 64 }
    ensures { result ≡ ceiling a b }
{
    (a + (b - 1)) / b
}
