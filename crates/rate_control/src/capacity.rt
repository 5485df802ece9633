//! The capacity that decreases showed.

ghost use Rattle.std.specs.Prelude.{◌≡◌, ◌≤◌, ◌*◌, max};
ghost use Rattle.std.specs.Option.{ForSome};
ghost use Rattle.rate_control.specs.Capacity.{kilobits, spread, is_near, is_above, is_not_below, smoothed, squared_distance, averaged, begun, after_decrease, after_increase, is_approached, IsInRange};

use crate::state::{Capacity, GREATEST_KILOBITS};
use fixed_math::isqrt;
use gcc_units::{GREATEST_RATE, Rate};

/// A received rate is near the capacity within so many standard deviations
/// (draft-ietf-rmcat-gcc-02, section 5.5).
pub const NEAR_DEVIATIONS: u64 = 3;

/// What the average and the variance of the capacity keep of themselves at a decrease, in percent
/// (draft-ietf-rmcat-gcc-02, section 5.5: a smoothing factor of 0.95).
pub const KEPT_PERCENT: u64 = 95;

/// The whole, in percent.
pub const ALL_PERCENT: u64 = 100;

/// A rate in whole kbit/s.
pub fn kilobits(rate: Rate) -> u64
    requires { rate ≤ GREATEST_RATE }
    ensures value { result ≡ kilobits rate }
    ensures bound { result ≤ GREATEST_KILOBITS }
{
    rate / 1_000
}

/// The capacity after a decrease with this received rate in kbit/s.
pub fn after_decrease(capacity: Option<Capacity>, received: u64) -> Capacity
    requires kept { ForSome capacity IsInRange }
    requires received { received ≤ GREATEST_KILOBITS }
    ensures value { result ≡ after_decrease capacity received }
    ensures kept { IsInRange result }
{
    match capacity {
        None => begun(received),
        Some(known) => {
            if is_near(known, received) {
                averaged(known, received)
            } else {
                begun(received)
            }
        }
    }
}

/// What is still known of the capacity at an increase with this received rate in kbit/s.
pub fn after_increase(capacity: Option<Capacity>, received: Option<u64>) -> Option<Capacity>
    requires kept { ForSome capacity IsInRange }
    ensures value { result ≡ after_increase capacity received }
    ensures kept { ForSome result IsInRange }
{
    let Some(known) = capacity else {
        return None;
    };
    let Some(received) = received else {
        return Some(known);
    };
    if is_above(known, received) {
        None
    } else {
        Some(known)
    }
}

/// Whether the capacity is known and the received rate is not below it.
pub fn is_approached(capacity: Option<Capacity>, received: Option<u64>) -> bool
    requires kept { ForSome capacity IsInRange }
    requires received { ForSome received (λ received. received ≤ GREATEST_KILOBITS) }
    ensures { result ≡ is_approached capacity received }
{
    let Some(known) = capacity else {
        return false;
    };
    let Some(received) = received else {
        return false;
    };
    is_not_below(known, received)
}

// So many standard deviations.
fn spread(capacity: Capacity) -> u64
    requires { IsInRange capacity }
    ensures value { result ≡ spread capacity }
    ensures bound { result ≤ NEAR_DEVIATIONS * GREATEST_KILOBITS }
{
    NEAR_DEVIATIONS * isqrt(capacity.variance)
}

fn is_near(capacity: Capacity, received: u64) -> bool
    requires { IsInRange capacity }
    ensures { result ≡ is_near capacity received }
{
    received.abs_diff(capacity.average) <= spread(capacity)
}

fn is_above(capacity: Capacity, received: u64) -> bool
    requires { IsInRange capacity }
    ensures { result ≡ is_above capacity received }
{
    capacity.average + spread(capacity) < received
}

fn is_not_below(capacity: Capacity, received: u64) -> bool
    requires kept { IsInRange capacity }
    requires received { received ≤ GREATEST_KILOBITS }
    ensures { result ≡ is_not_below capacity received }
{
    capacity.average <= received + spread(capacity)
}

// The variance is about the new average.
fn averaged(capacity: Capacity, received: u64) -> Capacity
    requires kept { IsInRange capacity }
    requires received { received ≤ GREATEST_KILOBITS }
    ensures value { result ≡ averaged capacity received }
    ensures kept { IsInRange result }
{
    let average = smoothed(capacity.average, received);
    Capacity {
        average,
        variance: smoothed(capacity.variance, squared_distance(received, average)),
    }
}

fn squared_distance(one: u64, other: u64) -> u64
    requires one { one ≤ GREATEST_KILOBITS }
    requires other { other ≤ GREATEST_KILOBITS }
    ensures value { result ≡ squared_distance one other }
    ensures bound { result ≤ GREATEST_KILOBITS * GREATEST_KILOBITS }
{
    let distance = one.abs_diff(other);
    distance * distance
}

fn smoothed(old: u64, new: u64) -> u64
    requires old { old ≤ GREATEST_KILOBITS * GREATEST_KILOBITS }
    requires new { new ≤ GREATEST_KILOBITS * GREATEST_KILOBITS }
    ensures value { result ≡ smoothed old new }
    ensures between { result ≤ max old new }
{
    (KEPT_PERCENT * old + (ALL_PERCENT - KEPT_PERCENT) * new) / ALL_PERCENT
}

fn begun(received: u64) -> Capacity
    requires { received ≤ GREATEST_KILOBITS }
    ensures value { result ≡ begun received }
    ensures kept { IsInRange result }
{
    Capacity {
        average: received,
        variance: received,
    }
}
