//! How the rate grows while nothing stands against it.

ghost use Rattle.std.specs.Prelude.{◌≡◌, ◌≤◌, ◌<◌, ◌*◌, ◌+◌, ◌^◌};
ghost use Rattle.std.specs.Option.{ForSome};
ghost use Rattle.level_control.specs.Growth.{is_far, grown, limited, elapsed};
ghost use Rattle.fixed_math.specs.Root.{root};

use fixed_math::isqrt;
use gcc_units::{GREATEST_RATE, Moment, Rate};

/// The longest time between two reports that counts, in microseconds (as in delay control).
pub const LONGEST_STEP: u64 = 1_000_000;

/// The whole, in percent.
pub const ALL_PERCENT: u64 = 100;

/// A rate is far from the capacity above this part of it, in percent (ours).
pub const FAR_PERCENT: u64 = 105;

/// By how much a rate grows in a second far from the capacity, in percent (as in delay control).
pub const GROWTH_PERCENT: u64 = 8;

/// A hundred seconds in microseconds: a percent for each second is divided by it.
pub const PERCENT_SECOND: u64 = 100_000_000;

/// By how many of its roots a rate grows in a second near the capacity (ours: 3.5 % a second at 3 Mbit/s; concave,
/// so that two alike draw near).
pub const GROWTH_ROOTS: u64 = 60;

/// A second in microseconds.
pub const SECOND: u64 = 1_000_000;

/// Growth ends at this part of the received rate, in percent (draft-ietf-rmcat-gcc-02, section 5.5).
pub const LIMIT_PERCENT: u64 = 150;

/// Whether no capacity is known, or the rate is beyond it.
pub fn is_far(rate: Rate, capacity: Option<Rate>) -> bool
    requires rate { rate ≤ GREATEST_RATE }
    requires capacity { ForSome capacity (λ known. known ≤ GREATEST_RATE) }
    ensures { result ≡ is_far rate capacity }
{
    match capacity {
        None => true,
        Some(known) => FAR_PERCENT * known < ALL_PERCENT * rate,
    }
}

/// The time since the last report, cut; none before the first.
pub fn elapsed(last: Option<Moment>, now: Moment) -> u64
    requires { ForSome last (λ last. last ≤ now) }
    ensures value { result ≡ elapsed last now }
    ensures bound { result ≤ LONGEST_STEP }
{
    match last {
        None => 0,
        Some(last) => LONGEST_STEP.min(now - last),
    }
}

/// The rate after so much time, before its limit.
pub fn grown(rate: Rate, far: bool, time: u64) -> Rate
    requires rate { rate ≤ GREATEST_RATE }
    requires time { time ≤ LONGEST_STEP }
    ensures value { result ≡ grown rate far time }
    ensures bound { result ≤ 2 * GREATEST_RATE }
{
    if far {
        rate + GROWTH_PERCENT * rate * time / PERCENT_SECOND
    } else {
        rate + GROWTH_ROOTS * root_of(rate) * time / SECOND
    }
}

fn root_of(rate: Rate) -> u64
    requires rate { rate ≤ GREATEST_RATE }
    ensures value { result ≡ root rate }
    ensures bound { result ≤ 100000 }
{
    isqrt(rate)
}

/// The grown rate, which ends at one and a half of the received rate, and never lowers.
pub fn limited(rate: Rate, next: Rate, acked: Option<Rate>) -> Rate
    requires { ForSome acked (λ received. received ≤ GREATEST_RATE) }
    ensures { result ≡ limited rate next acked }
{
    match acked {
        None => next,
        Some(received) => rate.max(next.min(LIMIT_PERCENT * received / ALL_PERCENT)),
    }
}
