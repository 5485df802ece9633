//! The first moment at which a level is above 0.

ghost use Rattle.std.specs.Prelude.{◌≡◌, ◌≤◌};
ghost use Rattle.probe_clusters.specs.Moments.{IsFirstFrom};
ghost use Rattle.pacer.specs.Next.{is_above, sooner};

use gcc_units::{GREATEST_MOMENT, Level, Moment, Rate};

/// The first moment from `from` on, in microseconds, at which a level is above 0 that is `level`
/// micro-bits at `from`, rises at a rate in bit/s, and is cut to what a window of so many
/// microseconds holds. `None` where there is none up to `GREATEST_MOMENT`.
pub fn opening(level: Level, rate: Rate, window: u64, from: Moment) -> Option<Moment>
    requires { from ≤ GREATEST_MOMENT }
    ensures { IsFirstFrom from (is_above level rate window from) result }
{
    if rate == 0 || window == 0 {
        return None;
    }
    if level > 0 {
        return Some(from);
    }
    let moment = u128::from(from) + level.unsigned_abs() / u128::from(rate) + 1;
    if moment > u128::from(GREATEST_MOMENT) {
        return None;
    }
    Some(moment as u64)
}

/// The lesser of two moments, of those that there are.
pub fn sooner(a: Option<Moment>, b: Option<Moment>) -> Option<Moment>
    ensures { result ≡ sooner a b }
{
    let Some(first) = a else {
        return b;
    };
    match b {
        Some(second) => Some(first.min(second)),
        None => a,
    }
}
