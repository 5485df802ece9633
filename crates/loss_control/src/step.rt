//! What one report changes.

ghost use Rattle.std.specs.Prelude.{◌≡◌, ◌≤◌, ◌<◌, ◌+◌, ◌^◌};
ghost use Rattle.gcc_units.specs.Rates.{IsRate, IsBounds, IsInBounds, bounded};
ghost use Rattle.loss_control.specs.Rule.{after, judged, is_due};

use crate::{ALL_PERCENT, FEWEST_PACKETS, HIGH_LOSS, LOSS_PERIOD, LOW_LOSS, RAISED_PERCENT};
use gcc_units::{Bounds, GREATEST_RATE, Moment, Rate};

/// The estimate, the counts that are gathered, and the moment from which on they are.
#[derive(Clone, Copy)]
pub struct State {
    pub estimate: Rate,
    pub received: u64,
    pub missing: u64,
    pub since: Option<Moment>,
}

/// The state after a report's counts.
pub fn after(state: State, received: u32, missing: u32, now: Moment, bounds: Bounds) -> State
    requires rate { IsRate state.estimate }
    requires bounds { IsBounds bounds }
    requires few { state.received + received + state.missing + missing < 2 ^ 50 }
    ensures value { result ≡ after state (record { received = received; missing = missing }) now bounds }
    ensures within { IsInBounds bounds result.estimate }
{
    let received = state.received + u64::from(received);
    let missing = state.missing + u64::from(missing);
    let since = state.since.unwrap_or(now);
    if is_due(since, now, received + missing) {
        let rate = judged(state.estimate, received + missing, missing);
        return State {
            estimate: bounded(rate, bounds),
            received: 0,
            missing: 0,
            since: Some(now),
        };
    }
    State {
        estimate: bounded(state.estimate, bounds),
        received,
        missing,
        since: Some(since),
    }
}

/// Whether counts were gathered for long enough, and of enough packets.
fn is_due(since: Moment, now: Moment, total: u64) -> bool
    ensures { result ≡ is_due since now total }
{
    now >= since && now - since >= LOSS_PERIOD && total >= FEWEST_PACKETS
}

/// The estimate after counts of which so many are missing: it falls by half of the part that is missing
/// where that is more than a tenth, and rises by a twentieth where it is less than a fiftieth.
fn judged(rate: Rate, total: u64, missing: u64) -> Rate
    requires rate { rate ≤ GREATEST_RATE }
    requires missing { missing ≤ total }
    requires some { 0 < total }
    requires few { total < 2 ^ 50 }
    ensures { result ≡ judged rate total missing }
{
    if HIGH_LOSS * missing > total {
        let kept = u128::from(2 * total - missing);
        (u128::from(rate) * kept / u128::from(2 * total)) as u64
    } else if LOW_LOSS * missing < total {
        RAISED_PERCENT * rate / ALL_PERCENT
    } else {
        rate
    }
}

/// A rate, put in bounds.
pub fn bounded(rate: Rate, bounds: Bounds) -> Rate
    requires { IsBounds bounds }
    ensures value { result ≡ bounded bounds rate }
    ensures within { IsInBounds bounds result }
{
    rate.min(bounds.max).max(bounds.min)
}
