//! What the results of probes change, and which cluster is asked for.

ghost use Rattle.std.specs.Prelude.{◌≡◌, ◌≤◌, ◌<◌, ◌*◌, All, IsSome, IsNone, false};
ghost use Rattle.std.specs.Option.{ForSome};
ghost use Rattle.gcc_units.specs.Rates.{bounded, IsRate, IsBounds, IsInBounds};
ghost use Rattle.level_control.specs.Rule.{IsKept};
ghost use Rattle.level_control.specs.Probing.{with_result, results_of, pause, wanted, planned, probed, IsProbed};

use crate::growth::{ALL_PERCENT, is_far};
use crate::state::{Probed, State};
use gcc_units::{Bounds, GREATEST_RATE, Moment, Rate};

/// A result of at least this part of the planned rate leads to a next cluster, in percent (`ProbeController` of
/// libwebrtc, `further_probe_threshold`).
pub const PASSED_PERCENT: u64 = 70;

/// At how many times a result, or the rate, the next cluster is planned (`ProbeController` of libwebrtc,
/// `further_exponential_probe_scale`).
pub const NEXT_TIMES: u64 = 2;

/// The pause before a cluster that no result led to, in microseconds: 5 s (ours).
pub const PAUSE: u64 = 5_000_000;

/// That pause while no capacity is known, in microseconds: 1 s (ours).
pub const FIRST_PAUSE: u64 = 1_000_000;

/// A cluster is asked for only above this part of the rate, in percent (ours).
pub const ABOVE_PERCENT: u64 = 110;

/// The estimate after results, and at which rate a next cluster shall be planned.
#[derive(Clone, Copy)]
pub struct Taken {
    pub rate: Rate,
    pub next: Option<Rate>,
}

/// A state after the results of a report, and the rate of the cluster that is asked for.
#[derive(Clone, Copy)]
pub struct Asked {
    pub state: State,
    pub cluster: Option<Rate>,
}

/// The state after results, and the cluster that is asked for.
pub fn probed(state: State, results: &[Probed], waits: bool, now: Moment, bounds: Bounds) -> Asked
    requires kept { IsKept state }
    requires within { IsInBounds bounds state.rate }
    requires results { All IsProbed results.now }
    requires bounds { IsBounds bounds }
    ensures value { result ≡ probed state results.now waits now bounds }
    ensures kept { IsKept result.state }
    ensures within { IsInBounds bounds result.state.rate }
    ensures losses { result.state.losses ≡ state.losses }
    ensures last { result.state.last ≡ state.last }
    ensures drain { result.state.drain ≡ state.drain }
    ensures stays { IsSome state.drain → result.state.rate ≡ state.rate }
    ensures cluster { ForSome result.cluster (λ rate. rate ≤ bounds.max) }
    ensures no_drain { IsSome result.cluster → IsNone state.drain }
    ensures one { IsSome result.cluster → waits ≡ false }
{
    let taken = results_of(state, results, bounds);
    let state = State {
        rate: taken.rate,
        ..state
    };
    let cluster = planned(state, wanted(state, taken.next, now), waits, bounds);
    Asked {
        state: State {
            probed: if cluster.is_some() {
                Some(now)
            } else {
                state.probed
            },
            ..state
        },
        cluster,
    }
}

// The estimate after all results; in a drain they say nothing.
fn results_of(state: State, results: &[Probed], bounds: Bounds) -> Taken
    requires kept { IsKept state }
    requires within { IsInBounds bounds state.rate }
    requires results { All IsProbed results.now }
    requires bounds { IsBounds bounds }
    ensures value { result ≡ results_of state results.now bounds }
    ensures stays { IsSome state.drain → result.rate ≡ state.rate }
    ensures within { IsInBounds bounds result.rate }
{
    let mut taken = Taken {
        rate: state.rate,
        next: None,
    };
    if state.drain.is_some() {
        return taken;
    }
    for probe in results {
        taken = with_result(taken, *probe, bounds);
    }
    taken
}

fn with_result(taken: Taken, probe: Probed, bounds: Bounds) -> Taken
    requires probe { IsProbed probe }
    requires bounds { IsBounds bounds }
    ensures value { result ≡ with_result bounds taken probe }
    ensures within { IsInBounds bounds result.rate }
{
    let passed = PASSED_PERCENT * probe.planned <= ALL_PERCENT * probe.result;
    Taken {
        rate: taken.rate.max(probe.result).clamp(bounds.min, bounds.max),
        next: if passed {
            Some(NEXT_TIMES * probe.result)
        } else {
            taken.next
        },
    }
}

// The next rate: that of a result, and else after a pause twice the rate, far from the capacity.
fn wanted(state: State, next: Option<Rate>, now: Moment) -> Option<Rate>
    requires kept { IsKept state }
    ensures { result ≡ wanted state next now }
{
    let since = state.probed.unwrap_or(now);
    let paused = since <= now && pause(state.capacity) <= now - since;
    if next.is_none() && paused && is_far(state.rate, state.capacity) {
        Some(NEXT_TIMES * state.rate)
    } else {
        next
    }
}

fn pause(capacity: Option<Rate>) -> u64
    ensures { result ≡ pause capacity }
{
    match capacity {
        None => FIRST_PAUSE,
        Some(_) => PAUSE,
    }
}

// The cluster that is asked for: no drain, none that waits, and a rate that tells something new.
fn planned(state: State, next: Option<Rate>, waits: bool, bounds: Bounds) -> Option<Rate>
    requires kept { IsKept state }
    requires bounds { IsBounds bounds }
    ensures value { result ≡ planned state next waits bounds }
    ensures cluster { ForSome result (λ rate. rate ≤ bounds.max) }
    ensures no_drain { IsSome result → IsNone state.drain }
    ensures one { IsSome result → waits ≡ false }
{
    let rate = next?.min(bounds.max);
    if state.drain.is_none() && !waits && ABOVE_PERCENT * state.rate < ALL_PERCENT * rate {
        Some(rate)
    } else {
        None
    }
}
