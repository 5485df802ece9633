//! What one call changes.

ghost use Rattle.std.specs.Prelude.{◌≡◌, ◌≤◌, option_map};
ghost use Rattle.std.specs.Option.{ForSome};
ghost use Rattle.gcc_units.specs.Rates.{bounded, IsBounds, IsInBounds, IsRate};
ghost use Rattle.rate_control.specs.Capacity.{kilobits, IsInRange};
ghost use Rattle.rate_control.specs.Steps.{started, next_mode, elapsed, reduced, decreased, increased, moved, put_in, step, set_to, with_probe, IsKept};

use crate::GREATEST_ROUND_TRIP;
use crate::capacity::{ALL_PERCENT, after_decrease, after_increase, is_approached, kilobits};
use crate::increase::{limited, raised};
use crate::state::{GREATEST_KILOBITS, LONGEST_STEP, Mode, State};
use gcc_units::{Bounds, GREATEST_RATE, Moment, Rate, Signal};

/// What a decrease leaves, in percent (draft-ietf-rmcat-gcc-02, section 5.5, `beta`; 0.85 in libwebrtc
/// too).
pub const REDUCED_PERCENT: u64 = 85;

/// The state before the first step.
pub fn started(rate: Rate) -> State
    ensures { result ≡ started rate }
{
    State {
        mode: Mode::Increase,
        rate,
        last: None,
        capacity: None,
    }
}

/// The state after a step.
pub fn step(
    state: State,
    signal: Signal,
    acked: Option<Rate>,
    rtt: u64,
    now: Moment,
    bounds: Bounds,
) -> State
    requires kept { IsKept state }
    requires received { ForSome acked (λ received. received ≤ GREATEST_RATE) }
    requires round_trip { rtt ≤ GREATEST_ROUND_TRIP }
    requires order { ForSome state.last (λ last. last ≤ now) }
    requires bounds { IsBounds bounds }
    ensures value { result ≡ step state signal acked rtt now bounds }
    ensures kept { IsKept result }
    ensures within { IsInBounds bounds result.rate }
{
    let mode = next_mode(state.mode, signal);
    let dt = elapsed(state.last, now);
    let next = State {
        mode,
        rate: state.rate,
        last: Some(now),
        capacity: state.capacity,
    };
    put_in(bounds, moved(mode, next, acked, rtt, dt))
}

/// The state with the estimate put to a start.
pub fn set_to(state: State, start: Option<Rate>, bounds: Bounds) -> State
    requires kept { IsKept state }
    requires bounds { IsBounds bounds }
    ensures value { result ≡ set_to state start bounds }
    ensures kept { IsKept result }
    ensures within { IsInBounds bounds result.rate }
{
    let rate = start.unwrap_or(state.rate);
    put_in(bounds, State { rate, ..state })
}

/// The state with the estimate put to a probed rate that is greater.
pub fn with_probe(state: State, probed: Rate, bounds: Bounds) -> State
    requires kept { IsKept state }
    requires bounds { IsBounds bounds }
    ensures value { result ≡ with_probe state probed bounds }
    ensures kept { IsKept result }
    ensures within { IsInBounds bounds result.rate }
{
    let rate = state.rate.max(probed);
    put_in(bounds, State { rate, ..state })
}

fn put_in(bounds: Bounds, state: State) -> State
    requires bounds { IsBounds bounds }
    requires capacity { ForSome state.capacity IsInRange }
    ensures value { result ≡ put_in bounds state }
    ensures kept { IsKept result }
    ensures within { IsInBounds bounds result.rate }
{
    let rate = state.rate.clamp(bounds.min, bounds.max);
    State { rate, ..state }
}

fn next_mode(mode: Mode, signal: Signal) -> Mode
    ensures { result ≡ next_mode mode signal }
{
    match (mode, signal) {
        (_, Signal::Over) => Mode::Decrease,
        (_, Signal::Under) => Mode::Hold,
        (Mode::Increase | Mode::Hold, Signal::Normal) => Mode::Increase,
        (Mode::Decrease, Signal::Normal) => Mode::Hold,
    }
}

fn elapsed(last: Option<Moment>, now: Moment) -> u64
    requires { ForSome last (λ last. last ≤ now) }
    ensures value { result ≡ elapsed last now }
    ensures bound { result ≤ LONGEST_STEP }
{
    match last {
        None => 0,
        Some(last) => (now - last).min(LONGEST_STEP),
    }
}

// What the new mode makes of the state.
fn moved(mode: Mode, state: State, acked: Option<Rate>, rtt: u64, dt: u64) -> State
    requires kept { IsKept state }
    requires received { ForSome acked (λ received. received ≤ GREATEST_RATE) }
    requires round_trip { rtt ≤ GREATEST_ROUND_TRIP }
    requires dt { dt ≤ LONGEST_STEP }
    ensures value { result ≡ moved mode state acked rtt dt }
    ensures capacity { ForSome result.capacity IsInRange }
{
    match mode {
        Mode::Hold => state,
        Mode::Decrease => decreased(state, acked),
        Mode::Increase => increased(state, acked, rtt, dt),
    }
}

fn decreased(state: State, acked: Option<Rate>) -> State
    requires kept { IsKept state }
    requires received { ForSome acked (λ received. received ≤ GREATEST_RATE) }
    ensures value { result ≡ decreased state acked }
    ensures capacity { ForSome result.capacity IsInRange }
{
    match acked {
        None => State {
            rate: reduced(state.rate),
            ..state
        },
        Some(received) => State {
            rate: state.rate.min(reduced(received)),
            capacity: Some(after_decrease(state.capacity, kilobits(received))),
            ..state
        },
    }
}

fn reduced(rate: Rate) -> Rate
    requires { rate ≤ GREATEST_RATE }
    ensures { result ≡ reduced rate }
{
    REDUCED_PERCENT * rate / ALL_PERCENT
}

fn increased(state: State, acked: Option<Rate>, rtt: u64, dt: u64) -> State
    requires kept { IsKept state }
    requires received { ForSome acked (λ received. received ≤ GREATEST_RATE) }
    requires round_trip { rtt ≤ GREATEST_ROUND_TRIP }
    requires dt { dt ≤ LONGEST_STEP }
    ensures value { result ≡ increased state acked rtt dt }
    ensures capacity { ForSome result.capacity IsInRange }
{
    let received = received_kilobits(acked);
    let capacity = after_increase(state.capacity, received);
    let near = is_approached(capacity, received);
    let next = raised(near, state.rate, rtt, dt);
    State {
        rate: limited(state.rate, next, acked),
        capacity,
        ..state
    }
}

fn received_kilobits(acked: Option<Rate>) -> Option<u64>
    requires { ForSome acked (λ received. received ≤ GREATEST_RATE) }
    ensures value { result ≡ option_map kilobits acked }
    ensures bound { ForSome result (λ received. received ≤ GREATEST_KILOBITS) }
{
    match acked {
        None => None,
        Some(received) => Some(kilobits(received)),
    }
}
