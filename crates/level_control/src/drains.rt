//! Cuts, and the drains behind them.

ghost use Rattle.std.specs.Prelude.{◌≡◌, ◌≤◌, ◌<◌, ◌*◌, ◌+◌, ◌^◌, Some, IsSome, IsNone, true};
ghost use Rattle.std.specs.Option.{ForSome};
ghost use Rattle.level_control.specs.Delays.{IsDelay, IsDelays};
ghost use Rattle.level_control.specs.Drains.{cut_percent, cut_rate, cut_capacity, rate_before, begun, cut, asks_cut, with_low, deepened, fallen, followed, risen, wait, has_settled, left_most, ended, increased, drained, stepped, IsDrain, IsRest, IsShown};
ghost use Rattle.level_control.specs.Laws.{cut_from};

use crate::delays::{DRAINS_IN_A_ROW, above, greater, lesser};
use crate::growth::{ALL_PERCENT, grown, is_far, limited};
use crate::state::{Delay, Delays, Drain, Shown, State};
use gcc_units::{GREATEST_RATE, Rate};

/// What a cut leaves at a short queue, in percent (draft-ietf-rmcat-gcc-02, section 5.5, `beta`).
pub const CUT_PERCENT: u64 = 85;

/// What a cut leaves at least, in percent (ours).
pub const LEAST_CUT_PERCENT: u64 = 50;

/// A cut takes one percent more for each so many quarter-milliseconds of the queue: 20 ms (ours, since a long
/// queue must leave at once).
pub const CUT_DEPTH: u64 = 80;

/// By how much a delay falls at least for it to count, in quarter-milliseconds: 2 ms (ours).
pub const FALL: u64 = 8;

/// How long a drain waits for a fall at least, in microseconds: 200 ms (ours).
pub const LEAST_WAIT: u64 = 200_000;

/// What a drain waits beside that, in bits times microseconds for each second: 10 packets of 1,200 bytes (ours, since
/// at low rates one packet moves the least delay by its own time).
pub const WAIT_BITS: u64 = 96_000_000_000;

/// What a drain without a queue of others leaves of the capacity, in percent (ours).
pub const DRAINED_PERCENT: u64 = 92;

/// A drain that leaves more than this part of the deepest queue did not move it, in percent (ours).
pub const LEFT_PERCENT: u64 = 25;

/// The state after what a report shows: a cut, growth, or what a drain makes of it.
pub fn stepped(state: State, shown: Shown) -> State
    requires positive { 0 < state.rate }
    requires rate { state.rate ≤ GREATEST_RATE }
    requires rest { IsRest state }
    requires shown { IsShown shown }
    ensures value { result ≡ stepped state shown }
    ensures rest { IsRest result }
    ensures losses { result.losses ≡ state.losses }
    ensures last { result.last ≡ state.last }
    ensures cut { asks_cut state.drain shown ≡ true → result.rate ≤ cut_from state.rate }
    ensures cut_received { asks_cut state.drain shown ≡ true → ForSome shown.acked (λ received. result.rate ≤ cut_from received) }
    ensures until { asks_cut state.drain shown ≡ true → ForSome result.drain (λ drain. drain.until ≡ shown.now + shown.rtt) }
    ensures cut_drains { asks_cut state.drain shown ≡ true → IsSome result.drain }
    ensures drains { IsSome state.drain → IsSome result.drain → result.rate ≤ state.rate }
{
    match state.drain {
        None => {
            if asks_cut(state.drain, shown) {
                cut(state, shown)
            } else {
                increased(state, shown)
            }
        }
        Some(drain) => drained(state, followed(drain, shown), shown),
    }
}

/// Whether a report asks for a cut: without a drain where its delay is above the level or its losses ask for
/// one, in a drain where the queue goes on growing though the cut must show.
pub fn asks_cut(drain: Option<Drain>, shown: Shown) -> bool
    requires drain { ForSome drain IsDrain }
    requires shown { IsShown shown }
    ensures value { result ≡ asks_cut drain shown }
    ensures apart { result ≡ true → ForSome drain (λ drain. drain.until ≤ shown.now) }
{
    match drain {
        None => shown.level < shown.above || shown.lossy,
        Some(drain) => { drain.until <= shown.now && drain.deepest + shown.level < shown.above }
    }
}

fn increased(state: State, shown: Shown) -> State
    requires rate { state.rate ≤ GREATEST_RATE }
    requires rest { IsRest state }
    requires shown { IsShown shown }
    ensures value { result ≡ increased state shown }
    ensures rest { IsRest result }
    ensures losses { result.losses ≡ state.losses }
    ensures last { result.last ≡ state.last }
{
    let far = is_far(state.rate, state.capacity);
    let next = grown(state.rate, far, shown.time);
    State {
        rate: limited(state.rate, next, shown.acked),
        ..state
    }
}

fn cut(state: State, shown: Shown) -> State
    requires rate { state.rate ≤ GREATEST_RATE }
    requires rest { IsRest state }
    requires shown { IsShown shown }
    ensures value { result ≡ cut state shown }
    ensures rest { IsRest result }
    ensures losses { result.losses ≡ state.losses }
    ensures last { result.last ≡ state.last }
    ensures deep { result.rate ≤ cut_from state.rate }
    ensures received { ForSome shown.acked (λ received. result.rate ≤ cut_from received) }
    ensures until { ForSome result.drain (λ drain. drain.until ≡ shown.now + shown.rtt) }
    ensures drains { IsSome result.drain }
{
    let most = shown.acked.unwrap_or(state.rate);
    let before = rate_before(state);
    State {
        rate: cut_rate(state.rate, most, shown.above),
        capacity: Some(cut_capacity(state, most)),
        drain: Some(begun(shown, before)),
        ..state
    }
}

fn cut_percent(above: u64) -> u64
    ensures value { result ≡ cut_percent above }
    ensures bound { result ≤ CUT_PERCENT }
{
    LEAST_CUT_PERCENT.max(CUT_PERCENT.saturating_sub(above / CUT_DEPTH))
}

fn cut_rate(rate: Rate, most: Rate, above: u64) -> Rate
    requires rate { rate ≤ GREATEST_RATE }
    ensures value { result ≡ cut_rate rate most above }
    ensures deep { result ≤ cut_from rate }
    ensures received { result ≤ cut_from most }
{
    cut_percent(above) * rate.min(most) / ALL_PERCENT
}

fn cut_capacity(state: State, most: Rate) -> Rate
    requires rate { state.rate ≤ GREATEST_RATE }
    requires rest { IsRest state }
    requires most { most ≤ GREATEST_RATE }
    ensures value { result ≡ cut_capacity state most }
    ensures bound { result ≤ GREATEST_RATE }
{
    match state.drain {
        None => state.rate.min(most),
        Some(_) => state.capacity.unwrap_or(most).min(most),
    }
}

fn rate_before(state: State) -> Rate
    requires rate { state.rate ≤ GREATEST_RATE }
    requires rest { IsRest state }
    ensures value { result ≡ rate_before state }
    ensures bound { result ≤ GREATEST_RATE }
{
    match state.drain {
        None => state.rate,
        Some(drain) => drain.before,
    }
}

fn begun(shown: Shown, before: Rate) -> Drain
    requires shown { IsShown shown }
    requires before { before ≤ GREATEST_RATE }
    ensures value { result ≡ begun shown before }
    ensures kept { IsDrain result }
{
    Drain {
        deepest: shown.above,
        low: shown.delays.last,
        mark: shown.delays.last,
        until: shown.now + shown.rtt,
        fell: shown.now + shown.rtt,
        before,
    }
}

// A drain with the delay of one more report.
fn followed(drain: Drain, shown: Shown) -> Drain
    requires drain { IsDrain drain }
    requires shown { IsShown shown }
    ensures value { result ≡ followed drain shown }
    ensures kept { IsDrain result }
    ensures same_cut { asks_cut (Some result) shown ≡ asks_cut (Some drain) shown }
{
    let low = with_low(drain, shown.delays.last);
    if shown.now < drain.until {
        deepened(low, shown)
    } else if FALL <= above(drain.mark, shown.delays.last) {
        fallen(low, shown)
    } else {
        low
    }
}

fn with_low(drain: Drain, delay: Delay) -> Drain
    requires drain { IsDrain drain }
    requires delay { IsDelay delay }
    ensures value { result ≡ with_low drain delay }
    ensures kept { IsDrain result }
{
    Drain {
        low: lesser(drain.low, delay),
        ..drain
    }
}

// Before the cut can show, how deep the queue is.
fn deepened(drain: Drain, shown: Shown) -> Drain
    requires drain { IsDrain drain }
    requires shown { IsShown shown }
    ensures value { result ≡ deepened drain shown }
    ensures kept { IsDrain result }
{
    Drain {
        deepest: drain.deepest.max(shown.above),
        mark: greater(drain.mark, shown.delays.last),
        ..drain
    }
}

fn fallen(drain: Drain, shown: Shown) -> Drain
    requires drain { IsDrain drain }
    requires shown { IsShown shown }
    ensures value { result ≡ fallen drain shown }
    ensures kept { IsDrain result }
{
    Drain {
        mark: shown.delays.last,
        fell: shown.now,
        ..drain
    }
}

// What arrives while the queue is there is what the path carries.
fn risen(capacity: Option<Rate>, acked: Option<Rate>, before: Rate) -> Option<Rate>
    requires capacity { ForSome capacity (λ known. known ≤ GREATEST_RATE) }
    requires before { before ≤ GREATEST_RATE }
    ensures value { result ≡ risen capacity acked before }
    ensures bound { ForSome result (λ known. known ≤ GREATEST_RATE) }
{
    let known = capacity?;
    match acked {
        None => Some(known),
        Some(received) => Some(known.max(received.min(before))),
    }
}

// The state after a report in a drain, which was given its delay.
fn drained(state: State, drain: Drain, shown: Shown) -> State
    requires positive { 0 < state.rate }
    requires rate { state.rate ≤ GREATEST_RATE }
    requires rest { IsRest state }
    requires drain { IsDrain drain }
    requires shown { IsShown shown }
    ensures value { result ≡ drained state drain shown }
    ensures rest { IsRest result }
    ensures losses { result.losses ≡ state.losses }
    ensures last { result.last ≡ state.last }
    ensures cut { asks_cut (Some drain) shown ≡ true → result.rate ≤ cut_from state.rate }
    ensures cut_received { asks_cut (Some drain) shown ≡ true → ForSome shown.acked (λ received. result.rate ≤ cut_from received) }
    ensures until { asks_cut (Some drain) shown ≡ true → ForSome result.drain (λ drain. drain.until ≡ shown.now + shown.rtt) }
    ensures cut_drains { asks_cut (Some drain) shown ≡ true → IsSome result.drain }
    ensures drains { IsSome result.drain → result.rate ≤ state.rate }
{
    let state = State {
        capacity: risen(state.capacity, shown.acked, drain.before),
        drain: Some(drain),
        ..state
    };
    if asks_cut(state.drain, shown) {
        cut(state, shown)
    } else if has_settled(drain, state.rate, shown) {
        ended(state, drain, shown)
    } else {
        state
    }
}

// Whether the last fall lies back for long enough.
fn has_settled(drain: Drain, rate: Rate, shown: Shown) -> bool
    requires positive { 0 < rate }
    requires drain { IsDrain drain }
    ensures { result ≡ has_settled drain rate shown }
{
    drain.fell + LEAST_WAIT + WAIT_BITS / rate <= shown.now
}

// Whether a drain left most of the queue, so that others hold it.
fn left_most(drain: Drain, shown: Shown) -> bool
    requires drain { IsDrain drain }
    requires shown { IsShown shown }
    ensures { result ≡ left_most drain shown }
{
    let left = u128::from(above(drain.low, shown.delays.base));
    u128::from(LEFT_PERCENT) * u128::from(drain.deepest) < u128::from(ALL_PERCENT) * left
}

// What is left is the new base.
fn ended(state: State, drain: Drain, shown: Shown) -> State
    requires rate { state.rate ≤ GREATEST_RATE }
    requires rest { IsRest state }
    requires drain { IsDrain drain }
    requires shown { IsShown shown }
    ensures value { result ≡ ended state drain shown }
    ensures rest { IsRest result }
    ensures losses { result.losses ≡ state.losses }
    ensures last { result.last ≡ state.last }
    ensures no_drain { IsNone result.drain }
{
    let known = state.capacity.unwrap_or(0);
    let others = left_most(drain, shown);
    let (row, rate) = if others {
        (DRAINS_IN_A_ROW.min(state.row + 1), known)
    } else {
        (0, DRAINED_PERCENT * known / ALL_PERCENT)
    };
    State {
        rate: state.rate.max(rate),
        drain: None,
        row,
        delays: Some(Delays {
            base: drain.low,
            ..shown.delays
        }),
        ..state
    }
}
