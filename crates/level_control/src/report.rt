//! What one report and a setting change.

ghost use Rattle.std.specs.Prelude.{◌≡◌, ◌≤◌, ◌<◌, ◌+◌, ℕ, Some, IsSome, max, true};
ghost use Rattle.std.specs.Option.{ForSome};
ghost use Rattle.gcc_units.specs.Rates.{bounded, IsRate, IsBounds, IsInBounds};
ghost use Rattle.level_control.specs.Delays.{IsDelay, IsDelays};
ghost use Rattle.level_control.specs.Drains.{asks_cut, IsShown, IsRest};
ghost use Rattle.level_control.specs.Laws.{cut_from};
ghost use Rattle.level_control.specs.Rule.{started, shown, with_shown, with_delay, put_in, after_report, restarted, set_to, IsReport, IsKept, Gathers, TakesReport};

use crate::delays::{above, delays_after, level};
use crate::drains::{asks_cut, stepped};
use crate::growth::elapsed;
use crate::losses::after_losses;
use crate::state::{Delay, Losses, Report, Shown, State};
use gcc_units::{Bounds, GREATEST_RATE, Rate};

/// A state after a report, and whether this was cut.
#[derive(Clone, Copy)]
pub struct Measured {
    pub state: State,
    pub cut: bool,
}

/// The state before the first report.
pub fn started(rate: Rate) -> State
    requires { IsRate rate }
    ensures value { result ≡ started rate }
    ensures kept { IsKept result }
    ensures gathers { Gathers 0 result }
{
    State {
        rate,
        capacity: None,
        drain: None,
        row: 0,
        losses: Losses {
            received: 0,
            missing: 0,
            since: None,
            tolerated: 0,
            tried: None,
        },
        delays: None,
        last: None,
        probed: None,
    }
}

/// The state after a report, without the results of probes.
pub fn after_report(state: State, report: Report, bounds: Bounds) -> Measured
    requires kept { IsKept state }
    requires few { TakesReport state }
    requires report { IsReport report }
    requires order { ForSome state.last (λ last. last ≤ report.now) }
    requires bounds { IsBounds bounds }
    ensures value { result ≡ after_report state report bounds }
    ensures kept { IsKept result.state }
    ensures within { IsInBounds bounds result.state.rate }
    ensures last { ForSome result.state.last (λ last. last ≤ report.now) }
    ensures gathers { (n : ℕ) → Gathers n state → Gathers (n + 1) result.state }
    ensures cut { result.cut ≡ true → result.state.rate ≤ max bounds.min (cut_from state.rate) }
    ensures cut_received { result.cut ≡ true → ForSome report.acked (λ received. result.state.rate ≤ max bounds.min (cut_from received)) }
    ensures apart { result.cut ≡ true → ForSome state.drain (λ drain. drain.until ≤ report.now) }
    ensures until { result.cut ≡ true → ForSome result.state.drain (λ drain. drain.until ≡ report.now + report.rtt) }
    ensures cut_drains { result.cut ≡ true → IsSome result.state.drain }
    ensures drains { IsSome state.drain → IsSome result.state.drain → result.state.rate ≤ max bounds.min state.rate }
{
    let heard = after_losses(state, report);
    let next = with_delay(heard.state, heard.lossy, report);
    let state = put_in(bounds, next.state);
    Measured {
        state: State {
            probed: Some(state.probed.unwrap_or(report.now)),
            ..state
        },
        cut: next.cut,
    }
}

// Growth, a cut or what a drain makes of the rate, where the report credits something.
fn with_delay(state: State, lossy: bool, report: Report) -> Measured
    requires positive { 0 < state.rate }
    requires rate { state.rate ≤ GREATEST_RATE }
    requires rest { IsRest state }
    requires report { IsReport report }
    requires order { ForSome state.last (λ last. last ≤ report.now) }
    ensures value { result ≡ with_delay state lossy report.delay report }
    ensures rest { IsRest result.state }
    ensures losses { result.state.losses ≡ state.losses }
    ensures last { ForSome result.state.last (λ last. last ≤ report.now) }
    ensures cut { result.cut ≡ true → result.state.rate ≤ cut_from state.rate }
    ensures cut_received { result.cut ≡ true → ForSome report.acked (λ received. result.state.rate ≤ cut_from received) }
    ensures apart { result.cut ≡ true → ForSome state.drain (λ drain. drain.until ≤ report.now) }
    ensures until { result.cut ≡ true → ForSome result.state.drain (λ drain. drain.until ≡ report.now + report.rtt) }
    ensures cut_drains { result.cut ≡ true → IsSome result.state.drain }
    ensures drains { IsSome state.drain → IsSome result.state.drain → result.state.rate ≤ state.rate }
{
    let Some(delay) = report.delay else {
        return Measured { state, cut: false };
    };
    let shown = shown(state, lossy, delay, report);
    Measured {
        state: with_shown(state, shown),
        cut: asks_cut(state.drain, shown),
    }
}

fn with_shown(state: State, shown: Shown) -> State
    requires positive { 0 < state.rate }
    requires rate { state.rate ≤ GREATEST_RATE }
    requires rest { IsRest state }
    requires shown { IsShown shown }
    ensures value { result ≡ with_shown state shown }
    ensures rest { IsRest result }
    ensures losses { result.losses ≡ state.losses }
    ensures last { result.last ≡ Some shown.now }
    ensures cut { asks_cut state.drain shown ≡ true → result.rate ≤ cut_from state.rate }
    ensures cut_received { asks_cut state.drain shown ≡ true → ForSome shown.acked (λ received. result.rate ≤ cut_from received) }
    ensures until { asks_cut state.drain shown ≡ true → ForSome result.drain (λ drain. drain.until ≡ shown.now + shown.rtt) }
    ensures cut_drains { asks_cut state.drain shown ≡ true → IsSome result.drain }
    ensures drains { IsSome state.drain → IsSome result.drain → result.rate ≤ state.rate }
{
    let state = State {
        delays: Some(shown.delays),
        last: Some(shown.now),
        ..state
    };
    stepped(state, shown)
}

fn shown(state: State, lossy: bool, delay: Delay, report: Report) -> Shown
    requires rest { IsRest state }
    requires delay { IsDelay delay }
    requires report { IsReport report }
    requires order { ForSome state.last (λ last. last ≤ report.now) }
    ensures value { result ≡ shown state lossy delay report }
    ensures shown { IsShown result }
    ensures now { result.now ≡ report.now }
    ensures acked { result.acked ≡ report.acked }
    ensures round_trip { result.rtt ≡ report.rtt }
{
    let delays = delays_after(state.delays, delay, report.now);
    Shown {
        delays,
        above: above(delay, delays.base),
        level: level(delays, state.row),
        time: elapsed(state.last, report.now),
        lossy,
        acked: report.acked,
        rtt: report.rtt,
        now: report.now,
    }
}

/// The state with its rate put in bounds.
pub fn put_in(bounds: Bounds, state: State) -> State
    requires bounds { IsBounds bounds }
    requires rest { IsRest state }
    ensures value { result ≡ put_in bounds state }
    ensures kept { IsKept result }
    ensures within { IsInBounds bounds result.rate }
    ensures losses { result.losses ≡ state.losses }
    ensures last { result.last ≡ state.last }
    ensures drain { result.drain ≡ state.drain }
    ensures low { result.rate ≤ max bounds.min state.rate }
{
    let rate = state.rate.clamp(bounds.min, bounds.max);
    State { rate, ..state }
}

/// The state after a change of the settings.
pub fn set_to(state: State, start: Option<Rate>, bounds: Bounds) -> State
    requires kept { IsKept state }
    requires bounds { IsBounds bounds }
    ensures value { result ≡ set_to state start bounds }
    ensures kept { IsKept result }
    ensures within { IsInBounds bounds result.rate }
    ensures losses { result.losses ≡ state.losses }
    ensures last { result.last ≡ state.last }
{
    put_in(bounds, restarted(state, start))
}

fn restarted(state: State, start: Option<Rate>) -> State
    requires rest { IsRest state }
    ensures value { result ≡ restarted state start }
    ensures rest { IsRest result }
    ensures losses { result.losses ≡ state.losses }
    ensures last { result.last ≡ state.last }
{
    match start {
        None => state,
        Some(rate) => State {
            rate,
            capacity: None,
            drain: None,
            row: 0,
            ..state
        },
    }
}
