//! The level control: one estimate of the rate, by the level of the one-way delay above its base (this project's own
//! rule; constants of draft-ietf-rmcat-gcc-02 where they are named so).
//!
//! The rule: the rate grows until the delay stands 25 ms above its base. Then it is cut, and nothing grows until
//! the delay falls no more. What is left then is not this sender's queue: it is the new base. Losses are asked
//! the same question: what a cut does not lower is not ours. Rates are bit/s, moments microseconds, delays
//! quarter-milliseconds. A [`LevelControl`] keeps no list: its numbers take constant memory.
//!
//! `steered_sender` puts it above a live sender.
#![tactic(auto)]

ghost use Rattle.std.specs.Prelude.{◌≡◌, ◌≤◌, ◌+◌, ℕ, All, IsSome, IsNone, max, true, false};
ghost use Rattle.std.specs.Option.{ForSome};
ghost use Rattle.gcc_units.specs.Rates.{IsRate, IsBounds, IsInBounds};
ghost use Rattle.level_control.specs.Rule.{started, set_to, IsReport, Gathers, TakesReport};
ghost use Rattle.level_control.specs.Probing.{IsProbed};
ghost use Rattle.gcc_units.specs.declared.shared_types.Signal.TheVariants.{Over};
ghost use Rattle.level_control.specs.Laws.{cut_from};
ghost use Rattle.level_control.specs.Steps.{after, answer, signal_of};

use gcc_units::{Bounds, Rate, Signal};
use std::marker::Model;

mod delays;
mod drains;
mod growth;
mod laws;
mod losses;
mod probing;
mod report;
mod state;

pub use laws::{
    cuts_are_shown, cuts_lie_apart, delays_are_those_of_the_list, drains_are_those_of_the_list,
    drains_end_behind_falls, drains_end_low, levels_lie_in_range,
    loss_windows_are_those_of_the_list, moving_changes_no_answer, rates_grow_slowly,
};
use probing::probed;
use report::{after_report, set_to, started};
use state::State;
pub use state::{Delay, Probed, Report};

/// The longest round trip that a report hands in, in microseconds (as in delay control).
pub const GREATEST_ROUND_TRIP: u64 = 10_000_000;

/// What a report led to.
#[derive(Clone, Copy, PartialEq, Eq, Debug)]
pub struct Answer {
    /// The estimate in bit/s.
    pub rate: Rate,
    /// `Over` at a cut, `Under` while a drain lasts, else `Normal`.
    pub signal: Signal,
    /// The rate of the probe cluster that is asked for, in bit/s.
    pub cluster: Option<Rate>,
}

/// The estimate, and what its rule keeps beside it.
#[derive(Drop)]
pub struct LevelControl {
    state: State,
}

impl Model for LevelControl {
    ghost use Rattle.level_control.specs.declared.state.State.{State};
    ghost use Rattle.level_control.specs.Rule.{IsKept};

    ghost Value = { State };

    ghost view = { λ c. c.state };

    ghost invariant = { λ c. IsKept c.state };
}

impl LevelControl {
    /// A control that was given no report.
    pub fn new(start: Rate) -> LevelControl
        requires { IsRate start }
        ensures state { result ≡ started start }
        ensures gathers { Gathers 0 result }
    {
        LevelControl {
            state: started(start),
        }
    }

    /// Takes a report, with the results of the probe clusters that have one, in rising order of id, and whether a
    /// cluster waits. It answers the estimate, which is in the bounds, and the cluster that is asked for.
    pub fn take_report(
        &mut self,
        report: Report,
        results: &[Probed],
        waits: bool,
        bounds: Bounds,
    ) -> Answer
        requires report { IsReport report }
        requires results { All IsProbed results.now }
        requires order { ForSome self.old.last (λ last. last ≤ report.now) }
        requires bounds { IsBounds bounds }
        requires few { TakesReport self.old }
        ensures state { self.new ≡ after self.old report results.now waits bounds }
        ensures answer { result ≡ answer self.old report results.now waits bounds }
        ensures rate { result.rate ≡ self.new.rate }
        ensures within { IsInBounds bounds result.rate }
        ensures last { ForSome self.new.last (λ last. last ≤ report.now) }
        ensures gathers { (n : ℕ) → Gathers n self.old → Gathers (n + 1) self.new }

        // After a cut, in a drain, and of the cluster that is asked for.
        ensures cut { result.signal ≡ Over → result.rate ≤ max bounds.min (cut_from self.old.rate) }
        ensures cut_received { result.signal ≡ Over → ForSome report.acked (λ received. result.rate ≤ max bounds.min (cut_from received)) }
        ensures apart { result.signal ≡ Over → ForSome self.old.drain (λ drain. drain.until ≤ report.now) }
        ensures until { result.signal ≡ Over → ForSome self.new.drain (λ drain. drain.until ≡ report.now + report.rtt) }
        ensures drains { IsSome self.old.drain → IsSome self.new.drain → result.rate ≤ max bounds.min self.old.rate }
        ensures cluster { ForSome result.cluster (λ rate. rate ≤ bounds.max) }
        ensures no_drain { IsSome result.cluster → IsNone self.new.drain }
        ensures one { IsSome result.cluster → waits ≡ false }
    {
        let measured = after_report(self.state, report, bounds);
        let asked = probed(measured.state, results, waits, report.now, bounds);
        self.state = asked.state;
        Answer {
            rate: asked.state.rate,
            signal: signal_of(measured.cut, measured.state.drain.is_some()),
            cluster: asked.cluster,
        }
    }

    /// Puts the estimate to the start where one is given, which ends a drain and forgets the capacity, and then into
    /// the bounds. Base, floor and losses stay. It answers the estimate.
    pub fn set(&mut self, start: Option<Rate>, bounds: Bounds) -> Rate
        requires { IsBounds bounds }
        ensures state { self.new ≡ set_to self.old start bounds }
        ensures rate { result ≡ self.new.rate }
        ensures within { IsInBounds bounds result }
        ensures gathers { (n : ℕ) → Gathers n self.old → Gathers n self.new }
        ensures last { self.new.last ≡ self.old.last }
    {
        self.state = set_to(self.state, start, bounds);
        self.state.rate
    }

    /// The estimate in bit/s.
    pub fn rate(&self) -> Rate
        ensures value { result ≡ self.now.rate }
        ensures within { IsRate result }
    {
        self.state.rate
    }
}

fn signal_of(cut: bool, drains: bool) -> Signal
    ensures value { result ≡ signal_of cut drains }
    ensures over { result ≡ Over → cut ≡ true }
{
    if cut {
        Signal::Over
    } else if drains {
        Signal::Under
    } else {
        Signal::Normal
    }
}

#[cfg(test)]
mod tests;
