//! The rate control of the delay-based estimate (draft-ietf-rmcat-gcc-02, section 5.5, in outline;
//! `AimdRateControl` of libwebrtc, with its `LinkCapacityEstimator`).
//!
//! The rule: `Over` lowers the estimate to 85 % of the received rate, `Under` holds it, and `Normal` raises it,
//! by 8 % a second while the capacity of the path is unknown, and slowly near the capacity that earlier
//! decreases showed. A [`Control`] has an estimate in bit/s; moments and times are microseconds. The
//! constants, the roundings, the cuts and the order within a step are this project's own rules.
//!
//! Those above use that the state is the fold of the rule over all steps, settings and results.
#![tactic(auto)]

ghost use Rattle.std.specs.Prelude.{◌≡◌, ◌≤◌};
ghost use Rattle.std.specs.Option.{ForSome};
ghost use Rattle.gcc_units.specs.Rates.{IsBounds, IsInBounds, IsRate};
ghost use Rattle.rate_control.specs.Steps.{started, step, set_to, with_probe};

use gcc_units::{Bounds, GREATEST_RATE, Moment, Rate, Signal};
use std::marker::Model;

mod capacity;
mod increase;
mod state;
mod step;

use state::State;
use step::{set_to, started, step, with_probe};

/// The longest round-trip time that a step takes, in microseconds (ours).
pub const GREATEST_ROUND_TRIP: u64 = 10_000_000;

/// The estimate of delay control, and what its rule keeps beside it.
#[derive(Drop)]
pub struct Control {
    state: State,
}

impl Model for Control {
    ghost use Rattle.rate_control.specs.declared.state.State.{State};
    ghost use Rattle.rate_control.specs.Steps.{IsKept};

    ghost Value = { State };

    ghost view = { λ c. c.state };

    ghost invariant = { λ c. IsKept c.state };
}

impl Control {
    /// A control that made no step: it increases, and knows no capacity.
    pub fn new(start: Rate) -> Control
        requires { IsRate start }
        ensures { result ≡ started start }
    {
        Control {
            state: started(start),
        }
    }

    /// One step, for a feedback report that gave a sample (draft-ietf-rmcat-gcc-02, section 5.5): the signal
    /// that it gave, the received rate in bit/s where there is one, and the round-trip time and the moment in
    /// microseconds. It answers the estimate in bit/s, which is in the bounds.
    pub fn step(
        &mut self,
        signal: Signal,
        acked: Option<Rate>,
        rtt: u64,
        now: Moment,
        bounds: Bounds,
    ) -> Rate
        requires received { ForSome acked (λ received. received ≤ GREATEST_RATE) }
        requires round_trip { rtt ≤ GREATEST_ROUND_TRIP }
        requires order { ForSome self.old.last (λ last. last ≤ now) }
        requires bounds { IsBounds bounds }
        ensures state { self.new ≡ step self.old signal acked rtt now bounds }
        ensures rate { result ≡ self.new.rate }
        ensures within { IsInBounds bounds result }
    {
        self.state = step(self.state, signal, acked, rtt, now, bounds);
        self.state.rate
    }

    /// The estimate in bit/s.
    pub fn rate(&self) -> Rate
        ensures value { result ≡ self.now.rate }
        ensures within { IsRate result }
    {
        self.state.rate
    }

    /// Puts the estimate to the start where one is given, and then into the bounds. All else stays. It answers
    /// the estimate.
    pub fn set(&mut self, start: Option<Rate>, bounds: Bounds) -> Rate
        requires { IsBounds bounds }
        ensures state { self.new ≡ set_to self.old start bounds }
        ensures rate { result ≡ self.new.rate }
        ensures within { IsInBounds bounds result }
    {
        self.state = set_to(self.state, start, bounds);
        self.state.rate
    }

    /// Puts the estimate to the rate that a probe showed where that is greater, and then into the bounds. All
    /// else stays. It answers the estimate.
    pub fn take_probe(&mut self, probed: Rate, bounds: Bounds) -> Rate
        requires { IsBounds bounds }
        ensures state { self.new ≡ with_probe self.old probed bounds }
        ensures rate { result ≡ self.new.rate }
        ensures within { IsInBounds bounds result }
    {
        self.state = with_probe(self.state, probed, bounds);
        self.state.rate
    }
}

#[cfg(test)]
mod tests;
