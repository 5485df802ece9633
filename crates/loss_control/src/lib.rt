//! Loss control: an estimate that falls where reports tell of many losses, and rises where they tell of few
//! (draft-ietf-rmcat-gcc-02, section 6, in outline; `SendSideBandwidthEstimation` of libwebrtc).
//!
//! The rule: above a tenth lost the estimate falls by half of the lost share, below a fiftieth it rises by a
//! twentieth, else it stays. Rates are bit/s, moments microseconds. When counts are judged, the thresholds and
//! the roundings are this project's own rules.
//!
//! Those above use that the state is the fold of the rule over all reports.
#![tactic(auto)]

ghost use Rattle.std.specs.Prelude.{◌≡◌, ◌≤◌, [], ◌∷◌, ◌++◌, List, max, unwrap_or};
ghost use Rattle.gcc_units.specs.Rates.{IsRate, IsBounds, IsInBounds, bounded};
ghost use Rattle.loss_control.specs.Rule.{Counts, begun, after, with_estimate};
ghost use Rattle.loss_control.specs.GatheredReports.{StandsFor, TakesReport};

use gcc_units::{Bounds, MOST_STATUSES, Moment, Rate};
use std::marker::Model;

mod step;

use step::{State, after, bounded};

/// How long counts are gathered at least before they are judged, in microseconds (ours).
pub const LOSS_PERIOD: u64 = 1_000_000;

/// How many packets are gathered at least before they are judged (ours; `kLimitNumPackets` of
/// libwebrtc).
pub const FEWEST_PACKETS: u64 = 20;

/// The estimate falls where more than one packet of so many is missing
/// (draft-ietf-rmcat-gcc-02, section 6: a loss above 0.1).
pub const HIGH_LOSS: u64 = 10;

/// The estimate rises where fewer than one packet of so many are missing
/// (draft-ietf-rmcat-gcc-02, section 6: a loss below 0.02).
pub const LOW_LOSS: u64 = 50;

/// What the estimate rises to, in percent (draft-ietf-rmcat-gcc-02, section 6: 1.05).
pub const RAISED_PERCENT: u64 = 105;

/// The whole, in percent.
pub const ALL_PERCENT: u64 = 100;

/// The estimate of loss control, and the counts that are gathered for its next change.
#[derive(Drop)]
pub struct Loss {
    state: State,
}

impl Model for Loss {
    ghost use Rattle.loss_control.specs.declared.step.State.{State};
    ghost use Rattle.gcc_units.specs.Rates.{IsRate};

    ghost Value = { State };

    ghost view = { λ l. l.state };

    ghost invariant = { λ l. IsRate l.state.estimate };
}

impl Loss {
    /// Starts at a rate, with no counts.
    pub fn new(start: Rate) -> Self
        requires { IsRate start }
        ensures state { result ≡ begun start }
        ensures stands { StandsFor result [] }
    {
        Loss {
            state: State {
                estimate: start,
                received: 0,
                missing: 0,
                since: None,
            },
        }
    }

    /// Takes the counts of a report at a moment, and answers the estimate after them.
    pub fn step(&mut self, received: u32, missing: u32, now: Moment, bounds: Bounds) -> Rate
        requires received { received ≤ MOST_STATUSES }
        requires missing { missing ≤ MOST_STATUSES }
        requires bounds { IsBounds bounds }
        requires few { TakesReport self.old }
        ensures state { self.new ≡ after self.old (record { received = received; missing = missing }) now bounds }
        ensures rate { result ≡ self.new.estimate }
        ensures within { IsInBounds bounds result }
        ensures stands { (reports : List Counts) → StandsFor self.old reports → StandsFor self.new (reports ++ record { received = received; missing = missing } ∷ []) }
    {
        self.state = after(self.state, received, missing, now, bounds);
        self.state.estimate
    }

    /// The estimate.
    pub fn rate(&self) -> Rate
        ensures value { result ≡ self.now.estimate }
        ensures rate { IsRate result }
    {
        self.state.estimate
    }

    /// Puts the estimate to `start` where one is given, and then into the bounds. All else stays.
    pub fn set(&mut self, start: Option<Rate>, bounds: Bounds) -> Rate
        requires { IsBounds bounds }
        ensures state { self.new ≡ with_estimate self.old (bounded bounds (unwrap_or start self.old.estimate)) }
        ensures rate { result ≡ self.new.estimate }
        ensures within { IsInBounds bounds result }
        ensures stands { (reports : List Counts) → StandsFor self.old reports → StandsFor self.new reports }
    {
        let rate = start.unwrap_or(self.state.estimate);
        self.put(rate, bounds)
    }

    /// Puts the estimate to the greater of itself and what a probe gave, and then into the bounds. All else
    /// stays.
    pub fn take_probe(&mut self, probed: Rate, bounds: Bounds) -> Rate
        requires { IsBounds bounds }
        ensures state { self.new ≡ with_estimate self.old (bounded bounds (max self.old.estimate probed)) }
        ensures rate { result ≡ self.new.estimate }
        ensures within { IsInBounds bounds result }
        ensures stands { (reports : List Counts) → StandsFor self.old reports → StandsFor self.new reports }
    {
        let rate = self.state.estimate.max(probed);
        self.put(rate, bounds)
    }

    /// Puts the estimate to a rate, put in bounds.
    fn put(&mut self, rate: Rate, bounds: Bounds) -> Rate
        requires { IsBounds bounds }
        ensures state { self.new ≡ with_estimate self.old (bounded bounds rate) }
        ensures rate { result ≡ self.new.estimate }
        ensures within { IsInBounds bounds result }
        ensures stands { (reports : List Counts) → StandsFor self.old reports → StandsFor self.new reports }
    {
        self.state.estimate = bounded(rate, bounds);
        self.state.estimate
    }
}

#[cfg(test)]
mod tests;
