//! The estimator: how much the path takes, by the feedback reports so far
//! (draft-ietf-rmcat-gcc-02, sections 5 and 6, in outline; `GoogCcNetworkController` of libwebrtc).
//!
//! An [`Estimator`] has two estimates in bit/s, that of delay control and that of loss control; the target is
//! the lesser. Each report moves them: its credits go through packet groups, arrival filter and overuse
//! detector, to the window of the received rate, and to the probe clusters. Moments are microseconds.
//!
//! The order within a report, the signal of a report and its round-trip time are this project's own rules.
//! Those above use that signal, rates and target are the fold of the rules over all judged reports.
#![tactic(auto)]

ghost use Rattle.std.specs.Prelude.{◌≡◌, ◌≤◌, ◌+◌, ℕ, ◌++◌, List, All, IfOk, length, map, min};
ghost use Rattle.gcc_units.specs.Rates.{IsRate, IsBounds};
ghost use Rattle.probe_clusters.specs.Deeds as deeds;
ghost use Rattle.estimator.specs.Signals.{IsSentBy};
ghost use Rattle.estimator.specs.Report.{found, TakesNotes};
ghost use Rattle.estimator.specs.Est.{Est, start_est, judged_est, set_est, estimate};
ghost use Rattle.estimator.specs.Kept.{StandsFor, TakesReport, IsInRange, AreRates, AreInBounds};

use acked_rate::Window;
use arrival_filter::Filter;
use gcc_units::{Bounds, GREATEST_MOMENT, Judged, MOST_STATUSES, Moment, NoMemory, Rate, Signal};
use loss_control::Loss;
use overuse::Detector;
use packet_groups::Groups;
use probe_clusters::Clusters;
use rate_control::Control;
use std::alloc::Global;
use std::marker::Model;

mod estimate;
mod hearing;
mod report;

pub use estimate::{Estimate, START_ROUND_TRIP};
use hearing::hear;
pub use report::{later_of, round_trip};
use report::{add_all, note_all, step_if_heard, take_results};

/// Both estimates, and what their rules keep of the reports so far.
#[derive(Drop)]
pub struct Estimator {
    groups: Groups,
    filter: Filter,
    detector: Detector,
    window: Window,
    delay: Control,
    loss: Loss,
    signal: Signal,
    rtt: u64,
}

impl Model for Estimator {
    ghost use Rattle.std.specs.Prelude.{◌≤◌};
    ghost use Rattle.rate_control.specs.declared.TheConstants.{GREATEST_ROUND_TRIP};
    ghost use Rattle.estimator.specs.Kept.{Values};

    ghost Value = { Values };

    ghost view = { λ a. record {
      groups = a.groups;
      filter = a.filter;
      detector = a.detector;
      window = a.window;
      delay = a.delay;
      loss = a.loss;
      signal = a.signal;
      rtt = a.rtt;
    } };

    ghost invariant = { λ a. a.rtt ≤ GREATEST_ROUND_TRIP };
}

impl Estimator {
    /// Both estimates begin at `start`, in bit/s. It takes the memory that the window needs, so that no later
    /// call takes any.
    pub fn new(alloc: Global, start: Rate) -> Result<Estimator, NoMemory>
        requires { IsRate start }
        ensures { IfOk result (λ e. StandsFor e (start_est start)) }
    {
        Ok(Estimator {
            groups: Groups::new(),
            filter: Filter::new(),
            detector: Detector::new(),
            window: Window::new(alloc)?,
            delay: Control::new(start),
            loss: Loss::new(start),
            signal: Signal::Normal,
            rtt: START_ROUND_TRIP,
        })
    }

    /// Takes a report: what it credited and how many packets it reported missing, with the clusters that its
    /// credits name, at a moment in microseconds. Each credit goes to groups, filter and detector, to the
    /// window, and to its cluster. Then delay control makes a step where a sample came of them, by `Over`
    /// where one of them gave it, and else by the signal of the last one; loss control makes a step in any
    /// case; and both take the results of the clusters that have one. It answers the estimate.
    pub fn judge(
        &mut self,
        judged: &Judged,
        clusters: &mut Clusters,
        now: Moment,
        bounds: Bounds,
    ) -> Estimate
        requires moment { now ≤ GREATEST_MOMENT }
        requires bounds { IsBounds bounds }
        requires received { length judged.now.received.items ≤ MOST_STATUSES }
        requires missing { judged.now.missing ≤ MOST_STATUSES }
        requires ranges { All IsInRange judged.now.received.items }
        requires sent { All (IsSentBy now) judged.now.received.items }
        requires report { TakesReport self.old (length judged.now.received.items) now }
        requires notes { TakesNotes clusters.old.items judged.now.received.items }
        ensures stands { (e : Est) (ds : List deeds.Deed) → StandsFor self.old e → deeds.StandsFor clusters.old.items ds
            → StandsFor self.new (judged_est e judged.now.received.items judged.now.missing now bounds (found ds judged.now.received.items)) }
        ensures answer { (e : Est) (ds : List deeds.Deed) → StandsFor self.old e → deeds.StandsFor clusters.old.items ds
            → result ≡ estimate (judged_est e judged.now.received.items judged.now.missing now bounds (found ds judged.now.received.items)) }
        ensures rates { AreRates result }

        // Without a sample delay control makes no step, so only where both were in these bounds before.
        ensures in_bounds { (e : Est) → StandsFor self.old e → AreInBounds bounds (estimate e) → AreInBounds bounds result }

        // The clusters were given the credits, and the results were taken.
        ensures clusters { (ds : List deeds.Deed) → deeds.StandsFor clusters.old.items ds
            → deeds.StandsFor clusters.new.items ((ds ++ map deeds.Note judged.now.received.items) ++ deeds.takings (found ds judged.now.received.items)) }
        ensures reached { (sends credits : ℕ) → deeds.ReachedBy sends credits clusters.old.items
            → deeds.ReachedBy sends (credits + length judged.now.received.items) clusters.new.items }
        ensures spare { clusters.old.spare ≤ clusters.new.spare }
    {
        let received = judged.received.as_slice();
        let heard = hear(
            &mut self.groups,
            &mut self.filter,
            &mut self.detector,
            received,
        );
        add_all(&mut self.window, received);
        self.signal = heard.unwrap_or(self.signal);
        self.rtt = round_trip(self.rtt, received, now);
        let acked = self.window.rate();
        step_if_heard(&mut self.delay, heard, acked, self.rtt, now, bounds);
        self.loss
            .step(judged.received.len(), judged.missing, now, bounds);
        note_all(clusters, received);
        take_results(clusters, &mut self.delay, &mut self.loss, bounds);
        self.current()
    }

    /// Puts both estimates to `start` where one is given, and then into the bounds. It answers the estimate.
    pub fn set(&mut self, start: Option<Rate>, bounds: Bounds) -> Estimate
        requires bounds { IsBounds bounds }
        ensures stands { (e : Est) → StandsFor self.old e → StandsFor self.new (set_est e start bounds) }
        ensures answer { (e : Est) → StandsFor self.old e → result ≡ estimate (set_est e start bounds) }
        ensures rates { AreRates result }
        ensures in_bounds { AreInBounds bounds result }
    {
        self.delay.set(start, bounds);
        self.loss.set(start, bounds);
        self.current()
    }

    /// The estimate as it stands.
    pub fn current(&self) -> Estimate
        ensures value { (e : Est) → StandsFor self.now e → result ≡ estimate e }
        ensures rates { AreRates result }
        ensures delay { result.delay ≡ self.now.delay.rate }
        ensures loss { result.loss ≡ self.now.loss.estimate }
        ensures target { result.target ≡ min result.delay result.loss }
    {
        let delay = self.delay.rate();
        let loss = self.loss.rate();
        Estimate {
            delay,
            loss,
            target: delay.min(loss),
            signal: self.signal,
            m: self.filter.mean(),
            acked: self.window.rate(),
        }
    }
}

#[cfg(test)]
mod tests;
