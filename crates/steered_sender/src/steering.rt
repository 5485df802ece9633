//! What steers a sender: the level control, and what it needs to know of the sender's calls.

ghost use Rattle.std.specs.Prelude.{◌≡◌, ◌≤◌, ◌<◌, ◌+◌, ◌++◌, ℕ, None, [], List, length, map};
ghost use Rattle.std.specs.Option.{ForSome};
ghost use Rattle.gcc_units.specs.Rates.{IsRate, IsBounds};
ghost use Rattle.probe_clusters.specs.Deeds.{Deed, StandsFor, ReachedBy};
ghost use Rattle.pacer.specs.Course.{HasRoom, probes_of};
ghost use Rattle.send_core.specs.Planning.{CanPlan};
ghost use Rattle.send_core.specs.Settings.{plans};
ghost use Rattle.steered_sender.specs.Following.{AreForDue};
ghost use Rattle.steered_sender.specs.Steps.{Steers, TakesJudged, Hears, Changes, bounds_with};

use crate::clustering::{MOST_PLANS, note_all, plan_all, take_results};
use crate::measuring::{report_of, round_trip};
use estimator::START_ROUND_TRIP;
use gcc_units::{Bounds, Judged, Moment, Rate, Sequence};
use level_control::{Answer, LevelControl, Probed};
use probe_clusters::Clusters;
use send_core::{Change, Settings};
use std::alloc::Global;

/// The caller of the control's changes in the history of a steered sender; its other callers have other numbers.
pub const CONTROL_CALLER: u32 = 1;

/// A change that the control asks for.
#[derive(Clone, Copy)]
pub struct Wanted {
    /// What both estimates are put to, in bit/s.
    pub rate: Rate,
    /// The rate of a probe cluster, in bit/s.
    pub probe: Option<Rate>,
}

/// The control, and what it needs of the history.
#[derive(Drop)]
pub struct Steering {
    /// The rate that it began at, in bit/s.
    pub start: Rate,
    pub level: LevelControl,
    pub clusters: Clusters,
    /// The rates of all clusters, in the order of their ids.
    pub planned: Sequence<Rate>,
    /// Whether an accepted change held a start.
    pub started: bool,
    /// The bounds of the settings.
    pub bounds: Bounds,
    /// The round trip in microseconds.
    pub rtt: u64,
    /// The change that was not served yet.
    pub wanted: Option<Wanted>,
}

impl Steering {
    /// A control that begins at a rate, for which it asks first.
    pub fn new(alloc: Global, start: Rate) -> Steering
        requires { IsRate start }
        ensures stands { Steers result [] }
        ensures start { result.start ≡ start }
    {
        let bounds = Settings::start().bounds;
        Steering {
            start,
            level: LevelControl::new(start.clamp(bounds.min, bounds.max)),
            clusters: Clusters::new(alloc),
            planned: Sequence::new(alloc),
            started: false,
            bounds,
            rtt: START_ROUND_TRIP,
            wanted: Some(Wanted {
                rate: start,
                probe: None,
            }),
        }
    }

    /// A report was judged. The results of clusters go into the room.
    pub fn hear(
        &mut self,
        now: Moment,
        judged: &Judged,
        acked: Option<Rate>,
        room: Sequence<Probed>,
    ) -> Answer
        requires takes { TakesJudged self.old now judged.now }
        requires empty { room.items ≡ [] }
        requires room { length self.old.clusters.items ≤ room.spare }
        ensures { Hears now judged.now acked result self.old self.new }
    {
        let received = judged.received.as_slice();
        let waits = self.clusters.waiting() > 0;
        self.rtt = round_trip(self.rtt, received, now);
        note_all(&mut self.clusters, received);
        let results = take_results(&mut self.clusters, self.planned.as_slice(), room);
        let report = report_of(now, judged, acked, self.rtt);
        let answer = self
            .level
            .take_report(report, results.as_slice(), waits, self.bounds);
        self.wanted = Some(Wanted {
            rate: answer.rate,
            probe: answer.cluster,
        });
        answer
    }

    /// A change was accepted, by the control or another caller. There is room for what it plans.
    pub fn change(&mut self, change: &Change, own: bool)
        requires can { CanPlan self.old.clusters (plans self.old.started change.now) }
        requires start { ForSome change.now.start IsRate }
        requires room { MOST_PLANS ≤ self.old.planned.spare }
        requires bounds { IsBounds (bounds_with self.old.bounds change.now) }
        ensures { Changes own change.now self.old self.new }
    {
        plan_all(&mut self.clusters, &mut self.planned, self.started, change);
        self.started = self.started || change.start.is_some();
        self.bounds = Bounds {
            min: change.min.unwrap_or(self.bounds.min),
            max: change.max.unwrap_or(self.bounds.max),
        };
        if !own {
            self.level.set(change.start, self.bounds);
        }
        self.wanted = None;
    }
}
