//! What a sender keeps beside its journal.

ghost use Rattle.std.specs.Prelude.{◌≡◌, ◌≤◌, ◌<◌, [], List, length, max, OnErr, IfOk};
ghost use Rattle.gcc_units.specs.Listed.{bare};

use crate::call::{Call, Cause, Change, Reply};
use crate::checks::{MOST_PLANS, fault_of, has_any};
use crate::copies::{Rooms, room};
use crate::planning::plan_all;
use crate::recording::record_sent;
use crate::settings::{START_RATE, Settings, pacing_of};
use crate::telling::{rates_of, shares_of};
use allocator::StreamSet;
use estimator::Estimator;
use gcc_units::{
    Bytes, Class, GREATEST_MOMENT, GREATEST_RATE, Judged, MOST_SENDS, MOST_STREAMS, Moment,
    NoMemory, ShareList,
};
use pace_queues::Ticket;
use pacer::{Pacer, Pacing, SentList};
use probe_clusters::Clusters;
use rtp_wire::read_wire;
use sent_history::{FindingList, History, count_received};
use std::alloc::Global;
use twcc_report::{ReadReport, read_compact, read_report};

// What was judged, without memory that no credit uses.
fn trimmed(judged: Judged) -> Judged
    requires { judged.received ≡ bare judged.received.items }
    ensures { result ≡ judged }
{
    let mut judged = judged;
    judged.received.trim();
    judged
}

/// The counts, the pacer, the sent packets, the estimates, the clusters, the streams and the settings,
/// as the journal determines them.
#[derive(Drop)]
pub struct Parts {
    /// How many packets were accepted.
    pub accepted: u32,
    pub pacer: Pacer,
    pub history: History,
    pub estimator: Estimator,
    pub clusters: Clusters,
    pub streams: StreamSet,
    pub settings: Settings,
    /// Whether an accepted change held a start.
    pub started: bool,
}

impl Parts {
    ghost use Rattle.send_core.specs.declared.call.Call.TheVariants as call_kind;
    ghost use Rattle.send_core.specs.declared.call.Reply.TheVariants as reply_kind;
    ghost use Rattle.send_core.specs.declared.call.Cause.TheVariants as cause_kind;
    ghost use Rattle.send_core.specs.declared.call.Entry.{Entry};
    ghost use Rattle.pacer.specs.State.{advanced, tuned};
    ghost use Rattle.send_core.specs.History.{sent_by};
    ghost use Rattle.send_core.specs.Reply.{reply};
    ghost use Rattle.std.specs.Option.{ForSome};
    ghost use Rattle.gcc_units.specs.Rates.{IsRate};
    ghost use Rattle.send_core.specs.Outcomes.{TakesJudged, Credits, Configures};
    ghost use Rattle.send_core.specs.Planning.{CanPlan};
    ghost use Rattle.send_core.specs.Reply.{standing};
    ghost use Rattle.send_core.specs.Reports.{findings_by};
    ghost use Rattle.send_core.specs.Settings.{fault_of, plans, settings_after};
    ghost use Rattle.send_core.specs.Settled.{IsSettled, HasRoom, credits_by, shares_by};
    ghost use Rattle.send_core.specs.Bounds.{most_paced, most_sends};
    ghost use Rattle.send_core.specs.Stands.{StandsFor, StandsForShort, Steps, pacing_for, AreSettings};

    /// The parts of a sender that nothing was asked of yet.
    pub fn new(alloc: Global) -> Result<Parts, NoMemory>
        ensures stands { IfOk result (λ p. StandsFor p []) }
    {
        Ok(Parts {
            accepted: 0,
            pacer: Pacer::new(alloc)?,
            history: History::new(alloc)?,
            estimator: Estimator::new(alloc, START_RATE)?,
            clusters: Clusters::new(alloc),
            streams: StreamSet::new(alloc),
            settings: Settings::start(),
            started: false,
        })
    }

    // Time passes up to a moment.
    fn move_to(&mut self, at: Moment)
        requires { at ≤ GREATEST_MOMENT }
        ensures { self.new ≡ record self.old { pacer = advanced self.old.pacer (max self.old.pacer.moment at) } }
    {
        self.pacer.advance(self.pacer.moment().max(at));
    }

    // The pacer takes over what the settings and the estimates ask of it.
    fn tune(&mut self)
        requires { AreSettings self.old.settings }
        ensures { self.new ≡ record self.old { pacer = tuned self.old.pacer (pacing_for self.old.settings self.old.estimator) } }
    {
        self.pacer.tune(Pacing {
            rate: pacing_of(
                self.estimator.current().target,
                self.settings.pacing_percent,
            ),
            window: self.settings.window,
            padding_rate: self.settings.padding_rate,
            paced_audio: self.settings.paced_audio,
        });
    }

    // The call changes nothing but the moment and what follows from it.
    fn refuse(&mut self, cause: Cause) -> Reply
        requires { AreSettings self.old.settings }
        ensures reply { result ≡ reply_kind.Refused self.old.pacer.moment cause }
        ensures parts { self.new ≡ record self.old { pacer = tuned self.old.pacer (pacing_for self.old.settings self.old.estimator) } }
    {
        self.tune();
        Reply::Refused {
            at: self.pacer.moment(),
            cause,
        }
    }

    // The call's moment is too large, and its own stays.
    fn refuse_late(&mut self) -> Reply
        requires { AreSettings self.old.settings }
        ensures reply { result ≡ reply_kind.Refused self.old.pacer.moment cause_kind.MomentTooLarge }
        ensures parts { self.new ≡ record self.old { pacer = tuned (advanced self.old.pacer self.old.pacer.moment) (pacing_for self.old.settings self.old.estimator) } }
    {
        self.move_to(0);
        self.refuse(Cause::MomentTooLarge)
    }

    /// A packet is to be sent.
    pub fn enqueue(&mut self, at: u64, class: Class, wire: &Bytes) -> Reply
        requires { StandsForShort self.old }
        ensures answer { (history : List Entry) → StandsFor self.old history → result ≡ reply history (call_kind.Enqueue at class wire.now) }
        ensures steps { Steps (call_kind.Enqueue at class wire.now) result self.old self.new }
        ensures settled { IsSettled result }
        ensures sends { sent_by result ≡ [] }
        ensures received { credits_by result ≡ [] }
        ensures shares { shares_by result ≡ [] }
    {
        if at > GREATEST_MOMENT {
            return self.refuse_late();
        }
        self.move_to(at);
        if let Err(fault) = read_wire(wire.as_slice(), self.settings.extension_id as u8) {
            return self.refuse(Cause::Wire(fault));
        }
        let index = self.accepted;
        let ticket = Ticket {
            index,
            class,
            size: wire.len(),
            accepted_at: self.pacer.moment(),
        };
        if let Err(full) = self.pacer.accept(ticket) {
            return self.refuse(Cause::QueueFull {
                waiting: full.waiting,
            });
        }
        self.accepted += 1;
        self.tune();
        Reply::Accepted {
            at: self.pacer.moment(),
            index,
        }
    }

    /// What may leave now is sent.
    pub fn pace(&mut self, at: u64, room: SentList) -> Reply
        requires stands { StandsForShort self.old }
        requires empty { room.items ≡ [] }
        requires room { MOST_SENDS ≤ room.spare }
        ensures answer { (history : List Entry) → StandsFor self.old history → result ≡ reply history (call_kind.Pace at) }
        ensures steps { Steps (call_kind.Pace at) result self.old self.new }
        ensures settled { IsSettled result }
        ensures few { length (sent_by result) ≤ most_paced self.old }
        ensures received { credits_by result ≡ [] }
        ensures shares { shares_by result ≡ [] }
    {
        if at > GREATEST_MOMENT {
            return self.refuse_late();
        }
        self.move_to(at);
        let mut sent = room;
        self.pacer
            .pace(&mut self.clusters, self.history.sent(), &mut sent);
        let moment = self.pacer.moment();
        record_sent(&mut self.history, moment, sent.as_slice());
        self.tune();
        sent.trim();
        Reply::Paced { at: moment, sent }
    }

    /// A pace where nothing may leave.
    pub fn pace_nothing(&mut self, at: u64, none: SentList) -> Reply
        requires stands { StandsForShort self.old }
        requires empty { none ≡ bare [] }
        requires nothing { most_paced self.old ≡ 0 }
        ensures answer { (history : List Entry) → StandsFor self.old history → result ≡ reply history (call_kind.Pace at) }
        ensures steps { Steps (call_kind.Pace at) result self.old self.new }
        ensures settled { IsSettled result }
        ensures sends { sent_by result ≡ [] }
        ensures received { credits_by result ≡ [] }
        ensures shares { shares_by result ≡ [] }
    {
        if at > GREATEST_MOMENT {
            return self.refuse_late();
        }
        self.move_to(at);
        self.tune();
        Reply::Paced {
            at: self.pacer.moment(),
            sent: none,
        }
    }

    /// What may leave now is sent, at most so many packets. At `NoMemory` nothing has changed. Beside
    /// the reply comes room for its lists once more.
    fn pace_within(&mut self, alloc: Global, at: u64, most: u32) -> Result<(Reply, Rooms), NoMemory>
        requires stands { StandsForShort self.old }
        requires most { most ≡ most_paced self.old }
        ensures answer { IfOk result (λ r. (history : List Entry) → StandsFor self.old history → r.0 ≡ reply history (call_kind.Pace at)) }
        ensures steps { IfOk result (λ r. Steps (call_kind.Pace at) r.0 self.old self.new) }
        ensures settled { IfOk result (λ r. IsSettled r.0) }
        ensures sends { IfOk result (λ r. length (sent_by r.0) ≤ most) }
        ensures room { IfOk result (λ r. HasRoom r.0 r.1) }
        ensures err { OnErr result (self.new ≡ self.old) }
    {
        let rooms = room(alloc, most, 0, 0)?;
        if most == 0 {
            return Ok((self.pace_nothing(at, SentList::new(alloc)), rooms));
        }
        let kept = room(alloc, MOST_SENDS, 0, 0)?.sent;
        Ok((self.pace(at, kept), rooms))
    }

    /// A report came. At `NoMemory` nothing has changed. Beside the reply comes room for its lists once
    /// more.
    pub fn report(
        &mut self,
        alloc: Global,
        at: u64,
        bytes: &Bytes,
    ) -> Result<(Reply, Rooms), NoMemory>
        requires { StandsForShort self.old }
        ensures answer { IfOk result (λ r. (history : List Entry) → StandsFor self.old history → r.0 ≡ reply history (call_kind.Report at bytes.now)) }
        ensures steps { IfOk result (λ r. Steps (call_kind.Report at bytes.now) r.0 self.old self.new) }
        ensures settled { IfOk result (λ r. IsSettled r.0) }
        ensures none { IfOk result (λ r. sent_by r.0 ≡ []) }
        ensures room { IfOk result (λ r. HasRoom r.0 r.1) }
        ensures err { OnErr result (self.new ≡ self.old) }
    {
        if at > GREATEST_MOMENT {
            let rooms = room(alloc, 0, 0, 0)?;
            return Ok((self.refuse_late(), rooms));
        }
        let report = match read_compact(alloc, bytes.as_slice()) {
            Ok(report) => report,
            Err(ReadReport::NoMemory) => return Err(NoMemory),
            Err(ReadReport::Fault(fault)) => {
                let rooms = room(alloc, 0, 0, 0)?;
                self.move_to(at);
                return Ok((self.refuse(Cause::Report(fault)), rooms));
            }
        };
        let rooms = room(alloc, 0, count_received(report.runs()), MOST_STREAMS)?;
        let shares = room(alloc, 0, 0, MOST_STREAMS)?.shares;
        let judged = self.history.credit(alloc, &report)?;
        self.move_to(at);
        Ok((self.credited(judged, shares), rooms))
    }

    /// What a report would tell of packets for the first time, in the order of its statuses; nothing where
    /// the bytes are no report.
    pub fn findings(&self, alloc: Global, bytes: &Bytes) -> Result<FindingList, NoMemory>
        requires { StandsForShort self.now }
        ensures { IfOk result (λ list. (history : List Entry) → StandsFor self.now history → list ≡ bare (findings_by history bytes.now.items)) }
    {
        let report = match read_report(alloc, bytes.as_slice()) {
            Ok(report) => report,
            Err(ReadReport::NoMemory) => return Err(NoMemory),
            Err(ReadReport::Fault(_fault)) => return Ok(FindingList::new(alloc)),
        };
        let found = self.history.findings(alloc, &report)?;
        Ok(found)
    }

    // What follows of a report that was judged.
    fn credited(&mut self, judged: Judged, room: ShareList) -> Reply
        requires set { AreSettings self.old.settings }
        requires judged { TakesJudged self.old judged }
        requires empty { room.items ≡ [] }
        requires room { MOST_STREAMS ≤ room.spare }
        requires settled { judged.received ≡ bare judged.received.items }
        ensures credits { Credits judged result self.old self.new }
        ensures settled { IsSettled result }
        ensures sends { sent_by result ≡ [] }
        ensures received { credits_by result ≡ judged.received.items }
        ensures shares { length (shares_by result) ≤ MOST_STREAMS }
    {
        let estimate = self.estimator.judge(
            &judged,
            &mut self.clusters,
            self.pacer.moment(),
            self.settings.bounds,
        );
        self.tune();
        Reply::Credited {
            at: self.pacer.moment(),
            judged: trimmed(judged),
            signal: estimate.signal,
            m: estimate.m,
            acked: estimate.acked,
            rates: rates_of(&estimate, self.settings.pacing_percent),
            shares: shares_of(estimate.target, &self.streams, room),
        }
    }

    /// Settings are changed. At `NoMemory` nothing has changed. Beside the reply comes room for its lists
    /// once more.
    pub fn configure(
        &mut self,
        alloc: Global,
        at: u64,
        change: &Change,
    ) -> Result<(Reply, Rooms), NoMemory>
        requires { StandsForShort self.old }
        ensures answer { IfOk result (λ r. (history : List Entry) → StandsFor self.old history → r.0 ≡ reply history (call_kind.Configure at change.now)) }
        ensures steps { IfOk result (λ r. Steps (call_kind.Configure at change.now) r.0 self.old self.new) }
        ensures settled { IfOk result (λ r. IsSettled r.0) }
        ensures none { IfOk result (λ r. sent_by r.0 ≡ []) }
        ensures room { IfOk result (λ r. HasRoom r.0 r.1) }
        ensures err { OnErr result (self.new ≡ self.old) }
    {
        let rooms = room(alloc, 0, 0, MOST_STREAMS)?;
        if at > GREATEST_MOMENT {
            return Ok((self.refuse_late(), rooms));
        }
        let fault = self.fault_of(alloc, change)?;
        if let Some(check) = fault {
            self.move_to(at);
            return Ok((self.refuse(Cause::Config(check)), rooms));
        }
        let shares = room(alloc, 0, 0, MOST_STREAMS)?.shares;
        let streams = self
            .streams
            .changed(alloc, &change.streams, &change.removed)?;
        self.clusters.reserve(MOST_PLANS)?;
        self.move_to(at);
        Ok((self.configured(change, streams, shares), rooms))
    }

    // The first check that a change fails.
    fn fault_of(&self, alloc: Global, change: &Change) -> Result<Option<u32>, NoMemory>
        requires { StandsForShort self.now }
        ensures { IfOk result (λ fault. (history : List Entry) → StandsFor self.now history → fault ≡ fault_of (standing history) change.now) }
    {
        let fixed = has_any(self.accepted, self.history.sent());
        let waiting = self.clusters.waiting();
        let fault = fault_of(
            alloc,
            fixed,
            &self.settings,
            &self.streams,
            waiting,
            self.started,
            change,
        )?;
        Ok(fault)
    }

    // What follows of a change that passed the checks.
    fn configured(&mut self, change: &Change, streams: StreamSet, room: ShareList) -> Reply
        requires set { AreSettings (settings_after self.old.settings change.now) }
        requires start { ForSome change.now.start IsRate }
        requires plans { CanPlan self.old.clusters (plans self.old.started change.now) }
        requires empty { room.items ≡ [] }
        requires room { MOST_STREAMS ≤ room.spare }
        ensures configures { Configures change.now streams result self.old self.new }
        ensures settled { IsSettled result }
        ensures sends { sent_by result ≡ [] }
        ensures received { credits_by result ≡ [] }
        ensures shares { length (shares_by result) ≤ MOST_STREAMS }
    {
        plan_all(&mut self.clusters, self.started, change);
        self.started = self.started || change.start.is_some();
        self.streams = streams;
        self.settings = self.settings.after(change);
        let estimate = self.estimator.set(change.start, self.settings.bounds);
        self.tune();
        Reply::Configured {
            at: self.pacer.moment(),
            rates: rates_of(&estimate, self.settings.pacing_percent),
            shares: shares_of(estimate.target, &self.streams, room),
        }
    }

    /// Serves one call, with which at most so many packets leave. At `NoMemory` nothing has changed.
    /// Beside the reply comes room for its lists once more.
    pub fn serve(
        &mut self,
        alloc: Global,
        call: &Call,
        most: u32,
    ) -> Result<(Reply, Rooms), NoMemory>
        requires stands { StandsForShort self.old }
        requires most { most ≡ most_sends self.old call.now }
        ensures answer { IfOk result (λ r. (history : List Entry) → StandsFor self.old history → r.0 ≡ reply history call.now) }
        ensures steps { IfOk result (λ r. Steps call.now r.0 self.old self.new) }
        ensures settled { IfOk result (λ r. IsSettled r.0) }
        ensures sends { IfOk result (λ r. length (sent_by r.0) ≤ most) }
        ensures room { IfOk result (λ r. HasRoom r.0 r.1) }
        ensures err { OnErr result (self.new ≡ self.old) }
    {
        match call {
            Call::Enqueue { at, class, wire } => {
                let rooms = room(alloc, 0, 0, 0)?;
                Ok((self.enqueue(*at, *class, wire), rooms))
            }
            Call::Pace { at } => self.pace_within(alloc, *at, most),
            Call::Report { at, bytes } => self.report(alloc, *at, bytes),
            Call::Configure { at, change } => self.configure(alloc, *at, change.get()),
        }
    }
}
