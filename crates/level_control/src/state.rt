//! What the rule keeps from report to report, and what a report tells it.

use gcc_units::{Moment, Rate};

/// A one-way delay in quarter-milliseconds: the arrival by the receiver's clock less the departure by the
/// sender's. It may be negative, since the clocks need not agree.
pub type Delay = i64;

/// What a feedback report tells.
#[derive(Clone, Copy)]
pub struct Report {
    /// The least delay of its credits; none where it credits nothing.
    pub delay: Option<Delay>,
    /// How many packets it credits.
    pub received: u32,
    /// How many packets it reports missing for the first time.
    pub missing: u32,
    /// The received rate in bit/s.
    pub acked: Option<Rate>,
    /// The round trip in microseconds.
    pub rtt: u64,
    /// When it came.
    pub now: Moment,
}

/// The result of a probe cluster.
#[derive(Clone, Copy)]
pub struct Probed {
    /// The rate at which the cluster was planned, in bit/s.
    pub planned: Rate,
    /// The rate of the path that its credits show, in bit/s.
    pub result: Rate,
}

/// The counts of a loss window, and which share of losses is taken as not ours.
#[derive(Clone, Copy)]
pub struct Losses {
    pub received: u64,
    pub missing: u64,
    /// Since when counts are gathered; it may lie ahead.
    pub since: Option<Moment>,
    /// A share in thousandths that a cut did not lower.
    pub tolerated: u64,
    /// The share in thousandths for which the last window led to a cut.
    pub tried: Option<u64>,
}

/// The delays of the reports so far.
#[derive(Clone, Copy)]
pub struct Delays {
    /// The least since the last cut whose drain has ended.
    pub base: Delay,
    /// That of the last report.
    pub last: Delay,
    /// Sixteen times the mean change from report to report, in quarter-milliseconds.
    pub change: u64,
    /// The spell of the last report.
    pub spell: u64,
    /// The least of that spell.
    pub least: Delay,
    /// The least of the spell before it, where that had a report.
    pub earlier: Option<Delay>,
}

/// What is known since a cut whose queue still drains.
#[derive(Clone, Copy)]
pub struct Drain {
    /// The greatest height above the base before the cut could show.
    pub deepest: u64,
    /// The least delay.
    pub low: Delay,
    /// The delay below which the next fall counts.
    pub mark: Delay,
    /// Until when nothing that the cut did can be seen.
    pub until: Moment,
    /// When the delay fell last.
    pub fell: Moment,
    /// The rate before the first cut.
    pub before: Rate,
}

/// The state of the rule.
#[derive(Clone, Copy)]
pub struct State {
    /// The estimate in bit/s.
    pub rate: Rate,
    /// What the path carried when it was full; `None` while no cut has shown it.
    pub capacity: Option<Rate>,
    pub drain: Option<Drain>,
    /// How many of the last drains in a row left most of the queue, two at most.
    pub row: u64,
    pub losses: Losses,
    pub delays: Option<Delays>,
    /// When the last report came that credited something.
    pub last: Option<Moment>,
    /// When the last cluster was asked for, or the first report came.
    pub probed: Option<Moment>,
}

/// What a report that credited something shows.
#[derive(Clone, Copy)]
pub struct Shown {
    /// The delays with its own.
    pub delays: Delays,
    /// How far its delay lies above the base.
    pub above: u64,
    /// How far that may be.
    pub level: u64,
    /// The time since the report before it, cut.
    pub time: u64,
    /// Whether its losses ask for a cut.
    pub lossy: bool,
    /// The received rate in bit/s.
    pub acked: Option<Rate>,
    pub rtt: u64,
    pub now: Moment,
}
