//! What losses make of the rate: what a cut does not lower is not ours.

ghost use Rattle.std.specs.Prelude.{◌≡◌, ◌≤◌, ◌<◌, ◌*◌, ◌+◌, ◌^◌};
ghost use Rattle.level_control.specs.Drains.{IsRest};
ghost use Rattle.level_control.specs.Losses.{share, is_due, tries, tolerated_after, counted, renewed, lowered, judged, after_losses};

use crate::state::{Losses, Report, State};
use gcc_units::{GREATEST_RATE, MOST_STATUSES, Moment, Rate};

/// How long counts are gathered at least before they are judged, in microseconds (as loss control does).
pub const LOSS_PERIOD: u64 = 1_000_000;

/// How many packets are gathered at least before they are judged (as loss control does).
pub const FEWEST_PACKETS: u64 = 20;

/// The whole of a share of losses, in thousandths.
pub const ALL_MILLE: u64 = 1_000;

/// How far above the tolerated share a share is that leads to a cut, in thousandths (ours: 2 %, where
/// draft-ietf-rmcat-gcc-02, section 6 stops to raise).
pub const TRIED_MILLE: u64 = 20;

/// Above this share the rate falls in any case, in thousandths (draft-ietf-rmcat-gcc-02, section 6).
pub const HIGH_MILLE: u64 = 100;

/// A share halves at least where its double is no more than the share before.
pub const HALVES: u64 = 2;

/// A state after the losses of a report, and whether these ask for a cut.
#[derive(Clone, Copy)]
pub struct Heard {
    pub state: State,
    pub lossy: bool,
}

/// The state after a report's counts, and whether these ask for a cut.
pub fn after_losses(state: State, report: Report) -> Heard
    requires least { 2 ≤ state.rate }
    requires rate { state.rate ≤ GREATEST_RATE }
    requires rest { IsRest state }
    requires received { report.received ≤ MOST_STATUSES }
    requires missing { report.missing ≤ MOST_STATUSES }
    requires few_received { state.losses.received < 2 ^ 48 }
    requires few_missing { state.losses.missing < 2 ^ 48 }
    requires moment { report.now + report.rtt < 2 ^ 60 }
    ensures value { result ≡ after_losses state report }
    ensures positive { 0 < result.state.rate }
    ensures rate { result.state.rate ≤ state.rate }
    ensures rest { IsRest result.state }
    ensures last { result.state.last ≡ state.last }
    ensures drain { result.state.drain ≡ state.drain }
    ensures few_received { result.state.losses.received ≤ state.losses.received + report.received }
    ensures few_missing { result.state.losses.missing ≤ state.losses.missing + report.missing }
{
    let since = state.losses.since.unwrap_or(report.now);
    if report.now < since {
        return Heard {
            state,
            lossy: false,
        };
    }
    let losses = counted(state.losses, report, since);
    if is_due(losses, since, report.now) {
        judged(State { losses, ..state }, report)
    } else {
        Heard {
            state: State { losses, ..state },
            lossy: false,
        }
    }
}

fn counted(losses: Losses, report: Report, since: Moment) -> Losses
    requires received { report.received ≤ MOST_STATUSES }
    requires missing { report.missing ≤ MOST_STATUSES }
    requires few_received { losses.received < 2 ^ 48 }
    requires few_missing { losses.missing < 2 ^ 48 }
    ensures value { result ≡ counted losses report since }
    ensures tolerated { result.tolerated ≡ losses.tolerated }
    ensures received { result.received ≡ losses.received + report.received }
    ensures missing { result.missing ≡ losses.missing + report.missing }
{
    Losses {
        received: losses.received + u64::from(report.received),
        missing: losses.missing + u64::from(report.missing),
        since: Some(since),
        ..losses
    }
}

fn is_due(losses: Losses, since: Moment, now: Moment) -> bool
    requires order { since ≤ now }
    requires received { losses.received < 2 ^ 49 }
    requires missing { losses.missing < 2 ^ 49 }
    ensures { result ≡ is_due losses since now }
{
    now - since >= LOSS_PERIOD && losses.received + losses.missing >= FEWEST_PACKETS
}

// The state after a window whose counts are judged.
fn judged(state: State, report: Report) -> Heard
    requires least { 2 ≤ state.rate }
    requires rate { state.rate ≤ GREATEST_RATE }
    requires rest { IsRest state }
    requires received { state.losses.received < 2 ^ 49 }
    requires missing { state.losses.missing < 2 ^ 49 }
    requires some { 0 < state.losses.received + state.losses.missing }
    requires moment { report.now + report.rtt < 2 ^ 60 }
    ensures value { result ≡ judged state report }
    ensures positive { 0 < result.state.rate }
    ensures rate { result.state.rate ≤ state.rate }
    ensures rest { IsRest result.state }
    ensures last { result.state.last ≡ state.last }
    ensures drain { result.state.drain ≡ state.drain }
    ensures no_received { result.state.losses.received ≡ 0 }
    ensures no_missing { result.state.losses.missing ≡ 0 }
{
    let share = share(state.losses.received, state.losses.missing);
    let may_cut = state.drain.is_none() && report.delay.is_some();
    let lossy = tries(state.losses, share, may_cut);
    let losses = renewed(state.losses, share, lossy, report);
    if lossy || share <= HIGH_MILLE {
        return Heard {
            state: State { losses, ..state },
            lossy,
        };
    }
    let rate = lowered(state.rate, state.losses.received, state.losses.missing);
    Heard {
        state: State {
            rate,
            capacity: Some(rate),
            losses,
            ..state
        },
        lossy,
    }
}

fn share(received: u64, missing: u64) -> u64
    requires received { received < 2 ^ 49 }
    requires missing { missing < 2 ^ 49 }
    requires some { 0 < received + missing }
    ensures value { result ≡ share received missing }
    ensures bound { result ≤ ALL_MILLE }
{
    ALL_MILLE * missing / (received + missing)
}

// Whether a share asks for a cut: none is tried, and it is far enough above what is tolerated.
fn tries(losses: Losses, share: u64, may_cut: bool) -> bool
    requires { losses.tolerated ≤ ALL_MILLE }
    ensures { result ≡ tries losses share may_cut }
{
    losses.tried.is_none() && losses.tolerated + TRIED_MILLE < share && may_cut
}

fn tolerated_after(losses: Losses, share: u64) -> u64
    requires tolerated { losses.tolerated ≤ ALL_MILLE }
    requires share { share ≤ ALL_MILLE }
    ensures value { result ≡ tolerated_after losses share }
    ensures bound { result ≤ ALL_MILLE }
{
    match losses.tried {
        Some(tried) => { if tried < HALVES * share { share } else { 0 } }
        None => {
            if losses.tolerated + TRIED_MILLE < share {
                losses.tolerated
            } else {
                losses.tolerated.min(share)
            }
        }
    }
}

// A new window, which begins a round trip later where a cut is tried.
fn renewed(losses: Losses, share: u64, lossy: bool, report: Report) -> Losses
    requires tolerated { losses.tolerated ≤ ALL_MILLE }
    requires share { share ≤ ALL_MILLE }
    requires moment { report.now + report.rtt < 2 ^ 60 }
    ensures value { result ≡ renewed losses share lossy report }
    ensures tolerated { result.tolerated ≤ ALL_MILLE }
    ensures no_received { result.received ≡ 0 }
    ensures no_missing { result.missing ≡ 0 }
{
    let tolerated = tolerated_after(losses, share);
    if lossy {
        Losses {
            received: 0,
            missing: 0,
            since: Some(report.now + report.rtt),
            tolerated,
            tried: Some(share),
        }
    } else {
        Losses {
            received: 0,
            missing: 0,
            since: Some(report.now),
            tolerated,
            tried: None,
        }
    }
}

// The rate without half of the part that is missing.
fn lowered(rate: Rate, received: u64, missing: u64) -> Rate
    requires least { 2 ≤ rate }
    requires rate { rate ≤ GREATEST_RATE }
    requires received { received < 2 ^ 49 }
    requires missing { missing < 2 ^ 49 }
    requires some { 0 < received + missing }
    ensures value { result ≡ lowered rate received missing }
    ensures positive { 0 < result }
    ensures lowers { result ≤ rate }
{
    let twice = 2 * (received + missing);
    (u128::from(rate) * u128::from(twice - missing) / u128::from(twice)) as u64
}
