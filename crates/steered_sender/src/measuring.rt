//! What a judged report tells the control.

ghost use Rattle.std.specs.Prelude.{◌≡◌, ◌≤◌, ◌<◌, ◌+◌, ◌++◌, length, All};
ghost use Rattle.std.specs.Option.{ForSome};
ghost use Rattle.level_control.specs.Delays.{IsDelay};
ghost use Rattle.level_control.specs.Rule.{IsReport};
ghost use Rattle.level_control.specs.Probing.{IsProbed};
ghost use Rattle.probe_clusters.specs.Heard.{later_of};
ghost use Rattle.estimator.specs.Report.{round_trip};
ghost use Rattle.steered_sender.specs.Measures.{delay_of, lesser, least_delay, acked_of, report_of, probed_by, IsTimely};

use gcc_units::{
    ARRIVAL_MICROSECONDS, Credit, GREATEST_MOMENT, GREATEST_RATE, Judged, MOST_STATUSES, Moment,
    Rate,
};
use level_control::{Delay, GREATEST_ROUND_TRIP, Probed, Report};
use probe_clusters::Outcome;

// The one-way delay of a packet.
fn delay_of(credit: &Credit) -> Delay
    requires { IsTimely credit.now }
    ensures value { result ≡ delay_of credit.now }
    ensures range { IsDelay result }
{
    credit.arrival - (credit.sent_at / ARRIVAL_MICROSECONDS) as i64
}

// The lesser of a delay and one before it, where there is one.
fn lesser(least: Option<Delay>, delay: Delay) -> Delay
    requires least { ForSome least IsDelay }
    requires delay { IsDelay delay }
    ensures value { result ≡ lesser least delay }
    ensures range { IsDelay result }
{
    match least {
        None => delay,
        Some(least) => least.min(delay),
    }
}

/// The least one-way delay of these packets, in quarter-milliseconds.
pub fn least_delay(received: &[Credit]) -> Option<Delay>
    requires { All IsTimely received.now }
    ensures value { result ≡ least_delay received.now }
    ensures range { ForSome result IsDelay }
{
    let mut least: Option<Delay> = None;
    for credit in received {
        least = Some(lesser(least, delay_of(credit)));
    }
    least
}

// Of two credits, the one with the greater number.
fn later_of(a: Credit, b: Credit) -> Credit
    ensures { result ≡ later_of a b }
{
    if a.number < b.number { b } else { a }
}

/// The time since the received packet with the greatest number was sent, cut. It stays where nothing was
/// received.
pub fn round_trip(rtt: u64, received: &[Credit], now: Moment) -> u64
    ensures value { result ≡ round_trip rtt received.now now }
    ensures range { rtt ≤ GREATEST_ROUND_TRIP → result ≤ GREATEST_ROUND_TRIP }
{
    let Some((first, rest)) = received.split_first() else {
        return rtt;
    };
    let latest = rest
        .iter()
        .fold(*first, |latest, credit| later_of(latest, *credit));
    GREATEST_ROUND_TRIP.min(now.saturating_sub(latest.sent_at))
}

// The received rate, at most `GREATEST_RATE`.
fn acked_of(acked: Option<Rate>) -> Option<Rate>
    ensures value { result ≡ acked_of acked }
    ensures range { ForSome result (λ received. received ≤ GREATEST_RATE) }
{
    match acked {
        None => None,
        Some(rate) => Some(rate.min(GREATEST_RATE)),
    }
}

/// What the control is told of a report.
pub fn report_of(now: Moment, judged: &Judged, acked: Option<Rate>, rtt: u64) -> Report
    requires received { length judged.now.received.items ≤ MOST_STATUSES }
    requires missing { judged.now.missing ≤ MOST_STATUSES }
    requires timely { All IsTimely judged.now.received.items }
    requires round_trip { rtt ≤ GREATEST_ROUND_TRIP }
    requires moment { now ≤ GREATEST_MOMENT }
    ensures value { result ≡ report_of now judged.now acked rtt }
    ensures ranges { IsReport result }
{
    Report {
        delay: least_delay(judged.received.as_slice()),
        received: judged.received.len(),
        missing: judged.missing,
        acked: acked_of(acked),
        rtt,
        now,
    }
}

/// What the control is told of an outcome: the planned rate and the result, each at most `GREATEST_RATE`, where
/// there is a result.
pub fn probed_by(planned: &[Rate], outcome: Outcome) -> Option<Probed>
    ensures value { result ≡ probed_by planned.now outcome }
    ensures range { ForSome result IsProbed }
{
    let result = outcome.result?;
    let planned = planned.get(outcome.id as usize)?;
    Some(Probed {
        planned: GREATEST_RATE.min(*planned),
        result: GREATEST_RATE.min(result),
    })
}
