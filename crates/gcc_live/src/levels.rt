//! Written reports on a level control, without a sender.
//!
//! The first line is `gcc-level 1` with the start, the least and the greatest rate in bit/s. Each other line is a
//! report: its moment in microseconds, the least delay of its credits in quarter-milliseconds or `-`, how many
//! packets it credits and how many it reports missing, the received rate in bit/s or `-`, the round trip in
//! microseconds, and 1 where a probe cluster waits, else 0; then the planned rate and the result of each cluster
//! that has one, in rising order of id. For each report a line is written: the rate, the signal, and the rate of
//! the cluster that is asked for, or `-`.

ghost use Rattle.std.specs.Prelude.{◌≤◌, ◌+◌, ℕ, All, IfOk, OnOk};
ghost use Rattle.std.specs.Option.{ForSome};
ghost use Rattle.gcc_units.specs.Rates.{IsRate, IsBounds};
ghost use Rattle.level_control.specs.Delays.{IsDelay};
ghost use Rattle.level_control.specs.Probing.{IsProbed};
ghost use Rattle.level_control.specs.Rule.{Gathers, IsReport, TakesReport};

use crate::stop::Stop;
use call_trace::{NO_HEADER, TOO_MANY_LINES, cut, next_line, number};
use gcc_units::{
    Bounds, GREATEST_MOMENT, GREATEST_RATE, LEAST_RATE, MOST_CLUSTERS, MOST_STATUSES, Moment,
    NoMemory, Rate, Signal,
};
use level_control::{Answer, Delay, GREATEST_ROUND_TRIP, LevelControl, Probed, Report};
use run_top::Status;
use std::alloc::Global;

/// The reason of a line that is no report, which is that of no line of a trace.
const NO_REPORT: u32 = 13;

/// How far a delay may lie from 0 here, in quarter-milliseconds.
const MOST_DELAY: u64 = 1_000_000_000_000;

/// The most lines of a table behind its header: 2^20.
const MOST_TABLE_LINES: u32 = 1_048_576;

/// A field is not what stands at its place.
#[derive(Clone, Copy)]
struct NoReport;

/// What a line tells.
#[derive(Drop)]
struct Row {
    report: Report,
    waits: bool,
    results: Vec<Probed>,
}

/// A number up to `most`.
fn up_to(text: &[u8], most: u64) -> Result<u64, NoReport>
    ensures { IfOk result (λ n. n ≤ most) }
{
    match number(text) {
        Some(n) if n <= most => Ok(n),
        _ => Err(NoReport),
    }
}

/// A rate in bit/s.
fn rate(text: &[u8]) -> Result<Rate, NoReport>
    ensures { IfOk result IsRate }
{
    match number(text) {
        Some(n) if LEAST_RATE <= n && n <= GREATEST_RATE => Ok(n),
        _ => Err(NoReport),
    }
}

/// A delay with its sign.
fn delay(text: &[u8]) -> Result<Delay, NoReport>
    ensures { IfOk result IsDelay }
{
    match text.strip_prefix(b"-") {
        Some(digits) => Ok(-(up_to(digits, MOST_DELAY)? as i64)),
        None => Ok(up_to(text, MOST_DELAY)? as i64),
    }
}

/// The delay that stands there, or none where `-` does.
fn delay_or_none(text: &[u8]) -> Result<Option<Delay>, NoReport>
    ensures { IfOk result (λ d. ForSome d IsDelay) }
{
    if text == b"-".as_slice() {
        return Ok(None);
    }
    Ok(Some(delay(text)?))
}

/// The received rate that stands there, or none where `-` does.
fn received_or_none(text: &[u8]) -> Result<Option<Rate>, NoReport>
    ensures { IfOk result (λ r. ForSome r (λ n. n ≤ GREATEST_RATE)) }
{
    if text == b"-".as_slice() {
        return Ok(None);
    }
    Ok(Some(up_to(text, GREATEST_RATE)?))
}

/// A report, and what stands behind it in its line.
fn report(line: &[u8]) -> Result<(Report, &[u8]), NoReport>
    ensures { IfOk result (λ r. IsReport r.0) }
{
    let (now, rest) = cut(line);
    let (least, rest) = cut(rest);
    let (received, rest) = cut(rest);
    let (missing, rest) = cut(rest);
    let (acked, rest) = cut(rest);
    let (rtt, rest) = cut(rest);
    let report = Report {
        delay: delay_or_none(least)?,
        received: up_to(received, u64::from(MOST_STATUSES))? as u32,
        missing: up_to(missing, u64::from(MOST_STATUSES))? as u32,
        acked: received_or_none(acked)?,
        rtt: up_to(rtt, GREATEST_ROUND_TRIP)?,
        now: up_to(now, GREATEST_MOMENT)?,
    };
    Ok((report, rest))
}

/// The result of a cluster, and what stands behind it.
fn result(text: &[u8]) -> Result<(Probed, &[u8]), NoReport>
    ensures { IfOk result (λ r. IsProbed r.0) }
{
    let (planned, rest) = cut(text);
    let (result, rest) = cut(rest);
    let probed = Probed {
        planned: up_to(planned, GREATEST_RATE)?,
        result: up_to(result, GREATEST_RATE)?,
    };
    Ok((probed, rest))
}

/// A line that can't be read.
fn bad(line: u32, reason: u32) -> Stop {
    Stop::Ended(Status::BadTrace { line, reason })
}

/// The results of clusters that stand at the end of a line.
fn results(alloc: Global, line: u32, text: &[u8]) -> Result<Vec<Probed>, Stop>
    ensures { IfOk result (λ v. All IsProbed v.items) }
{
    let mut found: Vec<Probed> = Vec::new(alloc);
    let mut rest = text;
    for _ in 0..MOST_CLUSTERS {
        if rest.is_empty() {
            return Ok(found);
        }
        let Ok((probed, behind)) = result(rest) else {
            return Err(bad(line, NO_REPORT));
        };
        if found.push(probed).is_err() {
            return Err(Stop::Ended(Status::NoMemory));
        }
        rest = behind;
    }
    Err(bad(line, NO_REPORT))
}

/// What a line tells.
fn read_row(alloc: Global, line: u32, text: &[u8]) -> Result<Row, Stop>
    ensures report { IfOk result (λ r. IsReport r.report) }
    ensures results { IfOk result (λ r. All IsProbed r.results.items) }
{
    let Ok((report, rest)) = report(text) else {
        return Err(bad(line, NO_REPORT));
    };
    let (waits, rest) = cut(rest);
    let Ok(waits) = up_to(waits, 1) else {
        return Err(bad(line, NO_REPORT));
    };
    Ok(Row {
        report,
        waits: waits == 1,
        results: results(alloc, line, rest)?,
    })
}

/// The start and the bounds that the first line has.
fn header(line: &[u8]) -> Result<(Rate, Bounds), NoReport>
    ensures start { IfOk result (λ h. IsRate h.0) }
    ensures bounds { IfOk result (λ h. IsBounds h.1) }
{
    let Some(text) = line.strip_prefix(b"gcc-level 1 ") else {
        return Err(NoReport);
    };
    let (start, rest) = cut(text);
    let (min, max) = cut(rest);
    let start = rate(start)?;
    let (min, max) = (rate(min)?, rate(max)?);
    if max < min {
        return Err(NoReport);
    }
    Ok((start, Bounds { min, max }))
}

/// Appends the line of an answer.
fn push_answer(text: &mut String, answer: Answer) -> Result<(), NoMemory> {
    let signal = match answer.signal {
        Signal::Normal => "Normal",
        Signal::Over => "Over",
        Signal::Under => "Under",
    };
    let rate = answer.rate;
    match answer.cluster {
        Some(cluster) => Ok(write!(text, "{rate} {signal} {cluster}\n")?),
        None => Ok(write!(text, "{rate} {signal} -\n")?),
    }
}

/// A control, and what it answered.
#[derive(Drop)]
struct Told {
    control: LevelControl,
    /// The moment of the last report.
    last: Moment,
    text: String,
}

/// Gives the report of a line to the control, and tells what it answers. No report may come before the last.
fn take(alloc: Global, told: &mut Told, bounds: Bounds, line: u32, text: &[u8]) -> Result<(), Stop>
    requires bounds { IsBounds bounds }
    requires order { ForSome told.old.control.last (λ moment. moment ≤ told.old.last) }
    requires few { TakesReport told.old.control }
    ensures order { OnOk result (ForSome told.new.control.last (λ moment. moment ≤ told.new.last)) }
    ensures gathers { OnOk result ((n : ℕ) → Gathers n told.old.control → Gathers (n + 1) told.new.control) }
{
    let row = read_row(alloc, line, text)?;
    if row.report.now < told.last {
        return Err(bad(line, NO_REPORT));
    }
    told.last = row.report.now;
    let answer = told
        .control
        .take_report(row.report, row.results.as_slice(), row.waits, bounds);
    Ok(push_answer(&mut told.text, answer)?)
}

/// What a level control answers to the reports that the bytes spell.
pub fn run_level(alloc: Global, bytes: &[u8]) -> Result<String, Stop> {
    let Some((first, rest)) = next_line(bytes) else {
        return Err(bad(1, NO_HEADER));
    };
    let Ok((start, bounds)) = header(first) else {
        return Err(bad(1, NO_HEADER));
    };
    let mut told = Told {
        control: LevelControl::new(start),
        last: 0,
        text: String::new(alloc),
    };
    let mut rest = rest;
    for number in 0..MOST_TABLE_LINES {
        let Some((line, behind)) = next_line(rest) else {
            return Ok(told.text);
        };
        take(alloc, &mut told, bounds, number + 2, line)?;
        rest = behind;
    }
    Err(bad(MOST_TABLE_LINES + 2, TOO_MANY_LINES))
}
