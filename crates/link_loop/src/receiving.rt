//! What arrives goes to the receiver, whose reports are served.

ghost use Rattle.std.specs.Prelude.{◌≡◌, ℕ, ◌<◌, ◌≤◌, ◌∷◌, ◌++◌, [], All, map, OnOk};
ghost use Rattle.twcc_report.specs.Spelling.{view};
ghost use Rattle.link_path.specs.declared.link.LinkSettings.{LinkSettings};
ghost use Rattle.link_path.specs.Receiver.{NumbersRise, next_from};
ghost use Rattle.link_loop.specs.Looping.{Looping, with_arrivals, served, all_served, with_reports};
ghost use Rattle.link_loop.specs.Kept.{HasSpelling, IsAt, IsReady, IsSound};

use crate::looper::Looper;
use crate::sources::moment;
use crate::{MOST_MILLIS, REPORTER};
use gcc_units::{Duplicate, NoMemory};
use link_path::{Arrival, ArrivalList, Receiver, ReportList};
use send_core::Call;
use std::alloc::Global;
use twcc_report::{Report, write_report};

/// Gives packets to the receiver.
fn take_all(receiver: &mut Receiver, arrived: &[Arrival]) -> Result<(), NoMemory>
    requires { NumbersRise (next_from receiver.old.from receiver.old.taken) arrived.now }
    ensures { OnOk result (receiver.new ≡ record receiver.old { taken = receiver.old.taken ++ arrived.now }) }
{
    for arrival in arrived {
        receiver.take(arrival)?;
    }
    Ok(())
}

/// Puts packets at the end of a list.
fn append(list: &mut ArrivalList, arrived: &ArrivalList) -> Result<(), NoMemory>
    ensures { OnOk result (list.new.items ≡ list.old.items ++ arrived.now.items) }
{
    list.reserve(arrived.len())?;
    arrived.fill(list);
    Ok(())
}

/// What has arrived goes to the receiver.
#[tactic(auto, unfolding(crate::specs::Looping::with_arrivals))]
pub fn hand_over(looper: &mut Looper, alloc: Global, t: u32) -> Result<(), NoMemory>
    requires early { t < MOST_MILLIS }
    requires ready { IsReady looper.old }
    ensures at { OnOk result ((s : LinkSettings) (m : Looping) → IsAt looper.old s m → IsAt looper.new s (with_arrivals s t m)) }
    ensures sound { OnOk result (IsSound looper.old → IsSound looper.new) }
{
    let arrived = looper.link.arrive(alloc, moment(t))?;
    take_all(&mut looper.receiver, arrived.as_slice())?;
    append(&mut looper.delivered, &arrived)?;
    Ok(())
}

/// Puts a report at the end.
fn push(reports: &mut ReportList, report: Report) -> Result<(), NoMemory>
    ensures { OnOk result (reports.new.items ≡ reports.old.items ++ report ∷ []) }
{
    match reports.push(report) {
        Ok(()) => Ok(()),
        Err((failed, _)) => Err(failed),
    }
}

/// Serves a report, unless the loop is over.
#[tactic(auto, unfolding(crate::specs::Looping::served))]
fn serve_report(looper: &mut Looper, alloc: Global, t: u32, report: &Report) -> Result<(), NoMemory>
    requires sound { IsSound looper.old }
    requires writable { HasSpelling report.now }
    ensures at { OnOk result ((s : LinkSettings) (m : Looping) → IsAt looper.old s m → IsAt looper.new s (served t (view report.now) m)) }
    ensures sound { OnOk result (IsSound looper.new) }
{
    if !looper.can_ask() {
        return Ok(());
    }
    let bytes = write_report(alloc, report)?;
    let at = moment(t);
    looper.serve(alloc, REPORTER, Call::Report { at, bytes })?;
    push(&mut looper.reports, report.duplicate(alloc)?)?;
    Ok(())
}

/// Serves reports in their order.
fn serve_all(looper: &mut Looper, alloc: Global, t: u32, reports: &[Report]) -> Result<(), NoMemory>
    requires sound { IsSound looper.old }
    requires writable { All HasSpelling reports.now }
    ensures at { OnOk result ((s : LinkSettings) (m : Looping) → IsAt looper.old s m → IsAt looper.new s (all_served t (map view reports.now) m)) }
    ensures sound { OnOk result (IsSound looper.new) }
{
    for report in reports {
        serve_report(looper, alloc, t, report)?;
    }
    Ok(())
}

/// The receiver's reports, each twentieth of a second.
#[tactic(auto, unfolding(crate::specs::Looping::with_reports))]
pub fn report(looper: &mut Looper, alloc: Global, t: u32) -> Result<(), NoMemory>
    requires { IsSound looper.old }
    ensures at { OnOk result ((s : LinkSettings) (m : Looping) → IsAt looper.old s m → IsAt looper.new s (with_reports t m)) }
    ensures sound { OnOk result (IsSound looper.new) }
{
    if t % 50 != 40 {
        return Ok(());
    }
    let reports = looper.receiver.reports(alloc)?;
    serve_all(looper, alloc, t, reports.as_slice())
}
