//! What a closed loop over a stated link comes to.

ghost use Rattle.std.specs.Prelude.{◌≡◌, ℕ, ◌≤◌, Option, List, length, map, count_by, IfOk};
ghost use Rattle.std.specs.String.{string_bytes};
ghost use Rattle.twcc_report.specs.Spelling.{view};
ghost use Rattle.sent_history.specs.Crediting.{is_received};
ghost use Rattle.link_path.specs.KeptLink.{IsLink};
ghost use Rattle.link_loop.specs.Looping.{looping};
ghost use Rattle.run_top.specs.declared.words.Command.TheVariants as command;
ghost use Rattle.run_top.specs.Looped.{reported, fates_line, reported_line, end_lines, loop_text};
ghost use Rattle.run_top.specs.Served.{IsServed, streams};

use crate::status::Status;
use crate::summing::rates_text;
use crate::writing::write_text;
use gcc_units::NoMemory;
use link_loop::{LoopEnd, MOST_MILLIS, run_loop};
use link_path::LinkSettings;
use run_io::Sink;
use send_laws::balance;
use std::alloc::Global;
use twcc_report::{Report, Status as PacketStatus};

/// Whether a status says that its packet was received.
fn is_received(status: PacketStatus) -> bool
    ensures { result ≡ is_received status }
{
    match status {
        PacketStatus::NotReceived => false,
        PacketStatus::Small(_) | PacketStatus::Large(_) => true,
    }
}

/// How many statuses say that their packet was received.
fn received_count(statuses: &[PacketStatus]) -> u64
    ensures { result ≡ count_by is_received statuses.now }
{
    statuses
        .iter()
        .filter(|status| is_received(**status))
        .count() as u64
}

/// How many statuses of these reports say that their packet was received.
fn reported(reports: &[Report]) -> u128
    ensures { result ≡ reported (map view reports.now) }
{
    let mut count: u128 = 0;
    for report in reports {
        count += u128::from(received_count(report.statuses.as_slice()));
    }
    count
}

/// What became of the packets that left.
fn fates_line(
    alloc: Global,
    sent: u64,
    delivered: u32,
    dropped: u32,
    inside: u32,
) -> Result<String, NoMemory>
    ensures { IfOk result (λ s. string_bytes s ≡ fates_line sent delivered dropped inside) }
{
    Ok(format!(in alloc; "sent {sent} delivered {delivered} dropped {dropped} inside {inside}\n")?)
}

/// How many packets were reported as received, and how many were credited.
fn reported_line(alloc: Global, reported: u128, credited: u64) -> Result<String, NoMemory>
    ensures { IfOk result (λ s. string_bytes s ≡ reported_line reported credited) }
{
    Ok(format!(in alloc; "reported {reported} credited {credited}\n")?)
}

/// The four lines on a loop's end.
#[tactic(auto, unfolding(crate::specs::Looped::end_lines))]
fn end_text(alloc: Global, end: &LoopEnd) -> Result<String, NoMemory>
    ensures { IfOk result (λ s. string_bytes s ≡ end_lines end.now.sender (length end.now.delivered.items) (length end.now.dropped.items) (length end.now.inside.items) (map view end.now.reports.items)) }
{
    let sender = &end.sender;
    let entries = sender.journal().len();
    let counts = balance(sender);
    let fates = fates_line(
        alloc,
        counts.sent,
        end.delivered.len(),
        end.dropped.len(),
        end.inside.len(),
    )?;
    let told = reported_line(alloc, reported(end.reports.as_slice()), counts.credited)?;
    let mut text = format!(in alloc; "calls {entries}\n")?;
    text.push_str(fates.as_str())?;
    text.push_str(told.as_str())?;
    text.push_str(rates_text(alloc, sender)?.as_str())?;
    Ok(text)
}

/// The four lines on a closed loop over this link for so many milliseconds.
fn loop_text(alloc: Global, settings: LinkSettings, millis: u32) -> Result<String, NoMemory>
    requires link { IsLink settings }
    requires some { 1 ≤ millis }
    requires most { millis ≤ MOST_MILLIS }
    ensures { IfOk result (λ s. string_bytes s ≡ loop_text settings (looping settings millis)) }
{
    let end = run_loop(alloc, settings, millis)?;
    end_text(alloc, &end)
}

/// Runs a closed loop over this link for so many milliseconds, and writes what it comes to.
pub fn run_closed_loop<K: Sink>(
    alloc: Global,
    settings: LinkSettings,
    millis: u32,
    sink: &mut K,
) -> Status
    requires link { IsLink settings }
    requires some { 1 ≤ millis }
    requires most { millis ≤ MOST_MILLIS }
    ensures { (left : Option (List ℕ)) (faults : ℕ) → IsServed (command.Loop settings millis) result (streams left faults (K.written sink.old) (K.faults sink.old)) (streams left faults (K.written sink.new) (K.faults sink.new)) }
{
    match loop_text(alloc, settings, millis) {
        Ok(text) => write_text(sink, text.as_bytes(), Status::Done),
        Err(NoMemory) => Status::NoMemory,
    }
}
