//! Judging the statuses of a compact report run by run, and marking the packets that they name.

ghost use Rattle.std.specs.Prelude.{◌≡◌, ℕ, pos, neg_ℤ, ◌+◌, ◌-◌, ◌*◌, ◌^◌, ◌<◌, ◌≤◌, ◌≤ℤ◌, ◌++◌, List, length, count_by, All, IfOk, slice_index_or};
ghost use Rattle.twcc_report.specs.Runs.{statuses_of, expanded};
ghost use Rattle.sent_history.specs.declared.slot.Slot.{Slot};
ghost use Rattle.sent_history.specs.declared.slot.Verdict.{Verdict};
ghost use Rattle.sent_history.specs.Crediting.{is_received, credits_in, told, ArrivesInRange};
ghost use Rattle.sent_history.specs.Judging.{slot_verdict, running, settled, all_marks};
ghost use Rattle.sent_history.specs.InRuns.{is_received_run, run_len, run_delta};
ghost use Rattle.sent_history.specs.Stretches.{Agrees};

use crate::judging::{delta_of, is_received, mark_number, tell, verdict_at};
use crate::kept_slots::KeptSlots;
use crate::lost::{mark_lost, tell_lost};
use gcc_units::{Judged, MOST_STATUSES, NoMemory, Sequence};
use std::alloc::Global;
use twcc_report::StatusRun;

/// Whether a run is a status that says received.
fn is_received_run(run: StatusRun) -> bool
    ensures { result ≡ is_received_run run }
{
    match run {
        StatusRun::Lost(_) => false,
        StatusRun::One(status) => is_received(status),
    }
}

/// How many statuses a run has.
fn run_len(run: StatusRun) -> u16
    ensures { result ≡ run_len run }
{
    match run {
        StatusRun::Lost(count) => count,
        StatusRun::One(_) => 1,
    }
}

/// The deltas of a run together, in quarter-milliseconds.
fn run_delta(run: StatusRun) -> i64
    ensures value { result ≡ run_delta run }
    ensures low { neg_ℤ (pos (32768 * run_len run)) ≤ℤ result }
    ensures high { result ≤ℤ pos (32768 * run_len run) }
{
    match run {
        StatusRun::Lost(_) => 0,
        StatusRun::One(status) => delta_of(status),
    }
}

/// How many of the runs are statuses that say received.
fn received_runs(runs: &[StatusRun]) -> usize
    ensures { result ≡ count_by is_received_run runs.now }
{
    runs.iter().filter(|run| is_received_run(**run)).count()
}

/// How many packets the runs name received.
pub fn count_received(runs: &[StatusRun]) -> u32
    requires { length (expanded runs.now) ≤ MOST_STATUSES }
    ensures { result ≡ count_by is_received (expanded runs.now) }
{
    received_runs(runs) as u32
}

/// Adds the verdicts on a run to those that are told, where it begins at an arrival. There is room for its credits.
fn tell_run(
    judged: &mut Judged,
    slots: &KeptSlots,
    sent: u64,
    low: u16,
    arrival: i64,
    run: StatusRun,
)
    requires slots { length slots.now ≤ sent }
    requires few { (before : List Verdict) × (settled judged.old ≡ told before) × (length before + run_len run ≤ MOST_STATUSES) }
    requires room { count_by is_received (statuses_of run) ≤ judged.old.received.spare }
    requires early { neg_ℤ (pos (2 ^ 61 + 2 ^ 32 - 32768)) ≤ℤ arrival }
    requires late { arrival ≤ℤ pos (2 ^ 61 + 2 ^ 32 - 32768) }
    ensures told { (before : List Verdict) → settled judged.old ≡ told before
        → settled judged.new ≡ told (before ++ running (slot_verdict slots.now sent) sent low arrival (statuses_of run)) }
    ensures room { judged.old.received.spare ≤ judged.new.received.spare + count_by is_received (statuses_of run) }
    ensures arrivals { All ArrivesInRange (credits_in (running (slot_verdict slots.now sent) sent low arrival (statuses_of run))) }
{
    match run {
        StatusRun::Lost(count) => tell_lost(judged, slots, sent, low, count),
        StatusRun::One(status) => {
            let arrival = arrival + delta_of(status);
            tell(judged, verdict_at(slots, sent, low, status, arrival));
        }
    }
}

/// Judges the statuses in order, by what was said of the packets before. The first delta counts from `start`.
/// Memory is taken once, for the statuses that say received.
pub fn judge_runs(
    alloc: Global,
    slots: &KeptSlots,
    sent: u64,
    base: u16,
    start: i64,
    runs: &[StatusRun],
) -> Result<Judged, NoMemory>
    requires slots { length slots.now ≤ sent }
    requires few { length (expanded runs.now) ≤ MOST_STATUSES }
    requires low { neg_ℤ (pos (2 ^ 61 + 2 ^ 31)) ≤ℤ start }
    requires high { start ≤ℤ pos (2 ^ 61 + 2 ^ 31) }
    ensures verdicts { IfOk result (λ j. j
        ≡ told (running (slot_verdict slots.now sent) sent base start (expanded runs.now))) }
    ensures arrivals { IfOk result (λ j. All ArrivesInRange j.received.items) }
{
    let mut judged = Judged {
        received: Sequence::new(alloc),
        missing: 0,
        unknown: 0,
        repeated: 0,
    };
    judged.received.reserve(count_received(runs))?;
    let mut low = base;
    let mut arrival = start;
    for run in runs {
        tell_run(&mut judged, slots, sent, low, arrival, *run);
        arrival += run_delta(*run);
        low = low.wrapping_add(run_len(*run));
    }
    judged.received.trim();
    Ok(judged)
}

/// Marks the packets that a run names.
fn mark_run(slots: &mut KeptSlots, sent: u64, low: u16, run: StatusRun)
    requires { length slots.old ≤ sent }
    ensures length { length slots.new ≡ length slots.old }
    ensures marks { (k : ℕ) (d : Slot) → k < length slots.old
        → Agrees (slice_index_or slots.new k d)
        (all_marks sent low (statuses_of run) (sent - length slots.old + k) (slice_index_or slots.old k d)) }
{
    match run {
        StatusRun::Lost(count) => mark_lost(slots, sent, low, count),
        StatusRun::One(status) => mark_number(slots, sent, low, status),
    }
}

/// Marks the packets that the runs name.
pub fn mark_runs(slots: &mut KeptSlots, sent: u64, base: u16, runs: &[StatusRun])
    requires { length slots.old ≤ sent }
    ensures length { length slots.new ≡ length slots.old }
    ensures marks { (k : ℕ) (d : Slot) → k < length slots.old
        → Agrees (slice_index_or slots.new k d)
        (all_marks sent base (expanded runs.now) (sent - length slots.old + k) (slice_index_or slots.old k d)) }
{
    let mut low = base;
    for run in runs {
        mark_run(slots, sent, low, *run);
        low = low.wrapping_add(run_len(*run));
    }
}
