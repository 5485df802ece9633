//! The actors of a race: each works its own lines, on a seat of its own.

ghost use Rattle.std.specs.Prelude.{◌≡◌, ◌≢◌, ◌+◌, ◌^◌, ◌<◌, ◌≤◌, [], ◌∷◌, ◌++◌, List, length, All};
ghost use Rattle.std.specs.Thread.{IsSync};
ghost use Rattle.call_trace.specs.declared.trace.Line.{Line as LineIs};
ghost use Rattle.call_trace.specs.declared.trace.Action.TheVariants as act;
ghost use Rattle.run_top.specs.OwnLines.{own_lines};
ghost use Rattle.run_top.specs.Racing.{Worked, AreWorked, IsReady, key, keys};

use call_trace::{Action, Line, copy_call};
use gcc_units::NoMemory;
use reply_text::{Seen, SeenList};
use run_io::Gate;
use send_core::{ApplyFault, Call};
use shared_sender::{SenderSeat, Shared};
use std::alloc::Global;
use std::sync::Wait;
use std::thread::{Threads, join_mut};

/// Whether an actor stopped before its last line, and why.
#[derive(Clone, Copy, PartialEq, Eq, Debug)]
pub enum Stop {
    /// It did not.
    No,
    /// Memory ran out.
    NoMemory,
    /// The journal was full.
    Full,
}

/// An actor at work.
#[derive(Drop)]
pub struct Worker {
    pub actor: u32,
    pub seat: SenderSeat,
    /// What it saw at its glances.
    pub glances: SeenList,
    pub stop: Stop,
}

/// Why an actor stops whose call was refused.
fn stop_for(why: ApplyFault) -> Stop
    ensures stops { result ≢ Stop.No }
    ensures full { result ≡ Stop.Full → why ≡ ApplyFault.JournalFull }
{
    match why {
        ApplyFault::JournalFull => Stop::Full,
        ApplyFault::NoMemory => Stop::NoMemory,
    }
}

/// Makes a call. A worker whose call was not answered stops.
fn ask<R: Wait>(rt: &R, alloc: Global, shared: &Shared, call: &Call, worker: &mut Worker)
    requires of { worker.old.seat.of ≡ shared.now.of }
    requires running { worker.old.stop ≡ Stop.No }
    ensures key { key worker.new ≡ key worker.old }
    ensures actor { worker.new.actor ≡ worker.old.actor }
    ensures worked { (lines : List LineIs) → Worked lines worker.old → Worked (lines ++ record { actor = worker.old.seat.number; action = act.Ask call.now } ∷ []) worker.new }
{
    let Ok(call) = copy_call(alloc, call) else {
        worker.stop = Stop::NoMemory;
        return;
    };
    if let Err((fault, _call)) = shared.call(rt, alloc, &mut worker.seat, call) {
        worker.stop = stop_for(fault);
    }
}

/// Takes a glance.
fn look(shared: &Shared, worker: &mut Worker)
    requires of { worker.old.seat.of ≡ shared.now.of }
    requires running { worker.old.stop ≡ Stop.No }
    requires actor { worker.old.seat.number ≡ worker.old.actor }
    ensures key { key worker.new ≡ key worker.old }
    ensures actor { worker.new.actor ≡ worker.old.actor }
    ensures worked { (lines : List LineIs) → Worked lines worker.old → Worked (lines ++ record { actor = worker.old.seat.number; action = act.Look } ∷ []) worker.new }
{
    let glance = shared.glance(&mut worker.seat);
    let seen = Seen {
        actor: worker.actor,
        calls: glance.calls,
        target: glance.target,
    };
    if let Err((NoMemory, _seen)) = worker.glances.push(seen) {
        worker.stop = Stop::NoMemory;
    }
}

/// Serves one of the worker's own lines, unless it has stopped.
fn serve<R: Wait>(rt: &R, alloc: Global, shared: &Shared, line: &Line, worker: &mut Worker)
    requires of { worker.old.seat.of ≡ shared.now.of }
    requires actor { worker.old.seat.number ≡ worker.old.actor }
    requires line { line.now.actor ≡ worker.old.seat.number }
    ensures key { key worker.new ≡ key worker.old }
    ensures actor { worker.new.actor ≡ worker.old.actor }
    ensures worked { (lines : List LineIs) → Worked lines worker.old → Worked (lines ++ line.now ∷ []) worker.new }
{
    match worker.stop {
        Stop::No => match &line.action {
            Action::Ask(call) => ask(rt, alloc, shared, call, worker),
            Action::Look => look(shared, worker),
        },
        Stop::NoMemory | Stop::Full => {}
    }
}

/// Comes to a line: serves it where it is the worker's own, and calls the gate before and after
/// it. `k` of the worker's own lines stand before, and the answer is how many stand before the next.
fn visit<R: Wait, G: Gate>(
    rt: &R,
    alloc: Global,
    gate: &G,
    shared: &Shared,
    line: &Line,
    k: u32,
    worker: &mut Worker,
) -> u32
    requires few { k + 1 < 2 ^ 32 }
    requires of { worker.old.seat.of ≡ shared.now.of }
    requires actor { worker.old.seat.number ≡ worker.old.actor }
    ensures count { result ≤ k + 1 }
    ensures own { result ≡ k + own_lines worker.old.actor (line.now ∷ []) }
    ensures key { key worker.new ≡ key worker.old }
    ensures actor { worker.new.actor ≡ worker.old.actor }
    ensures worked { (lines : List LineIs) → Worked lines worker.old → Worked (lines ++ line.now ∷ []) worker.new }
{
    if line.actor != worker.actor {
        return k;
    }
    gate.before(worker.actor, k);
    serve(rt, alloc, shared, line, worker);
    gate.after(worker.actor, k);
    k + 1
}

/// Works all of an actor's lines, in their order.
fn work<R: Wait, G: Gate>(
    rt: &R,
    alloc: Global,
    gate: &G,
    shared: &Shared,
    lines: &[Line],
    worker: &mut Worker,
)
    requires few { length lines.now < 2 ^ 32 }
    requires ready { IsReady shared.now.of worker.old }
    ensures key { key worker.new ≡ key worker.old }
    ensures worked { Worked lines.now worker.new }
{
    let mut k = 0;
    for line in lines {
        k = visit(rt, alloc, gate, shared, line, k, worker);
    }
}

/// Works the lines of all actors at the same time: half of the actors in a thread of their own, and
/// the halves so in their turn.
#[tactic(auto, using(crate::proofs::Ending::all_worked))]
pub fn work_all<R: Threads + Wait + Sync, G: Gate + Sync>(
    rt: &R,
    alloc: Global,
    gate: &G,
    shared: &Shared,
    lines: &[Line],
    workers: &mut [Worker],
)
    requires few { length lines.now < 2 ^ 32 }
    requires ready { All (IsReady shared.now.of) workers.old }
    ensures keys { keys workers.new ≡ keys workers.old }
    ensures worked { AreWorked lines.now workers.new }
{
    if workers.len() == 0 {
        return;
    }
    if workers.len() == 1 {
        work(rt, alloc, gate, shared, lines, &mut workers[0]);
        return;
    }
    let (front, back) = workers.split_at_mut(workers.len() / 2);
    join_mut(
        rt,
        &mut ||
            requires { IsSync R.row × IsSync G.row × (length lines.now < 2 ^ 32) × All (IsReady shared.now.of) front.now }
            ensures { (keys front.exit.now ≡ keys front.entry.now) × AreWorked lines.entry.now front.exit.now }
        { work_all(rt, alloc, gate, shared, lines, front) },
        &mut ||
            requires { IsSync R.row × IsSync G.row × (length lines.now < 2 ^ 32) × All (IsReady shared.now.of) back.now }
            ensures { (keys back.exit.now ≡ keys back.entry.now) × AreWorked lines.entry.now back.exit.now }
        { work_all(rt, alloc, gate, shared, lines, back) },
    );
}
