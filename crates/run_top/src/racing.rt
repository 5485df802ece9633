//! A race: the actors of a trace make their calls at the same time, on one shared sender.

ghost use Rattle.std.specs.Prelude.{◌≡◌, ◌≢◌, ℕ, ◌^◌, ◌<◌, ◌≤◌, ◌++◌, ◌∷◌, [], ◌⊎◌, List, Some, length, map, All, IfOk, IfErr, OnOk, IfSome};
ghost use Rattle.std.specs.List.{flat_map, range_with_len};
ghost use Rattle.call_trace.specs.Plain.{plain, Fits};
ghost use Rattle.call_trace.specs.Merge.{Merges};
ghost use Rattle.call_trace.specs.Reading.{trace_at};
ghost use Rattle.send_core.specs.Reply.{IsLegal};
ghost use Rattle.reply_text.specs.Legal.{AreGlancesOf};
ghost use Rattle.run_top.specs.Racing.{AreWorked, IsReady, IsFresh, IsDone, AnyFull, keys, seat_of, actor_of, taken_by};
ghost use Rattle.run_top.specs.declared.words.Command.TheVariants as command;
ghost use Rattle.run_top.specs.Outcome.{IsReadUp, Writes};
ghost use Rattle.run_top.specs.Race.{GivesLegalText};
ghost use Rattle.run_top.specs.Served.{IsServed, streams};
ghost use Rattle.run_top.specs.Stops.{IsStop};

use crate::reading::read_all;
use crate::status::Status;
use crate::workers::{Stop, Worker, work_all};
use crate::writing::write_text;
use call_trace::{Line, ReadTrace, Trace, read_trace};
use gcc_units::{Bytes, MOST_LINES, MOST_TRACE_BYTES, NoMemory};
use reply_text::{SeenList, write_history};
use run_io::{Gate, Sink, Source};
use send_core::Sender;
use shared_sender::{SenderSeats, Shared};
use std::alloc::Global;
use std::sync::Wait;
use std::thread::Threads;

/// What a race leaves: the sender, whose journal has all calls, and the glances in rising order of
/// actor.
#[derive(Drop)]
struct Raced {
    sender: Sender,
    glances: SeenList,
}

/// What the workers hand in: their seats, their glances, and whether one of them stopped.
#[derive(Drop)]
struct Gathered {
    seats: SenderSeats,
    glances: SeenList,
    stop: Stop,
}

/// The workers of the seats, which have not begun.
fn seated(alloc: Global, seats: SenderSeats) -> Result<Vec<Worker>, NoMemory>
    ensures seats { IfOk result (λ v. map seat_of v.items ≡ seats.items) }
    ensures actors { IfOk result (λ v. map actor_of v.items ≡ range_with_len 0 (length seats.items)) }
    ensures fresh { IfOk result (λ v. All IsFresh v.items) }
{
    let mut workers = Vec::new(alloc);
    let mut actor = 0;
    for seat in seats.into_vec() {
        let worker = Worker {
            actor,
            seat,
            glances: SeenList::new(alloc),
            stop: Stop::No,
        };
        let Ok(()) = workers.push(worker) else {
            return Err(NoMemory);
        };
        actor += 1;
    }
    Ok(workers)
}

/// The workers after all lines.
fn worked<R: Threads + Wait + Sync, G: Gate + Sync>(
    rt: &R,
    alloc: Global,
    gate: &G,
    shared: &Shared,
    lines: &[Line],
    workers: Vec<Worker>,
) -> Vec<Worker>
    requires few { length lines.now < 2 ^ 32 }
    requires ready { All (IsReady shared.now.of) workers.items }
    ensures keys { keys result.items ≡ keys workers.items }
    ensures worked { AreWorked lines.now result.items }
{
    let mut workers = workers;
    work_all(rt, alloc, gate, shared, lines, workers.as_mut_slice());
    workers
}

/// The reason that goes before the other.
fn worse(a: Stop, b: Stop) -> Stop
    ensures none { result ≡ Stop.No → (a ≡ Stop.No) × (b ≡ Stop.No) }
    ensures full { result ≡ Stop.Full → (a ≡ Stop.Full) ⊎ (b ≡ Stop.Full) }
{
    match (a, b) {
        (Stop::NoMemory, _) | (_, Stop::NoMemory) => Stop::NoMemory,
        (Stop::Full, _) | (_, Stop::Full) => Stop::Full,
        (Stop::No, Stop::No) => Stop::No,
    }
}

impl Gathered {
    /// Takes in what a worker hands in.
    fn take_in(&mut self, worker: Worker) -> Result<(), NoMemory>
        ensures seats { OnOk result (self.new.seats.items ≡ self.old.seats.items ++ worker.seat ∷ []) }
        ensures glances { OnOk result (self.new.glances.items ≡ self.old.glances.items ++ worker.glances.items) }
        ensures none { OnOk result (self.new.stop ≡ Stop.No → (self.old.stop ≡ Stop.No) × (worker.stop ≡ Stop.No)) }
        ensures full { OnOk result (self.new.stop ≡ Stop.Full → (self.old.stop ≡ Stop.Full) ⊎ (worker.stop ≡ Stop.Full)) }
    {
        let Worker {
            actor: _,
            seat,
            glances,
            stop,
        } = worker;
        self.glances.reserve(glances.len())?;
        glances.fill(&mut self.glances);
        self.stop = worse(self.stop, stop);
        match self.seats.push(seat) {
            Ok(()) => Ok(()),
            Err((fault, _seat)) => Err(fault),
        }
    }
}

/// All that the workers hand in.
fn gather(alloc: Global, workers: Vec<Worker>) -> Result<Gathered, NoMemory>
    ensures seats { IfOk result (λ r. r.seats.items ≡ map seat_of workers.items) }
    ensures glances { IfOk result (λ r. r.glances.items ≡ flat_map taken_by workers.items) }
    ensures done { IfOk result (λ r. r.stop ≡ Stop.No → All IsDone workers.items) }
    ensures full { IfOk result (λ r. r.stop ≡ Stop.Full → AnyFull workers.items) }
{
    let mut gathered = Gathered {
        seats: SenderSeats::new(alloc),
        glances: SeenList::new(alloc),
        stop: Stop::No,
    };
    for worker in workers {
        gathered.take_in(worker)?;
    }
    Ok(gathered)
}

/// Races the actors of a trace, each on a seat of its own.
fn race<R: Threads + Wait + Sync, G: Gate + Sync>(
    rt: &R,
    alloc: Global,
    gate: &G,
    trace: &Trace,
) -> Result<Raced, NoMemory>
    requires { Fits (plain trace.now) }
    ensures legal { IfOk result (λ r. IsLegal r.sender) }
    ensures merges { IfOk result (λ r. Merges trace.now.lines.items r.sender) }
    ensures glances { IfOk result (λ r. AreGlancesOf r.sender trace.now.lines.items trace.now.actors r.glances.items) }
{
    let sender = Sender::new(alloc)?;
    let Ok((shared, seats)) = Shared::new(alloc, sender, trace.actors) else {
        return Err(NoMemory);
    };
    let workers = seated(alloc, seats)?;
    let workers = worked(rt, alloc, gate, &shared, trace.lines.as_slice(), workers);
    let Gathered {
        seats,
        glances,
        stop,
    } = gather(alloc, workers)?;
    let Ok(sender) = shared.close(alloc, seats) else {
        return Err(NoMemory);
    };
    match stop {
        Stop::No => Ok(Raced { sender, glances }),
        Stop::NoMemory => Err(NoMemory),
        // Each seat has at most as many entries as its actor has lines, and a refused line has none.
        Stop::Full => unreachable!(),
    }
}

/// The printed history of a race over the trace that the bytes spell, with the glances that its
/// actors took.
fn race_text<R: Threads + Wait + Sync, G: Gate + Sync>(
    rt: &R,
    alloc: Global,
    gate: &G,
    bytes: &[u8],
) -> Result<Bytes, ReadTrace>
    requires { length bytes.now ≤ MOST_TRACE_BYTES }
    ensures { GivesLegalText bytes.now result (trace_at MOST_LINES bytes.now) }
{
    let trace = read_trace(alloc, bytes)?;
    let Ok(raced) = race(rt, alloc, gate, &trace) else {
        return Err(ReadTrace::NoMemory);
    };
    match write_history(alloc, raced.sender.journal(), &raced.glances) {
        Ok(text) => Ok(text),
        Err(NoMemory) => Err(ReadTrace::NoMemory),
    }
}

/// The printed history of a race over the trace that a source gives to its end.
fn source_text<R: Threads + Wait + Sync, S: Source, G: Gate + Sync>(
    rt: &R,
    alloc: Global,
    source: &mut S,
    gate: &G,
) -> Result<Bytes, Status>
    ensures text { IfOk result (λ text. IfSome (S.left source.old) (λ bytes. Writes command.Race bytes Status.Done text.items)) }
    ensures read { OnOk result (IsReadUp command.Race (S.left source.old) (S.left source.new)) }
    ensures stop { IfErr result (λ ended. IsStop command.Race ended (S.left source.old) (S.faults source.old) (S.faults source.new)) }
{
    let bytes = read_all(alloc, source, MOST_TRACE_BYTES as usize)?;
    Ok(race_text(rt, alloc, gate, bytes.as_slice())?)
}

/// Reads a trace to the end of the source, races its actors, and writes the printed history.
pub fn run_race<R: Threads + Wait + Sync, S: Source, K: Sink, G: Gate + Sync>(
    rt: &R,
    alloc: Global,
    source: &mut S,
    sink: &mut K,
    gate: &G,
) -> Status
    ensures { IsServed command.Race result (streams (S.left source.old) (S.faults source.old) (K.written sink.old) (K.faults sink.old)) (streams (S.left source.new) (S.faults source.new) (K.written sink.new) (K.faults sink.new)) }
{
    match source_text(rt, alloc, source, gate) {
        Ok(text) => write_text(sink, text.as_slice(), Status::Done),
        Err(status) => status,
    }
}
