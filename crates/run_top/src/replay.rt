//! Replaying a trace: its calls are served in the order of its lines.

ghost use Rattle.std.specs.Prelude.{◌≡◌, ◌≢◌, ℕ, ◌≤◌, ◌<◌, ◌++◌, [], ◌∷◌, length, Ok, IfOk, IfErr, OnOk, IfSome};
ghost use Rattle.std.specs.List.{flat_map, range_with_len};
ghost use Rattle.gcc_units.specs.Listed.{bare};
ghost use Rattle.call_trace.specs.Reading.{trace_at, FailsTrace};
ghost use Rattle.call_trace.specs.Plain.{plain, Fits};
ghost use Rattle.call_trace.specs.Grammar.{IsTrace};
ghost use Rattle.call_trace.specs.Ordered.{served, ordered};
ghost use Rattle.run_top.specs.declared.words.Command.TheVariants as command;
ghost use Rattle.run_top.specs.Outcome.{IsReadUp, Writes};
ghost use Rattle.run_top.specs.Served.{IsServed, streams};
ghost use Rattle.run_top.specs.Stops.{IsStop};
ghost use Rattle.run_top.specs.Replay.{looked, seen_from, of_actor, replayed, GivesText};

use crate::reading::read_all;
use crate::status::Status;
use crate::writing::write_text;
use call_trace::{Action, Line, LineList, ReadTrace, Trace, read_trace};
use gcc_units::{Bytes, MOST_ENTRIES, MOST_LINES, MOST_TRACE_BYTES, NoMemory};
use reply_text::{Seen, SeenList, write_history};
use run_io::{Sink, Source};
use send_core::{ApplyFault, Sender};
use std::alloc::Global;

/// Serves a line: its call, or its glance.
fn serve_line(
    alloc: Global,
    sender: &mut Sender,
    seen: &mut SeenList,
    line: Line,
) -> Result<(), NoMemory>
    requires { length sender.old < MOST_ENTRIES }
    ensures served { OnOk result (sender.new ≡ served sender.old (line ∷ [])) }
    ensures seen { OnOk result (seen.new.items ≡ seen.old.items ++ looked sender.old line.actor line.action) }
{
    let Line { actor, action } = line;
    match action {
        Action::Ask(call) => match sender.apply(alloc, actor, call) {
            Ok(_answer) => Ok(()),
            Err((ApplyFault::NoMemory, _call)) => Err(NoMemory),
            Err((ApplyFault::JournalFull, _call)) => unreachable!(),
        },
        Action::Look => {
            let glance = Seen {
                actor,
                calls: sender.journal().len(),
                target: sender.target(),
            };
            match seen.push(glance) {
                Ok(()) => Ok(()),
                Err((fault, _glance)) => Err(fault),
            }
        }
    }
}

/// Serves all lines of a trace, in their order.
pub fn serve_lines(alloc: Global, lines: LineList) -> Result<(Sender, SeenList), NoMemory>
    requires { length lines.items ≤ MOST_LINES }
    ensures served { IfOk result (λ r. r.0 ≡ ordered lines.items) }
    ensures seen { IfOk result (λ r. r.1.items ≡ seen_from [] lines.items) }
{
    let mut sender = Sender::new(alloc)?;
    let mut seen = SeenList::new(alloc);
    for line in lines.into_vec() {
        serve_line(alloc, &mut sender, &mut seen, line)?;
    }
    Ok((sender, seen))
}

/// Appends the glances of an actor.
fn push_actor(list: &mut SeenList, seen: &[Seen], actor: u32) -> Result<(), NoMemory>
    ensures { OnOk result (list.new.items ≡ list.old.items ++ of_actor seen.now actor) }
{
    for glance in seen {
        if glance.actor == actor && list.push(*glance).is_err() {
            return Err(NoMemory);
        }
    }
    Ok(())
}

/// The glances in rising order of actor.
fn by_actor(alloc: Global, seen: &SeenList, actors: u32) -> Result<SeenList, NoMemory>
    ensures { IfOk result (λ list. list.items ≡ flat_map (of_actor seen.now.items) (range_with_len 0 actors)) }
{
    let mut list = SeenList::new(alloc);
    for actor in 0..actors {
        push_actor(&mut list, seen.as_slice(), actor)?;
    }
    Ok(list)
}

/// The trace that the bytes spell. The bytes are let go of.
pub fn read_bytes(alloc: Global, bytes: Vec<u8>) -> Result<Trace, ReadTrace>
    requires { length bytes.items ≤ MOST_TRACE_BYTES }
    ensures found { IfOk result (λ trace. IsTrace bytes.items (plain trace)) }
    ensures read { IfOk result (λ trace. trace_at MOST_LINES bytes.items ≡ Ok (plain trace)) }
    ensures fits { IfOk result (λ trace. Fits (plain trace)) }
    ensures fault { IfErr result (λ e. FailsTrace e (trace_at MOST_LINES bytes.items)) }
{
    read_trace(alloc, bytes.as_slice())
}

/// The printed history of the trace that the bytes spell. They go before its calls are served.
fn replay(alloc: Global, bytes: Vec<u8>) -> Result<Bytes, ReadTrace>
    requires { length bytes.items ≤ MOST_TRACE_BYTES }
    ensures { GivesText bytes.items result (trace_at MOST_LINES bytes.items) }
{
    let trace = read_bytes(alloc, bytes)?;
    match print_trace(alloc, trace) {
        Ok(text) => Ok(text),
        Err(NoMemory) => Err(ReadTrace::NoMemory),
    }
}

fn print_trace(alloc: Global, trace: Trace) -> Result<Bytes, NoMemory>
    requires { length trace.lines.items ≤ MOST_LINES }
    ensures { IfOk result (λ text. text ≡ bare (replayed (plain trace))) }
{
    let actors = trace.actors;
    let (sender, seen) = serve_lines(alloc, trace.lines)?;
    let glances = by_actor(alloc, &seen, actors)?;
    let text = write_history(alloc, sender.journal(), &glances)?;
    Ok(text)
}

/// The printed history of the trace that a source gives to its end.
fn source_text<S: Source>(alloc: Global, source: &mut S) -> Result<Bytes, Status>
    ensures text { IfOk result (λ text. IfSome (S.left source.old) (λ bytes. Writes command.Replay bytes Status.Done text.items)) }
    ensures read { OnOk result (IsReadUp command.Replay (S.left source.old) (S.left source.new)) }
    ensures stop { IfErr result (λ ended. IsStop command.Replay ended (S.left source.old) (S.faults source.old) (S.faults source.new)) }
{
    let bytes = read_all(alloc, source, MOST_TRACE_BYTES as usize)?;
    Ok(replay(alloc, bytes)?)
}

/// Reads a trace to the end of the source, replays it, and writes the printed history.
pub fn run_replay<S: Source, K: Sink>(alloc: Global, source: &mut S, sink: &mut K) -> Status
    ensures { IsServed command.Replay result (streams (S.left source.old) (S.faults source.old) (K.written sink.old) (K.faults sink.old)) (streams (S.left source.new) (S.faults source.new) (K.written sink.new) (K.faults sink.new)) }
{
    match source_text(alloc, source) {
        Ok(text) => write_text(sink, text.as_slice(), Status::Done),
        Err(status) => status,
    }
}
