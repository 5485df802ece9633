//! Made traces.

ghost use Rattle.std.specs.Prelude.{◌≡◌, ℕ, ◌≤◌, Option, List, IfOk};
ghost use Rattle.gcc_units.specs.Listed.{bare};
ghost use Rattle.call_trace.specs.Making.{made};
ghost use Rattle.call_trace.specs.Written.{trace_text};
ghost use Rattle.run_top.specs.declared.words.Command.TheVariants as command;
ghost use Rattle.run_top.specs.Served.{IsServed, streams};

use crate::status::Status;
use crate::writing::write_text;
use call_trace::{make_trace, write_trace};
use gcc_units::{Bytes, MOST_ACTORS, MOST_LINES, NoMemory};
use run_io::Sink;
use std::alloc::Global;

/// A made trace as text.
fn made_text(alloc: Global, seed: u64, calls: u32, actors: u32) -> Result<Bytes, NoMemory>
    requires some { 1 ≤ calls }
    requires few { calls ≤ MOST_LINES }
    requires some_actor { 1 ≤ actors }
    requires few_actors { actors ≤ MOST_ACTORS }
    ensures { IfOk result (λ text. text ≡ bare (trace_text (made seed calls actors))) }
{
    let trace = make_trace(alloc, seed, calls, actors)?;
    let text = write_trace(alloc, &trace)?;
    Ok(text)
}

/// Makes a trace of so many calls of so many actors, and writes it.
pub fn run_make<K: Sink>(alloc: Global, seed: u64, calls: u32, actors: u32, sink: &mut K) -> Status
    requires some { 1 ≤ calls }
    requires few { calls ≤ MOST_LINES }
    requires some_actor { 1 ≤ actors }
    requires few_actors { actors ≤ MOST_ACTORS }
    ensures { (left : Option (List ℕ)) (faults : ℕ) → IsServed (command.Make seed calls actors) result (streams left faults (K.written sink.old) (K.faults sink.old)) (streams left faults (K.written sink.new) (K.faults sink.new)) }
{
    match made_text(alloc, seed, calls, actors) {
        Ok(text) => write_text(sink, text.as_slice(), Status::Done),
        Err(NoMemory) => Status::NoMemory,
    }
}
