//! Checking a printed history against the trace in front of it.

ghost use Rattle.std.specs.Prelude.{◌≡◌, ◌≤◌, length, IfOk, IfErr, OnOk, IfSome, codes, ◌++◌};
ghost use Rattle.std.specs.Fmt.{decimal};
ghost use Rattle.std.specs.String.{string_bytes};
ghost use Rattle.call_trace.specs.Reading.{counted_at};
ghost use Rattle.run_top.specs.declared.words.Command.TheVariants as command;
ghost use Rattle.run_top.specs.Outcome.{IsReadUp, Writes};
ghost use Rattle.run_top.specs.Served.{IsServed, streams};
ghost use Rattle.run_top.specs.Stops.{IsStop};
ghost use Rattle.run_top.specs.Check.{GivesVerdict, verdict_text, ended_by};

use crate::reading::read_all;
use crate::status::Status;
use crate::writing::write_text;
use call_trace::{ReadTrace, read_front};
use gcc_units::{MOST_CHECK_BYTES, MOST_LINES, NoMemory};
use reply_text::{Verdict, check_history};
use run_io::{Sink, Source};
use std::alloc::Global;

/// The verdict on what stands behind the trace that the bytes begin with.
fn verdict(alloc: Global, bytes: &[u8]) -> Result<Verdict, ReadTrace>
    requires { length bytes.now ≤ MOST_CHECK_BYTES }
    ensures { GivesVerdict bytes.now result (counted_at MOST_LINES bytes.now) }
{
    let (trace, count) = read_front(alloc, bytes)?;
    match check_history(alloc, &trace, &bytes[count as usize..]) {
        Ok(verdict) => Ok(verdict),
        Err(NoMemory) => Err(ReadTrace::NoMemory),
    }
}

/// The line of a verdict.
fn verdict_text(alloc: Global, verdict: Verdict) -> Result<String, NoMemory>
    ensures { IfOk result (λ s. string_bytes s ≡ verdict_text verdict) }
{
    match verdict {
        Verdict::Legal => Ok(format!(in alloc; "legal\n")?),
        Verdict::Differs { entry } => Ok(format!(in alloc; "differs {entry}\n")?),
    }
}

/// How a check ends after its verdict was written.
fn ended_by(verdict: Verdict) -> Status
    ensures { result ≡ ended_by verdict }
{
    match verdict {
        Verdict::Legal => Status::Done,
        Verdict::Differs { entry } => Status::Differs { entry },
    }
}

/// The verdict on what a source gives to its end.
fn source_verdict<S: Source>(alloc: Global, source: &mut S) -> Result<Verdict, Status>
    ensures verdict { IfOk result (λ verdict. IfSome (S.left source.old) (λ bytes. Writes command.Check bytes (ended_by verdict) (verdict_text verdict))) }
    ensures read { OnOk result (IsReadUp command.Check (S.left source.old) (S.left source.new)) }
    ensures stop { IfErr result (λ ended. IsStop command.Check ended (S.left source.old) (S.faults source.old) (S.faults source.new)) }
{
    let bytes = read_all(alloc, source, MOST_CHECK_BYTES as usize)?;
    Ok(verdict(alloc, bytes.as_slice())?)
}

/// Reads a trace and a printed history behind it to the end of the source, and writes the verdict
/// on the history.
pub fn run_check<S: Source, K: Sink>(alloc: Global, source: &mut S, sink: &mut K) -> Status
    ensures { IsServed command.Check result (streams (S.left source.old) (S.faults source.old) (K.written sink.old) (K.faults sink.old)) (streams (S.left source.new) (S.faults source.new) (K.written sink.new) (K.faults sink.new)) }
{
    let verdict = match source_verdict(alloc, source) {
        Ok(verdict) => verdict,
        Err(status) => return status,
    };
    match verdict_text(alloc, verdict) {
        Ok(text) => write_text(sink, text.as_bytes(), ended_by(verdict)),
        Err(NoMemory) => Status::NoMemory,
    }
}
