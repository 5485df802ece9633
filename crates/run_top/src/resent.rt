//! Serving a trace of one actor where lost packets are sent again.

ghost use Rattle.std.specs.Prelude.{◌≡◌, ℕ, ◌≤◌, ◌++◌, length, Ok, IfOk, IfErr, OnOk, IfSome};
ghost use Rattle.call_trace.specs.Plain.{plain};
ghost use Rattle.run_top.specs.declared.words.Command.TheVariants as command;
ghost use Rattle.run_top.specs.Outcome.{IsReadUp, Writes};
ghost use Rattle.reply_text.specs.Text.{text};
ghost use Rattle.resending.specs.NackText.{nack_lines};
ghost use Rattle.run_top.specs.Resent.{only_one, IsRefusal};
ghost use Rattle.run_top.specs.Served.{IsServed, streams};
ghost use Rattle.run_top.specs.Stops.{IsStop};
ghost use Rattle.run_top.specs.Words.{IsAllowed};

use crate::reading::read_all;
use crate::replay::read_bytes;
use crate::status::Status;
use crate::writing::write_text;
use call_trace::{MANY_ACTORS, MANY_LINES, Trace};
use gcc_units::{MOST_TRACE_BYTES, NoMemory};
use nack_rtx::RtxSettings;
use reply_text::write_history;
use resending::{MOST_RESEND_LINES, Served, nack_lines, serve};
use run_io::{Sink, Source};
use std::alloc::Global;
use std::sync::Wait;

/// The printed history with its glances, and a line for each NACK.
fn resent_text(alloc: Global, served: Served) -> Result<Vec<u8>, NoMemory>
    ensures { IfOk result (λ bytes. bytes.items ≡ text served.sender served.glances.items ++ nack_lines served.nacks.items) }
{
    let text = write_history(alloc, served.sender.journal(), &served.glances)?;
    let lines = nack_lines(alloc, &served.nacks)?;
    let mut bytes = text.into_vec();
    if bytes.extend_from_slice(lines.as_bytes()).is_err() {
        return Err(NoMemory);
    }
    Ok(bytes)
}

/// Refuses a trace of more actors than one, and one of too many lines.
fn refuse_others(trace: &Trace) -> Result<(), Status>
    ensures one { OnOk result (only_one (plain trace.now) ≡ Ok (plain trace.now)) }
    ensures few { OnOk result (length trace.now.lines.items ≤ MOST_RESEND_LINES) }
    ensures other { IfErr result (IsRefusal (only_one (plain trace.now))) }
{
    if trace.actors != 1 {
        return Err(Status::BadTrace {
            line: 1,
            reason: MANY_ACTORS,
        });
    }
    if trace.lines.len() > MOST_RESEND_LINES {
        return Err(Status::BadTrace {
            line: 0,
            reason: MANY_LINES,
        });
    }
    Ok(())
}

/// The printed history and the lines on the NACKs of the trace that a source gives to its end.
fn source_text<R: Wait, S: Source>(
    rt: &R,
    alloc: Global,
    settings: RtxSettings,
    source: &mut S,
) -> Result<Vec<u8>, Status>
    requires { IsAllowed settings }
    ensures text { IfOk result (λ text. IfSome (S.left source.old) (λ bytes. Writes (command.Resend settings) bytes Status.Done text.items)) }
    ensures read { OnOk result (IsReadUp (command.Resend settings) (S.left source.old) (S.left source.new)) }
    ensures stop { IfErr result (λ ended. IsStop (command.Resend settings) ended (S.left source.old) (S.faults source.old) (S.faults source.new)) }
{
    let bytes = read_all(alloc, source, MOST_TRACE_BYTES as usize)?;
    let trace = read_bytes(alloc, bytes)?;
    refuse_others(&trace)?;
    let served = serve(rt, alloc, settings, trace.lines)?;
    Ok(resent_text(alloc, served)?)
}

/// Reads a trace of one actor to the end of the source, serves its lines in their order and answers
/// the NACKs among them, and writes the printed history and a line for each NACK.
pub fn run_resend<R: Wait, S: Source, K: Sink>(
    rt: &R,
    alloc: Global,
    settings: RtxSettings,
    source: &mut S,
    sink: &mut K,
) -> Status
    requires { IsAllowed settings }
    ensures { IsServed (command.Resend settings) result (streams (S.left source.old) (S.faults source.old) (K.written sink.old) (K.faults sink.old)) (streams (S.left source.new) (S.faults source.new) (K.written sink.new) (K.faults sink.new)) }
{
    match source_text(rt, alloc, settings, source) {
        Ok(text) => write_text(sink, text.as_slice(), Status::Done),
        Err(status) => status,
    }
}
