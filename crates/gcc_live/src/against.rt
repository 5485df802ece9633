//! Written traces on a sender without a journal.

ghost use Rattle.std.specs.Prelude.{◌≡◌, ◌≤◌, ℕ, IfOk, Err, length};
ghost use Rattle.std.specs.String.{string_bytes};
ghost use Rattle.gcc_units.specs.declared.limits.TheConstants.{MOST_LINES};
ghost use Rattle.call_trace.specs.Plain.{Plain, plain};
ghost use Rattle.call_trace.specs.Grammar.{IsTrace};
ghost use Rattle.call_trace.specs.Reading.{fault};
ghost use Rattle.run_top.specs.Replay.{input, replayed};
ghost use Rattle.run_top.specs.declared.status.Status.TheVariants as status;
ghost use Rattle.gcc_live.specs.declared.stop.Stop.TheVariants as stop;

use crate::stop::Stop;
use crate::telling::{finish, serve_lines};
use call_trace::{ReadTrace, TOO_LONG, Trace, read_trace};
use gcc_units::MOST_TRACE_BYTES;
use run_top::Status;
use std::alloc::Global;

/// The trace that the bytes spell. `BadTrace` tells their first bad line and in it the first bad
/// field, or that there are too many bytes.
fn read(alloc: Global, bytes: &[u8]) -> Result<Trace, Stop>
    ensures trace { IfOk result (λ trace. IsTrace bytes.now (plain trace)) }
    ensures few { IfOk result (λ trace. length trace.lines.items ≤ MOST_LINES) }
    ensures bad { (line reason : ℕ) → result ≡ Err (stop.Ended (status.BadTrace line reason)) → input bytes.now ≡ Err (fault line reason) }
{
    if bytes.len() > MOST_TRACE_BYTES as usize {
        return Err(Stop::Ended(Status::BadTrace {
            line: 0,
            reason: TOO_LONG,
        }));
    }
    match read_trace(alloc, bytes) {
        Ok(trace) => Ok(trace),
        Err(ReadTrace::Fault(fault)) => Err(Stop::Ended(Status::BadTrace {
            line: fault.line,
            reason: fault.reason,
        })),
        Err(ReadTrace::NoMemory) => Err(Stop::Ended(Status::NoMemory)),
    }
}

/// The printed history of a trace, which is the one that a sender with a journal has for it.
fn print(alloc: Global, trace: Trace) -> Result<String, Stop>
    requires { length trace.lines.items ≤ MOST_LINES }
    ensures { IfOk result (λ text. string_bytes text ≡ replayed (plain trace)) }
{
    let actors = trace.actors;
    let (sender, told) = serve_lines(alloc, trace.lines)?;
    Ok(finish(told, actors, &sender)?)
}

/// The printed history of the trace that the bytes spell, as `gcc_pace replay` writes it.
pub fn replay(alloc: Global, bytes: &[u8]) -> Result<String, Stop>
    ensures { IfOk result (λ text. (trace : Plain) × IsTrace bytes.now trace × (string_bytes text ≡ replayed trace)) }
{
    print(alloc, read(alloc, bytes)?)
}
