//! Whole traces.

ghost use Rattle.std.specs.Prelude.{◌≡◌, ◌+◌, ◌<◌, ◌≤◌, ◌∷◌, [], ◌++◌, length, take, List, ℕ, Ok, Err, IfOk, IfErr, IfSome, IfNone};
ghost use Rattle.gcc_units.specs.Listed.{bare};
ghost use Rattle.call_trace.specs.Plain.{Plain, plain, settled, Fits, IsSettled};
ghost use Rattle.call_trace.specs.Grammar.{IsTrace};
ghost use Rattle.call_trace.specs.Faults.{IfFault, IsFirstFault, IsFrontFault};
ghost use Rattle.call_trace.specs.declared.fault.TraceFault.{TraceFault};
ghost use Rattle.call_trace.specs.Fields.{Cut, lines_of};
ghost use Rattle.call_trace.specs.Steps.{Gives};
ghost use Rattle.call_trace.specs.Reading.{FailsTrace, GivesTrace, GivesFront, header_at, actions_at, front_at, counted_at, trace_at, located};

use crate::action::action;
use crate::fault::{BEHIND_END, Bad, NO_END, NO_HEADER, ReadTrace, TOO_MANY_LINES, TraceFault};
use crate::fields::{find, number};
use crate::trace::{LineList, Trace};
use gcc_units::{MOST_ACTORS, MOST_CHECK_BYTES, MOST_LINES, Sequence};
use std::alloc::Global;

/// The next whole line without its line feed, and what stands behind it.
pub fn next_line(bytes: &[u8]) -> Option<(&[u8], &[u8])>
    ensures some { IfSome result (λ p. lines_of bytes.now ≡ record { whole = p.0.now ∷ (lines_of p.1.now).whole; rest = (lines_of p.1.now).rest }) }
    ensures shorter { IfSome result (λ p. length p.0.now + length p.1.now < length bytes.now) }
    ensures none { IfNone result (lines_of bytes.now ≡ record { whole = []; rest = bytes.now }) }
{
    let feed = find(bytes, b'\n');
    if feed < bytes.len() {
        Some((&bytes[..feed], &bytes[feed + 1..]))
    } else {
        None
    }
}

/// The number of actors that a header has.
#[tactic(auto, unfolding(crate::specs::Reading::header_at))]
fn header(line: &[u8]) -> Result<u32, Bad>
    ensures { Gives result (header_at line.now) }
{
    let Some(text) = line.strip_prefix(b"gcc-trace 1 ") else {
        return Err(Bad::Reason(NO_HEADER));
    };
    match number(text) {
        Some(n) if 1 <= n && n <= u64::from(MOST_ACTORS) => Ok(n as u32),
        _ => Err(Bad::Reason(NO_HEADER)),
    }
}

/// The fault of a bad line.
fn at_line(line: u32, bad: Bad) -> ReadTrace
    ensures { result ≡ located line bad }
{
    match bad {
        Bad::Reason(reason) => ReadTrace::Fault(TraceFault { line, reason }),
        Bad::Memory => ReadTrace::NoMemory,
    }
}

/// The lines of action from the second line of a trace on, and what stands behind their end.
fn actions<'a>(
    alloc: Global,
    actors: u32,
    bytes: &'a [u8],
) -> Result<(LineList, &'a [u8]), ReadTrace>
    requires { length bytes.now ≤ MOST_CHECK_BYTES }
    ensures read { IfOk result (λ p. actions_at MOST_LINES actors 2 (lines_of bytes.now).whole ≡ Ok (record { lines = p.0.items; after = (lines_of p.1.now).whole })) }
    ensures rest { IfOk result (λ p. (lines_of p.1.now).rest ≡ (lines_of bytes.now).rest) }
    ensures shorter { IfOk result (λ p. length p.1.now ≤ length bytes.now) }
    ensures few { IfOk result (λ p. length p.0.items ≤ MOST_LINES) }
    ensures settled { IfOk result (λ p. p.0 ≡ bare p.0.items) }
    ensures err { IfErr result (λ e. FailsTrace e (actions_at MOST_LINES actors 2 (lines_of bytes.now).whole)) }
{
    let mut lines = Sequence::new(alloc);
    let mut count: u32 = 2;
    let mut rest = bytes;
    while let Some((line, more)) = next_line(rest) {
        if line == b"end".as_slice() {
            return Ok((lines, more));
        }
        if count > MOST_LINES + 1 {
            return Err(at_line(count, Bad::Reason(TOO_MANY_LINES)));
        }
        let first = match action(alloc, actors, line) {
            Ok(first) => first,
            Err(bad) => return Err(at_line(count, bad)),
        };
        if lines.push(first).is_err() {
            return Err(ReadTrace::NoMemory);
        }
        count += 1;
        rest = more;
    }
    Err(at_line(count, Bad::Reason(NO_END)))
}

/// The trace that the bytes begin with, and what stands behind it.
#[tactic(auto, unfolding(crate::specs::Reading::lines_at))]
fn front(alloc: Global, bytes: &[u8]) -> Result<(Trace, &[u8]), ReadTrace>
    requires { length bytes.now ≤ MOST_CHECK_BYTES }
    ensures read { IfOk result (λ p. front_at MOST_LINES bytes.now ≡ Ok (record { trace = plain p.0; after = (lines_of p.1.now).whole })) }
    ensures rest { IfOk result (λ p. (lines_of p.1.now).rest ≡ (lines_of bytes.now).rest) }
    ensures shorter { IfOk result (λ p. length p.1.now ≤ length bytes.now) }
    ensures few { IfOk result (λ p. length p.0.lines.items ≤ MOST_LINES) }
    ensures settled { IfOk result (λ p. p.0.lines ≡ bare p.0.lines.items) }
    ensures err { IfErr result (λ e. FailsTrace e (front_at MOST_LINES bytes.now)) }
{
    let Some((title, rest)) = next_line(bytes) else {
        return Err(at_line(1, Bad::Reason(NO_END)));
    };
    let actors = match header(title) {
        Ok(actors) => actors,
        Err(bad) => return Err(at_line(1, bad)),
    };
    match actions(alloc, actors, rest) {
        Ok((lines, behind)) => Ok((Trace { actors, lines }, behind)),
        Err(fault) => Err(fault),
    }
}

/// The trace that the bytes are, all of them.
fn all(alloc: Global, bytes: &[u8]) -> Result<Trace, ReadTrace>
    requires { length bytes.now ≤ MOST_CHECK_BYTES }
    ensures exact { GivesTrace result (trace_at MOST_LINES bytes.now) }
    ensures settled { IfOk result (λ trace. trace.lines ≡ bare trace.lines.items) }
{
    match front(alloc, bytes) {
        Ok((trace, [])) => Ok(trace),
        Ok((trace, _)) => Err(at_line(trace.lines.len() + 3, Bad::Reason(BEHIND_END))),
        Err(fault) => Err(fault),
    }
}

/// The trace that the bytes begin with, and how many bytes it has.
fn counted(alloc: Global, bytes: &[u8]) -> Result<(Trace, u32), ReadTrace>
    requires { length bytes.now ≤ MOST_CHECK_BYTES }
    ensures exact { GivesFront result (counted_at MOST_LINES bytes.now) }
    ensures settled { IfOk result (λ p. p.0.lines ≡ bare p.0.lines.items) }
{
    match front(alloc, bytes) {
        Ok((trace, behind)) => Ok((trace, (bytes.len() - behind.len()) as u32)),
        Err(fault) => Err(fault),
    }
}

/// The trace that the bytes spell, all of the bytes: the line `gcc-trace 1 ACTORS`, at most
/// `MOST_LINES` lines of action, and the line `end`.
///
/// `Fault` names the first bad line and the reason of its first bad field; `NoMemory` comes where
/// memory runs out. A packet, a report and a change take memory of their own; the bytes are only
/// looked at.
pub fn read_trace(alloc: Global, bytes: &[u8]) -> Result<Trace, ReadTrace>
    requires { length bytes.now ≤ MOST_CHECK_BYTES }
    // What is read is spelled so.
    ensures found { IfOk result (λ trace. IsTrace bytes.now (plain trace)) }
    // What is spelled so is read, unless memory runs out.
    ensures only { (trace : Plain) → IsTrace bytes.now trace → length trace.lines ≤ MOST_LINES → GivesTrace result (Ok (settled trace)) }
    // The fault is that of the first bad line, and in this line of the first bad field.
    ensures fault { IfErr result (λ e. IfFault e (λ f. IsFirstFault MOST_LINES bytes.now f)) }
    ensures faulty { (f : TraceFault) → IsFirstFault MOST_LINES bytes.now f → GivesTrace result (Err f) }
    // What is returned is what reading line by line and field by field gives.
    ensures exact { GivesTrace result (trace_at MOST_LINES bytes.now) }
    ensures fits { IfOk result (λ trace. Fits (plain trace)) }
    ensures settled { IfOk result (λ trace. IsSettled trace) }
{
    all(alloc, bytes)
}

/// The trace that the bytes begin with, up to the line feed of its line `end`, and how many bytes
/// it has; what stands behind it is not looked at.
///
/// `Fault` names the first bad line of the trace and the reason of its first bad field, which is
/// never `BEHIND_END`; `NoMemory` comes where memory runs out.
pub fn read_front(alloc: Global, bytes: &[u8]) -> Result<(Trace, u32), ReadTrace>
    requires { length bytes.now ≤ MOST_CHECK_BYTES }
    // What is read is spelled so by the first bytes, as many as are told.
    ensures found { IfOk result (λ p. IsTrace (take p.1 bytes.now) (plain p.0)) }
    ensures within { IfOk result (λ p. p.1 ≤ length bytes.now) }
    // What the first bytes spell is read, unless memory runs out.
    ensures only { (trace : Plain) (front back : List ℕ) → bytes.now ≡ front ++ back → IsTrace front trace → length trace.lines ≤ MOST_LINES → GivesFront result (Ok (settled trace, length front)) }
    // The fault is that of the first bad line, and in this line of the first bad field.
    ensures fault { IfErr result (λ e. IfFault e (λ f. IsFrontFault MOST_LINES bytes.now f)) }
    ensures faulty { (f : TraceFault) → IsFrontFault MOST_LINES bytes.now f → GivesFront result (Err f) }
    // What is returned is what reading line by line and field by field gives.
    ensures exact { GivesFront result (counted_at MOST_LINES bytes.now) }
    ensures fits { IfOk result (λ p. Fits (plain p.0)) }
    ensures settled { IfOk result (λ p. IsSettled p.0) }
{
    counted(alloc, bytes)
}
