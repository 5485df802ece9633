//! The verdict on a printed history.

ghost use Rattle.std.specs.Prelude.{◌≡◌, ℕ, ◌<◌, ◌≤◌, ◌↔◌, ◌++◌, [], length, IfOk, IsTrue};
ghost use Rattle.std.specs.String.{string_bytes};
ghost use Rattle.std.specs.List.{All};
ghost use Rattle.gcc_units.specs.declared.limits.TheConstants.{MOST_ACTORS, MOST_LINES};
ghost use Rattle.call_trace.specs.declared.trace.Line.{Line};
ghost use Rattle.reply_text.specs.declared.check.Verdict.TheVariants as verdict;
ghost use Rattle.reply_text.specs.Text.{glance_lines, tail_line};
ghost use Rattle.reply_text.specs.Legal.{IsLegalText};
ghost use Rattle.call_trace.specs.Merge.{Merges};
ghost use Rattle.reply_text.specs.Verdict.{IsEnding, DiffersAt};
ghost use Rattle.reply_text.specs.Looking.{AreTargets};

use crate::looking::{are_glances, read_glances};
use crate::serving::{Served, Walked, count_calls, walk};
use crate::text::ending;
use call_trace::{Line, Trace};
use gcc_units::NoMemory;
use std::alloc::Global;

/// The verdict on a printed history.
#[derive(Clone, Copy, PartialEq, Eq, Debug)]
pub enum Verdict {
    /// The text is legal for the trace.
    Legal,
    /// It is not. `entry` is 0 where the first line is wrong; else the number, counted from 0, of
    /// the first bad line of a call; else the number of the trace's calls.
    Differs { entry: u32 },
}

/// Whether legal glances and the tail stand there, and nothing else.
fn is_ending(
    alloc: Global,
    actors: u32,
    lines: &[Line],
    served: &Served,
    text: &[u8],
) -> Result<bool, NoMemory>
    requires lines { length lines.now ≤ MOST_LINES }
    requires actors { actors ≤ MOST_ACTORS }
    requires targets { AreTargets served.now.sender served.now.targets.items }
    requires merges { Merges lines.now served.now.sender }
    ensures { IfOk result (λ b. IsTrue b ↔ IsEnding lines.now actors served.now.sender text.now) }
{
    let journal = served.sender.journal();
    let read = read_glances(alloc, text)?;
    let glances = read.as_slice();
    if !are_glances(actors, lines, served, glances) {
        return Ok(false);
    }
    let expected = ending(alloc, journal, glances, served.sender.target())?;
    Ok(expected.as_bytes() == text)
}

/// The verdict on a text for a trace: `Legal` exactly where the text is the printed history of a
/// legal history that merges the lines of the trace, with a legal glance for each line in which an
/// actor looks. Else `Differs`, at the one place that the first of these rules tells which applies:
/// the first line is wrong, 0; a line behind it is not that of some actor's next call, served after
/// the entries of the lines before, the number of the first such line; glances or tail are wrong,
/// the number of calls (this project's own format and rules). `NoMemory` comes where memory runs
/// out; the calls are served on a sender of its own.
pub fn check_history(alloc: Global, trace: &Trace, text: &[u8]) -> Result<Verdict, NoMemory>
    requires actors { trace.now.actors ≤ MOST_ACTORS }
    requires lines { length trace.now.lines.items ≤ MOST_LINES }
    requires each { All (λ line. line.actor < trace.now.actors) trace.now.lines.items }
    // `Legal` exactly where the text is legal.
    ensures legal { IfOk result (λ v. (v ≡ verdict.Legal) ↔ IsLegalText trace.now.lines.items trace.now.actors text.now) }
    // `Differs` exactly with the place where the text differs.
    ensures differs { IfOk result (λ v. (k : ℕ) → (v ≡ verdict.Differs k) ↔ DiffersAt trace.now.lines.items trace.now.actors text.now k) }
{
    let lines = trace.lines.as_slice();
    match walk(alloc, trace.actors, lines, text)? {
        Walked::Bad(entry) => Ok(Verdict::Differs { entry }),
        Walked::All(served, rest) => {
            if is_ending(alloc, trace.actors, lines, &served, rest)? {
                Ok(Verdict::Legal)
            } else {
                Ok(Verdict::Differs {
                    entry: count_calls(lines),
                })
            }
        }
    }
}
