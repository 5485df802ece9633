//! The glances of a text.

ghost use Rattle.std.specs.Prelude.{◌≡◌, ℕ, ◌+◌, ◌-◌, ◌<◌, ◌≤◌, ◌↔◌, ◌∷◌, ◌++◌, [], List, length, take, drop, IfOk, IfSome, IfNone, IsTrue};
ghost use Rattle.send_core.specs.declared.call.Entry.{Entry};
ghost use Rattle.call_trace.specs.Fields.{lines_of, number_of};
ghost use Rattle.call_trace.specs.Merge.{calls_by, Merges};
ghost use Rattle.gcc_units.specs.declared.limits.TheConstants.{MOST_LINES, MOST_ENTRIES};
ghost use Rattle.reply_text.specs.declared.seen.Seen.{Seen};
ghost use Rattle.reply_text.specs.Legal.{AreLegalGlances, AreGlancesOf};
ghost use Rattle.reply_text.specs.Looking.{small, seen_in, glances_in, AreTargets, IsSeen, IsStanding, IsAct, HasOwn};

use crate::seen::{Seen, SeenList};
use crate::serving::Served;
use call_trace::{Action, Line, cut, next_line, number};
use gcc_units::NoMemory;
use send_core::Journal;
use std::alloc::Global;

/// A number below 2^32.
fn small_number(text: &[u8]) -> Option<u32>
    ensures { result ≡ small (number_of text.now) }
{
    match number(text) {
        Some(n) if n <= u64::from(u32::MAX) => Some(n as u32),
        _ => None,
    }
}

/// What a glance's line says, but for the glance's number.
fn seen_in(line: &[u8]) -> Option<Seen>
    ensures { result ≡ seen_in line.now }
{
    let (actor, rest) = cut(line);
    let (_, rest) = cut(rest);
    let (_, rest) = cut(rest);
    let (calls, target) = cut(rest);
    Some(Seen {
        actor: small_number(actor)?,
        calls: small_number(calls)?,
        target: number(target)?,
    })
}

/// The glances of a text's lines, up to the first line that has none.
pub fn read_glances(alloc: Global, text: &[u8]) -> Result<SeenList, NoMemory>
    ensures { IfOk result (λ list. list.items ≡ glances_in (lines_of text.now).whole) }
{
    let mut glances = SeenList::new(alloc);
    let mut rest = text;
    while let Some((line, more)) = next_line(rest) {
        let Some(seen) = seen_in(line) else {
            return Ok(glances);
        };
        if glances.push(seen).is_err() {
            return Err(NoMemory);
        }
        rest = more;
    }
    Ok(glances)
}

/// How many of the entries between two places are the actor's.
fn count_calls_by(journal: &Journal, actor: u32, from: u32, to: u32) -> u32
    requires order { from ≤ to }
    requires within { to ≤ length journal.now.items }
    ensures { length (calls_by actor (take from journal.now.items)) + result ≡ length (calls_by actor (take to journal.now.items)) }
{
    let mut count = 0;
    for k in from..to {
        let Some(entry) = journal.entry(k) else {
            unreachable!()
        };
        if entry.caller == actor {
            count += 1;
        }
    }
    count
}

/// Where an actor stands while its lines are gone through.
#[derive(Clone, Copy)]
struct Standing {
    /// How many calls its lines made.
    asked: u32,
    /// How many entries its last glance counts.
    calls: u32,
    /// How many of these are its own.
    made: u32,
}

/// Where an actor stands after a glance; `None` where the glance is no legal one.
fn glanced(actor: u32, served: &Served, standing: Standing, glance: &Seen) -> Option<Standing>
    requires targets { AreTargets served.now.sender served.now.targets.items }
    requires standing { IsStanding served.now.sender actor standing }
    ensures seen { IfSome result (λ next. IsSeen served.now.sender actor standing.calls standing.asked glance.now) }
    ensures asked { IfSome result (λ next. next.asked ≡ standing.asked) }
    ensures calls { IfSome result (λ next. next.calls ≡ glance.now.calls) }
    ensures standing { IfSome result (λ next. IsStanding served.now.sender actor next) }
    ensures none { IfNone result (IsSeen served.now.sender actor standing.calls standing.asked glance.now → ⊥) }
{
    let journal = served.sender.journal();
    if glance.actor != actor || glance.calls < standing.calls || glance.calls > journal.len() {
        return None;
    }
    let target = served.targets.get(glance.calls)?;
    if glance.target != *target {
        return None;
    }
    let made = standing.made + count_calls_by(journal, actor, standing.calls, glance.calls);
    if made != standing.asked {
        return None;
    }
    Some(Standing {
        asked: standing.asked,
        calls: glance.calls,
        made,
    })
}

/// What a line is to an actor.
#[derive(Clone, Copy)]
enum Act {
    Ask,
    Look,
    /// It is another actor's.
    None,
}

/// What a line is to an actor.
fn act_in(actor: u32, line: &Line) -> Act
    ensures { IsAct actor line.now result }
{
    if line.actor != actor {
        return Act::None;
    }
    match line.action {
        Action::Ask(_) => Act::Ask,
        Action::Look => Act::Look,
    }
}

/// What stands behind an actor's glances; `None` where they are not legal ones.
fn own_glances<'a>(
    actor: u32,
    lines: &[Line],
    served: &Served,
    glances: &'a [Seen],
) -> Option<&'a [Seen]>
    requires lines { length lines.now ≤ MOST_LINES }
    requires targets { AreTargets served.now.sender served.now.targets.items }
    requires merges { Merges lines.now served.now.sender }
    ensures some { IfSome result (λ more. HasOwn served.now.sender lines.now actor glances.now more.now) }
    ensures none { IfNone result ((own more : List Seen) → glances.now ≡ own ++ more → AreLegalGlances served.now.sender lines.now actor own → ⊥) }
{
    let mut standing = Standing {
        asked: 0,
        calls: 0,
        made: 0,
    };
    let mut rest = glances;
    for line in lines {
        match act_in(actor, line) {
            Act::Ask => standing.asked += 1,
            Act::Look => {
                let (first, others) = rest.split_first()?;
                standing = glanced(actor, served, standing, first)?;
                rest = others;
            }
            Act::None => {}
        }
    }
    Some(rest)
}

/// Whether these are legal glances of all actors.
pub fn are_glances(actors: u32, lines: &[Line], served: &Served, glances: &[Seen]) -> bool
    requires lines { length lines.now ≤ MOST_LINES }
    requires targets { AreTargets served.now.sender served.now.targets.items }
    requires merges { Merges lines.now served.now.sender }
    ensures { IsTrue result ↔ AreGlancesOf served.now.sender lines.now actors glances.now }
{
    let mut rest = glances;
    for actor in 0..actors {
        let Some(others) = own_glances(actor, lines, served, rest) else {
            return false;
        };
        rest = others;
    }
    rest.is_empty()
}
