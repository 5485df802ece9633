//! The calls of the lines of a text, served in their order.

ghost use Rattle.std.specs.Prelude.{◌≡◌, ℕ, ◌+◌, ◌<◌, ◌≤◌, [], ◌∷◌, ◌++◌, List, length, take, IfOk, IfSome, IfNone, OnOk};
ghost use Rattle.std.specs.String.{string_bytes};
ghost use Rattle.gcc_units.specs.declared.limits.TheConstants.{MOST_ACTORS, MOST_LINES, MOST_ENTRIES};
ghost use Rattle.send_core.specs.declared.call.Entry.{Entry};
ghost use Rattle.send_core.specs.History.{entry};
ghost use Rattle.send_core.specs.Reply.{reply};
ghost use Rattle.call_trace.specs.Merge.{call_in, asked, calls_of};
ghost use Rattle.reply_text.specs.Text.{line_of};
ghost use Rattle.reply_text.specs.Verdict.{calls, HasGoodLine};
ghost use Rattle.reply_text.specs.Walking.{ArePlaced, IsServed, IsWalked};

use crate::lines::push_line;
use call_trace::{Action, Line, copy_call, cut, number};
use gcc_units::{MOST_ACTORS, NoMemory, Rate, Sequence};
use send_core::{ApplyFault, Call, Sender};
use std::alloc::Global;

/// A sender that served calls, and the target after each number of them.
#[derive(Drop)]
pub struct Served {
    pub sender: Sender,
    /// In bit/s, the first before the first call.
    pub targets: Sequence<Rate>,
}

/// How far a text has good lines.
#[derive(Drop)]
pub enum Walked<'a> {
    /// This line is bad, counted from 0.
    Bad(u32),
    /// There is a good line for each call, and this is left behind them.
    All(Served, &'a [u8]),
}

/// How many calls an action makes.
fn count_call(action: &Action) -> u32
    ensures { result ≡ length (call_in action.now) }
{
    match action {
        Action::Ask(_) => 1,
        Action::Look => 0,
    }
}

/// How many calls the lines make.
pub fn count_calls(lines: &[Line]) -> u32
    requires { length lines.now ≤ MOST_LINES }
    ensures { result ≡ length (calls lines.now) }
{
    let mut count = 0;
    for line in lines {
        count += count_call(&line.action);
    }
    count
}

/// What the actor asks in a line.
fn call_of(actor: u32, line: &Line) -> Option<&Call>
    ensures some { IfSome result (λ call. asked actor line.now ≡ call.now ∷ []) }
    ensures none { IfNone result (asked actor line.now ≡ []) }
{
    if line.actor != actor {
        return None;
    }
    match &line.action {
        Action::Ask(call) => Some(call),
        Action::Look => None,
    }
}

/// The next call of an actor from a place in the lines on, and its place.
fn next_call(lines: &[Line], from: usize, actor: u32) -> Option<(usize, &Call)>
    requires { from ≤ length lines.now }
    ensures within { IfSome result (λ p. p.0 < length lines.now) }
    ensures some { IfSome result (λ p. calls_of actor (take (p.0 + 1) lines.now) ≡ calls_of actor (take from lines.now) ++ p.1.now ∷ []) }
    ensures none { IfNone result (calls_of actor lines.now ≡ calls_of actor (take from lines.now)) }
{
    for place in from..lines.len() {
        let line = &lines[place];
        if let Some(call) = call_of(actor, line) {
            return Some((place, call));
        }
    }
    None
}

/// Serves a call, and answers the line of its entry.
fn serve(alloc: Global, sender: &mut Sender, caller: u32, call: Call) -> Result<String, NoMemory>
    requires { length sender.old < MOST_ENTRIES }
    ensures served { IfOk result (λ line. sender.new ≡ sender.old ++ entry caller call (reply sender.old call) ∷ []) }
    ensures line { IfOk result (λ line. string_bytes line ≡ line_of (entry caller call (reply sender.old call))) }
{
    match sender.apply(alloc, caller, call) {
        Ok(answer) => {
            let mut line = String::new(alloc);
            push_line(&mut line, caller, &answer.reply)?;
            Ok(line)
        }
        Err((ApplyFault::NoMemory, _)) => Err(NoMemory),
        Err((ApplyFault::JournalFull, _)) => unreachable!(),
    }
}

/// Serves the call whose line comes next, and answers what stands behind the line; `None` where
/// the line is bad.
fn step<'a>(
    alloc: Global,
    actors: u32,
    lines: &[Line],
    sender: &mut Sender,
    cursors: &mut [usize],
    rest: &'a [u8],
) -> Result<Option<&'a [u8]>, NoMemory>
    requires actors { actors ≤ MOST_ACTORS }
    requires room { length sender.old < MOST_ENTRIES }
    requires placed { ArePlaced lines.now actors sender.old cursors.old }
    ensures good { IfOk result (λ o. IfSome o (λ more. IsServed lines.now actors sender.old sender.new rest.now more.now)) }
    ensures placed { IfOk result (λ o. IfSome o (λ more. ArePlaced lines.now actors sender.new cursors.new)) }
    ensures bad { IfOk result (λ o. IfNone o (HasGoodLine lines.now actors sender.old rest.now → ⊥)) }
{
    let (name, _) = cut(rest);
    let Some(caller) = number(name) else {
        return Ok(None);
    };
    if caller >= u64::from(actors) {
        return Ok(None);
    }
    let caller = caller as u32;
    let Some((place, call)) = next_call(lines, cursors[caller as usize], caller) else {
        return Ok(None);
    };
    let line = serve(alloc, sender, caller, copy_call(alloc, call)?)?;
    let Some(more) = rest.strip_prefix(line.as_bytes()) else {
        return Ok(None);
    };
    cursors[caller as usize] = place + 1;
    Ok(Some(more))
}

/// Serves the calls of a text's lines, as long as these are good.
pub fn walk<'a>(
    alloc: Global,
    actors: u32,
    lines: &[Line],
    text: &'a [u8],
) -> Result<Walked<'a>, NoMemory>
    requires actors { actors ≤ MOST_ACTORS }
    requires lines { length lines.now ≤ MOST_LINES }
    ensures { IfOk result (λ w. IsWalked lines.now actors text.now w) }
{
    let Some(mut rest) = text.strip_prefix(b"gcc-history 1\n") else {
        return Ok(Walked::Bad(0));
    };
    let mut sender = Sender::new(alloc)?;
    let mut targets = Sequence::new(alloc);
    keep(&mut targets, sender.target())?;
    let mut cursors = [0usize; MOST_ACTORS as usize];
    for k in 0..count_calls(lines) {
        let Some(more) = step(alloc, actors, lines, &mut sender, &mut cursors, rest)? else {
            return Ok(Walked::Bad(k));
        };
        keep(&mut targets, sender.target())?;
        rest = more;
    }
    Ok(Walked::All(Served { sender, targets }, rest))
}

/// Puts a target at the end.
fn keep(targets: &mut Sequence<Rate>, target: Rate) -> Result<(), NoMemory>
    ensures { OnOk result (targets.new.items ≡ targets.old.items ++ target ∷ []) }
{
    match targets.push(target) {
        Ok(()) => Ok(()),
        Err(_) => Err(NoMemory),
    }
}
