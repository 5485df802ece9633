//! The history of a trace that is served line by line.

ghost use Rattle.std.specs.Prelude.{◌≡◌, ◌+◌, ◌<◌, ◌≤◌, List, [], ◌∷◌, ◌++◌, IfOk, OnOk, length};
ghost use Rattle.std.specs.String.{string_bytes};
ghost use Rattle.std.specs.List.{flat_map, range_with_len};
ghost use Rattle.call_trace.specs.declared.trace.Line.{Line};
ghost use Rattle.reply_text.specs.declared.seen.Seen.{Seen};
ghost use Rattle.reply_text.specs.Text.{glances_by, glance_lines};
ghost use Rattle.run_top.specs.Replay.{of_actor, replayed};
ghost use Rattle.gcc_live.specs.Telling.{AreTold};

use crate::serving::serve;
use crate::stop::Stop;
use call_trace::{Action, Line, LineList};
use gcc_units::{MOST_LINES, NoMemory};
use live_sender::LiveSender;
use reply_text::{Seen, SeenList, push_glance, push_line};
use run_top::Status;
use std::alloc::Global;

/// What is told of the lines that were served: the title with the lines of their entries, how many
/// calls there were, and the glances.
#[derive(Drop)]
pub struct Told {
    pub text: String,
    pub calls: u32,
    pub glances: SeenList,
}

impl Told {
    ghost use Rattle.std.specs.Prelude.{◌≡◌, [], IfOk, codes};
    ghost use Rattle.std.specs.String.{string_bytes};

    /// No line was served.
    fn new(alloc: Global) -> Result<Told, NoMemory>
        ensures text { IfOk result (λ told. string_bytes told.text ≡ codes "gcc-history 1\n") }
        ensures calls { IfOk result (λ told. told.calls ≡ 0) }
        ensures glances { IfOk result (λ told. told.glances.items ≡ []) }
    {
        Ok(Told {
            text: String::from_str(alloc, "gcc-history 1\n")?,
            calls: 0,
            glances: SeenList::new(alloc),
        })
    }
}

/// Serves a line: its call, or its glance.
fn serve_line(
    alloc: Global,
    sender: &mut LiveSender,
    told: &mut Told,
    line: Line,
) -> Result<(), Stop>
    requires { told.old.calls < MOST_LINES }
    ensures told { OnOk result ((lines : List Line) → AreTold sender.old told.old lines → AreTold sender.new told.new (lines ++ line ∷ [])) }
    ensures calls { OnOk result (told.new.calls ≤ told.old.calls + 1) }
{
    let Line { actor, action } = line;
    match action {
        Action::Ask(call) => {
            let reply = serve(alloc, sender, call)?;
            push_line(&mut told.text, actor, &reply)?;
            told.calls += 1;
            Ok(())
        }
        Action::Look => {
            let seen = Seen {
                actor,
                calls: told.calls,
                target: sender.target(),
            };
            match told.glances.push(seen) {
                Ok(()) => Ok(()),
                Err((_fault, _seen)) => Err(Stop::Ended(Status::NoMemory)),
            }
        }
    }
}

/// Serves all lines of a trace, in their order.
pub fn serve_lines(alloc: Global, lines: LineList) -> Result<(LiveSender, Told), Stop>
    requires { length lines.items ≤ MOST_LINES }
    ensures { IfOk result (λ r. AreTold r.0 r.1 lines.items) }
{
    let mut sender = LiveSender::new(alloc)?;
    let mut told = Told::new(alloc)?;
    for line in lines.into_vec() {
        serve_line(alloc, &mut sender, &mut told, line)?;
    }
    Ok((sender, told))
}

/// Appends the lines of an actor's glances, numbered from 0.
fn push_actor(text: &mut String, glances: &[Seen], actor: u32) -> Result<(), NoMemory>
    ensures { OnOk result ((before : List Seen) → glances_by actor before ≡ 0 → string_bytes text.new ≡ string_bytes text.old ++ glance_lines before (of_actor glances.now actor)) }
{
    let mut number: u64 = 0;
    for seen in glances {
        if seen.actor == actor {
            push_glance(text, number, seen)?;
            number += 1;
        }
    }
    Ok(())
}

/// Appends the lines of all glances, in rising order of actor.
fn push_actors(text: &mut String, glances: &[Seen], actors: u32) -> Result<(), NoMemory>
    ensures { OnOk result (string_bytes text.new ≡ string_bytes text.old ++ glance_lines [] (flat_map (of_actor glances.now) (range_with_len 0 actors))) }
{
    for actor in 0..actors {
        push_actor(text, glances, actor)?;
    }
    Ok(())
}

/// The printed history of the lines that were served.
pub fn finish(told: Told, actors: u32, sender: &LiveSender) -> Result<String, NoMemory>
    ensures { IfOk result (λ text. (lines : List Line) → AreTold sender.now told lines → string_bytes text ≡ replayed (record { actors = actors; lines = lines })) }
{
    let Told {
        text,
        calls,
        glances,
    } = told;
    let mut text = text;
    push_actors(&mut text, glances.as_slice(), actors)?;
    let sent = sender.packets_sent();
    let target = sender.target();
    write!(text, "end {calls} {sent} {target}\n")?;
    Ok(text)
}
