//! Lines of action.

ghost use Rattle.std.specs.Prelude.{◌≡◌, ◌≤◌, length};
ghost use Rattle.call_trace.specs.Steps.{Gives};
ghost use Rattle.call_trace.specs.Reading.{action_at, enqueue_at, pace_at, report_at, configure_at, glance_at};

use crate::change::change;
use crate::fault::{Bad, NO_VERB};
use crate::fields::{actor, class, cut, hex_bytes, moment};
use crate::trace::{Action, Line};
use gcc_units::MOST_CHECK_BYTES;
use send_core::{BoxedChange, Call};
use std::alloc::Global;

/// `ACTOR AT CLASS HEX`
#[tactic(auto, unfolding(crate::specs::Reading::enqueue_at))]
fn enqueue(alloc: Global, actors: u32, rest: &[u8]) -> Result<Line, Bad>
    requires { length rest.now ≤ MOST_CHECK_BYTES }
    ensures { Gives result (enqueue_at actors rest.now) }
{
    let (first, rest) = cut(rest);
    let actor = actor(actors, first)?;
    let (second, rest) = cut(rest);
    let at = moment(second)?;
    let (third, rest) = cut(rest);
    let class = class(third)?;
    let wire = hex_bytes(alloc, rest)?;
    let action = Action::Ask(Call::Enqueue { at, class, wire });
    Ok(Line { actor, action })
}

/// `ACTOR AT`
#[tactic(auto, unfolding(crate::specs::Reading::pace_at))]
fn pace(actors: u32, rest: &[u8]) -> Result<Line, Bad>
    ensures { Gives result (pace_at actors rest.now) }
{
    let (first, rest) = cut(rest);
    let actor = actor(actors, first)?;
    let at = moment(rest)?;
    let action = Action::Ask(Call::Pace { at });
    Ok(Line { actor, action })
}

/// `ACTOR AT HEX`
#[tactic(auto, unfolding(crate::specs::Reading::report_at))]
fn report(alloc: Global, actors: u32, rest: &[u8]) -> Result<Line, Bad>
    requires { length rest.now ≤ MOST_CHECK_BYTES }
    ensures { Gives result (report_at actors rest.now) }
{
    let (first, rest) = cut(rest);
    let actor = actor(actors, first)?;
    let (second, rest) = cut(rest);
    let at = moment(second)?;
    let bytes = hex_bytes(alloc, rest)?;
    let action = Action::Ask(Call::Report { at, bytes });
    Ok(Line { actor, action })
}

/// `ACTOR AT JSON`
#[tactic(auto, unfolding(crate::specs::Reading::configure_at))]
fn configure(alloc: Global, actors: u32, rest: &[u8]) -> Result<Line, Bad>
    ensures { Gives result (configure_at actors rest.now) }
{
    let (first, rest) = cut(rest);
    let actor = actor(actors, first)?;
    let (second, rest) = cut(rest);
    let at = moment(second)?;
    let change = change(alloc, rest)?;
    let Ok(change) = BoxedChange::new(alloc, change) else {
        return Err(Bad::Memory);
    };
    let action = Action::Ask(Call::Configure { at, change });
    Ok(Line { actor, action })
}

/// `ACTOR`
#[tactic(auto, unfolding(crate::specs::Reading::glance_at))]
fn glance(actors: u32, rest: &[u8]) -> Result<Line, Bad>
    ensures { Gives result (glance_at actors rest.now) }
{
    let actor = actor(actors, rest)?;
    Ok(Line {
        actor,
        action: Action::Look,
    })
}

/// A line of action: its verb, a space, and the fields of this verb.
#[tactic(auto, unfolding(crate::specs::Reading::action_at))]
pub fn action(alloc: Global, actors: u32, line: &[u8]) -> Result<Line, Bad>
    requires { length line.now ≤ MOST_CHECK_BYTES }
    ensures { Gives result (action_at actors line.now) }
{
    let (verb, rest) = cut(line);
    match verb {
        [b'E'] => enqueue(alloc, actors, rest),
        [b'P'] => pace(actors, rest),
        [b'R'] => report(alloc, actors, rest),
        [b'C'] => configure(alloc, actors, rest),
        [b'G'] => glance(actors, rest),
        _ => Err(Bad::Reason(NO_VERB)),
    }
}
