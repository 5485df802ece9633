//! Calls once more, for a sender that takes them.

ghost use Rattle.std.specs.Prelude.{◌≡◌, IfOk};

use gcc_units::NoMemory;
use send_core::{BoxedChange, Call, Change};
use std::alloc::Global;

/// The same change once more.
fn copy_change(alloc: Global, change: &Change) -> Result<Change, NoMemory>
    ensures { IfOk result (λ c. c ≡ change.now) }
{
    let streams = change.streams.copy(alloc)?;
    let removed = change.removed.copy(alloc)?;
    Ok(Change {
        streams,
        removed,
        start: change.start,
        min: change.min,
        max: change.max,
        pacing_percent: change.pacing_percent,
        window: change.window,
        padding_rate: change.padding_rate,
        paced_audio: change.paced_audio,
        extension_id: change.extension_id,
        probe: change.probe,
    })
}

/// The same call once more.
pub fn copy_call(alloc: Global, call: &Call) -> Result<Call, NoMemory>
    ensures { IfOk result (λ c. c ≡ call.now) }
{
    match call {
        Call::Enqueue { at, class, wire } => {
            let wire = wire.copy(alloc)?;
            Ok(Call::Enqueue {
                at: *at,
                class: *class,
                wire,
            })
        }
        Call::Pace { at } => Ok(Call::Pace { at: *at }),
        Call::Report { at, bytes } => {
            let bytes = bytes.copy(alloc)?;
            Ok(Call::Report { at: *at, bytes })
        }
        Call::Configure { at, change } => {
            let change = BoxedChange::new(alloc, copy_change(alloc, change.get())?)?;
            Ok(Call::Configure { at: *at, change })
        }
    }
}
