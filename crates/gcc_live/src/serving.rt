//! One call on a sender without a journal.

ghost use Rattle.std.specs.Prelude.{◌≡◌, ℕ, List, [], ◌∷◌, ◌++◌, IfOk};
ghost use Rattle.send_core.specs.declared.call.Entry.{Entry};
ghost use Rattle.send_core.specs.History.{entry};
ghost use Rattle.send_core.specs.Reply.{reply};
ghost use Rattle.live_sender.specs.Live.{StandsFor};

use crate::stop::Stop;
use live_sender::{LiveFault, LiveSender};
use run_top::Status;
use send_core::{Call, Reply};
use std::alloc::Global;

/// Serves a call, and answers its reply.
pub fn serve(alloc: Global, sender: &mut LiveSender, call: Call) -> Result<Reply, Stop>
    ensures reply { IfOk result (λ r. (history : List Entry) → StandsFor sender.old history → r ≡ reply history call) }
    ensures stands { IfOk result (λ r. (history : List Entry) (caller : ℕ) → StandsFor sender.old history → StandsFor sender.new (history ++ entry caller call r ∷ [])) }
{
    match sender.apply(alloc, call) {
        Ok(answer) => Ok(answer.reply),
        Err((LiveFault::Exhausted, _call)) => Err(Stop::Exhausted),
        Err((LiveFault::NoMemory, _call)) => Err(Stop::Ended(Status::NoMemory)),
    }
}
