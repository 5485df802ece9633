//! Senders in a closed loop over a stated link.

ghost use Rattle.live_loop.specs.Plans.{IsPlan};

use crate::loop_words::Asked;
use crate::stop::Stop;
use live_loop::{LoopFault, run_live, told};
use run_top::Status;
use std::alloc::Global;

/// Why a run ended early.
fn stop_of(fault: LoopFault) -> Stop {
    match fault {
        LoopFault::Exhausted => Stop::Exhausted,
        LoopFault::NoMemory => Stop::Ended(Status::NoMemory),
    }
}

/// Runs the loop that is asked for, and tells what was measured.
pub fn run_loop(alloc: Global, asked: &Asked) -> Result<String, Stop>
    requires { IsPlan asked.now.plan }
{
    match run_live(alloc, &asked.plan) {
        Ok(measured) => Ok(told(alloc, &asked.plan, &measured, asked.trace)?),
        Err(fault) => Err(stop_of(fault)),
    }
}
