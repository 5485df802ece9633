//! Why a run stopped early.

use gcc_units::{Bytes, NoMemory};
use run_top::Status;
use std::alloc::Global;

/// The exit code where a sender is exhausted, which is that of no status.
const EXHAUSTED: u8 = 9;

/// Why a run stopped early.
#[derive(Clone, Copy)]
pub enum Stop {
    /// As a run of `gcc_pace` ends.
    Ended(Status),
    /// A sender was given as many packets or reports as it takes.
    Exhausted,
}

impl From<NoMemory> for Stop {
    ghost use Rattle.std.specs.Prelude.{◌≡◌};
    ghost use Rattle.run_top.specs.declared.status.Status.TheVariants as status;
    ghost use Rattle.gcc_live.specs.declared.stop.Stop.TheVariants as stop;

    ghost from_gives = { λ _ made. made ≡ stop.Ended status.NoMemory };

    fn from(_fault: NoMemory) -> Stop {
        Stop::Ended(Status::NoMemory)
    }
}

impl Stop {
    /// The exit code.
    pub fn code(self) -> u8 {
        match self {
            Stop::Ended(status) => status.code(),
            Stop::Exhausted => EXHAUSTED,
        }
    }

    /// The line for standard error.
    pub fn text(self, alloc: Global) -> Result<Bytes, NoMemory> {
        match self {
            Stop::Ended(status) => status.text(alloc),
            Stop::Exhausted => Ok(Bytes::from_vec(Vec::from_slice(alloc, b"exhausted\n")?)),
        }
    }
}
