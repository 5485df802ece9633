//! Why serving stops before the last line.

use gcc_units::NoMemory;

/// Why serving stops before the last line.
#[derive(Clone, Copy, PartialEq, Eq, Debug)]
pub enum Stop {
    NoMemory,
    /// The journal was full.
    Full,
    /// A packet that left was not read with the ID of its extension element.
    Unread,
}

impl From<NoMemory> for Stop {
    ghost use Rattle.std.specs.Prelude.{◌≡◌};
    ghost use Rattle.resending.specs.declared.stop.Stop.TheVariants as stop;

    ghost from_gives = { λ _ made. made ≡ stop.NoMemory };

    fn from(_error: NoMemory) -> Stop {
        Stop::NoMemory
    }
}
