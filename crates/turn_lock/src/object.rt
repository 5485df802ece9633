// What the lock needs of the value that it guards.
ghost use Rattle.std.specs.Prelude.{◌≡◌, ℕ, ◌%◌, ◌<◌, List, [], ◌∷◌, ◌++◌, length, IfOk, IfErr};
ghost use Rattle.gcc_units.specs.declared.limits.TheConstants.{BOARD_LENGTHS};
ghost use Rattle.turn_lock.specs.declared.entry.Entry.{Entry};

use std::alloc::Global;

/// A value that many callers share, one at a time. It has a history of entries, one for each call
/// that it answered.
pub trait Object {
    /// What a caller asks.
    type Call;
    /// What it is answered.
    type Reply;
    /// Why a call was refused.
    type Fault;
    /// The calls that were answered, in order.
    ghost history: { Self → List (Entry Self.Call Self.Reply) };
    /// Which histories may be.
    ghost legal: { List (Entry Self.Call Self.Reply) → Type 0 };
    /// At which histories a call may be refused with a fault.
    ghost refuses: { List (Entry Self.Call Self.Reply) → Self.Call → Self.Fault → Type 0 };
    /// The board of a history: what a glance shows of it.
    ghost board_of: { List (Entry Self.Call Self.Reply) → ℕ };

    /// Answers a call, which is then the last entry of the history. A refused call comes back, and
    /// the history is as before.
    fn apply(
        &mut self,
        alloc: Global,
        caller: u32,
        call: Self::Call,
    ) -> Result<Self::Reply, (Self::Fault, Self::Call)>
        ensures entry { IfOk result (λ r. history self.new ≡ history self.old ++ record { caller = caller; call = call; reply = r } ∷ []) }
        ensures kept { IfErr result (λ e. history self.new ≡ history self.old) }
        ensures back { IfErr result (λ e. e.1 ≡ call) }
        ensures refused { IfErr result (λ e. refuses (history self.old) call e.0) };

    /// The board: the length of the history, and `BOARD_LENGTHS` times what else the object shows of
    /// itself.
    fn board(&self) -> u64
        ensures board { result ≡ board_of (history self.now) }
        ensures legal { legal (history self.now) }
        ensures few { length (history self.now) < BOARD_LENGTHS }
        ensures length { result % BOARD_LENGTHS ≡ length (history self.now) };
}
