//! The traits of the outside.

ghost use Rattle.std.specs.Prelude.{◌≡◌, ◌↔◌, ℕ, ◌<◌, ◌≤◌, List, [], length, take, Option, IfOk, IfSome, MatchResult};
ghost use Rattle.std.specs.Io.{ReadsAtMost};
ghost use Rattle.std.specs.Io.KnownBytes.{ReadConsumes};
ghost use Rattle.run_io.specs.Faults.{HasCause};
ghost use Rattle.run_io.specs.Growth.{Grew};

/// A read or a write failed. The object's count of faults rose.
#[derive(Clone, Copy, Debug, PartialEq, Eq)]
pub struct Failed;

/// Where bytes come from.
pub trait Source {
    // The bytes that are left to be read, where the source tells them.
    ghost left: { Self → Option (List ℕ) };

    // How many reads failed. A count at its last value, 2^64 - 1, counts as risen.
    ghost faults: { Self → ℕ };

    /// Puts the next bytes in front of `buf`, which is not empty, and answers how many. 0 is the end
    /// of the input. `Failed` comes only where the count of faults rose, and nothing was taken then.
    fn read(&mut self, buf: &mut [u8]) -> Result<usize, Failed>
        requires { 0 < length buf.old }
        ensures bound { ReadsAtMost result buf.new }
        ensures bytes { ReadConsumes (left self.old) (left self.new) result buf.new }
        ensures end { IfOk result (λ n. IfSome (left self.old) (λ bytes. (n ≡ 0) ↔ (bytes ≡ []))) }
        ensures cause { HasCause (faults self.old) (faults self.new) result };
}

/// Where bytes go.
pub trait Sink {
    // The bytes that were written, where the sink tells them.
    ghost written: { Self → Option (List ℕ) };

    // How many writes failed. A count at its last value, 2^64 - 1, counts as risen.
    ghost faults: { Self → ℕ };

    /// Takes 1 to all bytes of `piece`, which is not empty, and answers how many. `Failed` comes only
    /// where the count of faults rose, and nothing was written then.
    fn write(&mut self, piece: &[u8]) -> Result<usize, Failed>
        requires { 0 < length piece.now }
        ensures bound { IfOk result (λ n. (0 < n) × (n ≤ length piece.now)) }
        ensures bytes { MatchResult result (λ n. Grew (written self.old) (written self.new) (take n piece.now)) (λ _. Grew (written self.old) (written self.new) []) }
        ensures cause { HasCause (faults self.old) (faults self.new) result };
}

/// Who is asked before and after each line of an actor in a race, with `k` from 0. Nothing that a
/// run promises depends on it.
pub trait Gate {
    fn before(&self, actor: u32, k: u32);

    fn after(&self, actor: u32, k: u32);
}

/// A gate that lets each line pass.
#[derive(Clone, Copy, Debug)]
pub struct OpenGate;

impl Gate for OpenGate {
    fn before(&self, _actor: u32, _k: u32) {}

    fn after(&self, _actor: u32, _k: u32) {}
}
