// The object of the tests.
ghost use Rattle.std.specs.Prelude.{◌≡◌, ◌≤◌, [], length};

use crate::entry::Entry;
use crate::object::Object;
use gcc_units::BOARD_LENGTHS;
use std::alloc::{AllocFailed, Global};
use std::marker::Model;

/// The most entries of a history, one fewer than a board can tell apart.
pub const MOST: usize = BOARD_LENGTHS as usize - 1;

/// A number up to 1,000.
#[derive(Drop)]
pub struct Small {
    number: u32,
}

impl Model for Small {
    ghost use Rattle.std.specs.Prelude.{ℕ, ◌≤◌};

    ghost Value = { ℕ };

    ghost view = { λ s. s.number };

    ghost invariant = { λ s. s.number ≤ 1000 };
}

impl Small {
    pub fn new(number: u32) -> Small
        requires { number ≤ 1000 }
        ensures { result ≡ number }
    {
        Small { number }
    }

    pub fn number(&self) -> u32
        ensures value { result ≡ self.now }
        ensures small { result ≤ 1000 }
    {
        self.number
    }
}

/// Why a number is not added.
#[derive(Clone, Copy, PartialEq, Eq, Debug)]
pub enum Refusal {
    Odd,
    Full,
    NoMemory,
}

/// A total, to which even numbers are added.
#[derive(Drop)]
pub struct Adder {
    pub entries: Vec<Entry<Small, u64>>,
    total: u64,
}

impl Model for Adder {
    ghost use Rattle.std.specs.Prelude.{ℕ, List};
    ghost use Rattle.turn_lock.specs.declared.entry.Entry.{Entry};

    ghost Value = { List (Entry ℕ ℕ) };

    ghost use Rattle.std.specs.Prelude.{◌≡◌, ◌*◌, ◌<◌, ◌≤◌, length};
    ghost use Rattle.gcc_units.specs.declared.limits.TheConstants.{BOARD_LENGTHS};
    ghost use Rattle.turn_lock.specs.Adding.{IsAdding, total_of};

    ghost view = { λ a. a.entries.items };

    ghost invariant = { λ a. IsAdding 0 a.entries.items × (a.total ≡ total_of a.entries.items) × (a.total ≤ 1000 * length a.entries.items) × (length a.entries.items < BOARD_LENGTHS) };
}

impl Adder {
    pub fn new(alloc: Global) -> Adder
        ensures { result ≡ [] }
    {
        Adder {
            entries: Vec::new(alloc),
            total: 0,
        }
    }
}

impl Object for Adder {
    type Call = Small;

    type Reply = u64;

    type Fault = Refusal;

    ghost use Rattle.std.specs.Prelude.{◌≡◌, ◌≢◌, ◌+◌, ◌*◌, ◌%◌, ◌<◌, length};
    ghost use Rattle.gcc_units.specs.declared.limits.TheConstants.{BOARD_LENGTHS};
    ghost use Rattle.turn_lock.specs.declared.adder.TheConstants.{MOST};
    ghost use Rattle.turn_lock.specs.declared.adder.Refusal.TheVariants.{Odd, Full, NoMemory};
    ghost use Rattle.turn_lock.specs.Adding.{IsAdding, total_of};

    ghost history = { λ a. a };

    ghost legal = { IsAdding 0 };

    // An odd number, and only such, is refused as odd; an even one as one too many exactly at the
    // most entries.
    ghost refuses = { λ h call fault. (fault ≡ Odd → call % 2 ≡ 1) × (fault ≢ Odd → call % 2 ≡ 0) × (fault ≡ Full → length h ≡ MOST) × (fault ≡ NoMemory → length h < MOST) };

    ghost board_of = { λ h. length h + BOARD_LENGTHS * total_of h };

    fn apply(&mut self, alloc: Global, caller: u32, call: Small) -> Result<u64, (Refusal, Small)> {
        let number = call.number();
        if number % 2 == 1 {
            return Err((Refusal::Odd, call));
        }
        if self.entries.len() >= MOST {
            return Err((Refusal::Full, call));
        }
        let reply = self.total + u64::from(number);
        let entry = Entry {
            caller,
            call,
            reply,
        };
        if let Err(failed) = self.entries.push(entry) {
            let AllocFailed { value } = failed;
            return Err((Refusal::NoMemory, value.call));
        }
        self.total = reply;
        Ok(reply)
    }

    fn board(&self) -> u64 {
        self.entries.len() as u64 + BOARD_LENGTHS * self.total
    }
}
