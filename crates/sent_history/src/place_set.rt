//! A set of places, by a bit each.

ghost use Rattle.std.specs.Prelude.{◌≡◌, ◌≢◌, ℕ, ◌<◌, ◌≤◌, IfSome, IfNone};
ghost use Rattle.std.specs.Int.{bit_at};
ghost use Rattle.sent_history.specs.Fresh.{bit_of, IsLowest};

use gcc_units::NoMemory;
use std::alloc::Global;
use std::marker::Model;

/// How many words of 64 places there are.
const WORDS: usize = 512;

/// Some of the places from 0 to 32,767. The next of them is found 64 places at a time.
#[derive(Drop)]
pub struct PlaceSet {
    words: Vec<u64>,
}

impl Model for PlaceSet {
    ghost use Rattle.std.specs.Prelude.{◌≡◌, ℕ, List, length};

    ghost Value = { List ℕ };

    ghost view = { λ p. p.words.items };

    ghost invariant = { λ p. length p.words.items ≡ 512 };
}

impl PlaceSet {
    /// No place.
    pub fn new(alloc: Global) -> Result<Self, NoMemory> {
        Ok(PlaceSet {
            words: vec![in alloc; 0; WORDS]?,
        })
    }

    /// Puts a place in.
    pub fn insert(&mut self, place: usize)
        requires { place < 32768 }
        ensures here { bit_of self.new place ≡ 1 }
        ensures others { (k : ℕ) → k ≢ place → bit_of self.new k ≡ bit_of self.old k }
    {
        let word = self.words[place / 64];
        self.words[place / 64] = word | (1 << (place % 64));
    }

    /// Takes a place out.
    pub fn remove(&mut self, place: usize)
        requires { place < 32768 }
        ensures here { bit_of self.new place ≡ 0 }
        ensures others { (k : ℕ) → k ≢ place → bit_of self.new k ≡ bit_of self.old k }
    {
        let word = self.words[place / 64];
        self.words[place / 64] = word & !(1 << (place % 64));
    }

    /// The first place from `from` on, or `to` where none is below it.
    pub fn first(&self, from: usize, to: usize) -> usize
        requires order { from ≤ to }
        requires inside { to ≤ 32768 }
        ensures low { from ≤ result }
        ensures high { result ≤ to }
        ensures none { (k : ℕ) → from ≤ k → k < result → bit_of self.now k ≡ 0 }
        ensures found { result < to → bit_of self.now result ≡ 1 }
    {
        let mut at = from;
        while at < to {
            match lowest(self.words[at / 64], at % 64) {
                Some(bit) => return (at / 64 * 64 + bit).min(to),
                None => at = (at / 64 + 1) * 64,
            }
        }
        to
    }
}

/// The lowest bit of a word that is set, from a bit on.
fn lowest(word: u64, from: usize) -> Option<usize>
    requires { from < 64 }
    ensures some { IfSome result (IsLowest word from) }
    ensures none { IfNone result ((i : ℕ) → from ≤ i → i < 64 → bit_at word i ≡ 0) }
{
    let behind = word >> from;
    if behind == 0 {
        return None;
    }
    Some(from + behind.trailing_zeros() as usize)
}
