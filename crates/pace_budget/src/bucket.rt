ghost use Rattle.std.specs.Prelude.{◌≡◌, ◌↔◌, ◌*◌, ◌≤◌, ℤ, pos, neg_ℤ, ◌+ℤ◌, ◌-ℤ◌, ◌<ℤ◌, ◌≤ℤ◌, List, [], ◌∷◌, ◌++◌, IsTrue};
ghost use Rattle.std.specs.Int.{int_min, int_max};
ghost use Rattle.pace_budget.specs.Level.{Deed, Advance, Spend, Probe, Soft, bits, full, lacking, soft_amount, StandsFor};

use gcc_units::{BYTE, GREATEST_MOMENT, GREATEST_PACKET, GREATEST_RATE, Level, Rate};
use std::marker::Model;

/// The longest window of a budget, in microseconds (this project's own limit).
pub const GREATEST_WINDOW: u64 = 500_000;

/// The level of a budget.
#[derive(Drop)]
pub struct Bucket {
    level: Level,
}

impl Model for Bucket {
    ghost use Rattle.std.specs.Prelude.{ℤ};
    ghost use Rattle.pace_budget.specs.Level.{IsHeld};

    ghost Value = { ℤ };

    ghost view = { λ b. b.level };

    ghost invariant = { λ b. IsHeld b.level };
}

impl Bucket {
    /// A bucket at level 0.
    pub fn new() -> Bucket
        ensures empty { result ≡ pos 0 }
        ensures stands { StandsFor result [] }
    {
        Bucket { level: 0 }
    }

    /// The level in micro-bits.
    pub fn level(&self) -> Level
        ensures { result ≡ self.now }
    {
        self.level
    }

    /// Whether a packet may be sent: the level is above 0.
    pub fn is_open(&self) -> bool
        ensures { IsTrue result ↔ (pos 0 <ℤ self.now) }
    {
        self.level > 0
    }

    /// Time passes: `dt` microseconds at a rate in bit/s. The level rises by as much, and is then cut
    /// to what a window of so many microseconds holds at that rate.
    pub fn advance(&mut self, rate: Rate, dt: u64, window: u64)
        requires rate { rate ≤ GREATEST_RATE }
        requires dt { dt ≤ GREATEST_MOMENT }
        requires window { window ≤ GREATEST_WINDOW }
        ensures level { self.new ≡ int_min (self.old +ℤ pos (rate * dt)) (pos (rate * window)) }
        ensures stands { (deeds : List Deed) → StandsFor self.old deeds → StandsFor self.new (deeds ++ Advance rate dt window ∷ []) }
    {
        let risen = self.level + gain(rate, dt);
        self.level = risen.min(gain(rate, window));
    }

    /// A packet of so many bytes is sent, for which the bucket has to be open. It takes its whole size.
    pub fn spend(&mut self, size: u32)
        requires open { pos 0 <ℤ self.old }
        requires size { size ≤ GREATEST_PACKET }
        ensures level { self.new ≡ self.old -ℤ bits size }
        ensures stands { (deeds : List Deed) → StandsFor self.old deeds → StandsFor self.new (deeds ++ Spend size ∷ []) }
    {
        self.level -= bits_of(size);
    }

    /// A probe of so many bytes is sent, whether the bucket is open or not. It takes its whole size.
    pub fn spend_probe(&mut self, size: u32)
        requires size { size ≤ GREATEST_PACKET }
        requires low { neg_ℤ lacking ≤ℤ self.old }
        ensures level { self.new ≡ self.old -ℤ bits size }
        ensures stands { (deeds : List Deed) → StandsFor self.old deeds → StandsFor self.new (deeds ++ Probe size ∷ []) }
    {
        self.level = self.level - bits_of(size);
    }

    /// A packet of so many bytes is sent from another budget. It takes its size, but nothing below the
    /// floor: the lesser of the size and of what stands above the floor.
    pub fn spend_soft(&mut self, size: u32, floor: Level)
        requires size { size ≤ GREATEST_PACKET }
        requires low { neg_ℤ full ≤ℤ floor }
        requires high { floor ≤ℤ pos 0 }
        ensures level { self.new ≡ int_max (self.old -ℤ bits size) (int_min self.old floor) }
        ensures amount { self.new ≡ self.old -ℤ pos (soft_amount self.old size floor) }
        ensures stands { (deeds : List Deed) → StandsFor self.old deeds → StandsFor self.new (deeds ++ Soft (soft_amount self.old size floor) ∷ []) }
    {
        let spent = self.level - bits_of(size);
        self.level = spent.max(self.level.min(floor));
    }
}

// What comes in at a rate, in micro-bits.
fn gain(rate: Rate, time: u64) -> Level
    requires rate { rate ≤ GREATEST_RATE }
    requires time { time ≤ GREATEST_MOMENT }
    ensures gain { result ≡ pos (rate * time) }
    ensures bound { rate * time ≤ GREATEST_RATE * GREATEST_MOMENT }
{
    i128::from(rate) * i128::from(time)
}

// A packet's size in micro-bits.
fn bits_of(size: u32) -> Level
    requires { size ≤ GREATEST_PACKET }
    ensures { result ≡ bits size }
{
    i128::from(BYTE) * i128::from(size)
}
