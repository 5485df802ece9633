//! The sum of shares between two breakpoints, which is a line.

ghost use Rattle.std.specs.Prelude.{◌≡◌, ℕ, ◌+◌, ◌*◌, ◌<◌, ◌≤◌};
ghost use Rattle.allocator.specs.Breakpoints.{rise_of, fall_of, gone_of, full_of, IsWithin};
ghost use Rattle.allocator.specs.declared.line.TheConstants.{GREATEST_SLOPE, GREATEST_SUM};

use crate::breakpoints::Breakpoint;
use crate::stream::GREATEST_WEIGHT;
use gcc_units::{GREATEST_RATE, MOST_STREAMS, Rate};

/// The greatest sum of weights over the breakpoints of a set.
pub(crate) const GREATEST_SLOPE: u64 = 2 * (MOST_STREAMS as u64) * (GREATEST_WEIGHT as u64);

/// The greatest sum of rates over the streams of a set and their breakpoints, in bit/s.
pub(crate) const GREATEST_SUM: u64 = 3 * (MOST_STREAMS as u64) * GREATEST_RATE;

/// What the shares of streams sum to above the last breakpoint that was passed, up to the next: the
/// slope times the level and a constant. The slope is kept as what it rose and what it fell, since
/// of equal breakpoints a fall may come before its rise.
#[derive(Clone, Copy)]
pub(crate) struct Line {
    /// The last breakpoint that was passed; 0 before the first.
    pub at: u64,
    pub rise: u64,
    pub fall: u64,
    pub constant: Rate,
}

impl Line {
    /// The sum at a level.
    pub(crate) fn sum_at(self, level: u64) -> Rate
        requires level { level ≤ GREATEST_RATE }
        requires rise { self.rise ≤ GREATEST_SLOPE }
        requires constant { self.constant ≤ GREATEST_SUM }
        requires fall { self.fall * level ≤ self.rise * level + self.constant }
        ensures { result + self.fall * level ≡ self.rise * level + self.constant }
    {
        self.rise * level + self.constant - self.fall * level
    }

    /// Goes on past a breakpoint.
    pub(crate) fn pass(&mut self, point: &Breakpoint)
        requires rise { self.old.rise ≤ GREATEST_SLOPE }
        requires fall { self.old.fall ≤ GREATEST_SLOPE }
        requires constant { self.old.constant ≤ GREATEST_SUM }
        requires gone { gone_of point.now ≤ self.old.constant }
        requires point { IsWithin point.now }
        ensures at { self.new.at ≡ point.now.level }
        ensures rise { self.new.rise ≡ self.old.rise + rise_of point.now }
        ensures fall { self.new.fall ≡ self.old.fall + fall_of point.now }
        ensures constant { self.new.constant + gone_of point.now ≡ self.old.constant + full_of point.now }
    {
        self.at = point.level;
        if point.is_upper {
            self.fall += u64::from(point.weight);
            self.constant += point.bound;
        } else {
            self.rise += u64::from(point.weight);
            self.constant -= point.bound;
        }
    }

    /// The greatest level up to the top at which the line is at most the total; where it is above it
    /// from the start, the last breakpoint.
    pub(crate) fn level_within(self, total: Rate, top: u64) -> u64
        requires order { self.at ≤ top }
        requires slope { self.at < top → self.fall ≤ self.rise }
        ensures at { self.at ≤ result }
        ensures top { result ≤ top }
        ensures fits { self.at < result → self.rise * result + self.constant ≤ total + self.fall * result }
        ensures greatest { (m : ℕ) → result < m → m ≤ top → total + self.fall * m < self.rise * m + self.constant }
    {
        if total < self.constant {
            return self.at;
        }
        if self.rise <= self.fall {
            return top;
        }
        let level = (total - self.constant) / (self.rise - self.fall);
        top.min(self.at.max(level))
    }
}
