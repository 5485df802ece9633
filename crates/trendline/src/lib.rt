//! The trendline: the slope of the delays over their arrival times, by the regression line through the last
//! points (`TrendlineEstimator` of libwebrtc).
//!
//! Arrival gaps are quarter-milliseconds, delays 1/65536 millisecond (Q16). The rounding and the cut of the
//! slope are this project's own rules.
#![tactic(auto)]

ghost use Rattle.std.specs.Prelude.{◌≡◌, [], ◌∷◌, ◌++◌, List, IfOk};
ghost use Rattle.gcc_units.specs.declared.shared_types.Sample.{Sample};
ghost use Rattle.trendline.specs.KeptBySamples.{GapsStayWithin, StandsFor, TakesSample};
ghost use Rattle.trendline.specs.Trend.{slope};

use gcc_units::{NoMemory, Sample};
use packet_groups::samples_stay_few;
use std::alloc::Global;
use std::marker::Model;

mod sums;
mod window;

use sums::{Point, moved};
use window::Window;

/// How many points the line goes through (`kDefaultTrendlineWindowSize` of libwebrtc).
pub const MOST_POINTS: u32 = 20;

/// How far a slope may lie from 0, in Q16: 2^40 (ours).
pub const GREATEST_SLOPE: i64 = 1_099_511_627_776;

/// What the slope is multiplied by for each sample (`kDefaultTrendlineThresholdGain` of libwebrtc).
pub const TREND_GAIN: u64 = 4;

/// The most samples that raise the factor of the slope (`kMinNumDeltas` of libwebrtc).
pub const MOST_DELTAS: u64 = 60;

/// How far all arrival gaps together may lie from 0, in quarter-milliseconds: 2^54. It is the difference of
/// two arrivals.
pub const GREATEST_TIME: u64 = 18_014_398_509_481_984;

/// The points of the last samples, with their sums.
#[derive(Drop)]
pub struct Trend {
    window: Window,
    last: Point,
    count: u64,
}

impl Model for Trend {
    ghost use Rattle.trendline.specs.KeptBySamples.{Kept};

    ghost Value = { Kept };

    ghost view = { λ t. record { points = t.window; last = t.last; count = t.count } };
}

impl Trend {
    /// The trend of no sample. It takes the memory for all points that are ever kept, so that no later call
    /// takes any.
    pub fn new(alloc: Global) -> Result<Self, NoMemory>
        ensures { IfOk result (λ t. StandsFor t []) }
    {
        Ok(Trend {
            window: Window::new(alloc)?,
            last: Point { x: 0, y: 0 },
            count: 0,
        })
    }

    /// Takes a sample, and answers the slope after it, in Q16. `None` exactly where there were fewer than 20
    /// samples, and where the last 20 points lie at one time.
    pub fn step(&mut self, sample: &Sample) -> Option<i64>
        requires { TakesSample self.old sample.now }
        ensures stands { (samples : List Sample) → StandsFor self.old samples → StandsFor self.new (samples ++ sample.now ∷ []) }

        // By all samples so far.
        ensures slope { (samples : List Sample) → StandsFor self.old samples → result ≡ slope (samples ++ sample.now ∷ []) }
    {
        let point = moved(self.last, sample);
        self.last = point;
        self.count += 1;
        self.window.push(point);
        if self.count < u64::from(MOST_POINTS) {
            return None;
        }
        self.window.slope()
    }

    /// The number of samples so far.
    pub fn count(&self) -> u64
        ensures { result ≡ self.now.count }
    {
        self.count
    }
}

/// The law of the gaps: the samples of any credits of a journal are within what a trend takes.
pub fn gaps_stay_within()
    ensures { GapsStayWithin }
{
    samples_stay_few();
}

#[cfg(test)]
mod tests;
