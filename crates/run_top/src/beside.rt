//! The filter and the trendline beside each other, each with a detector of its own.

ghost use Rattle.std.specs.Prelude.{◌≡◌, ◌≤◌, ◌≤ℤ◌, ◌+◌, [], ◌∷◌, ◌++◌, neg_ℤ, List, length, IfOk, IfSome};
ghost use Rattle.gcc_units.specs.declared.shared_types.Sample.{Sample as SampleIs};
ghost use Rattle.trendline.specs.Trend.{trend_of};
ghost use Rattle.trendline.specs.declared.TheConstants.{GREATEST_SLOPE};
ghost use Rattle.run_top.specs.Beside.{compared_after, IsBeside, TakesSample};

use arrival_filter::Filter;
use gcc_units::{NoMemory, Sample, Signal};
use overuse::Detector;
use std::alloc::Global;
use trendline::{MOST_DELTAS, TREND_GAIN, Trend};

/// What both say after a sample. Means and trends are in 1/65536 millisecond.
#[derive(Clone, Copy, PartialEq, Eq, Debug)]
pub struct Compared {
    /// What the detector says that is given the filter's means.
    pub filter: Signal,
    /// The filter's mean.
    pub mean: i64,
    /// What the detector says that is given the trends.
    pub trend: Signal,
    /// The trend.
    pub value: i64,
}

/// The filter and the trendline, with their detectors.
#[derive(Drop)]
pub struct Beside {
    pub filter: Filter,
    pub filter_detector: Detector,
    pub trend: Trend,
    pub trend_detector: Detector,
}

/// What a detector is given for the slope after so many samples.
fn trend_of(count: u64, slope: Option<i64>) -> i64
    requires low { IfSome slope (λ s. neg_ℤ GREATEST_SLOPE ≤ℤ s) }
    requires high { IfSome slope (λ s. s ≤ℤ GREATEST_SLOPE) }
    ensures { result ≡ trend_of count slope }
{
    let gain = TREND_GAIN * count.min(MOST_DELTAS);
    gain as i64 * slope.unwrap_or(0)
}

impl Beside {
    /// Before any sample.
    pub fn new(alloc: Global) -> Result<Self, NoMemory>
        ensures { IfOk result (λ b. IsBeside b []) }
    {
        Ok(Beside {
            filter: Filter::new(),
            filter_detector: Detector::new(),
            trend: Trend::new(alloc)?,
            trend_detector: Detector::new(),
        })
    }

    /// Takes a sample, and answers what both say after it.
    pub fn step(&mut self, sample: &Sample) -> Compared
        requires { TakesSample self.old sample.now }
        ensures beside { (samples : List SampleIs) → IsBeside self.old samples → IsBeside self.new (samples ++ sample.now ∷ []) }
        ensures compared { (samples : List SampleIs) → IsBeside self.old samples → result ≡ compared_after (samples ++ sample.now ∷ []) }
    {
        let mean = self.filter.step(sample);
        let filter = self.filter_detector.step(mean, sample);
        let slope = self.trend.step(sample);
        let value = trend_of(self.trend.count(), slope);
        let trend = self.trend_detector.step(value, sample);
        Compared {
            filter,
            mean,
            trend,
            value,
        }
    }

    /// How many samples there were.
    pub fn count(&self) -> u64
        ensures { (samples : List SampleIs) → IsBeside self.now samples → result ≡ length samples }
    {
        self.trend.count()
    }
}
