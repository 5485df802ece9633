//! The overuse detector: what the estimate of the arrival filter says of the queue on the path
//! (draft-ietf-rmcat-gcc-02, section 5.4, in outline; `OveruseDetector` of libwebrtc).
//!
//! The rule: a mean above a threshold for 10 ms, and not falling, is overuse, one below its negative underuse;
//! the threshold follows the mean, faster upwards than downwards. Q16 means units of 1/65536 millisecond. The
//! constants, the roundings, the cuts and the order of the steps are this project's own rules.
//!
//! Those above use that signal and state are the fold of the rule over all samples.
#![tactic(auto)]

ghost use Rattle.std.specs.Prelude.{◌≡◌, ◌≤ℤ◌, pos, neg_ℤ, ◌+◌, ◌^◌, ◌<◌, [], ◌∷◌, ◌++◌, List};
ghost use Rattle.gcc_units.specs.declared.shared_types.Sample.{Sample};
ghost use Rattle.overuse.specs.Detector.{Step, start, after, signal_of, signals, time_above, is_over, signal_at, next_threshold, moved, weight};
ghost use Rattle.overuse.specs.StateBySteps.{StandsFor, StandsForRoom, TimesStayLow};

use gcc_units::{Sample, Signal};
use std::marker::Model;

/// The threshold before the first sample, in Q16 milliseconds: 12.5 ms (draft-ietf-rmcat-gcc-02,
/// section 5.4, `del_var_th(0)`).
pub const START_THRESHOLD: i64 = 819_200;

/// The least threshold, in Q16 milliseconds: 6 ms (draft-ietf-rmcat-gcc-02, section 5.4).
pub const LEAST_THRESHOLD: i64 = 393_216;

/// The greatest threshold, in Q16 milliseconds: 600 ms (draft-ietf-rmcat-gcc-02, section 5.4).
pub const GREATEST_THRESHOLD: i64 = 39_321_600;

/// How far above the threshold a mean may lie that moves it, in Q16 milliseconds: 15 ms
/// (draft-ietf-rmcat-gcc-02, section 5.4; `kMaxAdaptOffsetMs` of libwebrtc).
pub const GREATEST_EXCESS: i64 = 983_040;

/// How long the mean must lie above the threshold before the signal is `Over`, in microseconds
/// (draft-ietf-rmcat-gcc-02, section 5.4, `overuse_time_th`; `kOverUsingTimeThreshold` of
/// libwebrtc).
pub const OVERUSE_TIME: u64 = 10_000;

/// The longest arrival gap that moves the threshold, in quarter-milliseconds: 100 ms
/// (`kMaxTimeDeltaMs` of libwebrtc).
pub const LONGEST_GAP: i64 = 400;

/// How fast the threshold falls towards a mean below it, in 1/100,000 for each millisecond
/// (draft-ietf-rmcat-gcc-02, section 5.4, `K_d`; libwebrtc's `k_down_` is 0.039).
pub const FALLING_GAIN: i64 = 18;

/// How fast the threshold rises towards a mean above it, in 1/100,000 for each millisecond
/// (draft-ietf-rmcat-gcc-02, section 5.4, `K_u`; libwebrtc's `k_up_` is 0.0087).
pub const RISING_GAIN: i64 = 1_000;

/// What a gain is divided by for each quarter-millisecond of the arrival gap: 100,000 times four
/// (ours).
pub const GAIN_UNIT: i64 = 400_000;

/// The detector's state after the samples given so far.
#[derive(Drop)]
pub struct Detector {
    threshold: i64,
    time: u64,
    before: i64,
}

impl Model for Detector {
    ghost use Rattle.overuse.specs.Detector.{State, IsInRange};

    ghost Value = { State };

    ghost view = { λ a. record { threshold = a.threshold; time = a.time; before = a.before } };

    ghost invariant = { λ a. IsInRange (record { threshold = a.threshold; time = a.time; before = a.before }) };
}

impl Detector {
    /// A detector that was given no sample.
    pub fn new() -> Self
        ensures { result ≡ start }
    {
        Detector {
            threshold: START_THRESHOLD,
            time: 0,
            before: 0,
        }
    }

    /// Takes a sample with the filter's mean after it, in Q16, and answers what they say of the path.
    pub fn step(&mut self, m: i64, sample: &Sample) -> Signal
        requires { StandsForRoom self.old sample.now.send_gap }
        ensures state { self.new ≡ after self.old (record { mean = m; sample = sample.now }) }
        ensures signal { result ≡ signal_of self.old (record { mean = m; sample = sample.now }) }

        // Over the whole list of steps.
        ensures stands { (steps : List Step) → StandsFor self.old steps → StandsFor self.new (steps ++ record { mean = m; sample = sample.now } ∷ []) }
        ensures signals { (steps : List Step) → StandsFor self.old steps → signals (steps ++ record { mean = m; sample = sample.now } ∷ []) ≡ signals steps ++ result ∷ [] }
    {
        let time = time_with(self.threshold, self.time, m, sample.send_gap);
        let over = is_overuse(self.threshold, self.before, time, m);
        let signal = signal_with(over, self.threshold, m);
        self.time = if over { 0 } else { time };
        self.before = m;
        self.threshold = adapted(self.threshold, m, sample.arrival_gap);
        signal
    }

    /// The threshold, in Q16.
    pub fn threshold(&self) -> i64
        ensures value { result ≡ self.now.threshold }
        ensures least { LEAST_THRESHOLD ≤ℤ result }
        ensures greatest { result ≤ℤ GREATEST_THRESHOLD }
    {
        self.threshold
    }
}

/// How long the means have been above the threshold, with this one.
fn time_with(threshold: i64, time: u64, m: i64, send_gap: u64) -> u64
    requires { time + send_gap < 2 ^ 64 }
    ensures { result ≡ time_above threshold time m send_gap }
{
    if threshold < m { time + send_gap } else { 0 }
}

/// Whether a mean above the threshold has been there for long enough and does not fall.
fn is_overuse(threshold: i64, before: i64, time: u64, m: i64) -> bool
    ensures { result ≡ is_over threshold before time m }
{
    threshold < m && OVERUSE_TIME <= time && before <= m
}

/// The signal of a mean.
fn signal_with(over: bool, threshold: i64, m: i64) -> Signal
    requires least { LEAST_THRESHOLD ≤ℤ threshold }
    ensures { result ≡ signal_at over threshold m }
{
    if over {
        Signal::Over
    } else if m < -threshold {
        Signal::Under
    } else {
        Signal::Normal
    }
}

/// The threshold after a mean. It moves slowly towards a mean below it, fast towards one above it, and not at
/// all towards one that is far above it.
fn adapted(threshold: i64, m: i64, arrival_gap: i64) -> i64
    requires least { LEAST_THRESHOLD ≤ℤ threshold }
    requires greatest { threshold ≤ℤ GREATEST_THRESHOLD }
    ensures value { result ≡ next_threshold threshold m arrival_gap }
    ensures least { LEAST_THRESHOLD ≤ℤ result }
    ensures greatest { result ≤ℤ GREATEST_THRESHOLD }
{
    let excess = m.unsigned_abs() as i128 - threshold as i128;
    if (GREATEST_EXCESS as i128) < excess {
        return threshold;
    }
    moved_by(threshold, excess as i64, arrival_gap)
}

/// The threshold, moved towards a mean that is not far above it.
fn moved_by(threshold: i64, excess: i64, arrival_gap: i64) -> i64
    requires least { LEAST_THRESHOLD ≤ℤ threshold }
    requires greatest { threshold ≤ℤ GREATEST_THRESHOLD }
    requires low { neg_ℤ GREATEST_THRESHOLD ≤ℤ excess }
    requires high { excess ≤ℤ GREATEST_EXCESS }
    ensures value { result ≡ moved threshold excess arrival_gap }
    ensures least { LEAST_THRESHOLD ≤ℤ result }
    ensures greatest { result ≤ℤ GREATEST_THRESHOLD }
{
    let by = (weight_of(arrival_gap, excess) * excess).div_euclid(GAIN_UNIT);
    (threshold + by).clamp(LEAST_THRESHOLD, GREATEST_THRESHOLD)
}

/// The part of the excess by which the threshold moves, in 1/400,000.
fn weight_of(arrival_gap: i64, excess: i64) -> i64
    ensures value { result ≡ weight arrival_gap excess }
    ensures least { pos 0 ≤ℤ result }
    ensures greatest { result ≤ℤ GAIN_UNIT }
{
    let gap = arrival_gap.clamp(0, LONGEST_GAP);
    if excess < 0 {
        gap * FALLING_GAIN
    } else {
        gap * RISING_GAIN
    }
}

/// The law of the time above the threshold: it is at most all send gaps together.
pub fn time_grows_slowly()
    ensures { TimesStayLow }
{}

#[cfg(test)]
mod tests;
