//! The arrival filter: how much the delay on the path grows from one packet group to the next
//! (draft-ietf-rmcat-gcc-02, section 5.3, in outline; `OveruseEstimator` of libwebrtc, of older versions).
//!
//! The rule: a Kalman filter of one mean, whose noise is measured from what the mean leaves over. It works in
//! whole numbers: Q16 means units of 1/65536 millisecond, and for a variance units of 1/65536 square
//! millisecond. The constants, the roundings, the cut of the residual and the factor for each millisecond are
//! this project's own rules.
//!
//! Those above use that the state is the fold of the rule over all samples, and its ranges.
#![tactic(auto)]

ghost use Rattle.std.specs.Prelude.{◌≡◌, ◌+ℤ◌, ◌≤ℤ◌, pos, neg_ℤ, ◌+◌, ◌*◌, ◌^◌, ◌<◌, ◌≤◌, [], ◌∷◌, ◌++◌, List, unsigned_abs};
ghost use Rattle.std.specs.Int.{int_min, int_max};
ghost use Rattle.gcc_units.specs.declared.shared_types.Sample.{Sample};
ghost use Rattle.arrival_filter.specs.Filter.{start, step, last_kept, least, cut, next_variance, gain, moved, left};
ghost use Rattle.arrival_filter.specs.StateBySamples.{IsWithin, StandsFor, StandsForFew, ErrorsStayLow};

use arrayvec::ArrayVec;
use fixed_math::{ONE_Q16, ONE_Q30, isqrt, mul_q16, pow_q30};
use gcc_units::{GREATEST_DELAY, MOST_PACKETS, Sample};
use std::marker::Model;

/// The error before the first sample, in Q16: 0.1 square millisecond (draft-ietf-rmcat-gcc-02,
/// section 5.3, `e(0)`).
pub const START_ERROR: u64 = 6_553;

/// What each sample adds to the error, in Q16: 0.001 square millisecond (draft-ietf-rmcat-gcc-02,
/// section 5.3, `q(i)`).
pub const PROCESS_NOISE: u64 = 65;

/// The least variance of the residual, in Q16, and the one before the first sample: 1 square
/// millisecond (draft-ietf-rmcat-gcc-02, section 5.3).
pub const LEAST_VARIANCE: u64 = 65_536;

/// The greatest variance that residuals can lead to, in Q16: 20,000 ms squared (it follows from
/// `GREATEST_DELAY`).
pub const GREATEST_VARIANCE: u64 = 26_214_400_000_000;

/// The greatest error that the samples of one filter can lead to, in Q16.
pub const GREATEST_ERROR: u64 = START_ERROR + PROCESS_NOISE * MOST_PACKETS;

/// How many of the last send intervals are kept (draft-ietf-rmcat-gcc-02, section 5.3, `K`).
pub const KEPT_INTERVALS: usize = 5;

/// The longest send interval that is told apart, in milliseconds (ours).
pub const LONGEST_INTERVAL: u64 = 10_000;

/// What a millisecond leaves of the old variance, in Q30: 0.99 to the power of 30/1000
/// (draft-ietf-rmcat-gcc-02, section 5.3, `chi` of 0.01).
pub const FORGETTING: u64 = 1_073_418_129;

/// A residual counts up to so many standard deviations (draft-ietf-rmcat-gcc-02, section 5.3).
pub const MOST_DEVIATIONS: u64 = 3;

/// The filter's state after the samples given so far.
#[derive(Drop)]
pub struct Filter {
    mean: i64,
    error: u64,
    variance: u64,
    intervals: ArrayVec<u32, KEPT_INTERVALS>,
}

impl Model for Filter {
    ghost use Rattle.arrival_filter.specs.Filter.{State, IsInRange};

    ghost Value = { State };

    ghost view = { λ a. record { mean = a.mean; error = a.error; variance = a.variance; intervals = a.intervals.items } };

    ghost invariant = { λ a. IsInRange (record { mean = a.mean; error = a.error; variance = a.variance; intervals = a.intervals.items }) };
}

impl Filter {
    /// A filter that was given no sample.
    pub fn new() -> Self
        ensures { result ≡ start }
    {
        Filter {
            mean: 0,
            error: START_ERROR,
            variance: LEAST_VARIANCE,
            intervals: ArrayVec::new(),
        }
    }

    /// Takes a sample, and answers the new mean.
    #[tactic(auto, unfolding(crate::specs::Filter::step))]
    pub fn step(&mut self, sample: &Sample) -> i64
        requires within { IsWithin sample.now }
        requires few { StandsForFew self.old }
        ensures state { self.new ≡ step self.old sample.now }
        ensures mean { result ≡ self.new.mean }

        // Over the whole list of samples.
        ensures stands { (samples : List Sample) → StandsFor self.old samples → StandsFor self.new (samples ++ sample.now ∷ []) }
    {
        let interval = (sample.send_gap / 1_000).min(LONGEST_INTERVAL) as u32;
        keep(&mut self.intervals, interval);
        let alpha = pow_q30(FORGETTING, least_of(&self.intervals));
        let bound = MOST_DEVIATIONS * isqrt(ONE_Q16 as u64 * self.variance);
        let residual = cut_to(sample.d - self.mean, bound);
        self.variance = variance_after(alpha, self.variance, residual);
        let gain = gain_of(self.error, self.variance);
        self.mean = move_by(self.mean, residual, gain);
        self.error = error_left(self.error, gain);
        self.mean
    }

    /// By how much the delay grows from one packet group to the next, in Q16.
    pub fn mean(&self) -> i64
        ensures value { result ≡ self.now.mean }
        ensures low { neg_ℤ GREATEST_DELAY ≤ℤ result }
        ensures high { result ≤ℤ GREATEST_DELAY }
    {
        self.mean
    }

    /// The variance of the residual, in Q16.
    pub fn variance(&self) -> i64
        ensures value { result ≡ pos self.now.variance }
        ensures least { pos LEAST_VARIANCE ≤ℤ result }
        ensures greatest { result ≤ℤ pos GREATEST_VARIANCE }
    {
        self.variance as i64
    }

    /// The variance of the mean, in Q16.
    pub fn error(&self) -> i64
        ensures value { result ≡ pos self.now.error }
        ensures greatest { result ≤ℤ pos GREATEST_ERROR }
    {
        self.error as i64
    }
}

/// Adds an interval. Only the last ones are kept.
fn keep(intervals: &mut ArrayVec<u32, KEPT_INTERVALS>, interval: u32)
    ensures { intervals.new.items ≡ last_kept (intervals.old.items ++ interval ∷ []) }
{
    if intervals.is_full() {
        intervals.remove(0);
    }
    intervals.push(interval);
}

/// The least of the intervals.
fn least_of(intervals: &ArrayVec<u32, KEPT_INTERVALS>) -> u32
    ensures value { result ≡ least intervals.now.items }
    ensures short { result ≤ LONGEST_INTERVAL }
{
    intervals.as_slice().iter().fold(
        LONGEST_INTERVAL as u32,
        |least, interval| least.min(*interval),
    )
}

/// The number, cut to the range from `-bound` to `bound`.
fn cut_to(z: i64, bound: u64) -> i64
    requires { bound < 2 ^ 63 }
    ensures value { result ≡ cut z bound }
    ensures no_larger { unsigned_abs result ≤ unsigned_abs z }
{
    let bound = bound as i64;
    z.clamp(-bound, bound)
}

/// The variance after a residual.
fn variance_after(alpha: u64, variance: u64, residual: i64) -> u64
    requires alpha { alpha ≤ ONE_Q30 }
    requires least { LEAST_VARIANCE ≤ variance }
    requires greatest { variance ≤ GREATEST_VARIANCE }
    requires residual { unsigned_abs residual ≤ 2 * unsigned_abs GREATEST_DELAY }
    ensures value { result ≡ next_variance alpha variance residual }
    ensures least { LEAST_VARIANCE ≤ result }
    ensures greatest { result ≤ GREATEST_VARIANCE }
{
    let size = residual.unsigned_abs();
    let square = size * size / ONE_Q16 as u64;
    let old = alpha as u128 * variance as u128;
    let new = (ONE_Q30 - alpha) as u128 * square as u128;
    ((old + new) / ONE_Q30 as u128).max(LEAST_VARIANCE as u128) as u64
}

/// How much of the residual the mean takes up, in Q16.
fn gain_of(error: u64, variance: u64) -> u64
    requires error { error ≤ GREATEST_ERROR }
    requires least { LEAST_VARIANCE ≤ variance }
    requires greatest { variance ≤ GREATEST_VARIANCE }
    ensures value { result ≡ gain error variance }
    ensures at_most_one { result ≤ ONE_Q16 }
{
    let error = error + PROCESS_NOISE;
    ONE_Q16 as u64 * error / (variance + error)
}

/// The mean, moved by a part of the residual.
fn move_by(mean: i64, residual: i64, gain: u64) -> i64
    requires low { neg_ℤ GREATEST_DELAY ≤ℤ mean }
    requires high { mean ≤ℤ GREATEST_DELAY }
    requires residual { unsigned_abs residual ≤ 2 * unsigned_abs GREATEST_DELAY }
    requires gain { gain ≤ ONE_Q16 }
    ensures value { result ≡ moved mean residual gain }

    // It moves towards the end of the residual, and never past it.
    ensures low { int_min mean (mean +ℤ residual) ≤ℤ result }
    ensures high { result ≤ℤ int_max mean (mean +ℤ residual) }
{
    mean + mul_q16(residual, gain as i64)
}

/// What is left of the error after the mean took up a part of the residual.
fn error_left(error: u64, gain: u64) -> u64
    requires error { error ≤ GREATEST_ERROR }
    requires gain { gain ≤ ONE_Q16 }
    ensures value { result ≡ left error gain }
    ensures grows { result ≤ error + PROCESS_NOISE }
{
    (ONE_Q16 as u64 - gain) * (error + PROCESS_NOISE) / ONE_Q16 as u64
}

/// The law of the error: it grows by at most its noise with each sample.
pub fn error_grows_slowly()
    ensures { ErrorsStayLow }
{}

#[cfg(test)]
mod tests;
