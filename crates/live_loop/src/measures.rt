//! The measures of a run, over lists of samples.

ghost use Rattle.std.specs.Prelude.{◌≡◌, ℕ, ◌+◌, ◌-◌, ◌*◌, ◌/◌, ◌^◌, ◌<◌, ◌≤◌, min, nat_le, List, [], length, sum, sum_by, slice_index, IfOk, IfSome};
ghost use Rattle.live_loop.specs.Measures.{carried_of, fairness_of, mean_of, per_mille, IsPercentile, used_of};

use crate::sampling::Sample;
use gcc_units::{NoMemory, Rate};
use std::alloc::Global;

/// The samples of the time until a rate is reached: half a second.
pub const REACH_SAMPLES: usize = 5;

/// So many of so many, in a thousand, rounded down; 0 of nothing.
pub fn per_mille(part: u128, whole: u128) -> u64
    requires { part < 2 ^ 118 }
    ensures { result ≡ min (2 ^ 64 - 1) (per_mille part whole) }
{
    if whole == 0 {
        return 0;
    }
    (1_000 * part / whole).min(u128::from(u64::MAX)) as u64
}

/// The sum of numbers.
fn sum_of(numbers: &[u64]) -> u128
    requires { length numbers.now < 2 ^ 40 }
    ensures value { result ≡ sum numbers.now }
    ensures few { result < 2 ^ 104 }
{
    let mut sum: u128 = 0;
    for number in numbers {
        sum += u128::from(*number);
    }
    sum
}

/// The mean of microseconds, in whole milliseconds, rounded down; 0 of none.
pub fn mean_millis(micros: &[u64]) -> u64
    requires { length micros.now < 2 ^ 40 }
    ensures { result ≡ min (2 ^ 64 - 1) (mean_of micros.now) }
{
    if micros.is_empty() {
        return 0;
    }
    let mean = sum_of(micros) / micros.len() as u128 / 1_000;
    mean.min(u128::from(u64::MAX)) as u64
}

/// The least of the microseconds that at least 95 in a hundred of them do not pass, in whole milliseconds,
/// rounded down; 0 of none.
pub fn percentile_millis(alloc: Global, micros: &[u64]) -> Result<u64, NoMemory>
    ensures { IfOk result (λ n. 1 ≤ length micros.now → IsPercentile micros.now n) }
{
    if micros.is_empty() {
        return Ok(0);
    }
    let mut sorted = Vec::from_slice(alloc, micros)?;
    sorted.sort()?;
    let rank = (sorted.len() as u128 * 95).div_ceil(100) as usize;
    Ok(sorted[rank - 1] / 1_000)
}

/// The bytes that the line carried in these samples.
pub fn carried(samples: &[Sample]) -> u128
    requires { length samples.now < 2 ^ 40 }
    ensures value { result ≡ sum_by carried_of samples.now }
    ensures few { result < 2 ^ 104 }
{
    let mut bytes: u128 = 0;
    for sample in samples {
        bytes += u128::from(sample.carried);
    }
    bytes
}

/// How much of what a line of these rates carries in a tenth of a second each was used, in a thousand.
pub fn used_per_mille(bytes: u128, rates: &[Rate]) -> u64
    requires bytes { bytes < 2 ^ 106 }
    requires rates { length rates.now < 2 ^ 40 }
    ensures { result ≡ min (2 ^ 64 - 1) (used_of bytes rates.now) }
{
    per_mille(80 * bytes, sum_of(rates))
}

/// Whether at least 90 of a hundred of what a line of these rates carries was used.
fn is_reached(bytes: &[u64], rates: &[Rate]) -> bool
    requires bytes { length bytes.now < 2 ^ 40 }
    requires rates { length rates.now < 2 ^ 40 }
    ensures { result ≡ nat_le (9 * sum rates.now) (800 * sum bytes.now) }
{
    800 * sum_of(bytes) >= 9 * sum_of(rates)
}

/// After how many tenths of a second the line was used by 90 of a hundred for half a second.
pub fn reached_after(bytes: &[u64], rates: &[Rate]) -> Option<u64>
    requires bytes { length bytes.now < 2 ^ 40 }
    requires rates { length rates.now < 2 ^ 40 }
{
    let most = bytes.len().min(rates.len());
    for end in REACH_SAMPLES..=most {
        if is_reached(
            &bytes[end - REACH_SAMPLES..end],
            &rates[end - REACH_SAMPLES..end],
        ) {
            return Some(end as u64);
        }
    }
    None
}

/// How many samples there are before the first of so many, one behind the other, that are all below a limit.
pub fn kept_below(samples: &[u64], limit: u64, count: u64) -> Option<u64>
    requires few { length samples.now < 2 ^ 40 }
    requires some { 1 ≤ count }
    ensures below { IfSome result (λ n. (k : ℕ) → n ≤ k → k < n + count → slice_index samples.now k < limit) }
    ensures there { IfSome result (λ n. n + count ≤ length samples.now) }
{
    let mut above: u64 = 0;
    let mut seen: u64 = 0;
    for sample in samples {
        seen += 1;
        if *sample >= limit {
            above = seen;
        }
        if seen - above >= count {
            return Some(above);
        }
    }
    None
}

/// Jain's index of two shares, in a thousand: the square of their sum over twice the sum of their squares; 0
/// where both are 0.
pub fn fairness(first: u64, second: u64) -> u64
    requires first { first < 2 ^ 56 }
    requires second { second < 2 ^ 56 }
    ensures { result ≡ min (2 ^ 64 - 1) (fairness_of first second) }
{
    let (x, y) = (u128::from(first), u128::from(second));
    let squares = x * x + y * y;
    per_mille((x + y) * (x + y), 2 * squares)
}
