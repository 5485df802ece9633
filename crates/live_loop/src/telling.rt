//! The text of what was measured: a line for each number, whose name has its unit.

ghost use Rattle.std.specs.Prelude.{◌≡◌, ◌+◌, ◌^◌, ◌<◌, length};
ghost use Rattle.live_loop.specs.Plans.{IsPlan};

use crate::measures::{
    carried, fairness, kept_below, mean_millis, per_mille, percentile_millis, reached_after,
    used_per_mille,
};
use crate::plan::{Plan, Step};
use crate::running::Measured;
use crate::sampling::{SAMPLE_MILLIS, Sample, Samples};
use gcc_units::{NoMemory, Rate};
use std::alloc::Global;

/// The samples before the use of the line is measured: ten seconds.
pub const UNTOLD_SAMPLES: usize = 100;

/// The samples of a second.
const SECOND_SAMPLES: u64 = 10;

/// More than any list of a run has.
pub const MOST_NUMBERS: usize = 1_000_000_000_000;

/// More bytes than a line carries in a run: 2^55.
const MOST_BYTES: u128 = 36_028_797_018_963_968;

/// The milliseconds of a second.
const SECOND_MILLIS: u64 = 1_000;

/// What is left of samples behind the first ten seconds; all, where there are no more.
fn late_samples(samples: &[Sample]) -> &[Sample]
    ensures { length result.now < 2 ^ 40 }
{
    let most = samples.len().min(MOST_NUMBERS);
    if most <= UNTOLD_SAMPLES {
        return &samples[..most];
    }
    &samples[UNTOLD_SAMPLES..most]
}

/// What is left of rates behind the first ten seconds; all, where there are no more.
fn late_rates(rates: &[Rate]) -> &[Rate]
    ensures { length result.now < 2 ^ 40 }
{
    let most = rates.len().min(MOST_NUMBERS);
    if most <= UNTOLD_SAMPLES {
        return &rates[..most];
    }
    &rates[UNTOLD_SAMPLES..most]
}

/// Those from one place on, up to another.
fn between(numbers: &[u64], from: u64, to: u64) -> &[u64]
    ensures { length result.now < 2 ^ 40 }
{
    let to = to.min(numbers.len().min(MOST_NUMBERS) as u64);
    let from = from.min(to);
    &numbers[from as usize..to as usize]
}

/// Puts numbers at the end.
fn append(list: &mut Vec<u64>, numbers: &[u64]) -> Result<(), NoMemory> {
    list.extend_from_slice(numbers)?;
    Ok(())
}

/// The bytes of a sample, where there is one.
fn carried_at(samples: &[Sample], k: usize) -> u64 {
    match samples.get(k) {
        Some(sample) => sample.carried,
        None => 0,
    }
}

/// The waits of all packets.
fn all_waits(alloc: Global, measured: &Measured) -> Result<Vec<u64>, NoMemory> {
    let mut waits = Vec::new(alloc);
    append(&mut waits, measured.first.waits.as_slice())?;
    if let Some(second) = &measured.second {
        append(&mut waits, second.waits.as_slice())?;
    }
    Ok(waits)
}

/// The bytes that the line carried in each tenth of a second.
fn all_carried(alloc: Global, measured: &Measured) -> Result<Vec<u64>, NoMemory> {
    let mut bytes = Vec::new(alloc);
    for k in 0..measured.rates.len() {
        let mut here = carried_at(measured.first.samples.as_slice(), k);
        if let Some(second) = &measured.second {
            here = here.saturating_add(carried_at(second.samples.as_slice(), k));
        }
        if bytes.push(here).is_err() {
            return Err(NoMemory);
        }
    }
    Ok(bytes)
}

/// A line with a number that may be none.
fn push_maybe(text: &mut String, name: &str, number: Option<u64>) -> Result<(), NoMemory> {
    match number {
        Some(number) => Ok(write!(text, "{name} {number}\n")?),
        None => Ok(write!(text, "{name} none\n")?),
    }
}

/// The last target.
fn last_target(samples: &[Sample]) -> Rate {
    match samples.last() {
        Some(sample) => sample.target,
        None => 0,
    }
}

/// The lines of a sender.
fn push_sender(
    alloc: Global,
    text: &mut String,
    number: u32,
    samples: &Samples,
    rates: &[Rate],
) -> Result<(), NoMemory> {
    let used = used_per_mille(
        carried(late_samples(samples.samples.as_slice())),
        late_rates(rates),
    );
    let mean = mean_millis(between(samples.waits.as_slice(), 0, u64::MAX));
    let most = percentile_millis(alloc, samples.waits.as_slice())?;
    let loss = per_mille(u128::from(samples.dropped), u128::from(samples.offered));
    let target = last_target(samples.samples.as_slice());
    write!(text, "sender_{number}_use_per_mille {used}\n")?;
    write!(text, "sender_{number}_queue_mean_ms {mean}\n")?;
    write!(text, "sender_{number}_queue_95_ms {most}\n")?;
    write!(text, "sender_{number}_loss_per_mille {loss}\n")?;
    write!(text, "sender_{number}_target_bits_per_second {target}\n")?;
    Ok(())
}

/// The lines of a step, whose rate stays up to a second.
fn push_step(
    text: &mut String,
    number: u64,
    step: &Step,
    until: u64,
    bytes: &[u64],
    measured: &Measured,
    plan: &Plan,
) -> Result<(), NoMemory>
    requires until { until < 2 ^ 32 }
    requires plan { IsPlan plan.now }
{
    let at = u64::from(step.at);
    let drains = between(
        measured.drains.as_slice(),
        SECOND_MILLIS * at,
        SECOND_MILLIS * until,
    );
    let below = kept_below(drains, plan.delay_micros(), SECOND_MILLIS);
    let rates = between(
        measured.rates.as_slice(),
        SECOND_SAMPLES * at,
        SECOND_SAMPLES * until,
    );
    let bytes = between(bytes, SECOND_SAMPLES * at, SECOND_SAMPLES * until);
    let reached = reached_after(bytes, rates);
    write!(text, "step_{number}_second {at}\n")?;
    write!(text, "step_{number}_rate_bits_per_second {}\n", step.rate)?;
    write!(text, "step_{number}_")?;
    push_maybe(text, "queue_below_delay_ms", below)?;
    write!(text, "step_{number}_")?;
    push_maybe(text, "reach_ms", millis_of(reached))
}

/// The milliseconds of so many samples.
fn millis_of(samples: Option<u64>) -> Option<u64> {
    match samples {
        Some(samples) => Some(samples.saturating_mul(u64::from(SAMPLE_MILLIS))),
        None => None,
    }
}

/// A second, as a number of 64 bits.
fn number_of(second: u32) -> u64
    ensures { result < 2 ^ 32 }
{
    u64::from(second)
}

/// The second of the step of this place, or the last second of the run.
fn second_of(plan: &Plan, k: usize) -> u64
    ensures { result < 2 ^ 32 }
{
    match plan.steps.get(k) {
        Some(step) => number_of(step.at),
        None => number_of(plan.seconds),
    }
}

/// The lines of the link.
fn push_link(
    alloc: Global,
    text: &mut String,
    plan: &Plan,
    measured: &Measured,
) -> Result<(), NoMemory>
    requires { IsPlan plan.now }
{
    let waits = all_waits(alloc, measured)?;
    let bytes = all_carried(alloc, measured)?;
    let mean = mean_millis(between(waits.as_slice(), 0, u64::MAX));
    let most = percentile_millis(alloc, waits.as_slice())?;
    let first = carried(late_samples(measured.first.samples.as_slice()));
    let second = match &measured.second {
        Some(second) => carried(late_samples(second.samples.as_slice())),
        None => 0,
    };
    let used = used_per_mille(first + second, late_rates(measured.rates.as_slice()));
    write!(text, "link_use_per_mille {used}\n")?;
    write!(text, "link_queue_mean_ms {mean}\n")?;
    write!(text, "link_queue_95_ms {most}\n")?;
    write!(text, "link_loss_per_mille {}\n", loss_of_all(measured))?;
    let steady = between(bytes.as_slice(), 0, SECOND_SAMPLES * second_of(plan, 0));
    push_maybe(
        text,
        "link_reach_ms",
        millis_of(reached_after(steady, between(measured.rates.as_slice(), 0, u64::MAX))),
    )?;
    for k in 0..plan.steps.len() {
        let until = second_of(plan, k + 1);
        push_step(
            text,
            k as u64 + 1,
            &plan.steps[k],
            until,
            bytes.as_slice(),
            measured,
            plan,
        )?;
    }
    if measured.second.is_some() {
        write!(
            text,
            "fairness_per_mille {}\n",
            fairness(share_of(first), share_of(second))
        )?;
    }
    Ok(())
}

/// A count of bytes, as a share.
fn share_of(bytes: u128) -> u64
    ensures { result < 2 ^ 56 }
{
    bytes.min(MOST_BYTES) as u64
}

/// The sum of two counts.
fn sum_of_two(first: u64, second: u64) -> u128
    ensures value { result ≡ first + second }
    ensures few { result < 2 ^ 65 }
{
    u128::from(first) + u128::from(second)
}

/// How many of all packets were dropped, in a thousand.
fn loss_of_all(measured: &Measured) -> u64 {
    let (dropped, offered) = match &measured.second {
        Some(second) => (second.dropped, second.offered),
        None => (0, 0),
    };
    per_mille(
        sum_of_two(measured.first.dropped, dropped),
        sum_of_two(measured.first.offered, offered),
    )
}

/// A line of the trace.
fn push_sample(
    text: &mut String,
    at: u64,
    number: u32,
    sample: &Sample,
    rate: Rate,
    drain: u64,
) -> Result<(), NoMemory> {
    let Sample {
        target,
        sent,
        received,
        ..
    } = *sample;
    write!(
        text,
        "trace {at} sender {number} link {rate} target {target} queue_us {drain} sent {sent} received {received}\n"
    )?;
    Ok(())
}

/// The lines of the trace, a tenth of a second each.
fn push_trace(text: &mut String, measured: &Measured) -> Result<(), NoMemory> {
    let mut at: u64 = 0;
    for k in 0..measured.rates.len() {
        at = at.saturating_add(u64::from(SAMPLE_MILLIS));
        let rate = measured.rates[k];
        let drain = match between(measured.drains.as_slice(), 0, at).last() {
            Some(drain) => *drain,
            None => 0,
        };
        if let Some(sample) = measured.first.samples.get(k) {
            push_sample(text, at, 1, sample, rate, drain)?;
        }
        if let Some(second) = &measured.second
            && let Some(sample) = second.samples.get(k)
        {
            push_sample(text, at, 2, sample, rate, drain)?;
        }
    }
    Ok(())
}

/// The text of what was measured: with a trace first a line for each sender each tenth of a second, then a line
/// for each measure.
pub fn told(
    alloc: Global,
    plan: &Plan,
    measured: &Measured,
    trace: bool,
) -> Result<String, NoMemory>
    requires { IsPlan plan.now }
{
    let mut text = String::new(alloc);
    if trace {
        push_trace(&mut text, measured)?;
    }
    let rates = measured.rates.as_slice();
    push_sender(alloc, &mut text, 1, &measured.first, rates)?;
    if let Some(second) = &measured.second {
        push_sender(alloc, &mut text, 2, second, rates)?;
    }
    push_link(alloc, &mut text, plan, measured)?;
    Ok(text)
}
