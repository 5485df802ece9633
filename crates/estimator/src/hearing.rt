//! What the credits of a report say of the path.

ghost use Rattle.std.specs.Prelude.{◌≡◌, [], ◌∷◌, ◌++◌, List, All, fold};
ghost use Rattle.gcc_units.specs.declared.shared_types.Credit.{Credit};
ghost use Rattle.gcc_units.specs.declared.shared_types.Sample.{Sample};
ghost use Rattle.packet_groups.specs.Kept.{IsWithin};
ghost use Rattle.arrival_filter.specs.Filter as filtered;
ghost use Rattle.arrival_filter.specs.StateBySamples as given;
ghost use Rattle.overuse.specs.Detector as detected;
ghost use Rattle.overuse.specs.StateBySteps as stepped;
ghost use Rattle.estimator.specs.Signals.{step_of, steps, signals, heard_next, report_signal, listed, Follow, TakesCredits};

use arrival_filter::Filter;
use gcc_units::{Credit, Sample, Signal};
use overuse::Detector;
use packet_groups::{Groups, samples_stay_few};

/// Gives a sample to the filter, and with the new mean to the detector, which says what it means.
fn take_sample(filter: &mut Filter, detector: &mut Detector, sample: &Sample) -> Signal
    requires within { given.IsWithin sample.now }
    requires few { given.StandsForFew filter.old }
    requires room { stepped.StandsForRoom detector.old sample.now.send_gap }
    ensures filter { filter.new ≡ filtered.step filter.old sample.now }
    ensures detector { detector.new ≡ detected.after detector.old (step_of filter.old sample.now) }
    ensures signal { result ≡ detected.signal_of detector.old (step_of filter.old sample.now) }
{
    let mean = filter.step(sample);
    detector.step(mean, sample)
}

/// Gives a credit to the groups, and the sample that comes of it to filter and detector.
fn take_credit(
    groups: &mut Groups,
    filter: &mut Filter,
    detector: &mut Detector,
    credit: &Credit,
) -> Option<Signal>
    requires within { IsWithin credit.now }
    requires room { TakesCredits (credit.now ∷ []) groups.old filter.old detector.old }
    ensures follow { (before : List Credit) → Follow before groups.old filter.old detector.old
        → Follow (before ++ credit.now ∷ []) groups.new filter.new detector.new }
    ensures signal { (before : List Credit) → Follow before groups.old filter.old detector.old
        → signals (before ++ credit.now ∷ []) ≡ signals before ++ listed result }
{
    samples_stay_few();
    let sample = groups.add(credit)?;
    Some(take_sample(filter, detector, &sample))
}

/// The signal so far with one more: `Over` stays, and else the later one counts.
fn heard_with(heard: Option<Signal>, signal: Option<Signal>) -> Option<Signal>
    ensures { result ≡ fold heard_next heard (listed signal) }
{
    match (heard, signal) {
        (Some(Signal::Over), _) | (_, None) => heard,
        _ => signal,
    }
}

/// Gives the credits of a report to groups, filter and detector, one after another, and answers the
/// report's signal.
pub fn hear(
    groups: &mut Groups,
    filter: &mut Filter,
    detector: &mut Detector,
    received: &[Credit],
) -> Option<Signal>
    requires within { All IsWithin received.now }
    requires room { TakesCredits received.now groups.old filter.old detector.old }
    ensures follow { (before : List Credit) → Follow before groups.old filter.old detector.old
        → Follow (before ++ received.now) groups.new filter.new detector.new }
    ensures signal { (before : List Credit) → Follow before groups.old filter.old detector.old
        → result ≡ report_signal before received.now }
{
    let mut heard = None;
    for credit in received {
        let signal = take_credit(groups, filter, detector, credit);
        heard = heard_with(heard, signal);
    }
    heard
}
