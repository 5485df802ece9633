//! What a report changes beside what its credits say of the path.

ghost use Rattle.std.specs.Prelude.{◌≡◌, ◌≤◌, ◌+◌, ℕ, [], ◌∷◌, ◌++◌, List, All, fold, map, length};
ghost use Rattle.std.specs.Option.{ForSome};
ghost use Rattle.gcc_units.specs.declared.shared_types.Credit.{Credit};
ghost use Rattle.gcc_units.specs.Rates.{IsBounds, IsInBounds};
ghost use Rattle.acked_rate.specs.Received.{Add};
ghost use Rattle.acked_rate.specs.Kept as windowed;
ghost use Rattle.loss_control.specs.Rule.{Counts};
ghost use Rattle.loss_control.specs.GatheredReports as counted;
ghost use Rattle.probe_clusters.specs.Heard.{later_of};
ghost use Rattle.probe_clusters.specs.Clusters.{outcomes};
ghost use Rattle.probe_clusters.specs.Deeds as deeds;
ghost use Rattle.estimator.specs.Report.{round_trip, add_of, delay_after, delay_probed, loss_probed, delay_taking, loss_taking, IsSmall, TakesNotes, TakesAdds};

use acked_rate::Window;
use gcc_units::{Bounds, Credit, GREATEST_RATE, Moment, Rate, Signal};
use loss_control::Loss;
use probe_clusters::Clusters;
use rate_control::{Control, GREATEST_ROUND_TRIP};

/// Of two credits, the one with the greater number.
pub fn later_of(a: Credit, b: Credit) -> Credit
    ensures { result ≡ later_of a b }
{
    if a.number < b.number { b } else { a }
}

/// The time since the received packet with the greatest number was sent, cut. It stays where nothing was
/// received.
pub fn round_trip(rtt: u64, received: &[Credit], now: Moment) -> u64
    ensures { result ≡ round_trip rtt received.now now }
{
    let Some((first, rest)) = received.split_first() else {
        return rtt;
    };
    let latest = rest
        .iter()
        .fold(*first, |latest, credit| later_of(latest, *credit));
    GREATEST_ROUND_TRIP.min(now.saturating_sub(latest.sent_at))
}

/// Adds a packet that was received to the window.
fn add_credit(window: &mut Window, credit: &Credit)
    requires within { windowed.IsWithin (add_of credit.now) }
    requires few { windowed.TakesAdd window.old }
    ensures { (adds : List Add) → windowed.StandsFor window.old adds
        → windowed.StandsFor window.new (adds ++ add_of credit.now ∷ []) }
{
    window.add(credit.arrival, credit.size);
}

/// Adds what was received to the window.
pub fn add_all(window: &mut Window, received: &[Credit])
    requires within { All (λ (c : Credit). windowed.IsWithin (add_of c)) received.now }
    requires room { TakesAdds window.old (length received.now) }
    ensures { (adds : List Add) → windowed.StandsFor window.old adds
        → windowed.StandsFor window.new (adds ++ map add_of received.now) }
{
    for credit in received {
        add_credit(window, credit);
    }
}

/// One step of delay control where the report gave a signal, and none else.
pub fn step_if_heard(
    delay: &mut Control,
    heard: Option<Signal>,
    acked: Option<Rate>,
    rtt: u64,
    now: Moment,
    bounds: Bounds,
)
    requires received { ForSome acked (λ received. received ≤ GREATEST_RATE) }
    requires round_trip { rtt ≤ GREATEST_ROUND_TRIP }
    requires order { ForSome delay.old.last (λ last. last ≤ now) }
    requires bounds { IsBounds bounds }
    ensures state { delay.new ≡ delay_after heard delay.old acked rtt now bounds }
    ensures in_bounds { IsInBounds bounds delay.old.rate → IsInBounds bounds delay.new.rate }
{
    if let Some(signal) = heard {
        delay.step(signal, acked, rtt, now, bounds);
    }
}

/// Counts the credits at their clusters.
pub fn note_all(clusters: &mut Clusters, received: &[Credit])
    requires small { All IsSmall received.now }
    requires room { TakesNotes clusters.old.items received.now }
    ensures stands { (ds : List deeds.Deed) → deeds.StandsFor clusters.old.items ds
        → deeds.StandsFor clusters.new.items (ds ++ map deeds.Note received.now) }
    ensures reached { (sends credits : ℕ) → deeds.ReachedBy sends credits clusters.old.items
        → deeds.ReachedBy sends (credits + length received.now) clusters.new.items }
    ensures spare { clusters.new.spare ≡ clusters.old.spare }
{
    for credit in received {
        clusters.judge(credit);
    }
}

/// Gives the result of a cluster to both controls, where it has one.
fn take_result(delay: &mut Control, loss: &mut Loss, probed: Option<Rate>, bounds: Bounds)
    requires { IsBounds bounds }
    ensures delay { delay.new ≡ delay_probed bounds delay.old probed }
    ensures loss { loss.new ≡ loss_probed bounds loss.old probed }
    ensures reports { (reports : List Counts) → counted.StandsFor loss.old reports → counted.StandsFor loss.new reports }
    ensures delay_in_bounds { IsInBounds bounds delay.old.rate → IsInBounds bounds delay.new.rate }
    ensures loss_in_bounds { IsInBounds bounds loss.old.estimate → IsInBounds bounds loss.new.estimate }
{
    let Some(rate) = probed else {
        return;
    };
    delay.take_probe(rate, bounds);
    loss.take_probe(rate, bounds);
}

/// Takes the results of all clusters that have one, in rising order of id, and gives each to both controls.
pub fn take_results(clusters: &mut Clusters, delay: &mut Control, loss: &mut Loss, bounds: Bounds)
    requires { IsBounds bounds }
    ensures delay { delay.new ≡ delay_taking bounds delay.old (outcomes clusters.old.items) }
    ensures loss { loss.new ≡ loss_taking bounds loss.old (outcomes clusters.old.items) }
    ensures reports { (reports : List Counts) → counted.StandsFor loss.old reports → counted.StandsFor loss.new reports }
    ensures delay_in_bounds { IsInBounds bounds delay.old.rate → IsInBounds bounds delay.new.rate }
    ensures loss_in_bounds { IsInBounds bounds loss.old.estimate → IsInBounds bounds loss.new.estimate }
    ensures stands { (ds : List deeds.Deed) → deeds.StandsFor clusters.old.items ds
        → deeds.StandsFor clusters.new.items (ds ++ deeds.takings (outcomes clusters.old.items)) }
    ensures reached { (sends credits : ℕ) → deeds.ReachedBy sends credits clusters.old.items
        → deeds.ReachedBy sends credits clusters.new.items }
    ensures spare { clusters.new.spare ≡ clusters.old.spare }
{
    while let Some(outcome) = clusters.ready() {
        take_result(delay, loss, outcome.result, bounds);
    }
}
