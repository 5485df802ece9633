//! The probe clusters as the control follows them.

ghost use Rattle.std.specs.Prelude.{◌≡◌, ◌≤◌, ◌<◌, ◌+◌, ◌++◌, ℕ, [], ◌∷◌, List, All, map, length, OnOk};
ghost use Rattle.std.specs.Option.{ForSome};
ghost use Rattle.probe_clusters.specs.Clusters.{due, outcomes};
ghost use Rattle.probe_clusters.specs.Deeds.{Deed, Plan, Note, StandsFor, ReachedBy, takings};
ghost use Rattle.estimator.specs.Report.{IsSmall, TakesNotes};
ghost use Rattle.pacer.specs.Course.{HasRoom, probe_by, probes_of, IsSmallRecord};
ghost use Rattle.pacer.specs.Pace.{clusters_after};
ghost use Rattle.level_control.specs.Probing.{IsProbed};
ghost use Rattle.send_core.specs.Planning.{CanPlan, IsAfterPlans};
ghost use Rattle.send_core.specs.Settings.{start_plans, probe_plans, plans};
ghost use Rattle.steered_sender.specs.Following.{IsForDue, AreForDue};
ghost use Rattle.steered_sender.specs.Measures.{probed_by, probed_of, listed};

use crate::measuring::probed_by;
use gcc_units::{
    Credit, GREATEST_PACKET, GREATEST_RATE, MOST_PACKETS, Moment, NoMemory, Rate, Sequence,
};
use level_control::Probed;
use pacer::{Kind, Sent};
use probe_clusters::{Clusters, Outcome};
use send_core::Change;

/// The first of the two clusters of a first start has so many times its rate, as the sender plans them.
pub const FIRST_TIMES: u64 = 3;

/// The second of them has so many times its rate.
pub const SECOND_TIMES: u64 = 6;

/// The most clusters that one change plans.
pub const MOST_PLANS: u32 = 3;

/// Makes room for what one change plans. At `NoMemory` the clusters are the same.
pub fn make_room(clusters: &mut Clusters, planned: &mut Sequence<Rate>) -> Result<(), NoMemory>
    ensures items { clusters.new.items ≡ clusters.old.items }
    ensures rates { planned.new.items ≡ planned.old.items }
    ensures room { OnOk result (MOST_PLANS ≤ clusters.new.spare) }
    ensures room_for_rates { OnOk result (MOST_PLANS ≤ planned.new.spare) }
{
    clusters.reserve(MOST_PLANS)?;
    planned.reserve(MOST_PLANS)
}

// Plans one cluster, for which there is room.
fn plan_one(clusters: &mut Clusters, planned: &mut Sequence<Rate>, rate: Rate)
    requires can { CanPlan clusters.old (rate ∷ []) }
    requires room { 0 < planned.old.spare }
    ensures after { IsAfterPlans clusters.old (rate ∷ []) clusters.new }
    ensures stands { (ds : List Deed) → StandsFor clusters.old.items ds → StandsFor clusters.new.items (ds ++ Plan rate ∷ []) }
    ensures rates { planned.new.items ≡ planned.old.items ++ rate ∷ [] }
    ensures spare { planned.old.spare ≤ planned.new.spare + 1 }
{
    if clusters.plan(rate).is_err() {
        unreachable!();
    }
    planned.put(rate);
}

// Plans the two clusters of a first start.
fn plan_start(clusters: &mut Clusters, planned: &mut Sequence<Rate>, start: Option<Rate>)
    requires can { CanPlan clusters.old (start_plans start) }
    requires start { ForSome start (λ rate. rate ≤ GREATEST_RATE) }
    requires room { length (start_plans start) ≤ planned.old.spare }
    ensures after { IsAfterPlans clusters.old (start_plans start) clusters.new }
    ensures stands { (ds : List Deed) → StandsFor clusters.old.items ds → StandsFor clusters.new.items (ds ++ map Plan (start_plans start)) }
    ensures rates { planned.new.items ≡ planned.old.items ++ start_plans start }
    ensures spare { planned.old.spare ≤ planned.new.spare + length (start_plans start) }
{
    if let Some(rate) = start {
        plan_one(clusters, planned, GREATEST_RATE.min(FIRST_TIMES * rate));
        plan_one(clusters, planned, GREATEST_RATE.min(SECOND_TIMES * rate));
    }
}

// Plans one cluster for a probe.
fn plan_probe(clusters: &mut Clusters, planned: &mut Sequence<Rate>, probe: Option<Rate>)
    requires can { CanPlan clusters.old (probe_plans probe) }
    requires room { length (probe_plans probe) ≤ planned.old.spare }
    ensures stands { (ds : List Deed) → StandsFor clusters.old.items ds → StandsFor clusters.new.items (ds ++ map Plan (probe_plans probe)) }
    ensures rates { planned.new.items ≡ planned.old.items ++ probe_plans probe }
{
    if let Some(rate) = probe {
        plan_one(clusters, planned, rate);
    }
}

/// Plans the clusters of a change, for which there is room.
pub fn plan_all(
    clusters: &mut Clusters,
    planned: &mut Sequence<Rate>,
    started: bool,
    change: &Change,
)
    requires can { CanPlan clusters.old (plans started change.now) }
    requires start { ForSome change.now.start (λ rate. rate ≤ GREATEST_RATE) }
    requires room { MOST_PLANS ≤ planned.old.spare }
    ensures stands { (ds : List Deed) → StandsFor clusters.old.items ds → StandsFor clusters.new.items (ds ++ map Plan (plans started change.now)) }
    ensures rates { planned.new.items ≡ planned.old.items ++ plans started change.now }
{
    if !started {
        plan_start(clusters, planned, change.start);
    }
    plan_probe(clusters, planned, change.probe);
}

/// Counts the credits at their clusters.
pub fn note_all(clusters: &mut Clusters, received: &[Credit])
    requires small { All IsSmall received.now }
    requires room { TakesNotes clusters.old.items received.now }
    ensures stands { (ds : List Deed) → StandsFor clusters.old.items ds → StandsFor clusters.new.items (ds ++ map Note received.now) }
    ensures count { length clusters.new.items ≡ length clusters.old.items }
{
    for credit in received {
        clusters.judge(credit);
    }
}

// Puts what the control is told of an outcome to the results, for which there is room.
fn note_result(results: &mut Sequence<Probed>, planned: &[Rate], outcome: Outcome)
    requires room { 0 < results.old.spare }
    requires ranges { All IsProbed results.old.items }
    ensures items { results.new.items ≡ results.old.items ++ listed (probed_by planned.now outcome) }
    ensures spare { results.old.spare ≤ results.new.spare + 1 }
    ensures ranges { All IsProbed results.new.items }
{
    if let Some(probed) = probed_by(planned, outcome) {
        results.put(probed);
    }
}

/// Takes the results of all clusters that have one, in rising order of id.
pub fn take_results(
    clusters: &mut Clusters,
    planned: &[Rate],
    room: Sequence<Probed>,
) -> Sequence<Probed>
    requires empty { room.items ≡ [] }
    requires room { length clusters.old.items ≤ room.spare }
    ensures value { result.items ≡ probed_of planned.now (outcomes clusters.old.items) }
    ensures ranges { All IsProbed result.items }
    ensures stands { (ds : List Deed) → StandsFor clusters.old.items ds → StandsFor clusters.new.items (ds ++ takings (outcomes clusters.old.items)) }
{
    let mut results = room;
    while let Some(outcome) = clusters.ready() {
        note_result(&mut results, planned, outcome);
    }
    results
}

// Counts a packet that was sent for a cluster.
fn follow_one(clusters: &mut Clusters, sent: &Sent, moment: Moment)
    requires due { IsForDue (due clusters.old.items moment) sent.now.kind }
    requires size { sent.now.size ≤ GREATEST_PACKET }
    requires within { ReachedBy MOST_PACKETS MOST_PACKETS clusters.old.items }
    ensures items { clusters.new.items ≡ clusters_after moment clusters.old.items sent.now }
    ensures stands { (ds : List Deed) → StandsFor clusters.old.items ds → StandsFor clusters.new.items (ds ++ probe_by moment sent.now) }
    ensures reached { (sends : ℕ) → ReachedBy sends MOST_PACKETS clusters.old.items → ReachedBy (sends + 1) MOST_PACKETS clusters.new.items }
{
    if let Kind::Probe(_) = sent.kind {
        clusters.sent(sent.size, moment);
    }
}

/// Counts the packets that were sent for clusters.
pub fn follow_all(clusters: &mut Clusters, records: &[Sent], moment: Moment)
    requires due { AreForDue moment clusters.old.items records.now }
    requires small { All IsSmallRecord records.now }
    requires room { HasRoom (length records.now) clusters.old.items }
    ensures { (ds : List Deed) → StandsFor clusters.old.items ds → StandsFor clusters.new.items (ds ++ probes_of moment records.now) }
{
    for sent in records {
        follow_one(clusters, sent, moment);
    }
}
