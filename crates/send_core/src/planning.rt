//! The probe clusters that a change plans.

ghost use Rattle.std.specs.Prelude.{◌≡◌, ◌≤◌, ◌++◌, [], ◌∷◌, List, map};
ghost use Rattle.std.specs.Option.{ForSome};
ghost use Rattle.probe_clusters.specs.Deeds.{Deed, Plan, StandsFor};
ghost use Rattle.send_core.specs.Planning.{CanPlan, IsAfterPlans};
ghost use Rattle.send_core.specs.Settings.{start_plans, probe_plans, plans};

use crate::call::Change;
use gcc_units::{GREATEST_RATE, Rate};
use probe_clusters::Clusters;

/// The first of the two clusters of a first start has so many times its rate
/// (`first_exponential_probe_scale` of libwebrtc).
pub const FIRST_TIMES: u64 = 3;

/// The second of them has so many times its rate (`second_exponential_probe_scale` of libwebrtc).
pub const SECOND_TIMES: u64 = 6;

// Plans one cluster, for which there is room.
fn plan_one(clusters: &mut Clusters, rate: Rate)
    requires { CanPlan clusters.old (rate ∷ []) }
    ensures after { IsAfterPlans clusters.old (rate ∷ []) clusters.new }
    ensures stands { (ds : List Deed) → StandsFor clusters.old.items ds → StandsFor clusters.new.items (ds ++ Plan rate ∷ []) }
{
    if clusters.plan(rate).is_err() {
        unreachable!();
    }
}

// Plans the two clusters of a first start.
fn plan_start(clusters: &mut Clusters, start: Option<Rate>)
    requires plans { CanPlan clusters.old (start_plans start) }
    requires start { ForSome start (λ rate. rate ≤ GREATEST_RATE) }
    ensures after { IsAfterPlans clusters.old (start_plans start) clusters.new }
    ensures stands { (ds : List Deed) → StandsFor clusters.old.items ds → StandsFor clusters.new.items (ds ++ map Plan (start_plans start)) }
{
    if let Some(rate) = start {
        plan_one(clusters, GREATEST_RATE.min(FIRST_TIMES * rate));
        plan_one(clusters, GREATEST_RATE.min(SECOND_TIMES * rate));
    }
}

// Plans one cluster for a probe.
fn plan_probe(clusters: &mut Clusters, probe: Option<Rate>)
    requires { CanPlan clusters.old (probe_plans probe) }
    ensures stands { (ds : List Deed) → StandsFor clusters.old.items ds → StandsFor clusters.new.items (ds ++ map Plan (probe_plans probe)) }
{
    if let Some(rate) = probe {
        plan_one(clusters, rate);
    }
}

/// Plans the clusters of a change, for which there is room.
pub fn plan_all(clusters: &mut Clusters, started: bool, change: &Change)
    requires plans { CanPlan clusters.old (plans started change.now) }
    requires start { ForSome change.now.start (λ rate. rate ≤ GREATEST_RATE) }
    ensures { (ds : List Deed) → StandsFor clusters.old.items ds → StandsFor clusters.new.items (ds ++ map Plan (plans started change.now)) }
{
    if !started {
        plan_start(clusters, change.start);
    }
    plan_probe(clusters, change.probe);
}
