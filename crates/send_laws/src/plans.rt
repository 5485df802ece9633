//! The rates of the probe clusters that were planned.

ghost use Rattle.std.specs.Prelude.{◌≡◌, ◌+◌, ◌^◌, ◌<◌, ◌≤◌, ◌||◌, [], ◌∷◌, ◌++◌, ℕ, List};
ghost use Rattle.send_core.specs.Settings.{is_some, start_plans, probe_plans, plans, starts_by};
ghost use Rattle.send_laws.specs.Probes.{planned_rate};
ghost use Rattle.send_laws.specs.ProbeSends.{plans_by, ArePlanned};

use crate::reading::entry_at;
use gcc_units::{GREATEST_RATE, Rate};
use send_core::{Call, Change, Entry, Journal, Reply};

/// The clusters that were planned, of which one is looked for.
#[derive(Clone, Copy)]
struct Planned {
    /// Whether an accepted change held a start.
    started: bool,
    count: u64,
    /// The rate of the one that is looked for.
    rate: Option<Rate>,
}

/// The rate of the cluster with this id; `None` exactly where none was planned.
pub fn rate_of(journal: &Journal, id: u32) -> Option<Rate>
    ensures { result ≡ planned_rate id journal.now.items }
{
    let mut planned = Planned {
        started: false,
        count: 0,
        rate: None,
    };
    for k in 0..journal.len() {
        planned = with_entry(planned, id, entry_at(journal, k));
    }
    planned.rate
}

// With what an entry plans.
fn with_entry(so_far: Planned, id: u32, entry: &Entry) -> Planned
    requires { so_far.count + 3 < 2 ^ 64 }
    ensures planned { (rs : List ℕ) → ArePlanned id rs so_far → ArePlanned id (rs ++ plans_by so_far.started entry.now.call entry.now.reply) result }
    ensures started { result.started ≡ (so_far.started || starts_by entry.now.call entry.now.reply) }
    ensures few { result.count ≤ so_far.count + 3 }
{
    match (&entry.call, &entry.reply) {
        (Call::Configure { change, .. }, Reply::Configured { .. }) => {
            with_change(so_far, id, change.get())
        }
        _ => so_far,
    }
}

// With what an accepted change plans.
fn with_change(so_far: Planned, id: u32, change: &Change) -> Planned
    requires { so_far.count + 3 < 2 ^ 64 }
    ensures planned { (rs : List ℕ) → ArePlanned id rs so_far → ArePlanned id (rs ++ plans so_far.started change.now) result }
    ensures started { result.started ≡ (so_far.started || is_some change.now.start) }
    ensures few { result.count ≤ so_far.count + 3 }
{
    let first = if so_far.started { None } else { change.start };
    let planned = with_probe(with_start(so_far, id, first), id, change.probe);
    Planned {
        started: so_far.started || change.start.is_some(),
        count: planned.count,
        rate: planned.rate,
    }
}

// With the clusters of a first start: of three and of six times its rate.
fn with_start(so_far: Planned, id: u32, start: Option<Rate>) -> Planned
    requires { so_far.count + 2 < 2 ^ 64 }
    ensures planned { (rs : List ℕ) → ArePlanned id rs so_far → ArePlanned id (rs ++ start_plans start) result }
    ensures few { result.count ≤ so_far.count + 2 }
{
    match start {
        None => so_far,
        Some(rate) => {
            let first = with_plan(so_far, id, GREATEST_RATE.min(rate.saturating_mul(3)));
            with_plan(first, id, GREATEST_RATE.min(rate.saturating_mul(6)))
        }
    }
}

// With the cluster of a probe.
fn with_probe(so_far: Planned, id: u32, probe: Option<Rate>) -> Planned
    requires { so_far.count + 1 < 2 ^ 64 }
    ensures planned { (rs : List ℕ) → ArePlanned id rs so_far → ArePlanned id (rs ++ probe_plans probe) result }
    ensures few { result.count ≤ so_far.count + 1 }
{
    match probe {
        None => so_far,
        Some(rate) => with_plan(so_far, id, rate),
    }
}

// With one cluster more.
fn with_plan(so_far: Planned, id: u32, rate: Rate) -> Planned
    requires { so_far.count + 1 < 2 ^ 64 }
    ensures planned { (rs : List ℕ) → ArePlanned id rs so_far → ArePlanned id (rs ++ rate ∷ []) result }
    ensures few { result.count ≡ so_far.count + 1 }
{
    Planned {
        started: so_far.started,
        count: so_far.count + 1,
        rate: if so_far.count == u64::from(id) {
            Some(rate)
        } else {
            so_far.rate
        },
    }
}
