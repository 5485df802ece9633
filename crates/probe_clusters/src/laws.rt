//! Laws of the clusters, each the contract of a function that does nothing.

ghost use Rattle.probe_clusters.specs.Laws.{CreditsStand, CreditsTogether, OutcomesStand, TakenOnce, WaitsOnce};

/// Law: what is kept of a cluster's credits are their count, the sum of their bytes, and their least
/// and greatest departures and arrivals.
pub fn credits_together()
    ensures { CreditsTogether }
{}

/// Law: once the result of a cluster was taken, it is never ready again, and later credits are
/// ignored.
pub fn results_are_taken_once()
    ensures { TakenOnce }
{}

/// Law: a cluster that no longer waits never waits again.
pub fn clusters_wait_once()
    ensures { WaitsOnce }
{}

/// Law: credits that are noted one after another are the deeds of just these notes.
pub fn credits_stand()
    ensures { CreditsStand }
{}

/// Law: taking all results that are ready, one after another, is the deeds of just these takings.
pub fn outcomes_stand()
    ensures { OutcomesStand }
{}
