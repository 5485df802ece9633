//! What no clause says: that memory is enough, and a few results by hand.

ghost use Rattle.std.specs.Prelude.{◌≡◌, ◌<◌, length};
ghost use Rattle.probe_clusters.specs.Deeds.{ReachedBy};

use super::*;
use gcc_units::{Credit, MOST_CLUSTERS, Moment};
use std::process::Abort;
use std::test::Fail;

// Sends packets of 340 bytes for cluster 0 at these moments.
fn send(rt: &impl Abort, clusters: &mut Clusters, moments: &[Moment])
    requires reached { ReachedBy 0 0 clusters.old.items }
    requires few { length moments.now < 100 }
    ensures reached { ReachedBy 100 0 clusters.new.items }
    ensures count { length clusters.new.items ≡ length clusters.old.items }
{
    for moment in moments {
        assert_eq!(rt; clusters.due(*moment), Some(0));
        clusters.sent(340, *moment);
    }
}

// Credits packets of 340 bytes of cluster 0 by their departures and arrivals.
fn credit(clusters: &mut Clusters, rows: &[(Moment, i64)])
    requires reached { ReachedBy 100 0 clusters.old.items }
    requires few { length rows.now < 100 }
    requires planned { 0 < length clusters.old.items }
{
    for (number, (sent_at, arrival)) in rows.iter().enumerate() {
        clusters.judge(&Credit {
            number: number as u64,
            sent_at: *sent_at,
            arrival: *arrival,
            size: 340,
            cluster: Some(0),
        });
    }
}

#[test]
fn a_loaded_path_gives_part_of_the_rate_of_arriving(rt: HostRuntime) {
    let mut clusters = Clusters::new(rt.alloc());
    assert_eq!(rt; clusters.plan(900_000), Ok(0));
    send(&rt, &mut clusters, &[0, 4_000, 8_000, 12_000, 16_000]);
    assert_eq!(rt; clusters.waiting(), 0);
    assert_eq!(rt; clusters.ready(), None);
    let rows = [(0, 0), (4_000, 20), (8_000, 40), (12_000, 60), (16_000, 80)];
    credit(&mut clusters, &rows);
    let outcome = Outcome {
        id: 0,
        result: Some(516_800),
    };
    assert_eq!(rt; clusters.ready(), Some(outcome));
    assert_eq!(rt; clusters.ready(), None);
}

#[test]
fn at_most_sixteen_wait(rt: HostRuntime) -> Result<(), Fail> {
    let mut clusters = Clusters::new(rt.alloc());
    clusters.reserve(1)?;
    for id in 0..MOST_CLUSTERS {
        assert_eq!(rt; clusters.plan(900_000), Ok(id));
    }
    assert_eq!(rt; clusters.plan(900_000), Err(PlanFault::TooMany));
    assert_eq!(rt; clusters.waiting(), MOST_CLUSTERS);
    Ok(())
}

#[test]
fn bytes_are_not_ahead_of_the_rate(rt: HostRuntime) {
    let mut clusters = Clusters::new(rt.alloc());
    assert_eq!(rt; clusters.due(0), None);
    assert_eq!(rt; clusters.plan(900_000), Ok(0));
    assert_eq!(rt; clusters.due(7), Some(0));
    clusters.sent(256, 7);
    assert_eq!(rt; clusters.due(2_282), None);
    assert_eq!(rt; clusters.due(2_283), Some(0));
}
