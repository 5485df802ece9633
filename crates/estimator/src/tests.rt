//! A report whose mean and estimates are worked by hand.

ghost use Rattle.std.specs.Prelude.{◌≡◌, None};

use super::*;
use gcc_units::{Credit, CreditList};
use std::test::Fail;

/// A packet of 100 bytes that was received.
fn credit_of(number: u64, sent_at: Moment, arrival: i64) -> Credit
    ensures { result ≡ record { number = number; sent_at = sent_at; arrival = arrival; size = 100; cluster = None } }
{
    Credit {
        number,
        sent_at,
        arrival,
        size: 100,
        cluster: None,
    }
}

// Three groups of one packet each: the one sample is of 20 ms between departures and 30 ms between arrivals.
#[test]
fn one_sample(rt: HostRuntime) -> Result<(), Fail> {
    let alloc = rt.alloc();
    let bounds = Bounds {
        min: 30_000,
        max: 10_000_000,
    };
    let credits = vec![in alloc;
        credit_of(0, 1_000, 260),
        credit_of(1, 21_000, 380),
        credit_of(2, 41_000, 460),
    ]?;
    let judged = Judged {
        received: CreditList::from_vec(credits),
        missing: 0,
        unknown: 0,
        repeated: 0,
    };
    let mut clusters = Clusters::new(alloc);
    let mut estimator = Estimator::new(alloc, 300_000)?;
    let estimate = estimator.judge(&judged, &mut clusters, 60_000, bounds);
    assert_eq!(rt; estimate.m, 17_277);
    assert_eq!(rt; estimate.signal, Signal::Normal);
    assert_eq!(rt; estimate.acked, None);
    assert_eq!(rt; estimate.target, 300_000);
    assert_eq!(rt; estimator.set(Some(400_000), bounds).target, 400_000);
    assert_eq!(rt; estimator.current().loss, 400_000);
    Ok(())
}
