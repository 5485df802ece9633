//! Rows that are worked by hand.

use super::*;
use std::test::Fail;
use twcc_report::Status;

// A link of 8 Mbit/s sends a byte a microsecond.
#[test]
fn link_of_eight_megabits(rt: HostRuntime) -> Result<(), Fail> {
    let settings = LinkSettings {
        rate: 8_000_000,
        queue: 3_000,
        delay: 10_000,
    };
    let mut link = Link::new(rt.alloc(), settings);
    assert_eq!(rt; link.offer(0, 1_500, 0)?, Fate::Arrives(11_500));
    assert_eq!(rt; link.offer(1, 1_500, 0)?, Fate::Arrives(13_000));
    assert_eq!(rt; link.offer(2, 20, 0)?, Fate::Dropped);
    assert_eq!(rt; link.offer(3, 1_500, 1_500)?, Fate::Arrives(14_500));
    let arrived = link.arrive(rt.alloc(), 11_500)?;
    assert_eq!(rt;
        arrived.as_slice(),
        [Arrival {
            number: 0,
            at: 11_500
        }]
        .as_slice()
    );
    assert_eq!(rt; link.inside(), 2);
    Ok(())
}

// The first delta counts from the reference, 256 quarter-milliseconds.
#[test]
fn receiver_of_two_packets(rt: HostRuntime) -> Result<(), Fail> {
    let mut receiver = Receiver::new(rt.alloc());
    receiver.take(&Arrival {
        number: 0,
        at: 65_000,
    })?;
    receiver.take(&Arrival {
        number: 2,
        at: 67_000,
    })?;
    let reports = receiver.reports(rt.alloc())?;
    assert_eq!(rt; reports.len(), 1);
    if let Some(report) = reports.get(0) {
        assert_eq!(rt; report.base, 0);
        assert_eq!(rt; report.reference, 1);
        let told = [Status::Small(4), Status::NotReceived, Status::Small(8)];
        assert_eq!(rt; report.statuses.as_slice(), told.as_slice());
    }
    Ok(())
}
