//! Runs that an independent program made from the rules alone.

use super::*;
use link_path::{LinkSettings, ReportList};
use std::test::Fail;
use twcc_report::Status;

/// A run, and what it ends with.
#[derive(Drop)]
struct Row {
    rate: u64,
    queue: u64,
    delay: u64,
    millis: u32,
    calls: u32,
    delivered: u32,
    dropped: u32,
    inside: u32,
    reported: u32,
    target: u64,
}

/// How many packets were told of as received.
fn received(reports: &ReportList) -> u32 {
    let mut count: u32 = 0;
    for report in reports.as_slice() {
        for status in report.statuses.as_slice() {
            if *status != Status::NotReceived {
                count = count.wrapping_add(1);
            }
        }
    }
    count
}

#[test]
fn runs_over_links(rt: HostRuntime) -> Result<(), Fail> {
    let rows = [
        Row {
            rate: 1_000_000,
            queue: 20_000,
            delay: 20_000,
            millis: 1,
            calls: 5,
            delivered: 0,
            dropped: 0,
            inside: 2,
            reported: 0,
            target: 300_000,
        },
        Row {
            rate: 1_000_000,
            queue: 20_000,
            delay: 20_000,
            millis: 91,
            calls: 34,
            delivered: 20,
            dropped: 0,
            inside: 4,
            reported: 20,
            target: 945_840,
        },
        Row {
            rate: 100_000,
            queue: 3_000,
            delay: 0,
            millis: 20_000,
            calls: 6_024,
            delivered: 1_350,
            dropped: 279,
            inside: 15,
            reported: 1_348,
            target: 77_142,
        },
    ];
    for row in &rows {
        let settings = LinkSettings {
            rate: row.rate,
            queue: row.queue,
            delay: row.delay,
        };
        let end = run_loop(rt.alloc(), settings, row.millis)?;
        assert_eq!(rt; end.sender.journal().len(), row.calls);
        assert_eq!(rt; end.delivered.len(), row.delivered);
        assert_eq!(rt; end.dropped.len(), row.dropped);
        assert_eq!(rt; end.inside.len(), row.inside);
        assert_eq!(rt; received(&end.reports), row.reported);
        assert_eq!(rt; end.sender.target(), row.target);
    }
    Ok(())
}
