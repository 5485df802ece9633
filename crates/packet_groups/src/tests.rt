use super::*;
use gcc_units::{GREATEST_ARRIVAL, GREATEST_MOMENT};
use std::process::Abort;

// A credit's departure and arrival, and the delay, send gap and arrival gap of the sample that it gives.
#[derive(Clone, Copy)]
struct Row(u64, i64, Option<(i64, u64, i64)>);

#[test]
fn worked_sample(rt: HostRuntime) {
    run_agrees(
        &rt,
        &[
            Row(1_000, 260, None),
            Row(21_000, 380, None),
            Row(41_000, 460, Some((655_360, 20_000, 120))),
        ],
    );
}

// A group has the packets of 5 ms from its first one on.
#[test]
fn groups_by_departure(rt: HostRuntime) {
    run_agrees(
        &rt,
        &[
            Row(0, 0, None),
            Row(5_000, 100, None),
            Row(5_001, 200, None),
            Row(10_001, 300, None),
            Row(10_002, 400, Some((2_949_055, 5_001, 200))),
            Row(30_000, 500, Some((1_638_335, 1, 100))),
        ],
    );
}

// A later packet of a burst joins: it arrives less than 5 ms after the last one, and sooner than it was sent.
#[test]
fn groups_by_burst(rt: HostRuntime) {
    run_agrees(
        &rt,
        &[
            Row(0, 0, None),
            Row(6_000, 19, None),
            Row(12_000, 39, None),
            Row(18_000, 20, None),
            Row(23_000, 40, Some((-770_048, 12_000, 1))),
            Row(33_000, 59, None),
            Row(37_750, 78, Some((-344_064, 15_000, 39))),
        ],
    );
}

// What was sent before the last grouped credit is left out, and a sample's delay is cut.
#[test]
fn leaves_out_and_cuts(rt: HostRuntime) {
    run_agrees(
        &rt,
        &[
            Row(100_000, 1_000, None),
            Row(99_999, 5, None),
            Row(200_000, 1_400, None),
            Row(150_000, 1, None),
            Row(300_000, 1_800, Some((0, 100_000, 400))),
            Row(400_000, 90_000_000, Some((0, 100_000, 400))),
            Row(
                20_400_000,
                90_000_100,
                Some((655_360_000, 100_000, 89_998_200)),
            ),
            Row(
                20_500_000,
                90_000_500,
                Some((-655_360_000, 20_000_000, 100)),
            ),
            Row(GREATEST_MOMENT, GREATEST_ARRIVAL, Some((0, 100_000, 400))),
        ],
    );
}

fn run_agrees(rt: &impl Abort, rows: &[Row]) {
    let mut groups = Groups::new();
    for row in rows {
        let Row(sent_at, arrival, want) = *row;
        assert!(rt; sent_at <= GREATEST_MOMENT);
        assert!(rt; -GREATEST_ARRIVAL <= arrival && arrival <= GREATEST_ARRIVAL);
        let credit = Credit {
            number: 0,
            sent_at,
            arrival,
            size: 1_200,
            cluster: None,
        };
        let sample = groups.add(&credit);
        assert_eq!(rt;
            sample.map(|s| (s.d, s.send_gap, s.arrival_gap)),
            want,
            "at {sent_at}"
        );
    }
}
