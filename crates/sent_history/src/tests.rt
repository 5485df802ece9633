//! What no clause says: the worked runs, and that memory is not wanting.

ghost use Rattle.std.specs.Prelude.{◌≡◌, ◌+◌, ◌^◌, ◌<◌};

use crate::{History, Outgoing};
use gcc_units::Credit;
use std::alloc::Global;
use std::process::Abort;
use std::test::Fail;
use twcc_report::read_compact;

const ONE_REPORT: &[u8] = &[
    0x8f, 0xcd, 0x00, 0x06, 0x00, 0x00, 0x00, 0x01, 0x00, 0x00, 0x00, 0x02, 0x00, 0x00, 0x00, 0x03,
    0x00, 0x00, 0x01, 0x00, 0x20, 0x03, 0x04, 0x08, 0x00, 0x00, 0x00, 0x00,
];

const PADDED_REPORT: &[u8] = &[
    0xaf, 0xcd, 0x00, 0x06, 0x00, 0x00, 0x00, 0x01, 0x00, 0x00, 0x00, 0x02, 0x00, 0x00, 0x00, 0x03,
    0x00, 0x00, 0x01, 0x00, 0x20, 0x03, 0x04, 0x08, 0x00, 0x00, 0x00, 0x03,
];

const SECOND_OF_TWO: &[u8] = &[
    0x8f, 0xcd, 0x00, 0x05, 0x00, 0x00, 0x00, 0x01, 0x00, 0x00, 0x00, 0x02, 0x00, 0x00, 0x00, 0x02,
    0x00, 0x00, 0x01, 0x00, 0x90, 0x00, 0x04, 0x00,
];

const FIRST_LATER: &[u8] = &[
    0x8f, 0xcd, 0x00, 0x05, 0x00, 0x00, 0x00, 0x01, 0x00, 0x00, 0x00, 0x02, 0x00, 0x00, 0x00, 0x01,
    0x00, 0x00, 0x01, 0x01, 0x20, 0x01, 0x0c, 0x00,
];

const ONE_STATUS: &[u8] = &[
    0x8f, 0xcd, 0x00, 0x05, 0x00, 0x00, 0x00, 0x01, 0x00, 0x00, 0x00, 0x02, 0x00, 0x00, 0x00, 0x01,
    0x00, 0x00, 0x01, 0x00, 0x20, 0x01, 0x04, 0x00,
];

const STATUS_OF_ONE: &[u8] = &[
    0x8f, 0xcd, 0x00, 0x05, 0x00, 0x00, 0x00, 0x01, 0x00, 0x00, 0x00, 0x02, 0x00, 0x01, 0x00, 0x01,
    0x00, 0x00, 0x01, 0x00, 0x20, 0x01, 0x04, 0x00,
];

const NOTHING_BUT_REFERENCE: &[u8] = &[
    0x8f, 0xcd, 0x00, 0x05, 0x00, 0x00, 0x00, 0x01, 0x00, 0x00, 0x00, 0x02, 0x00, 0x09, 0x00, 0x01,
    0x7f, 0xff, 0xff, 0x00, 0x20, 0x01, 0x04, 0x00,
];

const WRAPPED_REFERENCE: &[u8] = &[
    0x8f, 0xcd, 0x00, 0x05, 0x00, 0x00, 0x00, 0x01, 0x00, 0x00, 0x00, 0x02, 0x00, 0x00, 0x00, 0x01,
    0x80, 0x00, 0x00, 0x00, 0x20, 0x01, 0x04, 0x00,
];

const NEXT_REFERENCE: &[u8] = &[
    0x8f, 0xcd, 0x00, 0x05, 0x00, 0x00, 0x00, 0x01, 0x00, 0x00, 0x00, 0x02, 0x00, 0x01, 0x00, 0x01,
    0x80, 0x00, 0x01, 0x00, 0x20, 0x01, 0x04, 0x00,
];

const FALLING_ARRIVALS: &[u8] = &[
    0x8f, 0xcd, 0x00, 0x06, 0x00, 0x00, 0x00, 0x01, 0x00, 0x00, 0x00, 0x02, 0x00, 0x00, 0x00, 0x03,
    0x00, 0x00, 0x01, 0x00, 0x40, 0x03, 0x0b, 0xb8, 0xf6, 0x3c, 0xfe, 0xd4,
];

/// 65,535 statuses, none of them received.
const ALL_LOST: &[u8] = &[
    0x8f, 0xcd, 0x00, 0x09, 0x00, 0x00, 0x00, 0x01, 0x00, 0x00, 0x00, 0x02, 0x00, 0x00, 0xff, 0xff,
    0x00, 0x00, 0x01, 0x00, 0x1f, 0xff, 0x1f, 0xff, 0x1f, 0xff, 0x1f, 0xff, 0x1f, 0xff, 0x1f, 0xff,
    0x1f, 0xff, 0x1f, 0xff, 0x00, 0x07, 0x00, 0x00,
];

/// A report, the numbers and arrivals that it credits, how many are missing, unknown and repeated, and how
/// many packets are outstanding then.
#[derive(Clone, Copy)]
struct Row(&'static [u8], &'static [(u64, i64)], u32, u32, u32, u32);

/// Some packets, and reports on them.
#[derive(Clone, Copy)]
struct Run(u64, &'static [Row]);

const RUNS: [Run; 7] = [
    // one report, and the report twice
    Run(
        3,
        &[
            Row(ONE_REPORT, &[(0, 260), (1, 268), (2, 268)], 0, 0, 0, 0),
            Row(ONE_REPORT, &[], 0, 0, 3, 0),
        ],
    ),
    // report with padding
    Run(
        3,
        &[Row(PADDED_REPORT, &[(0, 260), (1, 268), (2, 268)], 0, 0, 0, 0)],
    ),
    // late arrival
    Run(
        2,
        &[
            Row(SECOND_OF_TWO, &[(1, 260)], 1, 0, 0, 1),
            Row(SECOND_OF_TWO, &[], 0, 0, 2, 1),
            Row(FIRST_LATER, &[(0, 268)], 0, 0, 0, 0),
        ],
    ),
    // report of one unknown
    Run(0, &[Row(ONE_STATUS, &[], 0, 1, 0, 0)]),
    // a run of lost packets, twice, and the packets after all
    Run(
        3,
        &[
            Row(ALL_LOST, &[], 3, 65_532, 0, 3),
            Row(ALL_LOST, &[], 0, 65_532, 3, 3),
            Row(ONE_REPORT, &[(0, 260), (1, 268), (2, 268)], 0, 0, 0, 0),
        ],
    ),
    // references that wrap, moved by a report that credits nothing
    Run(
        2,
        &[
            Row(NOTHING_BUT_REFERENCE, &[], 0, 1, 0, 2),
            Row(WRAPPED_REFERENCE, &[(0, 2_147_483_652)], 0, 0, 0, 1),
            Row(NEXT_REFERENCE, &[(1, 2_147_483_908)], 0, 0, 0, 0),
        ],
    ),
    // negative deltas
    Run(
        3,
        &[Row(
            FALLING_ARRIVALS,
            &[(0, 3_256), (1, 756), (2, 456)],
            0,
            0,
            0,
            0,
        )],
    ),
];

fn packet(number: u64) -> Outgoing
    requires { number < 2 ^ 20 }
    ensures { result.sent_at ≡ 1000 + number }
{
    Outgoing {
        sent_at: 1_000 + number,
        size: 20,
        cluster: if number % 2 == 1 {
            Some(number as u32)
        } else {
            None
        },
    }
}

fn credit(number: u64, arrival: i64) -> Credit
    requires { number < 2 ^ 20 }
{
    let sent = packet(number);
    Credit {
        number,
        sent_at: sent.sent_at,
        arrival,
        size: sent.size,
        cluster: sent.cluster,
    }
}

fn run_agrees(rt: &impl Abort, alloc: Global, run: &Run) -> Result<(), Fail> {
    let Run(packets, rows) = *run;
    assert!(rt; packets <= 65_537 && rows.len() <= 3);
    let mut history = History::new(alloc)?;
    for number in 0..packets {
        assert_eq!(rt; history.add(packet(number)), number);
    }
    assert_eq!(rt; history.sent(), packets);
    assert_eq!(rt; u64::from(history.outstanding()), packets.min(32_768));
    for row in rows {
        let Row(bytes, credits, missing, unknown, repeated, outstanding) = *row;
        let report = read_compact(alloc, bytes)?;
        let judged = history.credit(alloc, &report)?;
        let received = judged.received.as_slice();
        assert_eq!(rt; received.len(), credits.len());
        for (got, (number, arrival)) in received.iter().zip(credits) {
            assert!(rt; *number < 65_537);
            assert_eq!(rt; *got, credit(*number, *arrival));
        }
        assert_eq!(rt;
            (judged.missing, judged.unknown, judged.repeated),
            (missing, unknown, repeated)
        );
        assert_eq!(rt; history.outstanding(), outstanding);
    }
    Ok(())
}

#[test]
fn worked_runs(rt: HostRuntime) -> Result<(), Fail> {
    for run in &RUNS {
        run_agrees(&rt, rt.alloc(), run)?;
    }
    Ok(())
}

// With 32,769 packets the oldest is no longer kept.
const KEPT_RUN: Run = Run(
    32_769,
    &[
        Row(ONE_STATUS, &[], 0, 1, 0, 32_768),
        Row(STATUS_OF_ONE, &[(1, 260)], 0, 0, 0, 32_767),
        // 0 is not kept, and 1 is credited
        Row(ALL_LOST, &[], 32_767, 32_767, 1, 32_767),
    ],
);

#[test]
fn kept_packets(rt: HostRuntime) -> Result<(), Fail> {
    run_agrees(&rt, rt.alloc(), &KEPT_RUN)
}

const WRAP_RUN: Run = Run(
    65_537,
    &[
        Row(ONE_STATUS, &[(65_536, 260)], 0, 0, 0, 32_767),
        // 65,536 is credited, and 1 to 32,768 are not kept
        Row(ALL_LOST, &[], 32_766, 32_768, 1, 32_767),
    ],
);

#[test]
fn number_wrap(rt: HostRuntime) -> Result<(), Fail> {
    run_agrees(&rt, rt.alloc(), &WRAP_RUN)
}

#[test]
fn many_adds(rt: HostRuntime) -> Result<(), Fail> {
    let mut history = History::new(rt.alloc())?;
    for _number in 0..8_000_000_u64 {
        history.add(packet(0));
    }
    assert_eq!(rt; history.sent(), 8_000_000);
    assert_eq!(rt; history.outstanding(), 32_768);
    Ok(())
}
