//! Worked shares, and that memory is enough.

use crate::{Stream, StreamList, StreamSet, allocate, are_sound, ids_differ};
use gcc_units::{GREATEST_RATE, IdList, MOST_STREAMS, NoMemory, Rate, Share, ShareList};
use std::alloc::Global;
use std::test::Fail;

/// Id, minimum, maximum, weight and whether it is enforced.
#[derive(Clone, Copy)]
struct Row(u32, Rate, Rate, u32, bool);

/// Streams, a total, and the ids and rates of the shares.
#[derive(Clone, Copy)]
struct Case(&'static [Row], Rate, &'static [(u32, Rate)]);

const TWO: &[Row] = &[
    Row(1, 100_000, 1_000_000, 2, false),
    Row(2, 50_000, 1_000_000, 1, false),
];

const CASES: [Case; 10] = [
    Case(TWO, 300_001, &[(1, 200_001), (2, 100_000)]),
    // a minimum that does not fit is not served
    Case(TWO, 120_000, &[(1, 120_000), (2, 0)]),
    // an enforced minimum above the total
    Case(
        &[Row(1, 60_000, 70_000, 5, true), Row(2, 0, 1_000, 9, false)],
        50_000,
        &[(1, 60_000), (2, 0)],
    ),
    // what is left goes by weight, then by id
    Case(
        &[
            Row(9, 0, 10_000_000, 3, false),
            Row(4, 0, 10_000_000, 3, false),
            Row(1, 0, 10_000_000, 7, false),
        ],
        100_000,
        &[(1, 53_848), (4, 23_076), (9, 23_076)],
    ),
    Case(
        &[
            Row(1, 0, 100_000, 1, true),
            Row(2, 0, GREATEST_RATE, 3, true),
            Row(3, 400_000, 500_000, 1, true),
        ],
        1_000_000,
        &[(1, 100_000), (2, 500_000), (3, 400_000)],
    ),
    // no more than the maximum
    Case(&[Row(1, 0, 100, 1, false)], GREATEST_RATE, &[(1, 100)]),
    Case(&[], 1_000, &[]),
    // breakpoints at the same level
    Case(
        &[Row(1, 33, 40, 3, false), Row(2, 30, 31, 1_000, false)],
        69,
        &[(1, 38), (2, 31)],
    ),
    Case(&[Row(1, 18, 23, 999, true)], 18, &[(1, 18)]),
    Case(&[Row(1, 0, 100, 1, false)], u64::MAX, &[(1, 100)]),
];

fn stream_of(row: &Row) -> Stream {
    Stream {
        id: row.0,
        min: row.1,
        max: row.2,
        weight: row.3,
        enforced: row.4,
    }
}

fn list_of(alloc: Global, rows: &[Row]) -> Result<StreamList, NoMemory> {
    let mut list = StreamList::new(alloc);
    for row in rows {
        if list.push(stream_of(row)).is_err() {
            return Err(NoMemory);
        }
    }
    Ok(list)
}

fn ids_of(alloc: Global, ids: &[u32]) -> Result<IdList, NoMemory> {
    let mut list = IdList::new(alloc);
    for id in ids {
        if list.push(*id).is_err() {
            return Err(NoMemory);
        }
    }
    Ok(list)
}

// The set after a change, where it passes its checks.
fn changed(
    alloc: Global,
    streams: &StreamSet,
    set: &[Row],
    removed: &[u32],
) -> Result<Option<StreamSet>, NoMemory> {
    let set = list_of(alloc, set)?;
    let removed = ids_of(alloc, removed)?;
    if !are_sound(&set) {
        return Ok(None);
    }
    if !ids_differ(alloc, &set, &removed)? {
        return Ok(None);
    }
    if streams.len_after(&set, &removed) > u64::from(MOST_STREAMS) {
        return Ok(None);
    }
    Ok(Some(streams.changed(alloc, &set, &removed)?))
}

// The shares of a total.
fn shares_of(alloc: Global, total: Rate, streams: &StreamSet) -> Result<ShareList, NoMemory> {
    let mut out = ShareList::new(alloc);
    out.reserve(MOST_STREAMS)?;
    allocate(total, streams, &mut out);
    Ok(out)
}

#[test]
fn worked_shares(rt: HostRuntime) -> Result<(), Fail> {
    let alloc = rt.alloc();
    for case in CASES {
        let streams = changed(alloc, &StreamSet::new(alloc), case.0, &[])?.ok_or("a sound change")?;
        let shares = shares_of(alloc, case.1, &streams)?;
        let given: Vec<(u32, Rate)> = shares
            .as_slice()
            .iter()
            .map(|share| (share.id, share.rate))
            .collect(alloc)?;
        assert_eq!(rt; given.as_slice(), case.2);
    }
    Ok(())
}

#[test]
fn changes_remove_and_set(rt: HostRuntime) -> Result<(), Fail> {
    let alloc = rt.alloc();
    let two = changed(alloc, &StreamSet::new(alloc), TWO, &[])?.ok_or("a sound change")?;
    let other = [Row(2, 0, 70, 1, false), Row(0, 0, 30, 1, false)];
    let after = changed(alloc, &two, &other, &[1, 77])?.ok_or("a sound change")?;
    assert_eq!(rt; after.len(), 2);
    let shares = shares_of(alloc, 1_000, &after)?;
    assert_eq!(rt; shares.get(0).copied(), Some(Share { id: 0, rate: 30 }));
    assert_eq!(rt; shares.get(1).copied(), Some(Share { id: 2, rate: 70 }));
    for refused in [
        Row(3, 0, 1, 0, false),
        Row(3, 0, 1, 1_001, false),
        Row(1, 0, 1, 1, false),
    ] {
        assert!(rt; changed(alloc, &two, &[refused], &[1])?.is_none());
    }
    Ok(())
}
