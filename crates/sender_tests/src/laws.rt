//! The numbers of the laws on journals. A call is a line: of a packet with its class and size, of a
//! report with its bytes, of a change with its keys. A row is a line too, in the words of
//! tests/span_table/table.py.

use gcc_units::{Bytes, Class, Level, NoMemory, Sequence};
use send_core::{ApplyFault, BoxedChange, Call, Change, Sender};
use send_laws::{ClusterSpan, PacketCounts, Span, balance, span_cluster, span_media, span_padding};
use std::alloc::Global;
use std::test::Fail;

const VIDEO: [u8; 20] = [
    0x90, 0x60, 0, 1, 0, 0, 0, 0, 0, 0, 0, 0xaa, 0xbe, 0xde, 0, 1, 0x31, 0, 0, 0,
];

const AUDIO: [u8; 20] = [
    0x90, 0x6f, 0, 1, 0, 0, 0, 0, 0, 0, 0, 0xbb, 0xbe, 0xde, 0, 1, 0x31, 0, 0, 0,
];

// The field of a line at a place, counted from 0.
fn field(line: &str, k: usize) -> &str {
    line.split(' ').nth(k).unwrap_or("")
}

fn number(line: &str, k: usize) -> u64 {
    field(line, k).parse::<u64>().unwrap_or(0)
}

fn small(line: &str, k: usize) -> u32 {
    field(line, k).parse::<u32>().unwrap_or(0)
}

fn append(bytes: &mut Bytes, byte: u8) -> Result<(), NoMemory> {
    match bytes.push(byte) {
        Ok(()) => Ok(()),
        Err((fault, _)) => Err(fault),
    }
}

fn class_of(name: &str) -> Class {
    match name {
        "a" => Class::Audio,
        "r" => Class::Retransmission,
        "f" => Class::Fec,
        _ => Class::Video,
    }
}

// The first bytes of a small packet and zeros, so many in all.
fn packet_of(alloc: Global, class: Class, size: u32) -> Result<Bytes, NoMemory> {
    let head = match class {
        Class::Audio => AUDIO,
        Class::Retransmission | Class::Video | Class::Fec => VIDEO,
    };
    let mut bytes = Bytes::new(alloc);
    for k in 0..size {
        append(&mut bytes, *head.get(k as usize).unwrap_or(&0))?;
    }
    Ok(bytes)
}

// The bytes of a report, which stand behind its moment.
fn report_of(alloc: Global, line: &str) -> Result<Bytes, NoMemory> {
    let mut bytes = Bytes::new(alloc);
    for byte in line.split(' ').skip(2) {
        append(&mut bytes, byte.parse::<u8>().unwrap_or(0))?;
    }
    Ok(bytes)
}

// Sets what a key names.
fn set(change: &mut Change, key: &str, value: u64) {
    match key {
        "start" => change.start = Some(value),
        "min" => change.min = Some(value),
        "max" => change.max = Some(value),
        "pacing_percent" => change.pacing_percent = Some(value),
        "window" => change.window = Some(value),
        "padding_rate" => change.padding_rate = Some(value),
        "paced_audio" => change.paced_audio = Some(value == 1),
        "probe" => change.probe = Some(value),
        _ => (),
    }
}

fn no_change(alloc: Global) -> Change {
    Change {
        streams: Sequence::new(alloc),
        removed: Sequence::new(alloc),
        start: None,
        min: None,
        max: None,
        pacing_percent: None,
        window: None,
        padding_rate: None,
        paced_audio: None,
        extension_id: None,
        probe: None,
    }
}

// A change of the keys that stand behind the moment, each with its value: three at most.
fn change_of(alloc: Global, line: &str) -> Change {
    let mut change = no_change(alloc);
    for k in 1..4 {
        set(&mut change, field(line, 2 * k), number(line, 2 * k + 1));
    }
    change
}

fn call_of(alloc: Global, line: &str) -> Result<Call, NoMemory> {
    let at = number(line, 1);
    Ok(match field(line, 0) {
        "E" => {
            let class = class_of(field(line, 2));
            let wire = packet_of(alloc, class, small(line, 3))?;
            Call::Enqueue { at, class, wire }
        }
        "R" => {
            let bytes = report_of(alloc, line)?;
            Call::Report { at, bytes }
        }
        "C" => {
            let change = BoxedChange::new(alloc, change_of(alloc, line))?;
            Call::Configure { at, change }
        }
        _ => Call::Pace { at },
    })
}

fn serve(sender: &mut Sender, alloc: Global, call: Call) -> Result<(), ApplyFault> {
    match sender.apply(alloc, 0, call) {
        Ok(_) => Ok(()),
        Err((fault, _)) => Err(fault),
    }
}

// A new sender that serves these calls.
fn sender_of(alloc: Global, calls: &str) -> Result<Sender, Fail> {
    let mut sender = Sender::new(alloc)?;
    for line in calls.lines() {
        serve(&mut sender, alloc, call_of(alloc, line)?)?;
    }
    Ok(sender)
}

// The span whose numbers stand in a row from a place on.
fn span_of(row: &str, place: u8) -> Span {
    let k = usize::from(place);
    Span {
        bytes: number(row, k),
        integral: Level::from(number(row, k + 1)),
        window: Level::from(number(row, k + 2)),
        last: small(row, k + 3),
    }
}

fn spans_agree(sender: &Sender, row: &str) -> bool {
    let (i, j) = (small(row, 1), small(row, 2));
    if i > j || j >= sender.journal().len() {
        return false;
    }
    span_media(sender, i, j) == span_of(row, 4) && span_padding(sender, i, j) == span_of(row, 9)
}

fn cluster_agrees(sender: &Sender, row: &str) -> bool {
    let want = match field(row, 2) {
        "none" => None,
        _ => Some(ClusterSpan {
            before_last: number(row, 2),
            rate: number(row, 3),
            time: number(row, 4),
        }),
    };
    span_cluster(sender, small(row, 1)) == want
}

fn balance_agrees(sender: &Sender, row: &str) -> bool {
    balance(sender)
        == PacketCounts {
            sent: number(row, 1),
            credited: number(row, 2),
            outstanding: number(row, 3),
            expired: number(row, 4),
        }
}

fn agrees(sender: &Sender, row: &str) -> bool {
    match field(row, 0) {
        "entries" => spans_agree(sender, row),
        "cluster" => cluster_agrees(sender, row),
        "balance" => balance_agrees(sender, row),
        _ => false,
    }
}

/// How many rows agree with what is answered after the calls.
pub(crate) fn agreeing(alloc: Global, calls: &str, rows: &str) -> Result<usize, Fail> {
    let sender = sender_of(alloc, calls)?;
    Ok(rows.lines().filter(|row| agrees(&sender, row)).count())
}

// Three packets, and the greatest rate lowered before they have left.
#[test]
fn media_over_a_lowered_rate(rt: HostRuntime) -> Result<(), Fail> {
    let calls = "C 0 window 500000
E 0 v 1200
E 0 v 1200
E 0 v 1200
P 1
C 10001 max 30000
P 37991
P 37992";
    let row = "entries 0 7 media 2400 9600075000 3750000000 1200 padding 0 0 0 0";
    assert_eq!(rt; agreeing(rt.alloc(), calls, row)?, 1);
    Ok(())
}

// The report names numbers 0, 1 and 2 received.
#[test]
fn report_twice_credits_once(rt: HostRuntime) -> Result<(), Fail> {
    let calls = "E 0 a 20
E 0 a 20
E 0 a 20
P 1000
R 50000 143 205 0 6 0 0 0 1 0 0 0 2 0 0 0 3 0 0 1 0 32 3 4 8 0 0 0 0
R 60000 143 205 0 6 0 0 0 1 0 0 0 2 0 0 0 3 0 0 1 0 32 3 4 8 0 0 0 0";
    assert_eq!(rt; agreeing(rt.alloc(), calls, "balance 3 3 0 0")?, 1);
    Ok(())
}

#[test]
fn cluster_of_a_first_start(rt: HostRuntime) -> Result<(), Fail> {
    let calls = "C 0 start 300000
P 0
P 2275
P 2276";
    let rows = "cluster 0 256 900000 2276
cluster 1 none";
    assert_eq!(rt; agreeing(rt.alloc(), calls, rows)?, 2);
    Ok(())
}
