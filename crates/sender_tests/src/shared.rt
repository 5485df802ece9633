ghost use Rattle.std.specs.Prelude.{◌≡◌, ◌<◌, ◌≤◌, [], length, IfOk};
ghost use Rattle.turn_lock.specs.Seats.{new_seat};

use gcc_units::{Bytes, Class, NoMemory, Sequence};
use send_core::{BoxedChange, Change, Rates, Reply, Sender};
use shared_sender::{Glance, SenderSeat, SenderSeats, Shared};
use std::alloc::Global;
use std::sync::Wait;
use std::test::Fail;
use std::thread::{Threads, join_mut};

/// A shared sender with two seats, and a list with room for them.
struct TwoSeats {
    shared: Shared,
    first: SenderSeat,
    second: SenderSeat,
    room: SenderSeats,
}

fn opened(alloc: Global) -> Result<TwoSeats, Fail>
    ensures count { IfOk result (λ o. o.shared.seats ≡ 2) }
    ensures first { IfOk result (λ o. o.first ≡ new_seat o.shared.of 0) }
    ensures second { IfOk result (λ o. o.second ≡ new_seat o.shared.of 1) }
    ensures room { IfOk result (λ o. (o.room.items ≡ []) × (2 ≤ o.room.spare)) }
{
    let sender = Sender::new(alloc)?;
    let Ok((shared, mut room)) = Shared::new(alloc, sender, 2) else {
        return Err("there is memory".into());
    };
    let Some(second) = room.pop() else {
        unreachable!()
    };
    let Some(first) = room.pop() else {
        unreachable!()
    };
    Ok(TwoSeats {
        shared,
        first,
        second,
        room,
    })
}

fn closed(alloc: Global, opened: TwoSeats) -> Option<Sender>
    requires count { opened.shared.seats ≡ 2 }
    requires first { (opened.first.of ≡ opened.shared.of) × (opened.first.number ≡ 0) }
    requires second { (opened.second.of ≡ opened.shared.of) × (opened.second.number ≡ 1) }
    requires room { (opened.room.items ≡ []) × (2 ≤ opened.room.spare) }
{
    let TwoSeats {
        shared,
        first,
        second,
        mut room,
    } = opened;
    room.put(first);
    room.put(second);
    shared.close(alloc, room).ok()
}

/// A video packet: the smallest one with the element of the number.
const VIDEO: [u8; 20] = [
    0x90, 0x60, 0, 1, 0, 0, 0, 0, 0, 0, 0, 0xaa, 0xbe, 0xde, 0, 1, 0x31, 0, 0, 0,
];

/// An audio packet: the smallest one with the element of the number.
const AUDIO: [u8; 20] = [
    0x90, 0x6f, 0, 1, 0, 0, 0, 0, 0, 0, 0, 0xbb, 0xbe, 0xde, 0, 1, 0x31, 0, 0, 0,
];

/// Enqueues a packet, and answers whether it was accepted with this index at its moment.
fn is_accepted<R: Wait>(
    rt: &R,
    alloc: Global,
    shared: &Shared,
    seat: &mut SenderSeat,
    at: u64,
    class: Class,
    index: u32,
) -> Result<bool, Fail>
    requires { seat.old.of ≡ shared.now.of }
    ensures { (seat.new.of ≡ seat.old.of) × (seat.new.number ≡ seat.old.number) }
{
    let bytes = match class {
        Class::Audio => AUDIO.to_vec(alloc)?,
        _ => VIDEO.to_vec(alloc)?,
    };
    if bytes.len() != 20 {
        return Ok(false);
    }
    let Ok(reply) = shared.enqueue(rt, alloc, seat, at, class, Bytes::from_vec(bytes)) else {
        return Ok(false);
    };
    Ok(match reply {
        Reply::Accepted {
            at: moment,
            index: place,
        } => moment == at && place == index,
        _ => false,
    })
}

/// How many calls of whose number stand in the journal.
fn entries_of(sender: &Sender, caller: u32) -> u32 {
    let mut count = 0;
    for k in 0..sender.journal().len() {
        if let Some(entry) = sender.journal().entry(k) {
            if entry.caller == caller {
                count += 1;
            }
        }
    }
    count
}

// What is seen after so many calls at the first target.
fn seen(calls: u32) -> Glance {
    Glance {
        calls,
        target: 300_000,
    }
}

#[test]
fn a_glance_sees_what_the_other_seat_did(rt: HostRuntime) -> Result<(), Fail> {
    let alloc = rt.alloc();
    let TwoSeats {
        shared,
        mut first,
        mut second,
        room,
    } = opened(alloc)?;
    assert!(rt; is_accepted(&rt, alloc, &shared, &mut first, 1000, Class::Video, 0)?);
    assert_eq!(rt; shared.glance(&mut second), seen(1));
    assert!(rt; is_accepted(&rt, alloc, &shared, &mut first, 1100, Class::Audio, 1)?);
    let note = shared.note(&mut first);
    shared.hear(&mut second, note);
    assert_eq!(rt; shared.glance(&mut second), seen(2));
    let Some(sender) = closed(
        alloc,
        TwoSeats {
            shared,
            first,
            second,
            room,
        },
    ) else {
        return Err("it did not close".into());
    };
    assert_eq!(rt; sender.journal().len(), 2);
    assert_eq!(rt; entries_of(&sender, 0), 2);
    Ok(())
}

/// The moment of a pace, and how many packets it sent.
fn paced(reply: &Reply) -> Option<(u64, u32)> {
    match reply {
        Reply::Paced { at, sent } => Some((*at, sent.len())),
        _ => None,
    }
}

// Three audio packets leave at once, each stamped.
#[test]
fn packets_leave_with_a_pace(rt: HostRuntime) -> Result<(), Fail> {
    let alloc = rt.alloc();
    let TwoSeats {
        shared,
        mut first,
        mut second,
        room: _room,
    } = opened(alloc)?;
    assert!(rt; is_accepted(&rt, alloc, &shared, &mut first, 0, Class::Audio, 0)?);
    assert!(rt; is_accepted(&rt, alloc, &shared, &mut second, 0, Class::Audio, 1)?);
    assert!(rt; is_accepted(&rt, alloc, &shared, &mut first, 0, Class::Audio, 2)?);
    let Ok(answer) = shared.pace(&rt, alloc, &mut second, 1000) else {
        return Err("there is memory".into());
    };
    assert_eq!(rt; answer.wires.len(), 3);
    assert_eq!(rt; answer.wires.get(0), Some(AUDIO.as_slice()));
    assert_eq!(rt; paced(&answer.reply), Some((1000, 3)));
    Ok(())
}

/// A report on the first three packets: all came.
const REPORT: [u8; 28] = [
    0x8f, 0xcd, 0, 6, 0, 0, 0, 1, 0, 0, 0, 2, 0, 0, 0, 3, 0, 0, 1, 0, 0x20, 3, 4, 8, 0, 0, 0, 0,
];

/// The numbers and arrivals that a reply credits, in their order, of three at most.
fn credited(reply: &Reply) -> Option<[(u64, i64); 3]> {
    match reply {
        Reply::Credited { judged, .. } => match judged.received.as_slice() {
            [a, b, c] => Some([
                (a.number, a.arrival),
                (b.number, b.arrival),
                (c.number, c.arrival),
            ]),
            _ => None,
        },
        _ => None,
    }
}

fn report_bytes(alloc: Global) -> Result<Bytes, Fail> {
    let mut bytes = Bytes::new(alloc);
    for byte in REPORT {
        bytes.push(byte).ok().ok_or("there is room")?;
    }
    Ok(bytes)
}

#[test]
fn a_report_credits_what_left(rt: HostRuntime) -> Result<(), Fail> {
    let alloc = rt.alloc();
    let TwoSeats {
        shared,
        mut first,
        mut second,
        room: _room,
    } = opened(alloc)?;
    assert!(rt; is_accepted(&rt, alloc, &shared, &mut first, 0, Class::Audio, 0)?);
    assert!(rt; is_accepted(&rt, alloc, &shared, &mut first, 0, Class::Audio, 1)?);
    assert!(rt; is_accepted(&rt, alloc, &shared, &mut first, 0, Class::Audio, 2)?);
    assert!(rt; shared.pace(&rt, alloc, &mut first, 1000).is_ok());
    let Ok(reply) = shared.report(&rt, alloc, &mut second, 50_000, report_bytes(alloc)?) else {
        return Err("there is memory".into());
    };
    assert_eq!(rt; credited(&reply), Some([(0, 260), (1, 268), (2, 268)]));
    Ok(())
}

/// The change of nothing but the greatest estimate.
fn lowered(alloc: Global, max: u64) -> Result<BoxedChange, NoMemory> {
    let change = Change {
        streams: Sequence::new(alloc),
        removed: Sequence::new(alloc),
        start: None,
        min: None,
        max: Some(max),
        pacing_percent: None,
        window: None,
        padding_rate: None,
        paced_audio: None,
        extension_id: None,
        probe: None,
    };
    BoxedChange::new(alloc, change)
}

fn rates(reply: &Reply) -> Option<Rates> {
    match reply {
        Reply::Configured { rates, .. } => Some(*rates),
        _ => None,
    }
}

#[test]
fn a_change_is_seen_by_a_glance(rt: HostRuntime) -> Result<(), Fail> {
    let alloc = rt.alloc();
    let TwoSeats {
        shared,
        mut first,
        mut second,
        room: _room,
    } = opened(alloc)?;
    let Ok(reply) = shared.configure(&rt, alloc, &mut first, 0, lowered(alloc, 200_000)?) else {
        return Err("there is memory".into());
    };
    assert_eq!(rt;
        rates(&reply),
        Some(Rates {
            delay: 200_000,
            loss: 200_000,
            target: 200_000,
            pacing: 500_000
        })
    );
    assert_eq!(rt;
        shared.glance(&mut second),
        Glance {
            calls: 1,
            target: 200_000
        }
    );
    Ok(())
}

/// How many paces each thread makes.
const PACES: u32 = 500;

fn pace_often<R: Wait>(rt: &R, alloc: Global, shared: &Shared, seat: &mut SenderSeat)
    requires { seat.old.of ≡ shared.now.of }
    ensures { (seat.new.of ≡ seat.old.of) × (seat.new.number ≡ seat.old.number) }
{
    for k in 0..PACES {
        let _ = shared.pace(rt, alloc, seat, u64::from(k));
    }
}

// Two threads call at the same time, each on a seat of its own.
fn race<R: Threads + Wait + Sync>(
    rt: &R,
    alloc: Global,
    shared: &Shared,
    first: &mut SenderSeat,
    second: &mut SenderSeat,
)
    requires first { first.old.of ≡ shared.now.of }
    requires second { second.old.of ≡ shared.now.of }
    ensures first { (first.new.of ≡ first.old.of) × (first.new.number ≡ first.old.number) }
    ensures second { (second.new.of ≡ second.old.of) × (second.new.number ≡ second.old.number) }
{
    join_mut(
        rt,
        &mut || pace_often(rt, alloc, shared, first),
        &mut || pace_often(rt, alloc, shared, second),
    );
}

#[test]
fn two_threads(rt: HostRuntime) -> Result<(), Fail> {
    let alloc = rt.alloc();
    let TwoSeats {
        shared,
        mut first,
        mut second,
        room,
    } = opened(alloc)?;
    race(&rt, alloc, &shared, &mut first, &mut second);
    let Some(sender) = closed(
        alloc,
        TwoSeats {
            shared,
            first,
            second,
            room,
        },
    ) else {
        return Err("it did not close".into());
    };
    assert_eq!(rt; entries_of(&sender, 0), PACES);
    assert_eq!(rt; entries_of(&sender, 1), PACES);
    Ok(())
}
