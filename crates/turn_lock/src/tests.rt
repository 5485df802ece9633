ghost use Rattle.std.specs.Prelude.{◌≡◌, ◌<◌, ◌≤◌, length, IfSome};
ghost use Rattle.std.specs.List.{All};
ghost use Rattle.std.specs.Thread.{IsSync};
ghost use Rattle.turn_lock.specs.Names.{names, all_names};

use crate::adder::{Adder, MOST, Refusal, Small};
use crate::{Note, SEATS, Seat, Turn};
use gcc_units::Sequence;
use std::alloc::Global;
use std::sync::Wait;
use std::test::Fail;
use std::thread::{Threads, join_mut};

// A turn over a new object, with the seats in a row.
fn opened(alloc: Global, seats: u32) -> Option<(Turn<Adder>, Vec<Seat<Adder>>)>
    requires { (1 ≤ seats) × (seats ≤ SEATS) }
    ensures seats { IfSome result (λ r. r.0.seats ≡ seats) }
    ensures names { IfSome result (λ r. names r.1.items ≡ all_names r.0.of r.0.seats) }
{
    let Ok((turn, seats)) = Turn::new(alloc, Adder::new(alloc), seats) else {
        return None;
    };
    Some((turn, seats.into_vec()))
}

// A call on the k-th seat.
fn ask<R: Wait>(
    rt: &R,
    alloc: Global,
    turn: &Turn<Adder>,
    seats: &mut Vec<Seat<Adder>>,
    k: usize,
    number: u32,
) -> Result<u64, (Refusal, u32)>
    requires names { names seats.old.items ≡ all_names turn.now.of turn.now.seats }
    requires at { k < turn.now.seats }
    requires small { number ≤ 1000 }
    ensures { names seats.new.items ≡ names seats.old.items }
{
    match turn.call(rt, alloc, &mut seats[k], Small::new(number)) {
        Ok(reply) => Ok(reply),
        Err((fault, back)) => Err((fault, back.number())),
    }
}

// What the k-th seat sees.
fn look(turn: &Turn<Adder>, seats: &mut Vec<Seat<Adder>>, k: usize) -> u64
    requires names { names seats.old.items ≡ all_names turn.now.of turn.now.seats }
    requires at { k < turn.now.seats }
    ensures { names seats.new.items ≡ names seats.old.items }
{
    turn.glance(&mut seats[k])
}

// A note of the k-th seat.
fn noted(turn: &Turn<Adder>, seats: &mut Vec<Seat<Adder>>, k: usize) -> Note<Adder>
    requires names { names seats.old.items ≡ all_names turn.now.of turn.now.seats }
    requires at { k < turn.now.seats }
    ensures names { names seats.new.items ≡ names seats.old.items }
    ensures of { result.of ≡ turn.now.of }
{
    turn.note(&mut seats[k])
}

// The k-th seat is told.
fn told(turn: &Turn<Adder>, seats: &mut Vec<Seat<Adder>>, k: usize, note: Note<Adder>)
    requires names { names seats.old.items ≡ all_names turn.now.of turn.now.seats }
    requires at { k < turn.now.seats }
    requires note { note.of ≡ turn.now.of }
    ensures { names seats.new.items ≡ names seats.old.items }
{
    turn.hear(&mut seats[k], note);
}

// The object at the end.
fn closed(alloc: Global, turn: Turn<Adder>, seats: Vec<Seat<Adder>>) -> Option<Adder>
    requires names { names seats.items ≡ all_names turn.of turn.seats }
    requires most { turn.seats ≤ SEATS }
{
    turn.close(alloc, Sequence::from_vec(seats)).ok()
}

#[test]
fn two_seats(rt: HostRuntime) -> Result<(), Fail> {
    let alloc = rt.alloc();
    let Some((turn, mut seats)) = opened(alloc, 2) else {
        panic!(rt; "there was no memory")
    };
    assert_eq!(rt; ask(&rt, alloc, &turn, &mut seats, 0, 4), Ok(4));
    assert_eq!(rt; look(&turn, &mut seats, 1), 4_194_305);
    assert_eq!(rt;
        ask(&rt, alloc, &turn, &mut seats, 1, 3),
        Err((Refusal::Odd, 3))
    );
    assert_eq!(rt; ask(&rt, alloc, &turn, &mut seats, 1, 6), Ok(10));
    assert_eq!(rt; look(&turn, &mut seats, 0), 10_485_762);
    let Some(adder) = closed(alloc, turn, seats) else {
        panic!(rt; "the turn did not close")
    };
    let [first, second] = adder.entries.as_slice() else {
        panic!(rt; "there are not two entries")
    };
    assert_eq!(rt; (first.caller, first.call.number(), first.reply), (0, 4, 4));
    assert_eq!(rt;
        (second.caller, second.call.number(), second.reply),
        (1, 6, 10)
    );
    Ok(())
}

#[test]
fn full_history(rt: HostRuntime) -> Result<(), Fail> {
    let alloc = rt.alloc();
    let Some((turn, mut seats)) = opened(alloc, 1) else {
        panic!(rt; "there was no memory")
    };
    for _ in 0..MOST {
        assert!(rt; ask(&rt, alloc, &turn, &mut seats, 0, 2).is_ok());
    }
    assert_eq!(rt;
        ask(&rt, alloc, &turn, &mut seats, 0, 2),
        Err((Refusal::Full, 2))
    );
    assert_eq!(rt;
        ask(&rt, alloc, &turn, &mut seats, 0, 3),
        Err((Refusal::Odd, 3))
    );
    assert_eq!(rt;
        look(&turn, &mut seats, 0),
        1_048_575 + 1_048_576 * 2_097_150
    );
    Ok(())
}

#[test]
fn a_note_is_heard(rt: HostRuntime) -> Result<(), Fail> {
    let alloc = rt.alloc();
    let Some((turn, mut seats)) = opened(alloc, SEATS) else {
        panic!(rt; "there was no memory")
    };
    assert_eq!(rt; ask(&rt, alloc, &turn, &mut seats, 3, 8), Ok(8));
    let note = noted(&turn, &mut seats, 3);
    told(&turn, &mut seats, 15, note);
    assert_eq!(rt; look(&turn, &mut seats, 15), 8_388_609);
    Ok(())
}

/// How many calls each of the eight threads makes.
const CALLS: u32 = 1_000;

// The calls of one thread, with their replies.
fn work<R: Wait>(
    rt: &R,
    alloc: Global,
    turn: &Turn<Adder>,
    seat: &mut Seat<Adder>,
    replies: &mut Vec<u64>,
)
    requires { seat.old.of ≡ turn.now.of }
    ensures { (seat.new.of ≡ seat.old.of) × (seat.new.number ≡ seat.old.number) }
{
    for k in 0..CALLS {
        if let Ok(reply) = turn.call(rt, alloc, seat, Small::new(2 * (k % 500))) {
            let _ = replies.push(reply);
        }
    }
}

// Each seat is worked by a thread of its own.
fn race<R: Threads + Wait + Sync>(
    rt: &R,
    alloc: Global,
    turn: &Turn<Adder>,
    seats: &mut [Seat<Adder>],
    replies: &mut [Vec<u64>],
)
    requires of { All (λ s. s.of ≡ turn.now.of) seats.old }
    requires beside { length replies.old ≡ length seats.old }
    ensures { names seats.new ≡ names seats.old }
{
    if seats.len() == 0 {
        return;
    }
    if seats.len() == 1 {
        work(rt, alloc, turn, &mut seats[0], &mut replies[0]);
        return;
    }
    let middle = seats.len() / 2;
    let (front, back) = seats.split_at_mut(middle);
    let (front_replies, back_replies) = replies.split_at_mut(middle);
    join_mut(
        rt,
        &mut ||
            requires { IsSync R.row × All (λ s. s.of ≡ turn.now.of) front.now × (length front_replies.now ≡ length front.now) }
            ensures { names front.exit.now ≡ names front.entry.now }
        { race(rt, alloc, turn, front, front_replies) },
        &mut ||
            requires { IsSync R.row × All (λ s. s.of ≡ turn.now.of) back.now × (length back_replies.now ≡ length back.now) }
            ensures { names back.exit.now ≡ names back.entry.now }
        { race(rt, alloc, turn, back, back_replies) },
    );
}

// Whether the replies are those of the caller's entries, in order.
fn are_replies(adder: &Adder, caller: u32, replies: &[u64]) -> bool {
    let mut next = 0;
    for entry in adder.entries.as_slice() {
        if entry.caller == caller {
            match replies.get(next) {
                Some(reply) if *reply == entry.reply => next += 1,
                _ => return false,
            }
        }
    }
    next == replies.len()
}

#[test]
fn eight_threads(rt: HostRuntime) -> Result<(), Fail> {
    let alloc = rt.alloc();
    let Some((turn, mut seats)) = opened(alloc, 8) else {
        panic!(rt; "there was no memory")
    };
    let mut replies = [
        Vec::new(alloc),
        Vec::new(alloc),
        Vec::new(alloc),
        Vec::new(alloc),
        Vec::new(alloc),
        Vec::new(alloc),
        Vec::new(alloc),
        Vec::new(alloc),
    ];
    race(&rt, alloc, &turn, seats.as_mut_slice(), &mut replies);
    let Some(adder) = closed(alloc, turn, seats) else {
        panic!(rt; "the turn did not close")
    };
    assert_eq!(rt; adder.entries.len(), 8_000);
    for caller in 0..8u32 {
        let own = &replies[caller as usize];
        assert_eq!(rt; own.len(), 1_000);
        assert!(rt; are_replies(&adder, caller, own.as_slice()));
    }
    Ok(())
}
