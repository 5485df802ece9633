//! The examples of docs/USING.md and README.md.

ghost use Rattle.std.specs.Prelude.{◌≡◌};

use gcc_units::{Bytes, Class, NoMemory, Rate};
use send_core::{Answer, ApplyFault, Call, Sender};
use shared_sender::{SenderSeat, Shared};
use std::alloc::Global;
use std::sync::Wait;
use std::test::Fail;
use std::thread::{Threads, join_mut};

/// A packet with the element of ID 3 and two bytes, in which its number will stand.
const PACKET: [u8; 20] = [
    0x90, 0x60, 0, 1, 0, 0, 0, 0, 0, 0, 0, 0xaa, 0xbe, 0xde, 0, 1, 0x31, 0, 0, 0,
];

/// A report that names numbers 0 and 1, both received.
const REPORT: [u8; 24] = [
    0x8f, 0xcd, 0, 5, 0, 0, 0, 1, 0, 0, 0, 2, 0, 0, 0, 2, 0, 0, 1, 0, 0x20, 2, 80, 4,
];

fn bytes(alloc: Global, given: &[u8]) -> Result<Bytes, NoMemory> {
    let mut bytes = Bytes::new(alloc);
    for byte in given {
        if bytes.push(*byte).is_err() {
            return Err(NoMemory);
        }
    }
    Ok(bytes)
}

fn video(alloc: Global, at: u64) -> Result<Call, NoMemory> {
    let class = Class::Video;
    let wire = bytes(alloc, &PACKET)?;
    Ok(Call::Enqueue { at, class, wire })
}

/// One thread. Moments are microseconds; what leaves goes to the socket.
fn one_call(alloc: Global) -> Result<(u32, Rate), Fail> {
    let mut sender = Sender::new(alloc)?;
    let _ = sender.apply(alloc, 0, video(alloc, 0)?);
    let _ = sender.apply(alloc, 0, video(alloc, 0)?);
    let mut left = 0;
    for tick in 1..=4 {
        let at = 5_000 * tick;
        if let Ok(answer) = sender.apply(alloc, 0, Call::Pace { at }) {
            left = sent_to_socket(&answer).saturating_add(left);
        }
    }
    let bytes = bytes(alloc, &REPORT)?;
    let _ = sender.apply(alloc, 0, Call::Report { at: 60_000, bytes });
    Ok((left, sender.target()))
}

/// In a server this writes to a socket; each packet stands in the order in which it leaves.
fn sent_to_socket(answer: &Answer) -> u32 {
    answer.wires.len()
}

#[test]
fn a_call_on_one_thread(rt: HostRuntime) -> Result<(), Fail> {
    let (left, target) = one_call(rt.alloc())?;
    assert_eq!(rt; left, 2);
    assert_eq!(rt; target, 300_000);
    Ok(())
}

/// What a thread does that has packets: it enqueues each.
fn encode<R: Wait>(rt: &R, alloc: Global, shared: &Shared, seat: &mut SenderSeat)
    requires { seat.old.of ≡ shared.now.of }
    ensures { seat.new.of ≡ seat.old.of }
{
    if let Ok(wire) = bytes(alloc, &PACKET) {
        let _ = shared.enqueue(rt, alloc, seat, 0, Class::Audio, wire);
    }
}

/// What the thread of the socket does: it paces, and sends what leaves.
fn send<R: Wait>(rt: &R, alloc: Global, shared: &Shared, seat: &mut SenderSeat) -> u32
    requires { seat.old.of ≡ shared.now.of }
    ensures { seat.new.of ≡ seat.old.of }
{
    match shared.pace(rt, alloc, seat, 5_000) {
        Ok(answer) => sent_to_socket(&answer),
        Err(_) => 0,
    }
}

// Both at the same time, each on a seat of its own.
fn both<R: Threads + Wait + Sync>(
    rt: &R,
    alloc: Global,
    shared: &Shared,
    encoder: &mut SenderSeat,
    socket: &mut SenderSeat,
)
    requires encoder { encoder.old.of ≡ shared.now.of }
    requires socket { socket.old.of ≡ shared.now.of }
    ensures socket { socket.new.of ≡ socket.old.of }
{
    join_mut(
        rt,
        &mut || encode(rt, alloc, shared, encoder),
        &mut || {
            let _ = send(rt, alloc, shared, socket);
        },
    );
}

#[test]
fn a_call_on_two_threads(rt: HostRuntime) -> Result<(), Fail> {
    let alloc = rt.alloc();
    let Ok((shared, mut seats)) = Shared::new(alloc, Sender::new(alloc)?, 2) else {
        return Err("there is memory".into());
    };
    let Some(mut socket) = seats.pop() else {
        unreachable!()
    };
    let Some(mut encoder) = seats.pop() else {
        unreachable!()
    };
    both(&rt, alloc, &shared, &mut encoder, &mut socket);
    let glance = shared.glance(&mut socket);
    assert_eq!(rt; glance.calls, 2);
    assert_eq!(rt; glance.target, 300_000);
    Ok(())
}

/// A refused call is an answer too, and changes nothing but the moment.
#[test]
fn a_call_that_is_refused(rt: HostRuntime) -> Result<(), Fail> {
    let alloc = rt.alloc();
    let mut sender = Sender::new(alloc)?;
    let class = Class::Video;
    let wire = bytes(alloc, &[0x80, 0x60])?;
    let answer = sender.apply(alloc, 0, Call::Enqueue { at: 0, class, wire });
    assert_eq!(rt; answer.is_ok(), true);
    assert_eq!(rt; sender.journal().len(), 1);
    Ok(())
}
