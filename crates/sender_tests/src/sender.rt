//! What no trace shows: the bytes of the packets that leave, and a journal that is full.

ghost use Rattle.std.specs.Prelude.{◌<◌, ◌^◌, length};

use gcc_units::{Bytes, Class, MOST_ENTRIES, NoMemory};
use rtp_wire::WireList;
use send_core::{Answer, ApplyFault, Call, Sender};
use std::alloc::Global;
use std::test::Fail;

const VIDEO: [u8; 20] = [
    0x90, 0x60, 0, 1, 0, 0, 0, 0, 0, 0, 0, 0xaa, 0xbe, 0xde, 0, 1, 0x31, 0, 0, 0,
];

const VIDEO_AS_ONE: [u8; 20] = [
    0x90, 0x60, 0, 1, 0, 0, 0, 0, 0, 0, 0, 0xaa, 0xbe, 0xde, 0, 1, 0x31, 0, 1, 0,
];

const AUDIO: [u8; 20] = [
    0x90, 0x6f, 0, 1, 0, 0, 0, 0, 0, 0, 0, 0xbb, 0xbe, 0xde, 0, 1, 0x31, 0, 0, 0,
];

fn packet(alloc: Global, bytes: &[u8]) -> Result<Bytes, NoMemory>
    requires { length bytes.now < 2 ^ 32 }
{
    Ok(Bytes::from_vec(Vec::from_slice(alloc, bytes)?))
}

// Serves a call, and says nothing of it.
fn apply(alloc: Global, sender: &mut Sender, call: Call) -> Result<Answer, (ApplyFault, Call)> {
    sender.apply(alloc, 0, call)
}

fn served(answer: Result<Answer, (ApplyFault, Call)>) -> Result<WireList, ApplyFault> {
    match answer {
        Ok(answer) => Ok(answer.wires),
        Err((fault, _call)) => Err(fault),
    }
}

fn enqueue(class: Class, wire: Bytes) -> Call {
    let at = 1_000;
    Call::Enqueue { at, class, wire }
}

fn pace(at: u64) -> Call {
    Call::Pace { at }
}

#[test]
fn packets_leave_stamped(rt: HostRuntime) -> Result<(), Fail> {
    let alloc = rt.alloc();
    let mut sender = Sender::new(alloc)?;
    let video = enqueue(Class::Video, packet(alloc, &VIDEO)?);
    let audio = enqueue(Class::Audio, packet(alloc, &AUDIO)?);
    served(apply(alloc, &mut sender, video))?;
    served(apply(alloc, &mut sender, audio))?;
    let wires = served(apply(alloc, &mut sender, pace(2_000)))?;
    assert_eq!(rt; wires.len(), 2);
    assert_eq!(rt; wires.get(0), Some(AUDIO.as_slice()));
    assert_eq!(rt; wires.get(1), Some(VIDEO_AS_ONE.as_slice()));
    Ok(())
}

// Adds so many entries.
fn fill(alloc: Global, sender: &mut Sender, entries: u32) -> Result<(), ApplyFault> {
    for at in 0..u64::from(entries) {
        served(apply(alloc, sender, pace(at)))?;
    }
    Ok(())
}

// Whether the call came back, since the journal is full.
fn came_back(answer: &Result<Answer, (ApplyFault, Call)>, moment: u64) -> bool {
    match answer {
        Err((ApplyFault::JournalFull, Call::Pace { at })) => *at == moment,
        _ => false,
    }
}

#[test]
fn journal_fills(rt: HostRuntime) -> Result<(), Fail> {
    let alloc = rt.alloc();
    let mut sender = Sender::new(alloc)?;
    fill(alloc, &mut sender, MOST_ENTRIES)?;
    assert_eq!(rt; sender.journal().len(), MOST_ENTRIES);
    let answer = apply(alloc, &mut sender, pace(7));
    assert!(rt; came_back(&answer, 7));
    Ok(())
}
