//! What no clause says: that memory is enough, and the bytes of the packets that leave.

ghost use Rattle.std.specs.Prelude.{◌<◌, ◌^◌, length};

use crate::{LiveFault, LiveSender};
use gcc_units::{Bytes, Class, NoMemory};
use send_core::{Answer, Reply};
use sent_history::Finding;
use std::alloc::Global;
use std::test::Fail;

const VIDEO: [u8; 20] = [
    0x90, 0x60, 0, 1, 0, 0, 0, 0, 0, 0, 0, 0xaa, 0xbe, 0xde, 0, 1, 0x31, 0, 0, 0,
];

const VIDEO_AS_ONE: [u8; 20] = [
    0x90, 0x60, 0, 1, 0, 0, 0, 0, 0, 0, 0, 0xaa, 0xbe, 0xde, 0, 1, 0x31, 0, 1, 0,
];

const AUDIO: [u8; 20] = [
    0x90, 0x6f, 0, 1, 0, 0, 0, 0, 0, 0, 0, 0xbb, 0xbe, 0xde, 0, 1, 0x31, 0, 0, 0,
];

// A report that names packet 0 missing, and packet 1 received 260 quarter-milliseconds after 0.
const ONE_MISSING: [u8; 24] = [
    0x8f, 0xcd, 0, 5, 0, 0, 0, 1, 0, 0, 0, 2, 0, 0, 0, 2, 0, 0, 1, 0, 0x90, 0, 4, 0,
];

// A report that names the packets 0 and 1 received.
const REPORT: [u8; 24] = [
    0x8f, 0xcd, 0, 5, 0, 0, 0, 1, 0, 0, 0, 2, 0, 0, 0, 2, 0, 0, 1, 0, 0x20, 2, 4, 4,
];

fn packet(alloc: Global, bytes: &[u8]) -> Result<Bytes, NoMemory>
    requires { length bytes.now < 2 ^ 32 }
{
    Ok(Bytes::from_vec(Vec::from_slice(alloc, bytes)?))
}

// Hands in a packet, and says whether it was accepted.
fn accepts(sender: &mut LiveSender, class: Class, wire: Bytes) -> bool {
    match sender.enqueue(1_000, class, wire) {
        Ok(Reply::Accepted { .. }) => true,
        _ => false,
    }
}

// How many packets a report credits.
fn credits(reply: Result<Reply, LiveFault>) -> Option<u32> {
    match reply {
        Ok(Reply::Credited { judged, .. }) => Some(judged.received.len()),
        _ => None,
    }
}

// The numbers that are missing, and those that are credited with their arrivals.
fn told(findings: &[Finding]) -> (Option<u64>, Option<(u64, i64)>) {
    let mut told = (None, None);
    for finding in findings {
        match finding {
            Finding::Missing(number) => told.0 = Some(*number),
            Finding::Credited(credit) => told.1 = Some((credit.number, credit.arrival)),
        }
    }
    told
}

fn pace(alloc: Global, sender: &mut LiveSender, at: u64) -> Result<Answer, LiveFault> {
    sender.pace(alloc, at)
}

#[test]
fn packets_leave_stamped_and_are_credited(rt: HostRuntime) -> Result<(), Fail> {
    let alloc = rt.alloc();
    let mut sender = LiveSender::new(alloc)?;
    assert!(rt; accepts(&mut sender, Class::Video, packet(alloc, &VIDEO)?));
    assert!(rt; accepts(&mut sender, Class::Audio, packet(alloc, &AUDIO)?));
    let wires = pace(alloc, &mut sender, 2_000)?.wires;
    assert_eq!(rt; wires.len(), 2);
    assert_eq!(rt; wires.get(0), Some(AUDIO.as_slice()));
    assert_eq!(rt; wires.get(1), Some(VIDEO_AS_ONE.as_slice()));
    let missing = sender.findings(alloc, &packet(alloc, &ONE_MISSING)?)?;
    assert_eq!(rt; missing.len(), 2);
    assert_eq!(rt; told(missing.as_slice()), (Some(0), Some((1, 260))));
    assert_eq!(rt; sender.next_probe(), None);
    let report = packet(alloc, &REPORT)?;
    assert_eq!(rt; credits(sender.report(alloc, 3_000, &report)), Some(2));
    assert!(rt; !sender.is_exhausted());
    Ok(())
}
