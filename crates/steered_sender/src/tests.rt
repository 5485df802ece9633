//! What no clause says: that memory is enough, and that a report moves the target to the level's rate.

ghost use Rattle.std.specs.Prelude.{◌<◌, ◌^◌, length};

use crate::{Control, SteeredSender};
use gcc_units::{Bytes, Class, NoMemory};
use std::alloc::Global;
use std::test::Fail;

const VIDEO: [u8; 20] = [
    0x90, 0x60, 0, 1, 0, 0, 0, 0, 0, 0, 0, 0xaa, 0xbe, 0xde, 0, 1, 0x31, 0, 0, 0,
];

const AUDIO: [u8; 20] = [
    0x90, 0x6f, 0, 1, 0, 0, 0, 0, 0, 0, 0, 0xbb, 0xbe, 0xde, 0, 1, 0x31, 0, 0, 0,
];

// A report that names the packets 0 and 1 received.
const REPORT: [u8; 24] = [
    0x8f, 0xcd, 0, 5, 0, 0, 0, 1, 0, 0, 0, 2, 0, 0, 0, 2, 0, 0, 1, 0, 0x20, 2, 4, 4,
];

fn packet(alloc: Global, bytes: &[u8]) -> Result<Bytes, NoMemory>
    requires { length bytes.now < 2 ^ 32 }
{
    Ok(Bytes::from_vec(Vec::from_slice(alloc, bytes)?))
}

fn accepts(alloc: Global, sender: &mut SteeredSender, class: Class, wire: Bytes) -> bool {
    sender.enqueue(alloc, 1_000, class, wire).is_ok()
}

// The rate that the level control answers to a report.
fn rate_after(alloc: Global, sender: &mut SteeredSender, report: &Bytes) -> Option<u64> {
    match sender.report(alloc, 3_000, report) {
        Ok(heard) => match heard.answer {
            Some(answer) => Some(answer.rate),
            None => None,
        },
        Err(_) => None,
    }
}

#[test]
fn a_report_moves_the_target_to_the_level(rt: HostRuntime) -> Result<(), Fail> {
    let alloc = rt.alloc();
    let mut sender = SteeredSender::new(alloc, Control::Level { start: 1_000_000 })?;
    assert_eq!(rt; sender.sender().target(), 1_000_000);
    assert!(rt; accepts(alloc, &mut sender, Class::Video, packet(alloc, &VIDEO)?));
    assert!(rt; accepts(alloc, &mut sender, Class::Audio, packet(alloc, &AUDIO)?));
    assert!(rt; sender.pace(alloc, 2_000).is_ok());
    let report = packet(alloc, &REPORT)?;
    let rate = rate_after(alloc, &mut sender, &report);
    assert!(rt; rate.is_some());
    assert_eq!(rt; rate, Some(sender.sender().target()));
    Ok(())
}
