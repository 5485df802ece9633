//! A compound packet as a receiver sends it, and what is none.

use super::*;
use gcc_units::Bytes;
use std::alloc::Global;
use std::test::Fail;

/// A receiver report of no blocks, a transport-wide report, an end of participation, and one report more.
const COMPOUND: [u8; 64] = [
    0x80, 201, 0, 1, 0, 0, 0, 1, // receiver report (RFC 3550, section 6.4.2)
    0x8f, 205, 0, 5, 0, 0, 0, 1, 0, 0, 0, 2, 0, 0, 0, 1, 0, 0, 1, 0, 0x20, 1, 4, 0, // feedback
    0x81, 203, 0, 1, 0, 0, 0, 1, // end (RFC 3550, section 6.6)
    0x8f, 205, 0, 5, 0, 0, 0, 1, 0, 0, 0, 2, 0, 1, 0, 1, 0, 0, 1, 1, 0x20, 1, 8, 0, // feedback
];

fn parts_of(alloc: Global, bytes: &Bytes) -> Option<[(u32, u32); 2]> {
    match feedback_parts(alloc, bytes.as_slice()) {
        Ok(parts) => match parts.as_slice() {
            [a, b] => Some([(a.start, a.len), (b.start, b.len)]),
            _ => None,
        },
        Err(_) => None,
    }
}

fn fault_of(alloc: Global, bytes: &Bytes) -> Option<ReadCompound> {
    match feedback_parts(alloc, bytes.as_slice()) {
        Ok(_parts) => None,
        Err(fault) => Some(fault),
    }
}

fn bytes_of(alloc: Global, given: &[u8]) -> Result<Bytes, Fail> {
    let mut bytes = Bytes::new(alloc);
    for byte in given {
        bytes.push(*byte).ok().ok_or("there is memory")?;
    }
    Ok(bytes)
}

#[test]
fn reports_of_a_compound_packet(rt: HostRuntime) -> Result<(), Fail> {
    let alloc = rt.alloc();
    let whole = bytes_of(alloc, &COMPOUND)?;
    assert_eq!(rt; parts_of(alloc, &whole), Some([(8, 24), (40, 24)]));
    let cut = bytes_of(alloc, &COMPOUND[..62])?;
    assert_eq!(rt; fault_of(alloc, &cut), Some(ReadCompound::NoPacket(40)));
    let none = bytes_of(alloc, &[])?;
    assert_eq!(rt; fault_of(alloc, &none), None);
    Ok(())
}
