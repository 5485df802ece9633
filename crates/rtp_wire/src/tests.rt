//! What no clause says: packets made by hand from the standards, and that memory is not wanting.

use crate::{WireFault, WireList, read_wire};
use std::test::Fail;

/// A header: its first byte, how many contributing sources follow the fixed header, the bytes
/// behind them; the ID of the element; and where its number stands, or the fault.
type Header = (u8, usize, &'static [u8], u8, Result<u32, WireFault>);

const HEADERS: [Header; 22] = [
    // one element
    (0x90, 0, &[0xbe, 0xde, 0, 1, 0x31, 0, 0, 0], 3, Ok(17)),
    // padding in front of it
    (0x90, 0, &[0xbe, 0xde, 0, 1, 0, 0x31, 0, 0], 3, Ok(18)),
    // another element in front of it
    (
        0x90,
        0,
        &[0xbe, 0xde, 0, 2, 0x10, 0xaa, 0x31, 0, 1, 0, 0, 0],
        3,
        Ok(19),
    ),
    // padding between two elements
    (
        0x90,
        0,
        &[0xbe, 0xde, 0, 2, 0x51, 0xaa, 0xbb, 0, 0, 0x31, 0, 1],
        3,
        Ok(22),
    ),
    // two and fifteen contributing sources
    (0x92, 2, &[0xbe, 0xde, 0, 1, 0x31, 0, 0, 0], 3, Ok(25)),
    (0x9f, 15, &[0xbe, 0xde, 0, 1, 0x31, 0, 0, 0], 3, Ok(77)),
    // contributing sources that pass the end
    (0x92, 1, &[], 3, Err(WireFault::Short)),
    // ID 15, and ID 0 with a length, end the elements
    (
        0x90,
        0,
        &[0xbe, 0xde, 0, 1, 0xf0, 0x31, 0, 0],
        3,
        Err(WireFault::NoExtension),
    ),
    (
        0x90,
        0,
        &[0xbe, 0xde, 0, 1, 0x01, 0x31, 0, 0],
        3,
        Err(WireFault::NoExtension),
    ),
    // the two-byte form
    (
        0x90,
        0,
        &[0x10, 0, 0, 1, 0x03, 0x02, 0, 0],
        3,
        Err(WireFault::NoExtension),
    ),
    // padding behind the payload is not looked at
    (
        0xb0,
        0,
        &[0xbe, 0xde, 0, 1, 0x31, 0, 0, 0, 0, 0, 0, 9],
        3,
        Ok(17),
    ),
    // an extension of no words
    (0x90, 0, &[0xbe, 0xde, 0, 0], 3, Err(WireFault::NoExtension)),
    // our ID with three bytes, and with one byte in front of ours
    (
        0x90,
        0,
        &[0xbe, 0xde, 0, 1, 0x32, 0, 0, 0],
        3,
        Err(WireFault::NoExtension),
    ),
    (
        0x90,
        0,
        &[0xbe, 0xde, 0, 2, 0x30, 0xaa, 0x31, 0, 1, 0, 0, 0],
        3,
        Ok(19),
    ),
    // our element passes the extension's end, though not the packet's
    (
        0x90,
        0,
        &[0xbe, 0xde, 0, 1, 0, 0, 0x31, 0, 0, 0],
        3,
        Err(WireFault::BadExtension),
    ),
    // the words pass the end, and so does the extension's head
    (
        0x90,
        0,
        &[0xbe, 0xde, 0, 2, 0x31, 0, 0, 0],
        3,
        Err(WireFault::BadExtension),
    ),
    (0x90, 0, &[0xbe, 0xde, 0], 3, Err(WireFault::BadExtension)),
    // the greatest ID
    (0x90, 0, &[0xbe, 0xde, 0, 1, 0xe1, 0, 7, 0], 14, Ok(17)),
    // an element of sixteen bytes in front of ours
    (
        0x90,
        0,
        &[
            0xbe, 0xde, 0, 5, 0x2f, 1, 2, 3, 4, 5, 6, 7, 8, 9, 10, 11, 12, 13, 14, 15, 16, 0x31, 0,
            0,
        ],
        3,
        Ok(34),
    ),
    // the first of two of ours
    (
        0x90,
        0,
        &[0xbe, 0xde, 0, 2, 0x31, 0, 1, 0x31, 0, 2, 0, 0],
        3,
        Ok(17),
    ),
    // no extension, and another version
    (
        0x80,
        0,
        &[0xbe, 0xde, 0, 1, 0x31, 0, 0, 0],
        3,
        Err(WireFault::NoExtension),
    ),
    (
        0x50,
        0,
        &[0xbe, 0xde, 0, 1, 0x31, 0, 0, 0],
        3,
        Err(WireFault::Version),
    ),
];

const AUDIO: [u8; 20] = [
    0x90, 0x6f, 0, 1, 0, 0, 0, 0, 0, 0, 0, 0xbb, 0xbe, 0xde, 0, 1, 0x31, 0, 0, 0,
];

const VIDEO: [u8; 20] = [
    0x90, 0x60, 0, 1, 0, 0, 0, 0, 0, 0, 0, 0xaa, 0xbe, 0xde, 0, 1, 0x31, 0, 0, 0,
];

#[test]
fn headers(rt: HostRuntime) -> Result<(), Fail> {
    for (k, (first, sources, behind, id, want)) in HEADERS.into_iter().enumerate() {
        let mut bytes = Vec::new(rt.alloc());
        bytes.extend_from_slice(&[first, 0x60, 0, 1, 0, 0, 0, 0, 0, 0, 0, 0xaa])?;
        for _ in 0..sources {
            bytes.extend_from_slice(&[0, 0, 0, 1])?;
        }
        bytes.extend_from_slice(behind)?;
        assert!(rt; id >= 1);
        assert!(rt; id <= 14);
        let place = read_wire(&bytes, id).map(|wire| wire.place());
        assert_eq!(rt; place, want, "header {k}");
    }
    Ok(())
}

#[test]
fn refused_packets(rt: HostRuntime) -> Result<(), Fail> {
    let long = vec![in rt.alloc(); 0x90u8; 1501]?;
    let packets: [&[u8]; 5] = [
        &[0x80, 0x60, 0, 1, 0, 0, 0, 0, 0, 0, 0],
        long.as_slice(),
        &[0x50, 0x60, 0, 1, 0, 0, 0, 0, 0, 0, 0, 0xaa],
        &[
            0x90, 0x60, 0, 1, 0, 0, 0, 0, 0, 0, 0, 0xaa, 0xbe, 0xde, 0, 1,
        ],
        &[0x80, 0x60, 0, 1, 0, 0, 0, 0, 0, 0, 0, 0xaa],
    ];
    for (k, packet) in packets.into_iter().enumerate() {
        match read_wire(packet, 3) {
            Ok(_) => assert!(rt; false, "packet {k} is taken"),
            Err(fault) => assert_eq!(rt; fault as usize, k + 1),
        }
    }
    Ok(())
}

#[test]
fn smallest_run(rt: HostRuntime) -> Result<(), Fail> {
    let mut wires = WireList::new(rt.alloc());
    wires.reserve(2, 40)?;
    let audio = read_wire(&AUDIO, 3)?;
    let video = read_wire(&VIDEO, 3)?;
    assert_eq!(rt; video.ssrc(), 0xaa);
    assert_eq!(rt; video.rtp_seq(), 1);
    wires.push_stamped(&audio, 0);
    wires.push_stamped(&video, 1);
    let mut stamped = VIDEO;
    stamped[18] = 1;
    wires.settle();
    let wires = wires.copy(rt.alloc())?;
    assert_eq!(rt; wires.len(), 2);
    assert!(rt; wires.get(0) == Some(AUDIO.as_slice()));
    assert!(rt; wires.get(1) == Some(stamped.as_slice()));
    assert!(rt; wires.get(2).is_none());
    Ok(())
}

#[test]
fn padding_packet(rt: HostRuntime) -> Result<(), Fail> {
    let front = [
        0xb0, 0x7f, 1, 2, 0, 0, 0, 0, 0x50, 0x41, 0x44, 0x44, 0xbe, 0xde, 0, 1, 0x31, 1, 2, 0,
    ];
    let mut wires = WireList::new(rt.alloc());
    wires.reserve(1, 256)?;
    wires.push_padding(258, 3);
    let packet = wires.get(0).ok_or("no packet")?;
    assert_eq!(rt; packet.len(), 256);
    assert!(rt; packet.starts_with(&front));
    assert!(rt; packet[20..255].iter().all(|byte| *byte == 0));
    assert_eq!(rt; packet[255], 0xec);
    Ok(())
}
