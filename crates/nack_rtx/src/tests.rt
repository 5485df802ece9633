//! What no clause says: rows worked by hand from the standards, large input, and that memory is not
//! wanting.

use super::*;
use rtp_wire::read_wire;
use std::alloc::Global;
use std::test::Fail;

const ROWS: [(&[u8], Result<&[u16], ReadNack>); 8] = [
    // one pair, and one with bits set across the wrap
    (
        &[0x81, 0xcd, 0, 3, 0, 0, 0, 1, 0, 0, 0, 0xaa, 0, 1, 0, 0],
        Ok(&[1]),
    ),
    (
        &[
            0x81, 0xcd, 0, 3, 0, 0, 0, 1, 0, 0, 0, 0xaa, 0xff, 0xfe, 0, 3,
        ],
        Ok(&[65534, 65535, 0]),
    ),
    // all bits, and a second pair that names two of them again
    (
        &[
            0x81, 0xcd, 0, 4, 0, 0, 0, 1, 0, 0, 0, 0xaa, 0xff, 0xff, 0xff, 0xff, 0, 0, 0, 1,
        ],
        Ok(&[65535, 0, 1, 2, 3, 4, 5, 6, 7, 8, 9, 10, 11, 12, 13, 14, 15]),
    ),
    // padding behind the pair, and padding that leaves none
    (
        &[
            0xa1, 0xcd, 0, 4, 0, 0, 0, 1, 0, 0, 0, 0xaa, 0, 1, 0, 0, 0, 0, 0, 4,
        ],
        Ok(&[1]),
    ),
    (
        &[0xa1, 0xcd, 0, 3, 0, 0, 0, 1, 0, 0, 0, 0xaa, 0, 1, 0, 4],
        Err(ReadNack::Fault(NackFault::Padding)),
    ),
    // no pair, another format, another version
    (
        &[0x81, 0xcd, 0, 2, 0, 0, 0, 1, 0, 0, 0, 0xaa],
        Err(ReadNack::Fault(NackFault::Short)),
    ),
    (
        &[0x85, 0xcd, 0, 3, 0, 0, 0, 1, 0, 0, 0, 0xaa, 0, 1, 0, 0],
        Err(ReadNack::Fault(NackFault::NotNack)),
    ),
    (
        &[0x41, 0xcd, 0, 3, 0, 0, 0, 1, 0, 0, 0, 0xaa, 0, 1, 0, 0],
        Err(ReadNack::Fault(NackFault::Version)),
    ),
];

const SETTINGS: RtxSettings = RtxSettings {
    media: 170,
    rtx: 187,
    payload: 97,
    repeats: 1,
};

// A packet of the media with this number.
fn video(number: u16) -> [u8; 20] {
    let [high, low] = number.to_be_bytes();
    [
        0x90, 0xe0, high, low, 0, 0, 0, 0, 0, 0, 0, 0xaa, 0xbe, 0xde, 0, 1, 0x31, 0, 0, 0,
    ]
}

// A NACK for the media by these pairs.
fn asking(alloc: Global, pairs: &[(u16, u16)]) -> Result<Vec<u8>, Fail> {
    let mut bytes = Vec::new(alloc);
    let words = pairs.len() + 2;
    bytes.extend_from_slice(&[0x81, 0xcd, (words / 256 % 256) as u8, (words % 256) as u8])?;
    bytes.extend_from_slice(&[0, 0, 0, 1, 0, 0, 0, 0xaa])?;
    for (own, bits) in pairs {
        bytes.extend_from_slice(&own.to_be_bytes())?;
        bytes.extend_from_slice(&bits.to_be_bytes())?;
    }
    Ok(bytes)
}

#[test]
fn nacks(rt: HostRuntime) -> Result<(), Fail> {
    for (k, (bytes, want)) in ROWS.into_iter().enumerate() {
        match (read_nack(rt.alloc(), bytes), want) {
            (Ok(nack), Ok(lost)) => assert!(rt; nack.lost.as_slice() == lost, "row {k}"),
            (Err(fault), Err(want)) => assert_eq!(rt; fault, want),
            _ => assert!(rt; false, "row {k}"),
        }
    }
    Ok(())
}

#[test]
fn most_pairs(rt: HostRuntime) -> Result<(), Fail> {
    let mut pairs = Vec::new(rt.alloc());
    for own in 0..65_533u16 {
        pairs.push((own, 0xffff))?;
    }
    let bytes = asking(rt.alloc(), &pairs)?;
    let nack = read_nack(rt.alloc(), &bytes)?;
    assert_eq!(rt; nack.lost.len(), 65_536);
    Ok(())
}

#[test]
fn one_resend(rt: HostRuntime) -> Result<(), Fail> {
    let mut resender = Resender::new(rt.alloc(), SETTINGS)?;
    let packet = video(1);
    assert!(rt; resender.keep(&read_wire(&packet, 3)?)?);
    let nack = read_nack(rt.alloc(), &asking(rt.alloc(), &[(1, 0)])?)?;
    let answered = resender.answer(rt.alloc(), &nack)?;
    let resend = answered.resends.get(0).ok_or("no packet")?;
    assert_eq!(rt; resend.seq, 1);
    let want = [
        0x90, 0xe1, 0, 0, 0, 0, 0, 0, 0, 0, 0, 0xbb, 0xbe, 0xde, 0, 1, 0x31, 0, 0, 0, 0, 1,
    ];
    assert!(rt; resend.packet.as_slice() == want.as_slice());
    let answered = resender.answer(rt.alloc(), &nack)?;
    assert_eq!(rt; answered.spent, 1);
    Ok(())
}

#[test]
fn newest_are_stored(rt: HostRuntime) -> Result<(), Fail> {
    let mut resender = Resender::new(rt.alloc(), SETTINGS)?;
    for number in 0..4_097u16 {
        let packet = video(number);
        assert!(rt; resender.keep(&read_wire(&packet, 3)?)?);
    }
    let nack = read_nack(rt.alloc(), &asking(rt.alloc(), &[(0, 1)])?)?;
    let answered = resender.answer(rt.alloc(), &nack)?;
    assert_eq!(rt; answered.unknown, 1);
    assert_eq!(rt; answered.resends.len(), 1);
    Ok(())
}
