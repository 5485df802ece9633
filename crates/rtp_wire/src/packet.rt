//! Reading a packet.
//!
//! The fixed header (RFC 3550, section 5.1), and behind it an extension in the one-byte form (RFC 8285,
//! section 4.2); V is the version, P the padding bit, X the extension bit, CC the count of contributing
//! sources, M the marker:
//!
//! ```text
//!  0                   1                   2                   3
//!  0 1 2 3 4 5 6 7 8 9 0 1 2 3 4 5 6 7 8 9 0 1 2 3 4 5 6 7 8 9 0 1
//! +---+-+-+-------+-+-------------+-------------------------------+
//! | V |P|X|  CC   |M|payload type |        sequence number        |
//! +---+-+-+-------+-+-------------+-------------------------------+
//! |                           timestamp                           |
//! +---------------------------------------------------------------+
//! |                             SSRC                              |
//! +---------------------------------------------------------------+
//! |               contributing sources, CC of them                |
//! +-------------------------------+-------------------------------+
//! |         profile 0xBEDE        |        length in words        |
//! +-------+-------+---------------+---------------+---------------+
//! |  ID   |length |         number, big-endian    |     ...       |
//! |       |  - 1  |                               |               |
//! +-------+-------+-------------------------------+---------------+
//! ```

ghost use Rattle.std.specs.Prelude.{◌≡◌, ◌+◌, ◌≤◌, ◌<◌, Ok, Err, IfOk, IfErr, length};
ghost use Rattle.rtp_wire.specs.Place.{place_of, walk, field16, field32, header_len};

use byteorder::{BigEndian, ByteOrder};
use gcc_units::{GREATEST_PACKET, LEAST_PACKET};
use std::marker::Model;

/// The profile of an extension in the one-byte form (RFC 8285, section 4.2).
const ONE_BYTE_FORM: u16 = 0xbede;

/// What is wrong with the bytes of a packet, by the first check that fails.
#[derive(Clone, Copy, PartialEq, Eq, Debug)]
pub enum WireFault {
    /// The fixed header or the list of contributing sources passes the end.
    Short = 1,
    /// There are more bytes than a packet may have.
    Long = 2,
    /// The version is not 2.
    Version = 3,
    /// The extension, or one of its elements, passes the end.
    BadExtension = 4,
    /// There is no extension in the one-byte form, or no element of the number in it.
    NoExtension = 5,
}

/// A packet that was read: its bytes, and the place of the two bytes of its transport-wide
/// sequence number.
#[derive(Drop)]
pub struct Wire<'a> {
    bytes: &'a [u8],
    place: u32,
}

impl<'a> Model for Wire<'a> {
    ghost use Rattle.std.specs.Prelude.{◌+◌, ◌≤◌, length};
    ghost use Rattle.gcc_units.specs.declared.limits.TheConstants.{LEAST_PACKET, GREATEST_PACKET};
    ghost use Rattle.rtp_wire.specs.Packet.{Packet};
    ghost use Rattle.rtp_wire.specs.Place.{header_len};

    ghost Value = { Packet };

    ghost view = { λ w. record { bytes = w.bytes.now; place = w.place } };

    ghost invariant = { λ w. (LEAST_PACKET ≤ w.place) × (w.place + 2 ≤ length w.bytes.now) × (header_len w.bytes.now ≤ length w.bytes.now) × (length w.bytes.now ≤ GREATEST_PACKET) };
}

impl<'a> Wire<'a> {
    /// The bytes of the packet.
    pub fn bytes(&self) -> &'a [u8]
        ensures { result.now ≡ self.now.bytes }
    {
        self.bytes
    }

    /// Where the two bytes of the number stand, counted from 0.
    pub fn place(&self) -> u32
        ensures place { result ≡ self.now.place }
        ensures inside { result + 2 ≤ length self.now.bytes }
    {
        self.place
    }

    /// The synchronization source (RFC 3550, section 5.1).
    pub fn ssrc(&self) -> u32
        ensures { result ≡ field32 8 self.now.bytes }
    {
        BigEndian::read_u32(self.bytes.split_at(8).1)
    }

    /// How many bytes the whole header has: the fixed part, the contributing sources and the
    /// extension (RFC 3550, sections 5.1 and 5.3.1). The payload stands behind them.
    pub fn header_len(&self) -> u32
        ensures value { result ≡ header_len self.now.bytes }
        ensures inside { result ≤ length self.now.bytes }
    {
        let bytes = self.bytes;
        let sources_end = LEAST_PACKET as usize + 4 * (bytes[0] as usize % 16);
        let words = BigEndian::read_u16(bytes.split_at(sources_end + 2).1);
        (sources_end + 4 + 4 * words as usize) as u32
    }

    /// The sequence number of the fixed header (RFC 3550, section 5.1).
    pub fn rtp_seq(&self) -> u16
        ensures { result ≡ field16 2 self.now.bytes }
    {
        BigEndian::read_u16(self.bytes.split_at(2).1)
    }
}

/// Where the data of the first element with this ID and two bytes stands, in an extension that
/// begins at `start`.
fn number_place(extension: &[u8], start: usize, id: u8) -> Result<usize, WireFault>
    requires id { id ≤ 14 }
    requires start { start ≤ 76 }
    requires len { length extension.now ≤ GREATEST_PACKET }
    ensures { result ≡ walk id start 0 extension.now }
{
    let mut rest = extension;
    let mut at = start;
    while !rest.is_empty() {
        let first = rest[0];
        let behind = rest.split_at(1).1;
        if first == 0 {
            rest = behind;
            at += 1;
            continue;
        }
        // ID 0 with a length ends the elements, and so does ID 15.
        if first < 16 {
            return Err(WireFault::NoExtension);
        }
        if first >= 240 {
            return Err(WireFault::NoExtension);
        }
        let len = first as usize % 16 + 1;
        if behind.len() < len {
            return Err(WireFault::BadExtension);
        }
        if first == 16 * id + 1 {
            return Ok(at + 1);
        }
        rest = behind.split_at(len).1;
        at += 1 + len;
    }
    Err(WireFault::NoExtension)
}

/// Where the two bytes of the number stand.
#[tactic(auto, unfolding(crate::specs::Place::place_of))]
fn place_in(bytes: &[u8], id: u8) -> Result<usize, WireFault>
    requires { id ≤ 14 }
    ensures { result ≡ place_of id bytes.now }
{
    if bytes.len() < LEAST_PACKET as usize {
        return Err(WireFault::Short);
    }
    if bytes.len() > GREATEST_PACKET as usize {
        return Err(WireFault::Long);
    }
    if bytes[0] / 64 != 2 {
        return Err(WireFault::Version);
    }
    let sources_end = LEAST_PACKET as usize + 4 * (bytes[0] as usize % 16);
    if bytes.len() < sources_end {
        return Err(WireFault::Short);
    }
    if bytes[0] / 16 % 2 == 0 {
        return Err(WireFault::NoExtension);
    }
    let start = sources_end + 4;
    if bytes.len() < start {
        return Err(WireFault::BadExtension);
    }
    if BigEndian::read_u16(bytes.split_at(sources_end).1) != ONE_BYTE_FORM {
        return Err(WireFault::NoExtension);
    }
    let len = 4 * BigEndian::read_u16(bytes.split_at(sources_end + 2).1) as usize;
    if bytes.len() < start + len {
        return Err(WireFault::BadExtension);
    }
    number_place(bytes.split_at(start).1.split_at(len).0, start, id)
}

/// Reads a packet whose transport-wide sequence number stands in the element with this ID.
/// The fault is that of the first check that fails.
pub fn read_wire<'a>(bytes: &'a [u8], id: u8) -> Result<Wire<'a>, WireFault>
    requires low { 1 ≤ id }
    requires high { id ≤ 14 }
    ensures bytes { IfOk result (λ w. w.bytes ≡ bytes.now) }
    ensures place { IfOk result (λ w. place_of id bytes.now ≡ Ok w.place) }
    ensures fault { IfErr result (λ fault. place_of id bytes.now ≡ Err fault) }
{
    let place = place_in(bytes, id)?;
    Ok(Wire {
        bytes,
        place: place as u32,
    })
}
