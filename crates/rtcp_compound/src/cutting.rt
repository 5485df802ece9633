//! Cutting bytes into packets of RTCP (RFC 3550, section 6.4.1); V is the version, P the padding bit, and FMT
//! the format or a count:
//!
//! ```text
//!  0                   1                   2                   3
//!  0 1 2 3 4 5 6 7 8 9 0 1 2 3 4 5 6 7 8 9 0 1 2 3 4 5 6 7 8 9 0 1
//! +---+-+---------+---------------+-------------------------------+
//! | V |P|  FMT    |  packet type  |     length in words, less one |
//! +---+-+---------+---------------+-------------------------------+
//! ```

ghost use Rattle.std.specs.Prelude.{◌≡◌, ℕ, ◌^◌, ◌<◌, ◌≤◌, ◌++◌, List, length, map, filter, IfSome, IfNone, IfOk, IfErr};
ghost use Rattle.rtcp_compound.specs.Compound.{IsPacket, ArePackets, FailsAt, IfNoPacket, BeginsWithNone, is_feedback, part_of};

use gcc_units::Sequence;
use std::alloc::Global;

/// The bytes of a packet's head: version, format, packet type and length.
const HEAD: usize = 4;

/// Where a packet stands in a compound packet.
#[derive(Clone, Copy, PartialEq, Eq, Debug)]
pub struct Part {
    /// Its first byte, counted from 0.
    pub start: u32,
    /// How many bytes it has.
    pub len: u32,
}

/// Places of packets, in their order.
pub type PartList = Sequence<Part>;

/// Why no list of packets is answered.
#[derive(Clone, Copy, PartialEq, Eq, Debug)]
pub enum ReadCompound {
    /// From this place on, counted from 0, no packet of RTCP stands there; packets stand before it.
    NoPacket(u32),
    /// Memory ran out.
    NoMemory,
}

/// The packet of RTCP at the front, and what stands behind it; `None` exactly where none stands there.
pub fn next_packet(bytes: &[u8]) -> Option<(&[u8], &[u8])>
    ensures packet { IfSome result (λ cut. IsPacket cut.0.now) }
    ensures whole { IfSome result (λ cut. bytes.now ≡ cut.0.now ++ cut.1.now) }
    ensures none { IfNone result (BeginsWithNone bytes.now) }
{
    if bytes.len() < HEAD {
        return None;
    }
    if bytes[0] / 64 != 2 {
        return None;
    }
    let words = u16::from_be_bytes([bytes[2], bytes[3]]);
    let len = 4 * words as usize + HEAD;
    if bytes.len() < len {
        return None;
    }
    Some(bytes.split_at(len))
}

/// Whether a packet of RTCP is transport-wide feedback: format 15 and packet type 205
/// (draft-holmer-rmcat-transport-wide-cc-extensions-01, section 3.1).
pub fn is_feedback(packet: &[u8]) -> bool
    requires { IsPacket packet.now }
    ensures { result ≡ is_feedback packet.now }
{
    packet[0] % 32 == 15 && packet[1] == 205
}

/// The transport-wide feedback packets of a compound packet, in their order; all others are passed over. At
/// `NoPacket` there is none, whatever stands before the place.
pub fn feedback_parts(alloc: Global, bytes: &[u8]) -> Result<PartList, ReadCompound>
    requires { length bytes.now < 2 ^ 32 }
    ensures found { IfOk result (λ parts. (packets : List (List ℕ)) × ArePackets packets bytes.now × (map (part_of bytes.now) parts.items ≡ filter is_feedback packets)) }
    ensures fault { IfErr result (λ error. IfNoPacket error (FailsAt bytes.now)) }
{
    let mut parts = PartList::new(alloc);
    let mut rest = bytes;
    while !rest.is_empty() {
        let start = (bytes.len() - rest.len()) as u32;
        let Some((packet, behind)) = next_packet(rest) else {
            return Err(ReadCompound::NoPacket(start));
        };
        if is_feedback(packet) {
            let len = packet.len() as u32;
            let Ok(()) = parts.push(Part { start, len }) else {
                return Err(ReadCompound::NoMemory);
            };
        }
        rest = behind;
    }
    Ok(parts)
}
