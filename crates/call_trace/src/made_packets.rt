//! The packets of a made trace.

ghost use Rattle.std.specs.Prelude.{◌≡◌, ◌⊎◌, ◌*◌, ◌^◌, ◌<◌, ◌≤◌, IfOk};
ghost use Rattle.gcc_units.specs.Listed.{bare};
ghost use Rattle.gcc_units.specs.declared.class.Class.TheVariants.{Audio, Video};
ghost use Rattle.gcc_units.specs.declared.limits.TheConstants.{GREATEST_RATE};
ghost use Rattle.call_trace.specs.MadePackets.{packet, made_packet, audio_packet, video_packet, frame_packets, packet_bytes};

use gcc_units::{Bytes, Class, GREATEST_PACKET, GREATEST_RATE, NoMemory, Rate};
use std::alloc::Global;

/// One word of extension, whose one element has ID 3 and two bytes for the transport-wide number
/// (draft-holmer-rmcat-transport-wide-cc-extensions-01, section 2).
const EXTENSION: [u8; 8] = [0xbe, 0xde, 0, 1, 0x31, 0, 0, 0];

/// The bytes of the fixed header and of the extension.
const LEAST_BYTES: u64 = 20;

/// The bytes of an audio packet.
pub const AUDIO_BYTES: u32 = 100;

/// The bytes that a video packet has at most.
pub const MOST_VIDEO_BYTES: u64 = 1_200;

/// What the packets of a source have in common.
struct Source {
    payload_type: u8,
    ssrc: u32,
}

const AUDIO: Source = Source {
    payload_type: 0x6f,
    ssrc: 0xbb,
};

const VIDEO: Source = Source {
    payload_type: 0x60,
    ssrc: 0xaa,
};

/// The packet of a source with so many before it, filled up with zeros to its size.
fn packet(
    alloc: Global,
    source: &Source,
    before: u64,
    timestamp: u64,
    size: usize,
) -> Result<Bytes, NoMemory>
    requires room { 20 ≤ size }
    requires short { size < 2 ^ 32 }
    ensures { IfOk result (λ bytes. bytes ≡ bare (packet source.now.payload_type source.now.ssrc before timestamp size)) }
{
    let mut bytes = Vec::with_capacity(alloc, size)?;
    bytes.extend_from_slice(&[0x90, source.payload_type])?;
    bytes.extend_from_slice(&((before % 65_536) as u16).to_be_bytes())?;
    bytes.extend_from_slice(&((timestamp % 4_294_967_296) as u32).to_be_bytes())?;
    bytes.extend_from_slice(&source.ssrc.to_be_bytes())?;
    bytes.extend_from_slice(&EXTENSION)?;
    bytes.resize(size, 0)?;
    Ok(Bytes::from_vec(bytes))
}

/// The packet of an audio or a video source at the millisecond `t`, with so many of its kind before it, filled
/// up with zeros to its size in bytes (the fixed header of RFC 3550, section 5.1, and an extension of RFC 8285,
/// section 4.2). Audio counts 48 units of time in a millisecond, video 90. `NoMemory` tells that memory ran
/// out, and nothing else.
pub fn made_packet(
    alloc: Global,
    class: Class,
    count: u64,
    t: u64,
    size: u32,
) -> Result<Bytes, NoMemory>
    requires source { (class ≡ Audio) ⊎ (class ≡ Video) }
    requires room { 20 ≤ size }
    requires short { size ≤ GREATEST_PACKET }
    requires early { t ≤ 2 ^ 40 }
    ensures { IfOk result (λ bytes. bytes ≡ bare (made_packet class count t size)) }
{
    match class {
        Class::Audio => packet(alloc, &AUDIO, count, 48 * t, size as usize),
        Class::Video => packet(alloc, &VIDEO, count, 90 * t, size as usize),
        Class::Retransmission | Class::Fec => unreachable!(),
    }
}

/// The audio packet of a millisecond.
pub fn audio_packet(alloc: Global, before: u32, t: u32) -> Result<Bytes, NoMemory>
    requires { 48 * t < 2 ^ 32 }
    ensures { IfOk result (λ bytes. bytes ≡ bare (audio_packet before t)) }
{
    made_packet(
        alloc,
        Class::Audio,
        u64::from(before),
        u64::from(t),
        AUDIO_BYTES,
    )
}

/// A video packet of a millisecond.
pub fn video_packet(alloc: Global, before: u32, t: u32, size: u64) -> Result<Bytes, NoMemory>
    requires time { 90 * t < 2 ^ 32 }
    requires room { 20 ≤ size }
    requires short { size ≤ GREATEST_PACKET }
    ensures { IfOk result (λ bytes. bytes ≡ bare (video_packet before t size)) }
{
    made_packet(
        alloc,
        Class::Video,
        u64::from(before),
        u64::from(t),
        size as u32,
    )
}

/// In how many packets a frame goes at this target rate in bit/s, at thirty frames a second, and the bytes of
/// each.
pub fn frame(target: Rate) -> (u64, u64)
    requires { target ≤ GREATEST_RATE }
    ensures packets { result.0 ≡ frame_packets target }
    ensures bytes { result.1 ≡ packet_bytes target }
    ensures least { 20 ≤ result.1 }
    ensures most { result.1 ≤ MOST_VIDEO_BYTES }
{
    let bytes = target / 240;
    let packets = bytes.div_ceil(MOST_VIDEO_BYTES).max(1);
    (packets, bytes.div_ceil(packets).max(LEAST_BYTES))
}
