//! Lists of packets.

ghost use Rattle.std.specs.Prelude.{◌≡◌, ◌+◌, ◌-◌, ◌≤◌, ◌<◌, ◌==◌, ◌++◌, [], ◌∷◌, length, IfOk, OnOk, OnErr, slice_get, vec_len, vec_capacity};
ghost use Rattle.std.specs.Option.{option_map};
ghost use Rattle.rtp_wire.specs.Wires.{Wires, bare_wires};
ghost use Rattle.rtp_wire.specs.Starts.{start_at};
ghost use Rattle.rtp_wire.specs.Stamp.{stamped, padding_packet};

use crate::packet::Wire;
use gcc_units::{NoMemory, PADDING_PACKET};
use std::alloc::Global;
use std::marker::Model;

/// The first two bytes of a padding packet: version 2 with padding and an extension, payload type
/// 127 (RFC 3550, section 5.1).
const PADDING_HEAD: [u8; 2] = [0xb0, 0x7f];

/// The timestamp 0 and the synchronization source "PADD" of a padding packet.
const PADDING_SOURCE: [u8; 8] = [0, 0, 0, 0, 0x50, 0x41, 0x44, 0x44];

/// How many of its bytes are padding: its last byte.
const PADDING_COUNT: u8 = 236;

/// Packets, each a list of bytes. Contracts see two spare numbers beside them: so many packets,
/// and so many bytes in all, can be put at the end before memory is asked for.
#[derive(Drop)]
pub struct WireList {
    bytes: Vec<u8>,
    ends: Vec<usize>,
    room: u32,
    byte_room: usize,
}

impl Model for WireList {
    ghost use Rattle.rtp_wire.specs.Wires.{Wires};

    ghost Value = { Wires };

    ghost use Rattle.rtp_wire.specs.Cutting.{wires_of, IsWhole};

    ghost view = { wires_of };

    ghost invariant = { IsWhole };
}

impl WireList {
    /// The empty list, with no room. It takes no memory.
    pub fn new(alloc: Global) -> Self
        ensures { result ≡ bare_wires [] }
    {
        WireList {
            bytes: Vec::new(alloc),
            ends: Vec::new(alloc),
            room: 0,
            byte_room: 0,
        }
    }

    /// How many packets there are.
    pub fn len(&self) -> u32
        ensures { result ≡ length self.now.items }
    {
        self.ends.len() as u32
    }

    /// Whether there is no packet.
    pub fn is_empty(&self) -> bool
        ensures { result ≡ (length self.now.items == 0) }
    {
        self.ends.is_empty()
    }

    /// The packet at a place, counted from 0; `None` exactly past the end.
    pub fn get(&self, k: u32) -> Option<&[u8]>
        ensures { option_map (λ wire. wire.now) result ≡ slice_get self.now.items k }
    {
        let ends = self.ends.as_slice();
        let k = k as usize;
        if k >= ends.len() {
            return None;
        }
        Some(&self.bytes.as_slice()[start_of(ends, k)..ends[k]])
    }

    /// Makes room for so many more packets and so many more bytes in all, and keeps the list. At
    /// `NoMemory` all is as before.
    pub fn reserve(&mut self, wires: u32, bytes: u32) -> Result<(), NoMemory>
        ensures items { self.new.items ≡ self.old.items }
        ensures room { OnOk result (wires ≤ self.new.room) }
        ensures byte_room { OnOk result (bytes ≤ self.new.byte_room) }
        ensures room_grows { self.old.room ≤ self.new.room }
        ensures byte_room_grows { self.old.byte_room ≤ self.new.byte_room }
        ensures err { OnErr result (self.new ≡ self.old) }
    {
        if wires > u32::MAX - self.ends.len() as u32 {
            return Err(NoMemory);
        }
        self.ends.reserve(wires as usize)?;
        self.bytes.reserve(bytes as usize)?;
        self.room = self.room.max(wires);
        self.byte_room = self.byte_room.max(bytes as usize);
        Ok(())
    }

    /// Puts a packet at the end with the two bytes at its place replaced by `low`, the low 16 bits
    /// of its transport-wide sequence number, the high byte first.
    pub fn push_stamped(&mut self, wire: &Wire<'_>, low: u16)
        requires room { 0 < self.old.room }
        requires bytes { length wire.now.bytes ≤ self.old.byte_room }
        ensures { self.new ≡ record {
          items = self.old.items ++ stamped wire.now.bytes wire.now.place low ∷ [];
          room = self.old.room - 1;
          byte_room = self.old.byte_room - length wire.now.bytes;
        } }
    {
        let packet = wire.bytes();
        put_stamped(&mut self.bytes, packet, wire.place() as usize, low);
        self.ends.push_reserved(self.bytes.len());
        self.room -= 1;
        self.byte_room -= packet.len();
    }

    /// Puts the padding packet of a number at the end, with its low 16 bits in the element of this
    /// ID.
    pub fn push_padding(&mut self, low: u16, id: u8)
        requires room { 0 < self.old.room }
        requires bytes { PADDING_PACKET ≤ self.old.byte_room }
        requires id_low { 1 ≤ id }
        requires id_high { id ≤ 14 }
        ensures { self.new ≡ record {
          items = self.old.items ++ padding_packet low id ∷ [];
          room = self.old.room - 1;
          byte_room = self.old.byte_room - PADDING_PACKET;
        } }
    {
        put_padding(&mut self.bytes, low, id);
        self.ends.push_reserved(self.bytes.len());
        self.room -= 1;
        self.byte_room -= PADDING_PACKET as usize;
    }

    /// Gives up both promises of room, so that two lists of the same packets are the same value.
    pub fn settle(&mut self)
        ensures { self.new ≡ bare_wires self.old.items }
    {
        self.room = 0;
        self.byte_room = 0;
    }

    /// The same list once more, with the same promises of room.
    pub fn copy(&self, alloc: Global) -> Result<WireList, NoMemory>
        ensures { IfOk result (λ wires. wires ≡ self.now) }
    {
        let mut ends = Vec::with_capacity(alloc, self.ends.len() + self.room as usize)?;
        let mut bytes = Vec::with_capacity(alloc, self.bytes.len() + self.byte_room)?;
        put(&mut ends, &self.ends);
        put(&mut bytes, &self.bytes);
        Ok(WireList {
            bytes,
            ends,
            room: self.room,
            byte_room: self.byte_room,
        })
    }
}

/// Where the packet at a place begins: where the one before it ends.
fn start_of(ends: &[usize], k: usize) -> usize
    requires { k < length ends.now }
    ensures { result ≡ start_at 0 ends.now k }
{
    if k == 0 { 0 } else { ends[k - 1] }
}

/// Puts items at the end, for which there is room.
pub fn put<T: Copy>(list: &mut Vec<T>, more: &[T])
    requires { vec_len list.old + length more.now ≤ vec_capacity list.old }
    ensures items { list.new.items ≡ list.old.items ++ more.now }
    ensures capacity { vec_capacity list.old ≤ vec_capacity list.new }
{
    match list.extend_from_slice(more) {
        Ok(()) => {}
        Err(_) => unreachable!(),
    }
}

/// Puts the bytes of a packet at the end, with the two at its place replaced.
fn put_stamped(bytes: &mut Vec<u8>, packet: &[u8], place: usize, low: u16)
    requires place { place + 2 ≤ length packet.now }
    requires room { vec_len bytes.old + length packet.now ≤ vec_capacity bytes.old }
    ensures items { bytes.new.items ≡ bytes.old.items ++ stamped packet.now place low }
    ensures capacity { vec_capacity bytes.old ≤ vec_capacity bytes.new }
{
    let (front, behind) = packet.split_at(place);
    put(bytes, front);
    put(bytes, &low.to_be_bytes());
    put(bytes, behind.split_at(2).1);
}

/// Puts the padding packet of a number at the end.
fn put_padding(bytes: &mut Vec<u8>, low: u16, id: u8)
    requires id { id ≤ 14 }
    requires room { vec_len bytes.old + PADDING_PACKET ≤ vec_capacity bytes.old }
    ensures items { bytes.new.items ≡ bytes.old.items ++ padding_packet low id }
    ensures capacity { vec_capacity bytes.old ≤ vec_capacity bytes.new }
{
    let number = low.to_be_bytes();
    put(bytes, &PADDING_HEAD);
    put(bytes, &number);
    put(bytes, &PADDING_SOURCE);
    put(bytes, &[0xbe, 0xde, 0, 1, 16 * id + 1]);
    put(bytes, &number);
    put(bytes, &[0; 236]);
    put(bytes, &[PADDING_COUNT]);
}
