//! The packets that leave with a pace.

ghost use Rattle.std.specs.Prelude.{◌≡◌, ◌+◌, ◌*◌, ◌≤◌, ◌<◌, ◌++◌, [], ◌∷◌, length, map, All};
ghost use Rattle.rtp_wire.specs.Wires.{bare_wires};
ghost use Rattle.send_core.specs.History.{sent_by};
ghost use Rattle.live_sender.specs.Held.{wire_from, CanLeave};

use crate::packets::Packets;
use gcc_units::GREATEST_PACKET;
use pacer::Sent;
use rtp_wire::{WireList, read_wire};
use send_core::{GREATEST_EXTENSION, LEAST_EXTENSION, Reply};

// Appends the packet of a record, stamped with its number.
fn stamp(packets: &Packets, id: u8, sent: &Sent, wires: &mut WireList)
    requires least { LEAST_EXTENSION ≤ id }
    requires greatest { id ≤ GREATEST_EXTENSION }
    requires ready { CanLeave id packets.now sent.now }
    requires room { 0 < wires.old.room }
    requires byte_room { GREATEST_PACKET ≤ wires.old.byte_room }
    ensures wires { wires.new.items ≡ wires.old.items ++ wire_from id packets.now sent.now ∷ [] }
    ensures room { wires.old.room ≤ wires.new.room + 1 }
    ensures byte_room { wires.old.byte_room ≤ wires.new.byte_room + GREATEST_PACKET }
{
    let low = (sent.number % 65_536) as u16;
    let Some(index) = sent.index else {
        return wires.push_padding(low, id);
    };
    let Some(packet) = packets.packet(index) else {
        unreachable!()
    };
    match read_wire(packet.as_slice(), id) {
        Ok(wire) => wires.push_stamped(&wire, low),
        Err(_) => unreachable!(),
    }
}

// Appends the packets of records, stamped with their numbers.
fn stamp_records(packets: &Packets, id: u8, records: &[Sent], wires: &mut WireList)
    requires least { LEAST_EXTENSION ≤ id }
    requires greatest { id ≤ GREATEST_EXTENSION }
    requires ready { All (CanLeave id packets.now) records.now }
    requires room { length records.now ≤ wires.old.room }
    requires byte_room { GREATEST_PACKET * length records.now ≤ wires.old.byte_room }
    ensures { wires.new.items ≡ wires.old.items ++ map (wire_from id packets.now) records.now }
{
    for sent in records {
        stamp(packets, id, sent, wires);
    }
}

/// The packets of a reply, stamped with their numbers, in room that was reserved.
pub fn stamp_all(packets: &Packets, id: u8, reply: &Reply, room: WireList) -> WireList
    requires least { LEAST_EXTENSION ≤ id }
    requires greatest { id ≤ GREATEST_EXTENSION }
    requires ready { All (CanLeave id packets.now) (sent_by reply.now) }
    requires empty { room.items ≡ [] }
    requires room { length (sent_by reply.now) ≤ room.room }
    requires byte_room { GREATEST_PACKET * length (sent_by reply.now) ≤ room.byte_room }
    ensures { result ≡ bare_wires (map (wire_from id packets.now) (sent_by reply.now)) }
{
    let mut stamped = room;
    if let Reply::Paced { sent, .. } = reply {
        stamp_records(packets, id, sent.as_slice(), &mut stamped);
    }
    stamped.settle();
    stamped
}
