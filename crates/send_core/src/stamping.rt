//! The packets that leave with a pace.

ghost use Rattle.std.specs.Prelude.{◌≡◌, ◌+◌, ◌*◌, ◌≤◌, ◌<◌, ◌++◌, [], ◌∷◌, length, map, All, IfOk, min};
ghost use Rattle.pacer.specs.Pace.{NamesBelow};
ghost use Rattle.rtp_wire.specs.Wires.{bare_wires};
ghost use Rattle.send_core.specs.History.{accepted, sent_by};
ghost use Rattle.send_core.specs.Stands.{IsReadable};
ghost use Rattle.send_core.specs.Wires.{wire_of};

use crate::call::Reply;
use crate::journal::Journal;
use crate::settings::{GREATEST_EXTENSION, LEAST_EXTENSION};
use gcc_units::{GREATEST_PACKET, MOST_SENDS, NoMemory};
use pacer::Sent;
use rtp_wire::{WireList, read_wire};
use std::alloc::Global;

/// Room for the packets of so many records.
pub fn wire_room(alloc: Global, sends: u32) -> Result<WireList, NoMemory>
    requires { sends ≤ MOST_SENDS }
    ensures empty { IfOk result (λ w. w.items ≡ []) }
    ensures room { IfOk result (λ w. sends ≤ w.room) }
    ensures byte_room { IfOk result (λ w. GREATEST_PACKET * sends ≤ w.byte_room) }
{
    let mut wires = WireList::new(alloc);
    wires.reserve(sends, GREATEST_PACKET * sends)?;
    Ok(wires)
}

/// Appends the packet of a record, stamped with its number.
fn stamp(journal: &Journal, id: u8, sent: &Sent, wires: &mut WireList)
    requires least { LEAST_EXTENSION ≤ id }
    requires greatest { id ≤ GREATEST_EXTENSION }
    requires readable { All (IsReadable id) (accepted journal.now.items) }
    requires known { NamesBelow (length (accepted journal.now.items)) sent.now }
    requires room { 0 < wires.old.room }
    requires byte_room { GREATEST_PACKET ≤ wires.old.byte_room }
    ensures wires { wires.new.items ≡ wires.old.items ++ wire_of id (accepted journal.now.items) sent.now ∷ [] }
    ensures room { wires.old.room ≤ wires.new.room + 1 }
    ensures byte_room { wires.old.byte_room ≤ wires.new.byte_room + GREATEST_PACKET }
{
    let low = (sent.number % 65_536) as u16;
    match sent.index {
        Some(index) => match read_wire(journal.packet(index), id) {
            Ok(wire) => wires.push_stamped(&wire, low),
            Err(_) => unreachable!(),
        },
        None => wires.push_padding(low, id),
    }
}

/// Appends the packets of records, stamped with their numbers.
fn stamp_records(journal: &Journal, id: u8, records: &[Sent], wires: &mut WireList)
    requires least { LEAST_EXTENSION ≤ id }
    requires greatest { id ≤ GREATEST_EXTENSION }
    requires readable { All (IsReadable id) (accepted journal.now.items) }
    requires known { All (NamesBelow (length (accepted journal.now.items))) records.now }
    requires room { length records.now ≤ wires.old.room }
    requires byte_room { GREATEST_PACKET * length records.now ≤ wires.old.byte_room }
    ensures { wires.new.items ≡ wires.old.items ++ map (wire_of id (accepted journal.now.items)) records.now }
{
    for sent in records {
        stamp(journal, id, sent, wires);
    }
}

/// The packets of a reply, stamped with their numbers, in room that was reserved.
pub fn stamp_all(journal: &Journal, id: u8, reply: &Reply, room: WireList) -> WireList
    requires least { LEAST_EXTENSION ≤ id }
    requires greatest { id ≤ GREATEST_EXTENSION }
    requires readable { All (IsReadable id) (accepted journal.now.items) }
    requires known { All (NamesBelow (length (accepted journal.now.items))) (sent_by reply.now) }
    requires empty { room.items ≡ [] }
    requires room { length (sent_by reply.now) ≤ room.room }
    requires byte_room { GREATEST_PACKET * length (sent_by reply.now) ≤ room.byte_room }
    ensures { result ≡ bare_wires (map (wire_of id (accepted journal.now.items)) (sent_by reply.now)) }
{
    let mut stamped = room;
    if let Reply::Paced { sent, .. } = reply {
        stamp_records(journal, id, sent.as_slice(), &mut stamped);
    }
    stamped.settle();
    stamped
}
