//! Keeping the packets that left.

ghost use Rattle.std.specs.Prelude.{◌≡◌, ◌<◌, ◌++◌, Some, List, All, length, slice_get, IfOk, IfErr, OnOk};
ghost use Rattle.send_core.specs.History.{sent_by};
ghost use Rattle.nack_rtx.specs.Resending.{Event};
ghost use Rattle.nack_rtx.specs.Keeping.{StandsFor};
ghost use Rattle.resending.specs.Serving.{kept_as, kept_among};
ghost use Rattle.resending.specs.Alone.{IsCause};
ghost use Rattle.resending.specs.Standing.{CanRead};

use crate::stop::Stop;
use nack_rtx::Resender;
use pacer::{Sent, SentList};
use rtp_wire::{Wire, WireList, read_wire};
use send_core::{GREATEST_EXTENSION, LEAST_EXTENSION};

/// Reads a packet with the ID of its extension element.
fn read_by<'a>(bytes: &'a [u8], id: u64) -> Result<Wire<'a>, Stop>
    ensures bytes { IfOk result (λ wire. wire.bytes ≡ bytes.now) }
    ensures stopped { IfErr result (λ why. CanRead id bytes.now → IsCause why 0) }
{
    if id < LEAST_EXTENSION || id > GREATEST_EXTENSION {
        return Err(Stop::Unread);
    }
    match read_wire(bytes, id as u8) {
        Ok(wire) => Ok(wire),
        Err(_) => Err(Stop::Unread),
    }
}

/// Keeps a packet that left, where it was handed in.
fn keep_one(resender: &mut Resender, id: u64, sent: &Sent, bytes: &[u8]) -> Result<(), Stop>
    ensures kept { OnOk result ((events : List Event) → StandsFor resender.old events
        → StandsFor resender.new (events ++ kept_as bytes.now sent.now.index)) }
    ensures settings { resender.new.settings ≡ resender.old.settings }
    ensures stopped { IfErr result (λ why. CanRead id bytes.now → IsCause why 0) }
{
    match sent.index {
        None => Ok(()),
        Some(_) => {
            let wire = read_by(bytes, id)?;
            match resender.keep(&wire) {
                Ok(_) => Ok(()),
                Err(_) => Err(Stop::NoMemory),
            }
        }
    }
}

/// The packet at a place.
fn wire_at(wires: &WireList, k: u32) -> &[u8]
    requires { k < length wires.now.items }
    ensures { slice_get wires.now.items k ≡ Some result.now }
{
    let Some(wire) = wires.get(k) else {
        unreachable!();
    };
    wire
}

/// The record at a place.
fn sent_at(sent: &SentList, k: u32) -> &Sent
    requires { k < length sent.now.items }
    ensures { slice_get sent.now.items k ≡ Some result.now }
{
    let Some(packet) = sent.get(k) else {
        unreachable!();
    };
    packet
}

/// Keeps those packets that were handed in, of packets that left and their records.
pub fn keep_all(
    resender: &mut Resender,
    id: u64,
    sent: &SentList,
    wires: &WireList,
) -> Result<(), Stop>
    requires { length wires.now.items ≡ length sent.now.items }
    ensures kept { OnOk result ((events : List Event) → StandsFor resender.old events
        → StandsFor resender.new (events ++ kept_among wires.now.items sent.now.items)) }
    ensures settings { resender.new.settings ≡ resender.old.settings }
    ensures stopped { IfErr result (λ why. All (CanRead id) wires.now.items → IsCause why 0) }
{
    for k in 0..sent.len() {
        keep_one(resender, id, sent_at(sent, k), wire_at(wires, k))?;
    }
    Ok(())
}
