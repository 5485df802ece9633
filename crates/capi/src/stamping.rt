//! Parts that stand alone, for those with a pacer of their own: the place of the transport-wide number
//! in a packet, and its stamp.

ghost use Rattle.std.specs.Prelude.{◌≡◌, ◌≤◌, ◌+◌, IfOk, length};
ghost use Rattle.rtp_wire.specs.Stamp.{stamped};
ghost use Rattle.capi.specs.Stamping.{Places, Stamps};

use crate::fault::Fault;
use rtp_wire::read_wire;
use send_core::{Cause, GREATEST_EXTENSION, LEAST_EXTENSION};

/// The check of the settings that an ID of the extension element fails, where it is not 1 to 14.
pub const ID_CHECK: u32 = 4;

/// Where the two bytes of the transport-wide number stand in a packet, counted from 0, under this ID of
/// the extension element. `Refused` with the check that fails first, of the packet or, of an ID
/// that is not 1 to 14, of the settings (RFC 8285, section 4.2).
pub fn place_in(packet: &[u8], id: u32) -> Result<u32, Fault>
    ensures place { Places packet.now id result }
    ensures inside { IfOk result (λ place. place + 2 ≤ length packet.now) }
{
    if u64::from(id) < LEAST_EXTENSION || u64::from(id) > GREATEST_EXTENSION {
        return Err(Fault::Refused(Cause::Config(ID_CHECK)));
    }
    match read_wire(packet, id as u8) {
        Ok(wire) => Ok(wire.place()),
        Err(fault) => Err(Fault::Refused(Cause::Wire(fault))),
    }
}

// Puts a number of two bytes at a place.
fn put_number(packet: &mut [u8], place: usize, low: u16)
    requires { place + 2 ≤ length packet.old }
    ensures { packet.new ≡ stamped packet.old place low }
{
    packet[place..place + 2].copy_from_slice(&low.to_be_bytes());
}

/// Stamps a packet in place with the lowest 16 bits of a number, in the element of this ID. On `Err`,
/// which is that of `place_in`, the packet is as before.
pub fn stamp(packet: &mut [u8], id: u32, number: u64) -> Result<(), Fault>
    ensures { Stamps packet.old packet.new id number result }
{
    let place = place_in(packet, id)?;
    put_number(packet, place as usize, (number % 65_536) as u16);
    Ok(())
}
