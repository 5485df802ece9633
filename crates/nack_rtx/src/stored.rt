//! A packet that is kept for being sent again.

ghost use Rattle.std.specs.Prelude.{◌≡◌, ◌+◌, ◌<◌, ◌≤◌, ◌++◌, length, IfOk, OnOk, vec_len, vec_capacity};
ghost use Rattle.gcc_units.specs.Listed.{bare};
ghost use Rattle.nack_rtx.specs.Packets.{resent_packet};

use crate::MOST_KEPT_BYTES;
use gcc_units::{Bytes, NoMemory, Sequence};
use rtp_wire::{Wire, put};
use std::alloc::Global;
use std::marker::Model;

/// A packet, and how many bytes its header has.
#[derive(Drop)]
pub(crate) struct Stored {
    bytes: Vec<u8>,
    header: usize,
}

impl Model for Stored {
    ghost use Rattle.std.specs.Prelude.{◌≡◌, ◌≤◌, List, ℕ, length};
    ghost use Rattle.rtp_wire.specs.Place.{header_len};
    ghost use Rattle.nack_rtx.specs.declared.TheConstants.{MOST_KEPT_BYTES};

    ghost Value = { List ℕ };

    ghost view = { λ s. s.bytes.items };

    ghost invariant = { λ s. (s.header ≡ header_len s.bytes.items) × (s.header ≤ length s.bytes.items) × (length s.bytes.items ≤ MOST_KEPT_BYTES) };
}

impl Stored {
    /// The packet that was read.
    pub fn new(alloc: Global, wire: &Wire<'_>) -> Result<Stored, NoMemory>
        requires { length wire.now.bytes ≤ MOST_KEPT_BYTES }
        ensures { IfOk result (λ stored. stored ≡ wire.now.bytes) }
    {
        let packet = wire.bytes();
        let mut bytes = Vec::with_capacity(alloc, packet.len())?;
        put(&mut bytes, packet);
        Ok(Stored {
            bytes,
            header: wire.header_len() as usize,
        })
    }

    /// The packet as it is sent again: with this payload type, sequence number and SSRC, and with the
    /// original sequence number behind the header (RFC 4588, section 4).
    pub fn resent(&self, alloc: Global, payload: u8, seq: u16, ssrc: u32) -> Result<Bytes, NoMemory>
        requires { payload < 128 }
        ensures { IfOk result (λ packet. packet ≡ bare (resent_packet payload seq ssrc self.now)) }
    {
        let header = self.header;
        let bytes = self.bytes.as_slice();
        let mut packet = Vec::with_capacity(alloc, bytes.len() + 2)?;
        put(&mut packet, &bytes[..1]);
        put(&mut packet, &[bytes[1] / 128 * 128 + payload]);
        put(&mut packet, &seq.to_be_bytes());
        put(&mut packet, &bytes[4..8]);
        put(&mut packet, &ssrc.to_be_bytes());
        put(&mut packet, &bytes[12..header]);
        put(&mut packet, &bytes[2..4]);
        put(&mut packet, &bytes[header..]);
        Ok(Sequence::from_vec(packet))
    }
}
