//! The bytes of the packets that wait.

ghost use Rattle.std.specs.Prelude.{◌≡◌, ℕ, ◌==◌, None, Some, OnOk, IfErr, if◌then◌else◌};
ghost use Rattle.std.specs.Option.{option_copied};
ghost use Rattle.live_sender.specs.Held.{kept};
ghost use Rattle.pacer.specs.Pace.{is_index, names};

use gcc_units::Bytes;
use pacer::Sent;
use std::alloc::Global;
use std::collections::HashMap;
use std::marker::Model;

/// The bytes of packets that wait, by their indices.
#[derive(Drop)]
pub struct Packets {
    wires: HashMap<u32, Bytes>,
}

impl Model for Packets {
    ghost use Rattle.std.specs.Prelude.{ℕ, List};
    ghost use Rattle.gcc_units.specs.Listed.{Listed};

    ghost Value = { List (ℕ × Listed ℕ) };

    ghost view = { λ p. p.wires.entries };
}

impl Packets {
    /// No packet yet.
    pub fn new(alloc: Global) -> Packets
        ensures { (k : ℕ) → kept result k ≡ None }
    {
        Packets {
            wires: HashMap::new(alloc),
        }
    }

    /// Keeps a packet's bytes. Where memory runs out nothing has changed, and the bytes come back.
    pub fn keep(&mut self, index: u32, wire: Bytes) -> Result<(), Bytes>
        ensures ok { OnOk result ((k : ℕ) → kept self.new k ≡ (if index == k then Some wire else kept self.old k)) }
        ensures err { IfErr result (λ e. (self.new ≡ self.old) × (e ≡ wire)) }
    {
        match self.wires.insert(index, wire) {
            Ok(_) => Ok(()),
            Err(failed) => Err(failed.value.1),
        }
    }

    /// A packet, by its index.
    pub fn packet(&self, index: u32) -> Option<&Bytes>
        ensures { option_copied result ≡ kept self.now index }
    {
        self.wires.get(&index)
    }

    /// Frees the bytes of the packets that these records are of.
    pub fn free(&mut self, records: &[Sent])
        ensures { (k : ℕ) → kept self.new k ≡ (if names k records.now then None else kept self.old k) }
    {
        for sent in records {
            self.free_one(sent);
        }
    }

    // Frees the bytes of the packet that the record is of.
    fn free_one(&mut self, sent: &Sent)
        ensures { (k : ℕ) → kept self.new k ≡ (if is_index k sent.now.index then None else kept self.old k) }
    {
        if let Some(index) = sent.index {
            self.remove(index);
        }
    }

    /// Frees the bytes of one packet, unless they are to be kept.
    pub fn keep_only_if(&mut self, index: u32, stays: bool)
        ensures { (k : ℕ) → kept self.new k ≡ (if stays then kept self.old k else (if index == k then None else kept self.old k)) }
    {
        if !stays {
            self.remove(index);
        }
    }

    // Frees the bytes of one packet.
    fn remove(&mut self, index: u32)
        ensures { (k : ℕ) → kept self.new k ≡ (if index == k then None else kept self.old k) }
    {
        self.wires.remove(&index);
    }
}
