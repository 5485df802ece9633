//! A sender that hands out one packet at a time.

ghost use Rattle.std.specs.Prelude.{◌≡◌, ◌≤◌, ℕ, Bool, true, false, None, Some, Ok, Err, List, [], IfOk, IfErr, IfSome, length};
ghost use Rattle.gcc_units.specs.Listed.{bare};
ghost use Rattle.send_core.specs.declared.call.Call.TheVariants as call;
ghost use Rattle.send_core.specs.declared.call.Entry.{Entry};
ghost use Rattle.send_core.specs.Reply.{reply};
ghost use Rattle.steered_sender.specs.Standing.{IsControl, StandsFor, began_at, first, start_of, wanted_of};
ghost use Rattle.capi.specs.Codes.{is_served};
ghost use Rattle.capi.specs.Serving.{class_named, index_of};
ghost use Rattle.capi.specs.Outcomes.{Enqueues};
ghost use Rattle.capi.specs.declared.fault.Fault.TheVariants as fault;

use crate::fault::{Fault, fault_of};
use gcc_units::{Bytes, Class};
use pacer::SentList;
use rtp_wire::WireList;
use send_core::Reply;
use sent_history::FindingList;
use std::alloc::Global;
use std::marker::Model;
use steered_sender::{Control, SteeredSender};

/// The greatest number of bytes that a call takes: no UDP packet has more.
pub const MOST_BYTES: usize = 65_535;

/// A sender with its control, the packets of its last pace and what the last feedback told, of each those that
/// were not fetched yet.
#[derive(Drop)]
pub struct Sender {
    pub(crate) steered: SteeredSender,
    pub(crate) records: SentList,
    pub(crate) wires: WireList,
    pub(crate) fetched: u32,
    pub(crate) findings: FindingList,
    pub(crate) told: u32,
}

impl Model for Sender {
    ghost use Rattle.std.specs.Prelude.{drop, length, ◌≤◌};
    ghost use Rattle.capi.specs.Serving.{Serving, kept_from};

    ghost Value = { Serving };

    ghost view = { λ s. record { steered = s.steered; kept = kept_from s.fetched s.records.items s.wires.items; findings = drop s.told s.findings.items } };

    ghost invariant = { λ s. s.told ≤ length s.findings.items };
}

/// The class of this number: 0 audio, 1 retransmission, 2 video, 3 forward error correction.
pub fn class_named(class: u32) -> Option<Class>
    ensures { result ≡ class_named class }
{
    const CLASSES: [Class; 4] = [
        Class::Audio,
        Class::Retransmission,
        Class::Video,
        Class::Fec,
    ];
    CLASSES.get(class as usize).copied()
}

// The bytes, copied.
pub(crate) fn copied(alloc: Global, bytes: &[u8]) -> Result<Bytes, Fault>
    requires { length bytes.now ≤ MOST_BYTES }
    ensures bytes { IfOk result (λ copy. copy ≡ bare bytes.now) }
    ensures err { IfErr result (λ e. e ≡ fault.NoMemory) }
{
    match Vec::from_slice(alloc, bytes) {
        Ok(copy) => Ok(Bytes::from_vec(copy)),
        Err(_) => Err(Fault::NoMemory),
    }
}

// The index of an accepted packet, or why it was refused.
fn index_of(reply: &Reply) -> Result<u32, Fault>
    ensures { result ≡ index_of reply.now }
{
    match reply {
        Reply::Accepted { index, .. } => Ok(*index),
        Reply::Refused { cause, .. } => Err(Fault::Refused(*cause)),
        _ => Ok(0),
    }
}

impl Sender {
    /// A sender with the settings that a sender begins with, at moment 0, steered by this control.
    pub fn new(alloc: Global, control: Control) -> Result<Sender, Fault>
        requires { IsControl control }
        ensures stands { IfOk result (λ s. StandsFor s.steered (first control)) }
        ensures control { IfOk result (λ s. began_at s.steered.steering ≡ start_of control) }
        ensures kept { IfOk result (λ s. s.kept ≡ []) }
        ensures findings { IfOk result (λ s. s.findings ≡ []) }
        ensures err { IfErr result (λ e. e ≡ fault.NoMemory) }
    {
        let Ok(steered) = SteeredSender::new(alloc, control) else {
            return Err(Fault::NoMemory);
        };
        Ok(Sender {
            steered,
            records: SentList::new(alloc),
            wires: WireList::new(alloc),
            fetched: 0,
            findings: FindingList::new(alloc),
            told: 0,
        })
    }

    /// A packet is to be sent: plain RTP with room for the transport-wide number; it is copied. Its
    /// index, or why it is not among the accepted ones. Where the call is no entry of the history,
    /// nothing has changed, but that what the control asked for may have been served.
    #[tactic(auto, using(crate::proofs::Causes::exhausted_by, crate::proofs::Causes::index_told))]
    pub fn enqueue(
        &mut self,
        alloc: Global,
        at: u64,
        class: u32,
        packet: &[u8],
    ) -> Result<u32, Fault>
        ensures { Enqueues self.old self.new at class packet.now result }
    {
        let Some(class) = class_named(class) else {
            return Err(Fault::BadClass);
        };
        if packet.len() > MOST_BYTES {
            return Err(Fault::BadSize);
        }
        let wire = copied(alloc, packet)?;
        let reply = match self.steered.enqueue(alloc, at, class, wire) {
            Ok(reply) => reply,
            Err((fault, _wire)) => return Err(fault_of(fault)),
        };
        index_of(&reply)
    }
}
