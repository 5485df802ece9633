//! The packets that leave, one at a time.

ghost use Rattle.std.specs.Prelude.{◌≡◌, ◌<◌, true, false, Err, IfErr, ◌≤◌, ◌++◌, ◌∷◌, ℕ, MatchOption, List, [], IfOk, OnOk, OnErr, drop, length};
ghost use Rattle.send_core.specs.declared.call.Call.TheVariants as call;
ghost use Rattle.send_core.specs.declared.call.Entry.{Entry};
ghost use Rattle.send_core.specs.History.{sent_by};
ghost use Rattle.live_sender.specs.Live.{is_exhausted};
ghost use Rattle.steered_sender.specs.Standing.{StandsFor, served};
ghost use Rattle.send_core.specs.declared.call.Cause.TheVariants as cause;
ghost use Rattle.capi.specs.declared.fault.Fault.TheVariants as fault;
ghost use Rattle.capi.specs.Codes.{IfExhausted};
ghost use Rattle.capi.specs.Serving.{Serves, Stays, Leaving, IsFetched, IsUser, has_any, filled, popped, leaving};
ghost use Rattle.capi.specs.Outcomes.{Pops};
ghost use Rattle.capi.specs.Looking.{IsNextTime};

use crate::fault::{Fault, fault_of};
use crate::sender::Sender;
use gcc_units::{GREATEST_MOMENT, Moment};
use pacer::{Sent, SentList};
use send_core::{Answer, Cause, Reply};
use std::alloc::Global;

/// What a pop gives.
#[derive(Clone, Copy, PartialEq, Eq, Debug)]
pub enum Popped {
    /// A packet: its record, and its bytes, so many, stand at the front of the room.
    Packet(Sent, usize),
    /// Nothing may leave now.
    Nothing,
    /// The next packet has so many bytes, and the room fewer. It stays the next one.
    TooSmall(usize),
}

// The records of a reply.
fn records_of(alloc: Global, reply: Reply) -> SentList
    ensures { result.items ≡ sent_by reply }
{
    match reply {
        Reply::Paced { sent, .. } => sent,
        _ => SentList::new(alloc),
    }
}

// Puts the bytes at the front of the room.
fn put(room: &mut [u8], bytes: &[u8])
    requires { length bytes.now ≤ length room.old }
    ensures { room.new ≡ bytes.now ++ drop (length bytes.now) room.old }
{
    room[..bytes.len()].copy_from_slice(bytes);
}

impl Sender {
    // Whether packets of the last pace are left.
    fn has_kept(&self) -> bool
        ensures { result ≡ has_any self.now.kept }
    {
        self.next().is_some()
    }

    // The next packet that was not fetched yet.
    fn next(&self) -> Option<(Sent, &[u8])>
        ensures { MatchOption result (self.now.kept ≡ []) (λ p. (rest : List Leaving) × (self.now.kept ≡ (p.0, p.1.now) ∷ rest)) }
    {
        let Some(sent) = self.records.get(self.fetched) else {
            return None;
        };
        let Some(wire) = self.wires.get(self.fetched) else {
            return None;
        };
        Some((*sent, wire))
    }

    // The next packet counts as fetched.
    fn advance(&mut self)
        ensures steered { self.new.steered ≡ self.old.steered }
        ensures findings { self.new.findings ≡ self.old.findings }
        ensures kept { self.new.kept ≡ drop 1 self.old.kept }
    {
        if self.fetched < self.records.len() {
            self.fetched += 1;
        }
    }

    // One pace is served, and its packets are kept. On `Err` nothing has changed but what the control asked for.
    #[tactic(auto, using(crate::proofs::Causes::exhausted_by))]
    fn serve(&mut self, alloc: Global, at: u64) -> Result<(), Fault>
        ensures kept { OnOk result ((history : List Entry) → StandsFor self.old.steered history → self.new.kept ≡ leaving (served self.old.steered history) at) }
        ensures serves { OnOk result (Serves self.old.steered self.new.steered (call.Pace at)) }
        ensures findings { self.new.findings ≡ self.old.findings }
        ensures err { OnErr result (Stays self.old self.new) }
        ensures late { GREATEST_MOMENT < at → result ≡ Err (fault.Refused cause.MomentTooLarge) }
        ensures exhausted { IfErr result (λ e. IfExhausted e ((history : List Entry) → StandsFor self.old.steered history → is_exhausted history ≡ true)) }
    {
        if at > GREATEST_MOMENT {
            return Err(Fault::Refused(Cause::MomentTooLarge));
        }
        match self.steered.pace(alloc, at) {
            Ok(Answer { reply, wires }) => {
                self.records = records_of(alloc, reply);
                self.wires = wires;
                self.fetched = 0;
                Ok(())
            }
            Err(fault) => Err(fault_of(fault)),
        }
    }

    // Where no packet of the last pace is left, one pace is served. On `Err` nothing has changed but what the
    // control asked for.
    #[tactic(auto, using(crate::proofs::Kept::filled_kept, crate::proofs::Kept::popped_kept, crate::proofs::Kept::filled_none, crate::proofs::Kept::popped_none))]
    fn fill(&mut self, alloc: Global, at: u64) -> Result<(), Fault>
        ensures kept { OnOk result ((history : List Entry) → StandsFor self.old.steered history → self.new.kept ≡ filled self.old.steered history at self.old.kept) }
        ensures stands { OnOk result ((history : List Entry) (caller : ℕ) → IsUser caller → StandsFor self.old.steered history → StandsFor self.new.steered (popped self.old.steered history caller at self.old.kept)) }
        ensures findings { self.new.findings ≡ self.old.findings }
        ensures err { OnErr result (Stays self.old self.new) }
        ensures late { has_any self.old.kept ≡ false → GREATEST_MOMENT < at → result ≡ Err (fault.Refused cause.MomentTooLarge) }
        ensures exhausted { IfErr result (λ e. IfExhausted e ((history : List Entry) → StandsFor self.old.steered history → is_exhausted history ≡ true)) }
    {
        if self.has_kept() {
            return Ok(());
        }
        self.serve(alloc, at)
    }

    // Hands out the next packet, if there is one and the room is large enough.
    fn fetch(&mut self, room: &mut [u8]) -> Popped
        ensures steered { self.new.steered ≡ self.old.steered }
        ensures findings { self.new.findings ≡ self.old.findings }
        ensures packet { IsFetched result self.old.kept self.new.kept room.old room.new }
    {
        let Some((sent, wire)) = self.next() else {
            return Popped::Nothing;
        };
        let size = wire.len();
        if size > room.len() {
            return Popped::TooSmall(size);
        }
        put(room, wire);
        self.advance();
        Popped::Packet(sent, size)
    }

    /// The next packet that may leave at this moment, put at the front of the room. One pace is
    /// served, and its packets are kept until they are fetched; the next one is served only when
    /// none is left. On `Err` nothing has changed, but that what the control asked for may have been
    /// served, and nothing was written.
    pub fn pop(&mut self, alloc: Global, at: u64, room: &mut [u8]) -> Result<Popped, Fault>
        ensures { Pops self.old self.new at room.old room.new result }
    {
        self.fill(alloc, at)?;
        Ok(self.fetch(room))
    }

    /// When to call `pop` next, in microseconds, if no other call comes before it: at the moment of the
    /// last call where packets of the last pace were not fetched yet, or a change that the control asked
    /// for was not served yet, else at the first moment from it on at which a pace sends something. `None`
    /// where none up to `GREATEST_MOMENT` does.
    #[tactic(auto, using(crate::proofs::NextTimes::next_at_once, crate::proofs::NextTimes::next_paced))]
    pub fn next_time(&self) -> Option<Moment>
        ensures { IsNextTime self.now result }
    {
        if self.has_kept() || self.steered.is_asked() {
            return Some(self.steered.sender().moment());
        }
        self.steered.sender().next_send()
    }
}
