//! The live sender.

ghost use Rattle.std.specs.Prelude.{◌≡◌, ◌≤◌, ◌↔◌, ℕ, true, false, List, [], ◌∷◌, ◌++◌, IfOk, IfErr, OnOk, OnErr, length};

use crate::packets::Packets;
use crate::serving::{id_of, is_accepted, judged_by, pace_parts, quiet, records_of};
use crate::stamping::stamp_all;
use crate::sums::Sums;
use gcc_units::{Bytes, Class, MOST_REPORTS, MOST_SENDS, NoMemory};
use rtp_wire::WireList;
use send_core::{
    Answer, Call, Change, MOST_ACCEPTED, MOST_SENT, Parts, Reply, most_paced, wire_room,
};
use sent_history::FindingList;
use std::alloc::Global;
use std::marker::Model;

/// Why a call was not served.
#[derive(Clone, Copy, PartialEq, Eq, Debug)]
pub enum LiveFault {
    /// More calls could pass a limit: more than `MOST_SENT - MOST_SENDS` packets were sent,
    /// `MOST_REPORTS` reports were judged, or `MOST_ACCEPTED` packets were accepted.
    Exhausted,
    /// Memory ran out.
    NoMemory,
}

/// A media sender that keeps no journal. Contracts say for every history of calls that it stands for
/// what it replies, and that it stands for that history with the call and its reply afterwards.
#[derive(Drop)]
pub struct LiveSender {
    parts: Parts,
    packets: Packets,
    judged: u32,
    sums: Sums,
}

impl Model for LiveSender {
    ghost use Rattle.std.specs.Prelude.{List};
    ghost use Rattle.send_core.specs.declared.call.Entry.{Entry};
    ghost use Rattle.live_sender.specs.Live.{Live, StandsFor};

    ghost Value = { Live };

    ghost view = { λ s. record { parts = s.parts; packets = s.packets; judged = s.judged; sums = s.sums } };

    ghost invariant = { λ s. (history : List Entry) × StandsFor (record { parts = s.parts; packets = s.packets; judged = s.judged; sums = s.sums }) history };
}

impl LiveSender {
    ghost use Rattle.send_core.specs.declared.call.Call.TheVariants as call;
    ghost use Rattle.send_core.specs.declared.call.Entry.{Entry};
    ghost use Rattle.send_core.specs.History.{entry, sent_by};
    ghost use Rattle.gcc_units.specs.Listed.{bare};
    ghost use Rattle.send_core.specs.Reply.{reply};
    ghost use Rattle.send_core.specs.Reports.{findings_by};
    ghost use Rattle.send_core.specs.Wires.{wires};
    ghost use Rattle.rtp_wire.specs.Wires.{bare_wires};
    ghost use Rattle.live_sender.specs.declared.live.LiveFault.TheVariants as fault;
    ghost use Rattle.live_sender.specs.Live.{StandsFor, is_exhausted};

    /// A sender with the settings that a sender begins with, at moment 0.
    pub fn new(alloc: Global) -> Result<LiveSender, NoMemory>
        ensures stands { IfOk result (λ s. StandsFor s []) }
    {
        Ok(LiveSender {
            parts: Parts::new(alloc)?,
            packets: Packets::new(alloc),
            judged: 0,
            sums: Sums::none(),
        })
    }

    /// Whether one more call could pass a limit.
    pub fn is_exhausted(&self) -> bool
        ensures { (history : List Entry) → StandsFor self.now history → result ≡ is_exhausted history }
    {
        self.parts.history.sent() > MOST_SENT - u64::from(MOST_SENDS)
            || (self.judged >= MOST_REPORTS || self.parts.accepted >= MOST_ACCEPTED)
    }

    // The parts, which stand for the history.
    pub(crate) fn parts(&self) -> &Parts
        ensures parts { result.now ≡ self.now.parts }
        ensures stands { (history : List Entry) × StandsFor self.now history }
    {
        &self.parts
    }

    // How many reports were judged.
    pub(crate) fn judged(&self) -> u32
        ensures { result ≡ self.now.judged }
    {
        self.judged
    }

    // What the replies add up to.
    pub(crate) fn sums(&self) -> Sums
        ensures { result ≡ self.now.sums }
    {
        self.sums
    }

    /// What may leave now is sent. On `Err` nothing has changed.
    pub fn pace(&mut self, alloc: Global, at: u64) -> Result<Answer, LiveFault>
        ensures reply { IfOk result (λ a. (history : List Entry) → StandsFor self.old history → a.reply ≡ reply history (call.Pace at)) }
        ensures wires { IfOk result (λ a. (history : List Entry) → StandsFor self.old history → a.wires ≡ bare_wires (wires history a.reply)) }
        ensures stands { IfOk result (λ a. (history : List Entry) (caller : ℕ) → StandsFor self.old history → StandsFor self.new (history ++ entry caller (call.Pace at) a.reply ∷ [])) }
        ensures err { OnErr result (self.new ≡ self.old) }
        ensures served { OnOk result ((history : List Entry) → StandsFor self.old history → is_exhausted history ≡ false) }
        ensures exhausted { IfErr result (λ e. (history : List Entry) → StandsFor self.old history → (e ≡ fault.Exhausted) ↔ (is_exhausted history ≡ true)) }
    {
        if self.is_exhausted() {
            return Err(LiveFault::Exhausted);
        }
        let most = most_paced(&self.parts);
        let Ok(room) = wire_room(alloc, most) else {
            return Err(LiveFault::NoMemory);
        };
        let id = id_of(&self.parts);
        let Ok(reply) = pace_parts(&mut self.parts, alloc, at, most) else {
            return Err(LiveFault::NoMemory);
        };
        let wires = stamp_all(&self.packets, id, &reply, room);
        self.packets.free(records_of(&reply));
        self.sums.add(&reply);
        Ok(Answer { reply, wires })
    }

    /// A packet is to be sent. On `Err` nothing has changed, and the packet comes back.
    pub fn enqueue(
        &mut self,
        at: u64,
        class: Class,
        wire: Bytes,
    ) -> Result<Reply, (LiveFault, Bytes)>
        ensures reply { IfOk result (λ r. (history : List Entry) → StandsFor self.old history → r ≡ reply history (call.Enqueue at class wire)) }
        ensures nothing_leaves { IfOk result (λ r. sent_by r ≡ []) }
        ensures stands { IfOk result (λ r. (history : List Entry) (caller : ℕ) → StandsFor self.old history → StandsFor self.new (history ++ entry caller (call.Enqueue at class wire) r ∷ [])) }
        ensures err { IfErr result (λ e. (self.new ≡ self.old) × (e.1 ≡ wire)) }
        ensures served { OnOk result ((history : List Entry) → StandsFor self.old history → is_exhausted history ≡ false) }
        ensures exhausted { IfErr result (λ e. (history : List Entry) → StandsFor self.old history → (e.0 ≡ fault.Exhausted) ↔ (is_exhausted history ≡ true)) }
    {
        if self.is_exhausted() {
            return Err((LiveFault::Exhausted, wire));
        }
        let index = self.parts.accepted;
        if let Err(wire) = self.packets.keep(index, wire) {
            return Err((LiveFault::NoMemory, wire));
        }
        let Some(kept) = self.packets.packet(index) else {
            unreachable!()
        };
        let reply = self.parts.enqueue(at, class, kept);
        self.packets.keep_only_if(index, is_accepted(&reply));
        self.sums.note(&reply);
        Ok(reply)
    }

    /// What a report tells of packets for the first time, each with its number, if it is handed in next: which are
    /// credited and which are missing, in the order of its statuses. Nothing where the bytes are no report. It takes
    /// memory for them.
    pub fn findings(&self, alloc: Global, bytes: &Bytes) -> Result<FindingList, LiveFault>
        ensures found { IfOk result (λ list. (history : List Entry) → StandsFor self.now history → list ≡ bare (findings_by history bytes.now.items)) }
        ensures exhausted { IfErr result (λ e. (history : List Entry) → StandsFor self.now history → (e ≡ fault.Exhausted) ↔ (is_exhausted history ≡ true)) }
    {
        if self.is_exhausted() {
            return Err(LiveFault::Exhausted);
        }
        let Ok(found) = self.parts.findings(alloc, bytes) else {
            return Err(LiveFault::NoMemory);
        };
        Ok(found)
    }

    /// A report came. On `Err` nothing has changed.
    pub fn report(&mut self, alloc: Global, at: u64, bytes: &Bytes) -> Result<Reply, LiveFault>
        ensures reply { IfOk result (λ r. (history : List Entry) → StandsFor self.old history → r ≡ reply history (call.Report at bytes.now)) }
        ensures nothing_leaves { IfOk result (λ r. sent_by r ≡ []) }
        ensures stands { IfOk result (λ r. (history : List Entry) (caller : ℕ) → StandsFor self.old history → StandsFor self.new (history ++ entry caller (call.Report at bytes.now) r ∷ [])) }
        ensures err { OnErr result (self.new ≡ self.old) }
        ensures served { OnOk result ((history : List Entry) → StandsFor self.old history → is_exhausted history ≡ false) }
        ensures exhausted { IfErr result (λ e. (history : List Entry) → StandsFor self.old history → (e ≡ fault.Exhausted) ↔ (is_exhausted history ≡ true)) }
    {
        if self.is_exhausted() {
            return Err(LiveFault::Exhausted);
        }
        let Ok((reply, _room)) = self.parts.report(alloc, at, bytes) else {
            return Err(LiveFault::NoMemory);
        };
        self.judged += judged_by(&reply);
        self.sums.add(&reply);
        Ok(reply)
    }

    /// Settings are changed. On `Err` nothing has changed.
    pub fn configure(&mut self, alloc: Global, at: u64, change: &Change) -> Result<Reply, LiveFault>
        ensures reply { IfOk result (λ r. (history : List Entry) → StandsFor self.old history → r ≡ reply history (call.Configure at change.now)) }
        ensures nothing_leaves { IfOk result (λ r. sent_by r ≡ []) }
        ensures stands { IfOk result (λ r. (history : List Entry) (caller : ℕ) → StandsFor self.old history → StandsFor self.new (history ++ entry caller (call.Configure at change.now) r ∷ [])) }
        ensures err { OnErr result (self.new ≡ self.old) }
        ensures served { OnOk result ((history : List Entry) → StandsFor self.old history → is_exhausted history ≡ false) }
        ensures exhausted { IfErr result (λ e. (history : List Entry) → StandsFor self.old history → (e ≡ fault.Exhausted) ↔ (is_exhausted history ≡ true)) }
    {
        if self.is_exhausted() {
            return Err(LiveFault::Exhausted);
        }
        let Ok((reply, _room)) = self.parts.configure(alloc, at, change) else {
            return Err(LiveFault::NoMemory);
        };
        self.sums.note(&reply);
        Ok(reply)
    }

    /// Serves one call. On `Err` nothing has changed, and the call comes back.
    pub fn apply(&mut self, alloc: Global, call: Call) -> Result<Answer, (LiveFault, Call)>
        ensures reply { IfOk result (λ a. (history : List Entry) → StandsFor self.old history → a.reply ≡ reply history call) }
        ensures wires { IfOk result (λ a. (history : List Entry) → StandsFor self.old history → a.wires ≡ bare_wires (wires history a.reply)) }
        ensures stands { IfOk result (λ a. (history : List Entry) (caller : ℕ) → StandsFor self.old history → StandsFor self.new (history ++ entry caller call a.reply ∷ [])) }
        ensures err { IfErr result (λ e. (self.new ≡ self.old) × (e.1 ≡ call)) }
        ensures served { OnOk result ((history : List Entry) → StandsFor self.old history → is_exhausted history ≡ false) }
        ensures exhausted { IfErr result (λ e. (history : List Entry) → StandsFor self.old history → (e.0 ≡ fault.Exhausted) ↔ (is_exhausted history ≡ true)) }
    {
        match call {
            Call::Enqueue { at, class, wire } => match self.enqueue(at, class, wire) {
                Ok(reply) => Ok(quiet(alloc, reply)),
                Err((fault, wire)) => Err((fault, Call::Enqueue { at, class, wire })),
            },
            Call::Pace { at } => match self.pace(alloc, at) {
                Ok(answer) => Ok(answer),
                Err(fault) => Err((fault, Call::Pace { at })),
            },
            Call::Report { at, bytes } => match self.report(alloc, at, &bytes) {
                Ok(reply) => Ok(quiet(alloc, reply)),
                Err(fault) => Err((fault, Call::Report { at, bytes })),
            },
            Call::Configure { at, change } => match self.configure(alloc, at, change.get()) {
                Ok(reply) => Ok(quiet(alloc, reply)),
                Err(fault) => Err((fault, Call::Configure { at, change })),
            },
        }
    }
}
