//! The sender.

ghost use Rattle.std.specs.Prelude.{◌≡◌, ℕ, ◌+◌, ◌*◌, ◌<◌, ◌≤◌, ◌↔◌, [], ◌∷◌, ◌++◌, length, min, IfOk, IfErr, OnOk, IsErr};

use crate::bounds::most_sends;
use crate::call::{Answer, ApplyFault, Call, Entry};
use crate::copies::twin;
use crate::journal::Journal;
use crate::parts::Parts;
use crate::stamping::{stamp_all, wire_room};
use gcc_units::{BOARD_LENGTHS, GREATEST_RATE, MOST_ENTRIES, NoMemory, Rate};
use std::alloc::Global;
use std::marker::Model;

/// A media sender. Contracts see it as its history: the list of its journal's entries.
#[derive(Drop)]
pub struct Sender {
    journal: Journal,
    parts: Parts,
}

impl Model for Sender {
    ghost use Rattle.std.specs.Prelude.{List};
    ghost use Rattle.send_core.specs.declared.call.Entry.{Entry};

    ghost Value = { List Entry };

    ghost use Rattle.send_core.specs.Reply.{IsLegal};
    ghost use Rattle.send_core.specs.Stands.{StandsFor};

    ghost view = { λ s. s.journal.items };

    ghost invariant = { λ s. IsLegal s.journal.items × StandsFor s.parts s.journal.items };
}

impl Sender {
    ghost use Rattle.send_core.specs.declared.call.ApplyFault.TheVariants as fault;
    ghost use Rattle.send_core.specs.History.{entry};
    ghost use Rattle.send_core.specs.Estimates.{target};
    ghost use Rattle.send_core.specs.Reply.{reply, board, IsLegal};
    ghost use Rattle.send_core.specs.Wires.{wires};
    ghost use Rattle.rtp_wire.specs.Wires.{bare_wires};

    /// A sender with the settings that a sender begins with, at moment 0. It takes the memory of
    /// the waiting packets, of the sent packets that are kept, and of the received rate.
    pub fn new(alloc: Global) -> Result<Sender, NoMemory>
        ensures { IfOk result (λ s. s ≡ []) }
    {
        let parts = Parts::new(alloc)?;
        let target = parts.estimator.current().target;
        let journal = Journal::new(alloc, parts.pacer.tally(), target)?;
        Ok(Sender { journal, parts })
    }

    /// Serves one call. On `Ok` the journal has grown by exactly the entry of this caller, this
    /// call and this reply. On `Err` nothing has changed and the call comes back: `JournalFull`
    /// comes exactly where the journal holds `MOST_ENTRIES` entries, `NoMemory` where memory ran
    /// out before the first change.
    pub fn apply(
        &mut self,
        alloc: Global,
        caller: u32,
        call: Call,
    ) -> Result<Answer, (ApplyFault, Call)>
        ensures reply { IfOk result (λ a. a.reply ≡ reply self.old call) }
        ensures wires { IfOk result (λ a. a.wires ≡ bare_wires (wires self.old a.reply)) }
        ensures grows { IfOk result (λ a. self.new ≡ self.old ++ entry caller call a.reply ∷ []) }
        ensures room { OnOk result (length self.old < MOST_ENTRIES) }
        ensures err { IfErr result (λ e. (self.new ≡ self.old) × (e.1 ≡ call)) }
        ensures full { IfErr result (λ e. (e.0 ≡ fault.JournalFull) ↔ (length self.old ≡ MOST_ENTRIES)) }
    {
        if self.journal.len() >= MOST_ENTRIES {
            return Err((ApplyFault::JournalFull, call));
        }
        if self.journal.reserve().is_err() {
            return Err((ApplyFault::NoMemory, call));
        }
        let most = most_sends(&self.parts, &call);
        let Ok(packets) = wire_room(alloc, most) else {
            return Err((ApplyFault::NoMemory, call));
        };
        let id = self.parts.settings.extension_id as u8;
        let Ok((reply, rooms)) = self.parts.serve(alloc, &call, most) else {
            return Err((ApplyFault::NoMemory, call));
        };
        let answer = Answer {
            reply: twin(&reply, rooms),
            wires: stamp_all(&self.journal, id, &reply, packets),
        };
        let tally = self.parts.pacer.tally();
        let target = self.parts.estimator.current().target;
        self.journal.add(
            Entry {
                caller,
                call,
                reply,
            },
            tally,
            target,
        );
        Ok(answer)
    }

    /// The entries of all calls that were served.
    pub fn journal(&self) -> &Journal
        ensures entries { result.now.items ≡ self.now }
        ensures legal { IsLegal self.now }
    {
        &self.journal
    }

    /// The target rate, in bit/s.
    pub fn target(&self) -> Rate
        ensures target { result ≡ target self.now }
        ensures greatest { result ≤ GREATEST_RATE }
    {
        self.parts.estimator.current().target
    }

    /// The journal's length plus 2^20 times the target.
    pub fn board(&self) -> u64
        ensures board { result ≡ board self.now }
        ensures short { length self.now ≤ MOST_ENTRIES }
    {
        u64::from(self.journal.len()) + BOARD_LENGTHS * self.target()
    }
}
