//! One who serves lines on a seat of its own.

ghost use Rattle.std.specs.Prelude.{◌≡◌, ℕ, ◌++◌, [], ◌∷◌, List, All, length, Ok, IfOk, IfErr, OnOk};
ghost use Rattle.nack_rtx.specs.declared.resender.RtxSettings.{RtxSettings};
ghost use Rattle.send_core.specs.History.{sent_by};
ghost use Rattle.nack_rtx.specs.Spelling.{view};
ghost use Rattle.nack_rtx.specs.Reading.{nack_of};
ghost use Rattle.nack_rtx.specs.Resending.{Event};
ghost use Rattle.nack_rtx.specs.Keeping.{StandsFor};
ghost use Rattle.resending.specs.Serving.{Serving, kept_among, served_call, served_nack, served_report, served_asking, served_look, served_line};
ghost use Rattle.resending.specs.Alone.{IsSeated, IsAlone, IsCause};
ghost use Rattle.resending.specs.Standing.{Stands, CanRead, named_by, id_after};

use crate::asking::{ask, enqueue_all};
use crate::keeping::keep_all;
use crate::nack_line::{NackLine, NackLineList};
use crate::stop::Stop;
use call_trace::{Action, Line};
use gcc_units::Bytes;
use nack_rtx::{Nack, ReadNack, Resender, read_nack};
use reply_text::{Seen, SeenList};
use send_core::{Answer, Call, Reply};
use shared_sender::{SenderSeat, Shared};
use std::alloc::Global;
use std::sync::Wait;

/// One who serves the lines of a trace.
#[derive(Drop)]
pub struct Server {
    pub seat: SenderSeat,
    pub resender: Resender,
    /// The ID in force of the extension element that holds a packet's number.
    pub extension_id: u64,
    pub nacks: NackLineList,
    pub glances: SeenList,
}

/// The ID of the extension element that a call names, if it names one.
fn named_by(call: &Call) -> Option<u64>
    ensures { result ≡ named_by call.now }
{
    match call {
        Call::Configure { change, .. } => change.get().extension_id,
        Call::Enqueue { .. } | Call::Pace { .. } | Call::Report { .. } => None,
    }
}

impl Server {
    /// Keeps what left with an answer, and the ID that its call named.
    fn note(&mut self, named: Option<u64>, answer: &Answer) -> Result<(), Stop>
        requires { length answer.now.wires.items ≡ length (sent_by answer.now.reply) }
        ensures seat { self.new.seat ≡ self.old.seat }
        ensures lists { (self.new.nacks ≡ self.old.nacks) × (self.new.glances ≡ self.old.glances) }
        ensures settings { self.new.resender.settings ≡ self.old.resender.settings }
        ensures kept { OnOk result ((events : List Event) → StandsFor self.old.resender events
            → StandsFor self.new.resender (events ++ kept_among answer.now.wires.items (sent_by answer.now.reply))) }
        ensures id { OnOk result (self.new.extension_id ≡ id_after self.old.extension_id named answer.now.reply) }
        ensures stopped { IfErr result (λ why. All (CanRead self.old.extension_id) answer.now.wires.items → IsCause why 0) }
    {
        match &answer.reply {
            Reply::Paced { sent, .. } => {
                keep_all(&mut self.resender, self.extension_id, sent, &answer.wires)
            }
            Reply::Configured { .. } => {
                self.extension_id = named.unwrap_or(self.extension_id);
                Ok(())
            }
            Reply::Accepted { .. } | Reply::Credited { .. } | Reply::Refused { .. } => Ok(()),
        }
    }

    /// Makes a call.
    fn call<R: Wait>(
        &mut self,
        rt: &R,
        alloc: Global,
        shared: &Shared,
        call: Call,
    ) -> Result<(), Stop>
        requires { IsSeated shared.now.of self.old.seat }
        ensures seated { IsSeated shared.now.of self.new.seat }
        ensures served { OnOk result ((s : RtxSettings) (v : Serving) → Stands s v self.old → Stands s (served_call v call) self.new) }
        ensures stopped { IfErr result (λ why. (s : RtxSettings) (v : Serving) → Stands s v self.old → IsAlone self.new.seat
            → IsCause why (length (served_call v call).history)) }
    {
        let named = named_by(&call);
        let answer = ask(rt, alloc, shared, &mut self.seat, call)?;
        self.note(named, &answer)
    }

    /// Answers a NACK that came at this moment.
    fn answer<R: Wait>(
        &mut self,
        rt: &R,
        alloc: Global,
        shared: &Shared,
        at: u64,
        nack: &Nack,
    ) -> Result<(), Stop>
        requires { IsSeated shared.now.of self.old.seat }
        ensures seated { IsSeated shared.now.of self.new.seat }
        ensures served { OnOk result ((s : RtxSettings) (v : Serving) → Stands s v self.old → Stands s (served_nack s v at (view nack.now)) self.new) }
        ensures stopped { IfErr result (λ why. (s : RtxSettings) (v : Serving) → Stands s v self.old → IsAlone self.new.seat
            → IsCause why (length (served_nack s v at (view nack.now)).history)) }
    {
        let Ok(answered) = self.resender.answer(alloc, nack) else {
            return Err(Stop::NoMemory);
        };
        let line = NackLine {
            named: nack.lost.len(),
            resent: answered.resends.len(),
            unknown: answered.unknown,
            spent: answered.spent,
        };
        let Ok(()) = self.nacks.push(line) else {
            return Err(Stop::NoMemory);
        };
        enqueue_all(rt, alloc, shared, &mut self.seat, at, answered.resends)
    }

    /// Serves a report that came at this moment, or a NACK.
    fn report<R: Wait>(
        &mut self,
        rt: &R,
        alloc: Global,
        shared: &Shared,
        at: u64,
        bytes: Bytes,
    ) -> Result<(), Stop>
        requires { IsSeated shared.now.of self.old.seat }
        ensures seated { IsSeated shared.now.of self.new.seat }
        ensures served { OnOk result ((s : RtxSettings) (v : Serving) → Stands s v self.old
            → Stands s (served_report s v at bytes (nack_of bytes.items)) self.new) }
        ensures stopped { IfErr result (λ why. (s : RtxSettings) (v : Serving) → Stands s v self.old → IsAlone self.new.seat
            → IsCause why (length (served_report s v at bytes (nack_of bytes.items)).history)) }
    {
        match read_nack(alloc, bytes.as_slice()) {
            Ok(nack) => self.answer(rt, alloc, shared, at, &nack),
            Err(ReadNack::Fault(_)) => self.call(rt, alloc, shared, Call::Report { at, bytes }),
            Err(ReadNack::NoMemory) => Err(Stop::NoMemory),
        }
    }

    /// Serves what is asked for.
    fn serve_call<R: Wait>(
        &mut self,
        rt: &R,
        alloc: Global,
        shared: &Shared,
        call: Call,
    ) -> Result<(), Stop>
        requires { IsSeated shared.now.of self.old.seat }
        ensures seated { IsSeated shared.now.of self.new.seat }
        ensures served { OnOk result ((s : RtxSettings) (v : Serving) → Stands s v self.old → Stands s (served_asking s v call) self.new) }
        ensures stopped { IfErr result (λ why. (s : RtxSettings) (v : Serving) → Stands s v self.old → IsAlone self.new.seat
            → IsCause why (length (served_asking s v call).history)) }
    {
        match call {
            Call::Report { at, bytes } => self.report(rt, alloc, shared, at, bytes),
            Call::Enqueue { at, class, wire } => {
                self.call(rt, alloc, shared, Call::Enqueue { at, class, wire })
            }
            Call::Pace { at } => self.call(rt, alloc, shared, Call::Pace { at }),
            Call::Configure { at, change } => {
                self.call(rt, alloc, shared, Call::Configure { at, change })
            }
        }
    }

    /// Takes a glance.
    fn look(&mut self, shared: &Shared) -> Result<(), Stop>
        requires { IsSeated shared.now.of self.old.seat }
        ensures seated { IsSeated shared.now.of self.new.seat }
        ensures served { OnOk result ((s : RtxSettings) (v : Serving) → Stands s v self.old → Stands s (served_look v) self.new) }
        ensures stopped { IfErr result (λ why. IsCause why 0) }
    {
        let glance = shared.glance(&mut self.seat);
        let seen = Seen {
            actor: 0,
            calls: glance.calls,
            target: glance.target,
        };
        match self.glances.push(seen) {
            Ok(()) => Ok(()),
            Err(_) => Err(Stop::NoMemory),
        }
    }

    /// Serves a line.
    pub fn serve<R: Wait>(
        &mut self,
        rt: &R,
        alloc: Global,
        shared: &Shared,
        line: Line,
    ) -> Result<(), Stop>
        requires { IsSeated shared.now.of self.old.seat }
        ensures seated { IsSeated shared.now.of self.new.seat }
        ensures served { OnOk result ((s : RtxSettings) (v : Serving) → Stands s v self.old → Stands s (served_line s v line) self.new) }
        ensures stopped { IfErr result (λ why. (s : RtxSettings) (v : Serving) → Stands s v self.old → IsAlone self.new.seat
            → IsCause why (length (served_line s v line).history)) }
    {
        match line.action {
            Action::Ask(call) => self.serve_call(rt, alloc, shared, call),
            Action::Look => self.look(shared),
        }
    }
}
