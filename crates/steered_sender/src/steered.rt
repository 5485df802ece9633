//! The steered sender.

ghost use Rattle.std.specs.Prelude.{◌≡◌, ◌==◌, ◌⊎◌, ◌++◌, ℕ, true, false, None, List, [], ◌∷◌, IfOk, IfErr, OnOk, OnErr};
ghost use Rattle.steered_sender.specs.Standing.{SteersIf, IsControl, IsBehind, answered_if, began_at, first_wanted, start_of, wanted_of};

use crate::choosing::{configure_if, enqueue_if, pace_if, report_if, serve_if};
use crate::steering::{CONTROL_CALLER, Steering};
use gcc_units::{Bytes, Class, NoMemory, Rate};
use level_control::Answer as Step;
use live_sender::{LiveFault, LiveSender};
use send_core::{Answer, Change, Reply};
use sent_history::FindingList;
use std::alloc::Global;
use std::marker::Model;

/// What sets the sender's rate.
#[derive(Clone, Copy, PartialEq, Eq, Debug)]
pub enum Control {
    /// The two estimates of the draft.
    Gradient,
    /// The level of the one-way delay, beginning at a rate in bit/s.
    Level { start: Rate },
}

/// What a report led to.
#[derive(Drop)]
pub struct Heard {
    /// The sender's reply to the report.
    pub reply: Reply,
    /// What the level control answered, where there is one and the report was judged.
    pub answer: Option<Step>,
}

/// A live sender, and the control that steers it where one does. After a report that was judged the control asks
/// for a change of the settings, which is served with it, or before the next call where memory ran out.
#[derive(Drop)]
pub struct SteeredSender {
    sender: LiveSender,
    steering: Option<Steering>,
}

impl Model for SteeredSender {
    ghost use Rattle.std.specs.Prelude.{List};
    ghost use Rattle.send_core.specs.declared.call.Entry.{Entry};
    ghost use Rattle.steered_sender.specs.Standing.{Kept, StandsFor};

    ghost Value = { Kept };

    ghost view = { λ s. record { sender = s.sender; steering = s.steering } };

    ghost invariant = { λ s. (history : List Entry) × StandsFor (record { sender = s.sender; steering = s.steering }) history };
}

impl SteeredSender {
    ghost use Rattle.gcc_units.specs.Listed.{bare};
    ghost use Rattle.rtp_wire.specs.Wires.{bare_wires};
    ghost use Rattle.send_core.specs.declared.call.Call.TheVariants as call;
    ghost use Rattle.send_core.specs.declared.call.Entry.{Entry};
    ghost use Rattle.send_core.specs.History.{entry};
    ghost use Rattle.send_core.specs.Reply.{reply};
    ghost use Rattle.send_core.specs.Reports.{findings_by};
    ghost use Rattle.send_core.specs.Settings.{is_some};
    ghost use Rattle.send_core.specs.Wires.{wires};
    ghost use Rattle.live_sender.specs.declared.live.LiveFault.TheVariants as fault;
    ghost use Rattle.live_sender.specs.Live.{is_exhausted};
    ghost use Rattle.live_sender.specs.Live as live;
    ghost use Rattle.steered_sender.specs.Standing.{StandsFor, first, served};

    /// A sender with the settings that a sender begins with, at moment 0. The level control begins with a change of
    /// its own that asks for its rate, which plans the two first clusters.
    pub fn new(alloc: Global, control: Control) -> Result<SteeredSender, NoMemory>
        requires { IsControl control }
        ensures stands { IfOk result (λ s. StandsFor s (first control)) }
        ensures nothing_wanted { IfOk result (λ s. wanted_of s.steering ≡ None) }
        ensures control { IfOk result (λ s. began_at s.steering ≡ start_of control) }
    {
        let mut sender = LiveSender::new(alloc)?;
        let mut steering = steering_of(alloc, control);
        match serve_if(&mut sender, &mut steering, alloc) {
            Err(_) => Err(NoMemory),
            Ok(()) => Ok(SteeredSender { sender, steering }),
        }
    }

    /// The sender: its moment, rates, queue and counters.
    pub fn sender(&self) -> &LiveSender
        ensures value { result.now ≡ self.now.sender }
        ensures stands { (history : List Entry) → StandsFor self.now history → live.StandsFor result.now history }
    {
        &self.sender
    }

    /// Whether a change that the control asked for was not served yet, since memory ran out. The next call serves it.
    pub fn is_asked(&self) -> bool
        ensures { result ≡ is_some (wanted_of self.now.steering) }
    {
        match &self.steering {
            None => false,
            Some(steering) => steering.wanted.is_some(),
        }
    }

    /// What a report tells of packets for the first time, each with its number, if it is handed in next: which are
    /// credited and which are missing, in the order of its statuses. Nothing where the bytes are no report. It takes
    /// memory for them.
    pub fn findings(&self, alloc: Global, bytes: &Bytes) -> Result<FindingList, LiveFault>
        ensures found { IfOk result (λ list. (history : List Entry) → StandsFor self.now history → list ≡ bare (findings_by (served self.now history) bytes.now.items)) }
        ensures exhausted { IfErr result (λ e. e ≡ fault.Exhausted → (history : List Entry) → StandsFor self.now history → is_exhausted history ≡ true) }
    {
        let found = self.sender.findings(alloc, bytes)?;
        Ok(found)
    }

    /// What may leave now is sent. On `Err` nothing has changed but that what the control asked for may have been
    /// served.
    pub fn pace(&mut self, alloc: Global, at: u64) -> Result<Answer, LiveFault>
        ensures reply { IfOk result (λ a. (history : List Entry) → StandsFor self.old history → a.reply ≡ reply (served self.old history) (call.Pace at)) }
        ensures wires { IfOk result (λ a. (history : List Entry) → StandsFor self.old history → a.wires ≡ bare_wires (wires (served self.old history) a.reply)) }
        ensures stands { IfOk result (λ a. (history : List Entry) (caller : ℕ) → StandsFor self.old history → StandsFor self.new (served self.old history ++ entry caller (call.Pace at) a.reply ∷ [])) }
        ensures err { OnErr result ((history : List Entry) → StandsFor self.old history → StandsFor self.new history ⊎ StandsFor self.new (served self.old history)) }
        ensures control { began_at self.new.steering ≡ began_at self.old.steering }
        ensures served { OnOk result ((history : List Entry) → StandsFor self.old history → is_exhausted history ≡ false) }
        ensures exhausted { IfErr result (λ e. e ≡ fault.Exhausted → (history : List Entry) → StandsFor self.old history → is_exhausted history ≡ true) }
    {
        match serve_if(&mut self.sender, &mut self.steering, alloc) {
            Err(fault) => Err(fault),
            Ok(()) => pace_if(&mut self.sender, &mut self.steering, alloc, at),
        }
    }

    /// A packet is to be sent. On `Err` nothing has changed but that what the control asked for may have been
    /// served, and the packet comes back.
    pub fn enqueue(
        &mut self,
        alloc: Global,
        at: u64,
        class: Class,
        wire: Bytes,
    ) -> Result<Reply, (LiveFault, Bytes)>
        ensures reply { IfOk result (λ r. (history : List Entry) → StandsFor self.old history → r ≡ reply (served self.old history) (call.Enqueue at class wire)) }
        ensures stands { IfOk result (λ r. (history : List Entry) (caller : ℕ) → StandsFor self.old history → StandsFor self.new (served self.old history ++ entry caller (call.Enqueue at class wire) r ∷ [])) }
        ensures err { OnErr result ((history : List Entry) → StandsFor self.old history → StandsFor self.new history ⊎ StandsFor self.new (served self.old history)) }
        ensures back { IfErr result (λ e. e.1 ≡ wire) }
        ensures control { began_at self.new.steering ≡ began_at self.old.steering }
        ensures served { OnOk result ((history : List Entry) → StandsFor self.old history → is_exhausted history ≡ false) }
        ensures exhausted { IfErr result (λ e. e.0 ≡ fault.Exhausted → (history : List Entry) → StandsFor self.old history → is_exhausted history ≡ true) }
    {
        match serve_if(&mut self.sender, &mut self.steering, alloc) {
            Err(fault) => Err((fault, wire)),
            Ok(()) => enqueue_if(&mut self.sender, &self.steering, at, class, wire),
        }
    }

    /// Settings are changed, by another caller than the control. On `Err` nothing has changed but that what the
    /// control asked for may have been served.
    pub fn configure(&mut self, alloc: Global, at: u64, change: &Change) -> Result<Reply, LiveFault>
        ensures reply { IfOk result (λ r. (history : List Entry) → StandsFor self.old history → r ≡ reply (served self.old history) (call.Configure at change.now)) }
        ensures stands { IfOk result (λ r. (history : List Entry) (caller : ℕ) → StandsFor self.old history → (caller == CONTROL_CALLER) ≡ false
            → StandsFor self.new (served self.old history ++ entry caller (call.Configure at change.now) r ∷ [])) }
        ensures err { OnErr result ((history : List Entry) → StandsFor self.old history → StandsFor self.new history ⊎ StandsFor self.new (served self.old history)) }
        ensures control { began_at self.new.steering ≡ began_at self.old.steering }
        ensures served { OnOk result ((history : List Entry) → StandsFor self.old history → is_exhausted history ≡ false) }
        ensures exhausted { IfErr result (λ e. e ≡ fault.Exhausted → (history : List Entry) → StandsFor self.old history → is_exhausted history ≡ true) }
    {
        match serve_if(&mut self.sender, &mut self.steering, alloc) {
            Err(fault) => Err(fault),
            Ok(()) => configure_if(&mut self.sender, &mut self.steering, alloc, at, change),
        }
    }

    /// A report came. Where it was judged, the control's change stands right behind it in the history, at once or
    /// where the next call serves it. On `Err` nothing has changed but that what the control asked for before may
    /// have been served.
    pub fn report(&mut self, alloc: Global, at: u64, bytes: &Bytes) -> Result<Heard, LiveFault>
        ensures reply { IfOk result (λ r. (history : List Entry) → StandsFor self.old history → r.reply ≡ reply (served self.old history) (call.Report at bytes.now)) }
        ensures stands { IfOk result (λ r. (history : List Entry) (caller : ℕ) → StandsFor self.old history
            → IsBehind self.new (served self.old history ++ entry caller (call.Report at bytes.now) r.reply ∷ [])) }
        ensures answer { IfOk result (λ r. (history : List Entry) → StandsFor self.old history → r.answer ≡ answered_if (began_at self.old.steering) (served self.old history) r.reply) }
        ensures err { OnErr result ((history : List Entry) → StandsFor self.old history → StandsFor self.new history ⊎ StandsFor self.new (served self.old history)) }
        ensures control { began_at self.new.steering ≡ began_at self.old.steering }
        ensures served { OnOk result ((history : List Entry) → StandsFor self.old history → is_exhausted history ≡ false) }
        ensures exhausted { IfErr result (λ e. e ≡ fault.Exhausted → (history : List Entry) → StandsFor self.old history → is_exhausted history ≡ true) }
    {
        if let Err(fault) = serve_if(&mut self.sender, &mut self.steering, alloc) {
            return Err(fault);
        }
        match report_if(&mut self.sender, &mut self.steering, alloc, at, bytes) {
            Err(fault) => Err(fault),
            Ok((reply, answer)) => {
                let _ = serve_if(&mut self.sender, &mut self.steering, alloc);
                Ok(Heard { reply, answer })
            }
        }
    }
}

// The control as it begins.
fn steering_of(alloc: Global, control: Control) -> Option<Steering>
    requires { IsControl control }
    ensures stands { SteersIf result [] }
    ensures wanted { wanted_of result ≡ first_wanted control }
    ensures control { began_at result ≡ start_of control }
{
    match control {
        Control::Gradient => None,
        Control::Level { start } => Some(Steering::new(alloc, start)),
    }
}
