//! Calls on a sender that a control may steer.

ghost use Rattle.std.specs.Prelude.{◌≡◌, ◌==◌, ◌++◌, ℕ, true, false, None, List, [], ◌∷◌, IfOk, IfErr, OnOk, OnErr};
ghost use Rattle.rtp_wire.specs.Wires.{bare_wires};
ghost use Rattle.send_core.specs.declared.call.Call.TheVariants as call;
ghost use Rattle.send_core.specs.declared.call.Entry.{Entry};
ghost use Rattle.send_core.specs.History.{entry};
ghost use Rattle.send_core.specs.Reply.{reply};
ghost use Rattle.send_core.specs.Wires.{wires};
ghost use Rattle.live_sender.specs.declared.live.LiveFault.TheVariants as fault;
ghost use Rattle.live_sender.specs.Live.{StandsFor, is_exhausted};
ghost use Rattle.steered_sender.specs.Steered.{with_wanted};
ghost use Rattle.steered_sender.specs.Standing.{SteersIf, answered_if, began_at, wanted_of};

use crate::serving::{configure_both, enqueue_both, pace_both, report_both, serve_wanted};
use crate::steering::{CONTROL_CALLER, Steering};
use gcc_units::{Bytes, Class};
use level_control::Answer as Step;
use live_sender::{LiveFault, LiveSender};
use send_core::{Answer, Change, Reply};
use std::alloc::Global;

/// Serves what a control asked for, where it was not served yet.
pub fn serve_if(
    sender: &mut LiveSender,
    steering: &mut Option<Steering>,
    alloc: Global,
) -> Result<(), LiveFault>
    requires { (h : List Entry) × StandsFor sender.old h × SteersIf steering.old h }
    ensures sender { OnOk result ((h : List Entry) → StandsFor sender.old h → StandsFor sender.new (with_wanted h (wanted_of steering.old))) }
    ensures steering { OnOk result ((h : List Entry) → StandsFor sender.old h → SteersIf steering.old h → SteersIf steering.new (with_wanted h (wanted_of steering.old))) }
    ensures wanted { OnOk result (wanted_of steering.new ≡ None) }
    ensures err { OnErr result (sender.new ≡ sender.old) }
    ensures err_steering { OnErr result ((h : List Entry) → SteersIf steering.old h → SteersIf steering.new h) }
    ensures start { began_at steering.new ≡ began_at steering.old }
    ensures exhausted { IfErr result (λ e. e ≡ fault.Exhausted → (h : List Entry) → StandsFor sender.old h → is_exhausted h ≡ true) }
{
    match steering {
        None => Ok(()),
        Some(steering) => serve_wanted(sender, steering, alloc),
    }
}

/// What may leave now is sent, where nothing is wanted.
pub fn pace_if(
    sender: &mut LiveSender,
    steering: &mut Option<Steering>,
    alloc: Global,
    at: u64,
) -> Result<Answer, LiveFault>
    requires stands { (h : List Entry) × StandsFor sender.old h × SteersIf steering.old h }
    requires nothing { wanted_of steering.old ≡ None }
    ensures reply { IfOk result (λ a. (h : List Entry) → StandsFor sender.old h → a.reply ≡ reply h (call.Pace at)) }
    ensures wires { IfOk result (λ a. (h : List Entry) → StandsFor sender.old h → a.wires ≡ bare_wires (wires h a.reply)) }
    ensures sender { IfOk result (λ a. (h : List Entry) (caller : ℕ) → StandsFor sender.old h → StandsFor sender.new (h ++ entry caller (call.Pace at) a.reply ∷ [])) }
    ensures steering { IfOk result (λ a. (h : List Entry) (caller : ℕ) → StandsFor sender.old h → SteersIf steering.old h → SteersIf steering.new (h ++ entry caller (call.Pace at) a.reply ∷ [])) }
    ensures err { OnErr result (sender.new ≡ sender.old) }
    ensures err_steering { OnErr result (steering.new ≡ steering.old) }
    ensures start { began_at steering.new ≡ began_at steering.old }
    ensures served { OnOk result ((h : List Entry) → StandsFor sender.old h → is_exhausted h ≡ false) }
    ensures exhausted { IfErr result (λ e. e ≡ fault.Exhausted → (h : List Entry) → StandsFor sender.old h → is_exhausted h ≡ true) }
{
    match steering {
        None => sender.pace(alloc, at),
        Some(steering) => pace_both(sender, steering, alloc, at),
    }
}

/// A packet is to be sent, where nothing is wanted.
pub fn enqueue_if(
    sender: &mut LiveSender,
    steering: &Option<Steering>,
    at: u64,
    class: Class,
    wire: Bytes,
) -> Result<Reply, (LiveFault, Bytes)>
    requires nothing { wanted_of steering.now ≡ None }
    ensures reply { IfOk result (λ r. (h : List Entry) → StandsFor sender.old h → r ≡ reply h (call.Enqueue at class wire)) }
    ensures sender { IfOk result (λ r. (h : List Entry) (caller : ℕ) → StandsFor sender.old h → StandsFor sender.new (h ++ entry caller (call.Enqueue at class wire) r ∷ [])) }
    ensures steering { IfOk result (λ r. (h : List Entry) (caller : ℕ) → StandsFor sender.old h → SteersIf steering.now h → SteersIf steering.now (h ++ entry caller (call.Enqueue at class wire) r ∷ [])) }
    ensures err { IfErr result (λ e. (sender.new ≡ sender.old) × (e.1 ≡ wire)) }
    ensures served { OnOk result ((h : List Entry) → StandsFor sender.old h → is_exhausted h ≡ false) }
    ensures exhausted { IfErr result (λ e. e.0 ≡ fault.Exhausted → (h : List Entry) → StandsFor sender.old h → is_exhausted h ≡ true) }
{
    match steering {
        None => sender.enqueue(at, class, wire),
        Some(steering) => enqueue_both(sender, steering, at, class, wire),
    }
}

/// A report came, where nothing is wanted.
pub fn report_if(
    sender: &mut LiveSender,
    steering: &mut Option<Steering>,
    alloc: Global,
    at: u64,
    bytes: &Bytes,
) -> Result<(Reply, Option<Step>), LiveFault>
    requires stands { (h : List Entry) × StandsFor sender.old h × SteersIf steering.old h }
    requires nothing { wanted_of steering.old ≡ None }
    ensures reply { IfOk result (λ r. (h : List Entry) → StandsFor sender.old h → r.0 ≡ reply h (call.Report at bytes.now)) }
    ensures sender { IfOk result (λ r. (h : List Entry) (caller : ℕ) → StandsFor sender.old h → StandsFor sender.new (h ++ entry caller (call.Report at bytes.now) r.0 ∷ [])) }
    ensures steering { IfOk result (λ r. (h : List Entry) (caller : ℕ) → StandsFor sender.old h → SteersIf steering.old h → SteersIf steering.new (h ++ entry caller (call.Report at bytes.now) r.0 ∷ [])) }
    ensures err { OnErr result (sender.new ≡ sender.old) }
    ensures err_steering { OnErr result (steering.new ≡ steering.old) }
    ensures answer { IfOk result (λ r. (h : List Entry) → SteersIf steering.old h → r.1 ≡ answered_if (began_at steering.old) h r.0) }
    ensures start { began_at steering.new ≡ began_at steering.old }
    ensures served { OnOk result ((h : List Entry) → StandsFor sender.old h → is_exhausted h ≡ false) }
    ensures exhausted { IfErr result (λ e. e ≡ fault.Exhausted → (h : List Entry) → StandsFor sender.old h → is_exhausted h ≡ true) }
{
    match steering {
        None => match sender.report(alloc, at, bytes) {
            Err(fault) => Err(fault),
            Ok(reply) => Ok((reply, None)),
        },
        Some(steering) => report_both(sender, steering, alloc, at, bytes),
    }
}

/// Settings are changed by another caller than the control, where nothing is wanted.
pub fn configure_if(
    sender: &mut LiveSender,
    steering: &mut Option<Steering>,
    alloc: Global,
    at: u64,
    change: &Change,
) -> Result<Reply, LiveFault>
    requires stands { (h : List Entry) × StandsFor sender.old h × SteersIf steering.old h }
    ensures reply { IfOk result (λ r. (h : List Entry) → StandsFor sender.old h → r ≡ reply h (call.Configure at change.now)) }
    ensures sender { IfOk result (λ r. (h : List Entry) (caller : ℕ) → StandsFor sender.old h → StandsFor sender.new (h ++ entry caller (call.Configure at change.now) r ∷ [])) }
    ensures steering { IfOk result (λ r. (h : List Entry) (caller : ℕ) → StandsFor sender.old h → SteersIf steering.old h → (caller == CONTROL_CALLER) ≡ false
        → SteersIf steering.new (h ++ entry caller (call.Configure at change.now) r ∷ [])) }
    ensures err { OnErr result (sender.new ≡ sender.old) }
    ensures err_steering { OnErr result ((h : List Entry) → SteersIf steering.old h → SteersIf steering.new h) }
    ensures start { began_at steering.new ≡ began_at steering.old }
    ensures served { OnOk result ((h : List Entry) → StandsFor sender.old h → is_exhausted h ≡ false) }
    ensures exhausted { IfErr result (λ e. e ≡ fault.Exhausted → (h : List Entry) → StandsFor sender.old h → is_exhausted h ≡ true) }
{
    match steering {
        None => sender.configure(alloc, at, change),
        Some(steering) => configure_both(sender, steering, alloc, at, change, false),
    }
}
