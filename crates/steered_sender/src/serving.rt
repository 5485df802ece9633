//! Calls on a sender that a control steers.

ghost use Rattle.std.specs.Prelude.{◌≡◌, ◌==◌, ◌≤◌, ℕ, true, false, None, Some, List, [], ◌∷◌, ◌++◌, length, IfOk, IfErr, OnOk, OnErr};
ghost use Rattle.send_core.specs.declared.call.Call.TheVariants as call;
ghost use Rattle.send_core.specs.declared.call.Entry.{Entry};
ghost use Rattle.send_core.specs.History.{entry};
ghost use Rattle.send_core.specs.Reply.{reply};
ghost use Rattle.gcc_units.specs.Listed.{Listed};
ghost use Rattle.rtp_wire.specs.Wires.{bare_wires};
ghost use Rattle.send_core.specs.Wires.{wires};
ghost use Rattle.send_core.specs.Stands.{AreSettings, Laws, MayGrow};
ghost use Rattle.send_core.specs.Settings.{settings};
ghost use Rattle.live_sender.specs.declared.live.LiveFault.TheVariants as fault;
ghost use Rattle.live_sender.specs.Live.{Live, StandsFor, is_exhausted};
ghost use Rattle.steered_sender.specs.Steered.{answered, change_for, with_wanted};
ghost use Rattle.steered_sender.specs.Replies.{is_configured};
ghost use Rattle.steered_sender.specs.Steps.{Steers};

use crate::clustering::{MOST_PLANS, follow_all, make_room};
use crate::steering::{CONTROL_CALLER, Steering, Wanted};
use allocator::StreamList;
use gcc_units::{Bytes, Class, IdList, Sequence};
use level_control::{Answer as Step, Probed};
use live_sender::{LiveFault, LiveSender};
use send_core::{Answer, Change, Reply};
use std::alloc::Global;

// Whether the reply accepts a change.
fn is_configured(reply: &Reply) -> bool
    ensures { result ≡ is_configured reply.now }
{
    matches!(reply, Reply::Configured { .. })
}

// A change was replied to, which the control or another caller asked for. There is room for what it plans.
fn note_change(steering: &mut Steering, given: &Reply, change: &Change, own: bool)
    requires answered { (h : List Entry) × (at : ℕ) × Steers steering.old h × AreSettings (settings h) × (given.now ≡ reply h (call.Configure at change.now)) }
    requires room { MOST_PLANS ≤ steering.old.clusters.spare }
    requires room_for_rates { MOST_PLANS ≤ steering.old.planned.spare }
    ensures stands { (h : List Entry) (caller at : ℕ) → Steers steering.old h → given.now ≡ reply h (call.Configure at change.now) → (caller == CONTROL_CALLER) ≡ own
        → Steers steering.new (h ++ entry caller (call.Configure at change.now) given.now ∷ []) }
    ensures wanted { steering.new.wanted ≡ None }
    ensures start { steering.new.start ≡ steering.old.start }
{
    if is_configured(given) {
        steering.change(change, own);
    } else {
        steering.wanted = None;
    }
}

/// Settings are changed, by the control or another caller. On `Err` the sender is as before, and the steering
/// stands for what it stood for.
pub fn configure_both(
    sender: &mut LiveSender,
    steering: &mut Steering,
    alloc: Global,
    at: u64,
    change: &Change,
    own: bool,
) -> Result<Reply, LiveFault>
    requires { (h : List Entry) × StandsFor sender.old h × Steers steering.old h }
    ensures reply { IfOk result (λ r. (h : List Entry) → StandsFor sender.old h → r ≡ reply h (call.Configure at change.now)) }
    ensures sender { IfOk result (λ r. (h : List Entry) (caller : ℕ) → StandsFor sender.old h → StandsFor sender.new (h ++ entry caller (call.Configure at change.now) r ∷ [])) }
    ensures steering { IfOk result (λ r. (h : List Entry) (caller : ℕ) → StandsFor sender.old h → Steers steering.old h → (caller == CONTROL_CALLER) ≡ own
        → Steers steering.new (h ++ entry caller (call.Configure at change.now) r ∷ [])) }
    ensures wanted { OnOk result (steering.new.wanted ≡ None) }
    ensures err { OnErr result (sender.new ≡ sender.old) }
    ensures err_steering { OnErr result ((h : List Entry) → Steers steering.old h → Steers steering.new h) }
    ensures err_wanted { OnErr result (steering.new.wanted ≡ steering.old.wanted) }
    ensures start { steering.new.start ≡ steering.old.start }
    ensures served { OnOk result ((h : List Entry) → StandsFor sender.old h → is_exhausted h ≡ false) }
    ensures exhausted { IfErr result (λ e. e ≡ fault.Exhausted → (h : List Entry) → StandsFor sender.old h → is_exhausted h ≡ true) }
{
    if make_room(&mut steering.clusters, &mut steering.planned).is_err() {
        return Err(LiveFault::NoMemory);
    }
    match sender.configure(alloc, at, change) {
        Err(fault) => Err(fault),
        Ok(reply) => {
            note_change(steering, &reply, change, own);
            Ok(reply)
        }
    }
}

// The change that the control asks for.
fn change_for(alloc: Global, wanted: Wanted) -> Change
    ensures { result ≡ change_for wanted }
{
    Change {
        streams: StreamList::new(alloc),
        removed: IdList::new(alloc),
        start: Some(wanted.rate),
        min: None,
        max: None,
        pacing_percent: None,
        window: None,
        padding_rate: None,
        paced_audio: None,
        extension_id: None,
        probe: wanted.probe,
    }
}

// Serves the change that the control asked for.
fn serve_one(
    sender: &mut LiveSender,
    steering: &mut Steering,
    alloc: Global,
    wanted: Wanted,
) -> Result<(), LiveFault>
    requires stands { (h : List Entry) × StandsFor sender.old h × Steers steering.old h }
    requires wanted { steering.old.wanted ≡ Some wanted }
    ensures sender { OnOk result ((h : List Entry) → StandsFor sender.old h → StandsFor sender.new (with_wanted h steering.old.wanted)) }
    ensures steering { OnOk result ((h : List Entry) → StandsFor sender.old h → Steers steering.old h → Steers steering.new (with_wanted h steering.old.wanted)) }
    ensures wanted { OnOk result (steering.new.wanted ≡ None) }
    ensures err { OnErr result (sender.new ≡ sender.old) }
    ensures err_steering { OnErr result ((h : List Entry) → Steers steering.old h → Steers steering.new h) }
    ensures err_wanted { OnErr result (steering.new.wanted ≡ steering.old.wanted) }
    ensures start { steering.new.start ≡ steering.old.start }
    ensures exhausted { IfErr result (λ e. e ≡ fault.Exhausted → (h : List Entry) → StandsFor sender.old h → is_exhausted h ≡ true) }
{
    let change = change_for(alloc, wanted);
    let moment = sender.moment();
    match configure_both(sender, steering, alloc, moment, &change, true) {
        Err(fault) => Err(fault),
        Ok(_) => Ok(()),
    }
}

/// Serves what the control asked for, where it was not served yet. On `Err` the sender is as before, and the
/// steering stands for what it stood for.
pub fn serve_wanted(
    sender: &mut LiveSender,
    steering: &mut Steering,
    alloc: Global,
) -> Result<(), LiveFault>
    requires { (h : List Entry) × StandsFor sender.old h × Steers steering.old h }
    ensures sender { OnOk result ((h : List Entry) → StandsFor sender.old h → StandsFor sender.new (with_wanted h steering.old.wanted)) }
    ensures steering { OnOk result ((h : List Entry) → StandsFor sender.old h → Steers steering.old h → Steers steering.new (with_wanted h steering.old.wanted)) }
    ensures wanted { OnOk result (steering.new.wanted ≡ None) }
    ensures err { OnErr result (sender.new ≡ sender.old) }
    ensures err_steering { OnErr result ((h : List Entry) → Steers steering.old h → Steers steering.new h) }
    ensures err_wanted { OnErr result (steering.new.wanted ≡ steering.old.wanted) }
    ensures start { steering.new.start ≡ steering.old.start }
    ensures exhausted { IfErr result (λ e. e ≡ fault.Exhausted → (h : List Entry) → StandsFor sender.old h → is_exhausted h ≡ true) }
{
    match steering.wanted {
        None => Ok(()),
        Some(wanted) => serve_one(sender, steering, alloc, wanted),
    }
}

// The reply to a pace was given.
fn note_pace(steering: &mut Steering, given: &Reply)
    requires answered { (h : List Entry) × (at : ℕ) × Steers steering.old h × Laws h × MayGrow h × (given.now ≡ reply h (call.Pace at)) }
    requires nothing { steering.old.wanted ≡ None }
    ensures steering { (h : List Entry) (caller at : ℕ) → Steers steering.old h → given.now ≡ reply h (call.Pace at) → Steers steering.new (h ++ entry caller (call.Pace at) given.now ∷ []) }
    ensures start { steering.new.start ≡ steering.old.start }
{
    if let Reply::Paced { at, sent } = given {
        follow_all(&mut steering.clusters, sent.as_slice(), *at);
    }
}

/// What may leave now is sent, where nothing is wanted. On `Err` nothing has changed.
pub fn pace_both(
    sender: &mut LiveSender,
    steering: &mut Steering,
    alloc: Global,
    at: u64,
) -> Result<Answer, LiveFault>
    requires stands { (h : List Entry) × StandsFor sender.old h × Steers steering.old h }
    requires nothing { steering.old.wanted ≡ None }
    ensures reply { IfOk result (λ a. (h : List Entry) → StandsFor sender.old h → a.reply ≡ reply h (call.Pace at)) }
    ensures wires { IfOk result (λ a. (h : List Entry) → StandsFor sender.old h → a.wires ≡ bare_wires (wires h a.reply)) }
    ensures sender { IfOk result (λ a. (h : List Entry) (caller : ℕ) → StandsFor sender.old h → StandsFor sender.new (h ++ entry caller (call.Pace at) a.reply ∷ [])) }
    ensures steering { IfOk result (λ a. (h : List Entry) (caller : ℕ) → StandsFor sender.old h → Steers steering.old h → Steers steering.new (h ++ entry caller (call.Pace at) a.reply ∷ [])) }
    ensures err { OnErr result (sender.new ≡ sender.old) }
    ensures err_steering { OnErr result (steering.new ≡ steering.old) }
    ensures start { steering.new.start ≡ steering.old.start }
    ensures served { OnOk result ((h : List Entry) → StandsFor sender.old h → is_exhausted h ≡ false) }
    ensures exhausted { IfErr result (λ e. e ≡ fault.Exhausted → (h : List Entry) → StandsFor sender.old h → is_exhausted h ≡ true) }
{
    match sender.pace(alloc, at) {
        Err(fault) => Err(fault),
        Ok(answer) => {
            note_pace(steering, &answer.reply);
            Ok(answer)
        }
    }
}

// The reply to a report was given. The results of clusters go into the room.
fn note_report(steering: &mut Steering, given: &Reply, room: Sequence<Probed>) -> Option<Step>
    requires answered { (h : List Entry) × (at : ℕ) × (bytes : Listed ℕ) × (before : Live) × (after : Live) × Steers steering.old h × StandsFor before h × MayGrow h
        × StandsFor after (h ++ entry 0 (call.Report at bytes) given.now ∷ []) × (given.now ≡ reply h (call.Report at bytes)) }
    requires nothing { steering.old.wanted ≡ None }
    requires empty { room.items ≡ [] }
    requires room { length steering.old.clusters.items ≤ room.spare }
    ensures steering { (h : List Entry) (caller at : ℕ) (bytes : Listed ℕ) → Steers steering.old h → given.now ≡ reply h (call.Report at bytes)
        → Steers steering.new (h ++ entry caller (call.Report at bytes) given.now ∷ []) }
    ensures answer { (h : List Entry) → Steers steering.old h → result ≡ answered steering.old.start h given.now }
    ensures start { steering.new.start ≡ steering.old.start }
{
    match given {
        Reply::Credited {
            at,
            judged,
            acked,
            ..
        } => Some(steering.hear(*at, judged, *acked, room)),
        _ => None,
    }
}

/// A report came, where nothing is wanted. On `Err` nothing has changed.
pub fn report_both(
    sender: &mut LiveSender,
    steering: &mut Steering,
    alloc: Global,
    at: u64,
    bytes: &Bytes,
) -> Result<(Reply, Option<Step>), LiveFault>
    requires stands { (h : List Entry) × StandsFor sender.old h × Steers steering.old h }
    requires nothing { steering.old.wanted ≡ None }
    ensures reply { IfOk result (λ r. (h : List Entry) → StandsFor sender.old h → r.0 ≡ reply h (call.Report at bytes.now)) }
    ensures sender { IfOk result (λ r. (h : List Entry) (caller : ℕ) → StandsFor sender.old h → StandsFor sender.new (h ++ entry caller (call.Report at bytes.now) r.0 ∷ [])) }
    ensures steering { IfOk result (λ r. (h : List Entry) (caller : ℕ) → StandsFor sender.old h → Steers steering.old h → Steers steering.new (h ++ entry caller (call.Report at bytes.now) r.0 ∷ [])) }
    ensures err { OnErr result (sender.new ≡ sender.old) }
    ensures answer { IfOk result (λ r. (h : List Entry) → Steers steering.old h → r.1 ≡ answered steering.old.start h r.0) }
    ensures err_steering { OnErr result (steering.new ≡ steering.old) }
    ensures start { steering.new.start ≡ steering.old.start }
    ensures served { OnOk result ((h : List Entry) → StandsFor sender.old h → is_exhausted h ≡ false) }
    ensures exhausted { IfErr result (λ e. e ≡ fault.Exhausted → (h : List Entry) → StandsFor sender.old h → is_exhausted h ≡ true) }
{
    let mut room = Sequence::new(alloc);
    if room.reserve(steering.planned.len()).is_err() {
        return Err(LiveFault::NoMemory);
    }
    match sender.report(alloc, at, bytes) {
        Err(fault) => Err(fault),
        Ok(reply) => {
            let step = note_report(steering, &reply, room);
            Ok((reply, step))
        }
    }
}

/// A packet is to be sent, where nothing is wanted. On `Err` nothing has changed, and the packet comes back.
pub fn enqueue_both(
    sender: &mut LiveSender,
    steering: &Steering,
    at: u64,
    class: Class,
    wire: Bytes,
) -> Result<Reply, (LiveFault, Bytes)>
    requires nothing { steering.now.wanted ≡ None }
    ensures reply { IfOk result (λ r. (h : List Entry) → StandsFor sender.old h → r ≡ reply h (call.Enqueue at class wire)) }
    ensures sender { IfOk result (λ r. (h : List Entry) (caller : ℕ) → StandsFor sender.old h → StandsFor sender.new (h ++ entry caller (call.Enqueue at class wire) r ∷ [])) }
    ensures steering { IfOk result (λ r. (h : List Entry) (caller : ℕ) → StandsFor sender.old h → Steers steering.now h → Steers steering.now (h ++ entry caller (call.Enqueue at class wire) r ∷ [])) }
    ensures err { IfErr result (λ e. (sender.new ≡ sender.old) × (e.1 ≡ wire)) }
    ensures served { OnOk result ((h : List Entry) → StandsFor sender.old h → is_exhausted h ≡ false) }
    ensures exhausted { IfErr result (λ e. e.0 ≡ fault.Exhausted → (h : List Entry) → StandsFor sender.old h → is_exhausted h ≡ true) }
{
    match sender.enqueue(at, class, wire) {
        Err(failed) => Err(failed),
        Ok(reply) => Ok(reply),
    }
}
