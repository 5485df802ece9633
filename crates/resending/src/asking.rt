//! Calls and glances on the one seat.

ghost use Rattle.std.specs.Prelude.{◌≡◌, ◌+◌, length, map, fold, IfOk, IfErr, OnOk};
ghost use Rattle.send_core.specs.History.{sent_by};
ghost use Rattle.shared_sender.specs.Served.{journal_of};
ghost use Rattle.resending.specs.Serving.{called, resend_call};
ghost use Rattle.resending.specs.Alone.{IsSeated, IsAlone, IsAnswered, IsStopped};

use crate::stop::Stop;
use gcc_units::Class;
use nack_rtx::ResendList;
use send_core::{Answer, ApplyFault, Call};
use shared_sender::{SenderSeat, Shared};
use std::alloc::Global;
use std::sync::Wait;

/// Makes a call.
pub fn ask<R: Wait>(
    rt: &R,
    alloc: Global,
    shared: &Shared,
    seat: &mut SenderSeat,
    call: Call,
) -> Result<Answer, Stop>
    requires { IsSeated shared.now.of seat.old }
    ensures seated { IsSeated shared.now.of seat.new }
    ensures as_many { IfOk result (λ answer. length answer.wires.items ≡ length (sent_by answer.reply)) }
    ensures answered { IfOk result (λ answer. IsAlone seat.new → IsAnswered seat.old call answer seat.new) }
    ensures stopped { IfErr result (λ why. IsAlone seat.new → IsStopped seat.old why (length (journal_of seat.old.seen) + 1)) }
{
    match shared.call(rt, alloc, seat, call) {
        Ok(answer) => Ok(answer),
        Err((ApplyFault::JournalFull, _call)) => Err(Stop::Full),
        Err((ApplyFault::NoMemory, _call)) => Err(Stop::NoMemory),
    }
}

/// Hands in the packets that are to be sent again, in their order.
pub fn enqueue_all<R: Wait>(
    rt: &R,
    alloc: Global,
    shared: &Shared,
    seat: &mut SenderSeat,
    at: u64,
    resends: ResendList,
) -> Result<(), Stop>
    requires { IsSeated shared.now.of seat.old }
    ensures seated { IsSeated shared.now.of seat.new }
    ensures before { IsAlone seat.new → IsAlone seat.old }
    ensures grows { OnOk result (IsAlone seat.new
        → journal_of seat.new.seen ≡ fold called (journal_of seat.old.seen) (map (resend_call at) resends.items)) }
    ensures stopped { IfErr result (λ why. IsAlone seat.new → IsStopped seat.old why (length (journal_of seat.old.seen) + length resends.items)) }
{
    for resend in resends.into_vec() {
        let call = Call::Enqueue {
            at,
            class: Class::Retransmission,
            wire: resend.packet,
        };
        ask(rt, alloc, shared, seat, call)?;
    }
    Ok(())
}
