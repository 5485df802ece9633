//! Calls on the parts of a sender, and what their replies say.

ghost use Rattle.std.specs.Prelude.{◌≡◌, ◌≤◌, if◌then◌else◌, [], List, IfOk, OnErr, length};
ghost use Rattle.gcc_units.specs.Listed.{bare};
ghost use Rattle.send_core.specs.declared.call.Call.TheVariants as call;
ghost use Rattle.send_core.specs.declared.call.Entry.{Entry};
ghost use Rattle.send_core.specs.Bounds.{most_paced};
ghost use Rattle.send_core.specs.History.{sent_by};
ghost use Rattle.send_core.specs.Reply.{reply};
ghost use Rattle.rtp_wire.specs.Wires.{bare_wires};
ghost use Rattle.send_core.specs.Wires.{wires};
ghost use Rattle.send_core.specs.Stands.{StandsFor, StandsForShort, Steps};
ghost use Rattle.live_sender.specs.Replies.{is_accepted, is_judged};

use gcc_units::{MOST_SENDS, NoMemory};
use pacer::{Sent, SentList};
use rtp_wire::WireList;
use send_core::{Answer, Parts, Reply};
use std::alloc::Global;

/// The ID of the element that holds the number.
pub fn id_of(parts: &Parts) -> u8
    requires { StandsForShort parts.now }
    ensures { result ≡ parts.now.settings.extension_id }
{
    parts.settings.extension_id as u8
}

/// The records of a reply.
pub fn records_of(reply: &Reply) -> &[Sent]
    ensures { result.now ≡ sent_by reply.now }
{
    match reply {
        Reply::Paced { sent, .. } => sent.as_slice(),
        _ => &[],
    }
}

/// Whether the reply accepts a packet.
pub fn is_accepted(reply: &Reply) -> bool
    ensures { result ≡ is_accepted reply.now }
{
    matches!(reply, Reply::Accepted { .. })
}

/// How many reports the reply judges.
pub fn judged_by(reply: &Reply) -> u32
    ensures { result ≡ (if is_judged reply.now then 1 else 0) }
{
    match reply {
        Reply::Credited { .. } => 1,
        _ => 0,
    }
}

/// The answer of a reply with which nothing leaves.
pub fn quiet(alloc: Global, reply: Reply) -> Answer
    requires { sent_by reply ≡ [] }
    ensures reply { result.reply ≡ reply }
    ensures wires { (history : List Entry) → result.wires ≡ bare_wires (wires history result.reply) }
{
    Answer {
        reply,
        wires: WireList::new(alloc),
    }
}

/// What may leave now is sent, at most so many packets. At `NoMemory` nothing has changed.
pub fn pace_parts(parts: &mut Parts, alloc: Global, at: u64, most: u32) -> Result<Reply, NoMemory>
    requires stands { StandsForShort parts.old }
    requires most { most ≡ most_paced parts.old }
    ensures answer { IfOk result (λ r. (history : List Entry) → StandsFor parts.old history → r ≡ reply history (call.Pace at)) }
    ensures steps { IfOk result (λ r. Steps (call.Pace at) r parts.old parts.new) }
    ensures sends { IfOk result (λ r. length (sent_by r) ≤ most) }
    ensures err { OnErr result (parts.new ≡ parts.old) }
{
    let mut room = SentList::new(alloc);
    if most == 0 {
        return Ok(parts.pace_nothing(at, room));
    }
    room.reserve(MOST_SENDS)?;
    Ok(parts.pace(at, room))
}
