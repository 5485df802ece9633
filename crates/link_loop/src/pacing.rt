//! Paces, whose records are offered to the link.

ghost use Rattle.std.specs.Prelude.{◌≡◌, ◌<◌, ◌≤◌, ◌∷◌, ◌++◌, [], All, OnOk};
ghost use Rattle.gcc_units.specs.declared.limits.TheConstants.{GREATEST_MOMENT};
ghost use Rattle.link_path.specs.declared.link.LinkSettings.{LinkSettings};
ghost use Rattle.link_loop.specs.Looping.{Looping, with_offers, paced, with_pace};
ghost use Rattle.link_loop.specs.Kept.{IsAt, IsSendable, IsSound};

use crate::looper::Looper;
use crate::sources::moment;
use crate::{MOST_MILLIS, PACER};
use gcc_units::{Moment, NoMemory};
use link_path::{Fate, NumberList};
use pacer::Sent;
use send_core::{Call, Reply};
use std::alloc::Global;

/// Puts a number at the end.
fn push(numbers: &mut NumberList, number: u64) -> Result<(), NoMemory>
    ensures { OnOk result (numbers.new.items ≡ numbers.old.items ++ number ∷ []) }
{
    match numbers.push(number) {
        Ok(()) => Ok(()),
        Err((failed, _)) => Err(failed),
    }
}

/// Offers a packet to the link.
fn offer(looper: &mut Looper, record: &Sent, now: Moment) -> Result<(), NoMemory>
    requires moment { now ≤ GREATEST_MOMENT }
    requires sendable { IsSendable «record».now }
    ensures at { OnOk result ((s : LinkSettings) (m : Looping) → IsAt looper.old s m → IsAt looper.new s (with_offers now («record».now ∷ []) m)) }
    ensures sound { OnOk result (IsSound looper.old → IsSound looper.new) }
{
    match looper.link.offer(record.number, record.size, now)? {
        Fate::Dropped => push(&mut looper.dropped, record.number),
        Fate::Arrives(_) => Ok(()),
    }
}

/// Offers packets to the link, in their order.
fn offer_all(looper: &mut Looper, records: &[Sent], now: Moment) -> Result<(), NoMemory>
    requires moment { now ≤ GREATEST_MOMENT }
    requires sendable { All IsSendable records.now }
    ensures at { OnOk result ((s : LinkSettings) (m : Looping) → IsAt looper.old s m → IsAt looper.new s (with_offers now records.now m)) }
    ensures sound { OnOk result (IsSound looper.old → IsSound looper.new) }
{
    for record in records {
        offer(looper, record, now)?;
    }
    Ok(())
}

/// A pace, unless the loop is over, and its records offered to the link.
#[tactic(auto, unfolding(crate::specs::Looping::paced))]
fn pace_now(looper: &mut Looper, alloc: Global, t: u32) -> Result<(), NoMemory>
    requires early { t < MOST_MILLIS }
    requires sound { IsSound looper.old }
    ensures at { OnOk result ((s : LinkSettings) (m : Looping) → IsAt looper.old s m → IsAt looper.new s (paced t m)) }
    ensures sound { OnOk result (IsSound looper.new) }
{
    if !looper.can_ask() {
        return Ok(());
    }
    let at = moment(t);
    match looper.serve(alloc, PACER, Call::Pace { at })? {
        Reply::Paced { sent, .. } => offer_all(looper, sent.as_slice(), at),
        _ => Ok(()),
    }
}

/// A pace, where one is due.
#[tactic(auto, unfolding(crate::specs::Looping::with_pace))]
pub fn pace(looper: &mut Looper, alloc: Global, t: u32) -> Result<(), NoMemory>
    requires early { t < MOST_MILLIS }
    requires sound { IsSound looper.old }
    ensures at { OnOk result ((s : LinkSettings) (m : Looping) → IsAt looper.old s m → IsAt looper.new s (with_pace t m)) }
    ensures sound { OnOk result (IsSound looper.new) }
{
    if t % 5 != 0 {
        return Ok(());
    }
    pace_now(looper, alloc, t)
}
