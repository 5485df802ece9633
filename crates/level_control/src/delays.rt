//! Base, floor and mean change of the delays, and the level above the base at which a queue is cut.

ghost use Rattle.std.specs.Prelude.{◌≡◌, ◌≤◌, ◌<◌, ◌*◌, ◌+◌, ◌^◌, min, max};
ghost use Rattle.std.specs.Int.{int_min, int_max};
ghost use Rattle.std.specs.Option.{ForSome};
ghost use Rattle.level_control.specs.Delays.{above, apart, changed, first_delays, next_delays, delays_after, floor_of, own_level, level, earlier_of, least_of_spell, IsDelay, IsDelays};

use crate::state::{Delay, Delays};
use gcc_units::Moment;

/// How far a delay may lie from 0, in quarter-milliseconds: 2^62.
pub const FARTHEST_DELAY: i64 = 4_611_686_018_427_387_904;

/// The level of the own queue, in quarter-milliseconds: 25 ms (ours, found by trial between 20 and 30 ms: above
/// the burst of a frame at 1 Mbit/s, below what is felt).
pub const OWN_LEVEL: u64 = 100;

/// How many mean changes the own level is at least, since jitter lifts the least delay of a report (ours).
pub const CHANGES: u64 = 4;

/// The weight of the mean change (as the jitter of RFC 3550, section 6.4.1).
pub const CHANGE_PARTS: u64 = 16;

/// The greatest change that counts, in quarter-milliseconds: 100 ms (ours).
pub const GREATEST_CHANGE: u64 = 400;

/// The greatest sixteen-fold mean change; it follows from the two numbers above.
pub const GREATEST_CHANGES: u64 = 6_415;

/// To what the level may grow beside a queue that others hold, in quarter-milliseconds: 100 ms (ours).
pub const SHARED_LEVEL: u64 = 400;

/// So many drains in a row that left most of the queue show that others hold one (ours: a change of the route
/// shows one).
pub const DRAINS_IN_A_ROW: u64 = 2;

/// The level grows by half of the queue that others hold (ours).
pub const OTHERS_PARTS: u64 = 2;

/// How long a spell is, in microseconds: 15 s (ours).
pub const SPELL: u64 = 15_000_000;

/// How far a delay lies above another; 0 where it lies below it.
pub fn above(delay: Delay, other: Delay) -> u64
    requires delay { IsDelay delay }
    requires other { IsDelay other }
    ensures value { result ≡ above delay other }
    ensures bound { result ≤ 2 ^ 63 }
{
    if other < delay {
        delay.abs_diff(other)
    } else {
        0
    }
}

/// The delays with those of one more report.
pub fn delays_after(delays: Option<Delays>, delay: Delay, now: Moment) -> Delays
    requires kept { ForSome delays IsDelays }
    requires delay { IsDelay delay }
    ensures value { result ≡ delays_after delays delay now }
    ensures kept { IsDelays result }
{
    match delays {
        None => first_delays(delay, now),
        Some(delays) => next_delays(delays, delay, now),
    }
}

/// The level above the base at which a queue is cut, in quarter-milliseconds.
pub fn level(delays: Delays, row: u64) -> u64
    requires { IsDelays delays }
    ensures value { result ≡ level delays row }
    ensures bound { result ≤ GREATEST_CHANGES }
{
    let own = own_level(delays.change);
    if row < DRAINS_IN_A_ROW {
        own
    } else {
        let others = above(delays.base, floor_of(delays));
        (own + others / OTHERS_PARTS).min(own.max(SHARED_LEVEL))
    }
}

/// The lesser of two delays.
pub fn lesser(one: Delay, other: Delay) -> Delay
    requires one { IsDelay one }
    requires other { IsDelay other }
    ensures value { result ≡ int_min one other }
    ensures kept { IsDelay result }
{
    one.min(other)
}

/// The greater of two delays.
pub fn greater(one: Delay, other: Delay) -> Delay
    requires one { IsDelay one }
    requires other { IsDelay other }
    ensures value { result ≡ int_max one other }
    ensures kept { IsDelay result }
{
    one.max(other)
}

fn first_delays(delay: Delay, now: Moment) -> Delays
    requires { IsDelay delay }
    ensures value { result ≡ first_delays delay now }
    ensures kept { IsDelays result }
{
    Delays {
        base: delay,
        last: delay,
        change: 0,
        spell: now / SPELL,
        least: delay,
        earlier: None,
    }
}

fn next_delays(delays: Delays, delay: Delay, now: Moment) -> Delays
    requires kept { IsDelays delays }
    requires delay { IsDelay delay }
    ensures value { result ≡ next_delays delays delay now }
    ensures kept { IsDelays result }
{
    let spell = now / SPELL;
    Delays {
        base: lesser(delays.base, delay),
        last: delay,
        change: changed(delays.change, delay, delays.last),
        spell,
        least: least_of_spell(delays, delay, spell),
        earlier: earlier_of(delays, spell),
    }
}

// The least delay of this spell.
fn least_of_spell(delays: Delays, delay: Delay, spell: u64) -> Delay
    requires kept { IsDelays delays }
    requires delay { IsDelay delay }
    ensures value { result ≡ least_of_spell delays delay spell }
    ensures kept { IsDelay result }
{
    if spell == delays.spell {
        lesser(delays.least, delay)
    } else {
        delay
    }
}

// The least delay of the spell before this one.
fn earlier_of(delays: Delays, spell: u64) -> Option<Delay>
    requires { IsDelays delays }
    ensures value { result ≡ earlier_of delays spell }
    ensures kept { ForSome result IsDelay }
{
    if spell == delays.spell {
        delays.earlier
    } else if spell == delays.spell + 1 {
        Some(delays.least)
    } else {
        None
    }
}

// Sixteen times the mean change, with one more change.
fn changed(change: u64, delay: Delay, last: Delay) -> u64
    requires change { change ≤ GREATEST_CHANGES }
    requires delay { IsDelay delay }
    requires last { IsDelay last }
    ensures value { result ≡ changed change delay last }
    ensures bound { result ≤ GREATEST_CHANGES }
{
    let step = above(delay, last) + above(last, delay);
    change + GREATEST_CHANGE.min(step) - change / CHANGE_PARTS
}

// The least delay of this spell and the one before it.
fn floor_of(delays: Delays) -> Delay
    requires { IsDelays delays }
    ensures value { result ≡ floor_of delays }
    ensures kept { IsDelay result }
{
    match delays.earlier {
        None => delays.least,
        Some(earlier) => lesser(delays.least, earlier),
    }
}

fn own_level(change: u64) -> u64
    requires { change ≤ GREATEST_CHANGES }
    ensures { result ≡ own_level change }
{
    OWN_LEVEL.max(CHANGES * change / CHANGE_PARTS)
}
