//! What a packet needs of the line and of the queue, and the packets that wait to arrive.

ghost use Rattle.std.specs.Prelude.{◌≡◌, ◌+◌, ◌-◌, ◌*◌, ◌/◌, ◌^◌, ◌<◌, ◌≤◌, ◌∷◌, ◌++◌, [], length, take, drop, nat_lt, OnOk, OnErr};
ghost use Rattle.std.specs.Int.{div_ceil};
ghost use Rattle.std.specs.List.{prefix_len};
ghost use Rattle.gcc_units.specs.declared.limits.TheConstants.{BYTE};
ghost use Rattle.link_path.specs.Link.{has_arrived};
ghost use Rattle.link_path.specs.KeptLink.{IsLink};

use crate::link::{Arrival, ArrivalList, LinkSettings};
use gcc_units::{BYTE, GREATEST_PACKET, Moment, NoMemory};
use std::collections::VecDeque;

/// Whether the queue is too full for a packet, where the line is free after so many microseconds.
pub fn is_full(settings: &LinkSettings, wait: u64, size: u32) -> bool
    requires { IsLink settings.now }
    ensures { result ≡ nat_lt settings.now.queue (settings.now.rate * wait / BYTE + size) }
{
    let waiting = u128::from(settings.rate) * u128::from(wait) / u128::from(BYTE);
    waiting + u128::from(size) > u128::from(settings.queue)
}

/// How long a packet takes on the line, in whole microseconds, rounded up.
pub fn line_time(settings: &LinkSettings, size: u32) -> u64
    requires link { IsLink settings.now }
    requires most { size ≤ GREATEST_PACKET }
    ensures value { result ≡ div_ceil (BYTE * size) settings.now.rate }
    ensures some { 1 ≤ size → 1 ≤ result }
    ensures most { result < 2 ^ 24 }
{
    (BYTE * u64::from(size)).div_ceil(settings.rate)
}

/// Puts a packet behind those that wait to arrive. At `NoMemory` they are as before.
pub fn keep(inside: &mut VecDeque<Arrival>, arrival: Arrival) -> Result<(), NoMemory>
    requires { length inside.old.items < 2 ^ 32 }
    ensures items { OnOk result (inside.new.items ≡ inside.old.items ++ arrival ∷ []) }
    ensures few { length inside.new.items < 2 ^ 32 }
    ensures err { OnErr result (inside.new.items ≡ inside.old.items) }
{
    if inside.len() >= u32::MAX as usize {
        return Err(NoMemory);
    }
    match inside.push_back(arrival) {
        Ok(()) => Ok(()),
        Err(_) => Err(NoMemory),
    }
}

/// How many packets at the front have arrived. It looks at these and at the next one alone.
pub fn count_arrived(inside: &VecDeque<Arrival>, now: Moment) -> u32
    requires { length inside.now.items < 2 ^ 32 }
    ensures { result ≡ prefix_len (has_arrived now) inside.now.items }
{
    let mut count = 0;
    while let Some(arrival) = inside.get(count as usize) {
        if arrival.at > now {
            break;
        }
        count += 1;
    }
    count
}

/// Moves so many packets from the front to the end of a list that has room for them.
pub fn move_out(inside: &mut VecDeque<Arrival>, arrivals: &mut ArrivalList, count: u32)
    requires there { count ≤ length inside.old.items }
    requires room { count ≤ arrivals.old.spare }
    ensures inside { inside.new.items ≡ drop count inside.old.items }
    ensures arrivals { arrivals.new.items ≡ arrivals.old.items ++ take count inside.old.items }
{
    for _i in 0..count {
        if let Some(arrival) = inside.pop_front() {
            arrivals.put(arrival);
        }
    }
}
