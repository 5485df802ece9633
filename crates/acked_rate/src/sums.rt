//! The sums of the window, and the span of all arrivals.

ghost use Rattle.std.specs.Prelude.{◌≡◌, ℤ, neg_ℤ, ◌≤ℤ◌, ◌-ℤ◌, ◌≤◌, ◌<◌, ◌+◌, ◌^◌, [], ◌∷◌, ◌++◌, IfOk, drop, get_or, set, sum};
ghost use Rattle.acked_rate.specs.Received.{widened, weight};
ghost use Rattle.acked_rate.specs.Kept.{sum_above};
ghost use Rattle.acked_rate.specs.Ring.{IsFull, first_in, moved, steps_to, timed};

use crate::{MOST_SUMS, WINDOW};
use circular_buffer::HeapCircularBuffer;
use gcc_units::{GREATEST_ARRIVAL, NoMemory};
use std::alloc::Global;

/// The oldest and the newest of some arrivals.
#[derive(Clone, Copy)]
pub struct Span {
    pub oldest: i64,
    pub newest: i64,
}

/// The span with one more arrival.
pub fn widened(span: Option<Span>, arrival: i64) -> Span
    ensures { result ≡ widened span arrival }
{
    match span {
        None => Span {
            oldest: arrival,
            newest: arrival,
        },
        Some(span) => Span {
            oldest: span.oldest.min(arrival),
            newest: span.newest.max(arrival),
        },
    }
}

/// How far the window moves on, to end with this arrival.
pub fn steps_to(span: Option<Span>, newest: i64) -> u64
    ensures { result ≡ steps_to span newest }
{
    match span {
        None => 0,
        Some(before) => newest.abs_diff(before.newest),
    }
}

/// A ring of sums that are 0.
pub fn ring_of_nothing(alloc: Global) -> Result<HeapCircularBuffer<u64>, NoMemory>
    ensures { IfOk result (λ ring. IsFull ring × (sum ring.items ≡ 0)) }
{
    let mut ring = HeapCircularBuffer::with_capacity(alloc, MOST_SUMS as usize)?;
    for _i in 0..MOST_SUMS {
        ring.push_back(0);
    }
    Ok(ring)
}

/// Moves on by one: the oldest sum goes, and a sum of 0 comes. It answers the bytes that went.
fn step(ring: &mut HeapCircularBuffer<u64>) -> u64
    requires full { IsFull ring.old }
    ensures full { IsFull ring.new }
    ensures items { ring.new.items ≡ drop 1 ring.old.items ++ 0 ∷ [] }
    ensures gone { result + sum ring.new.items ≡ sum ring.old.items }
{
    ring.push_back(0).unwrap_or(0)
}

/// Moves on by so many quarter-milliseconds, and answers the bytes that went.
pub fn advance(ring: &mut HeapCircularBuffer<u64>, steps: u64) -> u64
    requires full { IsFull ring.old }
    requires few { sum ring.old.items < 2 ^ 51 }
    ensures full { IsFull ring.new }
    ensures items { ring.new.items ≡ moved steps ring.old.items }
    ensures gone { result + sum ring.new.items ≡ sum ring.old.items }
{
    let mut gone = 0;
    for _i in 0..steps.min(u64::from(MOST_SUMS)) {
        gone += step(ring);
    }
    gone
}

/// Adds a packet to the sum of its arrival, where that is in the window that ends with the newest arrival.
/// It answers the bytes that it added.
pub fn take_in(ring: &mut HeapCircularBuffer<u64>, newest: i64, arrival: i64, size: u32) -> u64
    requires low { neg_ℤ GREATEST_ARRIVAL ≤ℤ newest }
    requires newest { arrival ≤ℤ newest }
    requires full { IsFull ring.old }
    requires few { sum ring.old.items < 2 ^ 51 }
    ensures full { IsFull ring.new }
    ensures added { sum ring.new.items ≡ sum ring.old.items + result }
    ensures most { result ≤ size }
    ensures above { (limit : ℤ) → (newest -ℤ WINDOW) ≤ℤ limit → sum_above limit (timed (first_in newest) ring.new.items)
        ≡ sum_above limit (timed (first_in newest) ring.old.items) + weight limit (record { arrival = arrival; size = size }) }
{
    let start = newest - WINDOW;
    if arrival <= start {
        return 0;
    }
    let place = arrival - start - 1;
    add_at(ring, place as usize, size);
    u64::from(size)
}

/// Adds bytes to the sum at a place.
fn add_at(ring: &mut HeapCircularBuffer<u64>, place: usize, size: u32)
    requires full { IsFull ring.old }
    requires place { place < MOST_SUMS }
    requires few { sum ring.old.items < 2 ^ 51 }
    ensures full { IsFull ring.new }
    ensures items { ring.new.items ≡ set ring.old.items place (get_or ring.old.items place 0 + size) }
{
    if let Some(sum) = ring.get_mut(place) {
        *sum += u64::from(size);
    }
}
