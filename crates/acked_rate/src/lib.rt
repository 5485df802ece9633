//! The received rate: what arrived at the receiver in the half second before the newest arrival
//! (draft-ietf-rmcat-gcc-02, section 5.5, in outline; `AcknowledgedBitrateEstimator` of libwebrtc).
//!
//! The rule: 16 times the bytes that arrived less than 500 ms before the newest arrival, and none before the
//! credits cover that time. Arrivals are quarter-milliseconds of the receiver's clock, sizes bytes, rates
//! bit/s. The length of the window and the cut are this project's own rules.
//!
//! Those above use that [`Window::rate`] is the rate of all credits so far, however few are kept.
#![tactic(auto)]

ghost use Rattle.std.specs.Prelude.{◌≡◌, ◌≤◌, [], ◌∷◌, ◌++◌, List, Option, IfOk, IfSome};
ghost use Rattle.acked_rate.specs.Received.{Add, acked};
ghost use Rattle.acked_rate.specs.Kept.{IsWithin, StandsFor, TakesAdd};

use circular_buffer::HeapCircularBuffer;
use gcc_units::{GREATEST_RATE, NoMemory, Rate};
use std::alloc::Global;
use std::marker::Model;

mod sums;

use sums::{Span, advance, ring_of_nothing, steps_to, take_in, widened};

/// How far back the window goes from the newest arrival, in quarter-milliseconds: 500 ms
/// (draft-ietf-rmcat-gcc-02, section 5.5, `T`).
pub const WINDOW: i64 = 2_000;

/// What a byte in the window adds to the rate, in bit/s: 8 bits twice a second (it follows from
/// `WINDOW`).
pub const RATE_OF_BYTE: u64 = 16;

/// How many sums a window keeps: one for each quarter-millisecond of it.
pub const MOST_SUMS: u32 = 2_000;

/// What is kept of all packets that arrived: the oldest and the newest arrival, for each quarter-millisecond
/// of the window the bytes of what arrived then, and all of these bytes.
#[derive(Drop)]
pub struct Window {
    span: Option<Span>,
    sums: HeapCircularBuffer<u64>,
    total: u64,
}

impl Model for Window {
    ghost use Rattle.acked_rate.specs.Ring.{sums_of};
    ghost use Rattle.acked_rate.specs.Kept.{Kept, IsKept};

    ghost Value = { Kept };

    ghost view = { λ w. record { span = w.span; sums = sums_of w.span w.sums.items } };

    ghost invariant = { λ w. IsKept w.span w.sums w.total };
}

impl Window {
    /// The window of no packet. It takes the memory for all sums that are ever kept, so that no later call
    /// takes any.
    pub fn new(alloc: Global) -> Result<Self, NoMemory>
        ensures { IfOk result (λ w. StandsFor w []) }
    {
        Ok(Window {
            span: None,
            sums: ring_of_nothing(alloc)?,
            total: 0,
        })
    }

    /// Adds a packet that arrived then, and its bytes.
    pub fn add(&mut self, arrival: i64, size: u32)
        requires within { IsWithin (record { arrival = arrival; size = size }) }
        requires few { TakesAdd self.old }
        ensures { (adds : List Add) → StandsFor self.old adds → StandsFor self.new (adds ++ record { arrival = arrival; size = size } ∷ []) }
    {
        let span = widened(self.span, arrival);
        self.total -= advance(&mut self.sums, steps_to(self.span, span.newest));
        self.total += take_in(&mut self.sums, span.newest, arrival, size);
        self.span = Some(span);
    }

    /// The received rate. `None` exactly where nothing was added, and where the oldest arrival lies nearer
    /// to the newest than the window is long.
    pub fn rate(&self) -> Option<Rate>
        ensures value { (adds : List Add) → StandsFor self.now adds → result ≡ acked adds }
        ensures most { IfSome result (λ r. r ≤ GREATEST_RATE) }
    {
        let span = self.span?;
        if span.newest - span.oldest < WINDOW {
            return None;
        }
        Some((RATE_OF_BYTE * self.total).min(GREATEST_RATE))
    }
}

#[cfg(test)]
mod tests;
