//! What a run is asked for.

use gcc_units::{Moment, Rate};
use steered_sender::Control;

/// The least rate of a line, in bit/s.
pub const LEAST_LINE_RATE: Rate = 10_000;

/// The greatest rate of a line, in bit/s: more than a sender can send in 64 packets a millisecond is of no use.
pub const GREATEST_LINE_RATE: Rate = 1_000_000_000;

/// The most milliseconds of queue, of delay and of jitter.
pub const MOST_WAIT: u64 = 10_000;

/// The most seconds of a run: ten minutes.
pub const MOST_SECONDS: u32 = 600;

/// The most changes of the rate in a run.
pub const MOST_STEPS: u32 = 16;

/// All packets, of a thousand.
pub const ALL_PACKETS: u64 = 1_000;

/// A change of the line's rate.
#[derive(Clone, Copy, PartialEq, Eq, Debug)]
pub struct Step {
    /// The second at which it comes.
    pub at: u32,
    /// The rate from then on, in bit/s.
    pub rate: Rate,
}

/// What a run is asked for.
#[derive(Drop)]
pub struct Plan {
    /// The line's rate at first, in bit/s.
    pub rate: Rate,
    /// How long its queue is at that rate, in milliseconds.
    pub queue: u64,
    /// How long a packet takes behind the line, and a report back, in milliseconds.
    pub delay: u64,
    /// How long the run is, in seconds.
    pub seconds: u32,
    /// The changes of the rate, each at a later second than the one before it.
    pub steps: Vec<Step>,
    /// How many packets in a thousand are lost behind the line.
    pub loss: u64,
    /// How long packets are held up at most, in milliseconds.
    pub jitter: u64,
    /// Where losses and jitter are drawn from.
    pub seed: u64,
    /// Whether there is a second sender, half a second later.
    pub two: bool,
    /// Which control the senders' targets come from.
    pub control: Control,
}

impl Plan {
    ghost use Rattle.std.specs.Prelude.{◌≡◌, ◌*◌, ◌/◌, ◌+◌, ◌≤◌, ◌^◌, ◌<◌, max};
    ghost use Rattle.live_loop.specs.Plans.{IsPlan};

    /// The bytes of the queue: at least one packet of the greatest size.
    pub fn queue_bytes(&self) -> u64
        requires { IsPlan self.now }
        ensures value { result ≡ max 1500 (self.now.rate * self.now.queue / 8000) }
        ensures most { result < 2 ^ 31 }
    {
        (self.rate * self.queue / 8_000).max(1_500)
    }

    /// How many milliseconds the run has.
    pub fn millis(&self) -> u32
        requires { IsPlan self.now }
        ensures { result ≡ 1000 * self.now.seconds }
    {
        1_000 * self.seconds
    }

    /// The delay, in microseconds.
    pub fn delay_micros(&self) -> Moment
        requires { IsPlan self.now }
        ensures { result ≡ 1000 * self.now.delay }
    {
        1_000 * self.delay
    }
}
