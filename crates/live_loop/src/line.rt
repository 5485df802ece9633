//! The line, whose rate may change, and the queue before it.

ghost use Rattle.std.specs.Prelude.{◌≡◌, ◌*◌, ◌/◌, ◌^◌, ◌<◌, ◌≤◌};
ghost use Rattle.std.specs.Int.{div_ceil};
ghost use Rattle.gcc_units.specs.declared.limits.TheConstants.{BYTE};
ghost use Rattle.live_loop.specs.declared.plan.TheConstants.{LEAST_LINE_RATE};

use gcc_units::{BYTE, Moment, NoMemory, Rate};
use std::alloc::Global;
use std::collections::VecDeque;
use std::marker::Model;

/// A packet that is offered to the line.
#[derive(Clone, Copy, PartialEq, Eq, Debug)]
pub struct Packet {
    /// Whether it is of the second sender.
    pub second: bool,
    /// Its number among those of its sender.
    pub number: u64,
    /// Its bytes.
    pub size: u32,
    /// When it is offered.
    pub moment: Moment,
}

/// A packet whose sending has begun.
#[derive(Clone, Copy, PartialEq, Eq, Debug)]
pub struct Begun {
    pub packet: Packet,
    /// When its sending began.
    pub start: Moment,
    /// When it is sent.
    pub sent: Moment,
}

/// A line with a queue.
#[derive(Drop)]
pub struct Line {
    rate: Rate,
    queue: u64,
    free: Moment,
    bytes: u64,
    waiting: VecDeque<Packet>,
}

/// How long a packet takes on a line of this rate, in whole microseconds, rounded up.
pub fn line_time(rate: Rate, size: u32) -> u64
    requires { LEAST_LINE_RATE ≤ rate }
    ensures value { result ≡ div_ceil (BYTE * size) rate }
    ensures most { result < 2 ^ 48 }
{
    (BYTE * u64::from(size)).div_ceil(rate)
}

/// How long a line of this rate takes for so many bytes, in whole microseconds, rounded down.
pub fn drain_time(rate: Rate, bytes: u128) -> u128
    requires rate { LEAST_LINE_RATE ≤ rate }
    requires few { bytes < 2 ^ 96 }
    ensures { result ≡ bytes * BYTE / rate }
{
    bytes * u128::from(BYTE) / u128::from(rate)
}

impl Model for Line {
    ghost use Rattle.live_loop.specs.Lines.{KeptLine, IsKeptLine};

    ghost Value = { KeptLine };

    ghost view = { λ l. record { rate = l.rate; queue = l.queue; free = l.free; waiting = l.waiting.items } };

    ghost invariant = { λ l. IsKeptLine l.rate l.queue l.free l.bytes l.waiting.items };
}

impl Line {
    ghost use Rattle.std.specs.Prelude.{◌≡◌, ◌+◌, ◌^◌, ◌<◌, ◌≤◌, not, [], length, IfOk, OnOk, OnErr, IfNone, IfSome, drop};
    ghost use Rattle.live_loop.specs.declared.plan.TheConstants.{LEAST_LINE_RATE, GREATEST_LINE_RATE};
    ghost use Rattle.gcc_units.specs.declared.limits.TheConstants.{GREATEST_MOMENT};
    ghost use Rattle.live_loop.specs.Lines.{left, is_full, offered, begun};

    /// The line with this rate and so many bytes of queue, through which nothing was sent.
    pub fn new(alloc: Global, rate: Rate, queue: u64) -> Self
        requires least { LEAST_LINE_RATE ≤ rate }
        requires greatest { rate ≤ GREATEST_LINE_RATE }
        requires few { queue < 2 ^ 31 }
        ensures { result ≡ record { rate = rate; queue = queue; free = 0; waiting = [] } }
    {
        Line {
            rate,
            queue,
            free: 0,
            bytes: 0,
            waiting: VecDeque::new(alloc),
        }
    }

    /// What it sends, in bit/s.
    pub fn rate(&self) -> Rate
        ensures value { result ≡ self.now.rate }
        ensures least { LEAST_LINE_RATE ≤ result }
    {
        self.rate
    }

    /// Changes the rate, for the packets whose sending begins from now on.
    pub fn set_rate(&mut self, rate: Rate)
        requires least { LEAST_LINE_RATE ≤ rate }
        requires greatest { rate ≤ GREATEST_LINE_RATE }
        ensures { self.new ≡ record self.old { rate = rate } }
    {
        self.rate = rate;
    }

    /// How many packets wait.
    pub fn waiting(&self) -> usize
        ensures { result ≡ length self.now.waiting }
    {
        self.waiting.len()
    }

    /// The bytes that the line still has to send.
    pub fn left(&self, now: Moment) -> u128
        ensures value { result ≡ left self.now now }
        ensures few { result < 2 ^ 82 }
    {
        let free_after = self.free.saturating_sub(now);
        let rest = u128::from(self.rate) * u128::from(free_after) / u128::from(BYTE);
        rest + u128::from(self.bytes)
    }

    /// Offers a packet at its moment, and answers whether it waits now. Where its bytes and those that the line
    /// still has to send are more than the queue, it is dropped. At `NoMemory` the line is as before.
    pub fn offer(&mut self, packet: Packet) -> Result<bool, NoMemory>
        ensures taken { IfOk result (λ taken. taken ≡ not (is_full self.old packet)) }
        ensures state { OnOk result (self.new ≡ offered self.old packet) }
        ensures err { OnErr result (self.new ≡ self.old) }
    {
        if self.left(packet.moment) + u128::from(packet.size) > u128::from(self.queue) {
            return Ok(false);
        }
        if self.waiting.push_back(packet).is_err() {
            return Err(NoMemory);
        }
        self.bytes += u64::from(packet.size);
        Ok(true)
    }

    /// The next packet whose sending begins at this moment or before.
    pub fn begin(&mut self, now: Moment) -> Option<Begun>
        requires { now ≤ GREATEST_MOMENT }
        ensures value { result ≡ begun self.old now }
        ensures none { IfNone result (self.new ≡ self.old) }
        ensures some { IfSome result (λ b. self.new ≡ record self.old { free = b.sent; waiting = drop 1 self.old.waiting }) }
        ensures soon { IfSome result (λ b. b.sent < 2 ^ 51) }
    {
        let packet = *self.waiting.get(0)?;
        let start = self.free.max(packet.moment);
        if start > now {
            return None;
        }
        self.waiting.pop_front();
        self.bytes -= u64::from(packet.size);
        let sent = start + line_time(self.rate, packet.size);
        self.free = sent;
        Some(Begun {
            packet,
            start,
            sent,
        })
    }
}
