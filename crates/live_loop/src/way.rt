//! The way behind the line: a delay, losses and jitter.

ghost use Rattle.std.specs.Prelude.{◌≡◌, ◌+◌, ◌%◌, ◌^◌, ◌<◌, ◌≤◌, nat_lt};
ghost use Rattle.live_loop.specs.declared.plan.TheConstants.{ALL_PACKETS};

use crate::line::{Begun, Packet};
use crate::plan::ALL_PACKETS;
use gcc_units::{Moment, NoMemory};
use rand_core::{Rng, SeedableRng};
use rand_xoshiro::Xoshiro256PlusPlus;
use std::alloc::Global;
use std::collections::VecDeque;
use std::marker::Model;

/// A packet that arrives.
#[derive(Clone, Copy, PartialEq, Eq, Debug)]
pub struct Coming {
    pub packet: Packet,
    /// When it arrives.
    pub at: Moment,
}

/// What the way does to each packet.
#[derive(Clone, Copy)]
pub struct Manners {
    /// How long each takes, in microseconds.
    pub delay: u64,
    /// How many in a thousand are lost.
    pub loss: u64,
    /// How much longer it takes at most, in microseconds.
    pub jitter: u64,
}

/// The way, with the packets on it.
#[derive(Drop)]
pub struct Way {
    manners: Manners,
    words: Xoshiro256PlusPlus,
    last: Moment,
    packets: VecDeque<Coming>,
}

/// Whether the packet with this word is lost.
pub fn is_lost(loss: u64, word: u64) -> bool
    ensures { result ≡ nat_lt (word % ALL_PACKETS) loss }
{
    word % ALL_PACKETS < loss
}

/// How much longer the packet with this word takes.
pub fn held_up(jitter: u64, word: u64) -> u64
    requires { jitter < 2 ^ 63 }
    ensures value { result ≡ word % (jitter + 1) }
    ensures most { result ≤ jitter }
{
    word % (jitter + 1)
}

impl Model for Way {
    ghost use Rattle.live_loop.specs.Ways.{KeptWay, AreManners};

    ghost Value = { KeptWay };

    ghost view = { λ w. record { manners = w.manners; last = w.last; packets = w.packets.items } };

    ghost invariant = { λ w. AreManners w.manners };
}

impl Way {
    ghost use Rattle.std.specs.Prelude.{◌≡◌, ◌^◌, ◌<◌, ◌≤◌, [], length, OnOk, OnErr, IfNone, IfSome, drop};
    ghost use Rattle.live_loop.specs.Ways.{AreManners, IsSent, arrived};

    /// The way on which nothing is.
    pub fn new(alloc: Global, manners: Manners, seed: u64) -> Self
        requires { AreManners manners }
        ensures { result ≡ record { manners = manners; last = 0; packets = [] } }
    {
        Way {
            manners,
            words: Xoshiro256PlusPlus::seed_from_u64(seed),
            last: 0,
            packets: VecDeque::new(alloc),
        }
    }

    /// A packet leaves the line. None overtakes another.
    pub fn send(&mut self, begun: &Begun) -> Result<(), NoMemory>
        requires { begun.now.sent < 2 ^ 51 }
        ensures sent { OnOk result (IsSent self.old begun.now self.new) }
        ensures err { OnErr result (self.new ≡ self.old) }
    {
        let first = self.words.next_u64();
        let second = self.words.next_u64();
        if is_lost(self.manners.loss, first) {
            return Ok(());
        }
        let late = held_up(self.manners.jitter, second);
        let at = self.last.max(begun.sent + self.manners.delay + late);
        let coming = Coming {
            packet: begun.packet,
            at,
        };
        if self.packets.push_back(coming).is_err() {
            return Err(NoMemory);
        }
        self.last = at;
        Ok(())
    }

    /// How many packets are on it.
    pub fn len(&self) -> usize
        ensures { result ≡ length self.now.packets }
    {
        self.packets.len()
    }

    /// The next packet that arrives at this moment or before.
    pub fn arrive(&mut self, now: Moment) -> Option<Coming>
        ensures value { result ≡ arrived now self.old.packets }
        ensures none { IfNone result (self.new ≡ self.old) }
        ensures some { IfSome result (λ c. self.new ≡ record self.old { packets = drop 1 self.old.packets }) }
    {
        let coming = *self.packets.get(0)?;
        if coming.at > now {
            return None;
        }
        self.packets.pop_front();
        Some(coming)
    }
}
