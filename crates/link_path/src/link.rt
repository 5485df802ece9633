//! The link: which packets it drops, and when the others arrive.

ghost use Rattle.std.specs.Prelude.{◌≡◌, ◌≤◌, ◌∷◌, ◌++◌, [], List, length, filter, IfOk, OnOk, OnErr};
ghost use Rattle.gcc_units.specs.Listed.{bare};
ghost use Rattle.link_path.specs.Link.{Event, offered, asked, offers, fate, has_arrived, held};
ghost use Rattle.link_path.specs.KeptLink.{IsLink, StandsFor};

use crate::line::{count_arrived, is_full, keep, line_time, move_out};
use gcc_units::{Duplicate, GREATEST_MOMENT, GREATEST_PACKET, Moment, NoMemory, Rate, Sequence};
use std::alloc::Global;
use std::collections::VecDeque;
use std::marker::Model;

/// What a link is.
#[derive(Clone, Copy, PartialEq, Eq, Debug)]
pub struct LinkSettings {
    /// What its line sends, in bit/s.
    pub rate: Rate,
    /// The bytes that may wait for the line.
    pub queue: u64,
    /// How long after its last bit was sent a packet arrives, in microseconds.
    pub delay: u64,
}

/// What becomes of a packet that is offered.
#[derive(Clone, Copy, PartialEq, Eq, Debug)]
pub enum Fate {
    /// The queue was full.
    Dropped,
    /// It arrives at this moment.
    Arrives(Moment),
}

/// A packet that arrives.
#[derive(Clone, Copy, PartialEq, Eq, Debug)]
pub struct Arrival {
    /// The packet's number.
    pub number: u64,
    /// When it arrives.
    pub at: Moment,
}

/// Packets in the order in which they arrive.
pub type ArrivalList = Sequence<Arrival>;

/// Numbers of packets.
pub type NumberList = Sequence<u64>;

impl Duplicate for Arrival {
    fn duplicate(&self, _alloc: Global) -> Result<Arrival, NoMemory> {
        Ok(*self)
    }
}

/// A link, with the packets that were offered, were not dropped and were not taken out yet.
#[derive(Drop)]
pub struct Link {
    settings: LinkSettings,
    free: Moment,
    inside: VecDeque<Arrival>,
}

impl Model for Link {
    ghost use Rattle.link_path.specs.KeptLink.{KeptLink, IsKeptLink};

    ghost Value = { KeptLink };

    ghost view = { λ l. record { settings = l.settings; free = l.free; inside = l.inside.items } };

    ghost invariant = { λ l. IsKeptLink l.settings l.free l.inside.items };
}

impl Link {
    /// The link with these settings, through which nothing was sent. It takes no memory.
    pub fn new(alloc: Global, settings: LinkSettings) -> Self
        requires { IsLink settings }
        ensures { StandsFor result settings [] }
    {
        Link {
            settings,
            free: 0,
            inside: VecDeque::new(alloc),
        }
    }

    /// Offers a packet at a moment, and answers what becomes of it. Numbers and moments are to rise: then the
    /// packets arrive in the order of their numbers. At `NoMemory` the link is as before.
    pub fn offer(&mut self, number: u64, size: u32, now: Moment) -> Result<Fate, NoMemory>
        requires moment { now ≤ GREATEST_MOMENT }
        requires some { 1 ≤ size }
        requires most { size ≤ GREATEST_PACKET }
        ensures fate { IfOk result (λ f. (settings : LinkSettings) (events : List Event) → StandsFor self.old settings events
            → f ≡ fate settings (offers events) (record { number = number; size = size; moment = now })) }
        ensures stands { OnOk result ((settings : LinkSettings) (events : List Event) → StandsFor self.old settings events
            → StandsFor self.new settings (events ++ offered (record { number = number; size = size; moment = now }) ∷ [])) }
        ensures err { OnErr result (self.new ≡ self.old) }
    {
        let start = self.free.max(now);
        if is_full(&self.settings, start - now, size) {
            return Ok(Fate::Dropped);
        }
        let free = start + line_time(&self.settings, size);
        let at = free + self.settings.delay;
        keep(&mut self.inside, Arrival { number, at })?;
        self.free = free;
        Ok(Fate::Arrives(at))
    }

    /// Takes out the packets inside that arrive at this moment or before, in the order in which they arrive.
    /// At `NoMemory` the link is as before.
    pub fn arrive(&mut self, alloc: Global, now: Moment) -> Result<ArrivalList, NoMemory>
        ensures items { IfOk result (λ l. (settings : LinkSettings) (events : List Event) → StandsFor self.old settings events
            → l ≡ bare (filter (has_arrived now) (held settings events))) }
        ensures stands { OnOk result ((settings : LinkSettings) (events : List Event) → StandsFor self.old settings events
            → StandsFor self.new settings (events ++ asked now ∷ [])) }
        ensures err { OnErr result (self.new ≡ self.old) }
    {
        let count = count_arrived(&self.inside, now);
        let mut arrivals = Sequence::new(alloc);
        arrivals.reserve(count)?;
        move_out(&mut self.inside, &mut arrivals, count);
        arrivals.settle();
        Ok(arrivals)
    }

    /// Takes out all packets inside, whenever they arrive, in the order in which they do. At `NoMemory` the link
    /// is as before.
    pub fn take_out(&mut self, alloc: Global) -> Result<ArrivalList, NoMemory>
        ensures items { IfOk result (λ l. (settings : LinkSettings) (events : List Event) → StandsFor self.old settings events
            → l ≡ bare (held settings events)) }
        ensures left { OnOk result (self.new ≡ record self.old { inside = [] }) }
        ensures err { OnErr result (self.new ≡ self.old) }
    {
        let count = self.inside.len() as u32;
        let mut arrivals = Sequence::new(alloc);
        arrivals.reserve(count)?;
        move_out(&mut self.inside, &mut arrivals, count);
        arrivals.settle();
        Ok(arrivals)
    }

    /// How many packets are inside.
    pub fn inside(&self) -> u32
        ensures { (settings : LinkSettings) (events : List Event) → StandsFor self.now settings events
            → result ≡ length (held settings events) }
    {
        self.inside.len() as u32
    }
}
