ghost use Rattle.std.specs.Prelude.{◌≡◌, ◌<◌, ◌≤◌, ◌↔◌, List, [], ◌∷◌, ◌++◌, length, All, sum_by, slice_get, IsOk, IsNone, OnOk, OnErr, IfOk, IfErr, IfSome};
ghost use Rattle.pace_queues.specs.Waiting.{earlier, next, rest, IsLeast, LosesJust, HasIndexBelow, size_of, accepted_at_of};
ghost use Rattle.circular_buffer.specs.Buffer.{buffer};

use crate::ticket::{Full, Ticket};
use circular_buffer::HeapCircularBuffer;
use gcc_units::{Class, MOST_WAITING, NoMemory};
use std::alloc::Global;
use std::marker::Model;

/// The tickets of the waiting packets.
#[derive(Drop)]
pub struct Queues {
    // A ring for each rank, in the order of arrival, each with room for the most that may wait from
    // the start on.
    audio: HeapCircularBuffer<Ticket>,
    retransmissions: HeapCircularBuffer<Ticket>,
    // With forward error correction.
    video: HeapCircularBuffer<Ticket>,
    // Of all that waits, so that no call has to go over it.
    bytes: u64,
    accepted_sum: u128,
}

impl Model for Queues {
    ghost use Rattle.std.specs.Prelude.{List};
    ghost use Rattle.pace_queues.specs.declared.ticket.Ticket.{Ticket};
    ghost use Rattle.pace_queues.specs.Rings.{in_order, AreRings};

    ghost Value = { List Ticket };

    ghost view = { λ q. in_order q.audio.items q.retransmissions.items q.video.items };

    ghost invariant = { λ q. AreRings q.audio q.retransmissions q.video q.bytes q.accepted_sum };
}

impl Queues {
    /// Nothing waits yet. Takes the memory for `MOST_WAITING` tickets, so that no later call takes
    /// any.
    pub fn new(alloc: Global) -> Result<Queues, NoMemory>
        ensures empty { IfOk result (λ q. q ≡ []) }
    {
        Ok(Queues {
            audio: ring(alloc)?,
            retransmissions: ring(alloc)?,
            video: ring(alloc)?,
            bytes: 0,
            accepted_sum: 0,
        })
    }

    /// Adds a ticket behind those that wait. `Full` comes exactly where `MOST_WAITING` tickets
    /// wait, holds that number, and changes nothing. (This project's own limit.)
    pub fn push(&mut self, ticket: Ticket) -> Result<(), Full>
        requires { All (HasIndexBelow ticket.index) self.old }
        ensures ok { OnOk result (self.new ≡ self.old ++ ticket ∷ []) }
        ensures had_room { OnOk result (length self.old < MOST_WAITING) }
        ensures full { OnErr result (self.new ≡ self.old) }
        ensures cause { IfErr result (λ f. (f.waiting ≡ MOST_WAITING) × (length self.old ≡ MOST_WAITING)) }
        ensures room { length self.old < MOST_WAITING → IsOk result }
    {
        if self.len() >= MOST_WAITING {
            return Err(Full {
                waiting: MOST_WAITING,
            });
        }
        self.bytes += u64::from(ticket.size);
        self.accepted_sum += u128::from(ticket.accepted_at);
        match ticket.class {
            Class::Audio => self.audio.push_back(ticket),
            Class::Retransmission => self.retransmissions.push_back(ticket),
            Class::Video | Class::Fec => self.video.push_back(ticket),
        };
        Ok(())
    }

    /// The ticket with the least pair of rank and index, which stays. `None` exactly where nothing
    /// waits.
    pub fn head(&self) -> Option<Ticket>
        ensures first { result ≡ next self.now }
        ensures least { IfSome result (λ t. IsLeast t self.now) }
        ensures none { IsNone result ↔ (self.now ≡ []) }
    {
        let audio = self.audio.front().copied();
        let retransmission = self.retransmissions.front().copied();
        audio.or(retransmission).or(self.video.front().copied())
    }

    /// The ticket that waits longest, which stays: the first in the order of arrival. `None` exactly
    /// where nothing waits.
    pub fn first(&self) -> Option<Ticket>
        ensures first { result ≡ slice_get self.now 0 }
        ensures none { IsNone result ↔ (self.now ≡ []) }
    {
        let audio = self.audio.front().copied();
        let retransmission = self.retransmissions.front().copied();
        earlier(earlier(audio, retransmission), self.video.front().copied())
    }

    /// Takes out the ticket with the least pair of rank and index. `None` exactly where nothing
    /// waits.
    pub fn pop(&mut self) -> Option<Ticket>
        ensures first { result ≡ next self.old }
        ensures rest { self.new ≡ rest self.old }
        ensures least { IfSome result (λ t. IsLeast t self.old) }
        ensures just_it { IfSome result (λ t. LosesJust t self.old self.new) }
        ensures none { IsNone result ↔ (self.old ≡ []) }
    {
        let first = self.head()?;
        self.bytes -= u64::from(first.size);
        self.accepted_sum -= u128::from(first.accepted_at);
        match first.class {
            Class::Audio => self.audio.pop_front(),
            Class::Retransmission => self.retransmissions.pop_front(),
            Class::Video | Class::Fec => self.video.pop_front(),
        };
        Some(first)
    }

    /// How many tickets wait.
    pub fn len(&self) -> u32
        ensures len { result ≡ length self.now }
        ensures most { result ≤ MOST_WAITING }
    {
        (self.audio.len() + self.retransmissions.len() + self.video.len()) as u32
    }

    /// The sum of the sizes of what waits, in bytes.
    pub fn bytes(&self) -> u64
        ensures { result ≡ sum_by size_of self.now }
    {
        self.bytes
    }

    /// The sum of the moments at which what waits was accepted, in microseconds.
    pub fn accepted_sum(&self) -> u128
        ensures { result ≡ sum_by accepted_at_of self.now }
    {
        self.accepted_sum
    }
}

// Of two tickets, the one that came first.
fn earlier(a: Option<Ticket>, b: Option<Ticket>) -> Option<Ticket>
    ensures { result ≡ earlier a b }
{
    let Some(first) = a else {
        return b;
    };
    match b {
        Some(second) if second.index < first.index => b,
        _ => a,
    }
}

// An empty ring with room for the most that may wait.
fn ring(alloc: Global) -> Result<HeapCircularBuffer<Ticket>, NoMemory>
    ensures { IfOk result (λ r. r ≡ buffer [] MOST_WAITING) }
{
    HeapCircularBuffer::with_capacity(alloc, MOST_WAITING as usize).map_err(|_| NoMemory)
}
