//! The pacer.

ghost use Rattle.std.specs.Prelude.{◌≡◌, ◌↔◌, ℕ, pos, neg_ℤ, ◌+◌, ◌*◌, ◌≤◌, ◌≤ℤ◌, ◌<◌, ◌^◌, ◌++◌, [], List, length, slice_get, sum_by, All, None, IsSome, IsNone, IfSome, IfNone, IfOk, IsOk, OnOk, OnErr, IfErr};
ghost use Rattle.pace_budget.specs.Level.{full};
ghost use Rattle.pace_queues.specs.Waiting.{next, size_of, HasIndexBelow};
ghost use Rattle.probe_clusters.specs.Moments.{IsFirstFrom};
ghost use Rattle.probe_clusters.specs.Deeds.{Deed, StandsFor};
ghost use Rattle.pacer.specs.Pace.{after_all, paced};
ghost use Rattle.pacer.specs.Course.{HasRoom, IsLowered, MayLower, probes_of};
ghost use Rattle.pacer.specs.Force.{sending_time};
ghost use Rattle.pacer.specs.Next.{first_at, is_free, is_open};
ghost use Rattle.pacer.specs.State.{start, advanced, accepted, terms, standing, left, tuned, tally, IsPacing};

use crate::course::{Course, Terms, is_audio, run};
use crate::force::{in_force, sending_time};
use crate::opening::{opening, sooner};
use crate::pacing::{Pacing, START_PACING, START_PADDING, START_WINDOW, Tally};
use crate::sent::SentList;
use gcc_units::{
    GREATEST_MOMENT, GREATEST_PACKET, GREATEST_RATE, Level, MOST_SENDS, MOST_WAITING, Moment,
    NoMemory, Rate,
};
use pace_budget::Bucket;
use pace_queues::{Full, Queues, Ticket};
use probe_clusters::Clusters;
use std::alloc::Global;
use std::marker::Model;

/// What decides which packets leave. Contracts see it as its moment, what waits, both levels, whether
/// media was sent before, the settings, and the rate in force.
#[derive(Drop)]
pub struct Pacer {
    moment: Moment,
    course: Course,
    pacing: Pacing,
    rate: Rate,
}

impl Model for Pacer {
    ghost use Rattle.pacer.specs.State.{State, IsKept};
    ghost use Rattle.pacer.specs.Inside.{state_of};

    ghost Value = { State };

    ghost view = { state_of };

    ghost invariant = { λ p. IsKept (state_of p) };
}

impl Pacer {
    /// A pacer at moment 0 with both levels 0 and the settings that a pacer begins with. It takes the
    /// memory of the waiting packets.
    pub fn new(alloc: Global) -> Result<Pacer, NoMemory>
        ensures { IfOk result (λ p. p ≡ start) }
    {
        let queues = Queues::new(alloc)?;
        Ok(Pacer {
            moment: 0,
            course: Course {
                queues,
                media: Bucket::new(),
                padding: Bucket::new(),
                began: false,
            },
            pacing: Pacing {
                rate: START_PACING,
                window: START_WINDOW,
                padding_rate: START_PADDING,
                paced_audio: false,
            },
            rate: START_PACING,
        })
    }

    /// The moment that it stands at, in microseconds.
    pub fn moment(&self) -> Moment
        ensures value { result ≡ self.now.moment }
        ensures in_time { result ≤ GREATEST_MOMENT }
    {
        self.moment
    }

    /// How many packets wait.
    pub fn waiting(&self) -> u32
        ensures value { result ≡ length self.now.waiting }
        ensures most { result ≤ MOST_WAITING }
    {
        self.course.queues.len()
    }

    /// The sum of the sizes of what waits, in bytes.
    pub fn bytes(&self) -> u64
        ensures { result ≡ sum_by size_of self.now.waiting }
    {
        self.course.queues.bytes()
    }

    /// The ticket that waits longest: the first in the order of arrival. `None` exactly where nothing
    /// waits.
    pub fn first(&self) -> Option<Ticket>
        ensures first { result ≡ slice_get self.now.waiting 0 }
        ensures none { IsNone result ↔ (self.now.waiting ≡ []) }
    {
        self.course.queues.first()
    }

    /// The rate in force, in bit/s.
    pub fn rate(&self) -> Rate
        ensures value { result ≡ self.now.rate }
        ensures most { result ≤ GREATEST_RATE }
    {
        self.rate
    }

    /// The time in which the rate in force sends what waits, in microseconds and rounded up. `None`
    /// exactly where that rate is 0.
    pub fn sending_time(&self) -> Option<u64>
        ensures { result ≡ sending_time self.now.rate self.now.waiting }
    {
        sending_time(self.rate, self.moment, &self.course.queues)
    }

    /// The first moment, from its own on and in microseconds, at which a pace would send something if no
    /// other call came before it: at once where the next packet is audio that is not held back, where a
    /// cluster is due, or where the level is above 0 from which it would be sent. `None` exactly where
    /// none up to `GREATEST_MOMENT` would.
    pub fn next_send(&self, clusters: &Clusters) -> Option<Moment>
        ensures from_on { IfSome result (λ m. self.now.moment ≤ m) }
        ensures in_time { IfSome result (λ m. m ≤ GREATEST_MOMENT) }
        ensures sends { IfSome result (λ m. (number : ℕ) → IsSome (first_at self.now clusters.now.items number m)) }
        ensures none_before { IfSome result (λ m. (number t : ℕ) → self.now.moment ≤ t → t < m → first_at self.now clusters.now.items number t ≡ None) }
        ensures none { IfNone result ((number t : ℕ) → self.now.moment ≤ t → t ≤ GREATEST_MOMENT → first_at self.now clusters.now.items number t ≡ None) }
    {
        if self.is_free() {
            return Some(self.moment);
        }
        sooner(clusters.next_due(self.moment), self.next_open())
    }

    // Whether the next packet is audio that is not held back.
    fn is_free(&self) -> bool
        ensures { result ≡ is_free self.now (next self.now.waiting) }
    {
        match self.course.queues.head() {
            Some(ticket) => is_audio(ticket.class) && !self.pacing.paced_audio,
            None => false,
        }
    }

    // The first moment at which the level is above 0 from which a packet would be sent.
    fn next_open(&self) -> Option<Moment>
        ensures { IsFirstFrom self.now.moment (is_open self.now (next self.now.waiting)) result }
    {
        let window = self.pacing.window;
        if self.course.queues.head().is_some() {
            return opening(self.course.media.level(), self.rate, window, self.moment);
        }
        if !self.course.began {
            return None;
        }
        opening(
            self.course.padding.level(),
            self.pacing.padding_rate,
            window,
            self.moment,
        )
    }

    /// Time passes up to a moment, in microseconds: both levels advance at the rates that were in force.
    pub fn advance(&mut self, now: Moment)
        requires later { self.old.moment ≤ now }
        requires in_time { now ≤ GREATEST_MOMENT }
        ensures { self.new ≡ advanced self.old now }
    {
        let time = now - self.moment;
        self.course
            .media
            .advance(self.rate, time, self.pacing.window);
        self.course
            .padding
            .advance(self.pacing.padding_rate, time, self.pacing.window);
        self.moment = now;
    }

    /// A packet waits from now on. `Full` comes exactly where `MOST_WAITING` packets wait, holds that
    /// number, and changes nothing. The rate in force stays.
    pub fn accept(&mut self, ticket: Ticket) -> Result<(), Full>
        requires order { All (HasIndexBelow ticket.index) self.old.waiting }
        requires size { ticket.size ≤ GREATEST_PACKET }
        requires came { ticket.accepted_at ≤ self.old.moment }
        ensures ok { OnOk result (self.new ≡ accepted self.old ticket) }
        ensures had_room { OnOk result (length self.old.waiting < MOST_WAITING) }
        ensures full { OnErr result (self.new ≡ self.old) }
        ensures cause { IfErr result (λ f. (f.waiting ≡ MOST_WAITING) × (length self.old.waiting ≡ MOST_WAITING)) }
        ensures room { length self.old.waiting < MOST_WAITING → IsOk result }
    {
        self.course.queues.push(ticket)
    }

    /// Sends what may leave now, at most `MOST_SENDS` packets, numbered from `first`: each time by the
    /// first of four rules that applies. The rate in force stays.
    pub fn pace(&mut self, clusters: &mut Clusters, first: u64, out: &mut SentList)
        requires empty { out.old.items ≡ [] }
        requires room { MOST_SENDS ≤ out.old.spare }
        requires fits { first + MOST_SENDS < 2 ^ 64 }
        requires within { HasRoom MOST_SENDS clusters.old.items }
        requires few { MayLower MOST_SENDS self.old.media }
        ensures records { out.new.items ≡ paced MOST_SENDS (terms self.old) (standing self.old clusters.old.items first) }
        ensures left { self.new ≡ left self.old (after_all (terms self.old) (standing self.old clusters.old.items first) out.new.items) }
        ensures spare { clusters.new.spare ≡ clusters.old.spare }
        ensures stands { (ds : List Deed) → StandsFor clusters.old.items ds → StandsFor clusters.new.items (ds ++ probes_of self.old.moment out.new.items) }
        ensures lowered { (sends : ℕ) → IsLowered sends self.old.media → IsLowered (sends + length out.new.items) self.new.media }
    {
        let terms = Terms {
            moment: self.moment,
            paced_audio: self.pacing.paced_audio,
            floor: floor_of(self.pacing),
        };
        run(&mut self.course, clusters, first, terms, out);
    }

    /// At most so many packets are sent by a pace at the moment that it stands at: those that wait,
    /// where no cluster is due and no padding may be sent, and else `MOST_SENDS`.
    pub fn most_sends(&self, clusters: &Clusters) -> u32
        ensures covers { (first : ℕ) → length (paced MOST_SENDS (terms self.now) (standing self.now clusters.now.items first)) ≤ result }
        ensures most { result ≤ MOST_SENDS }
    {
        if self.course.padding.is_open() || clusters.due(self.moment).is_some() {
            return MOST_SENDS;
        }
        MOST_SENDS.min(self.course.queues.len())
    }

    /// Takes over these settings, and forms the rate in force anew from the pacing rate and what waits.
    pub fn tune(&mut self, pacing: Pacing)
        requires { IsPacing pacing }
        ensures { self.new ≡ tuned self.old pacing }
    {
        self.rate = in_force(pacing.rate, self.moment, &self.course.queues);
        self.pacing = pacing;
    }

    /// The rate in force, the window and the padding rate.
    pub fn tally(&self) -> Tally
        ensures { result ≡ tally self.now }
    {
        Tally {
            rate: self.rate,
            window: self.pacing.window,
            padding_rate: self.pacing.padding_rate,
        }
    }
}

// How low media may push the padding level: what a window of padding holds, below 0.
fn floor_of(pacing: Pacing) -> Level
    requires { IsPacing pacing }
    ensures value { result ≡ neg_ℤ (pos (pacing.padding_rate * pacing.window)) }
    ensures low { neg_ℤ full ≤ℤ result }
    ensures high { result ≤ℤ pos 0 }
{
    -(i128::from(pacing.padding_rate) * i128::from(pacing.window))
}
