ghost use Rattle.std.specs.Prelude.{◌≡◌, ℕ, ◌↔◌, ◌<◌, ◌≤◌, ◌+◌, ◌^◌, if◌then◌else◌, List, [], ◌∷◌, ◌++◌, length, count_by, position, slice_set, false, vec_len, vec_capacity, None, IsNone, IsSome, IfSome, IfNone, IfErr, IfOk, OnOk, OnErr, IsErr};
ghost use Rattle.gcc_units.specs.Listed.{bare};
ghost use Rattle.gcc_units.specs.Rates.{IsRate};
ghost use Rattle.probe_clusters.specs.declared.cluster.Cluster.{Cluster};
ghost use Rattle.probe_clusters.specs.Cluster.{planned, waits, is_ready};
ghost use Rattle.probe_clusters.specs.Clusters.{AreOver, AreReady, NoneOfFirst, first_after, due, next_probe, sent, noted, ready, after_ready, outcomes, after_outcomes, listed};
ghost use Rattle.probe_clusters.specs.Deeds.{Deed, clusters, Plan, Note, StandsFor, ReachedBy, send, takings};

use crate::cluster::Cluster;
use gcc_units::{
    Credit, GREATEST_MOMENT, GREATEST_PACKET, MOST_CLUSTERS, MOST_PACKETS, Moment, NoMemory, Rate,
    promise,
};
use std::alloc::Global;
use std::marker::Model;

/// Why a cluster was not planned.
#[derive(Clone, Copy, PartialEq, Eq, Debug)]
pub enum PlanFault {
    /// `MOST_CLUSTERS` clusters wait already.
    TooMany,
    /// Memory ran out.
    NoMemory,
}

/// The result of a cluster.
#[derive(Clone, Copy, PartialEq, Eq, Debug)]
pub struct Outcome {
    pub id: u32,
    /// The rate of the path that its credits show, in bit/s; none where they show none.
    pub result: Option<Rate>,
}

/// The cluster that probes are sent for next.
#[derive(Clone, Copy, PartialEq, Eq, Debug)]
pub struct NextProbe {
    pub id: u32,
    /// Its planned rate, in bit/s.
    pub rate: Rate,
}

// What is known of the clusters that have a result which was not taken.
#[derive(Clone, Copy)]
struct Readiness {
    // How many there are.
    count: u32,
    // How many at the front are none of them, which are passed over in the search for the first.
    first: u32,
}

/// The probe clusters of a sender. Contracts see them in the order of their ids, with a spare number:
/// so many more can be planned before memory is asked for.
#[derive(Drop)]
pub struct Clusters {
    held: Vec<Cluster>,
    room: u32,
    // How many at the front no longer wait, which are passed over in the search for the current one.
    over: u32,
    ready: Readiness,
}

impl Model for Clusters {
    ghost use Rattle.std.specs.Prelude.{◌+◌, ◌^◌, ◌≤◌, ◌<◌};
    ghost use Rattle.std.specs.Vec.{vec_len, vec_capacity};
    ghost use Rattle.gcc_units.specs.Listed.{Listed};
    ghost use Rattle.probe_clusters.specs.declared.cluster.Cluster.{Cluster};
    ghost use Rattle.probe_clusters.specs.Clusters.{AreOver, AreReady};

    ghost Value = { Listed Cluster };

    ghost view = { λ s. record { items = s.held.items; spare = s.room } };

    ghost invariant = { λ s. (vec_len s.held + s.room ≤ vec_capacity s.held) × (vec_len s.held + s.room < 2 ^ 32) × AreOver s.over s.held.items × AreReady s.ready s.held.items };
}

impl Clusters {
    /// No cluster. It takes no memory.
    pub fn new(alloc: Global) -> Clusters
        ensures empty { result ≡ bare [] }
        ensures stands { StandsFor result.items [] }
        ensures reached { ReachedBy 0 0 result.items }
    {
        Clusters {
            held: Vec::new(alloc),
            room: 0,
            over: 0,
            ready: Readiness { count: 0, first: 0 },
        }
    }

    /// Plans a cluster of a rate in bit/s, and answers its id: the count of those before it.
    /// `TooMany` comes exactly where `MOST_CLUSTERS` clusters wait, and `NoMemory` where memory runs
    /// out, but never with spare room. At either the clusters are as before.
    pub fn plan(&mut self, rate: Rate) -> Result<u32, PlanFault>
        requires { IsRate rate }
        ensures id { IfOk result (λ id. id ≡ length self.old.items) }
        ensures items { OnOk result (self.new.items ≡ self.old.items ++ planned rate ∷ []) }
        ensures stands { (ds : List Deed) → StandsFor self.old.items ds → OnOk result (StandsFor self.new.items (ds ++ Plan rate ∷ [])) }
        ensures reached { (sends credits : ℕ) → ReachedBy sends credits self.old.items → OnOk result (ReachedBy sends credits self.new.items) }
        ensures spare { OnOk result (self.old.spare ≤ self.new.spare + 1) }
        ensures err { OnErr result (self.new ≡ self.old) }

        // Too many, exactly where the most wait; no other fault with spare room.
        ensures many { IfErr result (λ e. (e ≡ PlanFault.TooMany) ↔ (MOST_CLUSTERS ≤ count_by waits self.old.items)) }
        ensures few { OnOk result (count_by waits self.old.items < MOST_CLUSTERS) }
        ensures room { 0 < self.old.spare → IfErr result (λ e. e ≡ PlanFault.TooMany) }
    {
        if self.waiting() >= MOST_CLUSTERS {
            return Err(PlanFault::TooMany);
        }
        let id = self.held.len() as u32;
        match self.add(Cluster::planned(rate)) {
            Ok(()) => Ok(id),
            Err(NoMemory) => Err(PlanFault::NoMemory),
        }
    }

    /// Makes the spare number at least `n`. At `NoMemory` the clusters are as before.
    pub fn reserve(&mut self, n: u32) -> Result<(), NoMemory>
        ensures items { self.new.items ≡ self.old.items }
        ensures room { OnOk result (n ≤ self.new.spare) }
        ensures grows { self.old.spare ≤ self.new.spare }
        ensures err { OnErr result (self.new ≡ self.old) }
    {
        self.room = promise(&mut self.held, self.room, n)?;
        Ok(())
    }

    /// How many clusters wait: too few packets were sent for them, or too few bytes for their rate.
    pub fn waiting(&self) -> u32
        ensures value { result ≡ count_by waits self.now.items }
        ensures stands { (ds : List Deed) → StandsFor self.now.items ds → result ≡ count_by waits (clusters ds) }
    {
        count_waiting(self.held.as_slice(), self.over as usize) as u32
    }

    /// The cluster that probes are sent for next, the waiting one with the least id, whether it is due or
    /// not. `None` exactly where no cluster waits.
    pub fn next_probe(&self) -> Option<NextProbe>
        ensures value { result ≡ next_probe self.now.items }
        ensures stands { (ds : List Deed) → StandsFor self.now.items ds → result ≡ next_probe (clusters ds) }
    {
        let id = current(self.held.as_slice(), self.over as usize)?;
        Some(NextProbe {
            id: id as u32,
            rate: self.held[id].rate,
        })
    }

    /// The id of the current cluster, the waiting one with the least id, where it is due: nothing was
    /// sent for it yet, or its bytes are not ahead of its rate. `None` exactly where no cluster waits
    /// or the current one is not due.
    pub fn due(&self, now: Moment) -> Option<u32>
        ensures value { result ≡ due self.now.items now }
        ensures bound { IfSome result (λ id. id < length self.now.items) }
        ensures stands { (ds : List Deed) → StandsFor self.now.items ds → result ≡ due (clusters ds) now }
    {
        let id = current(self.held.as_slice(), self.over as usize)?;
        if self.held[id].is_due(now) {
            Some(id as u32)
        } else {
            None
        }
    }

    /// The first moment from `from` on at which the current cluster is due, in microseconds: once it
    /// is, it stays so until a packet is sent for it. `None` exactly where there is none up to
    /// `GREATEST_MOMENT`: no cluster waits, or the current one is due only later.
    pub fn next_due(&self, from: Moment) -> Option<Moment>
        ensures from_on { IfSome result (λ m. from ≤ m) }
        ensures in_time { IfSome result (λ m. m ≤ GREATEST_MOMENT) }
        ensures due { IfSome result (λ m. IsSome (due self.now.items m)) }
        ensures none_before { IfSome result (λ m. (t : ℕ) → from ≤ t → t < m → due self.now.items t ≡ None) }
        ensures none { IfNone result ((t : ℕ) → from ≤ t → t ≤ GREATEST_MOMENT → due self.now.items t ≡ None) }
    {
        let id = current(self.held.as_slice(), self.over as usize)?;
        self.held[id].next_due(from)
    }

    /// Counts one packet for the current cluster, which has to be due.
    pub fn sent(&mut self, size: u32, now: Moment)
        requires due { IsSome (due self.old.items now) }
        requires size { size ≤ GREATEST_PACKET }
        requires within { ReachedBy MOST_PACKETS MOST_PACKETS self.old.items }
        ensures items { self.new.items ≡ sent size now self.old.items }
        ensures spare { self.new.spare ≡ self.old.spare }
        ensures count { length self.new.items ≡ length self.old.items }
        ensures stands { (ds : List Deed) → StandsFor self.old.items ds
            → StandsFor self.new.items (ds ++ send (due self.old.items now) size now) }
        ensures reached { (sends credits : ℕ) → ReachedBy sends credits self.old.items → ReachedBy (sends + 1) credits self.new.items }
    {
        let Some(id) = current(self.held.as_slice(), self.over as usize) else {
            unreachable!()
        };
        let cluster = self.held[id].with_packet(size, now);
        write(&mut self.held, &mut self.ready, id, cluster);
        self.over = over_from(id, &cluster);
    }

    /// Counts the credit of a cluster's packet. A credit that names no cluster changes nothing, nor
    /// does one that comes after the cluster's result was taken.
    pub fn judge(&mut self, credit: &Credit)
        requires named { IfSome credit.now.cluster (λ id. id < length self.old.items) }
        requires size { credit.now.size ≤ GREATEST_PACKET }
        requires within { ReachedBy MOST_PACKETS MOST_PACKETS self.old.items }
        ensures items { self.new.items ≡ noted credit.now self.old.items }
        ensures spare { self.new.spare ≡ self.old.spare }
        ensures count { length self.new.items ≡ length self.old.items }
        ensures stands { (ds : List Deed) → StandsFor self.old.items ds → StandsFor self.new.items (ds ++ Note credit.now ∷ []) }
        ensures reached { (sends credits : ℕ) → ReachedBy sends credits self.old.items → ReachedBy sends (credits + 1) self.new.items }
    {
        let Some(id) = credit.cluster else {
            return;
        };
        let id = id as usize;
        let cluster = self.held[id].with_credit(credit);
        write(&mut self.held, &mut self.ready, id, cluster);
    }

    /// Takes the result of the least cluster that has one and gave none yet: it no longer waits, and
    /// enough of its packets and of its bytes were credited. `None` exactly where there is no such
    /// cluster.
    pub fn ready(&mut self) -> Option<Outcome>
        ensures value { result ≡ ready self.old.items }
        ensures items { self.new.items ≡ after_ready self.old.items }
        ensures spare { self.new.spare ≡ self.old.spare }
        ensures count { length self.new.items ≡ length self.old.items }
        ensures answer { (ds : List Deed) → StandsFor self.old.items ds → result ≡ ready (clusters ds) }
        ensures stands { (ds : List Deed) → StandsFor self.old.items ds
            → StandsFor self.new.items (ds ++ takings (listed result)) }
        ensures reached { (sends credits : ℕ) → ReachedBy sends credits self.old.items → ReachedBy sends credits self.new.items }

        // For a loop that takes all of them: it is the first of the outcomes, and the others are left.
        ensures first { outcomes self.old.items ≡ listed result ++ outcomes self.new.items }
        ensures fewer { IsSome result → length (outcomes self.new.items) < length (outcomes self.old.items) }
        ensures end { after_outcomes self.new.items ≡ after_outcomes self.old.items }
        ensures none { IsNone result ↔ (outcomes self.old.items ≡ []) }
        ensures all_taken { IfNone result (after_outcomes self.old.items ≡ self.old.items) }
    {
        let Some(id) = first_ready(self.held.as_slice(), self.ready.first as usize) else {
            return None;
        };
        let cluster = self.held[id];
        self.ready.first = id as u32;
        write(
            &mut self.held,
            &mut self.ready,
            id,
            cluster.with_result_taken(),
        );
        Some(Outcome {
            id: id as u32,
            result: cluster.result(),
        })
    }

    // Puts a cluster at the end. With spare room it is never refused; at `NoMemory` nothing changes.
    fn add(&mut self, cluster: Cluster) -> Result<(), NoMemory>
        requires { is_ready cluster ≡ false }
        ensures items { OnOk result (self.new.items ≡ self.old.items ++ cluster ∷ []) }
        ensures spare { OnOk result (self.old.spare ≤ self.new.spare + 1) }
        ensures err { OnErr result (self.new ≡ self.old) }
        ensures room { 0 < self.old.spare → OnErr result ⊥ }
    {
        if self.room > 0 {
            self.held.push_reserved(cluster);
            self.room -= 1;
            return Ok(());
        }
        if self.held.len() >= u32::MAX as usize {
            return Err(NoMemory);
        }
        match self.held.push(cluster) {
            Ok(()) => Ok(()),
            Err(_) => Err(NoMemory),
        }
    }
}

// How many clusters wait, of which so many at the front do not.
fn count_waiting(clusters: &[Cluster], over: usize) -> usize
    requires { AreOver over clusters.now }
    ensures { result ≡ count_by waits clusters.now }
{
    count_in(&clusters[over..])
}

fn count_in(clusters: &[Cluster]) -> usize
    ensures { result ≡ count_by waits clusters.now }
{
    clusters.iter().filter(|c| c.waits()).count()
}

// The waiting cluster with the least id; so many at the front do not wait.
fn current(clusters: &[Cluster], over: usize) -> Option<usize>
    requires { AreOver over clusters.now }
    ensures { result ≡ position waits clusters.now }
{
    match first_in(&clusters[over..]) {
        Some(place) => Some(over + place),
        None => None,
    }
}

fn first_in(clusters: &[Cluster]) -> Option<usize>
    ensures value { result ≡ position waits clusters.now }
    ensures bound { IfSome result (λ place. place < length clusters.now) }
{
    clusters.iter().position(|c| c.waits())
}

// How many clusters are over, where those before this one are.
fn over_from(id: usize, cluster: &Cluster) -> u32
    requires { id + 1 < 2 ^ 32 }
    ensures { result ≡ (if waits cluster.now then id else id + 1) }
{
    if cluster.waits() {
        id as u32
    } else {
        id as u32 + 1
    }
}

// The cluster with the least id that has a result and gave none; so many at the front are none.
fn first_ready(clusters: &[Cluster], first: usize) -> Option<usize>
    requires { NoneOfFirst is_ready first clusters.now }
    ensures { result ≡ position is_ready clusters.now }
{
    match first_ready_in(&clusters[first..]) {
        Some(place) => Some(first + place),
        None => None,
    }
}

fn first_ready_in(clusters: &[Cluster]) -> Option<usize>
    ensures value { result ≡ position is_ready clusters.now }
    ensures bound { IfSome result (λ place. place < length clusters.now) }
{
    clusters.iter().position(|c| c.is_ready())
}

// Writes a cluster in its place, and what is known of those that have a result.
fn write(held: &mut Vec<Cluster>, ready: &mut Readiness, id: usize, cluster: Cluster)
    requires below { id < length held.old.items }
    requires few { length held.old.items < 2 ^ 32 }
    requires known { AreReady ready.old held.old.items }
    ensures items { held.new.items ≡ slice_set held.old.items id cluster }
    ensures capacity { vec_capacity held.new ≡ vec_capacity held.old }
    ensures known { AreReady ready.new held.new.items }
{
    let was = held[id].is_ready();
    let is = cluster.is_ready();
    held[id] = cluster;
    let count = ready.count - u32::from(was) + u32::from(is);
    *ready = Readiness {
        count,
        first: first_after(count, ready.first, id as u32, is, held.len() as u32),
    };
}

// How many at the front have no result, where that of this id was written: all, if there is none.
fn first_after(count: u32, first: u32, id: u32, is: bool, all: u32) -> u32
    ensures { result ≡ first_after count first id is all }
{
    if count == 0 {
        all
    } else if is {
        first.min(id)
    } else {
        first
    }
}
