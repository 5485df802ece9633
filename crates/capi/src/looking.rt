//! What C is told of a sender's history.

ghost use Rattle.std.specs.Prelude.{◌≡◌, ℕ, List, IfOk, IfErr};
ghost use Rattle.std.specs.Option.{option_map};
ghost use Rattle.send_core.specs.declared.call.Entry.{Entry};
ghost use Rattle.steered_sender.specs.Standing.{StandsFor};
ghost use Rattle.capi.specs.declared.fault.Fault.TheVariants as fault;
ghost use Rattle.capi.specs.Looking.{moment_told, rates_told, queue_told, total_told, stats_told, share_told, probe_told, rates_after, queue_after, stats_after, share_after, probe_after};

use crate::fault::Fault;
use crate::sender::Sender;
use gcc_units::Share;
use live_sender::{Counters, Queue, Total};
use probe_clusters::NextProbe;
use send_core::Rates;
use std::alloc::Global;

/// Rates, in bit/s.
#[repr(C)]
#[derive(Clone, Copy)]
pub struct RatesTold {
    /// The estimate of delay control.
    pub delay: u64,
    /// The estimate of loss control.
    pub loss: u64,
    /// The lesser of the two.
    pub target: u64,
    /// The pacing rate, without what drains the queue.
    pub pacing: u64,
}

/// A moment or a time that there is not.
pub const NO_TIME: u64 = 0xffff_ffff_ffff_ffff;

/// The packets that wait.
#[repr(C)]
#[derive(Clone, Copy)]
pub struct QueueTold {
    /// Their bytes.
    pub bytes: u64,
    /// When the oldest of them was accepted, in microseconds; `NO_TIME` where nothing waits.
    pub oldest: u64,
    /// The time in which the rate in force sends them all, in microseconds and rounded up; `NO_TIME`
    /// where that rate is 0.
    pub drain_time: u64,
    /// How many wait.
    pub packets: u32,
}

/// How many packets, and their bytes.
#[repr(C)]
#[derive(Clone, Copy)]
pub struct TotalTold {
    pub packets: u64,
    pub bytes: u64,
}

/// How many packets and reports there were.
#[repr(C)]
#[derive(Clone, Copy)]
pub struct StatsTold {
    /// The packets that were sent, padding among them.
    pub sent: u64,
    /// Those of them that were audio which no budget held back.
    pub audio: TotalTold,
    /// Media within the budget.
    pub media: TotalTold,
    /// Packets of probe clusters.
    pub probes: TotalTold,
    /// Packets that carry no media.
    pub padding: TotalTold,
    /// The sent packets that a report credited.
    pub credited: u64,
    /// The sent packets that a report said were missing, each counted once. A later report may credit
    /// it all the same.
    pub missing: u64,
    /// The sent packets that no report credited, and none can any more.
    pub expired: u64,
    /// The calls that were refused, at most 2^64 - 1.
    pub refused: u64,
    /// The accepted packets.
    pub accepted: u32,
    /// Those of them that wait.
    pub waiting: u32,
    /// Those of the sent packets that a report may still credit.
    pub outstanding: u32,
    /// The reports that were judged.
    pub judged: u32,
}

/// A stream's share of the target rate.
#[repr(C)]
#[derive(Clone, Copy)]
pub struct ShareTold {
    /// In bit/s.
    pub rate: u64,
    /// Whose share it is.
    pub id: u32,
}

/// The probe cluster that packets are sent for next.
#[repr(C)]
#[derive(Clone, Copy)]
pub struct ProbeTold {
    /// Its planned rate, in bit/s.
    pub rate: u64,
    /// Its place among the clusters that were planned.
    pub cluster: u32,
}

/// What a feedback told of a packet for the first time.
#[repr(C)]
#[derive(Clone, Copy)]
pub struct ResultTold {
    /// Its transport-wide number.
    pub number: u64,
    /// When it was sent, in microseconds; `NO_TIME` for one that is missing.
    pub sent_at: u64,
    /// When it arrived, in quarter-milliseconds of the receiver's clock; 0 for one that is missing.
    pub arrival: i64,
    /// Its bytes; 0 for one that is missing.
    pub size: u32,
    /// The cluster of a probe; else, and for one that is missing, `NO_INDEX`.
    pub cluster: u32,
    /// 1 where it was received, 0 where it is missing.
    pub received: u32,
}

fn rates_told(rates: Rates) -> RatesTold
    ensures { result ≡ rates_told rates }
{
    RatesTold {
        delay: rates.delay,
        loss: rates.loss,
        target: rates.target,
        pacing: rates.pacing,
    }
}

fn moment_told(moment: Option<u64>) -> u64
    ensures { result ≡ moment_told moment }
{
    match moment {
        None => NO_TIME,
        Some(moment) => moment,
    }
}

fn queue_told(queue: Queue) -> QueueTold
    ensures { result ≡ queue_told queue }
{
    QueueTold {
        bytes: queue.bytes,
        oldest: moment_told(queue.oldest),
        drain_time: moment_told(queue.drain_time),
        packets: queue.packets,
    }
}

fn total_told(total: Total) -> TotalTold
    ensures { result ≡ total_told total }
{
    TotalTold {
        packets: total.packets,
        bytes: total.bytes,
    }
}

fn stats_told(counters: Counters) -> StatsTold
    ensures { result ≡ stats_told counters }
{
    let sent_as = counters.sent_as;
    StatsTold {
        sent: counters.sent,
        audio: total_told(sent_as.audio),
        media: total_told(sent_as.media),
        probes: total_told(sent_as.probes),
        padding: total_told(sent_as.padding),
        credited: counters.credited,
        missing: counters.missing,
        expired: counters.expired,
        refused: counters.refused,
        accepted: counters.accepted,
        waiting: counters.waiting,
        outstanding: counters.outstanding,
        judged: counters.judged,
    }
}

fn share_told(share: Option<Share>) -> Option<ShareTold>
    ensures { result ≡ option_map share_told share }
{
    match share {
        Some(share) => Some(ShareTold {
            rate: share.rate,
            id: share.id,
        }),
        None => None,
    }
}

fn probe_told(probe: Option<NextProbe>) -> Option<ProbeTold>
    ensures { result ≡ option_map probe_told probe }
{
    match probe {
        Some(probe) => Some(ProbeTold {
            rate: probe.rate,
            cluster: probe.id,
        }),
        None => None,
    }
}

impl Sender {
    /// The rates after the last call.
    pub fn rates(&self) -> RatesTold
        ensures { (history : List Entry) → StandsFor self.now.steered history → result ≡ rates_after history }
    {
        rates_told(self.steered.sender().rates())
    }

    /// The packets that wait.
    pub fn queue(&self) -> QueueTold
        ensures { (history : List Entry) → StandsFor self.now.steered history → result ≡ queue_after history }
    {
        queue_told(self.steered.sender().queue())
    }

    /// The probe cluster that packets are sent for next, if one waits.
    pub fn next_probe(&self) -> Option<ProbeTold>
        ensures { (history : List Entry) → StandsFor self.now.steered history → result ≡ probe_after history }
    {
        probe_told(self.steered.sender().next_probe())
    }

    /// How many packets and reports there were.
    pub fn stats(&self) -> StatsTold
        ensures { (history : List Entry) → StandsFor self.now.steered history → result ≡ stats_after history }
    {
        stats_told(self.steered.sender().counters())
    }

    /// The share of this place, counted from 0 in rising order of the streams' ids, if there is one.
    pub fn share(&self, alloc: Global, k: u32) -> Result<Option<ShareTold>, Fault>
        ensures share { IfOk result (λ share. (history : List Entry) → StandsFor self.now.steered history → share ≡ share_after history k) }
        ensures err { IfErr result (λ e. e ≡ fault.NoMemory) }
    {
        let Ok(shares) = self.steered.sender().shares(alloc) else {
            return Err(Fault::NoMemory);
        };
        Ok(share_told(shares.get(k).copied()))
    }
}
