//! What is asked of a sender, and what it answers.

use crate::boxed_change::BoxedChange;
use allocator::StreamList;
use gcc_units::{Bytes, Class, IdList, Judged, Moment, Rate, ShareList, Signal};
use pacer::SentList;
use rtp_wire::{WireFault, WireList};
use twcc_report::ReportFault;

/// What is asked of a sender. Each call hands in its moment, in microseconds.
#[derive(Drop)]
pub enum Call {
    /// A packet is to be sent.
    Enqueue { at: u64, class: Class, wire: Bytes },
    /// What may leave now is sent.
    Pace { at: u64 },
    /// A transport-wide feedback report came
    /// (draft-holmer-rmcat-transport-wide-cc-extensions-01, section 3.1).
    Report { at: u64, bytes: Bytes },
    /// Settings are changed.
    Configure { at: u64, change: BoxedChange },
}

/// A change of the settings. What it does not name stays.
#[derive(Drop)]
pub struct Change {
    /// Streams that are set, each in place of one with the same id.
    pub streams: StreamList,
    /// Ids of streams that are removed, before others are set.
    pub removed: IdList,
    /// What both estimates are put to, in bit/s.
    pub start: Option<u64>,
    /// The least estimate, in bit/s.
    pub min: Option<u64>,
    /// The greatest estimate, in bit/s.
    pub max: Option<u64>,
    /// The pacing rate in percent of the target rate.
    pub pacing_percent: Option<u64>,
    /// The window of both budgets, in microseconds.
    pub window: Option<u64>,
    /// In bit/s.
    pub padding_rate: Option<u64>,
    /// Whether audio is held back by the budget.
    pub paced_audio: Option<bool>,
    /// The ID of the extension element that holds the transport-wide number.
    pub extension_id: Option<u64>,
    /// The rate of one more probe cluster, in bit/s.
    pub probe: Option<u64>,
}

/// Why a call was refused.
#[derive(Clone, Copy, PartialEq, Eq, Debug)]
pub enum Cause {
    /// The moment is above `GREATEST_MOMENT`.
    MomentTooLarge,
    /// The packet fails a check of its bytes; the fault is that of the first.
    Wire(WireFault),
    /// The packet passes, and as many packets wait as may.
    QueueFull { waiting: u32 },
    /// The report fails a check of its bytes; the fault is that of the first.
    Report(ReportFault),
    /// The change fails this check, and none before it.
    Config(u32),
}

/// Rates after a call, in bit/s.
#[derive(Clone, Copy, PartialEq, Eq, Debug)]
pub struct Rates {
    /// The estimate of delay control.
    pub delay: Rate,
    /// The estimate of loss control.
    pub loss: Rate,
    /// The lesser of the two.
    pub target: Rate,
    /// The pacing rate, without what drains the queue.
    pub pacing: Rate,
}

/// What a sender replies. Each reply carries the sender's moment, in microseconds.
#[derive(Drop)]
pub enum Reply {
    /// The packet waits. Its index is its place among all accepted packets.
    Accepted {
        at: Moment,
        index: u32,
    },
    /// These packets were sent.
    Paced {
        at: Moment,
        sent: SentList,
    },
    /// The report was judged: what it credits, and the signal, the filter's mean in 1/65536
    /// millisecond, the received rate, the rates and the streams' shares after it.
    Credited {
        at: Moment,
        judged: Judged,
        signal: Signal,
        m: i64,
        acked: Option<Rate>,
        rates: Rates,
        shares: ShareList,
    },
    /// The settings were changed: the rates and the streams' shares after it.
    Configured {
        at: Moment,
        rates: Rates,
        shares: ShareList,
    },
    /// The call changed nothing but the moment and what follows from it.
    Refused {
        at: Moment,
        cause: Cause,
    },
}

/// A reply, and the packets that leave with it.
#[derive(Drop)]
pub struct Answer {
    pub reply: Reply,
    /// The packets of a `Paced` reply in its order, stamped with their numbers; else none.
    pub wires: WireList,
}

/// A call that was served: who made it, what it was, and what was replied.
#[derive(Drop)]
pub struct Entry {
    pub caller: u32,
    pub call: Call,
    pub reply: Reply,
}

/// Why a call was not served.
#[derive(Clone, Copy, PartialEq, Eq, Debug)]
pub enum ApplyFault {
    /// The journal holds `MOST_ENTRIES` entries.
    JournalFull,
    /// Memory ran out.
    NoMemory,
}
