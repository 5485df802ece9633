//! The types that several crates speak of.

ghost use Rattle.std.specs.Prelude.{◌≡◌, IfOk};

use crate::sequence::{Duplicate, NoMemory, Sequence};
use std::alloc::Global;

/// A moment in microseconds.
pub type Moment = u64;

/// A rate in whole bits per second.
pub type Rate = u64;

/// A level in micro-bits: one byte is 8,000,000 of them.
pub type Level = i128;

/// What the overuse detector says of the path
/// (draft-ietf-rmcat-gcc-02, section 5.4).
#[derive(Clone, Copy, PartialEq, Eq, Debug)]
pub enum Signal {
    Normal,
    /// A queue builds up.
    Over,
    /// A queue drains.
    Under,
}

/// The least and the greatest rate that an estimate may have, in bit/s.
#[derive(Clone, Copy, PartialEq, Eq, Debug)]
pub struct Bounds {
    pub min: Rate,
    pub max: Rate,
}

/// A sent packet that a feedback report named received.
#[derive(Clone, Copy, PartialEq, Eq, Debug)]
pub struct Credit {
    /// The packet's transport-wide number, unwrapped.
    pub number: u64,
    /// When it was sent, in microseconds.
    pub sent_at: Moment,
    /// When it arrived, in quarter-milliseconds of the receiver's clock.
    pub arrival: i64,
    /// Its bytes.
    pub size: u32,
    /// The probe cluster that it was sent for.
    pub cluster: Option<u32>,
}

/// Credits in the order in which they were given.
pub type CreditList = Sequence<Credit>;

/// How the statuses of a feedback report were judged.
#[derive(Drop)]
pub struct Judged {
    /// The packets that are credited now, in the order of their statuses.
    pub received: CreditList,
    /// How many outstanding packets were reported missing for the first time.
    pub missing: u32,
    /// How many statuses name no packet that is kept.
    pub unknown: u32,
    /// How many statuses say nothing new.
    pub repeated: u32,
}

/// The difference of two neighbouring packet groups.
#[derive(Clone, Copy, PartialEq, Eq, Debug)]
pub struct Sample {
    /// The arrival gap less the send gap, in 1/65536 millisecond.
    pub d: i64,
    /// The difference of departures, in microseconds.
    pub send_gap: u64,
    /// The difference of arrivals, in quarter-milliseconds.
    pub arrival_gap: i64,
}

/// A stream's share of the target rate.
#[derive(Clone, Copy, PartialEq, Eq, Debug)]
pub struct Share {
    pub id: u32,
    /// In bit/s.
    pub rate: Rate,
}

/// Shares in rising order of id.
pub type ShareList = Sequence<Share>;

impl Duplicate for Credit {
    fn duplicate(&self, _alloc: Global) -> Result<Credit, NoMemory> {
        Ok(*self)
    }
}

impl Duplicate for Share {
    fn duplicate(&self, _alloc: Global) -> Result<Share, NoMemory> {
        Ok(*self)
    }
}
