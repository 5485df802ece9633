//! One probe cluster.

ghost use Rattle.std.specs.Prelude.{◌≡◌, ◌≤◌, ◌*◌, nat_le, if◌then◌else◌, Some, None};
ghost use Rattle.probe_clusters.specs.Heard.{result_of};
ghost use Rattle.probe_clusters.specs.Moments.{IsFirstFrom};
ghost use Rattle.probe_clusters.specs.Cluster.{is_due, is_enough, is_ready, planned, waits, with_credit, with_packet, with_result_taken, IsSmall};

use crate::heard::Heard;
use crate::{ALL_PARTS, ENOUGH_PARTS, LEAST_PACKETS, LEAST_TIME};
use gcc_units::{BYTE, Credit, GREATEST_MOMENT, GREATEST_PACKET, Moment, Rate};

/// What is kept of a cluster.
#[derive(Clone, Copy)]
pub struct Cluster {
    pub rate: Rate,
    /// How many packets were sent for it, and their bytes.
    pub packets: u64,
    pub bytes: u64,
    /// When the first of them was sent.
    pub first_sent: Option<Moment>,
    /// What was credited of them before the result was taken.
    pub heard: Option<Heard>,
    pub taken: bool,
}

impl Cluster {
    /// A cluster for which nothing was sent.
    pub fn planned(rate: Rate) -> Cluster
        ensures { result ≡ planned rate }
    {
        Cluster {
            rate,
            packets: 0,
            bytes: 0,
            first_sent: None,
            heard: None,
            taken: false,
        }
    }

    /// Whether too few packets were sent for it, or too few bytes for its rate.
    pub fn waits(&self) -> bool
        ensures { result ≡ waits self.now }
    {
        self.packets < u64::from(LEAST_PACKETS)
            || self.level() < u128::from(LEAST_TIME) * u128::from(self.rate)
    }

    /// Whether nothing was sent for it yet, or its bytes are not ahead of its rate.
    pub fn is_due(&self, now: Moment) -> bool
        ensures { result ≡ is_due self.now now }
    {
        let Some(first) = self.first_sent else {
            return true;
        };
        self.level() <= u128::from(self.rate) * u128::from(now.saturating_sub(first))
    }

    /// The first moment from `from` on at which it is due, in microseconds; `None` where it is due at
    /// none up to `GREATEST_MOMENT`.
    pub fn next_due(&self, from: Moment) -> Option<Moment>
        ensures { IsFirstFrom from (is_due self.now) result }
    {
        if self.is_due(from) {
            return in_time(u128::from(from));
        }
        let first = self.first_sent?;
        if self.rate == 0 {
            return None;
        }
        let lasts = self.level().div_ceil(u128::from(self.rate));
        in_time(u128::from(first) + lasts)
    }

    /// The same with one packet more.
    pub fn with_packet(&self, size: u32, now: Moment) -> Cluster
        requires small { IsSmall self.now }
        requires size { size ≤ GREATEST_PACKET }
        ensures { result ≡ with_packet size now self.now }
    {
        Cluster {
            packets: self.packets + 1,
            bytes: self.bytes + u64::from(size),
            first_sent: Some(self.first_sent.unwrap_or(now)),
            ..*self
        }
    }

    /// The same with one credit more; once the result was taken, credits are ignored.
    pub fn with_credit(&self, credit: &Credit) -> Cluster
        requires small { IsSmall self.now }
        requires size { credit.now.size ≤ GREATEST_PACKET }
        ensures { result ≡ with_credit credit.now self.now }
    {
        if self.taken {
            return *self;
        }
        let heard = match &self.heard {
            Some(heard) => heard.with(*credit),
            None => Heard::first(*credit),
        };
        Cluster {
            heard: Some(heard),
            ..*self
        }
    }

    /// The same with its result taken.
    pub fn with_result_taken(&self) -> Cluster
        ensures { result ≡ with_result_taken self.now }
    {
        Cluster {
            taken: true,
            ..*self
        }
    }

    /// Whether it has a result that was not taken.
    pub fn is_ready(&self) -> bool
        ensures { result ≡ is_ready self.now }
    {
        !self.taken && !self.waits() && self.is_enough()
    }

    /// Its result: none where nothing was credited, or where the credits show no rate.
    pub fn result(&self) -> Option<Rate>
        ensures { result ≡ result_of self.now.heard }
    {
        match &self.heard {
            Some(heard) => heard.result(),
            None => None,
        }
    }

    // Whether enough of its packets and of its bytes were credited.
    fn is_enough(&self) -> bool
        ensures { result ≡ is_enough self.now.heard self.now }
    {
        let Some(heard) = &self.heard else {
            return false;
        };
        is_part(self.packets, heard.count) && is_part(self.bytes, heard.bytes)
    }

    // Its bytes in micro-bits.
    fn level(&self) -> u128
        ensures { result ≡ BYTE * self.now.bytes }
    {
        u128::from(BYTE) * u128::from(self.bytes)
    }
}

// A moment, where it is not too large.
fn in_time(moment: u128) -> Option<Moment>
    ensures { result ≡ (if nat_le moment GREATEST_MOMENT then Some moment else None) }
{
    if moment <= u128::from(GREATEST_MOMENT) {
        Some(moment as u64)
    } else {
        None
    }
}

// Whether a part is enough of the whole.
fn is_part(whole: u64, part: u64) -> bool
    ensures { result ≡ nat_le (ENOUGH_PARTS * whole) (ALL_PARTS * part) }
{
    u128::from(ENOUGH_PARTS) * u128::from(whole) <= u128::from(ALL_PARTS) * u128::from(part)
}
