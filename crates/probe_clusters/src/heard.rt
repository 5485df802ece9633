//! What the credits of a cluster's packets say.

ghost use Rattle.std.specs.Prelude.{◌≡◌, ◌<◌, ◌≤◌, ◌-◌, ◌^◌, ◌*◌, IfSome, Some, None};
ghost use Rattle.probe_clusters.specs.Heard.{arrival_time, cut, earlier_of, estimated, heard_with, is_earlier, is_span, judged, later_of, rate_over, result_heard};
ghost use Rattle.probe_clusters.specs.Cluster.{IsHeardSmall};

use crate::{GREATEST_SPAN, MOST_TIMES, TAKEN_PERCENT, UNLOADED_PERCENT};
use gcc_units::{
    ARRIVAL_MICROSECONDS, BYTE, Credit, GREATEST_PACKET, GREATEST_RATE, LEAST_RATE, Moment, Rate,
};

/// What is kept of the credits of a cluster's packets.
#[derive(Clone, Copy)]
pub struct Heard {
    pub count: u64,
    pub bytes: u64,
    pub sent_least: Moment,
    pub sent_greatest: Moment,
    pub arrival_greatest: i64,
    /// The credit with the least arrival, and among these with the least number.
    pub earliest: Credit,
    /// The credit with the greatest number.
    pub latest: Credit,
}

impl Heard {
    /// What a first credit says.
    pub fn first(credit: Credit) -> Heard
        ensures { result ≡ heard_with None credit }
    {
        Heard {
            count: 1,
            bytes: u64::from(credit.size),
            sent_least: credit.sent_at,
            sent_greatest: credit.sent_at,
            arrival_greatest: credit.arrival,
            earliest: credit,
            latest: credit,
        }
    }

    /// The same with one credit more.
    pub fn with(&self, credit: Credit) -> Heard
        requires small { IsHeardSmall self.now }
        requires size { credit.size ≤ GREATEST_PACKET }
        ensures { result ≡ heard_with (Some self.now) credit }
    {
        Heard {
            count: self.count + 1,
            bytes: self.bytes + u64::from(credit.size),
            sent_least: self.sent_least.min(credit.sent_at),
            sent_greatest: self.sent_greatest.max(credit.sent_at),
            arrival_greatest: self.arrival_greatest.max(credit.arrival),
            earliest: earlier_of(self.earliest, credit),
            latest: later_of(self.latest, credit),
        }
    }

    /// The rate of the path that they show.
    pub fn result(&self) -> Option<Rate>
        ensures { result ≡ result_heard self.now }
    {
        let send_time = self.sent_greatest.saturating_sub(self.sent_least);
        let arrival_time = self.arrival_time();
        if !is_span(u128::from(send_time)) || !is_span(arrival_time) {
            return None;
        }
        let send = rate_over(bytes_but(self.bytes, &self.latest), u128::from(send_time));
        let arrival = rate_over(bytes_but(self.bytes, &self.earliest), arrival_time);
        judged(send, arrival)
    }

    /// From the first arrival to the last, in microseconds.
    fn arrival_time(&self) -> u128
        ensures { result ≡ arrival_time self.now }
    {
        u128::from(ARRIVAL_MICROSECONDS)
            * u128::from(self.arrival_greatest.abs_diff(self.earliest.arrival))
    }
}

// Of two credits, the one with the greater number.
fn later_of(a: Credit, b: Credit) -> Credit
    ensures { result ≡ later_of a b }
{
    if a.number < b.number { b } else { a }
}

// Of two credits, the one that arrived first.
fn earlier_of(a: Credit, b: Credit) -> Credit
    ensures { result ≡ earlier_of a b }
{
    if is_earlier(&b, &a) { b } else { a }
}

// Whether a credit arrived before another, or with it and has the lesser number.
fn is_earlier(b: &Credit, a: &Credit) -> bool
    ensures { result ≡ is_earlier b.now a.now }
{
    b.arrival < a.arrival || (b.arrival == a.arrival && b.number < a.number)
}

// Whether a rate can be taken over the time.
fn is_span(time: u128) -> bool
    ensures { result ≡ is_span time }
{
    0 < time && time <= u128::from(GREATEST_SPAN)
}

// The bytes without those of one credit among them.
fn bytes_but(bytes: u64, credit: &Credit) -> u64
    ensures { result ≡ bytes - credit.now.size }
{
    bytes.saturating_sub(u64::from(credit.size))
}

// So many bytes in so many microseconds, in bit/s.
fn rate_over(bytes: u64, time: u128) -> u128
    requires { 0 < time }
    ensures rate { result ≡ rate_over bytes time }
    ensures bound { result ≤ BYTE * 2 ^ 64 }
{
    u128::from(BYTE) * u128::from(bytes) / time
}

// What a rate of sending and one of arriving say of the path.
fn judged(send: u128, arrival: u128) -> Option<Rate>
    requires send { send ≤ BYTE * 2 ^ 64 }
    requires arrival { arrival ≤ BYTE * 2 ^ 64 }
    ensures { result ≡ judged send arrival }
{
    if u128::from(MOST_TIMES) * send < arrival {
        return None;
    }
    Some(cut(estimated(send, arrival)))
}

// The part of the rate of arriving that the path can take where it was overloaded, and else the lesser.
fn estimated(send: u128, arrival: u128) -> u128
    requires send { send ≤ BYTE * 2 ^ 64 }
    requires arrival { arrival ≤ BYTE * 2 ^ 64 }
    ensures { result ≡ estimated send arrival }
{
    if 100 * arrival < u128::from(UNLOADED_PERCENT) * send {
        u128::from(TAKEN_PERCENT) * arrival / 100
    } else {
        send.min(arrival)
    }
}

fn cut(rate: u128) -> Rate
    ensures { result ≡ cut rate }
{
    rate.clamp(u128::from(LEAST_RATE), u128::from(GREATEST_RATE)) as u64
}
