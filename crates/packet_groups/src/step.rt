//! What one credit changes.

ghost use Rattle.std.specs.Prelude.{◌≡◌, ◌≤◌, ◌≤ℤ◌, pos, neg_ℤ, ◌*◌, unsigned_abs, IfSome};
ghost use Rattle.packet_groups.specs.Groups.{delay, difference, end_of, is_burst, joins};
ghost use Rattle.packet_groups.specs.Kept.{IsGroupKept, IsKept, IsWithin, IsPointWithin, after};

use crate::{ARRIVAL_Q16, BURST_GAP, GROUP_TIME, MILLISECOND_Q16};
use gcc_units::{
    ARRIVAL_MICROSECONDS, Credit, GREATEST_ARRIVAL, GREATEST_DELAY, GREATEST_MOMENT, Moment, Sample,
};

/// When a packet was sent, and when it arrived.
#[derive(Clone, Copy)]
pub struct Point {
    pub sent_at: Moment,
    pub arrival: i64,
}

/// What is kept of a group: its first departure, and its last packet.
#[derive(Clone, Copy)]
pub struct Group {
    pub first: Moment,
    pub last: Point,
}

/// What is kept of all groups: the current one, and the last packet of the one before.
#[derive(Clone, Copy)]
pub struct State {
    pub current: Option<Group>,
    pub before: Option<Point>,
}

/// The state after a credit, and the sample that it gives.
pub fn after(state: State, credit: &Credit) -> (State, Option<Sample>)
    requires kept { IsKept state }
    requires within { IsWithin credit.now }
    ensures value { result ≡ after state credit.now }
    ensures kept { IsKept result.0 }
    ensures low { IfSome result.1 (λ s. neg_ℤ GREATEST_DELAY ≤ℤ s.d) }
    ensures high { IfSome result.1 (λ s. s.d ≤ℤ GREATEST_DELAY) }
{
    let last = end_of(credit);
    let begun = Group {
        first: credit.sent_at,
        last,
    };
    let Some(group) = state.current else {
        return (next(begun, None), None);
    };
    if credit.sent_at < group.last.sent_at {
        return (state, None);
    }
    if joins(&group, credit) {
        let longer = Group {
            first: group.first,
            last,
        };
        return (next(longer, state.before), None);
    }
    let sample = match state.before {
        Some(before) => Some(difference(&before, &group.last)),
        None => None,
    };
    (next(begun, Some(group.last)), sample)
}

/// The state with this current group, behind one that ends there.
fn next(current: Group, before: Option<Point>) -> State
    ensures { result ≡ record { current = Some current; before = before } }
{
    State {
        current: Some(current),
        before,
    }
}

/// The departure and the arrival of a credited packet.
fn end_of(credit: &Credit) -> Point
    ensures { result ≡ end_of credit.now }
{
    Point {
        sent_at: credit.sent_at,
        arrival: credit.arrival,
    }
}

/// Whether a credit joins the group: it was sent soon after the group's first packet, or it arrived in one
/// burst with the group's last one.
fn joins(group: &Group, credit: &Credit) -> bool
    requires kept { IsGroupKept group.now }
    requires within { IsWithin credit.now }
    requires behind { group.now.last.sent_at ≤ credit.now.sent_at }
    ensures { result ≡ joins group.now credit.now }
{
    let send_gap = credit.sent_at - group.last.sent_at;
    let arrival_gap = credit.arrival - group.last.arrival;
    credit.sent_at - group.first <= GROUP_TIME || is_burst(arrival_gap, send_gap)
}

/// Whether two packets arrive in one burst: soon after one another, and sooner than they were sent.
fn is_burst(arrival_gap: i64, send_gap: u64) -> bool
    requires arrival { neg_ℤ (pos (2 * unsigned_abs GREATEST_ARRIVAL)) ≤ℤ arrival_gap }
    requires send { send_gap ≤ GREATEST_MOMENT }
    ensures { result ≡ is_burst arrival_gap send_gap }
{
    arrival_gap < BURST_GAP
        && ARRIVAL_MICROSECONDS as i128 * (arrival_gap as i128) < send_gap as i128
}

/// The sample of two neighbouring groups, from their last packets.
fn difference(first: &Point, second: &Point) -> Sample
    requires first { IsPointWithin first.now }
    requires second { IsPointWithin second.now }
    requires behind { first.now.sent_at ≤ second.now.sent_at }
    ensures value { result ≡ difference first.now second.now }
    ensures low { neg_ℤ GREATEST_DELAY ≤ℤ result.d }
    ensures high { result.d ≤ℤ GREATEST_DELAY }
{
    let send_gap = second.sent_at - first.sent_at;
    let arrival_gap = second.arrival - first.arrival;
    Sample {
        d: delay(send_gap, arrival_gap),
        send_gap,
        arrival_gap,
    }
}

/// The arrival gap less the send gap, in 1/65536 millisecond, cut.
fn delay(send_gap: u64, arrival_gap: i64) -> i64
    ensures value { result ≡ delay send_gap arrival_gap }
    ensures low { neg_ℤ GREATEST_DELAY ≤ℤ result }
    ensures high { result ≤ℤ GREATEST_DELAY }
{
    let arrived = ARRIVAL_Q16 as i128 * arrival_gap as i128;
    let sent = MILLISECOND_Q16 as u128 * send_gap as u128 / 1_000;
    (arrived - sent as i128).clamp(-GREATEST_DELAY as i128, GREATEST_DELAY as i128) as i64
}
