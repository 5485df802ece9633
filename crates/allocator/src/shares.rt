//! The shares of a target rate.

ghost use Rattle.std.specs.Prelude.{◌≡◌, ◌+◌, ◌*◌, ◌-◌, ◌≤◌, [], length, map, min, All, AllPairs};
ghost use Rattle.allocator.specs.Streams.{id_of, IsSound};
ghost use Rattle.allocator.specs.Order.{in_order};
ghost use Rattle.allocator.specs.Breakpoints.{are_served, is_marked, AreOfServed, IsWithin};
ghost use Rattle.allocator.specs.Shares.{enforced_minimum, enforced_minima, served, share_at, sum_at, extra, spread, level_of, given_at, rate_of, shares, share_id, HasLesserShareId};

use crate::breakpoints::Breakpoint;
use crate::line::Line;
use crate::set::StreamSet;
use crate::stream::Stream;
use arrayvec::ArrayVec;
use gcc_units::{GREATEST_RATE, MOST_STREAMS, Rate, Share, ShareList};

const MOST_SERVED: usize = MOST_STREAMS as usize;

// The streams that are served, in order, and of all in order which these are.
#[derive(Drop)]
struct Served {
    streams: ArrayVec<Stream, MOST_SERVED>,
    marks: ArrayVec<bool, MOST_SERVED>,
}

// A level, and what is left of the total there.
#[derive(Clone, Copy)]
struct Standing {
    level: u64,
    left: u64,
}

/// Appends the share of each stream, in rising order of id. Takes no memory.
///
/// All enforced streams are served; then, by weight falling and id rising, each other stream whose
/// minimum still fits beside the minima of those served so far. A stream that is not served gets 0. The
/// served streams stand at the greatest whole level at which their shares fit the total: a share is the
/// weight times the level, within minimum and maximum. What is left goes to them in the same order, to
/// each at most its weight and at most up to its maximum. Where not even the minima fit, each served
/// stream gets its minimum. (This project's own rule.)
pub fn allocate(total: Rate, streams: &StreamSet, out: &mut ShareList)
    requires empty { out.old.items ≡ [] }
    requires room { MOST_STREAMS ≤ out.old.spare }
    ensures shares { out.new.items ≡ shares total streams.now }
    ensures spare { out.new.spare + length streams.now ≡ out.old.spare }
    ensures few { length out.new.items ≤ MOST_STREAMS }
    ensures ids { map share_id out.new.items ≡ map id_of streams.now }
    ensures rising { AllPairs HasLesserShareId out.new.items }
{
    let served = served_of(total, streams.in_order());
    let standing = standing_of(total, &served, streams.breakpoints());
    let by_id = streams.by_id();
    for stream in by_id {
        out.put(Share {
            id: stream.id,
            rate: rate_of(&served.streams, stream.id, standing),
        });
    }
}

// Which streams are served, all enforced ones first.
fn served_of(total: Rate, ordered: &[Stream]) -> Served
    requires sound { All IsSound ordered.now }
    requires few { length ordered.now ≤ MOST_STREAMS }
    ensures streams { result.streams.items ≡ served total ordered.now }
    ensures marks { result.marks.items ≡ are_served total ordered.now }
    ensures sound { All IsSound result.streams.items }
    ensures few { length result.streams.items ≤ MOST_STREAMS }
{
    let mut streams = ArrayVec::new();
    let mut marks = ArrayVec::new();
    let mut minima = enforced_minima(ordered);
    for stream in ordered {
        if stream.enforced {
            streams.push(*stream);
            marks.push(true);
        } else if minima + stream.min <= total {
            minima += stream.min;
            streams.push(*stream);
            marks.push(true);
        } else {
            marks.push(false);
        }
    }
    Served { streams, marks }
}

// The sum of the minima of the enforced streams.
fn enforced_minima(streams: &[Stream]) -> Rate
    requires sound { All IsSound streams.now }
    requires few { length streams.now ≤ MOST_STREAMS }
    ensures minima { result ≡ enforced_minima streams.now }
    ensures bound { result ≤ MOST_STREAMS * GREATEST_RATE }
{
    let mut minima = 0;
    for stream in streams {
        minima += enforced_minimum(stream);
    }
    minima
}

fn enforced_minimum(stream: &Stream) -> Rate
    ensures { result ≡ enforced_minimum stream.now }
{
    if stream.enforced { stream.min } else { 0 }
}

// What a stream gets at a level.
fn share_at(stream: &Stream, level: u64) -> Rate
    requires sound { IsSound stream.now }
    requires level { level ≤ GREATEST_RATE }
    ensures share { result ≡ share_at level stream.now }
    ensures bound { result ≤ stream.now.max }
{
    let wanted = u64::from(stream.weight) * level;
    stream.min.max(stream.max.min(wanted))
}

// What the streams get at a level.
fn sum_at(streams: &[Stream], level: u64) -> Rate
    requires sound { All IsSound streams.now }
    requires few { length streams.now ≤ MOST_STREAMS }
    requires level { level ≤ GREATEST_RATE }
    ensures { result ≡ sum_at level streams.now }
{
    let mut sum = 0;
    for stream in streams {
        sum += share_at(stream, level);
    }
    sum
}

// The greatest level at which the shares fit the total, found by one walk over the breakpoints of the
// served streams: up to the next breakpoint the sum of the shares is a line.
fn level_of(total: Rate, served: &[Stream], marks: &[bool], points: &[Breakpoint]) -> Option<u64>
    requires sound { All IsSound served.now }
    requires few { length served.now ≤ MOST_STREAMS }
    requires points { AreOfServed total served.now marks.now points.now }
    requires few_points { length points.now ≤ 2 * MOST_STREAMS }
    requires within { All IsWithin points.now }
    ensures { result ≡ level_of total served.now }
{
    let mut line = start_of(served);
    if total < line.constant {
        return None;
    }
    for point in points {
        if is_marked(marks, point) {
            if point.level > line.at && total < line.sum_at(point.level) {
                return Some(line.level_within(total, point.level - 1));
            }
            line.pass(point);
        }
    }
    Some(line.level_within(total, GREATEST_RATE))
}

// Before the first breakpoint each stream has its minimum.
fn start_of(served: &[Stream]) -> Line
    requires sound { All IsSound served.now }
    requires few { length served.now ≤ MOST_STREAMS }
    ensures { result ≡ record { at = 0; rise = 0; fall = 0; constant = sum_at 0 served.now } }
{
    Line {
        at: 0,
        rise: 0,
        fall: 0,
        constant: sum_at(served, 0),
    }
}

// Whether a breakpoint is of a stream that is served.
fn is_marked(marks: &[bool], point: &Breakpoint) -> bool
    ensures { result ≡ is_marked marks.now point.now }
{
    marks.get(point.place).copied().unwrap_or(false)
}

// The level of the served streams and what is left there. Where there is none, the minima are what they
// get at level 0 with nothing left.
fn standing_of(total: Rate, served: &Served, points: &[Breakpoint]) -> Standing
    requires sound { All IsSound served.now.streams.items }
    requires few { length served.now.streams.items ≤ MOST_STREAMS }
    requires points { AreOfServed total served.now.streams.items served.now.marks.items points.now }
    requires few_points { length points.now ≤ 2 * MOST_STREAMS }
    requires within { All IsWithin points.now }
    ensures spread { spread result.level result.left served.now.streams.items ≡ given_at (level_of total served.now.streams.items) total served.now.streams.items }
    ensures level { result.level ≤ GREATEST_RATE }
{
    match level_of(total, &served.streams, &served.marks, points) {
        None => Standing { level: 0, left: 0 },
        Some(level) => Standing {
            level,
            left: total - sum_at(&served.streams, level),
        },
    }
}

// The rate of an id, where what is left is given out in order; 0 where no served stream has it.
fn rate_of(served: &[Stream], id: u32, standing: Standing) -> Rate
    requires sound { All IsSound served.now }
    requires level { standing.level ≤ GREATEST_RATE }
    ensures { result ≡ rate_of (spread standing.level standing.left served.now) id }
{
    let mut left = standing.left;
    for stream in served {
        let share = share_at(stream, standing.level);
        let extra = left.min(u64::from(stream.weight).min(stream.max - share));
        if stream.id == id {
            return share + extra;
        }
        left -= extra;
    }
    0
}
