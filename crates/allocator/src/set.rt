//! The streams of a set, by id and in the order of allocation.

ghost use Rattle.std.specs.Prelude.{◌≡◌, ◌+◌, ◌*◌, ◌≤◌, ◌&&◌, not, IsTrue, IfOk, IfSome, OnOk, [], length, filter, insert, position, unwrap_or, All};
ghost use Rattle.allocator.specs.Streams.{are_sound, ids_differ, changed, placed, has_lesser_id, stays, IsSound, IsStreamSet};
ghost use Rattle.allocator.specs.Order.{goes_before, in_order};
ghost use Rattle.allocator.specs.Breakpoints.{AreBreakpoints, IsWithin};

use crate::breakpoints::{Breakpoint, breakpoints_of};
use crate::checks::has_id;
use crate::stream::{Stream, StreamList};
use gcc_units::{IdList, MOST_STREAMS, NoMemory};
use std::alloc::Global;
use std::marker::Model;

/// The streams among which a target rate is shared: at most `MOST_STREAMS`, each sound, no two with the
/// same id. Contracts see them in rising order of id.
#[derive(Drop)]
pub struct StreamSet {
    by_id: Vec<Stream>,
    // The same streams by weight, the greatest first, and within a weight by id.
    by_weight: Vec<Stream>,
    // Those of the streams in the order of allocation, by level.
    points: Vec<Breakpoint>,
}

impl Model for StreamSet {
    ghost use Rattle.std.specs.Prelude.{◌≡◌, List};
    ghost use Rattle.allocator.specs.declared.stream.Stream.{Stream};
    ghost use Rattle.allocator.specs.Streams.{IsStreamSet};
    ghost use Rattle.allocator.specs.Order.{in_order};
    ghost use Rattle.allocator.specs.Breakpoints.{AreBreakpoints};

    ghost Value = { List Stream };

    ghost view = { λ s. s.by_id.items };

    ghost invariant = { λ s. IsStreamSet s.by_id.items × (s.by_weight.items ≡ in_order s.by_id.items) × AreBreakpoints (in_order s.by_id.items) s.points.items };
}

impl StreamSet {
    /// No streams. Takes no memory.
    pub fn new(alloc: Global) -> StreamSet
        ensures { result ≡ [] }
    {
        StreamSet {
            by_id: Vec::new(alloc),
            by_weight: Vec::new(alloc),
            points: Vec::new(alloc),
        }
    }

    /// The streams after a change, which first removes and then sets. An id that is removed and names no
    /// stream does nothing; a stream that is set takes the place of the one with its id. At `NoMemory`
    /// there is no new set, and this one stays.
    pub fn changed(
        &self,
        alloc: Global,
        set: &StreamList,
        removed: &IdList,
    ) -> Result<StreamSet, NoMemory>
        requires sound { IsTrue (are_sound set.now.items) }
        requires differ { IsTrue (ids_differ set.now.items removed.now.items) }
        requires few { length (changed self.now set.now.items removed.now.items) ≤ MOST_STREAMS }
        ensures { IfOk result (λ s. s ≡ changed self.now set.now.items removed.now.items) }
    {
        let by_id = changed_list(alloc, &self.by_id, set.as_slice(), removed.as_slice())?;
        let by_weight = ordered(alloc, &by_id)?;
        let points = breakpoints_of(alloc, &by_weight)?;
        Ok(StreamSet {
            by_id,
            by_weight,
            points,
        })
    }

    /// How many streams there are.
    pub fn len(&self) -> u32
        ensures len { result ≡ length self.now }
        ensures set { IsStreamSet self.now }
    {
        self.by_id.len() as u32
    }

    /// How many streams there would be after a change. Takes no memory.
    pub fn len_after(&self, set: &StreamList, removed: &IdList) -> u64
        ensures { result ≡ length (changed self.now set.now.items removed.now.items) }
    {
        let (set, removed) = (set.as_slice(), removed.as_slice());
        count_kept(&self.by_id, set, removed) as u64 + set.len() as u64
    }

    /// The streams in rising order of id.
    pub(crate) fn by_id(&self) -> &[Stream]
        ensures streams { result.now ≡ self.now }
        ensures set { IsStreamSet self.now }
    {
        &self.by_id
    }

    /// The streams in the order of allocation.
    pub(crate) fn in_order(&self) -> &[Stream]
        ensures streams { result.now ≡ in_order self.now }
        ensures sound { All IsSound result.now }
        ensures few { length result.now ≤ MOST_STREAMS }
    {
        &self.by_weight
    }

    /// The breakpoints of the streams in that order, by level.
    pub(crate) fn breakpoints(&self) -> &[Breakpoint]
        ensures points { AreBreakpoints (in_order self.now) result.now }
        ensures few { length result.now ≤ 2 * MOST_STREAMS }
        ensures within { All IsWithin result.now }
    {
        &self.points
    }
}

// The streams after a change, in rising order of id.
#[tactic(auto, unfolding(crate::specs::Streams::changed))]
fn changed_list(
    alloc: Global,
    streams: &[Stream],
    set: &[Stream],
    removed: &[u32],
) -> Result<Vec<Stream>, NoMemory>
    ensures { IfOk result (λ v. v.items ≡ changed streams.now set.now removed.now) }
{
    let mut after = kept(alloc, streams, set, removed)?;
    for stream in set {
        place_by_id(&mut after, *stream)?;
    }
    Ok(after)
}

// The streams that a change neither sets nor removes.
fn kept(
    alloc: Global,
    streams: &[Stream],
    set: &[Stream],
    removed: &[u32],
) -> Result<Vec<Stream>, NoMemory>
    ensures { IfOk result (λ v. v.items ≡ filter (stays set.now removed.now) streams.now) }
{
    let kept = streams
        .iter()
        .copied()
        .filter(|stream| stays(stream, set, removed))
        .collect(alloc)?;
    Ok(kept)
}

// How many streams a change neither sets nor removes.
fn count_kept(streams: &[Stream], set: &[Stream], removed: &[u32]) -> usize
    ensures count { result ≡ length (filter (stays set.now removed.now) streams.now) }
    ensures few { result ≤ length streams.now }
{
    streams
        .iter()
        .filter(|stream| stays(stream, set, removed))
        .count()
}

fn stays(stream: &Stream, set: &[Stream], removed: &[u32]) -> bool
    ensures { result ≡ stays set.now removed.now stream.now }
{
    !has_id(set, stream.id) && !removed.contains(&stream.id)
}

// The streams in the order of allocation.
#[tactic(auto, unfolding(crate::specs::Order::in_order))]
fn ordered(alloc: Global, streams: &[Stream]) -> Result<Vec<Stream>, NoMemory>
    ensures { IfOk result (λ v. v.items ≡ in_order streams.now) }
{
    let mut ordered = Vec::with_capacity(alloc, streams.len())?;
    for stream in streams {
        place_by_weight(&mut ordered, *stream)?;
    }
    Ok(ordered)
}

// Puts a stream before the first with a greater id.
fn place_by_id(list: &mut Vec<Stream>, stream: Stream) -> Result<(), NoMemory>
    ensures { OnOk result (list.new.items ≡ placed has_lesser_id list.old.items stream) }
{
    let place = next_by_id(list, &stream);
    insert_at(list, place, stream)
}

fn next_by_id(list: &[Stream], stream: &Stream) -> Option<usize>
    ensures { result ≡ position (has_lesser_id stream.now) list.now }
{
    list.iter().position(|other| stream.id < other.id)
}

// Puts a stream before the first that it goes before.
fn place_by_weight(list: &mut Vec<Stream>, stream: Stream) -> Result<(), NoMemory>
    ensures { OnOk result (list.new.items ≡ placed goes_before list.old.items stream) }
{
    let place = next_by_weight(list, &stream);
    insert_at(list, place, stream)
}

fn next_by_weight(list: &[Stream], stream: &Stream) -> Option<usize>
    ensures { result ≡ position (goes_before stream.now) list.now }
{
    list.iter().position(|other| goes_before(stream, other))
}

// Puts a stream at a place, or at the end where there is none.
fn insert_at(list: &mut Vec<Stream>, place: Option<usize>, stream: Stream) -> Result<(), NoMemory>
    requires { IfSome place (λ i. i ≤ length list.old.items) }
    ensures { OnOk result (list.new.items ≡ insert list.old.items (unwrap_or place (length list.old.items)) stream) }
{
    match list.insert(place.unwrap_or(list.len()), stream) {
        Ok(()) => Ok(()),
        Err(_) => Err(NoMemory),
    }
}

// A greater weight goes before, and within a weight a lesser id.
fn goes_before(a: &Stream, b: &Stream) -> bool
    ensures { result ≡ goes_before a.now b.now }
{
    a.weight > b.weight || (a.weight == b.weight && a.id < b.id)
}
