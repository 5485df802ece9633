//! What a change of the streams is checked for.

ghost use Rattle.std.specs.Prelude.{◌≡◌, ◌≤◌, ◌++◌, IfOk, All, map};
ghost use Rattle.std.specs.List.Sorted.{IsNonDecreasing};
ghost use Rattle.allocator.specs.Streams.{id_of, is_sound, are_sound, has_id, has_number, all_differ, ids_differ};

use crate::stream::{GREATEST_WEIGHT, LEAST_WEIGHT, Stream, StreamList};
use gcc_units::{GREATEST_RATE, IdList, NoMemory};
use std::alloc::Global;

/// Whether each stream has a minimum of at most its maximum, a maximum of at most `GREATEST_RATE`, and a
/// weight from `LEAST_WEIGHT` to `GREATEST_WEIGHT`.
pub fn are_sound(streams: &StreamList) -> bool
    ensures { result ≡ are_sound streams.now.items }
{
    streams.as_slice().iter().all(|stream| is_sound(stream))
}

fn is_sound(stream: &Stream) -> bool
    ensures { result ≡ is_sound stream.now }
{
    stream.min <= stream.max
        && stream.max <= GREATEST_RATE
        && LEAST_WEIGHT <= stream.weight
        && stream.weight <= GREATEST_WEIGHT
}

/// Whether no id stands twice among the streams that a change sets, twice among those that it removes,
/// or in both. Sorts a copy of the ids.
pub fn ids_differ(alloc: Global, set: &StreamList, removed: &IdList) -> Result<bool, NoMemory>
    ensures { IfOk result (λ differ. differ ≡ ids_differ set.now.items removed.now.items) }
{
    let mut ids = ids_of(alloc, set.as_slice(), removed.as_slice())?;
    ids.sort_unstable();
    Ok(all_differ(&ids))
}

// The ids of the streams, and then those removed.
fn ids_of(alloc: Global, set: &[Stream], removed: &[u32]) -> Result<Vec<u32>, NoMemory>
    ensures { IfOk result (λ v. v.items ≡ map id_of set.now ++ removed.now) }
{
    let mut ids: Vec<u32> = set.iter().map(|stream| stream.id).collect(alloc)?;
    ids.extend_from_slice(removed)?;
    Ok(ids)
}

// Whether no number stands twice, where none falls.
fn all_differ(ids: &[u32]) -> bool
    requires { IsNonDecreasing ids.now }
    ensures { result ≡ all_differ ids.now }
{
    for (i, id) in ids.iter().enumerate() {
        if stands_again(*id, ids.split_at(i + 1).1) {
            return false;
        }
    }
    true
}

// Whether a number stands among later ones, of which none falls: then it is the first of them.
fn stands_again(id: u32, later: &[u32]) -> bool
    requires order { All (λ x. id ≤ x) later.now }
    requires rising { IsNonDecreasing later.now }
    ensures { result ≡ has_number later.now id }
{
    match later {
        [] => false,
        [next, ..] => *next == id,
    }
}

/// Whether one of the streams has the id.
pub(crate) fn has_id(streams: &[Stream], id: u32) -> bool
    ensures { result ≡ has_id streams.now id }
{
    streams.iter().any(|stream| stream.id == id)
}
