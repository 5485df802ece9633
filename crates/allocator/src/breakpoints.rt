//! Where a stream's share leaves its minimum, and where it reaches its maximum.

ghost use Rattle.std.specs.Prelude.{◌≡◌, ◌≤◌, IfOk, OnOk, ◌++◌, ◌∷◌, [], All};
ghost use Rattle.allocator.specs.declared.stream.TheConstants.{LEAST_WEIGHT};
ghost use Rattle.allocator.specs.Streams.{IsSound};
ghost use Rattle.allocator.specs.Breakpoints.{lower, upper, breakpoints_from, AreBreakpoints};

use crate::stream::Stream;
use gcc_units::{NoMemory, Rate};
use std::alloc::Global;

/// The last level at which a stream's weight times the level is at most a bound of its share.
#[derive(Clone, Copy)]
pub(crate) struct Breakpoint {
    pub level: u64,
    /// The stream's place in the order of allocation.
    pub place: usize,
    pub weight: u32,
    /// The minimum or the maximum, in bit/s.
    pub bound: Rate,
    /// Whether the bound is the maximum.
    pub is_upper: bool,
}

/// The breakpoints of streams in order, by level.
pub(crate) fn breakpoints_of(alloc: Global, ordered: &[Stream]) -> Result<Vec<Breakpoint>, NoMemory>
    requires { All IsSound ordered.now }
    ensures { IfOk result (λ v. AreBreakpoints ordered.now v.items) }
{
    let mut points = unsorted(alloc, ordered)?;
    points.sort_unstable_by_key(|point| point.level);
    Ok(points)
}

// The breakpoints of one stream after those of the other.
fn unsorted(alloc: Global, ordered: &[Stream]) -> Result<Vec<Breakpoint>, NoMemory>
    requires { All IsSound ordered.now }
    ensures { IfOk result (λ v. v.items ≡ breakpoints_from 0 ordered.now) }
{
    let mut points = Vec::with_capacity(alloc, ordered.len())?;
    for (place, stream) in ordered.iter().enumerate() {
        append(&mut points, lower(place, stream))?;
        append(&mut points, upper(place, stream))?;
    }
    Ok(points)
}

fn append(points: &mut Vec<Breakpoint>, point: Breakpoint) -> Result<(), NoMemory>
    ensures { OnOk result (points.new.items ≡ points.old.items ++ point ∷ []) }
{
    match points.push(point) {
        Ok(()) => Ok(()),
        Err(_) => Err(NoMemory),
    }
}

fn lower(place: usize, stream: &Stream) -> Breakpoint
    requires { IsSound stream.now }
    ensures { result ≡ lower place stream.now }
{
    Breakpoint {
        level: stream.min / u64::from(stream.weight),
        place,
        weight: stream.weight,
        bound: stream.min,
        is_upper: false,
    }
}

fn upper(place: usize, stream: &Stream) -> Breakpoint
    requires { IsSound stream.now }
    ensures { result ≡ upper place stream.now }
{
    Breakpoint {
        level: stream.max / u64::from(stream.weight),
        place,
        weight: stream.weight,
        bound: stream.max,
        is_upper: true,
    }
}
