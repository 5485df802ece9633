ghost use Rattle.std.specs.Prelude.{◌≡◌, IfOk};
ghost use Rattle.allocator.specs.Streams.{IsSound};

use gcc_units::{Duplicate, NoMemory, Rate, Sequence};
use std::alloc::Global;

/// The least weight of a stream (ours).
pub const LEAST_WEIGHT: u32 = 1;

/// The greatest weight of a stream (ours).
pub const GREATEST_WEIGHT: u32 = 1_000;

/// A stream that gets a share of the target rate.
#[derive(Clone, Copy, PartialEq, Eq, Debug)]
pub struct Stream {
    /// Whose stream it is. No two streams of a set have the same.
    pub id: u32,
    /// The least rate it can be served with, in bit/s.
    pub min: Rate,
    /// The greatest rate it can use, in bit/s.
    pub max: Rate,
    /// How much it gets beside the others: 1 to 1000.
    pub weight: u32,
    /// Whether it is served even where its minimum does not fit the target.
    pub enforced: bool,
}

impl Default for Stream {
    /// A stream that can use nothing.
    fn default() -> Stream
        ensures { IsSound result }
    {
        Stream {
            id: 0,
            min: 0,
            max: 0,
            weight: LEAST_WEIGHT,
            enforced: false,
        }
    }
}

/// Streams. In a set no two have the same id.
pub type StreamList = Sequence<Stream>;

impl Duplicate for Stream {
    fn duplicate(&self, _alloc: Global) -> Result<Stream, NoMemory> {
        Ok(*self)
    }
}
