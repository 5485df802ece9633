//! Streams and their shares of a target rate (`BitrateAllocator` of libwebrtc, in outline).
//!
//! The rule: the served streams stand at the greatest level that fits the target, each at its weight times
//! that level within its bounds, and what is left goes to them in order. The rules of the set and of the
//! allocation are this project's own. A change of the set is checked by [`are_sound`], [`ids_differ`] and
//! [`StreamSet::len_after`]; of these `ids_differ` takes memory.
//!
//! Those above use that the shares are determined by the target and the set, and that a change is one of a
//! map from ids to streams.
#![tactic(auto)]

mod breakpoints;
mod checks;
pub mod laws;
mod line;
mod set;
mod shares;
mod stream;

pub use checks::{are_sound, ids_differ};
pub use set::StreamSet;
pub use shares::allocate;
pub use stream::{GREATEST_WEIGHT, LEAST_WEIGHT, Stream, StreamList};

#[cfg(test)]
mod tests;
