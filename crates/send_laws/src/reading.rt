//! What a journal holds at a place.

ghost use Rattle.std.specs.Prelude.{◌≡◌, ◌<◌, ◌≤◌, Some, length, take, slice_get};
ghost use Rattle.send_core.specs.Levels.{tally_of};
ghost use Rattle.send_laws.specs.Moments.{moment_in};

use gcc_units::Moment;
use pacer::Tally;
use send_core::{Entry, Journal, Reply};

/// The entry of a number below the journal's length.
pub fn entry_at(journal: &Journal, k: u32) -> &Entry
    requires { k < length journal.now.items }
    ensures { slice_get journal.now.items k ≡ Some result.now }
{
    let Some(entry) = journal.entry(k) else {
        unreachable!()
    };
    entry
}

/// What the time after the first `n` entries counts at.
pub fn tally_at(journal: &Journal, n: u32) -> Tally
    requires { n ≤ length journal.now.items }
    ensures { result ≡ tally_of (take n journal.now.items) }
{
    let Some(tally) = journal.tally(n) else {
        unreachable!()
    };
    tally
}

/// The moment that a reply carries, in microseconds.
pub fn moment_of(reply: &Reply) -> Moment
    ensures { result ≡ moment_in reply.now }
{
    match reply {
        Reply::Accepted { at, .. } => *at,
        Reply::Paced { at, .. } => *at,
        Reply::Credited { at, .. } => *at,
        Reply::Configured { at, .. } => *at,
        Reply::Refused { at, .. } => *at,
    }
}
