//! Laws of the level, each the contract of a function that does nothing.

ghost use Rattle.std.specs.Prelude.{ℤ, pos, ◌≤ℤ◌, List, fold};
ghost use Rattle.pace_budget.specs.Level.{Deed, level, IsLeast};
ghost use Rattle.pace_budget.specs.Spans.{Opens, IsWithin, count, none_counted};

/// Law: the level that a list of deeds leaves is the least over all starts, one for each time that
/// the level was under a window, and one for the empty bucket at the beginning.
pub fn level_is_least()
    ensures { (deeds : List Deed) → IsLeast (level deeds) deeds }
{}

/// Law: from a level of at most `most` on, the packets for which the bucket has to be open, and the
/// probes before the last of them, take no more together than `most`, what comes in, and the size of
/// that last packet.
pub fn spending_is_bounded()
    ensures { (most now : ℤ) (deeds : List Deed) → now ≤ℤ most → pos 0 ≤ℤ most → Opens now deeds → IsWithin most (fold count none_counted deeds) }
{}
