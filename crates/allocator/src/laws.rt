//! Laws of the definitions that the contracts of this crate cite. The functions do nothing; their
//! contracts are the laws.

ghost use Rattle.std.specs.Prelude.{◌≡◌, ℕ, ◌≤◌, Bool, true, false, Some, None, List, length, AllPairs};
ghost use Rattle.std.specs.List.Sorted.{IsPermutation};
ghost use Rattle.gcc_units.specs.declared.limits.TheConstants.{GREATEST_RATE, MOST_STREAMS};
ghost use Rattle.allocator.specs.declared.stream.Stream.{Stream};
ghost use Rattle.allocator.specs.Greatest.{IsGreatest};
ghost use Rattle.allocator.specs.Streams.{are_sound, ids_differ, changed, found, found_after, IsStreamSet};
ghost use Rattle.allocator.specs.Order.{in_order, GoesBefore};
ghost use Rattle.allocator.specs.Shares.{fits, level_of};

/// Law: the level is the greatest up to `GREATEST_RATE` at which the shares fit the total; one number
/// at most is that, and where there is no level, none fits.
pub fn level_is_the_greatest_that_fits()
    ensures level { (total : ℕ) (streams : List Stream) (level : ℕ) → level_of total streams ≡ Some level
        → IsGreatest (fits total streams) GREATEST_RATE level }
    ensures one { (test : ℕ → Bool) (bound m n : ℕ) → IsGreatest test bound m → IsGreatest test bound n → m ≡ n }
    ensures none { (total : ℕ) (streams : List Stream) (level : ℕ) → level_of total streams ≡ None
        → level ≤ GREATEST_RATE → fits total streams level ≡ false }
{}

/// Law: a change is one of a map from ids to streams: what is set is there, what is removed is not,
/// and all else is as before. A change of a set leaves a set.
pub fn changes_are_of_a_map()
    ensures map { (streams set : List Stream) (removed : List ℕ) (id : ℕ) → ids_differ set removed ≡ true
        → found (changed streams set removed) id ≡ found_after streams set removed id }
    ensures set { (streams set : List Stream) (removed : List ℕ) → IsStreamSet streams → are_sound set ≡ true
        → ids_differ set removed ≡ true → length (changed streams set removed) ≤ MOST_STREAMS
        → IsStreamSet (changed streams set removed) }
{}

/// Law: the order of allocation has the streams of a set, each once; each goes before all later ones
/// by weight falling, and within a weight by id rising.
pub fn streams_are_in_order()
    ensures same { (streams : List Stream) → IsPermutation streams (in_order streams) }
    ensures order { (streams : List Stream) → IsStreamSet streams → AllPairs GoesBefore (in_order streams) }
{}
