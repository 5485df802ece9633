use crate::entry::Entry;
use std::collections::LinkedList;

/// What a seat or a note knows. No value of it is made: it stands in contracts and proofs alone.
pub struct View<C, R> {
    /// The ticket that it drew and has not passed on.
    pub ticket: Option<u64>,
    /// Whether its ticket is served and the slot is with it.
    pub holds: bool,
    /// The history as it last saw it.
    pub seen: LinkedList<Entry<C, R>>,
    /// What a seat or note that it took in had seen, until its next look at the board.
    pub heard: LinkedList<Entry<C, R>>,
    /// Its own number with its own entries, and then those of the seats that it took in. A note has
    /// none.
    pub kept: LinkedList<(u32, LinkedList<Entry<C, R>>)>,
    /// How many numbers were given out, in the view that gives them out, and else 0.
    pub given: u64,
}
