// The atomic steps of the lock, one function for each kind, and what callers make of them.
ghost use Rattle.std.specs.Prelude.{◌≡◌, ℕ, ◌+◌, ◌%◌, ◌^◌, ◌<◌, ◌≤◌, true, false, List, [], ◌∷◌, ◌++◌, Some, None, IfOk, IfErr, ◌≢◌, length};
ghost use mathlib.Core.Option.{some};
ghost use lib.ListN.{get_elem?};
ghost use Rattle.turn_lock.specs.declared.entry.Entry.{Entry};
ghost use Rattle.turn_lock.specs.Rule.{Lawful, numbers};
ghost use Rattle.turn_lock.specs.Plays.{Idle, Settles, Claimed, Takes, draw, look, adds, leaves, with_ticket, read, giver, grown, newcomer, told, Absorbs, Ends};

use crate::law::{Commit, Draw, Grow, Law, Look, PassOn, Read, TakeIn, Tell};
use crate::object::Object;
use crate::view::View;
use atomic_table::{Refused, Table};
use gcc_units::NoMemory;
use std::alloc::{AllocFailed, Global};
use std::sync::Wait;
use std::thread;

/// The word with the board.
const BOARD: usize = 0;
/// The word with the next ticket.
const NEXT: usize = 1;
/// The word with the ticket that is served.
const SERVING: usize = 2;
/// The slot that is the home of the value.
const HOME: usize = 0;

/// The place of a seat or a note in the table.
pub(crate) type Place<T: Object> = atomic_table::Seat<Option<T>, View<T::Call, T::Reply>>;

/// The table of a lock.
#[derive(Drop)]
pub(crate) struct Steps<T: Object> {
    pub(crate) table: Table<Option<T>, View<T::Call, T::Reply>, u32, Law<T>, Global>,
    ghost sized: { (table.shared.table_id.words ≡ 3) × (table.shared.table_id.slots ≡ 1) },
}

impl<T: Object> Steps<T> {
    // Draws the next ticket.
    fn draw(&self, place: &mut Place<T>) -> u64
        requires of { place.old.table_id ≡ self.now.table.shared.table_id }
        requires idle { Idle place.old.me }
        requires numbered { 1 ≤ numbers place.old.me.0 }
        ensures of { (place.new.table_id ≡ place.old.table_id) × (place.new.id ≡ place.old.id) }
        ensures drawn { draw place.old.me result place.new.me }
    {
        self.table.shared.fetch_add::<Draw>(place, NEXT, 1)
    }

    // Which ticket is served. Where it is the seat's own, the slot is with the seat from now on.
    fn look(&self, place: &mut Place<T>) -> u64
        requires of { place.old.table_id ≡ self.now.table.shared.table_id }
        requires waiting { (t : ℕ) × (place.old.me.0.ticket ≡ Some t) × (place.old.me.0.holds ≡ false) × (place.old.me.1 ≡ []) }
        ensures of { (place.new.table_id ≡ place.old.table_id) × (place.new.id ≡ place.old.id) }
        ensures looked { look T.history (Lawful T.legal T.board_of) place.old.me result place.new.me }
    {
        self.table.shared.load::<Look>(place, SERVING)
    }

    // The value, out of the slot that is with the seat.
    fn take(&self, place: &mut Place<T>) -> T
        requires of { place.old.table_id ≡ self.now.table.shared.table_id }
        requires with_it { (x : T) × (place.old.me.1 ≡ (0, Some x) ∷ []) }
        ensures of { (place.new.table_id ≡ place.old.table_id) × (place.new.id ≡ place.old.id) }
        ensures value { place.old.me.1 ≡ (0, Some result) ∷ [] }
        ensures taken { place.new.me ≡ (place.old.me.0, (0, None) ∷ []) }
    {
        match self.table.shared.exchange(place, HOME, None) {
            Some(value) => value,
            None => unreachable!(),
        }
    }

    // Puts the value back into the slot.
    fn put_back(&self, place: &mut Place<T>, value: T)
        requires of { place.old.table_id ≡ self.now.table.shared.table_id }
        requires empty { place.old.me.1 ≡ (0, None) ∷ [] }
        ensures of { (place.new.table_id ≡ place.old.table_id) × (place.new.id ≡ place.old.id) }
        ensures back { place.new.me ≡ (place.old.me.0, (0, Some value) ∷ []) }
    {
        let emptied = self.table.shared.exchange(place, HOME, Some(value));
        let None = emptied else { unreachable!() };
    }

    // Puts the board of the longer history up.
    fn commit(&self, place: &mut Place<T>, board: u64)
        requires of { place.old.table_id ≡ self.now.table.shared.table_id }
        requires settles { (number : ℕ) × (x : T) × (e : Entry T.Call T.Reply) × Settles T.history (Lawful T.legal T.board_of) T.board_of number board place.old.me x e }
        ensures of { (place.new.table_id ≡ place.old.table_id) × (place.new.id ≡ place.old.id) }
        ensures committed { (x : T) → (e : Entry T.Call T.Reply) → place.old.me.1 ≡ (0, Some x) ∷ [] → T.history x ≡ place.old.me.0.seen ++ e ∷ [] → place.new.me ≡ (adds e place.old.me.0, place.old.me.1) }
    {
        self.table.shared.swap::<Commit>(place, BOARD, board);
    }

    // Gives the slot back and serves the next ticket.
    fn pass_on(&self, place: &mut Place<T>)
        requires of { place.old.table_id ≡ self.now.table.shared.table_id }
        requires holds { place.old.me.0.holds ≡ true }
        requires whole { (x : T) × (place.old.me.1 ≡ (0, Some x) ∷ []) × (T.history x ≡ place.old.me.0.seen) }
        ensures of { (place.new.table_id ≡ place.old.table_id) × (place.new.id ≡ place.old.id) }
        ensures left { place.new.me ≡ (leaves place.old.me.0, []) }
    {
        self.table.shared.fetch_add::<PassOn>(place, SERVING, 1);
    }
}

impl<T: Object> Steps<T> {
    // Draws a ticket, waits until it is served, and takes the value.
    pub(crate) fn claim<R: Wait>(&self, rt: &R, place: &mut Place<T>) -> T
        requires of { place.old.table_id ≡ self.now.table.shared.table_id }
        requires idle { Idle place.old.me }
        requires numbered { 1 ≤ numbers place.old.me.0 }
        ensures of { (place.new.table_id ≡ place.old.table_id) × (place.new.id ≡ place.old.id) }
        ensures claimed { Claimed T.history (Lawful T.legal T.board_of) place.old.me result place.new.me }
    {
        let ticket = self.draw(place);
        for _ in rt.forever() {
            if self.look(place) == ticket {
                break;
            }
            thread::yield_now();
        }
        self.take(place)
    }

    // Gives the value back with its new entry, under the board of the longer history.
    pub(crate) fn settle(&self, place: &mut Place<T>, value: T, board: u64)
        requires of { place.old.table_id ≡ self.now.table.shared.table_id }
        requires empty { place.old.me.1 ≡ (0, None) ∷ [] }
        requires settles { (number : ℕ) × (e : Entry T.Call T.Reply) × Settles T.history (Lawful T.legal T.board_of) T.board_of number board (place.old.me.0, (0, Some value) ∷ []) value e }
        ensures of { (place.new.table_id ≡ place.old.table_id) × (place.new.id ≡ place.old.id) }
        ensures settled { (e : Entry T.Call T.Reply) → T.history value ≡ place.old.me.0.seen ++ e ∷ [] → place.new.me ≡ (leaves (adds e place.old.me.0), []) }
    {
        self.put_back(place, value);
        self.commit(place, board);
        self.pass_on(place);
    }

    // Gives the value back as it was.
    pub(crate) fn hand_back(&self, place: &mut Place<T>, value: T)
        requires of { place.old.table_id ≡ self.now.table.shared.table_id }
        requires empty { place.old.me.1 ≡ (0, None) ∷ [] }
        requires holds { place.old.me.0.holds ≡ true }
        requires whole { T.history value ≡ place.old.me.0.seen }
        ensures of { (place.new.table_id ≡ place.old.table_id) × (place.new.id ≡ place.old.id) }
        ensures back { place.new.me ≡ (leaves place.old.me.0, []) }
    {
        self.put_back(place, value);
        self.pass_on(place);
    }
}

impl<T: Object> Steps<T> {
    // A table with the value at home, and the place that gives the numbers out.
    pub(crate) fn open(
        alloc: Global,
        value: T,
        seats: u32,
    ) -> Result<(Steps<T>, Place<T>), (NoMemory, T)>
        requires some { 1 ≤ seats }
        requires value { T.history value ≡ [] }
        ensures key { IfOk result (λ r. r.0.table.shared.key ≡ seats) }
        ensures place { IfOk result (λ r. (r.1.table_id ≡ r.0.table.shared.table_id) × (r.1.me ≡ (giver 1, []))) }
        ensures err { IfErr result (λ e. e.1 ≡ value) }
    {
        let board = value.board();
        let mut slots = Vec::new(alloc);
        if let Err(failed) = slots.push(Some(value)) {
            let AllocFailed { value } = failed;
            let Some(value) = value else { unreachable!() };
            slots.destroy_empty();
            return Err((NoMemory, value));
        }
        match Table::new(alloc, &[board, 0, 0], slots, &seats) {
            Ok((table, place)) => Ok((Steps { table }, place)),
            Err(refused) => Err((NoMemory, only(refused))),
        }
    }

    // Reads the board. The seat has seen its history from now on.
    pub(crate) fn read(&self, place: &mut Place<T>) -> u64
        requires of { place.old.table_id ≡ self.now.table.shared.table_id }
        requires idle { Idle place.old.me }
        ensures of { (place.new.table_id ≡ place.old.table_id) × (place.new.id ≡ place.old.id) }
        ensures read { read (Lawful T.legal T.board_of) T.board_of place.old.me result place.new.me }
    {
        self.table.shared.load::<Read>(place, BOARD)
    }

    // Makes a place with the next number.
    pub(crate) fn grow(&self, place: &mut Place<T>) -> Place<T>
        requires of { place.old.table_id ≡ self.now.table.shared.table_id }
        requires gives { place.old.me.0.given ≢ 0 }
        requires room { place.old.me.0.given < self.now.table.shared.key }
        ensures of { place.new.table_id ≡ place.old.table_id }
        ensures grown { place.new.me ≡ (grown place.old.me.0, place.old.me.1) }
        ensures new { (result.table_id ≡ place.old.table_id) × (result.me ≡ (newcomer place.old.me.0, [])) }
    {
        self.table.shared.split_seat::<Grow>(place)
    }

    // Makes a place that knows what this one has seen.
    pub(crate) fn tell(&self, place: &mut Place<T>) -> Place<T>
        requires of { place.old.table_id ≡ self.now.table.shared.table_id }
        ensures same { (place.new.table_id ≡ place.old.table_id) × (place.new.me ≡ place.old.me) }
        ensures new { (result.table_id ≡ place.old.table_id) × (result.me ≡ (told place.old.me.0, [])) }
    {
        self.table.shared.split_seat::<Tell>(place)
    }

    // Takes another place in, and reads the board.
    pub(crate) fn absorb(&self, place: &mut Place<T>, other: Place<T>)
        requires of { (place.old.table_id ≡ self.now.table.shared.table_id) × (other.table_id ≡ self.now.table.shared.table_id) }
        requires idle { Idle place.old.me × Idle other.me }
        ensures of { place.new.table_id ≡ place.old.table_id }
        ensures absorbed { Absorbs (Lawful T.legal T.board_of) place.old.me other.me place.new.me }
    {
        self.table.shared.join_seat::<TakeIn>(place, other);
        self.read(place);
    }

    // The value, once one place has every number.
    pub(crate) fn end(self, place: Place<T>) -> T
        requires of { place.table_id ≡ self.table.shared.table_id }
        requires idle { Idle place.me }
        requires every { (n : ℕ) → n < self.table.shared.key → (j : ℕ) × (es : List (Entry T.Call T.Reply)) × (get_elem? place.me.0.kept j ≡ some (n, es)) }
        ensures { Ends self.table.shared.key (T.history result) place.me.0 }
    {
        let Steps { table } = self;
        let mut closed = table.close_with(place);
        let home = closed.take(HOME);
        closed.free();
        match home {
            Some(value) => value,
            None => unreachable!(),
        }
    }
}

// The value of a table that was refused.
fn only<T>(refused: Refused<Option<T>, Global>) -> T
    requires { (x : T) × (refused.slots.items ≡ Some x ∷ []) }
    ensures { refused.slots.items ≡ Some result ∷ [] }
{
    let Refused { mut slots } = refused;
    let Some(Some(value)) = slots.pop() else {
        unreachable!()
    };
    slots.destroy_empty();
    value
}
