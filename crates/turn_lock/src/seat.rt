//! Seats and notes.
use crate::object::Object;
use crate::steps::Place;
use gcc_units::Sequence;
use std::marker::Model;

/// The most seats of a turn.
pub const SEATS: u32 = 64;

/// A caller's right to call. It has a number, and it knows the history as it last saw it and its
/// own entries in that. What it knows is known to contracts alone.
#[derive(Drop)]
pub struct Seat<T: Object> {
    pub(crate) place: Place<T>,
    pub(crate) number: u32,
}

impl<T: Object> Model for Seat<T> {
    ghost use Rattle.turn_lock.specs.Seats.{SeatIs};

    ghost Value = { SeatIs T.Call T.Reply };

    ghost use Rattle.turn_lock.specs.Seats.{seat_is};
    ghost use Rattle.turn_lock.specs.Plays.{Idle, IsNumbered};

    ghost view = { λ s. seat_is s.place.table_id s.number s.place.me.0 };

    ghost invariant = { λ s. Idle s.place.me × IsNumbered s.number s.place.me.0 };
}

/// Seats.
pub type SeatList<T: Object> = Sequence<Seat<T>>;

/// What a seat had seen, to be told to another.
#[derive(Drop)]
pub struct Note<T: Object> {
    pub(crate) place: Place<T>,
}

impl<T: Object> Model for Note<T> {
    ghost use Rattle.turn_lock.specs.Seats.{NoteIs};

    ghost Value = { NoteIs T.Call T.Reply };

    ghost use Rattle.turn_lock.specs.Seats.{note_is};
    ghost use Rattle.turn_lock.specs.Plays.{IsNote};

    ghost view = { λ n. note_is n.place.table_id n.place.me.0 };

    ghost invariant = { λ n. IsNote n.place.me };
}
