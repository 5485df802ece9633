// The rule of the lock, and what each kind of step on it tells, for any object.
ghost use Rattle.turn_lock.specs.Plays.{draw, look, commit, pass_on, read, blank, grown, newcomer, told, joined};

use crate::object::Object;
use crate::view::View;
use atomic_table::{Join, Play, Split, TableRule};
use std::marker::PhantomData;

/// The rule of a lock over `T`. Its key is the number of seats.
pub(crate) struct Law<T> {
    marker: PhantomData<T>,
}

impl<T: Object> TableRule<Option<T>, View<T::Call, T::Reply>, u32> for Law<T> {
    ghost use Rattle.turn_lock.specs.Rule.{Kept, Lawful};
    ghost use Rattle.turn_lock.specs.Plays.{giver};

    ghost holds = { λ seats. Kept seats T.history (Lawful T.legal T.board_of) T.board_of };

    ghost first = { λ _. giver 1 };
}

/// Draws the next ticket.
pub(crate) struct Draw;

/// Looks which ticket is served, and takes the slot where it is the seat's own.
pub(crate) struct Look;

/// Puts the board of the longer history up.
pub(crate) struct Commit;

/// Gives the slot back and serves the next ticket.
pub(crate) struct PassOn;

/// Reads the board.
pub(crate) struct Read;

/// Makes a seat with the next number.
pub(crate) struct Grow;

/// Makes a note.
pub(crate) struct Tell;

/// Takes a seat or a note in.
pub(crate) struct TakeIn;

impl<T: Object> Play<Option<T>, View<T::Call, T::Reply>> for Draw {
    ghost then = { λ _ before found after. draw before found after };
}

impl<T: Object> Play<Option<T>, View<T::Call, T::Reply>> for Look {
    ghost use Rattle.turn_lock.specs.Rule.{Lawful};
    ghost use Rattle.turn_lock.specs.Plays.{look};

    ghost then = { λ _ before found after. look T.history (Lawful T.legal T.board_of) before found after };
}

impl<T: Object> Play<Option<T>, View<T::Call, T::Reply>> for Commit {
    ghost then = { λ _ before _ after. commit T.history before after };
}

impl<T: Object> Play<Option<T>, View<T::Call, T::Reply>> for PassOn {
    ghost then = { λ _ before _ after. pass_on before after };
}

impl<T: Object> Play<Option<T>, View<T::Call, T::Reply>> for Read {
    ghost use Rattle.turn_lock.specs.Rule.{Lawful};
    ghost use Rattle.turn_lock.specs.Plays.{read};

    ghost then = { λ _ before found after. read (Lawful T.legal T.board_of) T.board_of before found after };
}

impl<C, R> Split<View<C, R>> for Grow {
    ghost left = { grown };

    ghost right = { newcomer };
}

impl<C, R> Split<View<C, R>> for Tell {
    ghost left = { λ v. v };

    ghost right = { told };
}

impl<C, R> Join<View<C, R>> for TakeIn {
    ghost both = { joined };

    ghost spent = { blank };
}
