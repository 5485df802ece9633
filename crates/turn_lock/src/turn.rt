//! The lock.
ghost use Rattle.std.specs.Prelude.{◌≡◌, ℕ, ◌%◌, ◌<◌, ◌≤◌, [], ◌∷◌, length, IfOk, IfErr, IsOk, vec_len};
ghost use Rattle.std.specs.Vec.{vec_capacity};
ghost use Rattle.std.specs.List.{All};
ghost use Rattle.gcc_units.specs.declared.limits.TheConstants.{BOARD_LENGTHS};
ghost use Rattle.turn_lock.specs.Rule.{by, BeginsWith};
ghost use Rattle.turn_lock.specs.Seats.{Adds, HasEvery, new_seats};

use crate::object::Object;
use crate::seat::{Note, SEATS, Seat, SeatList};
use crate::steps::Steps;
use gcc_units::{NoMemory, Sequence};
use std::alloc::Global;
use std::marker::Model;
use std::sync::Wait;

/// A lock over an object. Callers wait in line, each on a seat of its own.
#[derive(Drop)]
pub struct Turn<T: Object> {
    steps: Steps<T>,
}

impl<T: Object> Model for Turn<T> {
    ghost use Rattle.turn_lock.specs.Seats.{TurnIs};

    ghost Value = { TurnIs };

    ghost use Rattle.std.specs.Prelude.{◌≤◌};

    ghost view = { λ t. record { of = t.steps.table.shared.table_id; seats = t.steps.table.shared.key } };

    ghost invariant = { λ t. 1 ≤ t.steps.table.shared.key };
}

impl<T: Object> Turn<T> {
    /// A turn for a value with no history yet, and its seats: the k-th of the list has the number
    /// k, has seen the empty history and has no entries. At `NoMemory` the value comes back.
    pub fn new(alloc: Global, value: T, seats: u32) -> Result<(Turn<T>, SeatList<T>), (NoMemory, T)>
        requires some { 1 ≤ seats }
        requires most { seats ≤ SEATS }
        requires value { T.history value ≡ [] }
        ensures turn { IfOk result (λ r. r.0.seats ≡ seats) }
        ensures seats { IfOk result (λ r. r.1.items ≡ new_seats r.0.of 0 seats) }
        ensures err { IfErr result (λ e. e.1 ≡ value) }
    {
        let mut list = Vec::new(alloc);
        if list.reserve(seats as usize).is_err() {
            return Err((NoMemory, value));
        }
        let (steps, mut first) = Steps::open(alloc, value, seats)?;
        let mut number = 1;
        while number < seats {
            let place = steps.grow(&mut first);
            list.push_reserved(Seat { place, number });
            number += 1;
        }
        let first = Seat {
            place: first,
            number: 0,
        };
        let list = in_front(list, first);
        Ok((Turn { steps }, Sequence::from_vec(list)))
    }

    /// Waits for its turn and makes a call. What the seat has seen afterwards ends with this call.
    /// A refused call comes back, and then the seat has seen the history at which it was refused.
    pub fn call<R: Wait>(
        &self,
        rt: &R,
        alloc: Global,
        seat: &mut Seat<T>,
        call: T::Call,
    ) -> Result<T::Reply, (T::Fault, T::Call)>
        requires of { seat.old.of ≡ self.now.of }
        ensures seat { (seat.new.of ≡ seat.old.of) × (seat.new.number ≡ seat.old.number) }
        ensures seen { BeginsWith seat.new.seen seat.old.seen }
        ensures legal { T.legal seat.new.seen }
        ensures own { by seat.new.number seat.new.seen ≡ seat.new.mine }
        ensures added { IfOk result (λ r. Adds seat.old call r seat.new) }
        ensures unadded { IfErr result (λ e. seat.new.mine ≡ seat.old.mine) }
        ensures refused { IfErr result (λ e. T.refuses seat.new.seen call e.0) }
        ensures back { IfErr result (λ e. e.1 ≡ call) }
    {
        let steps = &self.steps;
        let mut value = steps.claim(rt, &mut seat.place);
        match value.apply(alloc, seat.number, call) {
            Ok(reply) => {
                let board = value.board();
                steps.settle(&mut seat.place, value, board);
                Ok(reply)
            }
            Err(refused) => {
                steps.hand_back(&mut seat.place, value);
                Err(refused)
            }
        }
    }

    /// The board of the history as it is now: one load. The seat has seen that history from now on.
    /// It does not wait and takes no memory.
    pub fn glance(&self, seat: &mut Seat<T>) -> u64
        requires of { seat.old.of ≡ self.now.of }
        ensures seat { (seat.new.of ≡ seat.old.of) × (seat.new.number ≡ seat.old.number) }
        ensures seen { BeginsWith seat.new.seen seat.old.seen }
        ensures legal { T.legal seat.new.seen }
        ensures own { by seat.new.number seat.new.seen ≡ seat.new.mine }
        ensures mine { seat.new.mine ≡ seat.old.mine }
        ensures board { result ≡ T.board_of seat.new.seen }
        ensures few { length seat.new.seen < BOARD_LENGTHS }
        ensures length { result % BOARD_LENGTHS ≡ length seat.new.seen }
    {
        self.steps.read(&mut seat.place)
    }

    /// A note of what the seat has seen. It takes no memory.
    pub fn note(&self, seat: &mut Seat<T>) -> Note<T>
        requires of { seat.old.of ≡ self.now.of }
        ensures seat { seat.new ≡ seat.old }
        ensures of { result.of ≡ seat.old.of }
        ensures seen { result.seen ≡ seat.old.seen }
    {
        Note {
            place: self.steps.tell(&mut seat.place),
        }
    }

    /// Tells a seat what a note knows: from now on it has seen no less than that. It takes no
    /// memory.
    pub fn hear(&self, seat: &mut Seat<T>, note: Note<T>)
        requires of { seat.old.of ≡ self.now.of }
        requires note { note.of ≡ self.now.of }
        ensures seat { (seat.new.of ≡ seat.old.of) × (seat.new.number ≡ seat.old.number) }
        ensures seen { BeginsWith seat.new.seen seat.old.seen }
        ensures heard { BeginsWith seat.new.seen note.seen }
        ensures legal { T.legal seat.new.seen }
        ensures own { by seat.new.number seat.new.seen ≡ seat.new.mine }
        ensures mine { seat.new.mine ≡ seat.old.mine }
    {
        let Note { place } = note;
        self.steps.absorb(&mut seat.place, place);
    }

    /// The value, once every seat is handed in. Each seat has seen a beginning of its history, and
    /// of each number it has just the entries of that seat, each once. It takes no memory, and is
    /// never refused.
    pub fn close(
        self,
        _alloc: Global,
        mut seats: SeatList<T>,
    ) -> Result<T, (NoMemory, Turn<T>, SeatList<T>)>
        requires of { All (λ s. s.of ≡ self.of) seats.items }
        requires every { HasEvery self.seats seats.items }
        ensures closes { IsOk result }
        ensures legal { IfOk result (λ x. T.legal (T.history x)) }
        ensures seen { IfOk result (λ x. All (λ s. BeginsWith (T.history x) s.seen) seats.items) }
        ensures mine { IfOk result (λ x. All (λ s. by s.number (T.history x) ≡ s.mine) seats.items) }
        ensures others { IfOk result (λ x. (k : ℕ) → self.seats ≤ k → by k (T.history x) ≡ []) }
    {
        let Some(last) = seats.pop() else {
            unreachable!();
        };
        let Seat {
            mut place,
            number: _,
        } = last;
        while let Some(seat) = seats.pop() {
            let Seat {
                place: other,
                number: _,
            } = seat;
            self.steps.absorb(&mut place, other);
        }
        let Turn { steps } = self;
        let value = steps.end(place);
        let _board = value.board();
        Ok(value)
    }
}

// The list with an item in front of it, for which there is room.
fn in_front<X>(mut list: Vec<X>, item: X) -> Vec<X>
    requires { vec_len list < vec_capacity list }
    ensures { result.items ≡ item ∷ list.items }
{
    list.push_reserved(item);
    list.as_mut_slice().rotate_right(1);
    list
}
