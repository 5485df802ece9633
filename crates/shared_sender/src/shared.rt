//! The shared sender.
ghost use Rattle.std.specs.Prelude.{◌≡◌, ◌≤◌, ℕ, [], length, IfOk, IfErr, IsOk};
ghost use Rattle.std.specs.List.{All};
ghost use Rattle.turn_lock.specs.Rule.{by, BeginsWith};
ghost use Rattle.turn_lock.specs.Seats.{HasEvery, new_seats};
ghost use Rattle.send_core.specs.declared.call.Call.TheVariants as asked;
ghost use Rattle.send_core.specs.Reply.{IsLegal, target};
ghost use Rattle.shared_sender.specs.Served.{answers_of, journal_of, HasWires, Refuses, Answers, Replies};

use crate::held::Held;
use gcc_units::{BOARD_LENGTHS, Bytes, Class, NoMemory, Rate};
use send_core::{Answer, ApplyFault, BoxedChange, Call, Reply, Sender};
use std::alloc::Global;
use std::marker::Model;
use std::sync::Wait;
use turn_lock::{Note, SEATS, Seat, SeatList, Turn};

/// A caller's right to call a shared sender.
pub type SenderSeat = Seat<Held>;

/// What a seat of a shared sender had seen, to be told to another.
pub type SenderNote = Note<Held>;

/// Seats of a shared sender.
pub type SenderSeats = SeatList<Held>;

/// What a glance shows: how many calls stand in the history, and the target rate after them, in
/// bit/s.
#[derive(Clone, Copy, PartialEq, Eq, Debug)]
pub struct Glance {
    pub calls: u32,
    pub target: Rate,
}

/// A sender that callers share. They wait in line, each on a seat of its own.
#[derive(Drop)]
pub struct Shared {
    turn: Turn<Held>,
}

impl Model for Shared {
    ghost use Rattle.turn_lock.specs.Seats.{TurnIs};

    ghost Value = { TurnIs };

    ghost view = { λ s. s.turn };
}

impl Shared {
    /// Shares a sender with no entries yet, and makes its seats: the k-th of the list has the
    /// number k, has seen the empty journal and has no entries. At `NoMemory` the sender comes
    /// back.
    pub fn new(
        alloc: Global,
        sender: Sender,
        seats: u32,
    ) -> Result<(Shared, SenderSeats), (NoMemory, Sender)>
        requires some { 1 ≤ seats }
        requires most { seats ≤ SEATS }
        requires empty { sender ≡ [] }
        ensures count { IfOk result (λ r. r.0.seats ≡ seats) }
        ensures seats { IfOk result (λ r. r.1.items ≡ new_seats r.0.of 0 seats) }
        ensures err { IfErr result (λ e. e.1 ≡ sender) }
    {
        match Turn::new(alloc, Held::new(sender), seats) {
            Ok((turn, seats)) => Ok((Shared { turn }, seats)),
            Err((fault, held)) => Err((fault, held.into_sender())),
        }
    }

    /// Waits for its turn and makes a call. Its answer is the one that the entries before it
    /// determine, and what the seat has seen afterwards ends with this call. On `Err` the call
    /// comes back, and the seat has seen the history at which it was refused: `JournalFull` comes
    /// where that has `MOST_ENTRIES` entries, `NoMemory` where it has fewer and memory ran out.
    pub fn call<R: Wait>(
        &self,
        rt: &R,
        alloc: Global,
        seat: &mut SenderSeat,
        call: Call,
    ) -> Result<Answer, (ApplyFault, Call)>
        requires of { seat.old.of ≡ self.now.of }
        ensures seat { (seat.new.of ≡ seat.old.of) × (seat.new.number ≡ seat.old.number) }
        ensures seen { BeginsWith seat.new.seen seat.old.seen }
        ensures legal { IsLegal (journal_of seat.new.seen) }
        ensures wires { HasWires seat.new.seen }
        ensures own { by seat.new.number seat.new.seen ≡ seat.new.mine }
        ensures answered { IfOk result (λ a. Answers seat.old call a seat.new) }
        ensures unadded { IfErr result (λ e. seat.new.mine ≡ seat.old.mine) }
        ensures refused { IfErr result (λ e. Refuses seat.new.seen call e.0) }
        ensures back { IfErr result (λ e. e.1 ≡ call) }
    {
        self.turn.call(rt, alloc, seat, call)
    }

    /// Hands in a packet. It is [`Shared::call`] of `Call::Enqueue`; on `Err` the packet comes
    /// back.
    pub fn enqueue<R: Wait>(
        &self,
        rt: &R,
        alloc: Global,
        seat: &mut SenderSeat,
        at: u64,
        class: Class,
        wire: Bytes,
    ) -> Result<Reply, (ApplyFault, Bytes)>
        requires of { seat.old.of ≡ self.now.of }
        ensures seat { (seat.new.of ≡ seat.old.of) × (seat.new.number ≡ seat.old.number) }
        ensures seen { BeginsWith seat.new.seen seat.old.seen }
        ensures legal { IsLegal (journal_of seat.new.seen) }
        ensures wires { HasWires seat.new.seen }
        ensures own { by seat.new.number seat.new.seen ≡ seat.new.mine }
        ensures answered { IfOk result (λ r. Replies seat.old (asked.Enqueue at class wire) r seat.new) }
        ensures unadded { IfErr result (λ e. seat.new.mine ≡ seat.old.mine) }
        ensures refused { IfErr result (λ e. Refuses seat.new.seen (asked.Enqueue at class wire) e.0) }
        ensures back { IfErr result (λ e. e.1 ≡ wire) }
    {
        let call = Call::Enqueue { at, class, wire };
        match self.call(rt, alloc, seat, call) {
            Ok(answer) => Ok(answer.reply),
            Err((fault, Call::Enqueue { wire, .. })) => Err((fault, wire)),
            Err(_) => unreachable!(),
        }
    }

    /// Sends what may leave now. It is [`Shared::call`] of `Call::Pace`.
    pub fn pace<R: Wait>(
        &self,
        rt: &R,
        alloc: Global,
        seat: &mut SenderSeat,
        at: u64,
    ) -> Result<Answer, ApplyFault>
        requires of { seat.old.of ≡ self.now.of }
        ensures seat { (seat.new.of ≡ seat.old.of) × (seat.new.number ≡ seat.old.number) }
        ensures seen { BeginsWith seat.new.seen seat.old.seen }
        ensures legal { IsLegal (journal_of seat.new.seen) }
        ensures wires { HasWires seat.new.seen }
        ensures own { by seat.new.number seat.new.seen ≡ seat.new.mine }
        ensures answered { IfOk result (λ a. Answers seat.old (asked.Pace at) a seat.new) }
        ensures unadded { IfErr result (λ e. seat.new.mine ≡ seat.old.mine) }
        ensures refused { IfErr result (λ e. Refuses seat.new.seen (asked.Pace at) e) }
    {
        match self.call(rt, alloc, seat, Call::Pace { at }) {
            Ok(answer) => Ok(answer),
            Err((fault, _call)) => Err(fault),
        }
    }

    /// Hands in a transport-wide feedback report. It is [`Shared::call`] of `Call::Report`; on
    /// `Err` the report comes back.
    pub fn report<R: Wait>(
        &self,
        rt: &R,
        alloc: Global,
        seat: &mut SenderSeat,
        at: u64,
        bytes: Bytes,
    ) -> Result<Reply, (ApplyFault, Bytes)>
        requires of { seat.old.of ≡ self.now.of }
        ensures seat { (seat.new.of ≡ seat.old.of) × (seat.new.number ≡ seat.old.number) }
        ensures seen { BeginsWith seat.new.seen seat.old.seen }
        ensures legal { IsLegal (journal_of seat.new.seen) }
        ensures wires { HasWires seat.new.seen }
        ensures own { by seat.new.number seat.new.seen ≡ seat.new.mine }
        ensures answered { IfOk result (λ r. Replies seat.old (asked.Report at bytes) r seat.new) }
        ensures unadded { IfErr result (λ e. seat.new.mine ≡ seat.old.mine) }
        ensures refused { IfErr result (λ e. Refuses seat.new.seen (asked.Report at bytes) e.0) }
        ensures back { IfErr result (λ e. e.1 ≡ bytes) }
    {
        match self.call(rt, alloc, seat, Call::Report { at, bytes }) {
            Ok(answer) => Ok(answer.reply),
            Err((fault, Call::Report { bytes, .. })) => Err((fault, bytes)),
            Err(_) => unreachable!(),
        }
    }

    /// Changes the settings. It is [`Shared::call`] of `Call::Configure`; on `Err` the change comes
    /// back.
    pub fn configure<R: Wait>(
        &self,
        rt: &R,
        alloc: Global,
        seat: &mut SenderSeat,
        at: u64,
        change: BoxedChange,
    ) -> Result<Reply, (ApplyFault, BoxedChange)>
        requires of { seat.old.of ≡ self.now.of }
        ensures seat { (seat.new.of ≡ seat.old.of) × (seat.new.number ≡ seat.old.number) }
        ensures seen { BeginsWith seat.new.seen seat.old.seen }
        ensures legal { IsLegal (journal_of seat.new.seen) }
        ensures wires { HasWires seat.new.seen }
        ensures own { by seat.new.number seat.new.seen ≡ seat.new.mine }
        ensures answered { IfOk result (λ r. Replies seat.old (asked.Configure at change) r seat.new) }
        ensures unadded { IfErr result (λ e. seat.new.mine ≡ seat.old.mine) }
        ensures refused { IfErr result (λ e. Refuses seat.new.seen (asked.Configure at change) e.0) }
        ensures back { IfErr result (λ e. e.1 ≡ change) }
    {
        match self.call(rt, alloc, seat, Call::Configure { at, change }) {
            Ok(answer) => Ok(answer.reply),
            Err((fault, Call::Configure { change, .. })) => Err((fault, change)),
            Err(_) => unreachable!(),
        }
    }

    /// How many calls stand in the history now, and the target after them: one load. The seat has
    /// seen that history from now on. It does not wait and takes no memory.
    pub fn glance(&self, seat: &mut SenderSeat) -> Glance
        requires of { seat.old.of ≡ self.now.of }
        ensures seat { (seat.new.of ≡ seat.old.of) × (seat.new.number ≡ seat.old.number) }
        ensures seen { BeginsWith seat.new.seen seat.old.seen }
        ensures legal { IsLegal (journal_of seat.new.seen) }
        ensures wires { HasWires seat.new.seen }
        ensures own { by seat.new.number seat.new.seen ≡ seat.new.mine }
        ensures mine { seat.new.mine ≡ seat.old.mine }
        ensures calls { result.calls ≡ length seat.new.seen }
        ensures target { result.target ≡ target (journal_of seat.new.seen) }
    {
        let board = self.turn.glance(seat);
        Glance {
            calls: (board % BOARD_LENGTHS) as u32,
            target: board / BOARD_LENGTHS,
        }
    }

    /// A note of what the seat has seen. It takes no memory.
    pub fn note(&self, seat: &mut SenderSeat) -> SenderNote
        requires of { seat.old.of ≡ self.now.of }
        ensures seat { seat.new ≡ seat.old }
        ensures of { result.of ≡ seat.old.of }
        ensures seen { result.seen ≡ seat.old.seen }
    {
        self.turn.note(seat)
    }

    /// Tells a seat what a note knows: from now on it has seen no less than that. It takes no
    /// memory.
    pub fn hear(&self, seat: &mut SenderSeat, note: SenderNote)
        requires of { seat.old.of ≡ self.now.of }
        requires note { note.of ≡ self.now.of }
        ensures seat { (seat.new.of ≡ seat.old.of) × (seat.new.number ≡ seat.old.number) }
        ensures seen { BeginsWith seat.new.seen seat.old.seen }
        ensures heard { BeginsWith seat.new.seen note.seen }
        ensures legal { IsLegal (journal_of seat.new.seen) }
        ensures wires { HasWires seat.new.seen }
        ensures own { by seat.new.number seat.new.seen ≡ seat.new.mine }
        ensures mine { seat.new.mine ≡ seat.old.mine }
    {
        self.turn.hear(seat, note);
    }

    /// The sender, once every seat is handed in. Each seat has seen a beginning of its history, and
    /// of each number it has just the entries of that seat, each once. It takes no memory, and is
    /// never refused.
    pub fn close(
        self,
        alloc: Global,
        seats: SenderSeats,
    ) -> Result<Sender, (NoMemory, Shared, SenderSeats)>
        requires of { All (λ s. s.of ≡ self.of) seats.items }
        requires every { HasEvery self.seats seats.items }
        ensures closes { IsOk result }
        ensures legal { IfOk result (λ s. IsLegal s) }
        ensures seen { IfOk result (λ s. All (λ seat. BeginsWith (answers_of s) seat.seen) seats.items) }
        ensures mine { IfOk result (λ s. All (λ seat. by seat.number (answers_of s) ≡ seat.mine) seats.items) }
        ensures others { IfOk result (λ s. (k : ℕ) → self.seats ≤ k → by k (answers_of s) ≡ []) }
    {
        let Shared { turn } = self;
        match turn.close(alloc, seats) {
            Ok(held) => Ok(held.into_sender()),
            Err((fault, turn, seats)) => Err((fault, Shared { turn }, seats)),
        }
    }
}
