//! What a trace says.

use gcc_units::Sequence;
use send_core::Call;

/// What an actor does.
#[derive(Drop)]
pub enum Action {
    /// It asks the sender.
    Ask(Call),
    /// It looks at the length of the history and at the target rate.
    Look,
}

/// A line of action.
#[derive(Drop)]
pub struct Line {
    /// Whose action it is, counted from 0.
    pub actor: u32,
    pub action: Action,
}

/// Lines of action in their order.
pub type LineList = Sequence<Line>;

/// The actions of some actors.
#[derive(Drop)]
pub struct Trace {
    /// How many actors there are.
    pub actors: u32,
    pub lines: LineList,
}
