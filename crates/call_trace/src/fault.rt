//! Why bytes are no trace.

/// The first line is no header.
pub const NO_HEADER: u32 = 1;

/// The actor is no number, or not below the number of actors.
pub const NO_ACTOR: u32 = 2;

/// The verb or the class is none of the table.
pub const NO_VERB: u32 = 3;

/// The moment is no number.
pub const NO_MOMENT: u32 = 4;

/// The hex text is none.
pub const NO_HEX: u32 = 5;

/// The JSON text is no JSON object.
pub const NO_OBJECT: u32 = 6;

/// The object has a key that a change may not have, or an object in its list `streams` has not
/// exactly the keys of a stream.
pub const WRONG_KEY: u32 = 7;

/// No key is wrong, and a value is not of its kind: a whole number from 0 below 2^64, or 2^32 for
/// ids and weights, a truth value, or a list of streams or ids.
pub const WRONG_VALUE: u32 = 8;

/// As many lines of action as a trace may have stand before the line, and it is not `end`.
pub const TOO_MANY_LINES: u32 = 9;

/// The bytes end before a line `end`.
pub const NO_END: u32 = 10;

/// Bytes stand behind the line `end`.
pub const BEHIND_END: u32 = 11;

/// The source is longer than a trace may be. Line 0 has this reason, and no other line.
pub const TOO_LONG: u32 = 12;

/// The header names more actors than one, where a trace of one actor is asked for. Line 1 has this reason.
pub const MANY_ACTORS: u32 = 13;

/// There are more lines of action than are served where lost packets are sent again. Line 0 has this reason.
pub const MANY_LINES: u32 = 14;

/// The first bad line, and why it is bad.
#[derive(Clone, Copy, PartialEq, Eq, Debug)]
pub struct TraceFault {
    /// The line, counted from 1.
    pub line: u32,
    /// The reason of its first bad field, by the constants of this crate.
    pub reason: u32,
}

/// Why no trace was read.
#[derive(Clone, Copy, PartialEq, Eq, Debug)]
pub enum ReadTrace {
    /// The bytes are no trace.
    Fault(TraceFault),
    /// Memory ran out.
    NoMemory,
}

/// Why a line was not read.
#[derive(Clone, Copy, PartialEq, Eq, Debug)]
pub enum Bad {
    /// The reason of its first bad field.
    Reason(u32),
    /// Memory ran out.
    Memory,
}
