//! Traces: the calls of several actors to one sender, as lines of text.
//!
//! A line is the bytes before a line feed. The first line is `gcc-trace 1 ACTORS`. Then come lines
//! of action, then `end`, and nothing behind it. The format is this project's own.
//!
//! Those above use that the reader gives the trace that the bytes spell, or the first bad line and in it the
//! first bad field, and that what is written spells its trace.
#![tactic(auto)]

mod action;
mod change;
mod change_value;
mod copies;
mod fault;
mod fields;
mod laws;
mod made_packets;
mod made_reports;
mod making;
mod reading;
mod trace;
mod writing;

pub use copies::copy_call;
pub use fault::{
    BEHIND_END, MANY_ACTORS, MANY_LINES, NO_ACTOR, NO_END, NO_HEADER, NO_HEX, NO_MOMENT, NO_OBJECT,
    NO_VERB, ReadTrace, TOO_LONG, TOO_MANY_LINES, TraceFault, WRONG_KEY, WRONG_VALUE,
};
pub use fields::{cut, number};
pub use laws::{
    a_line_is_an_action_or_has_a_first_bad_field, a_text_spells_one_change_or_none,
    bytes_are_a_trace_or_have_a_first_fault, bytes_begin_with_a_trace_or_have_a_first_fault,
    lines_are_cut_at_line_feeds, lines_in_order_are_legal, lines_in_order_merge,
    made_traces_have_all_calls, no_bytes_spell_two_traces,
};
pub use made_packets::{AUDIO_BYTES, MOST_VIDEO_BYTES, frame, made_packet};
pub use making::{is_audio, is_frame_due, is_video, make_trace, opening};
pub use reading::{next_line, read_front, read_trace};
pub use trace::{Action, Line, LineList, Trace};
pub use writing::write_trace;
