//! The printed history, and the verdict on it.
//!
//! One line for each call's reply, one for each glance, and a tail. The format is this project's own. Those
//! above use that the text is that of the journal and the glances, and that the verdict is legal exactly where
//! the text is one that a sender could have printed for the trace.
#![tactic(auto)]

mod check;
mod laws;
mod lines;
mod looking;
mod seen;
mod serving;
mod text;

pub use check::{Verdict, check_history};
pub use laws::{legal_texts_have_one_history, texts_differ_at_one_place};
pub use lines::{push_glance, push_line, push_signal};
pub use seen::{Seen, SeenList};
pub use text::write_history;
