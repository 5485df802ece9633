//! The media sender: calls come in one after another, and each reply is determined by the history
//! of the calls before it.
//!
//! The rule: `reply` of the history, over packets, paces, reports and changes of the settings; it joins the
//! crates below, as `RtpTransportControllerSend` of libwebrtc joins its controller and its pacer. The order of
//! a call's checks and what a refused one leaves are this project's own.
//!
//! Those above use that a sender's history grows by just the entry of each call, and is legal.
#![tactic(auto)]

mod bounds;
mod boxed_change;
mod call;
mod checks;
mod copies;
mod counts;
mod journal;
mod laws;
mod parts;
mod planning;
mod recording;
mod sender;
mod settings;
mod stamping;
mod telling;

pub use bounds::{most_paced, most_sends};
pub use boxed_change::BoxedChange;
pub use call::{Answer, ApplyFault, Call, Cause, Change, Entry, Rates, Reply};
pub use copies::{Rooms, room};
pub use counts::{MOST_ACCEPTED, MOST_SENT};
pub use journal::Journal;
pub use laws::refused_calls_change_nothing_else;
pub use parts::Parts;
pub use sender::Sender;
pub use settings::{GREATEST_EXTENSION, LEAST_EXTENSION, START_RATE, Settings};
pub use stamping::wire_room;
pub use telling::{rates_of, shares_of};
