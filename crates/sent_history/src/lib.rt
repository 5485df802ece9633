//! The sent packets and what feedback reports said of them: transport-wide numbers and exact credit
//! (draft-holmer-rmcat-transport-wide-cc-extensions-01, section 3.1; `TransportFeedbackAdapter` of libwebrtc).
//!
//! The rule: a received status credits its packet where that is outstanding: sent, one of the last 32,768, and
//! never credited. Which packet a status names, and how a status is judged, are this project's own rules. A
//! report names packets by 16 bits only, so a forged or very old one can credit a newer packet that is
//! outstanding.
//!
//! Those above use that credit is the definition over all packets and reports, and that no number is credited
//! twice.
#![tactic(auto)]

mod compact;
mod finding;
mod history;
mod judging;
mod kept_slots;
mod laws;
mod lost;
mod place_set;
mod ring;
mod slot;

pub use compact::count_received;
pub use finding::{Finding, FindingList};
pub use history::History;
pub use judging::is_received;
pub use laws::{
    credits_are_exact, no_number_is_credited_twice, packets_balance, statuses_are_judged_once,
};
pub use slot::Outgoing;

/// How far the reference of a report may lie from 0: 2^23.
pub const GREATEST_REFERENCE: i32 = 8_388_608;

#[cfg(test)]
mod tests;
