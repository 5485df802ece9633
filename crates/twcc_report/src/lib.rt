//! Transport-wide feedback reports
//! (draft-holmer-rmcat-transport-wide-cc-extensions-01, section 3.1) as bytes: `rtcp::TransportFeedback` of
//! libwebrtc.
//!
//! Those above use that the reader gives the one report that the bytes spell, or the first check that fails,
//! and that what is written is the canonical spelling, which reads as the report.
#![tactic(auto)]

mod compact;
mod fault;
mod laws;
mod reading;
mod report;
mod runs;
mod writing;

pub use compact::{CompactReport, StatusRun};
pub use fault::{ReadReport, ReportFault};
pub use laws::{canonical_is_a_spelling, one_report, reading_is_by_checks};
pub use reading::read_report;
pub use report::{Report, Status, StatusList};
pub use runs::read_compact;
pub use writing::write_report;

#[cfg(test)]
mod tests;
