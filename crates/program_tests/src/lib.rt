//! Tests of traces, printed histories and the top call, which cross the crates.
//!
//! They stand above the crates that they test, so that these are proved once. No crate stands on this one.
#![tactic(auto)]

#[cfg(test)]
mod races;
#[cfg(test)]
mod runs;
#[cfg(test)]
mod texts;
#[cfg(test)]
mod traces;
