//! Tests of the sender, of the laws' numbers and of the shared sender, and the examples of the documents.
//!
//! They stand above the crates that they test, so that these are proved once. No crate stands on this one.
#![tactic(auto)]

#[cfg(test)]
mod examples;
#[cfg(test)]
mod laws;
#[cfg(test)]
mod sender;
#[cfg(test)]
mod shared;
#[cfg(test)]
mod tables;
