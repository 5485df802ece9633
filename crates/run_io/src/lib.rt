//! The outside of a run: where its bytes come from, where they go, and who is asked before and after
//! each line.
//!
//! A [`Source`] and a [`Sink`] count their faults, and a call of theirs fails only where the count
//! rose. Where they tell their bytes, as those over memory do, contracts see what is left to be read
//! and what was written.
#![tactic(auto)]

mod memory;
mod outside;
mod streams;

pub use memory::{MemSink, MemSource};
pub use outside::{Failed, Gate, OpenGate, Sink, Source};
pub use streams::{StdSink, StdSource};

#[cfg(test)]
mod tests;
