//! The top call: reads what the words of a command line ask for, serves it, and writes what comes
//! of it.
//!
//! Those above use the clauses of `run`: which words are accepted, what is read and written, and the cause of
//! each status.
#![tactic(auto)]

mod beside;
mod checking;
mod comparing;
mod laws;
mod looping;
mod making;
mod options;
mod racing;
mod reading;
mod replay;
mod resent;
mod status;
mod summing;
mod told;
mod top;
mod totals;
mod words;
mod workers;
mod writing;

pub use laws::{commands_are_asked_for, numbers_are_decimals};
pub use status::Status;
pub use top::{run, run_plain};
pub use words::WordList;
