//! What the rule keeps from step to step.

use gcc_units::{Moment, Rate};

/// The greatest rate in kbit/s (it follows from `GREATEST_RATE`).
pub const GREATEST_KILOBITS: u64 = 10_000_000;

/// The longest time between two steps that counts, in microseconds (draft-ietf-rmcat-gcc-02,
/// section 5.5: at most one second).
pub const LONGEST_STEP: u64 = 1_000_000;

/// What a step does to the estimate.
#[derive(Clone, Copy)]
pub enum Mode {
    Increase,
    Hold,
    Decrease,
}

/// What the path carried when a queue built up: average and variance of the received rates, in kbit/s.
#[derive(Clone, Copy)]
pub struct Capacity {
    pub average: u64,
    pub variance: u64,
}

/// The state of the rule.
#[derive(Clone, Copy)]
pub struct State {
    pub mode: Mode,
    /// The estimate in bit/s.
    pub rate: Rate,
    /// The moment of the last step.
    pub last: Option<Moment>,
    /// `None` while no decrease has shown it.
    pub capacity: Option<Capacity>,
}
