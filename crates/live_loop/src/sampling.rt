//! What is sampled of a run.

use gcc_units::{NoMemory, Rate};
use std::alloc::Global;

/// The milliseconds of a sample.
pub const SAMPLE_MILLIS: u32 = 100;

/// What a sender did in a tenth of a second.
#[derive(Clone, Copy, PartialEq, Eq, Debug)]
pub struct Sample {
    /// Its target at the end, in bit/s.
    pub target: Rate,
    /// The bytes that it sent.
    pub sent: u64,
    /// Those of its bytes whose sending the line began.
    pub carried: u64,
    /// Those of its bytes that arrived.
    pub received: u64,
}

/// All samples of a sender, and each packet's wait.
#[derive(Drop)]
pub struct Samples {
    /// What it did since the last sample.
    pub now: Sample,
    pub samples: Vec<Sample>,
    /// How long each packet that was not dropped waited for the line, in microseconds.
    pub waits: Vec<u64>,
    /// How many packets it offered to the line.
    pub offered: u64,
    /// How many of them were dropped.
    pub dropped: u64,
}

impl Sample {
    /// Nothing was done.
    pub fn none() -> Sample {
        Sample {
            target: 0,
            sent: 0,
            carried: 0,
            received: 0,
        }
    }
}

impl Samples {
    pub fn new(alloc: Global) -> Self {
        Samples {
            now: Sample::none(),
            samples: Vec::new(alloc),
            waits: Vec::new(alloc),
            offered: 0,
            dropped: 0,
        }
    }

    /// A packet was offered to the line, which took it or dropped it.
    pub fn note_offer(&mut self, size: u32, is_taken: bool) {
        self.now.sent = self.now.sent.saturating_add(u64::from(size));
        self.offered = self.offered.saturating_add(1);
        if !is_taken {
            self.dropped = self.dropped.saturating_add(1);
        }
    }

    /// The line began to send a packet that waited so long.
    pub fn note_start(&mut self, size: u32, wait: u64) -> Result<(), NoMemory> {
        if self.waits.push(wait).is_err() {
            return Err(NoMemory);
        }
        self.now.carried = self.now.carried.saturating_add(u64::from(size));
        Ok(())
    }

    /// A packet arrived.
    pub fn note_arrival(&mut self, size: u32) {
        self.now.received = self.now.received.saturating_add(u64::from(size));
    }

    /// A tenth of a second ends.
    pub fn end_sample(&mut self, target: Rate) -> Result<(), NoMemory> {
        let mut sample = self.now;
        sample.target = target;
        if self.samples.push(sample).is_err() {
            return Err(NoMemory);
        }
        self.now = Sample::none();
        Ok(())
    }
}
