//! Standard input and output. What they give and take is outside of what contracts can say: these
//! two adapters are the trusted edge of a run. A read or write that a signal interrupts is made
//! again, and is no fault.

ghost use Rattle.std.specs.Prelude.{◌≡◌, None};

use crate::outside::{Failed, Sink, Source};
use std::io::{ErrorKind, Read, Stdin, Stdout, Write};
use std::marker::Model;

/// How often a call is made that a signal interrupts each time. Ours: more signals in a row are a
/// fault, so that each read and write ends.
const MOST_TRIES: u32 = 1_000_000;

/// Standard input. It doesn't tell its bytes, and contracts see it as its count of faults.
#[derive(Drop)]
pub struct StdSource {
    input: Stdin,
    faults: u64,
}

impl Model for StdSource {
    ghost use Rattle.std.specs.Prelude.{ℕ};

    ghost Value = { ℕ };

    ghost view = { λ s. s.faults };
}

impl StdSource {
    /// A source of standard input.
    pub fn new(input: Stdin) -> StdSource
        ensures { result ≡ 0 }
    {
        StdSource { input, faults: 0 }
    }
}

impl Source for StdSource {
    ghost left = { λ _. None };

    ghost faults = { λ s. s };

    fn read(&mut self, buf: &mut [u8]) -> Result<usize, Failed> {
        for _ in 0..MOST_TRIES {
            match self.input.read(buf) {
                Ok(count) => return Ok(count),
                Err(e) if e.kind() == ErrorKind::Interrupted => {}
                Err(_) => break,
            }
        }
        self.faults = self.faults.saturating_add(1);
        Err(Failed)
    }
}

/// Standard output. It doesn't tell its bytes, and contracts see it as its count of faults. A write
/// that takes nothing is a failure.
#[derive(Drop)]
pub struct StdSink {
    output: Stdout,
    faults: u64,
}

impl Model for StdSink {
    ghost use Rattle.std.specs.Prelude.{ℕ};

    ghost Value = { ℕ };

    ghost view = { λ s. s.faults };
}

impl StdSink {
    /// A sink of standard output.
    pub fn new(output: Stdout) -> StdSink
        ensures { result ≡ 0 }
    {
        StdSink { output, faults: 0 }
    }
}

impl Sink for StdSink {
    ghost written = { λ _. None };

    ghost faults = { λ s. s };

    fn write(&mut self, piece: &[u8]) -> Result<usize, Failed> {
        for _ in 0..MOST_TRIES {
            match self.output.write(piece) {
                Ok(count) if count > 0 => return Ok(count),
                Err(e) if e.kind() == ErrorKind::Interrupted => {}
                _ => break,
            }
        }
        self.faults = self.faults.saturating_add(1);
        Err(Failed)
    }
}
