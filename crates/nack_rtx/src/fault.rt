//! Why a NACK could not be read.

ghost use Rattle.std.specs.Prelude.{◌≡◌};
ghost use Rattle.nack_rtx.specs.declared.fault.ReadNack.TheVariants as errors;

use gcc_units::NoMemory;
use std::alloc::AllocError;

/// What is wrong with the bytes of a NACK, by the first check that fails (RFC 4585, section 6.2.1).
#[derive(Clone, Copy, PartialEq, Eq, Debug)]
pub enum NackFault {
    /// There are fewer than 16 bytes.
    Short = 1,
    /// The length field is not the number of words less one.
    Length = 2,
    /// The version is not 2.
    Version = 3,
    /// The format is not 1, or the packet type is not 205.
    NotNack = 4,
    /// The padding bit is set, and the last byte does not count padding of whole words that leaves a
    /// pair.
    Padding = 5,
}

/// Why reading gave no NACK.
#[derive(Clone, Copy, PartialEq, Eq, Debug)]
pub enum ReadNack {
    /// The bytes spell no NACK.
    Fault(NackFault),
    /// Memory ran out.
    NoMemory,
}

impl From<AllocError> for ReadNack {
    ghost from_gives = { λ _ made. made ≡ errors.NoMemory };

    fn from(_error: AllocError) -> ReadNack {
        ReadNack::NoMemory
    }
}

impl From<NoMemory> for ReadNack {
    ghost from_gives = { λ _ made. made ≡ errors.NoMemory };

    fn from(_error: NoMemory) -> ReadNack {
        ReadNack::NoMemory
    }
}
