//! Why a report could not be read.

ghost use Rattle.std.specs.Prelude.{◌≡◌};
ghost use Rattle.twcc_report.specs.declared.fault.ReadReport.TheVariants as errors;

use std::alloc::AllocError;

/// What is wrong with the bytes of a report, by the first check that fails
/// (draft-holmer-rmcat-transport-wide-cc-extensions-01, section 3.1; `Padding` by this project's
/// own rule).
#[derive(Clone, Copy, PartialEq, Eq, Debug)]
pub enum ReportFault {
    /// There are fewer than 20 bytes.
    Short = 1,
    /// The length field is not the number of words less one.
    Length = 2,
    /// The version is not 2.
    Version = 3,
    /// The format is not 15, or the packet type is not 205.
    NotFeedback = 4,
    /// The status count is 0.
    NoStatus = 5,
    /// The bytes end before the chunks gave all symbols.
    Chunks = 6,
    /// A symbol that counts is the reserved one, 3.
    Reserved = 7,
    /// The bytes end before the last delta.
    Deltas = 8,
    /// More than three bytes stand behind the last delta without the padding bit, or the last byte
    /// does not count the padding.
    Padding = 9,
}

/// Why reading gave no report.
#[derive(Clone, Copy, PartialEq, Eq, Debug)]
pub enum ReadReport {
    /// The bytes spell no report.
    Fault(ReportFault),
    /// Memory ran out.
    NoMemory,
}

impl From<AllocError> for ReadReport {
    ghost from_gives = { λ _ made. made ≡ errors.NoMemory };

    fn from(_error: AllocError) -> ReadReport {
        ReadReport::NoMemory
    }
}
