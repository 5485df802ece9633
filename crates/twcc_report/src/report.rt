//! Feedback reports.

ghost use Rattle.std.specs.Prelude.{◌≡◌, IfOk};

use gcc_units::{Duplicate, NoMemory, Sequence};
use std::alloc::Global;

/// What a report says of one packet.
#[derive(Clone, Copy, PartialEq, Eq, Debug)]
pub enum Status {
    NotReceived,
    /// Received so many quarter-milliseconds after the packet received before it.
    Small(u8),
    /// The same by a signed number of 16 bits.
    Large(i16),
}

/// Statuses in the order of their packets.
pub type StatusList = Sequence<Status>;

impl Duplicate for Status {
    fn duplicate(&self, _alloc: Global) -> Result<Status, NoMemory> {
        Ok(*self)
    }
}

/// A transport-wide feedback report
/// (draft-holmer-rmcat-transport-wide-cc-extensions-01, section 3.1).
#[derive(Drop)]
pub struct Report {
    /// The SSRC of the report's sender.
    pub sender: u32,
    /// The SSRC of the media.
    pub media: u32,
    /// The number of the first status's packet, modulo 65,536.
    pub base: u16,
    /// The reference time, from -2^23 to 2^23 - 1, in units of 64 milliseconds.
    pub reference: i32,
    /// The report's own number, modulo 256.
    pub feedback: u8,
    pub statuses: StatusList,
}

impl Duplicate for Report {
    fn duplicate(&self, alloc: Global) -> Result<Report, NoMemory> {
        Ok(Report {
            sender: self.sender,
            media: self.media,
            base: self.base,
            reference: self.reference,
            feedback: self.feedback,
            statuses: self.statuses.copy(alloc)?,
        })
    }
}
