//! NACKs.

use gcc_units::Sequence;

/// Sequence numbers of RTP packets.
pub type SeqList = Sequence<u16>;

/// A generic NACK (RFC 4585, section 6.2.1).
#[derive(Drop)]
pub struct Nack {
    /// The SSRC of the NACK's sender.
    pub sender: u32,
    /// The SSRC of the media.
    pub media: u32,
    /// The numbers that its pairs name, each at its first place only.
    pub lost: SeqList,
}
