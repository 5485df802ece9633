//! Reports with their statuses in runs.

ghost use Rattle.std.specs.Prelude.{◌≡◌};
ghost use Rattle.twcc_report.specs.Runs.{expanded};

use crate::report::Status;
use std::marker::Model;

/// What a report says of one packet, or of many in a row that were not received.
#[derive(Clone, Copy, PartialEq, Eq, Debug)]
pub enum StatusRun {
    /// So many packets were not received.
    Lost(u16),
    /// The status of one packet.
    One(Status),
}

/// A transport-wide feedback report. Packets in a row that were not received are kept as their count, so that
/// its memory goes with the report's bytes, and not with its statuses. Contracts see it as the report.
#[derive(Drop)]
pub struct CompactReport {
    sender: u32,
    media: u32,
    base: u16,
    reference: i32,
    feedback: u8,
    runs: Vec<StatusRun>,
}

impl Model for CompactReport {
    ghost use Rattle.twcc_report.specs.Spelling.{Feedback};
    ghost use Rattle.twcc_report.specs.Runs.{expanded};

    ghost Value = { Feedback };

    ghost view = { λ r. record {
      sender = r.sender;
      media = r.media;
      base = r.base;
      reference = r.reference;
      feedback = r.feedback;
      statuses = expanded r.runs.items;
    } };
}

impl CompactReport {
    /// The SSRCs of the report's sender and of the media, and the report's own number, modulo 256.
    pub(crate) fn new(
        ssrcs: (u32, u32),
        base: u16,
        reference: i32,
        feedback: u8,
        runs: Vec<StatusRun>,
    ) -> CompactReport
        ensures { result ≡ record {
          sender = ssrcs.0;
          media = ssrcs.1;
          base = base;
          reference = reference;
          feedback = feedback;
          statuses = expanded runs.items;
        } }
    {
        CompactReport {
            sender: ssrcs.0,
            media: ssrcs.1,
            base,
            reference,
            feedback,
            runs,
        }
    }

    /// The number of the first status's packet, modulo 65,536.
    pub fn base(&self) -> u16
        ensures { result ≡ self.now.base }
    {
        self.base
    }

    /// The reference time, from -2^23 to 2^23 - 1, in units of 64 milliseconds.
    pub fn reference(&self) -> i32
        ensures { result ≡ self.now.reference }
    {
        self.reference
    }

    /// The statuses in the order of their packets.
    pub fn runs(&self) -> &[StatusRun]
        ensures { expanded result.now ≡ self.now.statuses }
    {
        &self.runs
    }
}
