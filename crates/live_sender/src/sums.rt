//! What a history adds up to, kept as running sums.

ghost use Rattle.std.specs.Prelude.{◌≡◌, ◌+◌, ◌*◌, ◌≤◌, ◌<◌, ◌^◌, if◌then◌else◌, min, ◌++◌, [], ◌∷◌, List, length};
ghost use Rattle.pacer.specs.declared.sent.Sent.{Sent};
ghost use Rattle.send_core.specs.History.{sent_by};
ghost use Rattle.send_core.specs.Settled.{credits_by};
ghost use Rattle.live_sender.specs.Replies.{is_refused, missing_by};
ghost use Rattle.live_sender.specs.Sums.{sums_of, total_of, totals_of, MayCount};

use gcc_units::GREATEST_PACKET;
use pacer::{Kind, Sent};
use send_core::{MOST_SENT, Reply};

/// A count of calls stays at this, the greatest number that it can hold.
pub const MOST_COUNTED: u64 = 18_446_744_073_709_551_615;

/// How many packets, and their bytes.
#[derive(Clone, Copy, PartialEq, Eq, Debug)]
pub struct Total {
    pub packets: u64,
    pub bytes: u64,
}

/// The packets that were sent, by what they were sent as.
#[derive(Clone, Copy, PartialEq, Eq, Debug)]
pub struct SentTotals {
    /// Audio that no budget held back.
    pub audio: Total,
    /// Media within the budget.
    pub media: Total,
    /// Packets of probe clusters.
    pub probes: Total,
    /// Packets that carry no media.
    pub padding: Total,
}

/// What the replies of a history add up to.
#[derive(Clone, Copy, PartialEq, Eq, Debug)]
pub struct Sums {
    pub sent: SentTotals,
    /// The packets that reports credited.
    pub credited: u64,
    /// The packets that reports said were missing, each at the first time.
    pub missing: u64,
    /// The calls that were refused, at most `MOST_COUNTED`.
    pub refused: u64,
}

impl Total {
    fn none() -> Total
        ensures { result ≡ total_of [] }
    {
        Total {
            packets: 0,
            bytes: 0,
        }
    }

    // One packet more.
    fn add(&mut self, size: u32)
        requires packets { self.old.packets ≤ MOST_SENT }
        requires bytes { self.old.bytes ≤ GREATEST_PACKET * MOST_SENT }
        ensures packets { self.new.packets ≡ self.old.packets + 1 }
        ensures bytes { self.new.bytes ≡ self.old.bytes + size }
    {
        self.packets += 1;
        self.bytes += u64::from(size);
    }
}

impl SentTotals {
    fn none() -> SentTotals
        ensures { result ≡ totals_of [] }
    {
        SentTotals {
            audio: Total::none(),
            media: Total::none(),
            probes: Total::none(),
            padding: Total::none(),
        }
    }

    // One record more.
    fn add(&mut self, sent: &Sent)
        requires { MayCount self.old (sent.now ∷ []) }
        ensures { (before : List Sent) → self.old ≡ totals_of before → self.new ≡ totals_of (before ++ sent.now ∷ []) }
    {
        match sent.kind {
            Kind::Audio => self.audio.add(sent.size),
            Kind::Media => self.media.add(sent.size),
            Kind::Probe(_) => self.probes.add(sent.size),
            Kind::Padding => self.padding.add(sent.size),
        }
    }

    // These records more.
    fn add_all(&mut self, records: &[Sent])
        requires { MayCount self.old records.now }
        ensures { (before : List Sent) → self.old ≡ totals_of before → self.new ≡ totals_of (before ++ records.now) }
    {
        for sent in records {
            self.add(sent);
        }
    }
}

impl Sums {
    /// Those of no call.
    pub fn none() -> Sums
        ensures { result ≡ sums_of [] }
    {
        Sums {
            sent: SentTotals::none(),
            credited: 0,
            missing: 0,
            refused: 0,
        }
    }

    /// One reply more that sends nothing and judges no report.
    pub fn note(&mut self, reply: &Reply)
        ensures { self.new ≡ record self.old { refused = min MOST_COUNTED (self.old.refused + (if is_refused reply.now then 1 else 0)) } }
    {
        self.refused = self.refused.saturating_add(refused_by(reply));
    }

    /// One reply more.
    pub fn add(&mut self, reply: &Reply)
        requires sent { MayCount self.old.sent (sent_by reply.now) }
        requires credited { self.old.credited + length (credits_by reply.now) < 2 ^ 64 }
        requires missing { self.old.missing + missing_by reply.now < 2 ^ 64 }
        ensures sent { (before : List Sent) → self.old.sent ≡ totals_of before → self.new.sent ≡ totals_of (before ++ sent_by reply.now) }
        ensures credited { self.new.credited ≡ self.old.credited + length (credits_by reply.now) }
        ensures missing { self.new.missing ≡ self.old.missing + missing_by reply.now }
        ensures refused { self.new.refused ≡ min MOST_COUNTED (self.old.refused + (if is_refused reply.now then 1 else 0)) }
    {
        self.note(reply);
        match reply {
            Reply::Paced { sent, .. } => self.sent.add_all(sent.as_slice()),
            Reply::Credited { judged, .. } => {
                self.credited += u64::from(judged.received.len());
                self.missing += u64::from(judged.missing);
            }
            _ => {}
        }
    }
}

// How many calls the reply refuses.
fn refused_by(reply: &Reply) -> u64
    ensures { result ≡ (if is_refused reply.now then 1 else 0) }
{
    match reply {
        Reply::Refused { .. } => 1,
        _ => 0,
    }
}
