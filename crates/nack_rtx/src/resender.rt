//! What was sent, for being sent again.

ghost use Rattle.std.specs.Prelude.{◌≡◌, ℕ, ◌-◌, ◌+◌, ◌^◌, ◌<◌, ◌≤◌, ◌≢◌, ◌∷◌, ◌++◌, [], List, length, true, IfOk, IfSome, OnOk, OnErr};
ghost use Rattle.circular_buffer.specs.Buffer.{buffer, keep_last};
ghost use Rattle.nack_rtx.specs.Resending.{Event, kept, asked, Account, account, verdict, verdicts, told, is_kept};
ghost use Rattle.nack_rtx.specs.Answering.{IsTold, Works};
ghost use Rattle.nack_rtx.specs.Keeping.{StandsFor, Keeps, with_counts, found};

use crate::counts::Counts;
use crate::nack::Nack;
use crate::stored::Stored;
use crate::{MOST_KEPT_BYTES, MOST_STORED};
use circular_buffer::HeapCircularBuffer;
use gcc_units::{Bytes, NoMemory, Sequence};
use rtp_wire::Wire;
use std::alloc::Global;
use std::marker::Model;

/// Which packets are kept, and what they are sent again as (RFC 4588, section 4).
#[derive(Clone, Copy, PartialEq, Eq, Debug)]
pub struct RtxSettings {
    /// The SSRC of the packets that are kept.
    pub media: u32,
    /// The SSRC of the packets that are sent again.
    pub rtx: u32,
    /// Their payload type, from 0 to 127.
    pub payload: u8,
    /// How often one packet is sent again at most.
    pub repeats: u32,
}

/// A packet that is to be sent again.
#[derive(Drop)]
pub struct Resend {
    /// The number that the NACK named.
    pub seq: u16,
    /// The bytes of the packet that is sent.
    pub packet: Bytes,
}

/// Packets that are to be sent again, in the order in which their numbers were named.
pub type ResendList = Sequence<Resend>;

/// What a NACK asks for.
#[derive(Drop)]
pub struct Answered {
    pub resends: ResendList,
    /// How many numbers no stored packet has.
    pub unknown: u32,
    /// How many numbers are those of packets that were sent again as often as may be.
    pub spent: u32,
}

/// What becomes of a number that is named.
#[derive(Drop)]
pub(crate) enum Verdict {
    Unknown,
    Spent,
    /// The packet at this place, counted over all that were kept, is sent again: so often, this time
    /// too.
    Again(usize, u32, Resend),
}

/// The packets that were kept: the newest 4,096 of them, and for each sequence number the place of
/// the last packet that had it.
#[derive(Drop)]
pub struct Resender {
    settings: RtxSettings,
    packets: HeapCircularBuffer<Stored>,
    counts: Counts,
    places: Vec<Option<usize>>,
    kept: usize,
    resends: u64,
    alloc: Global,
}

impl Model for Resender {
    ghost use Rattle.nack_rtx.specs.Held.{Held};

    ghost Value = { Held };

    ghost use Rattle.std.specs.Prelude.{◌≡◌, ◌≤◌, ◌<◌, length};
    ghost use Rattle.nack_rtx.specs.declared.TheConstants.{MOST_STORED};

    ghost view = { λ r. record { settings = r.settings; packets = r.packets.items; counts = r.counts; places = r.places.items; kept = r.kept; resends = r.resends } };

    ghost invariant = { λ r. (r.packets.capacity ≡ MOST_STORED)
        × (length r.packets.items ≤ MOST_STORED)
        × (length r.places.items ≡ 65536)
        × (r.settings.payload < 128) };
}

impl Resender {
    /// Nothing kept. It takes the memory for all places.
    pub fn new(alloc: Global, settings: RtxSettings) -> Result<Resender, NoMemory>
        requires { settings.payload < 128 }
        ensures stands { IfOk result (λ r. StandsFor r []) }
        ensures settings { IfOk result (λ r. r.settings ≡ settings) }
    {
        Ok(Resender {
            settings,
            packets: HeapCircularBuffer::with_capacity(alloc, MOST_STORED)?,
            counts: Counts::new(alloc)?,
            places: vec![in alloc; None; 65536]?,
            kept: 0,
            resends: 0,
            alloc,
        })
    }

    /// Keeps a packet that was sent, where it is of the media and has room for its original sequence
    /// number, and says whether it did. At `NoMemory` all is as before.
    pub fn keep(&mut self, wire: &Wire<'_>) -> Result<bool, NoMemory>
        ensures kept { IfOk result (λ b. b ≡ is_kept self.old.settings wire.now.bytes) }
        ensures stands { IfOk result (λ _. (events : List Event) → StandsFor self.old events
            → StandsFor self.new (events ++ kept wire.now.bytes ∷ [])) }
        ensures settings { self.new.settings ≡ self.old.settings }
        ensures err { OnErr result (self.new ≡ self.old) }
    {
        if !is_kept(&self.settings, wire) {
            return Ok(false);
        }
        if self.kept == usize::MAX {
            return Err(NoMemory);
        }
        let packet = Stored::new(self.alloc, wire)?;
        push(&mut self.packets, packet);
        self.counts.push();
        self.places[wire.rtp_seq() as usize] = Some(self.kept);
        self.kept += 1;
        Ok(true)
    }

    /// What is sent again for a NACK, number by number: nothing for a number that no stored packet has
    /// and for one whose packet was sent again as often as may be, else its packet in the
    /// retransmission format. At `NoMemory` all is as before.
    pub fn answer(&mut self, alloc: Global, nack: &Nack) -> Result<Answered, NoMemory>
        ensures told { IfOk result (λ a. (events : List Event) → StandsFor self.old events
            → a ≡ told (verdicts self.old.settings nack.now.media (account self.old.settings events) nack.now.lost.items)) }
        ensures stands { IfOk result (λ _. (events : List Event) → StandsFor self.old events
            → StandsFor self.new (events ++ asked nack.now.media nack.now.lost.items ∷ [])) }
        ensures settings { self.new.settings ≡ self.old.settings }
        ensures err { OnErr result (self.new ≡ self.old) }
    {
        let Answering {
            counts,
            resends,
            mut answered,
        } = self.judge_all(alloc, nack)?;
        answered.resends.settle();
        self.counts = counts;
        self.resends = resends;
        Ok(answered)
    }

    /// Judges the numbers of a NACK one after the other.
    fn judge_all(&self, alloc: Global, nack: &Nack) -> Result<Answering, NoMemory>
        ensures { IfOk result (λ w. (a : Account) → Keeps self.now a
            → Works self.now w self.now.settings nack.now.media a nack.now.lost.items) }
    {
        let mut answering = Answering {
            counts: self.counts.copy(alloc)?,
            resends: self.resends,
            answered: Answered {
                resends: Sequence::new(alloc),
                unknown: 0,
                spent: 0,
            },
        };
        let first = self.first();
        for seq in nack.lost.as_slice() {
            let verdict = self.judge(
                alloc,
                nack.media,
                &answering.counts,
                answering.resends,
                *seq,
            )?;
            answering.take(first, verdict)?;
        }
        Ok(answering)
    }

    /// The place of the oldest packet that is stored, counted over all that were kept.
    fn first(&self) -> usize
        ensures { result ≡ self.now.kept - MOST_STORED }
    {
        self.kept.saturating_sub(MOST_STORED)
    }

    /// The place of the stored packet with this sequence number.
    fn stored(&self, seq: u16) -> Option<usize>
        ensures place { result ≡ found self.now seq }
        ensures within { IfSome result (λ place. self.now.kept - MOST_STORED ≤ place) }
    {
        let place = self.places[seq as usize]?;
        if place < self.first() {
            return None;
        }
        Some(place)
    }

    /// What becomes of a number, with these counts and so many resends before it.
    fn judge(
        &self,
        alloc: Global,
        media: u32,
        counts: &Counts,
        resends: u64,
        seq: u16,
    ) -> Result<Verdict, NoMemory>
        ensures { IfOk result (λ v. (a : Account) → Keeps (with_counts self.now counts.now resends) a
            → v ≡ verdict self.now.settings media a seq) }
    {
        if media != self.settings.media {
            return Ok(Verdict::Unknown);
        }
        let Some(place) = self.stored(seq) else {
            return Ok(Verdict::Unknown);
        };
        let Some(stored) = self.packets.get(place - self.first()) else {
            return Ok(Verdict::Unknown);
        };
        let Some(count) = counts.get(place - self.first()) else {
            return Ok(Verdict::Unknown);
        };
        if count >= self.settings.repeats {
            return Ok(Verdict::Spent);
        }
        let number = (resends % 65536) as u16;
        let packet = stored.resent(alloc, self.settings.payload, number, self.settings.rtx)?;
        Ok(Verdict::Again(place, count + 1, Resend { seq, packet }))
    }
}

/// Whether a packet is of the media, and has room for its original sequence number.
fn is_kept(settings: &RtxSettings, wire: &Wire<'_>) -> bool
    ensures kept { result ≡ is_kept settings.now wire.now.bytes }
    ensures small { result ≡ true → length wire.now.bytes ≤ MOST_KEPT_BYTES }
{
    wire.ssrc() == settings.media && wire.bytes().len() <= MOST_KEPT_BYTES
}

/// Puts a packet at the end. Where there are as many as are stored, the oldest goes.
fn push(packets: &mut HeapCircularBuffer<Stored>, packet: Stored)
    ensures { packets.new ≡ buffer (keep_last packets.old.capacity (packets.old.items ++ packet ∷ [])) packets.old.capacity }
{
    packets.push_back(packet);
}

/// A NACK that is being answered: the counts as they are then, and what was told.
#[derive(Drop)]
struct Answering {
    counts: Counts,
    resends: u64,
    answered: Answered,
}

impl Answering {
    /// Tells a verdict, and counts the packet that is sent again. The oldest stored packet has the place
    /// `first`.
    fn take(&mut self, first: usize, verdict: Verdict) -> Result<(), NoMemory>
        requires { self.old.answered.unknown + self.old.answered.spent + 1 < 2 ^ 32 }
        ensures ok { OnOk result (IsTold self.old self.new first verdict) }
        ensures few { self.new.answered.unknown + self.new.answered.spent ≤ self.old.answered.unknown + self.old.answered.spent + 1 }
    {
        match verdict {
            Verdict::Unknown => self.answered.unknown += 1,
            Verdict::Spent => self.answered.spent += 1,
            Verdict::Again(place, times, resend) => {
                if self.resends == u64::MAX || self.answered.resends.push(resend).is_err() {
                    return Err(NoMemory);
                }
                self.counts.set(place.saturating_sub(first), times);
                self.resends += 1;
            }
        }
        Ok(())
    }
}
