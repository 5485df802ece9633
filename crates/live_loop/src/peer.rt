//! A sender with its sources and its receiver.

ghost use Rattle.std.specs.Prelude.{◌≡◌, ◌*◌, ◌^◌, ◌<◌, ◌≤◌};
ghost use Rattle.gcc_units.specs.declared.limits.TheConstants.{GREATEST_PACKET};
ghost use Rattle.steered_sender.specs.Standing.{IsControl};

use crate::hearing::Hearing;
use crate::line::{Begun, Line, Packet};
use crate::sampling::Samples;
use crate::steering::{LoopFault, Steering};
use crate::way::Coming;
use call_trace::{AUDIO_BYTES, frame, is_frame_due, made_packet};
use gcc_units::{Class, Moment, NoMemory, Rate};
use pacer::Sent;
use std::alloc::Global;
use steered_sender::Control;

/// What the audio source takes of the target, in bit/s: 100 bytes each 20 ms.
pub const AUDIO_RATE: Rate = 40_000;

/// The milliseconds between two audio packets.
pub const AUDIO_MILLIS: u32 = 20;

/// The milliseconds between two lists of reports.
pub const REPORT_MILLIS: u32 = 50;

/// A sender with its sources and its receiver.
#[derive(Drop)]
pub struct Peer {
    pub sender: Steering,
    pub hearing: Hearing,
    pub samples: Samples,
    second: bool,
    audio: u32,
    video: u32,
}

/// The moment of a millisecond.
pub fn moment(t: u32) -> Moment
    ensures value { result ≡ 1000 * t }
    ensures early { result < 2 ^ 43 }
{
    1_000 * u64::from(t)
}

impl Peer {
    pub fn new(alloc: Global, control: Control, second: bool) -> Result<Peer, NoMemory>
        requires { IsControl control }
    {
        Ok(Peer {
            sender: Steering::new(alloc, control)?,
            hearing: Hearing::new(alloc),
            samples: Samples::new(alloc),
            second,
            audio: 0,
            video: 0,
        })
    }

    /// A packet of it arrived.
    pub fn take(&mut self, coming: &Coming) -> Result<(), NoMemory> {
        self.samples.note_arrival(coming.packet.size);
        self.hearing.take(coming)
    }

    /// The line began to send a packet of it.
    pub fn note_start(&mut self, begun: &Begun) -> Result<(), NoMemory> {
        let wait = begun.start.saturating_sub(begun.packet.moment);
        self.samples.note_start(begun.packet.size, wait)
    }

    /// Hands over the reports that are back.
    fn hear(&mut self, alloc: Global, t: u32) -> Result<(), LoopFault> {
        for _i in 0..self.hearing.len() {
            let Some(feedback) = self.hearing.hear(moment(t)) else {
                return Ok(());
            };
            self.sender.report(alloc, moment(t), &feedback.bytes)?;
        }
        Ok(())
    }

    /// An audio packet, where one is due.
    fn enqueue_audio(&mut self, alloc: Global, t: u32) -> Result<(), LoopFault> {
        if t % AUDIO_MILLIS != 0 {
            return Ok(());
        }
        let count = u64::from(self.audio);
        let wire = made_packet(alloc, Class::Audio, count, u64::from(t), AUDIO_BYTES)?;
        self.audio = self.audio.wrapping_add(1);
        self.sender.enqueue(alloc, moment(t), Class::Audio, wire)
    }

    /// A video packet.
    fn enqueue_video(&mut self, alloc: Global, t: u32, size: u32) -> Result<(), LoopFault>
        requires room { 20 ≤ size }
        requires short { size ≤ GREATEST_PACKET }
    {
        let count = u64::from(self.video);
        let wire = made_packet(alloc, Class::Video, count, u64::from(t), size)?;
        self.video = self.video.wrapping_add(1);
        self.sender.enqueue(alloc, moment(t), Class::Video, wire)
    }

    /// A video frame, where one is due, at the target less what audio takes.
    fn enqueue_frame(&mut self, alloc: Global, t: u32) -> Result<(), LoopFault> {
        if !is_frame_due(t) {
            return Ok(());
        }
        let (packets, size) = frame(self.sender.target().saturating_sub(AUDIO_RATE));
        for _i in 0..packets {
            self.enqueue_video(alloc, t, size as u32)?;
        }
        Ok(())
    }

    /// Offers what left to the line.
    fn offer_all(
        &mut self,
        line: &mut Line,
        records: &[Sent],
        now: Moment,
    ) -> Result<(), NoMemory> {
        for sent in records {
            let packet = Packet {
                second: self.second,
                number: sent.number,
                size: sent.size,
                moment: now,
            };
            let is_taken = line.offer(packet)?;
            self.samples.note_offer(sent.size, is_taken);
        }
        Ok(())
    }

    /// A pace, where a packet may leave.
    fn pace(&mut self, alloc: Global, line: &mut Line, t: u32) -> Result<(), LoopFault> {
        let now = moment(t);
        let Some(next) = self.sender.next_send() else {
            return Ok(());
        };
        if next > now {
            return Ok(());
        }
        let sent = self.sender.pace(alloc, now)?;
        self.offer_all(line, sent.as_slice(), now)?;
        Ok(())
    }

    /// What is due in a millisecond, counted from its own beginning, where a report takes so long to come back.
    pub fn millisecond(
        &mut self,
        alloc: Global,
        line: &mut Line,
        t: u32,
        age: u32,
        delay: u64,
    ) -> Result<(), LoopFault>
        requires { delay ≤ 2 ^ 24 }
    {
        if age == 0 {
            self.sender.open(alloc, moment(t))?;
        }
        if age % REPORT_MILLIS == 0 {
            self.hearing.report(alloc, moment(t) + delay)?;
        }
        self.hear(alloc, t)?;
        self.enqueue_audio(alloc, t)?;
        self.enqueue_frame(alloc, t)?;
        self.pace(alloc, line, t)
    }
}
