//! Made traces.

ghost use Rattle.std.specs.Prelude.{◌≡◌, ◌+◌, ◌*◌, ◌^◌, ◌<◌, ◌≤◌, ◌++◌, nat_le, map, length, if◌then◌else◌, IfOk, OnOk};
ghost use Rattle.gcc_units.specs.Listed.{bare};
ghost use Rattle.gcc_units.specs.declared.limits.TheConstants.{GREATEST_PACKET, MOST_ACTORS, MOST_LINES};
ghost use Rattle.call_trace.specs.Plain.{plain, Fits, IsSettled};
ghost use Rattle.call_trace.specs.MadeReports.{AreNear};
ghost use Rattle.call_trace.specs.Making.{is_audio, is_video, is_report, moments_by, opening, unmade, asked, moment, with_opening, with_audio, with_video, with_packets, is_frame_due, with_frame, with_pace, uncovered, is_report_due, with_report, millisecond, milliseconds, actor_of, line_of, made};
ghost use Rattle.call_trace.specs.Makers.{making, IsCounted, IsSteady};

use crate::copies::copy_call;
use crate::made_packets::{audio_packet, frame, video_packet};
use crate::made_reports::report_bytes;
use crate::trace::{Action, Line, LineList, Trace};
use allocator::{Stream, StreamList};
use gcc_units::{
    Class, GREATEST_PACKET, IdList, MOST_ACTORS, MOST_LINES, MOST_STATUSES, Moment, NoMemory,
};
use rand_core::SeedableRng;
use rand_xoshiro::Xoshiro256PlusPlus;
use send_core::{ApplyFault, BoxedChange, Call, Change, Entry, Journal, Reply, Sender};
use std::alloc::Global;

/// A sender in use, and what is counted of its calls.
#[derive(Drop)]
struct Maker {
    sender: Sender,
    /// How many calls are asked for.
    calls: u32,
    /// How many audio packets, video packets and reports were made.
    audio: u32,
    video: u32,
    reports: u32,
    /// When each number was sent.
    moments: Vec<Moment>,
    /// How many numbers reports told of.
    covered: usize,
    /// Where arrivals and losses are drawn from.
    words: Xoshiro256PlusPlus,
}

/// The moment of a millisecond.
fn moment(t: u32) -> Moment
    ensures { result ≡ moment t }
{
    1000 * u64::from(t)
}

/// Whether a frame of a made trace is due in the millisecond `t`, of thirty in a second.
pub fn is_frame_due(t: u32) -> bool
    ensures { result ≡ is_frame_due t }
{
    t % 100 == 0 || t % 100 == 33 || t % 100 == 67
}

/// The change that a made trace begins with: the start of both estimates, and one stream. `NoMemory` tells that
/// memory ran out, and nothing else.
pub fn opening(alloc: Global) -> Result<Change, NoMemory>
    ensures { IfOk result (λ change. change ≡ opening) }
{
    let stream = Stream {
        id: 1,
        min: 30_000,
        max: 2_500_000,
        weight: 1,
        enforced: true,
    };
    let mut streams = StreamList::new(alloc);
    if streams.push(stream).is_err() {
        return Err(NoMemory);
    }
    Ok(Change {
        streams,
        removed: IdList::new(alloc),
        start: Some(300_000),
        min: None,
        max: None,
        pacing_percent: None,
        window: None,
        padding_rate: None,
        paced_audio: None,
        extension_id: None,
        probe: None,
    })
}

/// Whether the call is that of an audio packet.
pub fn is_audio(call: &Call) -> bool
    ensures { result ≡ is_audio call.now }
{
    match call {
        Call::Enqueue { class, .. } => *class == Class::Audio,
        _ => false,
    }
}

/// Whether the call is that of a video packet.
pub fn is_video(call: &Call) -> bool
    ensures { result ≡ is_video call.now }
{
    match call {
        Call::Enqueue { class, .. } => *class == Class::Video,
        _ => false,
    }
}

/// Whether the call is that of a report.
fn is_report(call: &Call) -> bool
    ensures { result ≡ is_report call.now }
{
    match call {
        Call::Report { .. } => true,
        _ => false,
    }
}

/// Puts the moment of each packet that left at the end.
fn note_sends(moments: &mut Vec<Moment>, reply: &Reply) -> Result<(), NoMemory>
    ensures { OnOk result (moments.new.items ≡ moments.old.items ++ moments_by reply.now) }
{
    if let Reply::Paced { at, sent } = reply {
        moments.resize(moments.len() + sent.len() as usize, *at)?;
    }
    Ok(())
}

impl Maker {
    fn new(alloc: Global, seed: u64, calls: u32) -> Result<Maker, NoMemory>
        requires { calls ≤ MOST_LINES }
        ensures making { IfOk result (λ maker. making maker ≡ unmade seed calls) }
        ensures counted { IfOk result (λ maker. IsCounted maker) }
    {
        Ok(Maker {
            sender: Sender::new(alloc)?,
            calls,
            audio: 0,
            video: 0,
            reports: 0,
            moments: Vec::new(alloc),
            covered: 0,
            words: Xoshiro256PlusPlus::seed_from_u64(seed),
        })
    }

    /// Whether there are as many calls as asked for.
    fn is_done(&self) -> bool
        ensures { result ≡ nat_le self.now.calls (length self.now.sender) }
    {
        self.sender.journal().len() >= self.calls
    }

    /// Counts a call that is made.
    fn count(&mut self, call: &Call)
        requires audio { self.old.audio < u32.MAX }
        requires video { self.old.video < u32.MAX }
        requires reports { self.old.reports < u32.MAX }
        ensures { self.new ≡ record self.old {
          audio = self.old.audio + (if is_audio call.now then 1 else 0);
          video = self.old.video + (if is_video call.now then 1 else 0);
          reports = self.old.reports + (if is_report call.now then 1 else 0);
        } }
    {
        if is_audio(call) {
            self.audio += 1;
        }
        if is_video(call) {
            self.video += 1;
        }
        if is_report(call) {
            self.reports += 1;
        }
    }

    /// Serves a call, unless there are as many as asked for.
    fn ask(&mut self, alloc: Global, call: Call) -> Result<(), NoMemory>
        requires { IsCounted self.old }
        ensures making { OnOk result (making self.new ≡ asked call (making self.old)) }
        ensures counted { OnOk result (IsCounted self.new) }
    {
        if self.is_done() {
            return Ok(());
        }
        self.count(&call);
        match self.sender.apply(alloc, 0, call) {
            Ok(answer) => note_sends(&mut self.moments, &answer.reply),
            Err((ApplyFault::NoMemory, _)) => Err(NoMemory),
            Err((ApplyFault::JournalFull, _)) => unreachable!(),
        }
    }

    /// At first a change of the settings.
    #[tactic(auto, unfolding(crate::specs::Making::with_opening))]
    fn open(&mut self, alloc: Global, t: u32) -> Result<(), NoMemory>
        requires { IsCounted self.old }
        ensures making { OnOk result (making self.new ≡ with_opening t (making self.old)) }
        ensures counted { OnOk result (IsCounted self.new) }
    {
        if t != 0 {
            return Ok(());
        }
        let change = BoxedChange::new(alloc, opening(alloc)?)?;
        self.ask(
            alloc,
            Call::Configure {
                at: moment(t),
                change,
            },
        )
    }

    #[tactic(auto, unfolding(crate::specs::Making::with_audio))]
    fn enqueue_audio(&mut self, alloc: Global, t: u32) -> Result<(), NoMemory>
        requires early { t ≤ 5 * MOST_LINES }
        requires counted { IsCounted self.old }
        ensures making { OnOk result (making self.new ≡ with_audio t (making self.old)) }
        ensures counted { OnOk result (IsCounted self.new) }
    {
        if t % 20 != 0 {
            return Ok(());
        }
        let wire = audio_packet(alloc, self.audio, t)?;
        self.ask(
            alloc,
            Call::Enqueue {
                at: moment(t),
                class: Class::Audio,
                wire,
            },
        )
    }

    #[tactic(auto, unfolding(crate::specs::Making::with_video))]
    fn enqueue_video(&mut self, alloc: Global, t: u32, size: u64) -> Result<(), NoMemory>
        requires early { t ≤ 5 * MOST_LINES }
        requires counted { IsCounted self.old }
        requires room { 20 ≤ size }
        requires short { size ≤ GREATEST_PACKET }
        ensures making { OnOk result (making self.new ≡ with_video t size (making self.old)) }
        ensures counted { OnOk result (IsCounted self.new) }
    {
        let wire = video_packet(alloc, self.video, t, size)?;
        self.ask(
            alloc,
            Call::Enqueue {
                at: moment(t),
                class: Class::Video,
                wire,
            },
        )
    }

    /// A frame, in packets of one size.
    fn enqueue_frame(&mut self, alloc: Global, t: u32) -> Result<(), NoMemory>
        requires early { t ≤ 5 * MOST_LINES }
        requires counted { IsCounted self.old }
        ensures making { OnOk result (making self.new ≡ with_frame t (making self.old)) }
        ensures counted { OnOk result (IsCounted self.new) }
    {
        if !is_frame_due(t) {
            return Ok(());
        }
        let (packets, size) = frame(self.sender.target());
        for _ in 0..packets {
            self.enqueue_video(alloc, t, size)?;
        }
        Ok(())
    }

    #[tactic(auto, unfolding(crate::specs::Making::with_pace))]
    fn pace(&mut self, alloc: Global, t: u32) -> Result<(), NoMemory>
        requires { IsCounted self.old }
        ensures making { OnOk result (making self.new ≡ with_pace t (making self.old)) }
        ensures counted { OnOk result (IsCounted self.new) }
    {
        if t % 5 != 0 {
            return Ok(());
        }
        self.ask(alloc, Call::Pace { at: moment(t) })
    }

    /// Whether a report is due: there are numbers that none told of.
    fn is_report_due(&self, t: u32) -> bool
        requires { IsCounted self.now }
        ensures { result ≡ is_report_due t (making self.now) }
    {
        t % 50 == 40 && self.covered < self.moments.len()
    }

    /// Reports on the numbers that no report told of.
    fn report(&mut self, alloc: Global, t: u32) -> Result<(), NoMemory>
        requires counted { IsCounted self.old }
        requires near { AreNear (uncovered (making self.old)) }
        ensures making { OnOk result (making self.new ≡ with_report t (making self.old)) }
        ensures counted { OnOk result (IsCounted self.new) }
    {
        if !self.is_report_due(t) {
            return Ok(());
        }
        let end = self
            .moments
            .len()
            .min(self.covered + MOST_STATUSES as usize);
        let uncovered = &self.moments[self.covered..end];
        let bytes = report_bytes(
            alloc,
            &mut self.words,
            self.reports,
            self.covered,
            uncovered,
        )?;
        self.covered = end;
        self.ask(
            alloc,
            Call::Report {
                at: moment(t),
                bytes,
            },
        )
    }

    /// Makes the calls that are due in a millisecond.
    fn millisecond(&mut self, alloc: Global, t: u32) -> Result<(), NoMemory>
        requires early { t ≤ 5 * MOST_LINES }
        requires counted { IsCounted self.old }
        requires steady { IsSteady t (making self.old) }
        ensures making { OnOk result (making self.new ≡ millisecond t (making self.old)) }
        ensures counted { OnOk result (IsCounted self.new) }
    {
        self.open(alloc, t)?;
        self.enqueue_audio(alloc, t)?;
        self.enqueue_frame(alloc, t)?;
        self.pace(alloc, t)?;
        self.report(alloc, t)
    }
}

/// Whose call it is, where there are at least four actors: the sources', the pacer's, the
/// receiver's, or that of who opened.
fn actor_of(call: &Call) -> u32
    ensures { result ≡ actor_of call.now }
{
    match call {
        Call::Enqueue { .. } => 0,
        Call::Pace { .. } => 1,
        Call::Report { .. } => 2,
        Call::Configure { .. } => 3,
    }
}

fn line_of(alloc: Global, entry: &Entry, actors: u32) -> Result<Line, NoMemory>
    requires { 0 < actors }
    ensures { IfOk result (λ line. line ≡ line_of actors entry.now) }
{
    let call = copy_call(alloc, &entry.call)?;
    Ok(Line {
        actor: actor_of(&call) % actors,
        action: Action::Ask(call),
    })
}

/// The calls of a journal as lines.
fn lines_of(alloc: Global, journal: &Journal, actors: u32) -> Result<LineList, NoMemory>
    requires { 0 < actors }
    ensures { IfOk result (λ lines. lines ≡ bare (map (line_of actors) journal.now.items)) }
{
    let mut lines = Vec::with_capacity(alloc, journal.len() as usize)?;
    for k in 0..journal.len() {
        let Some(entry) = journal.entry(k) else {
            unreachable!()
        };
        lines.push_reserved(line_of(alloc, entry, actors)?);
    }
    Ok(LineList::from_vec(lines))
}

/// Makes as many calls as asked for.
fn made_calls(alloc: Global, seed: u64, calls: u32) -> Result<Maker, NoMemory>
    requires { calls ≤ MOST_LINES }
    ensures { IfOk result (λ maker. maker.sender ≡ (milliseconds seed calls (5 * calls)).history) }
{
    let mut maker = Maker::new(alloc, seed, calls)?;
    // A pace is due in each fifth millisecond.
    for t in 0..5 * calls {
        if maker.is_done() {
            break;
        }
        maker.millisecond(alloc, t)?;
    }
    Ok(maker)
}

/// A trace of a sender that is used, made from a seed: the same seed makes the same trace. It
/// begins with a change of the settings. An audio and a video source, a pacer and a receiver then
/// make calls, millisecond by millisecond, until there are as many as asked for; the receiver
/// reports what was sent, with arrivals and losses drawn from the seed.
///
/// There are 1 to `MOST_LINES` calls and 1 to `MOST_ACTORS` actors. `NoMemory` tells that memory
/// ran out, and nothing else.
pub fn make_trace(alloc: Global, seed: u64, calls: u32, actors: u32) -> Result<Trace, NoMemory>
    requires some_call { 1 ≤ calls }
    requires few_calls { calls ≤ MOST_LINES }
    requires some_actor { 1 ≤ actors }
    requires few_actors { actors ≤ MOST_ACTORS }
    ensures made { IfOk result (λ trace. plain trace ≡ made seed calls actors) }
    ensures fits { IfOk result (λ trace. Fits (plain trace)) }
    ensures settled { IfOk result (λ trace. IsSettled trace) }
{
    let maker = made_calls(alloc, seed, calls)?;
    let lines = lines_of(alloc, maker.sender.journal(), actors)?;
    Ok(Trace { actors, lines })
}
