//! The change that a run begins with, and the packets of the sources.

ghost use Rattle.std.specs.Prelude.{◌≡◌, ◌<◌, ◌≤◌, OnOk};
ghost use Rattle.gcc_units.specs.declared.limits.TheConstants.{GREATEST_PACKET};
ghost use Rattle.call_trace.specs.Making.{moment};
ghost use Rattle.link_path.specs.declared.link.LinkSettings.{LinkSettings};
ghost use Rattle.link_loop.specs.Looping.{Looping, with_opening, with_audio, with_video, with_packets, with_frame};
ghost use Rattle.link_loop.specs.Kept.{IsAt, IsSound};

use crate::looper::Looper;
use crate::{MOST_MILLIS, OPENER, SOURCES};
use call_trace::{AUDIO_BYTES, frame, is_frame_due, made_packet, opening};
use gcc_units::{Class, Moment, NoMemory};
use send_core::{BoxedChange, Call};
use std::alloc::Global;

/// The moment of a millisecond.
pub fn moment(t: u32) -> Moment
    ensures { result ≡ moment t }
{
    1_000 * u64::from(t)
}

/// At first a change of the settings.
#[tactic(auto, unfolding(crate::specs::Looping::with_opening))]
pub fn open(looper: &mut Looper, alloc: Global, t: u32) -> Result<(), NoMemory>
    requires { IsSound looper.old }
    ensures at { OnOk result ((s : LinkSettings) (m : Looping) → IsAt looper.old s m → IsAt looper.new s (with_opening t m)) }
    ensures sound { OnOk result (IsSound looper.new) }
{
    if t != 0 {
        return Ok(());
    }
    let change = BoxedChange::new(alloc, opening(alloc)?)?;
    let at = moment(t);
    looper.ask(alloc, OPENER, Call::Configure { at, change })
}

#[tactic(auto, unfolding(crate::specs::Looping::with_audio))]
pub fn enqueue_audio(looper: &mut Looper, alloc: Global, t: u32) -> Result<(), NoMemory>
    requires early { t < MOST_MILLIS }
    requires sound { IsSound looper.old }
    ensures at { OnOk result ((s : LinkSettings) (m : Looping) → IsAt looper.old s m → IsAt looper.new s (with_audio t m)) }
    ensures sound { OnOk result (IsSound looper.new) }
{
    if t % 20 != 0 {
        return Ok(());
    }
    let count = u64::from(looper.audio);
    let wire = made_packet(alloc, Class::Audio, count, u64::from(t), AUDIO_BYTES)?;
    let class = Class::Audio;
    let at = moment(t);
    looper.ask(alloc, SOURCES, Call::Enqueue { at, class, wire })
}

#[tactic(auto, unfolding(crate::specs::Looping::with_video))]
fn enqueue_video(looper: &mut Looper, alloc: Global, t: u32, size: u64) -> Result<(), NoMemory>
    requires early { t < MOST_MILLIS }
    requires sound { IsSound looper.old }
    requires room { 20 ≤ size }
    requires short { size ≤ GREATEST_PACKET }
    ensures at { OnOk result ((s : LinkSettings) (m : Looping) → IsAt looper.old s m → IsAt looper.new s (with_video t size m)) }
    ensures sound { OnOk result (IsSound looper.new) }
{
    let count = u64::from(looper.video);
    let wire = made_packet(alloc, Class::Video, count, u64::from(t), size as u32)?;
    let class = Class::Video;
    let at = moment(t);
    looper.ask(alloc, SOURCES, Call::Enqueue { at, class, wire })
}

/// A frame, in packets of one size.
pub fn enqueue_frame(looper: &mut Looper, alloc: Global, t: u32) -> Result<(), NoMemory>
    requires early { t < MOST_MILLIS }
    requires sound { IsSound looper.old }
    ensures at { OnOk result ((s : LinkSettings) (m : Looping) → IsAt looper.old s m → IsAt looper.new s (with_frame t m)) }
    ensures sound { OnOk result (IsSound looper.new) }
{
    if !is_frame_due(t) {
        return Ok(());
    }
    let (packets, size) = frame(looper.sender.target());
    for _i in 0..packets {
        enqueue_video(looper, alloc, t, size)?;
    }
    Ok(())
}
