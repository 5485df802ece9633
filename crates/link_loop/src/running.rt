//! A run of so many milliseconds.

ghost use Rattle.std.specs.Prelude.{◌≡◌, ◌<◌, ◌≤◌, map, All, IfOk, OnOk};
ghost use Rattle.gcc_units.specs.Listed.{bare};
ghost use Rattle.twcc_report.specs.Spelling.{view};
ghost use Rattle.link_path.specs.declared.link.LinkSettings.{LinkSettings};
ghost use Rattle.link_path.specs.Link.{offers, held, delivered, dropped};
ghost use Rattle.link_path.specs.KeptLink.{IsLink};
ghost use Rattle.link_loop.specs.Looping.{Looping, millisecond, looping};
ghost use Rattle.link_loop.specs.Kept.{IsAt, IsRead, IsReady, IsSound};
ghost use Rattle.link_loop.specs.ClosedLoop.{IsClosedLoop};

use crate::MOST_MILLIS;
use crate::looper::Looper;
use crate::pacing::pace;
use crate::receiving::{hand_over, report};
use crate::sources::{enqueue_audio, enqueue_frame, open};
use gcc_units::NoMemory;
use link_path::{ArrivalList, LinkSettings, NumberList, ReportList};
use send_core::Sender;
use std::alloc::Global;

/// How a run ends.
#[derive(Drop)]
pub struct LoopEnd {
    /// The sender, with the journal of all calls.
    pub sender: Sender,
    /// What went from the link to the receiver, in order of number.
    pub delivered: ArrivalList,
    /// The numbers of the packets that the link dropped.
    pub dropped: NumberList,
    /// What is still inside the link.
    pub inside: ArrivalList,
    /// The receiver's reports that were served.
    pub reports: ReportList,
}

/// All that is due in a millisecond, unless the loop is over.
#[tactic(auto, unfolding(crate::specs::Looping::millisecond))]
fn millisecond(looper: &mut Looper, alloc: Global, t: u32) -> Result<(), NoMemory>
    requires early { t < MOST_MILLIS }
    requires ready { IsReady looper.old }
    requires sound { IsSound looper.old }
    ensures at { OnOk result ((s : LinkSettings) (m : Looping) → IsAt looper.old s m → IsAt looper.new s (millisecond s t m)) }
    ensures sound { OnOk result (IsSound looper.new) }
{
    if looper.over {
        return Ok(());
    }
    open(looper, alloc, t)?;
    hand_over(looper, alloc, t)?;
    report(looper, alloc, t)?;
    enqueue_audio(looper, alloc, t)?;
    enqueue_frame(looper, alloc, t)?;
    pace(looper, alloc, t)
}

/// Runs all milliseconds, and ends the loop.
fn run(alloc: Global, settings: LinkSettings, millis: u32) -> Result<LoopEnd, NoMemory>
    requires settings { IsLink settings }
    requires most { millis ≤ MOST_MILLIS }
    ensures sender { IfOk result (λ e. e.sender ≡ (looping settings millis).history) }
    ensures delivered { IfOk result (λ e. e.delivered ≡ bare (delivered settings (looping settings millis).events)) }
    ensures dropped { IfOk result (λ e. e.dropped ≡ bare (dropped settings (offers (looping settings millis).events))) }
    ensures inside { IfOk result (λ e. e.inside ≡ bare (held settings (looping settings millis).events)) }
    ensures reports { IfOk result (λ e. map view e.reports.items ≡ (looping settings millis).reports) }
    ensures read { OnOk result (All IsRead (looping settings millis).reports) }
{
    let mut looper = Looper::new(alloc, settings)?;
    for t in 0..millis {
        millisecond(&mut looper, alloc, t)?;
    }
    let inside = looper.link.take_out(alloc)?;
    looper.delivered.settle();
    looper.dropped.settle();
    looper.reports.settle();
    Ok(LoopEnd {
        sender: looper.sender,
        delivered: looper.delivered,
        dropped: looper.dropped,
        inside,
        reports: looper.reports,
    })
}

/// Runs a sender in a closed loop over a link with these settings for so many milliseconds.
///
/// In each millisecond these calls are made, in this order: at first a change of the settings; every 50 ms the
/// reports on what has arrived; every 20 ms an audio packet; thirty times a second a video frame at the target
/// rate; every 5 ms a pace, whose packets are offered to the link. A call that would find the journal full is
/// not made, and the run ends before it.
///
/// While no more packets were sent than `gcc_units::KEPT_PACKETS`, none is forgotten before it is reported: each
/// packet of which a report says that it was received is credited, once and with that arrival, and no other is.
///
/// The settings are in the ranges of a link, and there are 1 to `MOST_MILLIS` milliseconds. `NoMemory` tells
/// that memory ran out, and nothing else.
pub fn run_loop(alloc: Global, settings: LinkSettings, millis: u32) -> Result<LoopEnd, NoMemory>
    requires settings { IsLink settings }
    requires some { 1 ≤ millis }
    requires most { millis ≤ MOST_MILLIS }

    // It ends as the loop does after so many milliseconds.
    ensures sender { IfOk result (λ e. e.sender ≡ (looping settings millis).history) }
    ensures delivered { IfOk result (λ e. e.delivered ≡ bare (delivered settings (looping settings millis).events)) }
    ensures dropped { IfOk result (λ e. e.dropped ≡ bare (dropped settings (offers (looping settings millis).events))) }
    ensures inside { IfOk result (λ e. e.inside ≡ bare (held settings (looping settings millis).events)) }
    ensures reports { IfOk result (λ e. map view e.reports.items ≡ (looping settings millis).reports) }

    // Told by its calls: the history is legal, its reports are the spellings of these, and each packet that was
    // sent is delivered, dropped or inside, as the link has it, each once. While no more were sent than are kept, the
    // credits are just what these reports say was received.
    ensures closed { IfOk result (λ e. IsClosedLoop settings millis e.sender e.delivered.items e.inside.items e.dropped.items (map view e.reports.items)) }
{
    let end = run(alloc, settings, millis)?;
    Ok(end)
}
