//! What a loop keeps, and how it makes a call.

ghost use Rattle.std.specs.Prelude.{◌≡◌, ◌+◌, ◌<◌, ◌&&◌, ◌∷◌, ◌++◌, [], true, false, not, nat_lt, length, if◌then◌else◌, IfOk, OnOk};
ghost use Rattle.gcc_units.specs.declared.limits.TheConstants.{MOST_ENTRIES};
ghost use Rattle.send_core.specs.History.{entry};
ghost use Rattle.send_core.specs.Reply.{reply};
ghost use Rattle.call_trace.specs.Making.{is_audio, is_video};
ghost use Rattle.link_path.specs.declared.link.LinkSettings.{LinkSettings};
ghost use Rattle.link_path.specs.KeptLink.{IsLink};
ghost use Rattle.link_loop.specs.Looping.{Looping, asked, unused};
ghost use Rattle.link_loop.specs.Kept.{IsAt, IsFit, IsSound};

use gcc_units::{Class, MOST_ENTRIES, NoMemory, Sequence};
use link_path::{ArrivalList, Link, LinkSettings, NumberList, Receiver, ReportList};
use send_core::{ApplyFault, Call, Reply, Sender};
use std::alloc::Global;

/// A loop under way.
#[derive(Drop)]
pub struct Looper {
    pub sender: Sender,
    pub link: Link,
    pub receiver: Receiver,
    /// What went to the receiver.
    pub delivered: ArrivalList,
    /// The numbers of the packets that the link dropped.
    pub dropped: NumberList,
    /// The reports that were served.
    pub reports: ReportList,
    /// How many audio and video packets were made.
    pub audio: u32,
    pub video: u32,
    /// Whether a call found the journal full.
    pub over: bool,
}

impl Looper {
    /// A loop that has not begun.
    pub fn new(alloc: Global, settings: LinkSettings) -> Result<Looper, NoMemory>
        requires { IsLink settings }
        ensures at { IfOk result (λ l. IsAt l settings unused) }
        ensures sound { IfOk result IsSound }
    {
        Ok(Looper {
            sender: Sender::new(alloc)?,
            link: Link::new(alloc, settings),
            receiver: Receiver::new(alloc),
            delivered: Sequence::new(alloc),
            dropped: Sequence::new(alloc),
            reports: Sequence::new(alloc),
            audio: 0,
            video: 0,
            over: false,
        })
    }

    /// Whether a call can be made. Where the journal is full the loop is over from now on.
    pub fn can_ask(&mut self) -> bool
        ensures value { result ≡ (not self.old.over && nat_lt (length self.old.sender) MOST_ENTRIES) }
        ensures open { result ≡ true → self.new ≡ self.old }
        ensures over { result ≡ false → self.new ≡ record self.old { over = true } }
    {
        if self.over || self.sender.journal().len() >= MOST_ENTRIES {
            self.over = true;
            return false;
        }
        true
    }

    /// Counts a call that is made.
    fn count(&mut self, call: &Call)
        requires audio { self.old.audio < u32.MAX }
        requires video { self.old.video < u32.MAX }
        ensures { self.new ≡ record self.old {
          audio = self.old.audio + (if is_audio call.now then 1 else 0);
          video = self.old.video + (if is_video call.now then 1 else 0);
        } }
    {
        match call {
            Call::Enqueue { class, .. } => match class {
                Class::Audio => self.audio += 1,
                Class::Video => self.video += 1,
                Class::Retransmission | Class::Fec => {}
            },
            Call::Report { .. } | Call::Pace { .. } | Call::Configure { .. } => {}
        }
    }

    /// Serves a call, for which the journal has room.
    pub fn serve(&mut self, alloc: Global, caller: u32, call: Call) -> Result<Reply, NoMemory>
        requires room { length self.old.sender < MOST_ENTRIES }
        requires sound { IsSound self.old }
        requires fit { IsFit call }
        ensures reply { IfOk result (λ r. r ≡ reply self.old.sender call) }
        ensures grown { OnOk result (self.new ≡ record self.old {
          sender = self.old.sender ++ entry caller call (reply self.old.sender call) ∷ [];
          audio = self.old.audio + (if is_audio call then 1 else 0);
          video = self.old.video + (if is_video call then 1 else 0);
        }) }
        ensures sound { OnOk result (IsSound self.new) }
    {
        self.count(&call);
        match self.sender.apply(alloc, caller, call) {
            Ok(answer) => Ok(answer.reply),
            Err((ApplyFault::NoMemory, _)) => Err(NoMemory),
            Err((ApplyFault::JournalFull, _)) => unreachable!(),
        }
    }

    /// Makes a call, unless the loop is over.
    pub fn ask(&mut self, alloc: Global, caller: u32, call: Call) -> Result<(), NoMemory>
        requires sound { IsSound self.old }
        requires fit { IsFit call }
        ensures at { OnOk result ((s : LinkSettings) (m : Looping) → IsAt self.old s m → IsAt self.new s (asked caller call m)) }
        ensures sound { OnOk result (IsSound self.new) }
    {
        if !self.can_ask() {
            return Ok(());
        }
        self.serve(alloc, caller, call)?;
        Ok(())
    }
}
