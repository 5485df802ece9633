//! The sender of a loop.

use allocator::StreamList;
use gcc_units::{Bytes, Class, GREATEST_RATE, IdList, Moment, NoMemory, Rate};
use live_sender::LiveFault;
use pacer::SentList;
use send_core::{Answer, Change, Reply};
use std::alloc::Global;
use steered_sender::{Control, SteeredSender};

/// What a sender's estimate begins with, in bit/s (`kDefaultStartBitrateBps` of libwebrtc).
pub const START: Rate = 300_000;

/// Why a run ended early.
#[derive(Clone, Copy, PartialEq, Eq, Debug)]
pub enum LoopFault {
    /// A sender was given as many packets or reports as it takes.
    Exhausted,
    /// Memory ran out.
    NoMemory,
}

impl From<NoMemory> for LoopFault {
    ghost use Rattle.std.specs.Prelude.{◌≡◌};
    ghost use Rattle.live_loop.specs.declared.steering.LoopFault.TheVariants as fault;

    ghost from_gives = { λ _ made. made ≡ fault.NoMemory };

    fn from(_fault: NoMemory) -> LoopFault {
        LoopFault::NoMemory
    }
}

impl From<LiveFault> for LoopFault {
    ghost from_gives = { λ _ made. Unit {0} };

    fn from(fault: LiveFault) -> LoopFault {
        match fault {
            LiveFault::Exhausted => LoopFault::Exhausted,
            LiveFault::NoMemory => LoopFault::NoMemory,
        }
    }
}

/// The change that a sender begins with: the start of its estimate, and no greatest one but that of all senders.
pub fn opening(alloc: Global) -> Change {
    Change {
        streams: StreamList::new(alloc),
        removed: IdList::new(alloc),
        start: Some(START),
        min: None,
        max: Some(GREATEST_RATE),
        pacing_percent: None,
        window: None,
        padding_rate: None,
        paced_audio: None,
        extension_id: None,
        probe: None,
    }
}

/// A sender, whichever control its target comes from.
#[derive(Drop)]
pub struct Steering {
    sender: SteeredSender,
}

impl Steering {
    ghost use Rattle.std.specs.Prelude.{◌≤◌};
    ghost use Rattle.gcc_units.specs.declared.limits.TheConstants.{GREATEST_RATE};
    ghost use Rattle.steered_sender.specs.Standing.{IsControl};

    pub fn new(alloc: Global, control: Control) -> Result<Steering, NoMemory>
        requires { IsControl control }
    {
        Ok(Steering {
            sender: SteeredSender::new(alloc, control)?,
        })
    }

    /// The change that it begins with.
    pub fn open(&mut self, alloc: Global, now: Moment) -> Result<(), LoopFault> {
        self.sender.configure(alloc, now, &opening(alloc))?;
        Ok(())
    }

    /// A packet is to be sent.
    pub fn enqueue(
        &mut self,
        alloc: Global,
        now: Moment,
        class: Class,
        wire: Bytes,
    ) -> Result<(), LoopFault> {
        match self.sender.enqueue(alloc, now, class, wire) {
            Ok(_) => Ok(()),
            Err((fault, _)) => Err(LoopFault::from(fault)),
        }
    }

    /// What may leave now.
    pub fn pace(&mut self, alloc: Global, now: Moment) -> Result<SentList, LoopFault> {
        let Answer { reply, .. } = self.sender.pace(alloc, now)?;
        match reply {
            Reply::Paced { sent, .. } => Ok(sent),
            _ => Ok(SentList::new(alloc)),
        }
    }

    /// A report came.
    pub fn report(&mut self, alloc: Global, now: Moment, bytes: &Bytes) -> Result<(), LoopFault> {
        self.sender.report(alloc, now, bytes)?;
        Ok(())
    }

    /// The target rate, in bit/s.
    pub fn target(&self) -> Rate
        ensures { result ≤ GREATEST_RATE }
    {
        self.sender.sender().target()
    }

    /// When the next packet may leave.
    pub fn next_send(&self) -> Option<Moment> {
        self.sender.sender().next_send()
    }
}
