//! A receiver, and its reports on their way back.

ghost use Rattle.std.specs.Prelude.{All};
ghost use Rattle.live_loop.specs.Hearings.{HasSpelling};

use crate::way::Coming;
use gcc_units::{Bytes, Moment, NoMemory};
use link_path::{Arrival, GREATEST_TAKEN, Receiver};
use std::alloc::Global;
use std::collections::VecDeque;
use std::marker::Model;
use twcc_report::{Report, write_report};

/// The bytes of a report that comes back.
#[derive(Drop)]
pub struct Feedback {
    pub bytes: Bytes,
    /// When it is back.
    pub at: Moment,
}

/// A receiver that takes packets in rising order, and its reports on their way back.
#[derive(Drop)]
pub struct Hearing {
    receiver: Receiver,
    next: u64,
    back: VecDeque<Feedback>,
}

/// Sends reports, which are back at this moment.
fn send_all(
    back: &mut VecDeque<Feedback>,
    alloc: Global,
    reports: &[Report],
    at: Moment,
) -> Result<(), NoMemory>
    requires { All HasSpelling reports.now }
{
    for report in reports {
        let bytes = write_report(alloc, report)?;
        if back.push_back(Feedback { bytes, at }).is_err() {
            return Err(NoMemory);
        }
    }
    Ok(())
}

impl Model for Hearing {
    ghost use Rattle.live_loop.specs.Hearings.{KeptHearing, IsKeptHearing};

    ghost Value = { KeptHearing };

    ghost view = { λ h. record { receiver = h.receiver; back = h.back.items } };

    ghost invariant = { λ h. IsKeptHearing h.receiver h.next };
}

impl Hearing {
    ghost use Rattle.std.specs.Prelude.{◌≡◌, length, OnOk};
    ghost use Rattle.live_loop.specs.Hearings.{taken};

    /// The receiver that took nothing.
    pub fn new(alloc: Global) -> Self {
        Hearing {
            receiver: Receiver::new(alloc),
            next: 0,
            back: VecDeque::new(alloc),
        }
    }

    /// Takes a packet, unless one with its number or a later one was taken.
    pub fn take(&mut self, coming: &Coming) -> Result<(), NoMemory>
        ensures { OnOk result (self.new ≡ taken self.old coming.now) }
    {
        let number = coming.packet.number;
        if number < self.next || number == u64::MAX || coming.at > GREATEST_TAKEN {
            return Ok(());
        }
        self.receiver.take(&Arrival {
            number,
            at: coming.at,
        })?;
        self.next = number + 1;
        Ok(())
    }

    /// Sends the reports on what was not reported before; they are back at this moment.
    pub fn report(&mut self, alloc: Global, at: Moment) -> Result<(), NoMemory> {
        let reports = self.receiver.reports(alloc)?;
        send_all(&mut self.back, alloc, reports.as_slice(), at)?;
        Ok(())
    }

    /// How many reports are on their way back.
    pub fn len(&self) -> usize
        ensures { result ≡ length self.now.back }
    {
        self.back.len()
    }

    /// The next report that is back at this moment or before.
    pub fn hear(&mut self, now: Moment) -> Option<Feedback> {
        let first = self.back.get(0)?;
        if first.at > now {
            return None;
        }
        self.back.pop_front()
    }
}
