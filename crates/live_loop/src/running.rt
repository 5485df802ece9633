//! A run.

ghost use Rattle.std.specs.Prelude.{◌^◌, ◌≤◌, All, IfSome};
ghost use Rattle.live_loop.specs.declared.plan.TheConstants.{LEAST_LINE_RATE, GREATEST_LINE_RATE};
ghost use Rattle.live_loop.specs.Plans.{IsPlan, IsStep};

use crate::line::{Begun, Line, drain_time};
use crate::peer::{Peer, moment};
use crate::plan::{Plan, Step};
use crate::sampling::{SAMPLE_MILLIS, Samples};
use crate::steering::LoopFault;
use crate::way::{Manners, Way};
use gcc_units::{NoMemory, Rate};
use std::alloc::Global;

/// How many milliseconds after the first sender the second one begins.
pub const SECOND_AFTER: u32 = 500;

/// What was measured of a run.
#[derive(Drop)]
pub struct Measured {
    /// The samples of the senders, in their order.
    pub first: Samples,
    pub second: Option<Samples>,
    /// The rate of the line in each tenth of a second, in bit/s.
    pub rates: Vec<Rate>,
    /// How long the line would take for what it still has to send, at the end of each millisecond, in microseconds.
    pub drains: Vec<u64>,
}

/// A run under way.
#[derive(Drop)]
struct Run {
    line: Line,
    way: Way,
    first: Peer,
    second: Option<Peer>,
    rates: Vec<Rate>,
    drains: Vec<u64>,
}

/// The rate from this second on, where it changes then.
pub fn step_at(steps: &[Step], second: u32) -> Option<Rate>
    requires { All IsStep steps.now }
    ensures least { IfSome result (λ r. LEAST_LINE_RATE ≤ r) }
    ensures greatest { IfSome result (λ r. r ≤ GREATEST_LINE_RATE) }
{
    for step in steps {
        if step.at == second {
            return Some(step.rate);
        }
    }
    None
}

impl Run {
    fn new(alloc: Global, plan: &Plan) -> Result<Run, NoMemory>
        requires { IsPlan plan.now }
    {
        let manners = Manners {
            delay: plan.delay_micros(),
            loss: plan.loss,
            jitter: 1_000 * plan.jitter,
        };
        let second = if plan.two {
            Some(Peer::new(alloc, plan.control, true)?)
        } else {
            None
        };
        Ok(Run {
            line: Line::new(alloc, plan.rate, plan.queue_bytes()),
            way: Way::new(alloc, manners, plan.seed),
            first: Peer::new(alloc, plan.control, false)?,
            second,
            rates: Vec::new(alloc),
            drains: Vec::new(alloc),
        })
    }

    /// The line began to send a packet.
    fn note_start(&mut self, begun: &Begun) -> Result<(), NoMemory> {
        if !begun.packet.second {
            return self.first.note_start(begun);
        }
        match &mut self.second {
            Some(peer) => peer.note_start(begun),
            None => Ok(()),
        }
    }

    /// The line sends what it can begin with by now.
    fn carry(&mut self, t: u32) -> Result<(), NoMemory> {
        for _i in 0..self.line.waiting() {
            let Some(begun) = self.line.begin(moment(t)) else {
                return Ok(());
            };
            self.note_start(&begun)?;
            self.way.send(&begun)?;
        }
        Ok(())
    }

    /// What arrives by now goes to the receivers.
    fn arrive(&mut self, t: u32) -> Result<(), NoMemory> {
        for _i in 0..self.way.len() {
            let Some(coming) = self.way.arrive(moment(t)) else {
                return Ok(());
            };
            if !coming.packet.second {
                self.first.take(&coming)?;
            } else if let Some(peer) = &mut self.second {
                peer.take(&coming)?;
            }
        }
        Ok(())
    }

    /// What the senders do in a millisecond.
    fn send(&mut self, alloc: Global, delay: u64, t: u32) -> Result<(), LoopFault>
        requires { delay ≤ 2 ^ 24 }
    {
        self.first.millisecond(alloc, &mut self.line, t, t, delay)?;
        if t < SECOND_AFTER {
            return Ok(());
        }
        match &mut self.second {
            Some(peer) => peer.millisecond(alloc, &mut self.line, t, t - SECOND_AFTER, delay),
            None => Ok(()),
        }
    }

    /// Notes what the line still has to send.
    fn note_drain(&mut self, t: u32) -> Result<(), NoMemory> {
        let micros = drain_time(self.line.rate(), self.line.left(moment(t)));
        match self.drains.push(micros.min(u128::from(u64::MAX)) as u64) {
            Ok(()) => Ok(()),
            Err(_) => Err(NoMemory),
        }
    }

    /// A tenth of a second ends, in the last of its milliseconds.
    fn end_sample(&mut self, t: u32) -> Result<(), NoMemory> {
        if t % SAMPLE_MILLIS != SAMPLE_MILLIS - 1 {
            return Ok(());
        }
        if self.rates.push(self.line.rate()).is_err() {
            return Err(NoMemory);
        }
        let target = self.first.sender.target();
        self.first.samples.end_sample(target)?;
        match &mut self.second {
            Some(peer) => {
                let target = peer.sender.target();
                peer.samples.end_sample(target)
            }
            None => Ok(()),
        }
    }

    /// A millisecond.
    fn millisecond(&mut self, alloc: Global, plan: &Plan, t: u32) -> Result<(), LoopFault>
        requires { IsPlan plan.now }
    {
        self.carry(t)?;
        if t % 1_000 == 0
            && let Some(rate) = step_at(plan.steps.as_slice(), t / 1_000)
        {
            self.line.set_rate(rate);
        }
        self.arrive(t)?;
        self.send(alloc, plan.delay_micros(), t)?;
        self.note_drain(t)?;
        self.end_sample(t)?;
        Ok(())
    }
}

/// The samples of a sender, where there is one.
fn samples_of(peer: Option<Peer>) -> Option<Samples> {
    match peer {
        Some(peer) => Some(peer.samples),
        None => None,
    }
}

/// Runs one or two senders over a line for the seconds of a plan, and answers what was measured. Each millisecond
/// the line begins with what it can, what arrives goes to the receivers, and then each sender that has begun
/// hands over the reports that are back, its sources' packets and a pace.
pub fn run_live(alloc: Global, plan: &Plan) -> Result<Measured, LoopFault>
    requires { IsPlan plan.now }
{
    let mut run = Run::new(alloc, plan)?;
    for t in 0..plan.millis() {
        run.millisecond(alloc, plan, t)?;
    }
    let Run {
        first,
        second,
        rates,
        drains,
        ..
    } = run;
    Ok(Measured {
        first: first.samples,
        second: samples_of(second),
        rates,
        drains,
    })
}
