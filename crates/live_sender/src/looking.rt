//! What a live sender shows of its history.

ghost use Rattle.std.specs.Prelude.{◌≡◌, ◌≢◌, ℕ, ◌≤◌, ◌<◌, List, [], IfOk, IfSome, IfNone, length, sum_by, slice_get, option_map};
ghost use Rattle.pace_queues.specs.Waiting.{accepted_at_of};

use crate::live::LiveSender;
use crate::sums::SentTotals;
use gcc_units::{
    Bytes, GREATEST_MOMENT, GREATEST_RATE, MOST_STREAMS, Moment, NoMemory, Rate, ShareList,
};
use pace_queues::Ticket;
use probe_clusters::NextProbe;
use send_core::{Rates, rates_of, shares_of};
use std::alloc::Global;

/// The packets that wait.
#[derive(Clone, Copy, PartialEq, Eq, Debug)]
pub struct Queue {
    /// How many wait.
    pub packets: u32,
    /// Their bytes.
    pub bytes: u64,
    /// When the oldest of them was accepted, in microseconds; none where nothing waits.
    pub oldest: Option<Moment>,
    /// The time in which the rate in force sends them all, in microseconds and rounded up; none where
    /// that rate is 0.
    pub drain_time: Option<u64>,
}

/// How many packets and reports there were.
#[derive(Clone, Copy, PartialEq, Eq, Debug)]
pub struct Counters {
    /// The accepted packets.
    pub accepted: u32,
    /// Those of them that wait.
    pub waiting: u32,
    /// The packets that were sent, padding among them.
    pub sent: u64,
    /// The same by what they were sent as, with their bytes.
    pub sent_as: SentTotals,
    /// The sent packets that a report credited.
    pub credited: u64,
    /// The sent packets that a report said were missing, each counted once. A later report may credit
    /// it all the same.
    pub missing: u64,
    /// Those of the sent packets that a report may still credit.
    pub outstanding: u32,
    /// Those that no report credited, and none can any more.
    pub expired: u64,
    /// The reports that were judged.
    pub judged: u32,
    /// The calls that were refused, at most `MOST_COUNTED`.
    pub refused: u64,
}

impl LiveSender {
    ghost use Rattle.gcc_units.specs.Listed.{bare};
    ghost use Rattle.allocator.specs.Shares.{shares};
    ghost use Rattle.sent_history.specs.Crediting.{outstanding};
    ghost use Rattle.sent_history.specs.Events.{reports};
    ghost use Rattle.sent_history.specs.Balance.{expired};
    ghost use Rattle.pace_queues.specs.Waiting.{size_of};
    ghost use Rattle.pacer.specs.Force.{sending_time};
    ghost use Rattle.probe_clusters.specs.Clusters.{next_probe};
    ghost use Rattle.probe_clusters.specs.Deeds.{clusters};
    ghost use Rattle.send_core.specs.declared.call.Call.TheVariants as call;
    ghost use Rattle.send_core.specs.declared.call.Entry.{Entry};
    ghost use Rattle.send_core.specs.Estimates.{est, rates_of, target};
    ghost use Rattle.send_core.specs.History.{accepted, now, sent, sent_by, waiting};
    ghost use Rattle.send_core.specs.Levels.{rate};
    ghost use Rattle.send_core.specs.Reply.{reply};
    ghost use Rattle.send_core.specs.Reports.{cluster_deeds, events};
    ghost use Rattle.send_core.specs.Settings.{settings, streams};
    ghost use Rattle.live_sender.specs.Live.{StandsFor};
    ghost use Rattle.live_sender.specs.Sums.{credited, missing, refused, totals_of};

    /// The moment of the last call, in microseconds.
    pub fn moment(&self) -> Moment
        ensures { (history : List Entry) → StandsFor self.now history → result ≡ now history }
    {
        self.parts().pacer.moment()
    }

    /// How many packets were sent, padding among them.
    pub fn packets_sent(&self) -> u64
        ensures { (history : List Entry) → StandsFor self.now history → result ≡ length (sent history) }
    {
        self.parts().history.sent()
    }

    /// The target rate, in bit/s.
    pub fn target(&self) -> Rate
        ensures target { (history : List Entry) → StandsFor self.now history → result ≡ target history }
        ensures greatest { result ≤ GREATEST_RATE }
    {
        self.parts().estimator.current().target
    }

    /// The rates after the last call, in bit/s.
    pub fn rates(&self) -> Rates
        ensures { (history : List Entry) → StandsFor self.now history → result ≡ rates_of (est history) (settings history).pacing_percent }
    {
        let estimate = self.parts().estimator.current();
        rates_of(&estimate, self.parts().settings.pacing_percent)
    }

    /// The streams' shares of the target rate, in rising order of their ids.
    pub fn shares(&self, alloc: Global) -> Result<ShareList, NoMemory>
        ensures { IfOk result (λ s. (history : List Entry) → StandsFor self.now history → s ≡ bare (shares (target history) (streams history))) }
    {
        let mut room = ShareList::new(alloc);
        room.reserve(MOST_STREAMS)?;
        Ok(shares_of(self.target(), &self.parts().streams, room))
    }

    /// The first moment, from that of the last call on and in microseconds, at which a pace would send
    /// something if no other call came before it. `None` where none up to `GREATEST_MOMENT` would; a pace
    /// at a later moment is refused.
    pub fn next_send(&self) -> Option<Moment>
        ensures from_on { IfSome result (λ m. (history : List Entry) → StandsFor self.now history → now history ≤ m) }
        ensures in_time { IfSome result (λ m. m ≤ GREATEST_MOMENT) }
        ensures sends { IfSome result (λ m. (history : List Entry) → StandsFor self.now history → sent_by (reply history (call.Pace m)) ≢ []) }
        ensures none_before { IfSome result (λ m. (history : List Entry) (t : ℕ) → StandsFor self.now history → now history ≤ t → t < m → sent_by (reply history (call.Pace t)) ≡ []) }
        ensures none { IfNone result ((history : List Entry) (t : ℕ) → StandsFor self.now history → sent_by (reply history (call.Pace t)) ≡ []) }
    {
        let parts = self.parts();
        parts.pacer.next_send(&parts.clusters)
    }

    /// The probe cluster that packets are sent for next: of those that wait the one with the least id. `None`
    /// exactly where none waits.
    pub fn next_probe(&self) -> Option<NextProbe>
        ensures { (history : List Entry) → StandsFor self.now history → result ≡ next_probe (clusters (cluster_deeds history)) }
    {
        self.parts().clusters.next_probe()
    }

    /// The packets that wait.
    pub fn queue(&self) -> Queue
        ensures packets { (history : List Entry) → StandsFor self.now history → result.packets ≡ length (waiting history) }
        ensures bytes { (history : List Entry) → StandsFor self.now history → result.bytes ≡ sum_by size_of (waiting history) }
        ensures oldest { (history : List Entry) → StandsFor self.now history → result.oldest ≡ option_map accepted_at_of (slice_get (waiting history) 0) }
        ensures drain_time { (history : List Entry) → StandsFor self.now history → result.drain_time ≡ sending_time (rate history) (waiting history) }
    {
        let pacer = &self.parts().pacer;
        Queue {
            packets: pacer.waiting(),
            bytes: pacer.bytes(),
            oldest: accepted_at(pacer.first()),
            drain_time: pacer.sending_time(),
        }
    }

    /// How many packets and reports there were.
    pub fn counters(&self) -> Counters
        ensures accepted { (history : List Entry) → StandsFor self.now history → result.accepted ≡ length (accepted history) }
        ensures waiting { (history : List Entry) → StandsFor self.now history → result.waiting ≡ length (waiting history) }
        ensures sent { (history : List Entry) → StandsFor self.now history → result.sent ≡ length (sent history) }
        ensures sent_as { (history : List Entry) → StandsFor self.now history → result.sent_as ≡ totals_of (sent history) }
        ensures credited { (history : List Entry) → StandsFor self.now history → result.credited ≡ credited history }
        ensures missing { (history : List Entry) → StandsFor self.now history → result.missing ≡ missing history }
        ensures outstanding { (history : List Entry) → StandsFor self.now history → result.outstanding ≡ outstanding (events history) }
        ensures expired { (history : List Entry) → StandsFor self.now history → result.expired ≡ expired (events history) }
        ensures judged { (history : List Entry) → StandsFor self.now history → result.judged ≡ length (reports (events history)) }
        ensures refused { (history : List Entry) → StandsFor self.now history → result.refused ≡ refused history }
    {
        let parts = self.parts();
        let sums = self.sums();
        let sent = parts.history.sent();
        let outstanding = parts.history.outstanding();
        Counters {
            accepted: parts.accepted,
            waiting: parts.pacer.waiting(),
            sent,
            sent_as: sums.sent,
            credited: sums.credited,
            missing: sums.missing,
            outstanding,
            expired: sent - sums.credited - u64::from(outstanding),
            judged: self.judged(),
            refused: sums.refused,
        }
    }
}

// When a packet was accepted, where there is one.
fn accepted_at(ticket: Option<Ticket>) -> Option<Moment>
    ensures { result ≡ option_map accepted_at_of ticket }
{
    match ticket {
        Some(ticket) => Some(ticket.accepted_at),
        None => None,
    }
}
