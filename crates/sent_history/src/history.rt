//! The history of sent packets and of what reports said of them.

ghost use Rattle.std.specs.Prelude.{◌≡◌, ℕ, pos, neg_ℤ, ◌+◌, ◌-◌, ◌^◌, ◌<◌, ◌≤◌, ◌≤ℤ◌, ◌∷◌, ◌++◌, [], List, length, All, IfOk, OnOk, OnErr};
ghost use Rattle.gcc_units.specs.Listed.{bare};
ghost use Rattle.twcc_report.specs.Spelling.{view};
ghost use Rattle.sent_history.specs.Events.{Event, added, reported, packets};
ghost use Rattle.sent_history.specs.Crediting.{told, findings, judged, outstanding, ArrivesInRange, IsOfPacket};
ghost use Rattle.sent_history.specs.Kept.{StandsFor, TakesPacket, TakesReport, IsSentBy};

use crate::GREATEST_REFERENCE;
use crate::compact::{judge_runs, mark_runs};
use crate::finding::{FindingList, findings_of};
use crate::kept_slots::KeptSlots;
use crate::slot::{Outgoing, Slot};
use gcc_units::{Judged, MOST_STATUSES, NoMemory, unwrap24};
use std::alloc::Global;
use std::marker::Model;
use twcc_report::{CompactReport, Report};

/// The packets that were sent, numbered from 0 on, and what reports said of the last of them.
#[derive(Drop)]
pub struct History {
    slots: KeptSlots,
    sent: u64,
    reference: i64,
}

impl Model for History {
    ghost use Rattle.std.specs.Prelude.{◌≤◌, length};
    ghost use Rattle.sent_history.specs.Kept.{Kept};

    ghost Value = { Kept };

    ghost view = { λ h. record { sent = h.sent; slots = h.slots; reference = h.reference } };

    ghost invariant = { λ h. length h.slots ≤ h.sent };
}

impl History {
    /// The history of nothing sent. It takes the memory for all packets that are ever kept.
    pub fn new(alloc: Global) -> Result<Self, NoMemory>
        ensures { IfOk result (λ h. StandsFor h []) }
    {
        Ok(History {
            slots: KeptSlots::new(alloc)?,
            sent: 0,
            reference: 0,
        })
    }

    /// Adds a packet, and answers its number: the count of the packets before it.
    pub fn add(&mut self, packet: Outgoing) -> u64
        requires few { TakesPacket self.old }
        requires order { IsSentBy self.old packet.sent_at }
        ensures stands { (events : List Event) → StandsFor self.old events
            → StandsFor self.new (events ++ added packet ∷ []) }
        ensures number { (events : List Event) → StandsFor self.old events
            → result ≡ length (packets events) }
    {
        let number = self.sent;
        self.slots.push(Slot {
            packet,
            credited: false,
            missed: false,
        });
        self.sent += 1;
        number
    }

    /// How many packets were sent.
    pub fn sent(&self) -> u64
        ensures { (events : List Event) → StandsFor self.now events → result ≡ length (packets events) }
    {
        self.sent
    }

    /// How many packets are outstanding: among the last 32,768, and not credited.
    pub fn outstanding(&self) -> u32
        ensures { (events : List Event) → StandsFor self.now events → result ≡ outstanding events }
    {
        self.slots.uncredited()
    }

    /// What a report would tell of packets for the first time, in the order of its statuses.
    pub fn findings(&self, alloc: Global, report: &Report) -> Result<FindingList, NoMemory>
        requires room { TakesReport self.now }
        requires low { neg_ℤ GREATEST_REFERENCE ≤ℤ report.now.reference }
        requires high { report.now.reference ≤ℤ GREATEST_REFERENCE }
        requires few { length report.now.statuses.items ≤ MOST_STATUSES }
        ensures { IfOk result (λ list. (events : List Event) → StandsFor self.now events
            → list ≡ bare (findings (judged events (view report.now)))) }
    {
        let reference = unwrap24(self.reference, report.reference);
        let statuses = report.statuses.as_slice();
        let found = findings_of(
            alloc,
            &self.slots,
            self.sent,
            report.base,
            256 * reference,
            statuses,
        )?;
        Ok(found)
    }

    /// Judges the statuses of a report by what came before it, and credits the outstanding packets that it
    /// names received. At `NoMemory` the history is as before. The work goes with the report's runs, with the
    /// packets that a run of lost ones names and no report told of before, and with one step for 64 packets that
    /// are kept.
    pub fn credit(&mut self, alloc: Global, report: &CompactReport) -> Result<Judged, NoMemory>
        requires room { TakesReport self.old }
        requires low { neg_ℤ GREATEST_REFERENCE ≤ℤ report.now.reference }
        requires high { report.now.reference ≤ℤ GREATEST_REFERENCE }
        requires some { 1 ≤ length report.now.statuses }
        requires few { length report.now.statuses ≤ MOST_STATUSES }
        ensures stands { OnOk result ((events : List Event) → StandsFor self.old events
            → StandsFor self.new (events ++ reported report.now ∷ [])) }
        ensures judged { IfOk result (λ j. (events : List Event) → StandsFor self.old events
            → j ≡ told (judged events report.now)) }
        ensures sum { IfOk result (λ j. length j.received.items + j.missing + j.unknown + j.repeated
            ≡ length report.now.statuses) }

        // Each credit tells of the packet of its number.
        ensures packets { IfOk result (λ j. (events : List Event) → StandsFor self.old events
            → All (IsOfPacket (packets events)) j.received.items) }
        ensures arrivals { IfOk result (λ j. All ArrivesInRange j.received.items) }
        ensures unchanged { OnErr result (self.new ≡ self.old) }
    {
        let reference = unwrap24(self.reference, report.reference());
        let base = report.base();
        let runs = report.runs();
        let judged = judge_runs(alloc, &self.slots, self.sent, base, 256 * reference, runs)?;
        mark_runs(&mut self.slots, self.sent, base, runs);
        self.reference = reference;
        Ok(judged)
    }
}
