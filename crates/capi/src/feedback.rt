//! Feedback as a network hands it over.

ghost use Rattle.std.specs.Prelude.{◌≡◌, ◌≤◌, ◌++◌, ◌∷◌, ℕ, None, List, [], IfOk, IfErr, OnOk, OnErr, drop, take, length, map, filter, if◌then◌else◌};
ghost use Rattle.gcc_units.specs.Listed.{bare};
ghost use Rattle.rtcp_compound.specs.Compound.{ArePackets, FailsAt, is_feedback, part_of};
ghost use Rattle.send_core.specs.declared.call.Call.TheVariants as call;
ghost use Rattle.send_core.specs.declared.call.Entry.{Entry};
ghost use Rattle.send_core.specs.Reply.{reply};
ghost use Rattle.send_core.specs.Reports.{findings_by};
ghost use Rattle.live_sender.specs.Replies.{is_judged};
ghost use Rattle.steered_sender.specs.Standing.{Kept, StandsFor, IsBehind, began_at, served};
ghost use Rattle.capi.specs.Serving.{Stays, with_call};
ghost use Rattle.capi.specs.Hearing.{refusal_of, first_of, findings_told, AreHeard, IfCompound, Hears};
ghost use Rattle.capi.specs.Outcomes.{Finds};

use crate::fault::{Fault, fault_of};
use crate::sender::{MOST_BYTES, Sender, copied};
use gcc_units::Bytes;
use rtcp_compound::{Part, PartList, ReadCompound, feedback_parts};
use send_core::{Cause, Reply};
use sent_history::{Finding, FindingList};
use std::alloc::Global;
use steered_sender::{Heard as Steered, SteeredSender};

/// What came of the reports of a compound packet.
#[derive(Clone, Copy, PartialEq, Eq, Debug)]
pub struct Heard {
    /// Why the first report that was refused was refused.
    pub refused: Option<Cause>,
    /// Why a report and those behind it were not served.
    pub stopped: Option<Fault>,
}

// The bytes from a place on.
#[tactic(auto, using(crate::proofs::Hearing::drop_all))]
fn behind(bytes: &[u8], start: usize) -> &[u8]
    ensures { result.now ≡ drop start bytes.now }
{
    if start >= bytes.len() {
        return &[];
    }
    &bytes[start..]
}

// The first bytes, so many.
#[tactic(auto, using(crate::proofs::Hearing::take_all))]
fn front(bytes: &[u8], len: usize) -> &[u8]
    ensures { result.now ≡ take len bytes.now }
{
    if len >= bytes.len() {
        return bytes;
    }
    &bytes[..len]
}

// The bytes of a part.
#[tactic(auto, using(crate::proofs::Hearing::part_within))]
fn part_bytes<'a>(bytes: &'a [u8], part: &Part) -> &'a [u8]
    ensures part { result.now ≡ part_of bytes.now part.now }
    ensures within { length result.now ≤ length bytes.now }
{
    front(behind(bytes, part.start as usize), part.len as usize)
}

// Why a reply refuses its call.
fn refusal_of(reply: &Reply) -> Option<Cause>
    ensures { result ≡ refusal_of reply.now }
{
    match reply {
        Reply::Refused { cause, .. } => Some(*cause),
        _ => None,
    }
}

// The first of two, if there is one.
fn first_of(first: Option<Cause>, second: Option<Cause>) -> Option<Cause>
    ensures { result ≡ first_of first second }
{
    match first {
        Some(cause) => Some(cause),
        None => second,
    }
}

// The reports of a compound packet.
fn parts_of(alloc: Global, rtcp: &[u8]) -> Result<PartList, Fault>
    requires { length rtcp.now ≤ MOST_BYTES }
    ensures found { IfOk result (λ parts. (packets : List (List ℕ)) × ArePackets packets rtcp.now × (map (part_of rtcp.now) parts.items ≡ filter is_feedback packets)) }
    ensures place { IfErr result (λ e. IfCompound e (FailsAt rtcp.now)) }
{
    match feedback_parts(alloc, rtcp) {
        Ok(parts) => Ok(parts),
        Err(ReadCompound::NoPacket(place)) => Err(Fault::Compound(place)),
        Err(ReadCompound::NoMemory) => Err(Fault::NoMemory),
    }
}

// Whether a report was judged.
fn is_judged(reply: &Reply) -> bool
    ensures { result ≡ is_judged reply.now }
{
    match reply {
        Reply::Credited { .. } => true,
        _ => false,
    }
}

// What a report will tell of packets.
fn found_by(steered: &SteeredSender, alloc: Global, report: &Bytes) -> Result<FindingList, Fault>
    ensures { IfOk result (λ list. (history : List Entry) → StandsFor steered.now history → list ≡ bare (findings_by (served steered.now history) report.now.items)) }
{
    match steered.findings(alloc, report) {
        Ok(found) => Ok(found),
        Err(fault) => Err(fault_of(fault)),
    }
}

// Sees to room for so many more.
fn reserve(findings: &mut FindingList, more: u32) -> Result<(), Fault>
    ensures items { findings.new.items ≡ findings.old.items }
    ensures room { OnOk result (more ≤ findings.new.spare) }
{
    match findings.reserve(more) {
        Ok(()) => Ok(()),
        Err(_) => Err(Fault::NoMemory),
    }
}

// Puts them at the end.
fn append(findings: &mut FindingList, more: &[Finding])
    requires { length more.now ≤ findings.old.spare }
    ensures { findings.new.items ≡ findings.old.items ++ more.now }
{
    for finding in more {
        findings.put(*finding);
    }
}

// Puts them at the end, where a report was judged.
fn append_if(judged: bool, findings: &mut FindingList, more: &[Finding])
    requires { length more.now ≤ findings.old.spare }
    ensures { findings.new.items ≡ (if judged then findings.old.items ++ more.now else findings.old.items) }
{
    if judged {
        append(findings, more);
    }
}

impl Sender {
    // Serves one report, and says why it was refused, if it was. On `Err` nothing has changed but what the
    // control asked for.
    fn hear_one(&mut self, alloc: Global, at: u64, report: &[u8]) -> Result<Option<Cause>, Fault>
        requires { length report.now ≤ MOST_BYTES }
        ensures refusal { IfOk result (λ r. (history : List Entry) → StandsFor self.old.steered history → r ≡ refusal_of (reply (served self.old.steered history) (call.Report at (bare report.now)))) }
        ensures stands { OnOk result ((history : List Entry) (caller : ℕ) → StandsFor self.old.steered history → IsBehind self.new.steered (with_call (served self.old.steered history) caller (call.Report at (bare report.now)))) }
        ensures findings { OnOk result ((history : List Entry) → StandsFor self.old.steered history
            → self.new.findings ≡ self.old.findings ++ findings_told (served self.old.steered history) report.now (reply (served self.old.steered history) (call.Report at (bare report.now)))) }
        ensures kept { self.new.kept ≡ self.old.kept }
        ensures control { began_at self.new.steered.steering ≡ began_at self.old.steered.steering }
        ensures err { OnErr result (Stays self.old self.new) }
    {
        let bytes = copied(alloc, report)?;
        let found = found_by(&self.steered, alloc, &bytes)?;
        reserve(&mut self.findings, found.len())?;
        match self.steered.report(alloc, at, &bytes) {
            Ok(Steered { reply, .. }) => {
                append_if(is_judged(&reply), &mut self.findings, found.as_slice());
                Ok(refusal_of(&reply))
            }
            Err(fault) => Err(fault_of(fault)),
        }
    }

    // Serves one report more.
    fn hear_next(&mut self, alloc: Global, at: u64, heard: &mut Heard, report: &[u8])
        requires size { length report.now ≤ MOST_BYTES }
        requires going { heard.old.stopped ≡ None }
        ensures heard { (first : Kept) (reports : List (List ℕ)) → AreHeard first self.old.steered self.old.findings at heard.old reports → AreHeard first self.new.steered self.new.findings at heard.new (reports ++ report.now ∷ []) }
        ensures kept { self.new.kept ≡ self.old.kept }
    {
        match self.hear_one(alloc, at, report) {
            Ok(refusal) => heard.refused = first_of(heard.refused, refusal),
            Err(fault) => heard.stopped = Some(fault),
        }
    }

    // Serves one report more, unless an earlier one was not served.
    fn hear(&mut self, alloc: Global, at: u64, heard: &mut Heard, report: &[u8])
        requires { length report.now ≤ MOST_BYTES }
        ensures heard { (first : Kept) (reports : List (List ℕ)) → AreHeard first self.old.steered self.old.findings at heard.old reports → AreHeard first self.new.steered self.new.findings at heard.new (reports ++ report.now ∷ []) }
        ensures kept { self.new.kept ≡ self.old.kept }
    {
        match heard.stopped {
            Some(_fault) => (),
            None => self.hear_next(alloc, at, heard, report),
        }
    }

    // Serves the reports in their order.
    fn hear_parts(&mut self, alloc: Global, at: u64, rtcp: &[u8], parts: PartList) -> Heard
        requires size { length rtcp.now ≤ MOST_BYTES }
        requires none { self.old.findings ≡ [] }
        ensures heard { AreHeard self.old.steered self.new.steered self.new.findings at result (map (part_of rtcp.now) parts.items) }
        ensures kept { self.new.kept ≡ self.old.kept }
    {
        let mut heard = Heard {
            refused: None,
            stopped: None,
        };
        for part in parts.into_vec() {
            self.hear(alloc, at, &mut heard, part_bytes(rtcp, &part));
        }
        heard
    }

    /// RTCP came, compound or of reduced size: each transport-wide report in it is served, in their
    /// order, and others are passed over. On `Err` nothing has changed.
    pub fn feedback(&mut self, alloc: Global, at: u64, rtcp: &[u8]) -> Result<Heard, Fault>
        ensures { Hears self.old self.new at rtcp.now result }
    {
        if rtcp.len() > MOST_BYTES {
            return Err(Fault::BadSize);
        }
        let parts = parts_of(alloc, rtcp)?;
        self.forget(alloc);
        Ok(self.hear_parts(alloc, at, rtcp, parts))
    }

    // What the last feedback told goes.
    fn forget(&mut self, alloc: Global)
        ensures steered { self.new.steered ≡ self.old.steered }
        ensures kept { self.new.kept ≡ self.old.kept }
        ensures findings { self.new.findings ≡ [] }
    {
        self.findings = FindingList::new(alloc);
        self.told = 0;
    }

    /// What the last feedback told of the next packet, credited or missing for the first time. Each is handed
    /// out once, in the order of the reports and their statuses; those that are left when the next feedback
    /// is served go.
    pub fn next_result(&mut self) -> Option<Finding>
        ensures { Finds self.old self.new result }
    {
        if self.told >= self.findings.len() {
            return None;
        }
        let finding = *self.findings.get(self.told)?;
        self.told += 1;
        Some(finding)
    }
}
