//! Changes of the settings as C hands them in.

ghost use Rattle.std.specs.Prelude.{◌≡◌, ◌≤◌, ◌<◌, ◌^◌, ◌==◌, ℕ, true, false, List, IfOk, IfErr, OnOk, map, length};
ghost use Rattle.gcc_units.specs.Listed.{bare};
ghost use Rattle.capi.specs.declared.fault.Fault.TheVariants as fault;
ghost use Rattle.send_core.specs.declared.call.Call.TheVariants as call;
ghost use Rattle.send_core.specs.declared.call.Entry.{Entry};
ghost use Rattle.send_core.specs.Reply.{reply};
ghost use Rattle.live_sender.specs.Live.{is_exhausted};
ghost use Rattle.steered_sender.specs.Standing.{StandsFor, served};
ghost use Rattle.capi.specs.Codes.{IfExhausted, is_served};
ghost use Rattle.capi.specs.Serving.{Serves, Stays};
ghost use Rattle.capi.specs.Changing.{named, yes_of, stream_of, change_of, answer_of, Configures};

use crate::fault::{Fault, fault_of};
use crate::sender::Sender;
use allocator::{Stream, StreamList};
use gcc_units::IdList;
use send_core::{Change, Reply};
use std::alloc::Global;

/// A mask below this names no setting that there isn't.
pub const MOST_NAMED: u32 = 512;

/// The greatest number of streams or ids that a call takes.
pub const MOST_GIVEN: usize = 65_535;

/// Settings, of which those count that the mask names.
#[repr(C)]
#[derive(Clone, Copy)]
pub struct Settings {
    /// 1 start, 2 min, 4 max, 8 pacing percent, 16 window, 32 padding rate, 64 paced audio, 128
    /// extension id, 256 probe.
    pub named: u32,
    /// Whether audio is held back by the budget: 0 is no.
    pub paced_audio: u32,
    /// What both estimates are put to, in bit/s.
    pub start: u64,
    /// The least estimate, in bit/s.
    pub min: u64,
    /// The greatest estimate, in bit/s.
    pub max: u64,
    /// The pacing rate in percent of the target rate.
    pub pacing_percent: u64,
    /// The window of both budgets, in microseconds.
    pub window: u64,
    /// In bit/s.
    pub padding_rate: u64,
    /// The ID of the extension element that holds the transport-wide number.
    pub extension_id: u64,
    /// The rate of one more probe cluster, in bit/s.
    pub probe: u64,
}

/// A stream that is set.
#[repr(C)]
#[derive(Clone, Copy)]
pub struct StreamGiven {
    pub id: u32,
    /// 1 to 1000.
    pub weight: u32,
    /// The least rate it can be served with, in bit/s.
    pub min: u64,
    /// The greatest rate it can use, in bit/s.
    pub max: u64,
    /// Whether it is served even where its minimum does not fit the target: 0 is no.
    pub enforced: u32,
}

// The value, if the mask names it by this bit.
fn named(mask: u32, bit: u32, value: u64) -> Option<u64>
    requires { 1 ≤ bit }
    ensures { result ≡ named mask bit value }
{
    if mask / bit % 2 == 1 {
        Some(value)
    } else {
        None
    }
}

// The same of a value that is yes or no.
fn named_yes(mask: u32, bit: u32, value: u32) -> Option<bool>
    requires { 1 ≤ bit }
    ensures { result ≡ named mask bit (yes_of value) }
{
    if mask / bit % 2 == 1 {
        Some(value > 0)
    } else {
        None
    }
}

fn stream_of(given: &StreamGiven) -> Stream
    ensures { result ≡ stream_of given.now }
{
    Stream {
        id: given.id,
        min: given.min,
        max: given.max,
        weight: given.weight,
        enforced: given.enforced > 0,
    }
}

fn streams_of(alloc: Global, given: &[StreamGiven]) -> Result<StreamList, Fault>
    ensures streams { IfOk result (λ streams. streams.items ≡ map stream_of given.now) }
    ensures err { IfErr result (λ e. e ≡ fault.NoMemory) }
{
    let mut streams = StreamList::new(alloc);
    for stream in given {
        let Ok(()) = streams.push(stream_of(stream)) else {
            return Err(Fault::NoMemory);
        };
    }
    Ok(streams)
}

fn ids_of(alloc: Global, removed: &[u32]) -> Result<IdList, Fault>
    requires { length removed.now ≤ MOST_GIVEN }
    ensures ids { IfOk result (λ ids. ids ≡ bare removed.now) }
    ensures err { IfErr result (λ e. e ≡ fault.NoMemory) }
{
    match Vec::from_slice(alloc, removed) {
        Ok(copy) => Ok(IdList::from_vec(copy)),
        Err(_) => Err(Fault::NoMemory),
    }
}

// The change that is asked for.
fn change_of(
    alloc: Global,
    settings: &Settings,
    streams: &[StreamGiven],
    removed: &[u32],
) -> Result<Change, Fault>
    requires { length removed.now ≤ MOST_GIVEN }
    ensures change { IfOk result (λ change. change ≡ change_of settings.now streams.now removed.now) }
    ensures err { IfErr result (λ e. e ≡ fault.NoMemory) }
{
    let mut set = streams_of(alloc, streams)?;
    set.settle();
    let mask = settings.named;
    Ok(Change {
        streams: set,
        removed: ids_of(alloc, removed)?,
        start: named(mask, 1, settings.start),
        min: named(mask, 2, settings.min),
        max: named(mask, 4, settings.max),
        pacing_percent: named(mask, 8, settings.pacing_percent),
        window: named(mask, 16, settings.window),
        padding_rate: named(mask, 32, settings.padding_rate),
        paced_audio: named_yes(mask, 64, settings.paced_audio),
        extension_id: named(mask, 128, settings.extension_id),
        probe: named(mask, 256, settings.probe),
    })
}

// Whether the change was made, or why it was refused.
fn answer_of(reply: &Reply) -> Result<(), Fault>
    ensures { result ≡ answer_of reply.now }
{
    match reply {
        Reply::Refused { cause, .. } => Err(Fault::Refused(*cause)),
        _ => Ok(()),
    }
}

impl Sender {
    // A change is served.
    #[tactic(auto, using(crate::proofs::Causes::exhausted_by, crate::proofs::Causes::answer_told))]
    fn serve_change(&mut self, alloc: Global, at: u64, change: &Change) -> Result<(), Fault>
        ensures reply { is_served result ≡ true → (history : List Entry) → StandsFor self.old.steered history → result ≡ answer_of (reply (served self.old.steered history) (call.Configure at change.now)) }
        ensures stands { is_served result ≡ true → Serves self.old.steered self.new.steered (call.Configure at change.now) }
        ensures kept { self.new.kept ≡ self.old.kept }
        ensures findings { self.new.findings ≡ self.old.findings }
        ensures unserved { is_served result ≡ false → Stays self.old self.new }
        ensures exhausted { IfErr result (λ e. IfExhausted e ((history : List Entry) → StandsFor self.old.steered history → is_exhausted history ≡ true)) }
    {
        let reply = match self.steered.configure(alloc, at, change) {
            Ok(reply) => reply,
            Err(fault) => return Err(fault_of(fault)),
        };
        answer_of(&reply)
    }

    /// Settings are changed: those that the mask names, and the streams. Where the call is no entry
    /// of the history, nothing has changed, but that what the control asked for may have been served.
    pub fn configure(
        &mut self,
        alloc: Global,
        at: u64,
        settings: &Settings,
        streams: &[StreamGiven],
        removed: &[u32],
    ) -> Result<(), Fault>
        ensures { Configures self.old self.new at settings.now streams.now removed.now result }
    {
        if settings.named >= MOST_NAMED {
            return Err(Fault::BadMask);
        }
        if streams.len() > MOST_GIVEN || removed.len() > MOST_GIVEN {
            return Err(Fault::BadSize);
        }
        let change = change_of(alloc, settings, streams, removed)?;
        self.serve_change(alloc, at, &change)
    }
}
