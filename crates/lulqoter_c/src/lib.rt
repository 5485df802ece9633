//! The C library: each call takes a handle, and its number tells what came of it. `lulqoter.h` has
//! the calls as C sees them.
#![tactic(auto)]

ghost use Rattle.std.specs.Prelude.{◌≡◌, ℕ, ◌≢◌, ◌⊎◌, pos, negsuc, Option, Some, None, Result, IfOk, IfErr, IfSome, MatchOption, List, []};
ghost use Rattle.steered_sender.specs.Standing.{IsControl, StandsFor};
ghost use Rattle.capi.specs.declared.fault.Fault.{Fault};
ghost use Rattle.capi.specs.declared.popping.Popped.{Popped};
ghost use Rattle.capi.specs.declared.fault.Fault.TheVariants as fault;
ghost use Rattle.capi.specs.declared.feedback.Heard.{Heard};
ghost use Rattle.capi.specs.declared.looking.ProbeTold.{ProbeTold};
ghost use Rattle.capi.specs.declared.looking.ShareTold.{ShareTold};
ghost use Rattle.send_core.specs.declared.call.Entry.{Entry};
ghost use Rattle.sent_history.specs.declared.finding.Finding.{Finding};
ghost use Rattle.capi.specs.Changing.{Configures};
ghost use Rattle.capi.specs.Controls.{control_named};
ghost use Rattle.capi.specs.Hearing.{Hears};
ghost use Rattle.capi.specs.Looking.{IsNextTime, rates_after, queue_after, stats_after, share_after, probe_after};
ghost use Rattle.capi.specs.Outcomes.{Enqueues, Pops, code_in, told_in, popped_code, size_in, info_in, heard_code, place_in, share_code, share_in, found_code, found_told, probe_code, probe_in, Finds, moment_code, moment_in};
ghost use Rattle.capi.specs.Stamping.{Places, Stamps};
ghost use Rattle.lulqoter_c.specs.Holds.{HoldsOne, IsNew};

mod handle;

use capi::{
    Fault, Info, ProbeTold, QueueTold, RatesTold, ResultTold, Sender, Settings, ShareTold,
    StatsTold, StreamGiven, control_named, place_in, stamp, tell_done, tell_found, tell_heard,
    tell_index, tell_moment, tell_popped, tell_probe, tell_share,
};
use handle::Handle;
use std::alloc::Global;
use std::mem::replace;
use steered_sender::Control;

/// What a header must have been written for: the number of this interface.
const ABI: u32 = 4;

/// The version: 100 times the major number, and the minor one.
const VERSION: u32 = 5;

// Takes the sender out of a handle, if there is one.
fn take(alloc: Global, sender: &mut Handle) -> Option<Box<Sender>>
    ensures taken { MatchOption result (sender.old.held ≡ None) (λ b. sender.old.held ≡ Some b.value) }
    ensures left { sender.new.held ≡ None }
{
    replace(sender, Handle::empty(alloc)).into_box()
}

// A new sender on the heap.
fn boxed(alloc: Global, control: Control) -> Result<Box<Sender>, Fault>
    requires { IsControl control }
    ensures new { IfOk result (λ b. IsNew b.value control) }
    ensures err { IfErr result (λ e. e ≡ fault.NoMemory) }
{
    match Box::new(alloc, Sender::new(alloc, control)?) {
        Ok(held) => Ok(held),
        Err(_) => Err(Fault::NoMemory),
    }
}

/// Puts a new sender into a handle that has none, which the control of this number steers: 0 the level
/// of the one-way delay, which begins at this rate in bit/s, or at 300,000 where it is 0; 1 the two
/// estimates of the draft, which take no heed of the rate. 0, or -2 where the handle has a sender, -11
/// where there is no such control or rate, or -3 where memory ran out. Where it is not 0 nothing has
/// changed.
#[unsafe(no_mangle)]
pub extern "C" fn lulq_sender_new(
    alloc: Global,
    sender: &mut Handle,
    control: u32,
    start: u64,
) -> i32
    ensures open { IfSome sender.old.held (λ s. (result ≡ negsuc 1) × (sender.new.held ≡ Some s)) }
    ensures closed { sender.old.held ≡ None → MatchOption (control_named control start) (result ≡ negsuc 10) (λ c. (result ≡ pos 0) ⊎ (result ≡ negsuc 2)) }
    ensures new { result ≡ pos 0 → IfSome (control_named control start) (λ c. HoldsOne sender.new.held (λ s. IsNew s c)) }
    ensures err { result ≢ pos 0 → sender.new.held ≡ sender.old.held }
{
    if let Some(held) = take(alloc, sender) {
        *sender = Handle::of(held);
        return Fault::AlreadyOpen.code();
    }
    let Some(control) = control_named(control, start) else {
        return Fault::BadControl.code();
    };
    match boxed(alloc, control) {
        Ok(held) => {
            *sender = Handle::of(held);
            0
        }
        Err(fault) => fault.code(),
    }
}

/// Frees the sender of a handle, if there is one.
#[unsafe(no_mangle)]
pub extern "C" fn lulq_sender_free(alloc: Global, sender: &mut Handle)
    ensures { sender.new.held ≡ None }
{
    *sender = Handle::empty(alloc);
}

/// Hands in a packet to be sent, and writes its index. 0, or the number of the cause.
#[unsafe(no_mangle)]
pub extern "C" fn lulq_sender_enqueue(
    alloc: Global,
    sender: &mut Handle,
    now: u64,
    class: u32,
    packet: &[u8],
    index: &mut u32,
) -> i32
    ensures closed { sender.old.held ≡ None → (result ≡ negsuc 0) × (sender.new.held ≡ None) × (index.new ≡ index.old) }
    ensures served { IfSome sender.old.held (λ s. HoldsOne sender.new.held (λ t. (outcome : Result ℕ Fault) × Enqueues s t now class packet.now outcome × (result ≡ code_in outcome) × (index.new ≡ told_in index.old outcome))) }
{
    let Some(mut held) = take(alloc, sender) else {
        return Fault::NotOpen.code();
    };
    let outcome = held.enqueue(alloc, now, class, packet);
    *sender = Handle::of(held);
    tell_index(outcome, index)
}

/// Hands out the next packet that may leave now. 0 and the packet; 1 where nothing may leave; 2 and
/// the bytes of the next packet where the room is too small; or the number of the cause.
#[unsafe(no_mangle)]
pub extern "C" fn lulq_sender_pop(
    alloc: Global,
    sender: &mut Handle,
    now: u64,
    room: &mut [u8],
    size: &mut usize,
    info: &mut Info,
) -> i32
    ensures closed { sender.old.held ≡ None → (result ≡ negsuc 0) × (sender.new.held ≡ None) × (room.new ≡ room.old) × (size.new ≡ size.old) × (info.new ≡ info.old) }
    ensures served { IfSome sender.old.held (λ s. HoldsOne sender.new.held (λ t. (outcome : Result Popped Fault) × Pops s t now room.old room.new outcome × (result ≡ popped_code outcome) × (size.new ≡ size_in size.old outcome) × (info.new ≡ info_in info.old outcome))) }
{
    let Some(mut held) = take(alloc, sender) else {
        return Fault::NotOpen.code();
    };
    let outcome = held.pop(alloc, now, room);
    *sender = Handle::of(held);
    tell_popped(outcome, size, info)
}

/// Tells when to pop next. 0 and the moment; 1 where no moment has a packet; or -1 where there is no
/// sender.
#[unsafe(no_mangle)]
pub extern "C" fn lulq_sender_next_time(alloc: Global, sender: &mut Handle, at: &mut u64) -> i32
    ensures stays { sender.new.held ≡ sender.old.held }
    ensures closed { sender.old.held ≡ None → (result ≡ negsuc 0) × (at.new ≡ at.old) }
    ensures told { IfSome sender.old.held (λ s. (told : Option ℕ) × IsNextTime s told × (result ≡ moment_code told) × (at.new ≡ moment_in at.old told)) }
{
    let Some(held) = take(alloc, sender) else {
        return Fault::NotOpen.code();
    };
    let told = held.next_time();
    *sender = Handle::of(held);
    tell_moment(told, at)
}

/// Hands in an RTCP packet, compound or of reduced size: each transport-wide report in it is served.
/// 0, or the number of what stopped them, or else of the first refusal. Where bytes are left that
/// are no packet of RTCP, nothing is served, and their place is written.
#[unsafe(no_mangle)]
pub extern "C" fn lulq_sender_feedback(
    alloc: Global,
    sender: &mut Handle,
    now: u64,
    rtcp: &[u8],
    place: &mut u32,
) -> i32
    ensures closed { sender.old.held ≡ None → (result ≡ negsuc 0) × (sender.new.held ≡ None) × (place.new ≡ place.old) }
    ensures served { IfSome sender.old.held (λ s. HoldsOne sender.new.held (λ t. (outcome : Result Heard Fault) × Hears s t now rtcp.now outcome × (result ≡ heard_code outcome) × (place.new ≡ place_in place.old outcome))) }
{
    let Some(mut held) = take(alloc, sender) else {
        return Fault::NotOpen.code();
    };
    let outcome = held.feedback(alloc, now, rtcp);
    *sender = Handle::of(held);
    tell_heard(outcome, place)
}

/// Tells what the last feedback told of the next packet. 0 and the packet's number; 1 where all was told;
/// or -1 where there is no sender.
#[unsafe(no_mangle)]
pub extern "C" fn lulq_sender_next_result(
    alloc: Global,
    sender: &mut Handle,
    told: &mut ResultTold,
) -> i32
    ensures closed { sender.old.held ≡ None → (result ≡ negsuc 0) × (sender.new.held ≡ None) × (told.new ≡ told.old) }
    ensures served { IfSome sender.old.held (λ s. HoldsOne sender.new.held (λ t. (outcome : Option Finding) × Finds s t outcome × (result ≡ found_code outcome) × (told.new ≡ found_told told.old outcome))) }
{
    let Some(mut held) = take(alloc, sender) else {
        return Fault::NotOpen.code();
    };
    let outcome = held.next_result();
    *sender = Handle::of(held);
    tell_found(outcome, told)
}

/// Changes the settings that the mask names, and sets and removes streams. 0, or the number of the
/// cause.
#[unsafe(no_mangle)]
pub extern "C" fn lulq_sender_configure(
    alloc: Global,
    sender: &mut Handle,
    now: u64,
    settings: &Settings,
    streams: &[StreamGiven],
    removed: &[u32],
) -> i32
    ensures closed { sender.old.held ≡ None → (result ≡ negsuc 0) × (sender.new.held ≡ None) }
    ensures served { IfSome sender.old.held (λ s. HoldsOne sender.new.held (λ t. (outcome : Result (Unit {0}) Fault) × Configures s t now settings.now streams.now removed.now outcome × (result ≡ code_in outcome))) }
{
    let Some(mut held) = take(alloc, sender) else {
        return Fault::NotOpen.code();
    };
    let outcome = held.configure(alloc, now, settings, streams, removed);
    *sender = Handle::of(held);
    tell_done(outcome)
}

/// Writes the rates after the last call. 0, or -1 where there is no sender.
#[unsafe(no_mangle)]
pub extern "C" fn lulq_sender_rates(
    alloc: Global,
    sender: &mut Handle,
    rates: &mut RatesTold,
) -> i32
    ensures stays { sender.new.held ≡ sender.old.held }
    ensures closed { sender.old.held ≡ None → (result ≡ negsuc 0) × (rates.new ≡ rates.old) }
    ensures told { IfSome sender.old.held (λ s. (result ≡ pos 0) × ((history : List Entry) → StandsFor s.steered history → rates.new ≡ rates_after history)) }
{
    let Some(held) = take(alloc, sender) else {
        return Fault::NotOpen.code();
    };
    *rates = held.rates();
    *sender = Handle::of(held);
    0
}

/// Writes what waits. 0, or -1 where there is no sender.
#[unsafe(no_mangle)]
pub extern "C" fn lulq_sender_queue(
    alloc: Global,
    sender: &mut Handle,
    queue: &mut QueueTold,
) -> i32
    ensures stays { sender.new.held ≡ sender.old.held }
    ensures closed { sender.old.held ≡ None → (result ≡ negsuc 0) × (queue.new ≡ queue.old) }
    ensures told { IfSome sender.old.held (λ s. (result ≡ pos 0) × ((history : List Entry) → StandsFor s.steered history → queue.new ≡ queue_after history)) }
{
    let Some(held) = take(alloc, sender) else {
        return Fault::NotOpen.code();
    };
    *queue = held.queue();
    *sender = Handle::of(held);
    0
}

/// Writes the probe cluster that packets are sent for next. 0, or 1 where none waits, or -1 where there is
/// no sender.
#[unsafe(no_mangle)]
pub extern "C" fn lulq_sender_next_probe(
    alloc: Global,
    sender: &mut Handle,
    probe: &mut ProbeTold,
) -> i32
    ensures stays { sender.new.held ≡ sender.old.held }
    ensures closed { sender.old.held ≡ None → (result ≡ negsuc 0) × (probe.new ≡ probe.old) }
    ensures told { IfSome sender.old.held (λ s. (told : Option ProbeTold) × ((history : List Entry) → StandsFor s.steered history → told ≡ probe_after history) × (result ≡ probe_code told) × (probe.new ≡ probe_in probe.old told)) }
{
    let Some(held) = take(alloc, sender) else {
        return Fault::NotOpen.code();
    };
    let told = held.next_probe();
    *sender = Handle::of(held);
    tell_probe(told, probe)
}

/// Writes how many packets and reports there were. 0, or -1 where there is no sender.
#[unsafe(no_mangle)]
pub extern "C" fn lulq_sender_stats(
    alloc: Global,
    sender: &mut Handle,
    stats: &mut StatsTold,
) -> i32
    ensures stays { sender.new.held ≡ sender.old.held }
    ensures closed { sender.old.held ≡ None → (result ≡ negsuc 0) × (stats.new ≡ stats.old) }
    ensures told { IfSome sender.old.held (λ s. (result ≡ pos 0) × ((history : List Entry) → StandsFor s.steered history → stats.new ≡ stats_after history)) }
{
    let Some(held) = take(alloc, sender) else {
        return Fault::NotOpen.code();
    };
    *stats = held.stats();
    *sender = Handle::of(held);
    0
}

/// Writes the share of this place, counted from 0 in rising order of the streams' ids. 0, or 1 where
/// there is none, or the number of the cause.
#[unsafe(no_mangle)]
pub extern "C" fn lulq_sender_share(
    alloc: Global,
    sender: &mut Handle,
    k: u32,
    share: &mut ShareTold,
) -> i32
    ensures stays { sender.new.held ≡ sender.old.held }
    ensures closed { sender.old.held ≡ None → (result ≡ negsuc 0) × (share.new ≡ share.old) }
    ensures told { IfSome sender.old.held (λ s. (outcome : Result (Option ShareTold) Fault) × IfOk outcome (λ told. (history : List Entry) → StandsFor s.steered history → told ≡ share_after history k) × (result ≡ share_code outcome) × (share.new ≡ share_in share.old outcome)) }
{
    let Some(held) = take(alloc, sender) else {
        return Fault::NotOpen.code();
    };
    let outcome = held.share(alloc, k);
    *sender = Handle::of(held);
    tell_share(outcome, share)
}

/// Writes where the two bytes of the transport-wide number stand in a packet. 0, or the number of the
/// cause.
#[unsafe(no_mangle)]
pub extern "C" fn lulq_rtp_place(packet: &[u8], id: u32, place: &mut u32) -> i32
    ensures { (outcome : Result ℕ Fault) × Places packet.now id outcome × (result ≡ code_in outcome) × (place.new ≡ told_in place.old outcome) }
{
    tell_index(place_in(packet, id), place)
}

/// Stamps a packet in place with the lowest 16 bits of a number. 0, or the number of the cause.
#[unsafe(no_mangle)]
pub extern "C" fn lulq_rtp_stamp(packet: &mut [u8], id: u32, number: u64) -> i32
    ensures { (outcome : Result (Unit {0}) Fault) × Stamps packet.old packet.new id number outcome × (result ≡ code_in outcome) }
{
    tell_done(stamp(packet, id, number))
}

/// The number of this interface.
#[unsafe(no_mangle)]
pub extern "C" fn lulq_abi() -> u32
    ensures { result ≡ ABI }
{
    ABI
}

/// The version: 100 times the major number, and the minor one.
#[unsafe(no_mangle)]
pub extern "C" fn lulq_version() -> u32
    ensures { result ≡ VERSION }
{
    VERSION
}
