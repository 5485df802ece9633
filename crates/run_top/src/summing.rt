//! The summary of a made trace that was replayed.

ghost use Rattle.std.specs.Prelude.{◌≡◌, ℕ, ◌*◌, ◌<◌, ◌≤◌, ◌++◌, [], Option, List, length, take, drop, IfOk};
ghost use Rattle.std.specs.String.{string_bytes};
ghost use Rattle.sent_history.specs.Crediting.{account, outstanding};
ghost use Rattle.sent_history.specs.Balance.{expired};
ghost use Rattle.estimator.specs.Est.{estimate};
ghost use Rattle.send_core.specs.Estimates.{est};
ghost use Rattle.send_core.specs.History.{sent};
ghost use Rattle.send_core.specs.Levels.{rate, window};
ghost use Rattle.send_core.specs.Reply.{target};
ghost use Rattle.send_core.specs.Reports.{events};
ghost use Rattle.send_laws.specs.Spans.{spent_bytes, last_media, integral};
ghost use Rattle.call_trace.specs.Making.{made};
ghost use Rattle.call_trace.specs.Ordered.{ordered};
ghost use Rattle.run_top.specs.declared.words.Command.TheVariants as command;
ghost use Rattle.run_top.specs.Summary.{sent_line, kinds_line, kinds_of, balance_line, media_line, rates_line, summary};
ghost use Rattle.run_top.specs.Totals.{totals_of};
ghost use Rattle.run_top.specs.Served.{IsServed, streams};

use crate::replay::serve_lines;
use crate::status::Status;
use crate::told::estimates;
use crate::totals::{Totals, count_sent};
use crate::writing::write_text;
use call_trace::{made_traces_have_all_calls, make_trace};
use gcc_units::{MOST_LINES, NoMemory};
use run_io::Sink;
use send_core::Sender;
use send_laws::{balance, span_media};
use std::alloc::Global;

/// How many packets left, and their bytes.
fn sent_line(alloc: Global, totals: Totals) -> Result<String, NoMemory>
    ensures { IfOk result (λ s. string_bytes s ≡ sent_line totals) }
{
    let packets = totals.packets;
    let bytes = totals.bytes;
    Ok(format!(in alloc; "sent {packets} {bytes}\n")?)
}

/// How many packets of each kind left.
fn kinds_line(
    alloc: Global,
    audio: u64,
    media: u64,
    probe: u64,
    padding: u64,
) -> Result<String, NoMemory>
    ensures { IfOk result (λ s. string_bytes s ≡ kinds_line audio media probe padding) }
{
    Ok(format!(in alloc; "kinds audio {audio} media {media} probe {probe} padding {padding}\n")?)
}

fn kinds_text(alloc: Global, totals: &Totals) -> Result<String, NoMemory>
    ensures { IfOk result (λ s. string_bytes s ≡ kinds_of totals.now) }
{
    kinds_line(
        alloc,
        totals.audio,
        totals.media,
        totals.probe,
        totals.padding,
    )
}

/// What became of the packets.
fn balance_line(
    alloc: Global,
    credited: u64,
    outstanding: u64,
    expired: u64,
) -> Result<String, NoMemory>
    ensures { IfOk result (λ s. string_bytes s ≡ balance_line credited outstanding expired) }
{
    Ok(format!(in alloc; "credited {credited} outstanding {outstanding} expired {expired}\n")?)
}

fn balance_text(alloc: Global, sender: &Sender) -> Result<String, NoMemory>
    ensures { IfOk result (λ s. string_bytes s ≡ balance_line (length (account (events sender.now)).credited) (outstanding (events sender.now)) (expired (events sender.now))) }
{
    let counts = balance(sender);
    balance_line(alloc, counts.credited, counts.outstanding, counts.expired)
}

/// Paced media with the probes before the last of it, and what bounds it.
fn media_line(
    alloc: Global,
    bytes: u64,
    integral: u128,
    window: u128,
    last: u32,
) -> Result<String, NoMemory>
    ensures { IfOk result (λ s. string_bytes s ≡ media_line bytes integral window last) }
{
    Ok(format!(in alloc; "media {bytes} integral {integral} window {window} last {last}\n")?)
}

/// Paced media from the first entry to the last, with the probes before the last of it.
fn media_text(alloc: Global, sender: &Sender) -> Result<String, NoMemory>
    requires { 0 < length sender.now }
    ensures { IfOk result (λ s. string_bytes s ≡ media_line (spent_bytes (sent sender.now)) (integral (take 1 sender.now) (drop 1 sender.now)) (rate [] * window []) (last_media (sent sender.now))) }
{
    let span = span_media(sender, 0, sender.journal().len() - 1);
    let integral = span.integral as u128;
    let window = span.window as u128;
    media_line(alloc, span.bytes, integral, window, span.last)
}

/// The rates after the last entry.
pub fn rates_text(alloc: Global, sender: &Sender) -> Result<String, NoMemory>
    ensures { IfOk result (λ s. string_bytes s ≡ rates_line (target sender.now) (estimate (est sender.now)).delay (estimate (est sender.now)).loss) }
{
    let target = sender.target();
    let (delay, loss) = estimates(sender.journal());
    Ok(format!(in alloc; "target {target} delay {delay} loss {loss}\n")?)
}

/// The three lines on the packets.
fn packets_text(alloc: Global, sender: &Sender) -> Result<String, NoMemory>
    ensures { IfOk result (λ s. string_bytes s ≡ sent_line (totals_of (sent sender.now)) ++ kinds_of (totals_of (sent sender.now))) }
{
    let totals = count_sent(sender.journal());
    let mut text = sent_line(alloc, totals)?;
    text.push_str(kinds_text(alloc, &totals)?.as_str())?;
    Ok(text)
}

/// The six lines.
#[tactic(auto, unfolding(crate::specs::Summary::summary))]
fn summary(alloc: Global, sender: &Sender) -> Result<String, NoMemory>
    requires { 0 < length sender.now }
    ensures { IfOk result (λ s. string_bytes s ≡ summary sender.now) }
{
    let entries = sender.journal().len();
    let mut text = format!(in alloc; "calls {entries}\n")?;
    text.push_str(packets_text(alloc, sender)?.as_str())?;
    text.push_str(balance_text(alloc, sender)?.as_str())?;
    text.push_str(media_text(alloc, sender)?.as_str())?;
    text.push_str(rates_text(alloc, sender)?.as_str())?;
    Ok(text)
}

/// The sender that has served a made trace of one actor.
fn made_sender(alloc: Global, seed: u64, calls: u32) -> Result<Sender, NoMemory>
    requires some { 1 ≤ calls }
    requires few { calls ≤ MOST_LINES }
    ensures { IfOk result (λ sender. sender ≡ ordered (made seed calls 1).lines) }
{
    let trace = make_trace(alloc, seed, calls, 1)?;
    let (sender, _seen) = serve_lines(alloc, trace.lines)?;
    Ok(sender)
}

/// The summary of a made trace of one actor.
fn made_summary(alloc: Global, seed: u64, calls: u32) -> Result<String, NoMemory>
    requires some { 1 ≤ calls }
    requires few { calls ≤ MOST_LINES }
    ensures { IfOk result (λ s. string_bytes s ≡ summary (ordered (made seed calls 1).lines)) }
{
    let sender = made_sender(alloc, seed, calls)?;
    made_traces_have_all_calls();
    let text = summary(alloc, &sender)?;
    Ok(text)
}

/// Makes a trace of so many calls of one actor, replays it, and writes the summary.
pub fn run_demo<K: Sink>(alloc: Global, seed: u64, calls: u32, sink: &mut K) -> Status
    requires some { 1 ≤ calls }
    requires few { calls ≤ MOST_LINES }
    ensures { (left : Option (List ℕ)) (faults : ℕ) → IsServed (command.Demo seed calls) result (streams left faults (K.written sink.old) (K.faults sink.old)) (streams left faults (K.written sink.new) (K.faults sink.new)) }
{
    match made_summary(alloc, seed, calls) {
        Ok(text) => write_text(sink, text.as_bytes(), Status::Done),
        Err(NoMemory) => Status::NoMemory,
    }
}
