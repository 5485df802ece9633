//! Made traces on senders without a journal.

ghost use Rattle.std.specs.Prelude.{◌≡◌, ◌+◌, ◌^◌, ◌≤◌, List, [], ◌∷◌, ◌++◌, IfOk, OnOk, length, sum_by};
ghost use Rattle.std.specs.String.{string_bytes};
ghost use Rattle.live_sender.specs.Live.{StandsFor};
ghost use Rattle.send_core.specs.declared.call.Entry.{Entry};
ghost use Rattle.send_core.specs.History.{sent_by};
ghost use Rattle.call_trace.specs.declared.trace.Line.{Line};
ghost use Rattle.call_trace.specs.Making.{made};
ghost use Rattle.call_trace.specs.Ordered.{ordered};
ghost use Rattle.gcc_live.specs.Summing.{size_of, bytes_of, sum_text, sum_line, lines_of};

use crate::serving::serve;
use crate::stop::Stop;
use call_trace::{Action, Line, LineList, make_trace};
use gcc_units::{MOST_LINES, NoMemory, Rate};
use live_sender::LiveSender;
use pacer::Sent;
use run_top::Status;
use send_core::Reply;
use std::alloc::Global;

/// The bytes of these packets.
fn bytes_of(records: &[Sent]) -> u128
    requires { length records.now ≤ 2 ^ 32 }
    ensures bytes { result ≡ sum_by size_of records.now }
    ensures few { result ≤ 2 ^ 64 }
{
    let mut bytes: u128 = 0;
    for sent in records {
        bytes += u128::from(sent.size);
    }
    bytes
}

/// The bytes that left with a reply.
fn bytes_by(reply: &Reply) -> u128
    ensures bytes { result ≡ sum_by size_of (sent_by reply.now) }
    ensures few { result ≤ 2 ^ 64 }
{
    match reply {
        Reply::Paced { sent, .. } => bytes_of(sent.as_slice()),
        _ => 0,
    }
}

/// Serves the call of a line, if it has one, and answers the bytes that left.
fn serve_line(alloc: Global, sender: &mut LiveSender, line: Line) -> Result<u128, Stop>
    ensures stands { OnOk result ((lines : List Line) → StandsFor sender.old (ordered lines) → StandsFor sender.new (ordered (lines ++ line ∷ []))) }
    ensures bytes { IfOk result (λ bytes. (lines : List Line) → StandsFor sender.old (ordered lines) → bytes_of (ordered (lines ++ line ∷ [])) ≡ bytes_of (ordered lines) + bytes) }
    ensures few { IfOk result (λ bytes. bytes ≤ 2 ^ 64) }
{
    let Line { action, .. } = line;
    match action {
        Action::Ask(call) => {
            let reply = serve(alloc, sender, call)?;
            Ok(bytes_by(&reply))
        }
        Action::Look => Ok(0),
    }
}

/// A sender that served a trace, and the bytes that left.
#[derive(Drop)]
struct Served {
    sender: LiveSender,
    bytes: u128,
}

/// Serves the calls of a trace on a new sender.
fn serve_all(alloc: Global, lines: LineList) -> Result<Served, Stop>
    requires { length lines.items ≤ MOST_LINES }
    ensures stands { IfOk result (λ served. StandsFor served.sender (ordered lines.items)) }
    ensures bytes { IfOk result (λ served. served.bytes ≡ bytes_of (ordered lines.items)) }
{
    let mut sender = LiveSender::new(alloc)?;
    let mut bytes: u128 = 0;
    for line in lines.into_vec() {
        let left = serve_line(alloc, &mut sender, line)?;
        bytes += left;
    }
    Ok(Served { sender, bytes })
}

/// Appends the line of a sender.
fn push_sum(
    text: &mut String,
    calls: u32,
    packets: u64,
    bytes: u128,
    target: Rate,
) -> Result<(), NoMemory>
    ensures { OnOk result (string_bytes text.new ≡ string_bytes text.old ++ sum_text calls packets bytes target) }
{
    Ok(write!(
        text,
        "calls {calls} packets {packets} bytes {bytes} target {target}\n"
    )?)
}

/// Serves a made trace on a sender, and appends its line.
fn run_one(alloc: Global, text: &mut String, calls: u32, seed: u64) -> Result<LiveSender, Stop>
    requires some { 1 ≤ calls }
    requires few { calls ≤ MOST_LINES }
    ensures { OnOk result (string_bytes text.new ≡ string_bytes text.old ++ sum_line calls (ordered (made seed calls 1).lines)) }
{
    let trace = make_trace(alloc, seed, calls, 1)?;
    let served = serve_all(alloc, trace.lines)?;
    let packets = served.sender.packets_sent();
    let target = served.sender.target();
    push_sum(text, calls, packets, served.bytes, target)?;
    Ok(served.sender)
}

/// Serves made traces on senders of their own, which all stay until the end, and tells for each how
/// many packets and bytes left, and its target. The calls are 1 to `MOST_LINES`, or it is `Usage`.
pub fn run_made(alloc: Global, senders: u32, calls: u32, seed: u64) -> Result<String, Stop>
    ensures { IfOk result (λ text. string_bytes text ≡ lines_of senders calls seed) }
{
    if calls == 0 || calls > MOST_LINES {
        return Err(Stop::Ended(Status::Usage));
    }
    let mut text = String::new(alloc);
    let mut kept: Vec<LiveSender> = Vec::new(alloc);
    for k in 0..senders {
        let sender = run_one(alloc, &mut text, calls, seed.wrapping_add(u64::from(k)))?;
        if kept.push(sender).is_err() {
            return Err(Stop::Ended(Status::NoMemory));
        }
    }
    Ok(text)
}
