//! Traces as text.

ghost use Rattle.std.specs.Prelude.{◌≡◌, ◌<◌, ◌++◌, Ok, map, length, codes, IfOk, OnOk, string_bytes};
ghost use Rattle.std.specs.List.{All, flat_map};
ghost use Rattle.hex.specs.Hex.{encode_lower, decode_of};
ghost use Rattle.serde_json.specs.Written.{compact_text};
ghost use Rattle.gcc_units.specs.Listed.{bare};
ghost use Rattle.call_trace.specs.declared.trace.Action.TheVariants.{Ask, Look};
ghost use Rattle.send_core.specs.declared.call.Call.TheVariants.{Enqueue, Pace, Report, Configure};
ghost use Rattle.call_trace.specs.Fields.{IsLineText, fed};
ghost use Rattle.call_trace.specs.Plain.{plain, settled, HasBytes, Fits};
ghost use Rattle.call_trace.specs.Settings.{SpellsChange};
ghost use Rattle.call_trace.specs.Grammar.{letter_of, IsTrace};
ghost use Rattle.call_trace.specs.Written.{change_json, call_text, action_text, line_text, IsSpelled, trace_text};

use crate::change_value::change_value;
use crate::trace::{Action, Line, Trace};
use gcc_units::{Bytes, Class, NoMemory};
use send_core::{Call, Change};
use std::alloc::Global;

/// The letter of a class.
fn letter(class: Class) -> &'static str
    ensures { result.now ≡ letter_of class }
{
    match class {
        Class::Audio => "a",
        Class::Retransmission => "r",
        Class::Video => "v",
        Class::Fec => "f",
    }
}

/// The bytes in hex.
fn hex_text(alloc: Global, bytes: &[u8]) -> Result<String, NoMemory>
    ensures written { IfOk result (λ s. string_bytes s ≡ encode_lower bytes.now) }
    ensures reads_back { OnOk result (decode_of (encode_lower bytes.now) ≡ Ok bytes.now) }
{
    Ok(hex::encode(alloc, bytes)?)
}

/// The JSON text of a change.
fn change_text(alloc: Global, change: &Change) -> Result<String, NoMemory>
    ensures written { IfOk result (λ s. string_bytes s ≡ compact_text (change_json change.now)) }
    ensures spells { OnOk result (SpellsChange (compact_text (change_json change.now)) change.now) }
    ensures feedless { OnOk result (IsLineText (compact_text (change_json change.now))) }
{
    let value = change_value(alloc, change)?;
    let text = value.to_string(alloc)?;
    Ok(text)
}

/// `E ACTOR AT CLASS HEX`
fn enqueue_text(
    alloc: Global,
    actor: u32,
    at: u64,
    class: Class,
    wire: &Bytes,
) -> Result<String, NoMemory>
    requires { 0 < length wire.now.items }
    ensures written { IfOk result (λ s. string_bytes s ≡ call_text actor (Enqueue at class wire.now)) }
    ensures spells { OnOk result (IsSpelled actor (Ask (Enqueue at class wire.now))) }
{
    let letter = letter(class);
    let hex = hex_text(alloc, wire.as_slice())?;
    Ok(format!(in alloc; "E {actor} {at} {letter} {hex}")?)
}

/// `P ACTOR AT`
fn pace_text(alloc: Global, actor: u32, at: u64) -> Result<String, NoMemory>
    ensures written { IfOk result (λ s. string_bytes s ≡ call_text actor (Pace at)) }
    ensures spells { OnOk result (IsSpelled actor (Ask (Pace at))) }
{
    Ok(format!(in alloc; "P {actor} {at}")?)
}

/// `R ACTOR AT HEX`
fn report_text(alloc: Global, actor: u32, at: u64, bytes: &Bytes) -> Result<String, NoMemory>
    requires { 0 < length bytes.now.items }
    ensures written { IfOk result (λ s. string_bytes s ≡ call_text actor (Report at bytes.now)) }
    ensures spells { OnOk result (IsSpelled actor (Ask (Report at bytes.now))) }
{
    let hex = hex_text(alloc, bytes.as_slice())?;
    Ok(format!(in alloc; "R {actor} {at} {hex}")?)
}

/// `C ACTOR AT JSON`
fn configure_text(alloc: Global, actor: u32, at: u64, change: &Change) -> Result<String, NoMemory>
    ensures written { IfOk result (λ s. string_bytes s ≡ call_text actor (Configure at change.now)) }
    ensures spells { OnOk result (IsSpelled actor (Ask (Configure at change.now))) }
{
    let json = change_text(alloc, change)?;
    Ok(format!(in alloc; "C {actor} {at} {json}")?)
}

/// `G ACTOR`
fn glance_text(alloc: Global, actor: u32) -> Result<String, NoMemory>
    ensures written { IfOk result (λ s. string_bytes s ≡ action_text actor Look) }
    ensures spells { OnOk result (IsSpelled actor Look) }
{
    Ok(format!(in alloc; "G {actor}")?)
}

/// A line of action, without its line feed.
fn line_text(alloc: Global, line: &Line) -> Result<String, NoMemory>
    requires { HasBytes line.now.action }
    ensures written { IfOk result (λ s. string_bytes s ≡ line_text line.now) }
    ensures spells { OnOk result (IsSpelled line.now.actor line.now.action) }
{
    let actor = line.actor;
    match &line.action {
        Action::Ask(Call::Enqueue { at, class, wire }) => {
            enqueue_text(alloc, actor, *at, *class, wire)
        }
        Action::Ask(Call::Pace { at }) => pace_text(alloc, actor, *at),
        Action::Ask(Call::Report { at, bytes }) => report_text(alloc, actor, *at, bytes),
        Action::Ask(Call::Configure { at, change }) => {
            configure_text(alloc, actor, *at, change.get())
        }
        Action::Look => glance_text(alloc, actor),
    }
}

/// Puts lines of action at the end of a text, each with its line feed.
fn push_lines(alloc: Global, text: &mut String, lines: &[Line]) -> Result<(), NoMemory>
    requires { All (λ line. HasBytes line.action) lines.now }
    ensures written { OnOk result (string_bytes text.new ≡ string_bytes text.old ++ flat_map fed (map line_text lines.now)) }
    ensures spells { OnOk result (All (λ line. IsSpelled line.actor line.action) lines.now) }
{
    for line in lines {
        text.push_str(line_text(alloc, line)?.as_str())?;
        text.push_str("\n")?;
    }
    Ok(())
}

/// The bytes of a text, where they are few enough for a list.
fn bytes_of(text: String) -> Result<Bytes, NoMemory>
    ensures { IfOk result (λ bytes. bytes ≡ bare (string_bytes text)) }
{
    if text.len() > u32::MAX as usize {
        return Err(NoMemory);
    }
    Ok(Bytes::from_vec(text.into_bytes()))
}

/// The text of a trace, as `read_trace` reads it: packets and reports in hex with small letters,
/// and of a change the keys that are there, compact and in rising order. An empty list of streams
/// or ids counts as not there.
///
/// `NoMemory` comes where memory runs out, or where the text is longer than a list may be.
pub fn write_trace(alloc: Global, trace: &Trace) -> Result<Bytes, NoMemory>
    requires { Fits (plain trace.now) }
    ensures written { IfOk result (λ bytes. bytes ≡ bare (trace_text (plain trace.now))) }
    // It spells the trace, with each of its lists settled.
    ensures spells { IfOk result (λ bytes. IsTrace bytes.items (settled (plain trace.now))) }
{
    let actors = trace.actors;
    let mut text = format!(in alloc; "gcc-trace 1 {actors}\n")?;
    push_lines(alloc, &mut text, trace.lines.as_slice())?;
    text.push_str("end\n")?;
    let bytes = bytes_of(text)?;
    Ok(bytes)
}
