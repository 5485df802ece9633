//! The text of a whole history.

ghost use Rattle.std.specs.Prelude.{◌≡◌, ℕ, ◌+◌, ◌^◌, ◌<◌, ◌==◌, ◌++◌, [], length, unwrap_or, if◌then◌else◌, IfOk, OnOk};
ghost use Rattle.std.specs.BTreeMap.{get};
ghost use Rattle.std.specs.Ordering.{nat_cmp};
ghost use Rattle.std.specs.String.{string_bytes};
ghost use Rattle.std.specs.List.{flat_map};
ghost use Rattle.gcc_units.specs.Listed.{bare};
ghost use Rattle.send_core.specs.History.{sent};
ghost use Rattle.send_core.specs.Reply.{target};
ghost use Rattle.reply_text.specs.Text.{line_of, glance_lines, tail_line, text};

use crate::lines::{push_glance, push_line, sends_of};
use crate::seen::{Seen, SeenList};
use gcc_units::{Bytes, NoMemory, Rate};
use send_core::Journal;
use std::alloc::Global;
use std::collections::BTreeMap;

/// Appends the lines of all entries.
fn push_entries(text: &mut String, journal: &Journal) -> Result<(), NoMemory>
    ensures { OnOk result (string_bytes text.new ≡ string_bytes text.old ++ flat_map line_of journal.now.items) }
{
    for k in 0..journal.len() {
        let Some(entry) = journal.entry(k) else {
            unreachable!()
        };
        push_line(text, entry.caller, &entry.reply)?;
    }
    Ok(())
}

/// How many packets were sent in all.
fn count_sends(journal: &Journal) -> u64
    ensures { result ≡ length (sent journal.now.items) }
{
    let mut count = 0;
    for k in 0..journal.len() {
        let Some(entry) = journal.entry(k) else {
            unreachable!()
        };
        count += u64::from(sends_of(&entry.reply));
    }
    count
}

/// Counts one more glance of an actor, and answers how many there were.
fn count_glance(counts: &mut BTreeMap<u32, u64>, actor: u32) -> Result<u64, NoMemory>
    requires { unwrap_or (get nat_cmp counts.old actor) 0 < 2 ^ 63 }
    ensures number { IfOk result (λ k. k ≡ unwrap_or (get nat_cmp counts.old actor) 0) }
    ensures counted { OnOk result ((a : ℕ) → unwrap_or (get nat_cmp counts.new a) 0 ≡ unwrap_or (get nat_cmp counts.old a) 0 + (if actor == a then 1 else 0)) }
{
    let number = counts.get(&actor).copied().unwrap_or(0);
    if counts.insert(actor, number + 1).is_err() {
        return Err(NoMemory);
    }
    Ok(number)
}

/// Appends the lines of all glances.
fn push_glances(alloc: Global, text: &mut String, glances: &[Seen]) -> Result<(), NoMemory>
    requires { length glances.now < 2 ^ 32 }
    ensures { OnOk result (string_bytes text.new ≡ string_bytes text.old ++ glance_lines [] glances.now) }
{
    let mut counts: BTreeMap<u32, u64> = BTreeMap::new(alloc);
    for seen in glances {
        let number = count_glance(&mut counts, seen.actor)?;
        push_glance(text, number, seen)?;
    }
    Ok(())
}

/// The lines of all glances, and the tail with this target.
pub fn ending(
    alloc: Global,
    journal: &Journal,
    glances: &[Seen],
    rate: Rate,
) -> Result<String, NoMemory>
    requires few { length glances.now < 2 ^ 32 }
    requires rate { rate ≡ target journal.now.items }
    ensures { IfOk result (λ s. string_bytes s ≡ glance_lines [] glances.now ++ tail_line journal.now.items) }
{
    let mut text = String::new(alloc);
    push_glances(alloc, &mut text, glances)?;
    let entries = journal.len();
    let sent = count_sends(journal);
    let tail = format!(in alloc; "end {entries} {sent} {rate}\n")?;
    text.push_str(tail.as_str())?;
    Ok(text)
}

/// The printed history of a journal and of glances: a title, a line for each entry and for each
/// glance, and the tail with the counts of entries and of sent packets and with the target, each
/// ended by a line feed. A glance's line has the count of the actor's glances before it.
pub fn write_history(
    alloc: Global,
    journal: &Journal,
    glances: &SeenList,
) -> Result<Bytes, NoMemory>
    ensures { IfOk result (λ bytes. bytes ≡ bare (text journal.now.items glances.now.items)) }
{
    let mut text = String::from_str(alloc, "gcc-history 1\n")?;
    push_entries(&mut text, journal)?;
    text.push_str(ending(alloc, journal, glances.as_slice(), journal.target())?.as_str())?;
    let bytes = bytes_of(text)?;
    Ok(bytes)
}

/// The bytes of a text, where they are few enough for a list.
fn bytes_of(text: String) -> Result<Bytes, NoMemory>
    ensures { IfOk result (λ bytes. bytes ≡ bare (string_bytes text)) }
{
    if text.len() > u32::MAX as usize {
        return Err(NoMemory);
    }
    Ok(Bytes::from_vec(text.into_bytes()))
}
