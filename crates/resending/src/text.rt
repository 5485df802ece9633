//! The lines that tell of NACKs.

ghost use Rattle.std.specs.Prelude.{◌≡◌, ◌++◌, IfOk, OnOk};
ghost use Rattle.std.specs.String.{string_bytes};
ghost use Rattle.resending.specs.NackText.{nack_text, nack_lines};

use crate::nack_line::{NackLine, NackLineList};
use gcc_units::NoMemory;
use std::alloc::Global;

/// The line of the NACK of this number, with its line feed.
fn nack_text(alloc: Global, number: u32, line: &NackLine) -> Result<String, NoMemory>
    ensures { IfOk result (λ text. string_bytes text ≡ nack_text number line.now) }
{
    let named = line.named;
    let resent = line.resent;
    let unknown = line.unknown;
    let spent = line.spent;
    Ok(format!(in alloc;
        "nack {number} named {named} resent {resent} unknown {unknown} spent {spent}\n"
    )?)
}

/// Appends the line of the NACK of this number.
fn push_nack(alloc: Global, text: &mut String, number: u32, line: &NackLine) -> Result<(), NoMemory>
    ensures { OnOk result (string_bytes text.new ≡ string_bytes text.old ++ nack_text number line.now) }
{
    Ok(text.push_str(nack_text(alloc, number, line)?.as_str())?)
}

/// A line for each NACK, which are numbered from 0: how many numbers it named, and what became of
/// them. Each is ended by a line feed.
pub fn nack_lines(alloc: Global, nacks: &NackLineList) -> Result<String, NoMemory>
    ensures { IfOk result (λ text. string_bytes text ≡ nack_lines nacks.now.items) }
{
    let mut text = String::new(alloc);
    for k in 0..nacks.len() {
        let Some(line) = nacks.get(k) else {
            unreachable!();
        };
        push_nack(alloc, &mut text, k, line)?;
    }
    Ok(text)
}
