//! Reading a NACK, byte by byte.

ghost use Rattle.std.specs.Prelude.{◌≡◌, ℕ, ◌+◌, ◌<◌, ◌≤◌, [], List, length, Ok, Err, IfOk, IfErr, OnOk};
ghost use Rattle.gcc_units.specs.Listed.{bare};
ghost use Rattle.nack_rtx.specs.declared.fault.NackFault.{NackFault};
ghost use Rattle.nack_rtx.specs.Naming.{names, named_in};
ghost use Rattle.nack_rtx.specs.Running.{adding};
ghost use Rattle.nack_rtx.specs.Spelling.{Asked, Spells, view};
ghost use Rattle.gcc_units.specs.Numbers.{number16, number32};
ghost use Rattle.nack_rtx.specs.Checks.{FailsFirst, IsCause};
ghost use Rattle.nack_rtx.specs.Reading.{Gives, padding_at, nack_of};

use crate::fault::{NackFault, ReadNack};
use crate::nack::{Nack, SeqList};
use crate::named::Named;
use gcc_units::{NoMemory, number16, number32};
use std::alloc::Global;

/// Checks the header and the padding, and gives how many bytes of padding there are.
#[tactic(auto, unfolding(crate::specs::Reading::padding_at))]
fn read_padding(bytes: &[u8]) -> Result<usize, ReadNack>
    ensures padding { Gives (λ n. n) result (padding_at bytes.now) }
    ensures long { IfOk result (λ n. n + 16 ≤ length bytes.now) }
{
    let len = bytes.len();
    if len < 16 {
        return Err(ReadNack::Fault(NackFault::Short));
    }
    if len != 4 * number16(bytes, 2) as usize + 4 {
        return Err(ReadNack::Fault(NackFault::Length));
    }
    if bytes[0] / 64 != 2 {
        return Err(ReadNack::Fault(NackFault::Version));
    }
    if bytes[0] % 32 != 1 {
        return Err(ReadNack::Fault(NackFault::NotNack));
    }
    if bytes[1] != 205 {
        return Err(ReadNack::Fault(NackFault::NotNack));
    }
    if bytes[0] / 32 % 2 == 0 {
        return Ok(0);
    }
    let padding = bytes[len - 1] as usize;
    if padding % 4 == 0 && 4 <= padding && padding + 16 <= len {
        return Ok(padding);
    }
    Err(ReadNack::Fault(NackFault::Padding))
}

/// Names what a pair names: its own number, and one for each bit that is set.
fn add_pair(named: &mut Named, own: u16, bits: u16) -> Result<(), NoMemory>
    ensures { OnOk result (named.new ≡ adding named.old (names own bits)) }
{
    named.add(own)?;
    for i in 0..16u16 {
        if (bits >> i) % 2 == 1 {
            named.add(own.wrapping_add(i + 1))?;
        }
    }
    Ok(())
}

/// The numbers that pairs name.
fn read_pairs(alloc: Global, pairs: &[u8]) -> Result<SeqList, NoMemory>
    ensures { IfOk result (λ lost. lost ≡ bare (adding [] (named_in pairs.now))) }
{
    let mut named = Named::new(alloc)?;
    let mut rest = pairs;
    while rest.len() >= 4 {
        add_pair(&mut named, number16(rest, 0), number16(rest, 2))?;
        rest = rest.split_at(4).1;
    }
    Ok(named.into_list())
}

#[tactic(auto, unfolding(crate::specs::Reading::nack_of))]
fn read(alloc: Global, bytes: &[u8]) -> Result<Nack, ReadNack>
    ensures exact { Gives view result (nack_of bytes.now) }
    ensures settled { IfOk result (λ nack. nack.lost ≡ bare nack.lost.items) }
{
    let padding = read_padding(bytes)?;
    let pairs = &bytes[12..bytes.len() - padding];
    let lost = read_pairs(alloc, pairs)?;
    Ok(Nack {
        sender: number32(bytes, 4),
        media: number32(bytes, 8),
        lost,
    })
}

/// Reads a NACK. `Fault` tells the first check that fails; there is one exactly where the bytes spell
/// no NACK.
pub fn read_nack(alloc: Global, bytes: &[u8]) -> Result<Nack, ReadNack>
    // What is read is spelled so.
    ensures found { IfOk result (λ nack. Spells (view nack) bytes.now) }

    // What is spelled so is read, unless memory runs out.
    ensures only { (n : Asked) → Spells n bytes.now → Gives view result (Ok n) }

    // The fault is that of the first check that fails, and where one fails there is no NACK.
    ensures fault { IfErr result (IsCause bytes.now) }
    ensures refused { (fault : NackFault) → FailsFirst fault bytes.now → Gives view result (Err fault) }

    // Both in one, and the list of numbers promises no room.
    ensures exact { Gives view result (nack_of bytes.now) }
    ensures settled { IfOk result (λ nack. nack.lost ≡ bare nack.lost.items) }
{
    read(alloc, bytes)
}
