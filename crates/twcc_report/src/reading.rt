//! Reading a report, byte by byte.
//!
//! The report (draft-holmer-rmcat-transport-wide-cc-extensions-01, section 3.1); V is the version, P the
//! padding bit:
//!
//! ```text
//!  0                   1                   2                   3
//!  0 1 2 3 4 5 6 7 8 9 0 1 2 3 4 5 6 7 8 9 0 1 2 3 4 5 6 7 8 9 0 1
//! +---+-+---------+---------------+-------------------------------+
//! | V |P| FMT=15  |    PT=205     |        length in words        |
//! +---+-+---------+---------------+-------------------------------+
//! |                  SSRC of the report's sender                  |
//! +---------------------------------------------------------------+
//! |                       SSRC of the media                       |
//! +-------------------------------+-------------------------------+
//! |     base sequence number      |     packet status count       |
//! +-------------------------------+---------------+---------------+
//! |                reference time                 | feedback count|
//! +-------------------------------+---------------+---------------+
//! |            chunk              |            chunk  ...         |
//! +-------------------------------+-------------------------------+
//! |    deltas, of one byte or two each, then the rest  ...        |
//! +---------------------------------------------------------------+
//! ```
//!
//! A chunk is a run, fourteen symbols of one bit, or seven of two:
//!
//! ```text
//! +-+---+-------------------------+
//! |0| S |       run length        |
//! +-+---+-------------------------+
//! |1|0|   symbols, one bit each   |
//! +-+-+---------------------------+
//! |1|1|   symbols, two bits each  |
//! +-+-+---------------------------+
//! ```

ghost use Rattle.std.specs.Prelude.{◌≡◌, ℕ, ◌+◌, ◌-◌, ◌*◌, ◌^◌, ◌<◌, ◌≤◌, ◌++◌, List, length, take, vec_len, vec_capacity, Ok, Err, IfOk, IfErr, OnOk};
ghost use Rattle.twcc_report.specs.Chunks.{symbol_count, symbol_at, symbols_of};
ghost use Rattle.gcc_units.specs.Listed.{bare};
ghost use Rattle.gcc_units.specs.Numbers.{number16, number32};
ghost use Rattle.twcc_report.specs.declared.fault.ReportFault.{ReportFault};
ghost use Rattle.twcc_report.specs.Spelling.{Feedback, Fits, Spells, view, twos_complement24};
ghost use Rattle.twcc_report.specs.Checks.{FailsFirst, IsCause};
ghost use Rattle.twcc_report.specs.Reading.{Gives, header_at, symbols_in, unreserved, status_at, statuses_at, end_at, read_of};

use crate::fault::{ReadReport, ReportFault};
use crate::report::{Report, Status};
use gcc_units::{Sequence, number16, number32};
use std::alloc::Global;

/// The bytes of a report's header.
pub(crate) const HEADER: usize = 20;

/// The reference time, a number of 24 bits in two's complement.
pub(crate) fn reference_of(bits: u32) -> i32
    requires { bits < 2 ^ 24 }
    ensures { result ≡ twos_complement24 bits }
{
    if bits < 0x80_0000 {
        bits as i32
    } else {
        bits as i32 - 0x100_0000
    }
}

/// Checks the header, and gives the status count.
#[tactic(auto, unfolding(crate::specs::Reading::header_at))]
pub(crate) fn read_header(bytes: &[u8]) -> Result<u16, ReadReport>
    ensures count { Gives (λ n. n) result (header_at bytes.now) }
    ensures long { OnOk result (20 ≤ length bytes.now) }
{
    if bytes.len() < HEADER {
        return Err(ReadReport::Fault(ReportFault::Short));
    }
    if bytes.len() != 4 * number16(bytes, 2) as usize + 4 {
        return Err(ReadReport::Fault(ReportFault::Length));
    }
    if bytes[0] / 64 != 2 {
        return Err(ReadReport::Fault(ReportFault::Version));
    }
    if bytes[0] % 32 != 15 {
        return Err(ReadReport::Fault(ReportFault::NotFeedback));
    }
    if bytes[1] != 205 {
        return Err(ReadReport::Fault(ReportFault::NotFeedback));
    }
    let count = number16(bytes, 14);
    if count == 0 {
        return Err(ReadReport::Fault(ReportFault::NoStatus));
    }
    Ok(count)
}

/// How many symbols a chunk has.
pub(crate) fn symbol_count(word: u16) -> usize
    ensures { result ≡ symbol_count word }
{
    if word < 0x8000 {
        word as usize % 0x2000
    } else if word < 0xc000 {
        14
    } else {
        7
    }
}

/// Symbol `k` of a chunk.
pub(crate) fn symbol_at(word: u16, k: usize) -> u8
    requires { k < symbol_count word }
    ensures value { result ≡ symbol_at word k }
    ensures bits { result < 4 }
{
    if word < 0x8000 {
        (word / 0x2000) as u8
    } else if word < 0xc000 {
        ((word >> (13 - k)) % 2) as u8
    } else {
        ((word >> (2 * (6 - k))) % 4) as u8
    }
}

/// Puts the symbols of a chunk at the end, as long as they are fewer than `count`.
#[tactic(auto, unfolding(crate::specs::Chunks::symbols_of))]
fn push_symbols(symbols: &mut Vec<u8>, word: u16, count: usize)
    requires few { length symbols.old.items ≤ count }
    requires room { count ≤ vec_capacity symbols.old }
    ensures items { symbols.new.items
        ≡ symbols.old.items ++ take (count - length symbols.old.items) (symbols_of word) }
    ensures capacity { vec_capacity symbols.new ≡ vec_capacity symbols.old }
{
    let more = symbol_count(word).min(count - symbols.len());
    for k in 0..more {
        symbols.push_reserved(symbol_at(word, k));
    }
}

/// Reads chunks until they gave `count` symbols.
fn read_symbols(alloc: Global, count: u16, body: &[u8]) -> Result<(Vec<u8>, &[u8]), ReadReport>
    ensures symbols { Gives (λ x. (x.0.items, x.1.now)) result (symbols_in count body.now) }
    ensures count { IfOk result (λ x. length x.0.items ≡ count) }
{
    let count = count as usize;
    let mut symbols = Vec::with_capacity(alloc, count)?;
    let mut rest = body;
    while symbols.len() < count {
        if rest.len() < 2 {
            return Err(ReadReport::Fault(ReportFault::Chunks));
        }
        push_symbols(&mut symbols, number16(rest, 0), count);
        rest = rest.split_at(2).1;
    }
    Ok((symbols, rest))
}

/// Refuses the reserved symbol.
#[tactic(auto, unfolding(crate::specs::Reading::unreserved))]
fn refuse_reserved(symbols: &[u8]) -> Result<(), ReadReport>
    ensures { Gives (λ x. x) result (unreserved symbols.now) }
{
    if symbols.contains(&3) {
        return Err(ReadReport::Fault(ReportFault::Reserved));
    }
    Ok(())
}

/// The status of a symbol, and the bytes behind its delta.
#[tactic(auto, unfolding(crate::specs::Reading::status_at))]
pub(crate) fn read_status(symbol: u8, bytes: &[u8]) -> Result<(Status, &[u8]), ReadReport>
    ensures { Gives (λ x. (x.0, x.1.now)) result (status_at symbol bytes.now) }
{
    match symbol {
        0 => Ok((Status::NotReceived, bytes)),
        1 => match bytes {
            [delta, rest @ ..] => Ok((Status::Small(*delta), rest)),
            [] => Err(ReadReport::Fault(ReportFault::Deltas)),
        },
        _ => match bytes {
            [high, low, rest @ ..] => {
                Ok((Status::Large(i16::from_be_bytes([*high, *low])), rest))
            }
            _ => Err(ReadReport::Fault(ReportFault::Deltas)),
        },
    }
}

/// The statuses of the symbols, and the bytes behind their deltas.
fn read_statuses<'a>(
    alloc: Global,
    symbols: &[u8],
    bytes: &'a [u8],
) -> Result<(Vec<Status>, &'a [u8]), ReadReport>
    ensures statuses { Gives (λ x. (x.0.items, x.1.now)) result (statuses_at symbols.now bytes.now) }
    ensures count { IfOk result (λ x. length x.0.items ≡ length symbols.now) }
{
    let mut statuses = Vec::with_capacity(alloc, symbols.len())?;
    let mut rest = bytes;
    for symbol in symbols {
        let (status, behind) = read_status(*symbol, rest)?;
        statuses.push_reserved(status);
        rest = behind;
    }
    Ok((statuses, rest))
}

/// Checks the bytes behind the last delta.
#[tactic(auto, unfolding(crate::specs::Reading::end_at))]
pub(crate) fn read_end(bit: u8, rest: &[u8]) -> Result<(), ReadReport>
    ensures { Gives (λ x. x) result (end_at bit rest.now) }
{
    let len = rest.len();
    if bit == 0 {
        if len <= 3 {
            return Ok(());
        }
        return Err(ReadReport::Fault(ReportFault::Padding));
    }
    let Some(last) = rest.last() else {
        return Err(ReadReport::Fault(ReportFault::Padding));
    };
    let padding = *last as usize;
    if 1 <= padding && padding <= len && len <= padding + 3 {
        return Ok(());
    }
    Err(ReadReport::Fault(ReportFault::Padding))
}

#[tactic(auto, unfolding(crate::specs::Reading::read_of))]
fn read(alloc: Global, bytes: &[u8]) -> Result<Report, ReadReport>
    ensures exact { Gives view result (read_of bytes.now) }
    ensures settled { IfOk result (λ report. report.statuses ≡ bare report.statuses.items) }
{
    let count = read_header(bytes)?;
    let (symbols, rest) = read_symbols(alloc, count, bytes.split_at(HEADER).1)?;
    refuse_reserved(&symbols)?;
    let (statuses, rest) = read_statuses(alloc, &symbols, rest)?;
    read_end(bytes[0] / 32 % 2, rest)?;
    let bits = bytes[16] as u32 * 65536 + number16(bytes, 17) as u32;
    Ok(Report {
        sender: number32(bytes, 4),
        media: number32(bytes, 8),
        base: number16(bytes, 12),
        reference: reference_of(bits),
        feedback: bytes[19],
        statuses: Sequence::from_vec(statuses),
    })
}

/// Reads a report. `Fault` tells the first check that fails; there is one exactly where the bytes
/// spell no report.
pub fn read_report(alloc: Global, bytes: &[u8]) -> Result<Report, ReadReport>
    // What is read is spelled so.
    ensures found { IfOk result (λ report. Spells (view report) bytes.now) }
    ensures fits { IfOk result (λ report. Fits (view report)) }

    // What is spelled so is read, unless memory runs out.
    ensures only { (f : Feedback) → Fits f → Spells f bytes.now → Gives view result (Ok f) }

    // The fault is that of the first check that fails, and where one fails there is no report.
    ensures cause { IfErr result (IsCause bytes.now) }
    ensures refused { (fault : ReportFault) → FailsFirst fault bytes.now → Gives view result (Err fault) }

    // Both in one, and the list of statuses promises no room.
    ensures exact { Gives view result (read_of bytes.now) }
    ensures settled { IfOk result (λ report. report.statuses ≡ bare report.statuses.items) }
{
    read(alloc, bytes)
}
