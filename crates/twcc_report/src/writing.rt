//! Writing a report in its canonical spelling.

ghost use Rattle.std.specs.Prelude.{◌≡◌, ℕ, ◌+◌, ◌-◌, ◌*◌, ◌/◌, ◌%◌, ◌^◌, ◌<◌, ◌≤◌, ◌≤ℤ◌, pos, negsuc, ◌++◌, List, length, map, slice_index, Ok, IfOk, OnOk};
ghost use Rattle.std.specs.List.{flat_map, AllByRecursion};
ghost use Rattle.gcc_units.specs.Listed.{bare};
ghost use Rattle.twcc_report.specs.Chunks.{chunk_bytes};
ghost use Rattle.twcc_report.specs.Spelling.{Fits, Spells, StatusFits, symbol, delta, header, view};
ghost use Rattle.twcc_report.specs.Reading.{read_of};
ghost use Rattle.twcc_report.specs.Canonical.{run_len, fits_one_bit, with_digits, next_chunk, chunks_for, filled_up, body, canonical};

use crate::reading::symbol_count;
use crate::report::{Report, Status};
use gcc_units::{Bytes, NoMemory, Sequence};
use std::alloc::Global;

/// The longest run that a chunk can tell.
const LONGEST_RUN: usize = 8191;

/// From this length on a run has a chunk of its own wherever it stands.
const LONG_RUN: usize = 7;

fn symbol_of(status: Status) -> u8
    ensures { result ≡ symbol status }
{
    match status {
        Status::NotReceived => 0,
        Status::Small(_) => 1,
        Status::Large(_) => 2,
    }
}

/// The symbols of the statuses.
fn symbols_of(alloc: Global, statuses: &[Status]) -> Result<Vec<u8>, NoMemory>
    ensures { IfOk result (λ symbols. symbols.items ≡ map symbol statuses.now) }
{
    let mut symbols = Vec::with_capacity(alloc, statuses.len())?;
    for status in statuses {
        symbols.push_reserved(symbol_of(*status));
    }
    Ok(symbols)
}

/// How many symbols are equal to the first, from the front on.
#[tactic(auto, unfolding(crate::specs::Canonical::run_len))]
fn run_len(symbols: &[u8]) -> usize
    requires { 0 < length symbols.now }
    ensures { result ≡ run_len symbols.now }
{
    let first = symbols[0];
    let run = symbols.iter().take(LONGEST_RUN);
    run.take_while(|symbol| **symbol == first).count()
}

/// The symbol at a place, 0 past the end.
fn symbol_or_zero(symbols: &[u8], k: usize) -> u8
    ensures { result ≡ slice_index symbols.now k }
{
    symbols.get(k).copied().unwrap_or(0)
}

/// A status vector: its first two bits, and the first symbols as digits, 0 where there are no more.
fn vector(bits: u16, base: u16, places: usize, symbols: &[u8]) -> u16
    requires digits { (k : ℕ) → k < places → slice_index symbols.now k < base }
    requires fits { (bits + 1) * base ^ places ≤ 2 ^ 16 }
    ensures { result ≡ with_digits base bits places symbols.now }
{
    let mut word = bits;
    for k in 0..places {
        word = word * base + symbol_or_zero(symbols, k) as u16;
    }
    word
}

/// Whether a vector of one-bit symbols can tell the next fourteen.
fn fits_one_bit(symbols: &[u8]) -> bool
    ensures { result ≡ fits_one_bit symbols.now }
{
    symbols.iter().take(14).all(|symbol| *symbol < 2)
}

/// The chunk that comes next.
fn next_chunk(symbols: &[u8]) -> u16
    requires some { 0 < length symbols.now }
    requires symbols { AllByRecursion (λ s. s < 3) symbols.now }
    ensures { result ≡ next_chunk symbols.now }
{
    let run = run_len(symbols);
    if run >= LONG_RUN || run == symbols.len() {
        return symbols[0] as u16 * 8192 + run as u16;
    }
    if fits_one_bit(symbols) {
        return vector(2, 2, 14, symbols);
    }
    vector(3, 4, 7, symbols)
}

/// Puts the chunks of the symbols at the end.
fn push_chunks(bytes: &mut Vec<u8>, symbols: &[u8]) -> Result<(), NoMemory>
    requires { AllByRecursion (λ s. s < 3) symbols.now }
    ensures { OnOk result (bytes.new.items ≡ bytes.old.items ++ chunk_bytes (chunks_for symbols.now)) }
{
    let mut rest = symbols;
    while !rest.is_empty() {
        let chunk = next_chunk(rest);
        bytes.extend_from_slice(&chunk.to_be_bytes())?;
        rest = rest.split_at(symbol_count(chunk).min(rest.len())).1;
    }
    Ok(())
}

/// Puts the delta of a status at the end.
fn push_delta(bytes: &mut Vec<u8>, status: Status) -> Result<(), NoMemory>
    ensures delta { OnOk result (bytes.new.items ≡ bytes.old.items ++ delta status) }
    ensures fits { StatusFits status }
{
    match status {
        Status::NotReceived => {}
        Status::Small(delta) => bytes.extend_from_slice(&[delta])?,
        Status::Large(delta) => bytes.extend_from_slice(&delta.to_be_bytes())?,
    }
    Ok(())
}

/// Puts the deltas of the received statuses at the end.
fn push_deltas(bytes: &mut Vec<u8>, statuses: &[Status]) -> Result<(), NoMemory>
    ensures deltas { OnOk result (bytes.new.items ≡ bytes.old.items ++ flat_map delta statuses.now) }
    ensures fit { OnOk result (AllByRecursion StatusFits statuses.now) }
{
    for status in statuses {
        push_delta(bytes, *status)?;
    }
    Ok(())
}

/// Fills up with zero bytes to whole words.
fn fill_up(bytes: &mut Vec<u8>) -> Result<(), NoMemory>
    ensures { OnOk result (bytes.new.items ≡ filled_up bytes.old.items) }
{
    let missing = (4 - bytes.len() % 4) % 4;
    bytes.extend_from_slice(&[0; 3][..missing])?;
    Ok(())
}

/// What stands behind the header.
fn write_body(alloc: Global, report: &Report) -> Result<Vec<u8>, NoMemory>
    ensures body { IfOk result (λ bytes. bytes.items ≡ body (view report.now)) }
    ensures fit { IfOk result (λ _. AllByRecursion StatusFits report.now.statuses.items) }
{
    let statuses = report.statuses.as_slice();
    let symbols = symbols_of(alloc, statuses)?;
    let mut bytes = Vec::new(alloc);
    push_chunks(&mut bytes, &symbols)?;
    push_deltas(&mut bytes, statuses)?;
    fill_up(&mut bytes)?;
    Ok(bytes)
}

/// Puts the header at the end.
fn push_header(bytes: &mut Vec<u8>, words: u16, report: &Report) -> Result<(), NoMemory>
    requires { length report.now.statuses.items < 2 ^ 16 }
    ensures { OnOk result (bytes.new.items ≡ bytes.old.items ++ header 0 words (view report.now)) }
{
    let [_, high, middle, low] = report.reference.to_be_bytes();
    bytes.extend_from_slice(&[0x8f, 205])?;
    bytes.extend_from_slice(&words.to_be_bytes())?;
    bytes.extend_from_slice(&report.sender.to_be_bytes())?;
    bytes.extend_from_slice(&report.media.to_be_bytes())?;
    bytes.extend_from_slice(&report.base.to_be_bytes())?;
    bytes.extend_from_slice(&(report.statuses.len() as u16).to_be_bytes())?;
    bytes.extend_from_slice(&[high, middle, low, report.feedback])?;
    Ok(())
}

fn write(alloc: Global, report: &Report) -> Result<Vec<u8>, NoMemory>
    requires some { 1 ≤ length report.now.statuses.items }
    requires few { length report.now.statuses.items < 2 ^ 16 }
    requires low { negsuc 8388607 ≤ℤ report.now.reference }
    requires high { report.now.reference ≤ℤ pos 8388607 }
    ensures canonical { IfOk result (λ bytes. bytes.items ≡ canonical (view report.now)) }
    ensures fits { IfOk result (λ _. Fits (view report.now)) }
{
    let body = write_body(alloc, report)?;
    let words = ((20 + body.len()) / 4 - 1) as u16;
    let mut bytes = Vec::new(alloc);
    push_header(&mut bytes, words, report)?;
    bytes.extend_from_slice(&body)?;
    Ok(bytes)
}

/// Writes a report of 1 to 65,535 statuses in its canonical spelling. The padding bit is clear, and
/// 0 to 3 zero bytes fill up to whole words. Chunks are chosen from the front on: a run of seven or
/// more equal symbols, or of all that are left, has a run-length chunk. Else the next fourteen have
/// a vector of one-bit symbols if each is 0 or 1, and else the next seven one of two-bit symbols.
/// `NoMemory` tells that memory ran out, and nothing else.
/// (draft-holmer-rmcat-transport-wide-cc-extensions-01, section 3.1, for the format; the choice is
/// this project's own rule).
pub fn write_report(alloc: Global, report: &Report) -> Result<Bytes, NoMemory>
    requires some { 1 ≤ length report.now.statuses.items }
    requires few { length report.now.statuses.items < 2 ^ 16 }
    requires low { negsuc 8388607 ≤ℤ report.now.reference }
    requires high { report.now.reference ≤ℤ pos 8388607 }
    ensures canonical { IfOk result (λ bytes. bytes.items ≡ canonical (view report.now)) }

    // It is a spelling of the report, and reading gives the report back.
    ensures spells { IfOk result (λ bytes. Spells (view report.now) bytes.items) }
    ensures read { IfOk result (λ bytes. read_of bytes.items ≡ Ok (view report.now)) }

    // The list promises no room.
    ensures settled { IfOk result (λ bytes. bytes ≡ bare bytes.items) }
{
    Ok(Sequence::from_vec(write(alloc, report)?))
}
