//! Reading a report in runs. The work goes with the report's chunks and its received statuses: a chunk that
//! says of many packets that they were not received is one run.

ghost use Rattle.std.specs.Prelude.{◌≡◌, ℕ, ◌+◌, ◌-◌, ◌*◌, ◌/◌, ◌%◌, ◌^◌, ◌<◌, ◌≤◌, ◌++◌, List, length, take, replicate, Ok, Err, IfOk, IfErr, OnOk};
ghost use Rattle.std.specs.List.{list_any};
ghost use Rattle.twcc_report.specs.Chunks.{symbol_count, symbols_of};
ghost use Rattle.twcc_report.specs.declared.fault.ReportFault.{ReportFault};
ghost use Rattle.twcc_report.specs.Spelling.{Feedback, Fits, Spells};
ghost use Rattle.twcc_report.specs.Checks.{FailsFirst, IsCause};
ghost use Rattle.twcc_report.specs.Reading.{Gives, symbols_in, unreserved, statuses_at, read_of};
ghost use Rattle.twcc_report.specs.Runs.{statuses_of, expanded, symbols_of_run, all_symbols_of, is_reserved, with_front};

use crate::compact::{CompactReport, StatusRun};
use crate::fault::{ReadReport, ReportFault};
use crate::reading::{
    HEADER, read_end, read_header, read_status, reference_of, symbol_at, symbol_count,
};
use gcc_units::{number16, number32};
use std::alloc::{AllocError, Global};

/// So many packets in a row with one symbol.
#[derive(Clone, Copy)]
pub(crate) struct SymbolRun {
    symbol: u8,
    count: u16,
}

/// Puts the symbols of a chunk at the end, one by one, but no more than `left`.
fn push_each(runs: &mut Vec<SymbolRun>, word: u16, left: u16) -> Result<(), AllocError>
    ensures { OnOk result (all_symbols_of runs.new.items
        ≡ all_symbols_of runs.old.items ++ take left (symbols_of word)) }
{
    let more = symbol_count(word).min(left as usize);
    for k in 0..more {
        runs.push(SymbolRun {
            symbol: symbol_at(word, k),
            count: 1,
        })?;
    }
    Ok(())
}

/// Puts the symbols of a chunk at the end, but no more than `left`.
fn push_chunk(runs: &mut Vec<SymbolRun>, word: u16, left: u16) -> Result<(), AllocError>
    ensures { OnOk result (all_symbols_of runs.new.items
        ≡ all_symbols_of runs.old.items ++ take left (symbols_of word)) }
{
    if word >= 0x8000 {
        return push_each(runs, word, left);
    }
    runs.push(SymbolRun {
        symbol: (word / 0x2000) as u8,
        count: (word % 0x2000).min(left),
    })?;
    Ok(())
}

/// Reads chunks until they gave `count` symbols.
fn read_symbol_runs(
    alloc: Global,
    count: u16,
    body: &[u8],
) -> Result<(Vec<SymbolRun>, &[u8]), ReadReport>
    ensures { Gives (λ x. (all_symbols_of x.0.items, x.1.now)) result (symbols_in count body.now) }
{
    // No more runs than symbols, and a byte gives seven symbols of a vector.
    let most = body.len().saturating_mul(7).min(count as usize);
    let mut runs = Vec::with_capacity(alloc, most)?;
    let mut left = count;
    let mut rest = body;
    while left > 0 {
        if rest.len() < 2 {
            return Err(ReadReport::Fault(ReportFault::Chunks));
        }
        let word = number16(rest, 0);
        push_chunk(&mut runs, word, left)?;
        left -= symbol_count(word).min(left as usize) as u16;
        rest = rest.split_at(2).1;
    }
    Ok((runs, rest))
}

/// Whether a run has the reserved symbol.
fn any_reserved(runs: &[SymbolRun]) -> bool
    ensures { result ≡ list_any is_reserved runs.now }
{
    runs.iter().any(|run| run.symbol == 3 && run.count > 0)
}

/// Refuses the reserved symbol.
#[tactic(auto, using(crate::proofs::InRuns::refused, crate::proofs::InRuns::passed))]
fn refuse_reserved(runs: &[SymbolRun]) -> Result<(), ReadReport>
    ensures { Gives (λ x. x) result (unreserved (all_symbols_of runs.now)) }
{
    if any_reserved(runs) {
        return Err(ReadReport::Fault(ReportFault::Reserved));
    }
    Ok(())
}

/// Puts a run at the end.
fn push_run(runs: &mut Vec<StatusRun>, run: StatusRun) -> Result<(), AllocError>
    ensures { OnOk result (expanded runs.new.items ≡ expanded runs.old.items ++ statuses_of run) }
{
    runs.push(run)?;
    Ok(())
}

/// Puts the statuses of a run at the end, and gives the bytes behind their deltas.
fn read_run<'a>(
    runs: &mut Vec<StatusRun>,
    run: SymbolRun,
    bytes: &'a [u8],
) -> Result<&'a [u8], ReadReport>
    ensures { Gives (λ rest. (expanded runs.new.items, rest.now)) result
        (with_front (expanded runs.old.items) (statuses_at (symbols_of_run run) bytes.now)) }
{
    if run.symbol == 0 {
        push_run(runs, StatusRun::Lost(run.count))?;
        return Ok(bytes);
    }
    let mut rest = bytes;
    for _k in 0..run.count {
        let (status, behind) = read_status(run.symbol, rest)?;
        push_run(runs, StatusRun::One(status))?;
        rest = behind;
    }
    Ok(rest)
}

/// The statuses of the symbols, and the bytes behind their deltas.
fn read_status_runs<'a>(
    alloc: Global,
    symbols: &[SymbolRun],
    bytes: &'a [u8],
) -> Result<(Vec<StatusRun>, &'a [u8]), ReadReport>
    ensures { Gives (λ x. (expanded x.0.items, x.1.now)) result
        (statuses_at (all_symbols_of symbols.now) bytes.now) }
{
    // A received status has a byte of its own.
    let most = symbols.len().saturating_add(bytes.len());
    let mut runs = Vec::with_capacity(alloc, most)?;
    let mut rest = bytes;
    for symbol in symbols {
        rest = read_run(&mut runs, *symbol, rest)?;
    }
    Ok((runs, rest))
}

#[tactic(auto, unfolding(crate::specs::Reading::read_of))]
fn read(alloc: Global, bytes: &[u8]) -> Result<CompactReport, ReadReport>
    ensures { Gives (λ report. report) result (read_of bytes.now) }
{
    let count = read_header(bytes)?;
    let (symbols, rest) = read_symbol_runs(alloc, count, bytes.split_at(HEADER).1)?;
    refuse_reserved(&symbols)?;
    let (runs, rest) = read_status_runs(alloc, &symbols, rest)?;
    read_end(bytes[0] / 32 % 2, rest)?;
    let bits = bytes[16] as u32 * 65536 + number16(bytes, 17) as u32;
    Ok(CompactReport::new(
        (number32(bytes, 4), number32(bytes, 8)),
        number16(bytes, 12),
        reference_of(bits),
        bytes[19],
        runs,
    ))
}

/// Reads a report in runs, with the work of its chunks and its received statuses. `Fault` tells the first
/// check that fails; there is one exactly where the bytes spell no report.
pub fn read_compact(alloc: Global, bytes: &[u8]) -> Result<CompactReport, ReadReport>
    // What is read is spelled so.
    ensures found { IfOk result (λ report. Spells report bytes.now) }
    ensures fits { IfOk result (λ report. Fits report) }

    // What is spelled so is read, unless memory runs out.
    ensures only { (f : Feedback) → Fits f → Spells f bytes.now → Gives (λ report. report) result (Ok f) }

    // The fault is that of the first check that fails, and where one fails there is no report.
    ensures cause { IfErr result (IsCause bytes.now) }
    ensures refused { (fault : ReportFault) → FailsFirst fault bytes.now → Gives (λ report. report) result (Err fault) }

    // Both in one.
    ensures exact { Gives (λ report. report) result (read_of bytes.now) }
{
    read(alloc, bytes)
}
