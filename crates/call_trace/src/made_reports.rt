//! The reports of a made trace. Arrivals are in quarter-milliseconds.

ghost use Rattle.std.specs.Prelude.{◌≡◌, ◌+◌, ◌*◌, ◌^◌, ◌<◌, ◌≤◌, length, IfOk, OnOk, IfSome};
ghost use Rattle.std.specs.List.{All};
ghost use Rattle.gcc_units.specs.Listed.{bare};
ghost use Rattle.twcc_report.specs.Spelling.{view};
ghost use Rattle.twcc_report.specs.Canonical.{canonical};
ghost use Rattle.call_trace.specs.MadeReports.{words_at, words_after, fastest, arrival, arrivals, first_or, status, statuses, report, IsNear, AreNear};

use gcc_units::{ARRIVAL_MICROSECONDS, Bytes, Moment, NoMemory};
use rand_core::Rng;
use rand_xoshiro::Xoshiro256PlusPlus;
use std::alloc::Global;
use twcc_report::{Report, Status, StatusList, write_report};

/// The arrival of a packet with the least delay, of 20 ms.
fn fastest(sent_at: Moment) -> u64
    ensures { result ≡ fastest sent_at }
{
    sent_at / ARRIVAL_MICROSECONDS + 80
}

/// When a packet arrives by its word; `None` where it is not received.
fn arrival(sent_at: Moment, word: u64) -> Option<u64>
    ensures { result ≡ arrival sent_at word }
{
    if (word >> 32) % 64 == 0 {
        return None;
    }
    Some(fastest(sent_at) + word % 16)
}

/// The arrivals of packets that were sent at these moments, with a word drawn for each.
fn arrivals(
    alloc: Global,
    words: &mut Xoshiro256PlusPlus,
    moments: &[Moment],
) -> Result<Vec<Option<u64>>, NoMemory>
    ensures arrivals { IfOk result (λ v. v.items ≡ arrivals (words_at words.old) moments.now) }
    ensures words { OnOk result (words_at words.new ≡ words_after (length moments.now) (words_at words.old)) }
{
    let mut arrivals = Vec::with_capacity(alloc, moments.len())?;
    for sent_at in moments {
        let word = words.next_u64();
        arrivals.push_reserved(arrival(*sent_at, word));
    }
    Ok(arrivals)
}

/// The first arrival that there is, or else this one.
fn first_or(other: u64, arrivals: &[Option<u64>]) -> u64
    ensures { result ≡ first_or other arrivals.now }
{
    for arrival in arrivals {
        if let Some(arrival) = arrival {
            return *arrival;
        }
    }
    other
}

/// What is told of a packet, where the one received before it arrived then.
fn status(before: u64, arrival: Option<u64>) -> Status
    requires early { before < 2 ^ 62 }
    requires near { IfSome arrival (IsNear 10000 before) }
    ensures { result ≡ status before arrival }
{
    let Some(arrival) = arrival else {
        return Status::NotReceived;
    };
    if before <= arrival && arrival - before < 256 {
        return Status::Small((arrival - before) as u8);
    }
    Status::Large((arrival as i64 - before as i64) as i16)
}

/// The statuses of packets with these arrivals, where the first delta counts from `first`.
fn statuses(alloc: Global, first: u64, arrivals: &[Option<u64>]) -> Result<StatusList, NoMemory>
    requires few { length arrivals.now < 2 ^ 16 }
    requires early { first < 2 ^ 32 }
    requires near { All (λ there. IfSome there (IsNear 1000 first)) arrivals.now }
    ensures { IfOk result (λ list. list ≡ bare (statuses first arrivals.now)) }
{
    let mut before = first;
    let mut statuses = Vec::with_capacity(alloc, arrivals.len())?;
    for arrival in arrivals {
        statuses.push_reserved(status(before, *arrival));
        before = arrival.unwrap_or(before);
    }
    Ok(StatusList::from_vec(statuses))
}

/// The report on packets that were sent at these moments, after so many reports on so many
/// packets.
fn report(
    alloc: Global,
    words: &mut Xoshiro256PlusPlus,
    reports: u32,
    covered: usize,
    moments: &[Moment],
) -> Result<Report, NoMemory>
    requires some { 1 ≤ length moments.now }
    requires few { length moments.now < 2 ^ 16 }
    requires near { AreNear moments.now }
    ensures report { IfOk result (λ r. view r ≡ report (words_at words.old) reports covered moments.now) }
    ensures words { OnOk result (words_at words.new ≡ words_after (length moments.now) (words_at words.old)) }
{
    let arrivals = arrivals(alloc, words, moments)?;
    let reference = first_or(fastest(moments[0]), &arrivals) / 256;
    let statuses = statuses(alloc, 256 * reference, &arrivals)?;
    Ok(Report {
        sender: 1,
        media: 2,
        base: (covered % 65_536) as u16,
        reference: reference as i32,
        feedback: (reports % 256) as u8,
        statuses,
    })
}

/// The bytes of that report.
pub fn report_bytes(
    alloc: Global,
    words: &mut Xoshiro256PlusPlus,
    reports: u32,
    covered: usize,
    moments: &[Moment],
) -> Result<Bytes, NoMemory>
    requires some { 1 ≤ length moments.now }
    requires few { length moments.now < 2 ^ 16 }
    requires near { AreNear moments.now }
    ensures bytes { IfOk result (λ b. b ≡ bare (canonical (report (words_at words.old) reports covered moments.now))) }
    ensures words { OnOk result (words_at words.new ≡ words_after (length moments.now) (words_at words.old)) }
{
    let report = report(alloc, words, reports, covered, moments)?;
    write_report(alloc, &report)
}
