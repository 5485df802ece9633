//! What was sent over a span of a sender's journal, and what the rates in force come to over it.

ghost use Rattle.std.specs.Prelude.{◌≡◌, pos, ◌+◌, ◌*◌, ◌<◌, ◌≤◌, ◌+ℤ◌, ◌≤ℤ◌, length, take};
ghost use Rattle.send_core.specs.History.{sent};
ghost use Rattle.send_core.specs.Levels.{rate, window, padding_rate};
ghost use Rattle.send_core.specs.Reply.{IsLegal};
ghost use Rattle.send_laws.specs.Spans.{span, spent_bytes, last_media, integral, padding_bytes, last_padding, padding_integral};
ghost use Rattle.send_laws.specs.Budgets.{bytes_of, last_from, rate_of, integral_of, IsCount};

use crate::budget::{Budget, Counted};
use crate::reading::{entry_at, moment_of, tally_at};
use gcc_units::Level;
use send_core::{Journal, Sender};

/// The packets of one budget over a span of entries, and what holds them back. A span goes from the
/// sends of its first entry to those of its last.
#[derive(Clone, Copy, PartialEq, Eq, Debug)]
pub struct Span {
    /// The bytes of the packets, and for media of the probes before the last of them.
    pub bytes: u64,
    /// The rate times the time, from the first entry to the last, in micro-bits.
    pub integral: Level,
    /// The rate times the window before the first entry, in micro-bits.
    pub window: Level,
    /// The bytes of the last packet, which is no probe; 0 where there is none.
    pub last: u32,
}

/// The paced media of entries `i` to `j`, both counted, by the rate in force, with the probes that were
/// sent before the last of it. The bytes are no more than the integral, the window and the last media
/// packet (8,000,000 micro-bits a byte).
pub fn span_media(sender: &Sender, i: u32, j: u32) -> Span
    requires order { i ≤ j }
    requires within { j < length sender.now }
    ensures bytes { result.bytes ≡ spent_bytes (sent (span i j sender.now)) }
    ensures integral { result.integral ≡ pos (integral (take (i + 1) sender.now) (span (i + 1) j sender.now)) }
    ensures window { result.window ≡ pos (rate (take i sender.now) * window (take i sender.now)) }
    ensures last { result.last ≡ last_media (sent (span i j sender.now)) }
    ensures bound { pos (8000000 * result.bytes) ≤ℤ (result.integral +ℤ result.window +ℤ pos (8000000 * result.last)) }
{
    span_of(Budget::Media, sender.journal(), i, j)
}

/// The padding of entries `i` to `j`, both counted, by the padding rate. The bytes are no more than
/// the integral, the window and the last packet (8,000,000 micro-bits a byte).
pub fn span_padding(sender: &Sender, i: u32, j: u32) -> Span
    requires order { i ≤ j }
    requires within { j < length sender.now }
    ensures bytes { result.bytes ≡ padding_bytes (sent (span i j sender.now)) }
    ensures integral { result.integral ≡ pos (padding_integral (take (i + 1) sender.now) (span (i + 1) j sender.now)) }
    ensures window { result.window ≡ pos (padding_rate (take i sender.now) * window (take i sender.now)) }
    ensures last { result.last ≡ last_padding (sent (span i j sender.now)) }
    ensures bound { pos (8000000 * result.bytes) ≤ℤ (result.integral +ℤ result.window +ℤ pos (8000000 * result.last)) }
{
    span_of(Budget::Padding, sender.journal(), i, j)
}

// The packets of a budget, and what holds them back.
fn span_of(budget: Budget, journal: &Journal, i: u32, j: u32) -> Span
    requires order { i ≤ j }
    requires within { j < length journal.now.items }
    requires legal { IsLegal journal.now.items }
    ensures bytes { result.bytes ≡ bytes_of budget (sent (span i j journal.now.items)) }
    ensures integral { result.integral ≡ pos (integral_of budget (take (i + 1) journal.now.items) (span (i + 1) j journal.now.items)) }
    ensures window { result.window ≡ pos (rate_of budget (take i journal.now.items) * window (take i journal.now.items)) }
    ensures last { result.last ≡ last_from budget 0 (sent (span i j journal.now.items)) }
    ensures bound { pos (8000000 * result.bytes) ≤ℤ (result.integral +ℤ result.window +ℤ pos (8000000 * result.last)) }
{
    let counted = counted_over(budget, journal, i, j);
    Span {
        bytes: counted.bytes,
        integral: integral_over(budget, journal, i, j),
        window: window_before(budget, journal, i),
        last: counted.last,
    }
}

// What entries `i` to `j` sent of a budget.
fn counted_over(budget: Budget, journal: &Journal, i: u32, j: u32) -> Counted
    requires order { i ≤ j }
    requires within { j < length journal.now.items }
    requires legal { IsLegal journal.now.items }
    ensures { IsCount budget (sent (span i j journal.now.items)) result }
{
    let mut counted = Counted {
        bytes: 0,
        since: 0,
        last: 0,
    };
    for k in i..j + 1 {
        counted = budget.with_reply(counted, &entry_at(journal, k).reply);
    }
    counted
}

// The rate of a budget times the time, from entry `i` to entry `j`, in micro-bits.
fn integral_over(budget: Budget, journal: &Journal, i: u32, j: u32) -> Level
    requires order { i ≤ j }
    requires within { j < length journal.now.items }
    requires legal { IsLegal journal.now.items }
    ensures { result ≡ pos (integral_of budget (take (i + 1) journal.now.items) (span (i + 1) j journal.now.items)) }
{
    let mut integral: u128 = 0;
    let mut before = moment_of(&entry_at(journal, i).reply);
    for k in i + 1..j + 1 {
        let rate = budget.rate(tally_at(journal, k));
        let moment = moment_of(&entry_at(journal, k).reply);
        integral += u128::from(rate) * u128::from(moment - before);
        before = moment;
    }
    integral as i128
}

// The rate of a budget times the window, before entry `i`, in micro-bits.
fn window_before(budget: Budget, journal: &Journal, i: u32) -> Level
    requires within { i < length journal.now.items }
    requires legal { IsLegal journal.now.items }
    ensures { result ≡ pos (rate_of budget (take i journal.now.items) * window (take i journal.now.items)) }
{
    let tally = tally_at(journal, i);
    (u128::from(budget.rate(tally)) * u128::from(tally.window)) as i128
}
