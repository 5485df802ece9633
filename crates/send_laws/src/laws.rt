//! Laws of every answered history of a sender, whatever calls made it and however many: each of its
//! replies is the one that the entries before it determine. A legal history is one that a journal may
//! hold, too. Each law is the contract of a function that does nothing.

ghost use Rattle.std.specs.Prelude.{◌≡◌, ◌≢◌, ℕ, ◌+◌, ◌*◌, ◌≤◌, ◌↔◌, Some, None, List, [], ◌∷◌, ◌++◌, length, map, slice_index, All, AllPairs, Contains};
ghost use Rattle.gcc_units.specs.declared.limits.TheConstants.{GREATEST_MOMENT, JOURNAL_PACKETS};
ghost use Rattle.packet_groups.specs.Kept.{IsOfJournal};
ghost use Rattle.twcc_report.specs.Spelling.{Feedback};
ghost use Rattle.sent_history.specs.Crediting.{account, outstanding};
ghost use Rattle.sent_history.specs.Balance.{IsOutstanding, IsNamedReceived, expired};
ghost use Rattle.send_core.specs.declared.call.Entry.{Entry};
ghost use Rattle.send_core.specs.History.{at_of, tickets, sent, sent_by};
ghost use Rattle.send_core.specs.Levels.{rate, window, padding_rate, level_at};
ghost use Rattle.send_core.specs.Reply.{IsAnswered, IsLegal};
ghost use Rattle.send_core.specs.Reports.{events};
ghost use Rattle.send_laws.specs.Credits.{Brings, credits, number_of, credited_numbers, AreByteReports};
ghost use Rattle.send_laws.specs.Fills.{IsLeastFill};
ghost use Rattle.send_laws.specs.InRange.{all_credits};
ghost use Rattle.send_laws.specs.Order.{AreInOrder, AreFresh, AreNumbered};
ghost use Rattle.send_laws.specs.Probes.{planned_rate, probe_sizes, probe_moments, before_last, last_of, time_over};
ghost use Rattle.send_laws.specs.Spans.{media_bytes, spent_bytes, last_media, integral, padding_bytes, last_padding, padding_integral};

use twcc_report::reading_is_by_checks;

/// Law: the packets of a pace leave by priority and then by arrival: each record is of the packet
/// that goes next among the accepted ones that no record so far is of, and of none only where none
/// is left.
pub fn packets_leave_in_order()
    ensures { (before rest : List Entry) (e : Entry) → IsAnswered (before ++ e ∷ rest) → AreInOrder (tickets before) (sent before) (sent_by e.reply) }
{}

/// Law: no packet leaves twice.
pub fn no_packet_leaves_twice()
    ensures { (history : List Entry) → IsAnswered history → AreFresh [] (sent history) }
{}

/// Law: the records of all that was sent are numbered one after the other from 0 on, so no number
/// is used twice.
pub fn numbers_are_places()
    ensures { (history : List Entry) → IsAnswered history → AreNumbered 0 (sent history) }
{}

/// Law: the media level when a call is served is the least of these numbers: for each entry, and for
/// the call itself, what the level holds when it was full there (the rate in force before it times
/// the window), with what came in since and without the media and the probes sent since; and what it
/// holds when it was empty at first (in micro-bits).
pub fn media_level_is_least()
    ensures { (history : List Entry) (moment : ℕ) → IsLeastFill (level_at history moment) history moment }
{}

/// Law: over any span of entries, paced media is no more than what the rates in force come to from
/// the first entry to the last, the rate in force before the first entry times the window, and the
/// last packet (in micro-bits; 8,000,000 a byte).
pub fn media_is_bounded()
    ensures { (before rest : List Entry) (first : Entry) → IsAnswered (before ++ first ∷ rest)
        → 8000000 * media_bytes (sent (first ∷ rest))
        ≤ integral (before ++ first ∷ []) rest + rate before * window before + 8000000 * last_media (sent (first ∷ rest)) }
{}

/// Law: over any span of entries, paced media together with the probes before the last of it is no
/// more than what the rates in force come to from the first entry to the last, the rate in force
/// before the first entry times the window, and the last media packet (in micro-bits; 8,000,000 a
/// byte). Probes behind the last media packet are not bounded by it.
pub fn media_and_probes_are_bounded()
    ensures { (before rest : List Entry) (first : Entry) → IsAnswered (before ++ first ∷ rest)
        → 8000000 * spent_bytes (sent (first ∷ rest))
        ≤ integral (before ++ first ∷ []) rest + rate before * window before + 8000000 * last_media (sent (first ∷ rest)) }
{}

/// Law: over any span of entries, padding is no more than what the padding rates come to from the
/// first entry to the last, the padding rate before the first entry times the window, and the last
/// padding packet (in micro-bits; 8,000,000 a byte).
pub fn padding_is_bounded()
    ensures { (before rest : List Entry) (first : Entry) → IsAnswered (before ++ first ∷ rest)
        → 8000000 * padding_bytes (sent (first ∷ rest))
        ≤ padding_integral (before ++ first ∷ []) rest + padding_rate before * window before + 8000000 * last_padding (sent (first ∷ rest)) }
{}

/// Law: a report that is served in time credits exactly the packets that are outstanding by all that
/// was sent and reported before, and that it names received.
pub fn reports_credit_exactly()
    ensures { (before rest : List Entry) (e : Entry) (report : Feedback) (n : ℕ) → IsAnswered (before ++ e ∷ rest)
        → Brings e.call report → at_of e.call ≤ GREATEST_MOMENT
        → Contains (map number_of (credits e.reply)) n
        ↔ (IsOutstanding (account (events before)) n × IsNamedReceived (account (events before)) report n) }
{}

/// Law: the numbers that the replies of a history list as credited are, in their order, those that
/// its reports credited. So what is outstanding and what expired goes by the replies.
pub fn replies_list_the_credits()
    ensures { (history : List Entry) → IsAnswered history → (account (events history)).credited ≡ credited_numbers history }
{}

/// Law: no number stands twice among those that the replies of a history list as credited, also
/// within one reply. A history's reports are lists of bytes, as all that callers hand in are.
pub fn no_number_is_credited_twice()
    ensures { (history : List Entry) → IsAnswered history → AreByteReports history → AllPairs (λ (m n : ℕ). m ≢ n) (credited_numbers history) }
{}

/// Law: the packets that were sent are those that the replies list as credited, those that are
/// outstanding and those that expired.
pub fn packets_balance()
    ensures { (history : List Entry) → IsAnswered history → AreByteReports history
        → length (sent history) ≡ length (credited_numbers history) + outstanding (events history) + expired (events history) }
{}

/// Law: the credits that the replies of a journal's history list are few, and each was sent and arrived
/// within what the trendline takes. A history's reports are lists of bytes.
pub fn credits_are_in_range()
    ensures few { (history : List Entry) → IsLegal history → AreByteReports history → length (all_credits history) ≤ JOURNAL_PACKETS }
    ensures within { (history : List Entry) → IsLegal history → AreByteReports history → All IsOfJournal (all_credits history) }
{
    reading_is_by_checks();
}

/// Law: the bytes of a probe cluster before its last packet are no more than its rate comes to from
/// its first packet to its last (in micro-bits; 8,000,000 a byte). The first is no later than the
/// last, and a cluster that was not planned has no packets.
pub fn probes_are_bounded()
    ensures bound { (history : List Entry) (id rate : ℕ) → IsAnswered history → planned_rate id history ≡ Some rate
        → 8000000 * before_last (probe_sizes id history) ≤ rate * time_over (probe_moments id history) }
    ensures order { (history : List Entry) (id : ℕ) → IsAnswered history → slice_index (probe_moments id history) 0 ≤ last_of (probe_moments id history) }
    ensures planned { (history : List Entry) (id : ℕ) → IsAnswered history → planned_rate id history ≡ None → probe_sizes id history ≡ [] }
{}
