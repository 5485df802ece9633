//! What the laws of a sender say of traces and of the texts that they come to.
//!
//! The laws of credit ask that the reports of a history are lists of bytes. A trace spells each report in hex,
//! so this holds of every history that serves a trace's calls, and what `replay`, `race` and `check` print or
//! accept has exact credits with no premise left.
#![tactic(auto)]

ghost use Rattle.std.specs.Prelude.{◌≤◌, List, ℕ, length};
ghost use Rattle.gcc_units.specs.declared.limits.TheConstants.{MOST_ENTRIES};
ghost use Rattle.call_trace.specs.Grammar.{IsTrace};
ghost use Rattle.call_trace.specs.Merge.{Merges};
ghost use Rattle.call_trace.specs.Ordered.{ordered};
ghost use Rattle.call_trace.specs.Plain.{Plain};
ghost use Rattle.reply_text.specs.Legal.{IsLegalText};
ghost use Rattle.send_core.specs.declared.call.Entry.{Entry};
ghost use Rattle.send_laws.specs.Credits.{AreByteReports};
ghost use Rattle.trace_laws.specs.Exact.{HasExactCredits, PrintsExactCredits};

/// Law: each report of a history that serves the calls of a trace is a list of bytes.
pub fn trace_reports_are_bytes()
    ensures { (bytes : List ℕ) (trace : Plain) (history : List Entry) → IsTrace bytes trace → Merges trace.lines history → AreByteReports history }
{}

/// Law: no packet is credited twice by the replies of a trace's calls in the order of its lines, as
/// `replay` prints them, and each packet that was sent is credited, outstanding or expired.
pub fn replayed_credits_are_exact()
    ensures { (bytes : List ℕ) (trace : Plain) → IsTrace bytes trace → length trace.lines ≤ MOST_ENTRIES → HasExactCredits (ordered trace.lines) }
{}

/// Law: the same of each legal text of a trace, as `race` prints it and `check` accepts it.
pub fn printed_credits_are_exact()
    ensures { (bytes text : List ℕ) (trace : Plain) → IsTrace bytes trace → IsLegalText trace.lines trace.actors text → PrintsExactCredits trace text }
{}
