//! Comparing the filter with the trendline over the credits of a trace.

ghost use Rattle.std.specs.Prelude.{◌≡◌, ◌≢◌, ℕ, ◌≤◌, ◌++◌, [], ◌∷◌, List, length, Ok, IfOk, IfErr, OnOk, IfSome};
ghost use Rattle.std.specs.String.{string_bytes};
ghost use Rattle.gcc_units.specs.declared.shared_types.Credit.{Credit as CreditIs};
ghost use Rattle.packet_groups.specs.Groups.{samples};
ghost use Rattle.call_trace.specs.Ordered.{ordered};
ghost use Rattle.call_trace.specs.Reading.{trace_at, FailsTrace};
ghost use Rattle.send_laws.specs.Credits.{credits};
ghost use Rattle.send_laws.specs.InRange.{all_credits};
ghost use Rattle.run_top.specs.declared.words.Command.TheVariants as command;
ghost use Rattle.run_top.specs.Compared.{compared_line, compared_text, comparison, IsSoFar, TakesCredits, AreInRange, IsComparison};
ghost use Rattle.run_top.specs.Outcome.{IsReadUp, Writes};
ghost use Rattle.run_top.specs.Served.{IsServed, streams};
ghost use Rattle.run_top.specs.Stops.{IsStop};

use crate::beside::{Beside, Compared};
use crate::reading::read_all;
use crate::replay::{read_bytes, serve_lines};
use crate::status::Status;
use crate::writing::write_text;
use call_trace::{ReadTrace, Trace};
use gcc_units::{Credit, MOST_LINES, MOST_TRACE_BYTES, NoMemory};
use packet_groups::{Groups, samples_stay_few};
use reply_text::push_signal;
use run_io::{Sink, Source};
use send_core::{Journal, Reply};
use send_laws::{credits_are_in_range, entries_have_bytes};
use std::alloc::Global;
use trendline::gaps_stay_within;

/// The comparison so far: the groups and the parts that were given all credits up to here, and the lines.
#[derive(Drop)]
pub struct Comparing {
    pub groups: Groups,
    pub beside: Beside,
    pub text: String,
}

/// Appends the line of a sample, of which so many stand before it.
fn push_compared(text: &mut String, k: u64, compared: &Compared) -> Result<(), NoMemory>
    ensures { OnOk result (string_bytes text.new ≡ string_bytes text.old ++ compared_line k compared.now) }
{
    let mean = compared.mean;
    let value = compared.value;
    write!(text, "{k} filter ")?;
    push_signal(text, compared.filter)?;
    write!(text, " {mean} trend ")?;
    push_signal(text, compared.trend)?;
    Ok(write!(text, " {value}\n")?)
}

impl Comparing {
    /// Before any credit.
    fn new(alloc: Global) -> Result<Self, NoMemory>
        ensures { IfOk result (λ c. IsSoFar c []) }
    {
        Ok(Comparing {
            groups: Groups::new(),
            beside: Beside::new(alloc)?,
            text: String::new(alloc),
        })
    }

    /// Takes a credit, and appends the line of the sample that it gives.
    fn take(&mut self, credit: &Credit) -> Result<(), NoMemory>
        requires { TakesCredits self.old (credit.now ∷ []) }
        ensures { OnOk result ((credits : List CreditIs) → IsSoFar self.old credits → IsSoFar self.new (credits ++ credit.now ∷ [])) }
    {
        gaps_stay_within();
        samples_stay_few();
        let k = self.beside.count();
        let Some(sample) = self.groups.add(credit) else {
            return Ok(());
        };
        let compared = self.beside.step(&sample);
        push_compared(&mut self.text, k, &compared)
    }

    /// Takes all these credits.
    fn take_all(&mut self, received: &[Credit]) -> Result<(), NoMemory>
        requires { TakesCredits self.old received.now }
        ensures { OnOk result ((credits : List CreditIs) → IsSoFar self.old credits → IsSoFar self.new (credits ++ received.now)) }
    {
        for credit in received {
            self.take(credit)?;
        }
        Ok(())
    }

    /// Takes the credits that a reply lists.
    fn take_reply(&mut self, reply: &Reply) -> Result<(), NoMemory>
        requires { TakesCredits self.old (credits reply.now) }
        ensures { OnOk result ((before : List CreditIs) → IsSoFar self.old before → IsSoFar self.new (before ++ credits reply.now)) }
    {
        match reply {
            Reply::Credited { judged, .. } => self.take_all(judged.received.as_slice()),
            Reply::Accepted { .. } => Ok(()),
            Reply::Paced { .. } => Ok(()),
            Reply::Configured { .. } => Ok(()),
            Reply::Refused { .. } => Ok(()),
        }
    }

    /// The text after the last credit.
    fn finish(self) -> Result<String, NoMemory>
        ensures { IfOk result (λ text. (credits : List CreditIs) → IsSoFar self credits → string_bytes text ≡ compared_text (samples credits)) }
    {
        let count = self.beside.count();
        let mut text = self.text;
        write!(text, "samples {count}\n")?;
        Ok(text)
    }
}

/// The comparison over all credits of a journal.
fn compare_journal(alloc: Global, journal: &Journal) -> Result<String, NoMemory>
    requires { AreInRange (all_credits journal.now.items) }
    ensures { IfOk result (λ text. string_bytes text ≡ comparison journal.now.items) }
{
    let mut comparing = Comparing::new(alloc)?;
    for k in 0..journal.len() {
        let Some(entry) = journal.entry(k) else {
            unreachable!()
        };
        comparing.take_reply(&entry.reply)?;
    }
    comparing.finish()
}

/// The comparison over a trace's calls in the order of its lines.
fn compare_lines(alloc: Global, trace: Trace) -> Result<String, NoMemory>
    requires { length trace.lines.items ≤ MOST_LINES }
    ensures { IfOk result (λ text. string_bytes text ≡ comparison (ordered trace.lines.items)) }
{
    let (sender, _seen) = serve_lines(alloc, trace.lines)?;
    let journal = sender.journal();
    credits_are_in_range();
    entries_have_bytes(journal);
    compare_journal(alloc, journal)
}

/// The comparison over the trace that the bytes spell. They go before its calls are served.
fn compare_trace(alloc: Global, bytes: Vec<u8>) -> Result<String, ReadTrace>
    requires { length bytes.items ≤ MOST_TRACE_BYTES }
    ensures found { IfOk result (λ text. IsComparison bytes.items (string_bytes text) (trace_at MOST_LINES bytes.items)) }
    ensures fault { IfErr result (λ e. FailsTrace e (trace_at MOST_LINES bytes.items)) }
{
    let trace = read_bytes(alloc, bytes)?;
    match compare_lines(alloc, trace) {
        Ok(text) => Ok(text),
        Err(NoMemory) => Err(ReadTrace::NoMemory),
    }
}

/// The comparison over the trace that a source gives to its end.
fn source_text<S: Source>(alloc: Global, source: &mut S) -> Result<String, Status>
    ensures text { IfOk result (λ text. IfSome (S.left source.old) (λ bytes. Writes command.Compare bytes Status.Done (string_bytes text))) }
    ensures read { OnOk result (IsReadUp command.Compare (S.left source.old) (S.left source.new)) }
    ensures stop { IfErr result (λ ended. IsStop command.Compare ended (S.left source.old) (S.faults source.old) (S.faults source.new)) }
{
    let bytes = read_all(alloc, source, MOST_TRACE_BYTES as usize)?;
    Ok(compare_trace(alloc, bytes)?)
}

/// Reads a trace to the end of the source, serves its calls in the order of its lines, and writes
/// what the filter and the trendline say of each sample.
pub fn run_compare<S: Source, K: Sink>(alloc: Global, source: &mut S, sink: &mut K) -> Status
    ensures { IsServed command.Compare result (streams (S.left source.old) (S.faults source.old) (K.written sink.old) (K.faults sink.old)) (streams (S.left source.new) (S.faults source.new) (K.written sink.new) (K.faults sink.new)) }
{
    match source_text(alloc, source) {
        Ok(text) => write_text(sink, text.as_bytes(), Status::Done),
        Err(status) => status,
    }
}
