//! Building a list of reports, number by number.

ghost use Rattle.std.specs.Prelude.{◌≡◌, ℕ, ◌+◌, ◌-◌, ◌%◌, ◌≤◌, ◌∷◌, ◌++◌, [], List, Option, None, false, OnOk};
ghost use Rattle.std.specs.Option.{ForSome, unwrap_or};
ghost use Rattle.link_path.specs.Division.{Run, Told, begins, delta_status, runs_of};
ghost use Rattle.link_path.specs.Building.{IsAt, IsBuilt};

use crate::{GREATEST_DELTA, GREATEST_SMALL_DELTA, MEDIA, RECEIVER};
use gcc_units::{MOST_STATUSES, NoMemory, Sequence};
use std::alloc::Global;
use std::mem;
use twcc_report::{Report, Status, StatusList};

/// Reports in the order in which they are sent.
pub type ReportList = Sequence<Report>;

/// Reports under way.
#[derive(Drop)]
pub struct Building {
    /// The reports that are done.
    pub reports: ReportList,
    /// The statuses of the next one.
    pub statuses: StatusList,
    /// The first and the last arrival in it.
    pub first: Option<u32>,
    pub last: Option<u32>,
    /// The last arrival before it.
    pub before: u32,
    /// The first number in it, modulo 65,536.
    pub base: u16,
    /// The count of the reports before it, modulo 256.
    pub feedback: u8,
}

/// The status of a packet that arrived so much later, in quarter-milliseconds.
fn status_of(delta: u32) -> Status
    requires { delta ≤ GREATEST_DELTA }
    ensures { result ≡ delta_status delta }
{
    if delta <= GREATEST_SMALL_DELTA {
        Status::Small(delta as u8)
    } else {
        Status::Large(delta as i16)
    }
}

/// Puts a status at the end.
fn push(statuses: &mut StatusList, status: Status) -> Result<(), NoMemory>
    ensures { OnOk result (statuses.new.items ≡ statuses.old.items ++ status ∷ []) }
{
    match statuses.push(status) {
        Ok(()) => Ok(()),
        Err((failed, _)) => Err(failed),
    }
}

/// Puts a report at the end.
fn push_report(reports: &mut ReportList, report: Report) -> Result<(), NoMemory>
    ensures { OnOk result (reports.new.items ≡ reports.old.items ++ report ∷ []) }
{
    match reports.push(report) {
        Ok(()) => Ok(()),
        Err((failed, _)) => Err(failed),
    }
}

impl Building {
    /// No report yet, where earlier lists told of the numbers below one, in so many reports modulo 256.
    pub fn new(alloc: Global, from: u128, last: u32, feedback: u8) -> Self
        ensures { IsBuilt result (record { reports = feedback; numbers = from; last = last }) [] }
    {
        Building {
            reports: Sequence::new(alloc),
            statuses: Sequence::new(alloc),
            first: None,
            last: None,
            before: last,
            base: (from % 65_536) as u16,
            feedback,
        }
    }

    /// Ends the last report, where it has a status.
    pub fn end(&mut self, alloc: Global) -> Result<(), NoMemory>
        ensures { OnOk result ((told : Told) (numbers : List (Option ℕ)) → IsBuilt self.old told numbers → IsAt self.new told (runs_of numbers) []) }
    {
        if self.statuses.is_empty() {
            return Ok(());
        }
        self.close(alloc)?;
        Ok(())
    }

    /// Whether the report under way ends before this number.
    fn begins(&self, there: Option<u32>) -> bool
        ensures value { (told : Told) (ended : List Run) (run : Run) → IsAt self.now told ended run → result ≡ begins run there }
        ensures near { result ≡ false → ForSome there (λ time. time - unwrap_or self.now.last time ≤ GREATEST_DELTA) }
    {
        if self.statuses.len() >= MOST_STATUSES {
            return true;
        }
        match there {
            None => false,
            Some(time) => time.saturating_sub(self.last.unwrap_or(time)) > GREATEST_DELTA,
        }
    }

    /// Ends the report under way.
    fn close(&mut self, alloc: Global) -> Result<(), NoMemory>
        ensures at { OnOk result ((told : Told) (ended : List Run) (run : Run) → IsAt self.old told ended run → IsAt self.new told (ended ++ run ∷ []) []) }
        ensures last { OnOk result (self.new.last ≡ None) }
    {
        let statuses = mem::replace(&mut self.statuses, Sequence::new(alloc));
        let count = (statuses.len() % 65_536) as u16;
        let report = Report {
            sender: RECEIVER,
            media: MEDIA,
            base: self.base,
            reference: (self.first.unwrap_or(self.before) / 256) as i32,
            feedback: self.feedback,
            statuses,
        };
        self.base = self.base.wrapping_add(count);
        self.feedback = self.feedback.wrapping_add(1);
        self.before = self.last.unwrap_or(self.before);
        self.first = None;
        self.last = None;
        push_report(&mut self.reports, report)?;
        Ok(())
    }

    /// Puts a number into the report under way.
    fn append(&mut self, there: Option<u32>) -> Result<(), NoMemory>
        requires near { ForSome there (λ time. time - unwrap_or self.old.last time ≤ GREATEST_DELTA) }
        ensures { OnOk result ((told : Told) (ended : List Run) (run : Run) → IsAt self.old told ended run → IsAt self.new told ended (run ++ there ∷ [])) }
    {
        let Some(time) = there else {
            push(&mut self.statuses, Status::NotReceived)?;
            return Ok(());
        };
        // The first delta of a report counts from its reference.
        let from = self.last.unwrap_or(256 * (time / 256));
        push(&mut self.statuses, status_of(time.saturating_sub(from)))?;
        self.first = Some(self.first.unwrap_or(time));
        self.last = Some(time);
        Ok(())
    }

    /// Puts in the next number: when it arrived, or that it did not.
    pub fn put(&mut self, alloc: Global, there: Option<u32>) -> Result<(), NoMemory>
        ensures { OnOk result ((told : Told) (numbers : List (Option ℕ)) → IsBuilt self.old told numbers → IsBuilt self.new told (numbers ++ there ∷ [])) }
    {
        if self.begins(there) {
            self.close(alloc)?;
            self.append(there)?;
            return Ok(());
        }
        self.append(there)?;
        Ok(())
    }
}
