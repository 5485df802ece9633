//! How a run ended.

ghost use Rattle.std.specs.Prelude.{◌≡◌, IfOk};
ghost use Rattle.std.specs.String.{string_bytes};
ghost use Rattle.gcc_units.specs.Listed.{bare};
ghost use Rattle.run_top.specs.Ending.{code_of, place_text, text_of};
ghost use Rattle.run_top.specs.Stops.{stopped_by, refused_by};
ghost use Rattle.run_top.specs.declared.status.Status.TheVariants as statuses;

use crate::reading::ReadStop;
use call_trace::{ReadTrace, TOO_LONG};
use gcc_units::{Bytes, NoMemory};
use std::alloc::Global;

/// How a run ended.
#[derive(Clone, Copy, PartialEq, Eq, Debug)]
pub enum Status {
    /// All was read, served and written.
    Done,
    /// The words are none of those that are accepted. Nothing was read or written.
    Usage,
    /// The source gave no trace: the first bad line, counted from 1, and in it the first bad field;
    /// or line 0 and reason 12 where it gave too many bytes. Nothing was written.
    BadTrace { line: u32, reason: u32 },
    /// A read failed. Nothing was written.
    ReadFault,
    /// A write failed. What was written is the beginning of what was to be written.
    WriteFault,
    /// Memory ran out. Nothing was written.
    NoMemory,
    /// `check` found that what stands behind the trace is no legal text for it: the place, as
    /// its verdict names it. The verdict was written.
    Differs { entry: u32 },
}

impl From<ReadStop> for Status {
    ghost from_gives = { λ stop made. made ≡ stopped_by stop };

    fn from(stop: ReadStop) -> Status {
        match stop {
            ReadStop::Fault => Status::ReadFault,
            ReadStop::TooLong => Status::BadTrace {
                line: 0,
                reason: TOO_LONG,
            },
            ReadStop::NoMemory => Status::NoMemory,
        }
    }
}

impl From<ReadTrace> for Status {
    ghost from_gives = { λ error made. made ≡ refused_by error };

    fn from(error: ReadTrace) -> Status {
        match error {
            ReadTrace::Fault(fault) => Status::BadTrace {
                line: fault.line,
                reason: fault.reason,
            },
            ReadTrace::NoMemory => Status::NoMemory,
        }
    }
}

impl From<NoMemory> for Status {
    ghost from_gives = { λ _ made. made ≡ statuses.NoMemory };

    fn from(_error: NoMemory) -> Status {
        Status::NoMemory
    }
}

impl Status {
    /// The exit code: 0, 2, 3, 4, 5, 6 or 8.
    pub fn code(&self) -> u8
        ensures { result ≡ code_of self.now }
    {
        match self {
            Status::Done => 0,
            Status::Usage => 2,
            Status::BadTrace { .. } => 3,
            Status::ReadFault => 4,
            Status::WriteFault => 5,
            Status::NoMemory => 6,
            Status::Differs { .. } => 8,
        }
    }

    /// The line for standard error: nothing for `Done`, else a line that names the status.
    pub fn text(&self, alloc: Global) -> Result<Bytes, NoMemory>
        ensures { IfOk result (λ bytes. bytes ≡ bare (text_of self.now)) }
    {
        let line = status_line(alloc, *self)?;
        if line.len() > u32::MAX as usize {
            return Err(NoMemory);
        }
        Ok(Bytes::from_vec(line.into_bytes()))
    }
}

fn place_text(alloc: Global, line: u32, reason: u32) -> Result<String, NoMemory>
    ensures { IfOk result (λ s. string_bytes s ≡ place_text line reason) }
{
    Ok(format!(in alloc; "line {line} reason {reason}")?)
}

fn status_line(alloc: Global, status: Status) -> Result<String, NoMemory>
    ensures { IfOk result (λ s. string_bytes s ≡ text_of status) }
{
    match status {
        Status::Done => Ok(String::new(alloc)),
        Status::Usage => Ok(format!(in alloc; "usage\n")?),
        Status::BadTrace { line, reason } => {
            let place = place_text(alloc, line, reason)?;
            Ok(format!(in alloc; "bad trace: {place}\n")?)
        }
        Status::ReadFault => Ok(format!(in alloc; "read fault\n")?),
        Status::WriteFault => Ok(format!(in alloc; "write fault\n")?),
        Status::NoMemory => Ok(format!(in alloc; "no memory\n")?),
        Status::Differs { entry } => Ok(format!(in alloc; "differs: entry {entry}\n")?),
    }
}
