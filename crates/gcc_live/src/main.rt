//! `gcc_live`: calls of made or written traces on senders without a journal, and closed loops of them.
//!
//! `gcc_live --senders N --calls N --seed N` serves a made trace on each of so many senders, one
//! after the other, and prints for each a line with its calls, the packets that left, their bytes and
//! the target. `gcc_live --against` reads a trace from standard input and prints the history that the
//! sender's replies spell, which is the text that `gcc_pace replay` prints for it.
//! `gcc_live loop --rate R --queue Q --delay D --seconds S` runs one or two senders in a closed loop over
//! a stated link, and prints what was measured: R in bit/s, Q and D in milliseconds. It also takes
//! `--step AT:RATE`, as often as the rate changes, `--loss PERMILLE`, `--jitter MS`, `--seed N`,
//! `--senders 1|2`, `--control gradient|level` and `--trace`.
#![tactic(auto)]

mod against;
mod levels;
mod loop_words;
mod looping;
mod made;
mod serving;
mod stop;
mod telling;
mod words;

ghost use Rattle.gcc_live.specs.Jobs.{CanBeDone};

use crate::against::replay;
use crate::levels::run_level;
use crate::looping::run_loop;
use crate::made::run_made;
use crate::stop::Stop;
use crate::words::{Job, job_of};
use gcc_units::NoMemory;
use run_top::Status;
use std::alloc::Global;
use std::env::{self, Args};
use std::io::{Read, Write};
use std::process::ExitCode;

/// The exit code where memory ran out, as that of the status.
const NO_MEMORY: u8 = 6;

/// The exit code where the arguments can't be read, which is that of no status.
const NO_ARGUMENTS: u8 = 7;

/// All of standard input.
fn read_input(rt: &HostRuntime) -> Result<Vec<u8>, Stop> {
    let mut bytes = Vec::new(rt.alloc());
    match rt.stdin().read_to_end(&mut bytes) {
        Ok(_) => Ok(bytes),
        Err(_) => Err(Stop::Ended(Status::ReadFault)),
    }
}

/// What is printed for a job.
fn text_of(rt: &HostRuntime, job: Job) -> Result<String, Stop>
    requires { CanBeDone job }
{
    let alloc = rt.alloc();
    match job {
        Job::Made {
            senders,
            calls,
            seed,
        } => run_made(alloc, senders, calls, seed),
        Job::Loop(asked) => run_loop(alloc, &asked),
        Job::Against => replay(alloc, read_input(rt)?.as_slice()),
        Job::Level => run_level(alloc, read_input(rt)?.as_slice()),
    }
}

/// Prints what the job of these arguments says.
fn run(rt: &HostRuntime, args: Args<Global>) -> Result<(), Stop> {
    let job = match job_of(rt.alloc(), args) {
        Err(NoMemory) => return Err(Stop::Ended(Status::NoMemory)),
        Ok(None) => return Err(Stop::Ended(Status::Usage)),
        Ok(Some(job)) => job,
    };
    let text = text_of(rt, job)?;
    match rt.stdout().write_all(text.as_bytes()) {
        Ok(()) => Ok(()),
        Err(_) => Err(Stop::Ended(Status::WriteFault)),
    }
}

fn main(rt: HostRuntime) -> ExitCode {
    let Ok(args) = env::args(&rt) else {
        let _ = rt.stderr().write_all(b"arguments\n");
        return ExitCode::from(NO_ARGUMENTS);
    };
    let Err(stop) = run(&rt, args) else {
        return ExitCode::from(0);
    };
    let Ok(line) = stop.text(rt.alloc()) else {
        let _ = rt.stderr().write_all(b"no memory\n");
        return ExitCode::from(NO_MEMORY);
    };
    let _ = rt.stderr().write_all(line.as_slice());
    ExitCode::from(stop.code())
}
