//! What the words of the command line ask for.

ghost use Rattle.std.specs.Prelude.{◌≤◌, IfOk, IfSome};
ghost use Rattle.gcc_live.specs.Jobs.{CanBeDone};

use crate::loop_words::{Asked, loop_asked};
use call_trace::number;
use gcc_units::NoMemory;
use std::alloc::Global;
use std::env::Args;

/// The most senders that one run makes.
const MOST_SENDERS: u32 = 1_000_000;

/// What is to be done.
#[derive(Drop)]
pub enum Job {
    /// Made traces are served, each on a sender of its own.
    Made { senders: u32, calls: u32, seed: u64 },
    /// The trace of standard input is served.
    Against,
    /// Senders run in a closed loop over a stated link.
    Loop(Asked),
    /// The reports of standard input are given to a level control.
    Level,
}

/// A number from 1 up to `most`.
fn count(word: &[u8], most: u32) -> Option<u32>
    ensures { IfSome result (λ n. (1 ≤ n) × (n ≤ most)) }
{
    let value = number(word)?;
    if value == 0 || value > u64::from(most) {
        return None;
    }
    Some(value as u32)
}

/// What the words behind the program's name ask for, if they ask for something.
pub fn job_of(alloc: Global, args: Args<Global>) -> Result<Option<Job>, NoMemory>
    ensures { IfOk result (λ o. IfSome o CanBeDone) }
{
    let mut words = Vec::new(alloc);
    for word in args.skip(1) {
        if words.push(word.into_bytes()).is_err() {
            return Err(NoMemory);
        }
    }
    if let [first, rest @ ..] = words.as_slice()
        && first.as_slice() == b"loop".as_slice()
    {
        return match loop_asked(alloc, rest)? {
            Some(asked) => Ok(Some(Job::Loop(asked))),
            None => Ok(None),
        };
    }
    Ok(asked(words.as_slice()))
}

/// Made traces, where the numbers are within their limits.
fn made(senders: &[u8], calls: &[u8], seed: &[u8]) -> Option<Job>
    ensures { IfSome result CanBeDone }
{
    Some(Job::Made {
        senders: count(senders, MOST_SENDERS)?,
        calls: count(calls, u32::MAX)?,
        seed: number(seed)?,
    })
}

/// What words without `loop` at the front ask for.
fn asked(words: &[Vec<u8>]) -> Option<Job>
    ensures { IfSome result CanBeDone }
{
    match words {
        [one] => {
            if one.as_slice() == b"--against".as_slice() {
                Some(Job::Against)
            } else if one.as_slice() == b"level".as_slice() {
                Some(Job::Level)
            } else {
                None
            }
        }
        [first, senders, second, calls, third, seed] => {
            if first.as_slice() == b"--senders".as_slice()
                && second.as_slice() == b"--calls".as_slice()
                && third.as_slice() == b"--seed".as_slice()
            {
                made(senders.as_slice(), calls.as_slice(), seed.as_slice())
            } else {
                None
            }
        }
        _ => None,
    }
}
