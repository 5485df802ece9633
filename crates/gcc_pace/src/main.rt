//! `gcc_pace`: hands the words of its command line and the standard streams to the top call, prints
//! the status's text on standard error and ends with its code.
#![tactic(auto)]

use gcc_units::{Bytes, NoMemory};
use run_io::{OpenGate, StdSink, StdSource};
use run_top::{WordList, run};
use std::alloc::Global;
use std::env::{self, Args};
use std::io::{ErrorKind, Write};
use std::process::ExitCode;

/// The exit code where memory ran out, as that of the status.
const NO_MEMORY: u8 = 6;

/// The exit code where the arguments can't be read, which is that of no status.
const NO_ARGUMENTS: u8 = 7;

fn main(rt: HostRuntime) -> ExitCode {
    let alloc = rt.alloc();
    let args = match env::args(&rt) {
        Ok(args) => args,
        Err(e) => {
            return if e.kind() == ErrorKind::OutOfMemory {
                let _ = rt.stderr().write_all(b"no memory\n");
                ExitCode::from(NO_MEMORY)
            } else {
                let _ = rt.stderr().write_all(b"arguments\n");
                ExitCode::from(NO_ARGUMENTS)
            };
        }
    };
    let Ok(words) = word_list(alloc, args) else {
        let _ = rt.stderr().write_all(b"no memory\n");
        return ExitCode::from(NO_MEMORY);
    };
    let mut source = StdSource::new(rt.stdin());
    let mut sink = StdSink::new(rt.stdout());
    let status = run(&rt, alloc, &words, &mut source, &mut sink, &OpenGate);
    let Ok(text) = status.text(alloc) else {
        let _ = rt.stderr().write_all(b"no memory\n");
        return ExitCode::from(NO_MEMORY);
    };
    let _ = rt.stderr().write_all(text.as_slice());
    ExitCode::from(status.code())
}

/// The words behind the program's name.
fn word_list(alloc: Global, args: Args<Global>) -> Result<WordList, NoMemory> {
    let mut words = WordList::new(alloc);
    for word in args.skip(1) {
        let bytes = word.into_bytes();
        if bytes.len() > u32::MAX as usize {
            return Err(NoMemory);
        }
        if words.push(Bytes::from_vec(bytes)).is_err() {
            return Err(NoMemory);
        }
    }
    Ok(words)
}
