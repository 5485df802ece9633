//! The top call.

ghost use Rattle.std.specs.Prelude.{IfSome};
ghost use Rattle.run_top.specs.Words.{command_of, plain_command_of};
ghost use Rattle.run_top.specs.Kept.{KeepsSource};
ghost use Rattle.run_top.specs.Served.{IsRun, streams};

use crate::checking::run_check;
use crate::comparing::run_compare;
use crate::looping::run_closed_loop;
use crate::making::run_make;
use crate::racing::run_race;
use crate::replay::run_replay;
use crate::resent::run_resend;
use crate::status::Status;
use crate::summing::run_demo;
use crate::words::{Command, WordList, read_words};
use run_io::{Gate, Sink, Source};
use std::alloc::Global;
use std::sync::Wait;
use std::thread::Threads;

/// Serves the words of a command line, waits for nobody and always returns.
///
/// `replay` reads a trace to the end of the source and writes the printed history of its calls in
/// the order of its lines, with its glances. `check` reads a trace and a printed history behind it,
/// and writes the verdict on the history: `legal` or `differs ENTRY`. `compare` reads a trace and
/// writes what the arrival filter and the trendline say of each sample of its calls. `make` with `--seed`,
/// `--calls` and `--actors` reads nothing and writes a made trace; `demo` with `--seed` and
/// `--calls` writes a summary of such a trace of one actor, replayed; `loop` with `--rate`, `--queue`,
/// `--delay` and `--millis` writes what a closed loop over such a link comes to. All other words are
/// `Usage`, `race` and `resend` too.
pub fn run_plain<S: Source, K: Sink>(
    alloc: Global,
    words: &WordList,
    source: &mut S,
    sink: &mut K,
) -> Status
    // The words alone decide on the command, and a command has its text, its causes and its beginnings.
    ensures served { IsRun (plain_command_of words.now.items) result (streams (S.left source.old) (S.faults source.old) (K.written sink.old) (K.faults sink.old)) (streams (S.left source.new) (S.faults source.new) (K.written sink.new) (K.faults sink.new)) }

    // A command that reads nothing leaves the source as it was, however it ends.
    ensures kept { IfSome (plain_command_of words.now.items) (λ c. KeepsSource c source.old source.new) }
{
    match read_words(words) {
        Some(Command::Replay) => run_replay(alloc, source, sink),
        Some(Command::Check) => run_check(alloc, source, sink),
        Some(Command::Compare) => run_compare(alloc, source, sink),
        Some(
            Command::Make {
                seed,
                calls,
                actors,
            },
        ) => run_make(alloc, seed, calls, actors, sink),
        Some(Command::Demo { seed, calls }) => run_demo(alloc, seed, calls, sink),
        Some(Command::Loop { settings, millis }) => run_closed_loop(alloc, settings, millis, sink),
        Some(Command::Race) | Some(Command::Resend { .. }) | None => Status::Usage,
    }
}

/// The top call: serves the words of a command line.
///
/// `race` reads a trace to the end of the source. Each actor makes the calls of its lines on a seat
/// of its own, at the same time as the others, and the gate is called before and after each line.
/// It writes the printed history of all their calls, and their glances. It may wait: a call of an
/// actor waits for its turn. `resend` with `--media`, `--rtx`, `--payload` and `--repeats` reads a trace
/// of one actor, serves its lines in their order and answers NACKs between them, and writes the printed
/// history and a line for each NACK. All other words go to [`run_plain`].
pub fn run<R: Threads + Wait + Sync, S: Source, K: Sink, G: Gate + Sync>(
    rt: &R,
    alloc: Global,
    words: &WordList,
    source: &mut S,
    sink: &mut K,
    gate: &G,
) -> Status
    // The words alone decide on the command, and a command has its text, its causes and its beginnings.
    ensures served { IsRun (command_of words.now.items) result (streams (S.left source.old) (S.faults source.old) (K.written sink.old) (K.faults sink.old)) (streams (S.left source.new) (S.faults source.new) (K.written sink.new) (K.faults sink.new)) }

    // A command that reads nothing leaves the source as it was, however it ends.
    ensures kept { IfSome (command_of words.now.items) (λ c. KeepsSource c source.old source.new) }
{
    match read_words(words) {
        Some(Command::Race) => run_race(rt, alloc, source, sink, gate),
        Some(Command::Resend { settings }) => run_resend(rt, alloc, settings, source, sink),
        _ => run_plain(alloc, words, source, sink),
    }
}
