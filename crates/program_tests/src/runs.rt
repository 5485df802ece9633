//! Runs over memory: faults of the outside, and what a write is handed. What the rows that were
//! worked by hand write stands in the repository's vectors.

ghost use Rattle.std.specs.Prelude.{◌<◌, None};

use gcc_units::{Bytes, IdList};
use run_io::{Failed, MemSink, MemSource, Sink};
use run_top::{Status, WordList, run, run_plain};
use std::alloc::Global;
use std::process::Abort;
use std::test::Fail;

/// The room of a sink that has enough.
const ROOM: u64 = 1 << 20;

/// How many calls the long trace has.
const CALLS: usize = 10_000;

/// The length of its printed history: `gcc-history 1`, a line `0 paced 0 0` a call, and
/// `end 10000 0 300000`.
const LONG_TEXT: usize = 14 + 12 * CALLS + 19;

pub(crate) fn smallest_trace() -> &'static [u8] {
    b"gcc-trace 1 1
E 0 1000 v 9060000100000000000000aabede000131000000
E 0 1100 a 906f000100000000000000bbbede000131000000
P 0 2000
end
"
}

pub(crate) fn smallest_text() -> &'static [u8] {
    b"gcc-history 1
0 accepted 1000 0
0 accepted 1100 1
0 paced 2000 2 0:a:1:20 1:m:0:20
end 3 2 300000
"
}

pub(crate) fn bytes_of(alloc: Global, text: &[u8]) -> Result<Bytes, Fail> {
    let mut bytes = Bytes::new(alloc);
    for byte in text {
        bytes.push(*byte).ok().ok_or("there is room")?;
    }
    Ok(bytes)
}

pub(crate) fn words(alloc: Global, word: &[u8]) -> Result<WordList, Fail> {
    let mut list = WordList::new(alloc);
    list.push(bytes_of(alloc, word)?)
        .ok()
        .ok_or("there is room")?;
    Ok(list)
}

/// How this word ends on a source, and what it writes.
pub(crate) fn served(alloc: Global, word: &[u8], source: &[u8]) -> Result<(Status, MemSink), Fail> {
    let words = words(alloc, word)?;
    let mut source = MemSource::new(bytes_of(alloc, source)?, 1000, IdList::new(alloc));
    let mut sink = MemSink::new(alloc, ROOM, 1000, IdList::new(alloc))?;
    let status = run_plain(alloc, &words, &mut source, &mut sink);
    Ok((status, sink))
}

fn check_usage<R: Abort>(rt: &R, alloc: Global, word: &[u8]) -> Result<(), Fail> {
    let (status, sink) = served(alloc, word, smallest_trace())?;
    assert_eq!(rt; status, Status::Usage);
    assert_eq!(rt; sink.written().len(), 0);
    Ok(())
}

// A race waits, so it is none of the words that are served without waiting.
#[test]
fn other_words_are_usage(rt: HostRuntime) -> Result<(), Fail> {
    let alloc = rt.alloc();
    check_usage(&rt, alloc, b"")?;
    check_usage(&rt, alloc, b"race")
}

#[test]
fn no_words_are_usage(rt: HostRuntime) -> Result<(), Fail> {
    let alloc = rt.alloc();
    let words = WordList::new(alloc);
    let mut source = MemSource::new(bytes_of(alloc, b"x")?, 1000, IdList::new(alloc));
    let mut sink = MemSink::new(alloc, ROOM, 1000, IdList::new(alloc))?;
    let status = run_plain(alloc, &words, &mut source, &mut sink);
    assert_eq!(rt; status, Status::Usage);
    assert_eq!(rt; sink.written().len(), 0);
    Ok(())
}

fn faulty_run(
    alloc: Global,
    source_piece: u32,
    failing_read: u32,
    sink_piece: u32,
    failing_write: u32,
) -> Result<(Status, MemSink), Fail>
    requires source { 0 < source_piece }
    requires sink { 0 < sink_piece }
{
    let words = words(alloc, b"replay")?;
    let reads = IdList::from_vec([failing_read].to_vec(alloc)?);
    let writes = IdList::from_vec([failing_write].to_vec(alloc)?);
    let mut source = MemSource::new(bytes_of(alloc, smallest_trace())?, source_piece, reads);
    let mut sink = MemSink::new(alloc, ROOM, sink_piece, writes)?;
    let status = run_plain(alloc, &words, &mut source, &mut sink);
    Ok((status, sink))
}

#[test]
fn outside_faults(rt: HostRuntime) -> Result<(), Fail> {
    let alloc = rt.alloc();
    let (status, sink) = faulty_run(alloc, 40, 2, 1000, 1000)?;
    assert_eq!(rt; status, Status::ReadFault);
    assert_eq!(rt; sink.written().len(), 0);
    let (status, sink) = faulty_run(alloc, 40, 1000, 10, 1)?;
    assert_eq!(rt; status, Status::WriteFault);
    assert_eq!(rt; sink.written(), b"gcc-histor".as_slice());
    let (status, sink) = faulty_run(alloc, 1, 1000, 1, 1000)?;
    assert_eq!(rt; status, Status::Done);
    assert_eq!(rt; sink.written(), smallest_text());
    Ok(())
}

/// A sink that takes up to 1,000 bytes a write, and wants each write to hand out all that is left.
#[derive(Drop)]
struct Whole {
    left: usize,
    cut: bool,
}

impl Sink for Whole {
    ghost written = { λ _. None };

    ghost faults = { λ _. 0 };

    fn write(&mut self, piece: &[u8]) -> Result<usize, Failed> {
        let count = piece.len().min(1000);
        if piece.len() != self.left {
            self.cut = true;
        }
        self.left = self.left.saturating_sub(count);
        Ok(count)
    }
}

/// A trace of many paces that send nothing.
fn long_trace(alloc: Global) -> Result<Vec<u8>, Fail> {
    let mut trace = b"gcc-trace 1 1\n".to_vec(alloc)?;
    for _ in 0..CALLS {
        trace.extend_from_slice(b"P 0 0\n")?;
    }
    trace.extend_from_slice(b"end\n")?;
    Ok(trace)
}

#[test]
fn each_write_is_handed_all_that_is_left(rt: HostRuntime) -> Result<(), Fail> {
    let alloc = rt.alloc();
    let trace = long_trace(alloc)?;
    let words = words(alloc, b"replay")?;
    let mut source = MemSource::new(bytes_of(alloc, trace.as_slice())?, 1000, IdList::new(alloc));
    let mut sink = Whole {
        left: LONG_TEXT,
        cut: false,
    };
    let status = run_plain(alloc, &words, &mut source, &mut sink);
    assert_eq!(rt; status, Status::Done);
    assert!(rt; sink.left == 0 && !sink.cut);
    Ok(())
}

#[test]
fn want_of_memory_has_its_code_and_text(rt: HostRuntime) -> Result<(), Fail> {
    assert_eq!(rt; Status::NoMemory.code(), 6);
    assert_eq!(rt;
        Status::NoMemory.text(rt.alloc())?.as_slice(),
        b"no memory\n".as_slice()
    );
    Ok(())
}
