//! What the vectors cannot show: that memory is found, and the limit of lines. Tables of good and
//! of bad traces stand in tests/vectors.

use call_trace::*;
use gcc_units::{MOST_CHECK_BYTES, MOST_LINES};
use send_core::Call;
use std::alloc::AllocGlobal;
use std::process::Abort;
use std::test::*;

/// The line and the reason of the fault, `(0, 0)` where there is none.
fn fault_of(rt: &(impl Abort + AllocGlobal), bytes: &[u8]) -> (u32, u32) {
    assert!(rt; bytes.len() as u64 <= MOST_CHECK_BYTES);
    match read_trace(rt.alloc(), bytes) {
        Ok(_) => (0, 0),
        Err(ReadTrace::Fault(fault)) => (fault.line, fault.reason),
        Err(ReadTrace::NoMemory) => (u32::MAX, u32::MAX),
    }
}

#[test]
fn every_proper_prefix_has_no_end(rt: HostRuntime) {
    let run = b"gcc-trace 1 1\nE 0 1100 a 906f0001\nP 0 2000\nend\n".as_slice();
    for len in 0..run.len() {
        let front = &run[..len];
        let feeds = front.iter().filter(|b| **b == b'\n').count();
        assert_eq!(rt;
            fault_of(&rt, front),
            (feeds as u32 + 1, NO_END),
            "at {len}"
        );
    }
}

/// A header, so many lines of action, and these bytes.
fn long_trace(rt: &impl AllocGlobal, lines: u32, last: &[u8]) -> Result<Vec<u8>, Fail> {
    let mut bytes = Vec::new(rt.alloc());
    bytes.extend_from_slice(b"gcc-trace 1 1\n")?;
    for _ in 0..lines {
        bytes.extend_from_slice(b"P 0 0\n")?;
    }
    bytes.extend_from_slice(last)?;
    Ok(bytes)
}

#[test]
fn as_many_lines_as_there_may_be(rt: HostRuntime) -> Result<(), Fail> {
    let bytes = long_trace(&rt, MOST_LINES, b"end\n")?;
    assert_eq!(rt; fault_of(&rt, bytes.as_slice()), (0, 0));
    Ok(())
}

#[test]
fn one_line_more(rt: HostRuntime) -> Result<(), Fail> {
    let bytes = long_trace(&rt, MOST_LINES, b"x\n")?;
    assert_eq!(rt;
        fault_of(&rt, bytes.as_slice()),
        (MOST_LINES + 2, TOO_MANY_LINES)
    );
    Ok(())
}

#[test]
fn a_front_is_counted(rt: HostRuntime) -> Result<(), Fail> {
    let bytes = b"gcc-trace 1 1\nG 0\nend\ngcc-history 1\n";
    let (trace, count) = read_front(rt.alloc(), bytes)
        .ok()
        .ok_or("a trace is there")?;
    assert_eq!(rt; trace.lines.len(), 1);
    assert_eq!(rt; count, 22);
    Ok(())
}

/// Hex is written in small letters, and a change with its keys in rising order.
#[test]
fn a_trace_is_written(rt: HostRuntime) -> Result<(), Fail> {
    let bytes =
        b"gcc-trace 1 1\nE 0 5 f aF\nC 0 5 { \"window\": 9, \"removed\": [], \"min\": 7 }\nend\n";
    let trace = read_trace(rt.alloc(), bytes).ok().ok_or("it is a trace")?;
    let text = write_trace(rt.alloc(), &trace)
        .ok()
        .ok_or("memory is there")?;
    let want = b"gcc-trace 1 1\nE 0 5 f af\nC 0 5 {\"min\":7,\"window\":9}\nend\n".as_slice();
    assert_eq!(rt; text.as_slice(), want);
    Ok(())
}

#[test]
fn a_made_trace_has_its_calls(rt: HostRuntime) -> Result<(), Fail> {
    let trace = make_trace(rt.alloc(), 7, 2, 1)
        .ok()
        .ok_or("memory is there")?;
    assert_eq!(rt; trace.lines.len(), 2);
    Ok(())
}

#[test]
fn a_call_is_copied(rt: HostRuntime) -> Result<(), Fail> {
    let copy = copy_call(rt.alloc(), &Call::Pace { at: 5 })?;
    assert!(rt; matches!(&copy, Call::Pace { at: 5 }));
    Ok(())
}
