//! Pieces and faults by hand, and each adapter once.

ghost use Rattle.std.specs.Prelude.{◌<◌, length};

use super::*;
use gcc_units::{Bytes, IdList};
use std::test::Fail;

fn read_from<S: Source>(source: &mut S, buf: &mut [u8]) -> Result<usize, Failed>
    requires { 0 < length buf.old }
{
    source.read(buf)
}

fn write_to<K: Sink>(sink: &mut K, piece: &[u8]) -> Result<usize, Failed>
    requires { 0 < length piece.now }
{
    sink.write(piece)
}

fn pass<G: Gate + Sync>(gate: &G) {
    gate.before(0, 0);
    gate.after(0, 0);
}

#[test]
fn a_source_gives_pieces_and_fails_at_the_named_read(rt: HostRuntime) -> Result<(), Fail> {
    let bytes = Bytes::from_vec(b"0123456789".to_vec(rt.alloc())?);
    let fails = IdList::from_vec([1].to_vec(rt.alloc())?);
    let mut source = MemSource::new(bytes, 4, fails);
    let mut buf = [0u8; 16];
    assert_eq!(rt; read_from(&mut source, &mut buf), Ok(4));
    assert_eq!(rt; &buf[..4], b"0123".as_slice());
    assert_eq!(rt; read_from(&mut source, &mut buf), Err(Failed));
    assert_eq!(rt; read_from(&mut source, &mut buf[..3]), Ok(3));
    assert_eq!(rt; &buf[..3], b"456".as_slice());
    assert_eq!(rt; read_from(&mut source, &mut buf), Ok(3));
    assert_eq!(rt; &buf[..3], b"789".as_slice());
    assert_eq!(rt; read_from(&mut source, &mut buf), Ok(0));
    assert_eq!(rt; read_from(&mut source, &mut buf), Ok(0));
    Ok(())
}

#[test]
fn a_sink_takes_pieces_and_fails_at_the_named_write_and_when_full(
    rt: HostRuntime,
) -> Result<(), Fail> {
    let fails = IdList::from_vec([1].to_vec(rt.alloc())?);
    let mut sink = MemSink::new(rt.alloc(), 7, 4, fails)?;
    assert_eq!(rt; write_to(&mut sink, b"012345"), Ok(4));
    assert_eq!(rt; write_to(&mut sink, b"45"), Err(Failed));
    assert_eq!(rt; write_to(&mut sink, b"45"), Ok(2));
    assert_eq!(rt; write_to(&mut sink, b"6789"), Ok(1));
    assert_eq!(rt; write_to(&mut sink, b"789"), Err(Failed));
    assert_eq!(rt; sink.written(), b"0123456".as_slice());
    Ok(())
}

#[test]
fn the_standard_streams_and_the_open_gate_answer(rt: HostRuntime) {
    let mut buf = [0u8; 16];
    let mut source = StdSource::new(rt.stdin());
    assert!(rt; read_from(&mut source, &mut buf).is_ok());
    let mut sink = StdSink::new(rt.stdout());
    assert_eq!(rt; write_to(&mut sink, b"\n"), Ok(1));
    pass(&OpenGate);
}
