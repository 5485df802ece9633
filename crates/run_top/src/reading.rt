//! Reading a source to its end.

ghost use Rattle.std.specs.Prelude.{◌≡◌, ◌^◌, ◌≤◌, ◌<◌, [], length, Some, IfOk, IfErr, IfSome};
ghost use Rattle.run_io.specs.Faults.{Rose};
ghost use Rattle.run_top.specs.Reading.{StoppedFor};

use run_io::Source;
use std::alloc::Global;

/// Why reading stopped before the end.
#[derive(Clone, Copy, PartialEq, Eq, Debug)]
pub enum ReadStop {
    /// A read failed.
    Fault,
    /// There are more bytes than the limit.
    TooLong,
    /// Memory ran out.
    NoMemory,
}

/// How many bytes are asked for at a time.
const PIECE: usize = 65_536;

/// All bytes of a source, where there are no more than `most`.
pub fn read_all<S: Source>(alloc: Global, source: &mut S, most: usize) -> Result<Vec<u8>, ReadStop>
    requires { most < 2 ^ 62 }
    ensures all { IfOk result (λ v. IfSome (S.left source.old) (λ bytes. (v.items ≡ bytes) × (S.left source.new ≡ Some []))) }
    ensures few { IfOk result (λ v. length v.items ≤ most) }
    ensures stop { IfErr result (λ stop. StoppedFor stop most (S.left source.old) (S.faults source.old) (S.faults source.new)) }
    ensures later { S.faults source.old ≤ S.faults source.new }
{
    let mut bytes = Vec::new(alloc);
    let mut piece = [0u8; PIECE];
    for turn in 0..most + 2 {
        let Ok(count) = source.read(&mut piece) else {
            return Err(ReadStop::Fault);
        };
        if count == 0 {
            return Ok(bytes);
        }
        if count > most - bytes.len() {
            return Err(ReadStop::TooLong);
        }
        if bytes.extend_from_slice(&piece[..count]).is_err() {
            return Err(ReadStop::NoMemory);
        }
    }
    // Each turn read a byte at least.
    unreachable!()
}
