//! Writing a text whole.

ghost use Rattle.std.specs.Prelude.{◌≡◌, ◌≢◌, ◌≤◌, OnOk, OnErr};
ghost use Rattle.run_io.specs.Faults.{Rose};
ghost use Rattle.run_io.specs.Growth.{Grew, GrewInPart};
ghost use Rattle.run_top.specs.Served.{IsWritten};

use crate::status::Status;
use run_io::{Failed, Sink};

/// Writes all of a text. At a failure a beginning of it was written.
pub fn write_all<K: Sink>(sink: &mut K, text: &[u8]) -> Result<(), Failed>
    ensures all { OnOk result (Grew (K.written sink.old) (K.written sink.new) text.now) }
    ensures part { OnErr result (GrewInPart (K.written sink.old) (K.written sink.new) text.now) }
    ensures cause { OnErr result (Rose (K.faults sink.old) (K.faults sink.new)) }
    ensures later { K.faults sink.old ≤ K.faults sink.new }
{
    let mut rest = text;
    while !rest.is_empty() {
        let count = sink.write(rest)?;
        rest = rest.split_at(count).1;
    }
    Ok(())
}

/// Writes all of a text, and says how the run ends: so where the text was written, and else with the
/// write fault.
pub fn write_text<K: Sink>(sink: &mut K, text: &[u8], ended: Status) -> Status
    requires { ended ≢ Status.WriteFault }
    ensures { IsWritten text.now ended result (K.written sink.old) (K.written sink.new) (K.faults sink.old) (K.faults sink.new) }
{
    match write_all(sink, text) {
        Ok(()) => ended,
        Err(_) => Status::WriteFault,
    }
}
