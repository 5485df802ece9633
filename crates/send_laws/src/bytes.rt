//! That the bytes of a journal are bytes: what their type says is known where they are read.

ghost use Rattle.std.specs.Prelude.{All};
ghost use Rattle.send_laws.specs.Credits.{IsByte, BringsBytes, AreByteReports};

use crate::reading::entry_at;
use send_core::{Call, Journal};

/// Law of a journal: the reports that it holds are lists of bytes.
pub fn entries_have_bytes(journal: &Journal)
    ensures { AreByteReports journal.now.items }
{
    for k in 0..journal.len() {
        call_brings_bytes(&entry_at(journal, k).call);
    }
}

fn call_brings_bytes(call: &Call)
    ensures { BringsBytes call.now }
{
    match call {
        Call::Report { bytes, .. } => are_bytes(bytes.as_slice()),
        Call::Enqueue { .. } => (),
        Call::Pace { .. } => (),
        Call::Configure { .. } => (),
    }
}

fn are_bytes(bytes: &[u8])
    ensures { All IsByte bytes.now }
{}
