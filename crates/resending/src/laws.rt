//! Laws of the definitions that the contracts of this crate cite. The functions do nothing; their
//! contracts are the laws.

ghost use Rattle.std.specs.Prelude.{◌≢◌, ◌*◌, ◌^◌, ◌<◌, ◌≤◌, List, length};
ghost use Rattle.call_trace.specs.declared.trace.Line.{Line};
ghost use Rattle.nack_rtx.specs.declared.resender.RtxSettings.{RtxSettings};
ghost use Rattle.send_core.specs.Reply.{IsLegal};
ghost use Rattle.resending.specs.Serving.{serving};

use crate::{MOST_REPEATS, MOST_RESEND_LINES};

/// Law: what serving gives is a legal history with at most nine entries for each line: that of its
/// call, and those of its packet where it is sent again.
pub fn entries_are_few()
    ensures legal { (s : RtxSettings) (lines : List Line) → s.repeats ≤ MOST_REPEATS → s.media ≢ s.rtx → s.rtx < 2 ^ 32
        → length lines ≤ MOST_RESEND_LINES → IsLegal (serving s lines).history }
    ensures few { (s : RtxSettings) (lines : List Line) → s.repeats ≤ MOST_REPEATS → s.media ≢ s.rtx → s.rtx < 2 ^ 32
        → length lines ≤ MOST_RESEND_LINES → length (serving s lines).history ≤ 9 * length lines }
{}
