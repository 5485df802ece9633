//! What no clause says: rows worked by hand, with ample memory.

ghost use Rattle.std.specs.Prelude.{◌≤◌, length};

use super::*;
use call_trace::read_trace;
use gcc_units::MOST_TRACE_BYTES;
use nack_rtx::RtxSettings;
use reply_text::write_history;
use std::alloc::Global;
use std::sync::Wait;
use std::test::Fail;

/// The printed history, and the lines of the NACKs behind it.
fn served_text<R: Wait>(rt: &R, alloc: Global, trace: &[u8], repeats: u32) -> Result<Vec<u8>, Fail>
    requires few { length trace.now ≤ MOST_TRACE_BYTES }
    requires repeats { repeats ≤ MOST_REPEATS }
{
    let trace = read_trace(alloc, trace).ok().ok_or("it is a trace")?;
    if trace.lines.len() > MOST_RESEND_LINES {
        return Err("too many lines".into());
    }
    let settings = RtxSettings {
        media: 170,
        rtx: 187,
        payload: 97,
        repeats,
    };
    let served = serve(rt, alloc, settings, trace.lines)?;
    let mut text = write_history(alloc, served.sender.journal(), &served.glances)?.into_vec();
    text.extend_from_slice(nack_lines(alloc, &served.nacks)?.as_bytes())?;
    Ok(text)
}

const ONE: &[u8] = b"gcc-trace 1 1
E 0 0 v 9060000100000000000000aabede000131000000
P 0 1
R 0 1000 81cd000300000001000000aa00010000
P 0 40000
R 0 41000 81cd000300000001000000aa00010000
end
";

const ONE_TOLD: &[u8] = b"gcc-history 1
0 accepted 0 0
0 paced 1 1 0:m:0:20
0 accepted 1000 1
0 paced 40000 1 1:m:1:22
end 4 2 300000
nack 0 named 1 resent 1 unknown 0 spent 0
nack 1 named 1 resent 0 unknown 0 spent 1
";

// A packet that is refused for its moment counts as sent again.
const LATE: &[u8] = b"gcc-trace 1 1
G 0
E 0 0 v 9060000100000000000000aabede000131000000
P 0 1
R 0 1125899906842625 81cd000400000001000000aa0001000000020000
P 0 2
R 0 1125899906842624 81cd000300000001000000aa00010000
R 0 0 81cd000300000001000000aa00010000
P 0 3
G 0
end
";

const LATE_TOLD: &[u8] = b"gcc-history 1
0 accepted 0 0
0 paced 1 1 0:m:0:20
0 refused 1 moment
0 paced 2 0
0 accepted 1125899906842624 1
0 paced 1125899906842624 1 1:m:1:22
0 glance 0 0 300000
0 glance 1 6 300000
end 6 2 300000
nack 0 named 2 resent 1 unknown 1 spent 0
nack 1 named 1 resent 1 unknown 0 spent 0
nack 2 named 1 resent 0 unknown 0 spent 1
";

#[test]
fn sent_again_once(rt: HostRuntime) -> Result<(), Fail> {
    let text = served_text(&rt, rt.alloc(), ONE, 1)?;
    assert!(rt; text.as_slice() == ONE_TOLD);
    Ok(())
}

#[test]
fn refused_counts_as_sent_again(rt: HostRuntime) -> Result<(), Fail> {
    let text = served_text(&rt, rt.alloc(), LATE, 2)?;
    assert!(rt; text.as_slice() == LATE_TOLD);
    Ok(())
}
