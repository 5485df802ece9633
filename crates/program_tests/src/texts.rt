//! That memory is found. Printed texts and verdicts stand in tests/vectors.

use call_trace::{LineList, Trace};
use reply_text::{SeenList, Verdict, check_history, write_history};
use send_core::Sender;
use std::test::Fail;

/// The history without entries, which is legal for the trace without lines.
#[test]
fn a_history_is_written_and_checked(rt: HostRuntime) -> Result<(), Fail> {
    let alloc = rt.alloc();
    let sender = Sender::new(alloc)?;
    let text = write_history(alloc, sender.journal(), &SeenList::new(alloc))?;
    assert_eq!(rt;
        text.as_slice(),
        b"gcc-history 1\nend 0 0 300000\n".as_slice()
    );
    let trace = Trace {
        actors: 1,
        lines: LineList::new(alloc),
    };
    let verdict = check_history(alloc, &trace, text.as_slice())?;
    assert_eq!(rt; verdict, Verdict::Legal);
    Ok(())
}
