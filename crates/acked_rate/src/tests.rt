//! Rates that are worked by hand.

use super::*;
use std::test::Fail;

#[test]
fn received_rate(rt: HostRuntime) -> Result<(), Fail> {
    let mut window = Window::new(rt.alloc())?;
    assert_eq!(rt; window.rate(), None);
    window.add(0, 1_000);
    window.add(1_000, 1_000);
    assert_eq!(rt; window.rate(), None);
    window.add(2_000, 500);
    assert_eq!(rt; window.rate(), Some(24_000));
    Ok(())
}

// A packet that arrives out of order is in the window until the window moves past it, and not where it is
// older.
#[test]
fn late_packets(rt: HostRuntime) -> Result<(), Fail> {
    let mut window = Window::new(rt.alloc())?;
    window.add(0, 1_000);
    window.add(5_000, 500);
    assert_eq!(rt; window.rate(), Some(8_000));
    window.add(4_000, 300);
    assert_eq!(rt; window.rate(), Some(12_800));
    window.add(3_000, 700);
    assert_eq!(rt; window.rate(), Some(12_800));
    Ok(())
}
