//! Runs whose estimates are worked by hand.

use super::*;

const SECOND: u64 = 1_000_000;

#[test]
fn loss_control(rt: HostRuntime) {
    let bounds = Bounds {
        min: 30_000,
        max: 10_000_000,
    };
    let mut loss = Loss::new(300_000);
    assert_eq!(rt; loss.step(10, 0, 0, bounds), 300_000);
    assert_eq!(rt; loss.step(10, 0, SECOND, bounds), 315_000);
    assert_eq!(rt; loss.step(15, 5, 2 * SECOND, bounds), 275_625);
    assert_eq!(rt; loss.rate(), 275_625);
}
