//! Steps whose estimates are worked by hand.

use super::*;

const BOUNDS: Bounds = Bounds {
    min: 30_000,
    max: 10_000_000,
};

#[test]
fn a_decrease_then_a_hold_then_half_a_packet(rt: HostRuntime) {
    let mut control = Control::new(300_000);
    assert_eq!(rt;
        control.step(Signal::Over, Some(200_000), 100_000, 0, BOUNDS),
        170_000
    );
    assert_eq!(rt;
        control.step(Signal::Normal, Some(200_000), 100_000, 100_000, BOUNDS),
        170_000
    );
    assert_eq!(rt;
        control.step(Signal::Normal, Some(200_000), 100_000, 200_000, BOUNDS),
        171_416
    );
}

#[test]
fn eight_percent_a_second(rt: HostRuntime) {
    let mut control = Control::new(300_000);
    assert_eq!(rt;
        control.step(Signal::Normal, None, 100_000, 0, BOUNDS),
        300_000
    );
    assert_eq!(rt;
        control.step(Signal::Normal, None, 100_000, 500_000, BOUNDS),
        312_000
    );
    assert_eq!(rt; control.rate(), 312_000);
}
