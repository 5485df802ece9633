//! A run on its happy path.

use super::*;
use std::test::Fail;
use steered_sender::Control;

#[test]
fn one_second(rt: HostRuntime) -> Result<(), Fail> {
    let plan = Plan {
        rate: 1_000_000,
        queue: 300,
        delay: 50,
        seconds: 1,
        steps: Vec::new(rt.alloc()),
        loss: 0,
        jitter: 0,
        seed: 1,
        two: false,
        control: Control::Gradient,
    };
    let Ok(measured) = run_live(rt.alloc(), &plan) else {
        return Ok(());
    };
    assert_eq!(rt; measured.rates.len(), 10);
    Ok(())
}
