ghost use Rattle.std.specs.Prelude.{◌≤ℤ◌, pos, neg_ℤ};
ghost use Rattle.gcc_units.specs.declared.limits.TheConstants.{GREATEST_DELAY};

use super::*;
use std::process::Abort;
use std::test::Fail;

#[test]
fn worked_slope(rt: HostRuntime) -> Result<(), Fail> {
    let sample = Sample {
        d: 65_536,
        send_gap: 20_000,
        arrival_gap: 84,
    };
    run_agrees(&rt, rt.alloc(), &sample, Some(3_120))?;
    Ok(())
}

// All points lie at one time.
#[test]
fn no_spread(rt: HostRuntime) -> Result<(), Fail> {
    let sample = Sample {
        d: 0,
        send_gap: 20_000,
        arrival_gap: 0,
    };
    run_agrees(&rt, rt.alloc(), &sample, None)?;
    Ok(())
}

// The sample 20 times, with this slope after the last one.
fn run_agrees(
    rt: &impl Abort,
    alloc: Global,
    sample: &Sample,
    last: Option<i64>,
) -> Result<(), NoMemory>
    requires delay_low { neg_ℤ GREATEST_DELAY ≤ℤ sample.now.d }
    requires delay_high { sample.now.d ≤ℤ GREATEST_DELAY }
    requires gap_low { pos 0 ≤ℤ sample.now.arrival_gap }
    requires gap_high { sample.now.arrival_gap ≤ℤ pos 1000 }
{
    let mut trend = Trend::new(alloc)?;
    for k in 0..20 {
        let slope = trend.step(sample);
        assert_eq!(rt; slope, if k < 19 { None } else { last });
        assert_eq!(rt; trend.count(), k + 1);
    }
    Ok(())
}
