//! The rates and the shares that a reply tells.

ghost use Rattle.std.specs.Prelude.{◌≡◌, ◌≤◌, [], length};
ghost use Rattle.gcc_units.specs.Listed.{bare};
ghost use Rattle.allocator.specs.Shares.{shares};
ghost use Rattle.send_core.specs.Estimates.{rates_told};

use crate::call::Rates;
use crate::settings::{GREATEST_PERCENT, pacing_of};
use allocator::{StreamSet, allocate};
use estimator::Estimate;
use gcc_units::{GREATEST_RATE, MOST_STREAMS, Rate, ShareList};

/// The rates that a reply tells.
pub fn rates_of(estimate: &Estimate, percent: u64) -> Rates
    requires percent { percent ≤ GREATEST_PERCENT }
    requires target { estimate.now.target ≤ GREATEST_RATE }
    ensures { result ≡ rates_told estimate.now percent }
{
    Rates {
        delay: estimate.delay,
        loss: estimate.loss,
        target: estimate.target,
        pacing: pacing_of(estimate.target, percent),
    }
}

/// The shares of a target, in room that was reserved.
pub fn shares_of(target: Rate, streams: &StreamSet, room: ShareList) -> ShareList
    requires target { target ≤ GREATEST_RATE }
    requires empty { room.items ≡ [] }
    requires room { MOST_STREAMS ≤ room.spare }
    ensures value { result ≡ bare (shares target streams.now) }
    ensures few { length result.items ≤ MOST_STREAMS }
{
    let mut given = room;
    allocate(target, streams, &mut given);
    given.trim();
    given
}
