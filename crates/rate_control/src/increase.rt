//! How an estimate is raised.

ghost use Rattle.std.specs.Prelude.{◌≡◌, ◌≤◌, ◌*◌, ◌+◌};
ghost use Rattle.std.specs.Option.{ForSome};
ghost use Rattle.rate_control.specs.Increase.{multiplied, packet_bits, response, added, raised, limited};

use crate::GREATEST_ROUND_TRIP;
use crate::state::LONGEST_STEP;
use gcc_units::{GREATEST_RATE, Rate};

/// The frames of a second of video (draft-ietf-rmcat-gcc-02, section 5.5: 30 frames a second).
pub const FRAMES: u64 = 30;

/// The most bits of a packet of a frame: 1,200 bytes (draft-ietf-rmcat-gcc-02, section 5.5).
pub const PACKET_BITS: u64 = 9_600;

/// How long a change takes to show, beside the round trip, in microseconds
/// (draft-ietf-rmcat-gcc-02, section 5.5: 100 ms).
pub const RESPONSE_TIME: u64 = 100_000;

/// The least that an addition adds, in bit/s (draft-ietf-rmcat-gcc-02, section 5.5).
pub const LEAST_ADDED: u64 = 1_000;

/// By how much a multiplication raises in a second, in percent (draft-ietf-rmcat-gcc-02, section 5.5,
/// `eta`).
pub const GROWTH_PERCENT: u64 = 8;

/// A hundred seconds in microseconds: a percent for each second is divided by it.
pub const PERCENT_SECOND: u64 = 100_000_000;

/// An increase ends at so many halves of the received rate (draft-ietf-rmcat-gcc-02, section 5.5).
pub const LIMIT_HALVES: u64 = 3;

/// The estimate, raised: near the known capacity by adding, else by multiplying.
pub fn raised(near: bool, rate: Rate, rtt: u64, dt: u64) -> Rate
    requires rate { rate ≤ GREATEST_RATE }
    requires round_trip { rtt ≤ GREATEST_ROUND_TRIP }
    requires dt { dt ≤ LONGEST_STEP }
    ensures { result ≡ raised near rate rtt dt }
{
    if near {
        added(rate, rtt, dt)
    } else {
        multiplied(rate, dt)
    }
}

/// The raised estimate, ended at one and a half of the received rate.
pub fn limited(rate: Rate, next: Rate, acked: Option<Rate>) -> Rate
    requires { ForSome acked (λ received. received ≤ GREATEST_RATE) }
    ensures { result ≡ limited rate next acked }
{
    match acked {
        None => next,
        Some(received) => rate.max(next.min(LIMIT_HALVES * received / 2)),
    }
}

fn multiplied(rate: Rate, dt: u64) -> Rate
    requires rate { rate ≤ GREATEST_RATE }
    requires dt { dt ≤ LONGEST_STEP }
    ensures { result ≡ multiplied rate dt }
{
    rate + GROWTH_PERCENT * rate * dt / PERCENT_SECOND
}

fn added(rate: Rate, rtt: u64, dt: u64) -> Rate
    requires rate { rate ≤ GREATEST_RATE }
    requires round_trip { rtt ≤ GREATEST_ROUND_TRIP }
    requires dt { dt ≤ LONGEST_STEP }
    ensures { result ≡ added rate rtt dt }
{
    let response = RESPONSE_TIME + rtt;
    rate + LEAST_ADDED.max(packet_bits(rate) * dt.min(response) / (2 * response))
}

fn packet_bits(rate: Rate) -> u64
    requires { rate ≤ GREATEST_RATE }
    ensures value { result ≡ packet_bits rate }
    ensures bound { result ≤ GREATEST_RATE }
{
    let frame_bits = rate / FRAMES;
    let packets = 1.max(frame_bits.div_ceil(PACKET_BITS));
    frame_bits / packets
}
