//! Points, and the sums over them.

ghost use Rattle.std.specs.Prelude.{◌≡◌, pos, ◌+ℤ◌, ◌-ℤ◌, ◌*ℤ◌};
ghost use Rattle.trendline.specs.Trend.{fit, rise_of, spread_of};
ghost use Rattle.trendline.specs.Ranges.{AreSmall, IsNear, IsPointSmall, most_product, most_squares, with_point, without_point};
ghost use Rattle.trendline.specs.KeptBySamples.{moved, MovesWithin};

use crate::{GREATEST_SLOPE, MOST_POINTS};
use gcc_units::Sample;

/// What all samples so far come to: their arrival gaps, and their delays.
#[derive(Clone, Copy)]
pub struct Point {
    pub x: i64,
    pub y: i64,
}

/// Sums over points: of both coordinates, of their products, and of the squares of the first.
#[derive(Clone, Copy)]
pub struct Sums {
    pub x: i64,
    pub y: i64,
    pub xy: i128,
    pub xx: i128,
}

/// The point after a sample.
pub fn moved(last: Point, sample: &Sample) -> Point
    requires { MovesWithin last sample.now }
    ensures value { result ≡ moved last sample.now }
    ensures small { IsPointSmall result }
{
    Point {
        x: last.x + sample.arrival_gap,
        y: last.y + sample.d,
    }
}

fn product(a: i64, b: i64) -> i128
    ensures { result ≡ a *ℤ b }
{
    a as i128 * b as i128
}

/// The sums with a point more.
pub fn with(sums: Sums, point: Point) -> Sums
    requires sums { AreSmall 20 sums }
    requires point { IsPointSmall point }
    ensures value { result ≡ with_point sums point }
    ensures small { AreSmall 21 result }
{
    Sums {
        x: sums.x + point.x,
        y: sums.y + point.y,
        xy: sums.xy + product(point.x, point.y),
        xx: sums.xx + product(point.x, point.x),
    }
}

/// The sums without a point.
pub fn without(sums: Sums, point: Point) -> Sums
    requires sums { AreSmall 21 sums }
    requires point { IsPointSmall point }
    ensures { result ≡ without_point sums point }
{
    Sums {
        x: sums.x - point.x,
        y: sums.y - point.y,
        xy: sums.xy - product(point.x, point.y),
        xx: sums.xx - product(point.x, point.x),
    }
}

/// How much the line rises, times the spread.
fn rise(sums: Sums) -> i128
    requires { AreSmall 20 sums }
    ensures value { result ≡ rise_of sums }
    ensures small { IsNear most_product result }
{
    MOST_POINTS as i128 * sums.xy - product(sums.x, sums.y)
}

/// How far the points spread in time.
fn spread(sums: Sums) -> i128
    requires { AreSmall 20 sums }
    ensures value { result ≡ spread_of sums }
    ensures small { IsNear most_squares result }
{
    MOST_POINTS as i128 * sums.xx - product(sums.x, sums.x)
}

/// The slope of the line through the points of these sums.
pub fn slope_of(sums: Sums) -> Option<i64>
    requires { AreSmall 20 sums }
    ensures { result ≡ fit (rise_of sums) (spread_of sums) }
{
    let spread = spread(sums);
    if spread == 0 {
        return None;
    }
    let slope = (4 * rise(sums)).div_euclid(spread);
    Some(slope.clamp(-GREATEST_SLOPE as i128, GREATEST_SLOPE as i128) as i64)
}
