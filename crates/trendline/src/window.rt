//! The last points, and the sums over them.

ghost use Rattle.std.specs.Prelude.{◌≡◌, [], ◌∷◌, ◌++◌, IfOk};
ghost use Rattle.trendline.specs.Trend.{fit, last_of, rise_of, spread_of, sums_of};
ghost use Rattle.trendline.specs.Ranges.{IsPointSmall};
ghost use Rattle.trendline.specs.declared.TheConstants.{MOST_POINTS};

use crate::MOST_POINTS;
use crate::sums::{Point, Sums, slope_of, with, without};
use circular_buffer::HeapCircularBuffer;
use gcc_units::NoMemory;
use std::alloc::Global;
use std::marker::Model;

/// The last points, and the sums over them.
#[derive(Drop)]
pub struct Window {
    points: HeapCircularBuffer<Point>,
    sums: Sums,
}

impl Model for Window {
    ghost use Rattle.std.specs.Prelude.{List};
    ghost use Rattle.trendline.specs.declared.sums.Point.{Point};
    ghost use Rattle.trendline.specs.Ranges.{IsHeld};

    ghost Value = { List Point };

    ghost view = { λ w. w.points.items };

    ghost invariant = { λ w. IsHeld w.points.capacity w.sums w.points.items };
}

impl Window {
    /// The window of no point.
    pub fn new(alloc: Global) -> Result<Self, NoMemory>
        ensures { IfOk result (λ w. w ≡ []) }
    {
        Ok(Window {
            points: HeapCircularBuffer::with_capacity(alloc, MOST_POINTS as usize)?,
            sums: Sums {
                x: 0,
                y: 0,
                xy: 0,
                xx: 0,
            },
        })
    }

    /// Takes a point. Where there are 20 the first one leaves.
    pub fn push(&mut self, point: Point)
        requires { IsPointSmall point }
        ensures { self.new ≡ last_of MOST_POINTS (self.old ++ point ∷ []) }
    {
        let more = with(self.sums, point);
        let Some(gone) = self.points.push_back(point) else {
            self.sums = more;
            return;
        };
        self.sums = without(more, gone);
    }

    /// The slope of the line through these points.
    pub fn slope(&self) -> Option<i64>
        ensures { result ≡ fit (rise_of (sums_of self.now)) (spread_of (sums_of self.now)) }
    {
        slope_of(self.sums)
    }
}
