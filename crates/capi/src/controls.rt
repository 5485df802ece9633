//! The control that C asks for.

ghost use Rattle.std.specs.Prelude.{◌≡◌, IfSome};
ghost use Rattle.steered_sender.specs.Standing.{IsControl};
ghost use Rattle.capi.specs.Controls.{start_given, level_from, control_named};

use gcc_units::{GREATEST_RATE, LEAST_RATE, Rate};
use steered_sender::Control;

/// The rate that the level control begins at where none is given, in bit/s (`kDefaultStartBitrateBps` of
/// libwebrtc).
pub const START: Rate = 300_000;

// The rate that is meant: 0 stands for `START`.
fn start_given(start: Rate) -> Rate
    ensures { result ≡ start_given start }
{
    if start == 0 { START } else { start }
}

// The level control from this rate on, if it is one.
fn level_from(start: Rate) -> Option<Control>
    ensures value { result ≡ level_from start }
    ensures valid { IfSome result IsControl }
{
    if start < LEAST_RATE || start > GREATEST_RATE {
        return None;
    }
    Some(Control::Level { start })
}

/// The control of this number: 0 the level of the one-way delay, which begins at this rate in bit/s, or at `START`
/// where it is 0; 1 the two estimates of the draft, which take no heed of the rate. `None` where there is no such
/// control, or the rate is none from `LEAST_RATE` to `GREATEST_RATE`.
pub fn control_named(control: u32, start: Rate) -> Option<Control>
    ensures value { result ≡ control_named control start }
    ensures valid { IfSome result IsControl }
{
    match control {
        0 => level_from(start_given(start)),
        1 => Some(Control::Gradient),
        _ => None,
    }
}
