//! The settings of a sender.

ghost use Rattle.std.specs.Prelude.{◌≡◌, ◌≤◌};
ghost use Rattle.send_core.specs.Estimates.{pacing_of};
ghost use Rattle.send_core.specs.Settings.{start_settings, settings_after};

use crate::call::Change;
use gcc_units::{Bounds, GREATEST_RATE, Rate};
use pacer::{START_PADDING, START_WINDOW};

/// What both estimates begin with, in bit/s (`kDefaultStartBitrateBps` of libwebrtc).
pub const START_RATE: Rate = 300_000;

/// The least estimate that a sender begins with, in bit/s (ours).
pub const START_MIN: Rate = 30_000;

/// The greatest estimate that a sender begins with, in bit/s (ours).
pub const START_MAX: Rate = 10_000_000;

/// The pacing rate in percent of the target that a sender begins with (`kDefaultPaceMultiplier` of
/// libwebrtc).
pub const START_PERCENT: u64 = 250;

/// The least pacing rate in percent of the target (ours).
pub const LEAST_PERCENT: u64 = 100;

/// The greatest pacing rate in percent of the target (ours).
pub const GREATEST_PERCENT: u64 = 1_000;

/// The shortest window of both budgets, in microseconds (ours).
pub const LEAST_WINDOW: u64 = 1_000;

/// The ID that a sender begins with for the extension element that holds the transport-wide number
/// (ours).
pub const START_EXTENSION: u64 = 3;

/// The least ID of an extension element (RFC 8285, section 4.2).
pub const LEAST_EXTENSION: u64 = 1;

/// The greatest ID of an extension element.
pub const GREATEST_EXTENSION: u64 = 14;

/// What a sender is set to, beside its streams.
#[derive(Clone, Copy)]
pub struct Settings {
    pub bounds: Bounds,
    /// The pacing rate in percent of the target rate.
    pub pacing_percent: u64,
    /// In microseconds.
    pub window: u64,
    /// In bit/s.
    pub padding_rate: Rate,
    /// Whether audio is held back by the media level.
    pub paced_audio: bool,
    pub extension_id: u64,
}

/// A percentage of a target rate, at most `GREATEST_RATE`.
pub fn pacing_of(target: Rate, percent: u64) -> Rate
    requires target { target ≤ GREATEST_RATE }
    requires percent { percent ≤ GREATEST_PERCENT }
    ensures value { result ≡ pacing_of target percent }
    ensures bound { result ≤ GREATEST_RATE }
{
    GREATEST_RATE.min(target * percent / 100)
}

impl Settings {
    /// The settings that a sender begins with.
    pub fn start() -> Settings
        ensures { result ≡ start_settings }
    {
        Settings {
            bounds: Bounds {
                min: START_MIN,
                max: START_MAX,
            },
            pacing_percent: START_PERCENT,
            window: START_WINDOW,
            padding_rate: START_PADDING,
            paced_audio: false,
            extension_id: START_EXTENSION,
        }
    }

    /// The settings after a change: what it names is what it gives, all else stays.
    pub fn after(&self, change: &Change) -> Settings
        ensures { result ≡ settings_after self.now change.now }
    {
        Settings {
            bounds: Bounds {
                min: change.min.unwrap_or(self.bounds.min),
                max: change.max.unwrap_or(self.bounds.max),
            },
            pacing_percent: change.pacing_percent.unwrap_or(self.pacing_percent),
            window: change.window.unwrap_or(self.window),
            padding_rate: change.padding_rate.unwrap_or(self.padding_rate),
            paced_audio: change.paced_audio.unwrap_or(self.paced_audio),
            extension_id: change.extension_id.unwrap_or(self.extension_id),
        }
    }
}
