//! How long the lists of a reply may get, known before they are made.

ghost use Rattle.std.specs.Prelude.{◌≡◌, ◌≤◌};
ghost use Rattle.send_core.specs.Bounds.{is_quiet, most_paced, most_sends};

use crate::call::Call;
use crate::parts::Parts;
use gcc_units::MOST_SENDS;

// Whether no cluster waits and no padding is asked for.
fn is_quiet(parts: &Parts) -> bool
    ensures { result ≡ is_quiet parts.now }
{
    parts.clusters.waiting() == 0 && parts.pacer.tally().padding_rate == 0
}

/// How many packets leave with a pace at the most.
pub fn most_paced(parts: &Parts) -> u32
    ensures value { result ≡ most_paced parts.now }
    ensures few { result ≤ MOST_SENDS }
{
    if is_quiet(parts) {
        MOST_SENDS.min(parts.pacer.waiting())
    } else {
        MOST_SENDS
    }
}

/// How many packets leave with a call at the most.
pub fn most_sends(parts: &Parts, call: &Call) -> u32
    ensures value { result ≡ most_sends parts.now call.now }
    ensures few { result ≤ MOST_SENDS }
{
    match call {
        Call::Pace { .. } => most_paced(parts),
        Call::Enqueue { .. } | Call::Report { .. } | Call::Configure { .. } => 0,
    }
}
