//! Packet groups: credits of packets that were sent or that arrived in one burst are taken together, and
//! neighbouring groups give the samples of the arrival filter (draft-ietf-rmcat-gcc-02, section 5.2, in
//! outline; `InterArrivalDelta` of libwebrtc).
//!
//! The rule: a credit joins the last group where it was sent at most 5 ms after the group's first packet, or
//! where it arrived faster than it was sent. Departures are microseconds, arrivals quarter-milliseconds. The
//! lengths, the burst condition and the cut of a sample's delay are this project's own rules.
//!
//! Those above use that the samples are those of the one division of all credits.
#![tactic(auto)]

ghost use Rattle.std.specs.Prelude.{◌≡◌, ◌≤ℤ◌, neg_ℤ, [], ◌∷◌, ◌++◌, List, IfSome};
ghost use Rattle.gcc_units.specs.declared.shared_types.Credit.{Credit};
ghost use Rattle.packet_groups.specs.Division.{IsTheOne, SamplesAreFew, GapsAreShort};
ghost use Rattle.packet_groups.specs.Groups.{samples};
ghost use Rattle.packet_groups.specs.Kept.{IsWithin, StandsFor, listed};

use gcc_units::{Credit, GREATEST_DELAY, Sample};
use std::marker::Model;

mod step;

use step::{State, after};

/// The longest time between the first departure of a group and each other one, in microseconds
/// (draft-ietf-rmcat-gcc-02, section 5.2, `burst_time`; `kSendTimeGroupLength` of libwebrtc).
pub const GROUP_TIME: u64 = 5_000;

/// Packets that arrive nearer to each other than this, in quarter-milliseconds, may be one burst: 5
/// ms (`kBurstDeltaThreshold` of libwebrtc).
pub const BURST_GAP: i64 = 20;

/// A quarter-millisecond in Q16 milliseconds.
pub const ARRIVAL_Q16: i64 = 16_384;

/// A millisecond in Q16 milliseconds.
pub const MILLISECOND_Q16: u64 = 65_536;

/// The groups of the credits given so far.
#[derive(Drop)]
pub struct Groups {
    state: State,
}

impl Model for Groups {
    ghost use Rattle.packet_groups.specs.declared.step.State.{State};
    ghost use Rattle.packet_groups.specs.Kept.{IsKept};

    ghost Value = { State };

    ghost view = { λ g. g.state };

    ghost invariant = { λ g. IsKept g.state };
}

impl Groups {
    /// The groups of no credit.
    pub fn new() -> Self
        ensures { StandsFor result [] }
    {
        Groups {
            state: State {
                current: None,
                before: None,
            },
        }
    }

    /// Takes a credit. It answers a sample exactly where the credit begins a third or later group: the
    /// difference of the two groups before.
    pub fn add(&mut self, credit: &Credit) -> Option<Sample>
        requires { IsWithin credit.now }
        ensures stands { (credits : List Credit) → StandsFor self.old credits → StandsFor self.new (credits ++ credit.now ∷ []) }

        // The samples of the whole list grew by the answer.
        ensures sample { (credits : List Credit) → StandsFor self.old credits → samples (credits ++ credit.now ∷ []) ≡ samples credits ++ listed result }
        ensures low { IfSome result (λ s. neg_ℤ GREATEST_DELAY ≤ℤ s.d) }
        ensures high { IfSome result (λ s. s.d ≤ℤ GREATEST_DELAY) }
    {
        let (state, sample) = after(self.state, credit);
        self.state = state;
        sample
    }
}

/// The law of the groups: they are the one division of the grouped credits in which a credit stays with those
/// before it exactly where it joins them.
pub fn one_division()
    ensures { (credits : List Credit) → IsTheOne credits }
{}

/// The law of the samples: there are no more than credits, and their send gaps sum to no more than the last
/// departure.
pub fn samples_stay_few()
    ensures few { SamplesAreFew }
    ensures short { GapsAreShort }
{}

#[cfg(test)]
mod tests;
