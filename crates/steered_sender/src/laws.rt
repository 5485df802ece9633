//! What holds of every history that a control steers: functions that do nothing, whose contracts are the laws.

ghost use Rattle.steered_sender.specs.Laws.{TargetIsTheRateAskedFor};

/// Where a change that the control asked for is accepted, the target is the rate that it asked for, put in the
/// bounds of the settings.
pub fn target_is_the_rate_asked_for()
    ensures { TargetIsTheRateAskedFor }
{}
