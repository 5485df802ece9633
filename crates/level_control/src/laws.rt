//! What holds of each report, for every state, and of every list of reports and settings: functions that do nothing,
//! whose contracts are the laws.

ghost use Rattle.level_control.specs.Promises.{AllCutsOfTheListLieApart, DrainsOfTheListEndLow, OwnDrainsEndLower, AllReportsGrowSlowly};
ghost use Rattle.level_control.specs.DrainLists.{DrainsAreThoseOfTheList, DrainsEndBehindFalls};
ghost use Rattle.level_control.specs.LossLists.{LossesAreThoseOfTheList};
ghost use Rattle.level_control.specs.Moving.{MovingChangesNoAnswer};
ghost use Rattle.level_control.specs.AsLists.{BasesAreThoseOfTheList, ChangesAreThoseOfTheList, FloorsAreThoseOfTheList};
ghost use Rattle.level_control.specs.Laws.{LevelsLieInRange, CutsAreShown, SecondCutsAreShown, AllCutsLieApart, AllGrowSlowly, TriedSharesAreShown, DrainsEndLow};

/// The level lies between 25 ms and the greater of 100 ms and four mean changes.
pub fn levels_lie_in_range()
    ensures { LevelsLieInRange }
{}

/// No cut without a sample that shows it.
pub fn cuts_are_shown()
    ensures first { CutsAreShown }
    ensures second { SecondCutsAreShown }
    ensures tried { TriedSharesAreShown }
{}

/// Between two cuts lies at least the round trip of the first: of those of one drain, and of all in a list without a
/// start.
pub fn cuts_lie_apart()
    ensures drain { AllCutsLieApart }
    ensures list { AllCutsOfTheListLieApart }
{}

/// A rate grows by at most 8 % or 60 roots a second, and never beyond one and a half of the received rate: at a step,
/// and at each report between drains before results of probes.
pub fn rates_grow_slowly()
    ensures step { AllGrowSlowly }
    ensures reports { AllReportsGrowSlowly }
{}

/// At its end a drain leaves at most the greater of the rate and what the path carried: at most the greater of what
/// the rate was and the rate before the first cut, but for a least rate; where others hold no queue, at most the
/// greater of what it was and 92 % of the capacity.
pub fn drains_end_low()
    ensures end { DrainsEndLow }
    ensures list { DrainsOfTheListEndLow }
    ensures own { OwnDrainsEndLower }
{}

/// Base, floor and mean change are those of the list of all reports: the base is the least delay since the last cut
/// whose drain has ended, the floor the least of this spell and the one before it.
pub fn delays_are_those_of_the_list()
    ensures base { BasesAreThoseOfTheList }
    ensures change { ChangesAreThoseOfTheList }
    ensures floor { FloorsAreThoseOfTheList }
{}

/// Moving all arrivals by a whole number of quarter-milliseconds changes no rate, signal or cluster: the clocks of
/// sender and receiver need not agree.
pub fn moving_changes_no_answer()
    ensures { MovingChangesNoAnswer }
{}

/// A drain is that of the list from its last cut on: its lowest delay, its deepest queue before the cut could show,
/// and its falls.
pub fn drains_are_those_of_the_list()
    ensures { DrainsAreThoseOfTheList }
{}

/// Unless a second cut or a start comes, a drain ends at the first report with a delay that comes a wait after the last
/// fall, its own too, or where there is none, after the moment at which the cut could first show.
pub fn drains_end_behind_falls()
    ensures { DrainsEndBehindFalls }
{}

/// Loss windows are those of the list: each the shortest that begins where the last one let it, lasts a period and
/// counts enough packets. What is counted is what came since the open one began.
pub fn loss_windows_are_those_of_the_list()
    ensures { LossesAreThoseOfTheList }
{}
