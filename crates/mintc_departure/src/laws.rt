//! What the definitions say of one another: each law is the contract of a function that does nothing.
ghost use Rattle.mintc_departure.specs.Laws.{InRangeIsOfPhases, PassIsRightWithLate, PassMeansRight};

/// The list of violations is empty exactly where the schedule is right with some departures and every hold is kept.
pub fn a_pass_means_right()
    ensures { PassMeansRight }
{}

/// A schedule in range with the design's number of phases is of those that the law of passes speaks of.
pub fn schedules_in_range_are_of_phases()
    ensures { InRangeIsOfPhases }
{}

/// A schedule that breaks nothing is right with its late departures.
pub fn a_pass_is_right_with_late_departures()
    ensures { PassIsRightWithLate }
{}
