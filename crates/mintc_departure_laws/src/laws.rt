//! What the definitions say of one another: each law is the contract of a function that does nothing.
ghost use Rattle.mintc_departure_laws.specs.Existence.{HaveLateOrLoop, LateHaveEarly, PassesBreakNothing};
ghost use Rattle.mintc_departure_laws.specs.Existence.{SchedulesHaveViolations};

/// A schedule has late departures, or a loop on which data comes later each time that it goes round.
pub fn schedules_have_late_departures_or_loops()
    ensures { HaveLateOrLoop }
{}

/// A schedule that has late departures has early ones.
pub fn late_departures_have_early_ones()
    ensures { LateHaveEarly }
{}

/// Each schedule has a list of violations.
pub fn schedules_have_violations()
    ensures { SchedulesHaveViolations }
{}

/// A schedule breaks nothing exactly where it is right with some departures and keeps every hold.
pub fn passes_break_nothing()
    ensures { PassesBreakNothing }
{}
