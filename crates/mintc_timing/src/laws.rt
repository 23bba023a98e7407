//! What the definitions say of one another: each law is the contract of a function that does nothing.
ghost use Rattle.mintc_timing.specs.Accepted.{SystemsAreAccepted, UnrefusedAreWithin, UsualLimitsOfDesigns};
ghost use Rattle.mintc_timing.specs.Accepted.{UsuallyAccepted};
ghost use Rattle.mintc_timing.specs.Laws.{EarlyAreDetermined, ForbidsAll, HoldsHaveAmounts, LateAreDetermined};
ghost use Rattle.mintc_timing.specs.Laws.{LeastCycleIsDetermined, LeastCycleIsNoHopelessness, NoChainForbidsRight};
ghost use Rattle.mintc_timing.specs.Laws.{PairsAreDetermined, PathsJoin, RightAtEachDenominator, RightMeetsLinks};
ghost use Rattle.mintc_timing.specs.Laws.{SetupsHaveAmounts, ViolationsAreDetermined};

/// A schedule has one list of late departures at most.
pub fn late_are_determined()
    ensures { LateAreDetermined }
{}

/// A schedule has one list of early departures at most.
pub fn early_are_determined()
    ensures { EarlyAreDetermined }
{}

/// A schedule has one list of violations, but for the choice of a loop.
pub fn violations_are_determined()
    ensures { ViolationsAreDetermined }
{}

/// A setup is kept exactly where it has no amount above 0.
#[tactic(auto, using(crate::proofs::SharedAmountLaws::setups_have_amounts_lem))]
pub fn setups_have_amounts()
    ensures { SetupsHaveAmounts }
{}

/// A hold is kept exactly where it has no amount above 0.
#[tactic(auto, using(crate::proofs::SharedAmountLaws::holds_have_amounts_lem))]
pub fn holds_have_amounts()
    ensures { HoldsHaveAmounts }
{}

/// The sums of a listed path are those of its parts.
pub fn paths_join()
    ensures { PathsJoin }
{}

/// A right schedule's numbers, all multiplied by one factor, are right again.
pub fn right_at_each_denominator()
    ensures { RightAtEachDenominator }
{}

/// A design has one least cycle at most, as a fraction.
pub fn least_cycle_is_determined()
    ensures { LeastCycleIsDetermined }
{}

/// A design can't both have a least cycle and be hopeless.
#[tactic(auto, using(crate::proofs::SharedDeterminedLaws::least_cycle_is_no_hopelessness_lem))]
pub fn least_cycle_is_no_hopelessness()
    ensures { LeastCycleIsNoHopelessness }
{}

/// A chain with no cycle and a positive delay forbids every cycle time.
#[tactic(auto, using(crate::proofs::SharedDeterminedLaws::forbids_all_lem))]
pub fn forbids_all()
    ensures { ForbidsAll }
{}

/// The moments of a right schedule meet each link of its design.
#[tactic(auto, using(crate::proofs::SharedMeetingLaws::right_meets_links_lem))]
pub fn right_meets_links()
    ensures { RightMeetsLinks }
{}

/// No chain of a design's links forbids the cycle time of a right schedule.
#[tactic(auto, using(crate::proofs::SharedMeetingLaws::no_chain_forbids_right_lem))]
pub fn no_chain_forbids_right()
    ensures { NoChainForbidsRight }
{}

/// A design has one list of pairs.
pub fn pairs_are_determined()
    ensures { PairsAreDetermined }
{}

/// A run accepts the design of a system that is within its limits.
pub fn systems_are_accepted()
    ensures { SystemsAreAccepted }
{}

/// What isn't refused is within the limits of the run.
#[tactic(auto, using(crate::proofs::AcceptedLaws::unrefused_lem))]
pub fn unrefused_are_within()
    ensures { UnrefusedAreWithin }
{}

/// What a run with the usual limits refuses a design for.
#[tactic(auto, using(crate::proofs::AcceptedLaws::usual_limits_lem))]
pub fn usual_limits_of_designs()
    ensures { UsualLimitsOfDesigns }
{}

/// What a run with the usual limits accepts.
#[tactic(auto, using(crate::proofs::AcceptedLaws::usually_accepted_lem))]
pub fn usually_accepted()
    ensures { UsuallyAccepted }
{}
