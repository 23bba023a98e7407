//! When a design has no least cycle: each law is the contract of a function that does nothing.

ghost use Rattle.mintc_optimise.specs.Bounded.{NeverNeedsABound, UnboundedChainsTakeNothing, UnboundedHasRight};

/// A system without bounds has a right schedule.
#[tactic(auto, using(crate::proofs::UnboundedLaws::unbounded_has_right_lem))]
pub fn unbounded_has_right()
    ensures { UnboundedHasRight }
{}

/// A system for which no schedule is right has a bound.
#[tactic(auto, using(crate::proofs::UnboundedLaws::never_needs_a_bound_lem))]
pub fn never_needs_a_bound()
    ensures { NeverNeedsABound }
{}

/// Without bounds a chain of links that has no cycle takes no time.
#[tactic(auto, using(crate::proofs::UnboundedLaws::unbounded_chains_take_nothing_lem))]
pub fn unbounded_chains_take_nothing()
    ensures { UnboundedChainsTakeNothing }
{}
