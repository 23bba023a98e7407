//! What the definitions say of one another: each law is the contract of a function that does nothing.
ghost use Rattle.mintc_edges_cover.specs.Laws.{FeedsOnlyWhere, HopelessOnlyWhere, LeastCycleIsNoGreater};
ghost use Rattle.mintc_edges_cover.specs.Laws.{PairsAreCovered};
ghost use Rattle.mintc_edges_cover.specs.Laws.{PassIsKept, PathsAreCovered, RightIsKept};

/// Each listed path of a design lies on one of the design that covers it.
pub fn paths_are_covered()
    ensures { PathsAreCovered }
{}

/// Each pair of a design lies on one of the design that covers it.
pub fn pairs_are_covered()
    ensures { PairsAreCovered }
{}

/// A phase feeds another only where it does in the design that covers.
pub fn feeds_only_where()
    ensures { FeedsOnlyWhere }
{}

/// A schedule that is right for a design is right for each design that it covers.
pub fn right_is_kept()
    ensures { RightIsKept }
{}

/// The least cycle of a design is at most that of the design that covers it.
pub fn least_cycle_is_no_greater()
    ensures { LeastCycleIsNoGreater }
{}

/// A design is hopeless only where the design that covers it is.
pub fn hopeless_only_where()
    ensures { HopelessOnlyWhere }
{}

/// A schedule that passes for a design passes for each design that it covers, where data reaches the same elements.
pub fn a_pass_is_kept()
    ensures { PassIsKept }
{}
