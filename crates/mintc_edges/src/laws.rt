//! What holds of designs with edges kept apart: a law is the contract of a function that does nothing of its own.
ghost use Rattle.mintc_edges.specs.Laws.{EdgeCyclesAreNoGreater, EdgeDesignsAreCovered, EdgeDesignsAreDetermined};
ghost use Rattle.mintc_edges.specs.Laws.{EdgeDesignsAreNotRefused, EdgePassesAreKept, EdgeRefusalsAreDetermined};
ghost use Rattle.mintc_edges.specs.Laws.{EdgeSchedulesAreKept, EdgesAreHopelessOnlyWhere, EdgesFeedOnlyWhere};
ghost use Rattle.mintc_edges.specs.Laws.{HaveEdgeDesignOrRefusal, NothingElseChanges};

/// The merged design covers the one with edges apart.
pub fn edge_designs_are_covered()
    ensures { EdgeDesignsAreCovered }
{}

/// A schedule that is right with edges merged is right with edges apart.
pub fn edge_schedules_are_kept()
    ensures { EdgeSchedulesAreKept }
{}

/// A schedule that passes with edges merged passes with edges apart, where each sense has a transition to each edge.
pub fn edge_passes_are_kept()
    ensures { EdgePassesAreKept }
{}

/// The least cycle with edges apart is at most that with edges merged.
pub fn edge_cycles_are_no_greater()
    ensures { EdgeCyclesAreNoGreater }
{}

/// No schedule is right with edges apart only where none is with edges merged.
pub fn edges_are_hopeless_only_where()
    ensures { EdgesAreHopelessOnlyWhere }
{}

/// A phase feeds another with edges apart only where it does with edges merged.
pub fn edges_feed_only_where()
    ensures { EdgesFeedOnlyWhere }
{}

/// Where each sense has a transition from each edge and numbers are the same at both, the least cycle is the merged
/// one.
pub fn nothing_else_changes()
    ensures { NothingElseChanges }
{}

/// A hierarchy with its cells, senses, clock and delays has one design or one refusal, and never both.
pub fn edge_designs_are_determined()
    ensures designs { EdgeDesignsAreDetermined }
    ensures not_refused { EdgeDesignsAreNotRefused }
    ensures refusals { EdgeRefusalsAreDetermined }
{}

/// It has the one or the other.
pub fn there_is_an_edge_design_or_a_refusal()
    ensures { HaveEdgeDesignOrRefusal }
{}
