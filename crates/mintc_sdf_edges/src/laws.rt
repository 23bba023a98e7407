//! What the definitions say of one another: each law is the contract of a function that does nothing.
ghost use Rattle.mintc_sdf_edges.specs.Laws.{Merge, HaveEdges, EdgeDelaysAreWithin};

use mintc_sdf::delays_are_within;

/// Each text that has delays tells them by edge, and merged these are the text's delays again.
pub fn delays_merge()
    ensures { Merge }
{}

/// Each delay by edge of a text begins at an edge, and speaks of one.
pub fn edge_delays_have_edges()
    ensures { HaveEdges }
{}

/// In each delay by edge of a text the least number is at most the greatest, and both are from 0, or for a setup or a
/// hold from -10^9, to 10^9 femtoseconds.
pub fn edge_delays_are_within()
    ensures { EdgeDelaysAreWithin }
{
    delays_are_within();
}
