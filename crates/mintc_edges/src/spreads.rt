//! What is said at each edge, and at each transition.
ghost use Rattle.std.specs.Prelude.{◌≡◌};
ghost use Rattle.mintc_edges.specs.Numbers.{wider};
ghost use Rattle.mintc_edges.specs.Spreads.{widened_if, widened_by, widened_along, all_of, at_or_all, all_said};
ghost use Rattle.mintc_edges.specs.Spreads.{said_at, said_to};

use crate::edge::Edge;
use mintc_sdf_edges::Edges;

/// The least and the greatest number that is said at each edge, if any is.
#[derive(Clone, Copy)]
pub(crate) struct ByEdge {
    pub(crate) rise: Option<(i64, i64)>,
    pub(crate) fall: Option<(i64, i64)>,
}

/// What is said at each transition: by the edge from which it leads, and then by that to which it leads.
#[derive(Clone, Copy)]
pub(crate) struct Spread {
    pub(crate) rise: ByEdge,
    pub(crate) fall: ByEdge,
}

/// Nothing said at either edge.
pub(crate) const NO_EDGES: ByEdge = ByEdge {
    rise: None,
    fall: None,
};

/// Nothing said at any transition.
pub(crate) const NO_SPREAD: Spread = Spread {
    rise: NO_EDGES,
    fall: NO_EDGES,
};

/// What both say.
pub(crate) fn wider(one: Option<(i64, i64)>, other: Option<(i64, i64)>) -> Option<(i64, i64)>
    ensures { result ≡ wider one other }
{
    match (one, other) {
        (Some(one), Some(other)) => Some((one.0.min(other.0), one.1.max(other.1))),
        (Some(one), None) => Some(one),
        (None, other) => other,
    }
}

/// A range with one more number, where it takes the number.
fn widened_if(
    takes: bool,
    range: Option<(i64, i64)>,
    least: i64,
    greatest: i64,
) -> Option<(i64, i64)>
    ensures { result ≡ widened_if takes least greatest range }
{
    if takes {
        wider(Some((least, greatest)), range)
    } else {
        range
    }
}

impl ByEdge {
    /// With one more number, which speaks of these edges.
    pub(crate) fn widened(self, edges: Edges, least: i64, greatest: i64) -> ByEdge
        ensures { result ≡ widened_by edges least greatest self }
    {
        ByEdge {
            rise: widened_if(edges.rise, self.rise, least, greatest),
            fall: widened_if(edges.fall, self.fall, least, greatest),
        }
    }

    /// All that is said.
    pub(crate) fn all(self) -> Option<(i64, i64)>
        ensures { result ≡ all_of self }
    {
        wider(self.rise, self.fall)
    }

    /// What is said at an edge; where nothing is, all that is said.
    pub(crate) fn at(self, edge: Edge) -> Option<(i64, i64)>
        ensures { result ≡ at_or_all self edge }
    {
        match edge {
            Edge::Rise => self.rise.or(self.fall),
            Edge::Fall => self.fall.or(self.rise),
        }
    }
}

impl Spread {
    /// With one more number, which speaks of transitions from some edges to others.
    pub(crate) fn widened(self, from: Edges, to: Edges, least: i64, greatest: i64) -> Spread
        ensures { result ≡ widened_along from to least greatest self }
    {
        Spread {
            rise: if from.rise {
                self.rise.widened(to, least, greatest)
            } else {
                self.rise
            },
            fall: if from.fall {
                self.fall.widened(to, least, greatest)
            } else {
                self.fall
            },
        }
    }

    /// All that is said.
    pub(crate) fn all(self) -> Option<(i64, i64)>
        ensures { result ≡ all_said self }
    {
        wider(self.rise.all(), self.fall.all())
    }

    /// What is said at the transition from an edge to an edge; where nothing is, all that is said.
    pub(crate) fn at(self, from: Edge, to: Edge) -> Option<(i64, i64)>
        ensures { result ≡ said_at self from to }
    {
        let begun = match from {
            Edge::Rise => self.rise,
            Edge::Fall => self.fall,
        };
        let said = match to {
            Edge::Rise => begun.rise,
            Edge::Fall => begun.fall,
        };
        said.or(self.all())
    }

    /// What is said at the transitions to an edge; where nothing is, all that is said.
    pub(crate) fn to(self, edge: Edge) -> Option<(i64, i64)>
        ensures { result ≡ said_to self edge }
    {
        let said = match edge {
            Edge::Rise => wider(self.rise.rise, self.fall.rise),
            Edge::Fall => wider(self.rise.fall, self.fall.fall),
        };
        said.or(self.all())
    }
}
