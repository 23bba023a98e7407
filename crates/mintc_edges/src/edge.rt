//! Edges and transitions.
ghost use Rattle.std.specs.Prelude.{◌≡◌, ◌<◌, ◌-◌, ◌^◌, IfOk};
ghost use Rattle.mintc_senses_expressions.specs.Transitions.{has};
ghost use Rattle.mintc_edges.specs.Edges.{edge_number, at_edge, edge_mark, edge_name, is_rise};

use mintc_sdf_edges::Edges;
use mintc_senses_expressions::Transitions;
use mintc_text::{Lines, Name, OutOfMemory};
use std::alloc::Global;

/// A rise or a fall.
#[derive(Clone, Copy, Debug)]
pub enum Edge {
    Rise,
    Fall,
}

/// From an edge at one place to an edge at another one.
#[derive(Clone, Copy, Debug)]
pub struct Transition {
    pub from: Edge,
    pub to: Edge,
}

/// The four transitions.
pub(crate) const RISE_TO_RISE: Transition = Transition {
    from: Edge::Rise,
    to: Edge::Rise,
};

pub(crate) const RISE_TO_FALL: Transition = Transition {
    from: Edge::Rise,
    to: Edge::Fall,
};

pub(crate) const FALL_TO_RISE: Transition = Transition {
    from: Edge::Fall,
    to: Edge::Rise,
};

pub(crate) const FALL_TO_FALL: Transition = Transition {
    from: Edge::Fall,
    to: Edge::Fall,
};

/// Any edge.
pub(crate) const ANY_EDGE: Edges = Edges {
    rise: true,
    fall: true,
};

impl Edge {
    /// Its number among the two.
    fn number(self) -> u32
        ensures { result ≡ edge_number self }
    {
        match self {
            Edge::Rise => 0,
            Edge::Fall => 1,
        }
    }

    /// The number of an element or of an inner bit at this edge, where each stands twice.
    pub(crate) fn at(self, number: u32) -> u32
        requires { number < 2 ^ 31 - 1 }
        ensures { result ≡ at_edge number self }
    {
        2 * number + self.number()
    }

    /// Whether it is a rise.
    fn is_rise(self) -> bool
        ensures { result ≡ is_rise self }
    {
        match self {
            Edge::Rise => true,
            Edge::Fall => false,
        }
    }

    /// What stands behind a name at this edge.
    fn mark(self) -> &'static [u8]
        ensures { result.now ≡ edge_mark self }
    {
        match self {
            Edge::Rise => b"/r",
            Edge::Fall => b"/f",
        }
    }

    /// A name at this edge.
    pub(crate) fn name(self, alloc: Global, name: &[u8]) -> Result<Name, OutOfMemory>
        ensures { IfOk result (λ marked. marked ≡ edge_name name.now self) }
    {
        let mut lines = Lines::new(alloc);
        lines.put(name)?;
        lines.put(self.mark())?;
        Name::new(alloc, &lines.into_bytes())
    }
}

/// Whether a sense has the transition from an edge to an edge.
pub(crate) fn makes(sense: Transitions, from: Edge, to: Edge) -> bool
    ensures { result ≡ has sense (is_rise from) (is_rise to) }
{
    match (from.is_rise(), to.is_rise()) {
        (true, true) => sense.rise_to_rise,
        (true, false) => sense.rise_to_fall,
        (false, true) => sense.fall_to_rise,
        (false, false) => sense.fall_to_fall,
    }
}
