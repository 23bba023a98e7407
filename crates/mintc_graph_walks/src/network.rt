//! Networks: nodes, and arcs with weights between them.
ghost use Rattle.std.specs.Prelude.{◌≡◌, ◌<◌, List, length};

/// The value of a node to which no walk leads. As a start, no walk begins at the node.
pub const UNREACHED: i128 = i128::MIN;

/// Stands for no arc in a list that has the number of an arc for each node.
pub const NONE: u32 = u32::MAX;

/// An arc from one node to another or to itself, both counted from 0. Its weight is a whole number without a unit.
#[derive(Clone, Copy, Debug, PartialEq, Eq)]
pub struct Arc {
    pub from: u32,
    pub to: u32,
    pub weight: i128,
}

/// Arcs by number, counted from 0. Several arcs may lead from one node to the same other.
pub trait Network {
    ghost use Rattle.mintc_graph_walks.specs.declared.network.Arc.{Arc};
    ghost use Rattle.mintc_graph_walks.specs.Walks.{arc_at};

    ghost arcs: { Self → List Arc };

    /// How many arcs there are.
    fn len(&self) -> usize
        ensures { result ≡ length (arcs self.now) };

    /// The arc of this number. It is asked for each arc in each pass, so it should cost little.
    fn arc(&self, number: usize) -> Arc
        requires { number < length (arcs self.now) }
        ensures { result ≡ arc_at (arcs self.now) number };
}
