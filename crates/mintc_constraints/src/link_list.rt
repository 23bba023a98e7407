//! Lists of links over numbered nodes.
ghost use Rattle.std.specs.Prelude.{◌≡◌};
ghost use Rattle.mintc_constraints.specs.Ordinary.{IsOrdinary, constraints_of};

use mintc_timing::Link;
use std::marker::Model;

/// Links between nodes that are counted from 0, seen as the number of the nodes and the list of the links. Each
/// such list is ordinary.
#[derive(Drop)]
pub struct LinkList {
    nodes: u32,
    items: Vec<Link>,
}

impl Model for LinkList {
    ghost use Rattle.mintc_constraints.specs.Ordinary.{Constraints, IsOrdinary, constraints_of};

    ghost Value = { Constraints };

    ghost view = { λ l. constraints_of l.nodes l.items.items };

    ghost invariant = { λ l. IsOrdinary (constraints_of l.nodes l.items.items) };
}

impl LinkList {
    /// A list of these links between so many nodes.
    pub fn new(nodes: u32, items: Vec<Link>) -> LinkList
        requires { IsOrdinary (constraints_of nodes items.items) }
        ensures { result ≡ constraints_of nodes items.items }
    {
        LinkList { nodes, items }
    }

    /// The number of nodes.
    pub fn nodes(&self) -> u32
        ensures value { result ≡ self.now.nodes }
        ensures kept { IsOrdinary self.now }
    {
        self.nodes
    }

    /// The links.
    pub fn items(&self) -> &[Link]
        ensures value { result.now ≡ self.now.links }
        ensures kept { IsOrdinary self.now }
    {
        &self.items
    }

    /// The links themselves.
    pub fn into_vec(self) -> Vec<Link>
        ensures { result.items ≡ self.links }
    {
        self.items
    }
}
