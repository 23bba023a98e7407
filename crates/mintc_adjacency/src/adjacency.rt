//! Edges by the node at which each one is.
ghost use Rattle.std.specs.Prelude.{◌≡◌, ◌<◌, ◌-◌, ◌+◌, ◌^◌, ℕ, length, IfOk};
ghost use Rattle.std.specs.Iterator.{at_most};
ghost use Rattle.mintc_adjacency.specs.Adjacency.{AreChains, AreFalling, AreLeft, AreLinked, CanGoOn, GivesEdge};

use std::alloc::{AllocError, Global};

/// The edges at each node, as chains from the last one down. Edges and nodes are counted from 0. The chains have their
/// numbers counted from 1, and 0 ends one.
#[derive(Drop)]
pub struct Adjacency {
    /// For each node the last edge at it.
    lasts: Vec<u32>,
    /// For each edge the one before it at the same node.
    nexts: Vec<u32>,
}

/// The edges at a node that are left, from the last one down.
#[derive(Drop)]
pub struct Edges<'a> {
    /// For each edge the one before it at the same node.
    nexts: &'a [u32],
    /// The edge that comes next.
    next: u32,
}

impl Adjacency {
    /// No edges at so many nodes, with room for so many edges.
    pub fn new(alloc: Global, nodes: usize, edges: usize) -> Result<Adjacency, AllocError>
        ensures { IfOk result (λ adjacency. (node_of : ℕ → ℕ) → AreLinked node_of nodes edges 0 adjacency) }
    {
        Ok(Adjacency {
            lasts: vec![in alloc; 0; nodes]?,
            nexts: vec![in alloc; 0; edges]?,
        })
    }

    /// Adds the next edge, at this node.
    #[inline(always)]
    pub fn add(&mut self, edge: usize, node: u32)
        requires few { edge < 2 ^ 32 - 1 }
        requires edge { edge < length self.old.nexts.items }
        requires node { node < length self.old.lasts.items }
        ensures { (node_of : ℕ → ℕ) → node_of edge ≡ node → (nodes edges : ℕ) →
            AreLinked node_of nodes edges edge self.old → AreLinked node_of nodes edges (edge + 1) self.new }
    {
        let node = node as usize;
        self.nexts[edge] = self.lasts[node];
        self.lasts[node] = edge as u32 + 1;
    }

    /// The edges at a node, from the last one down.
    #[inline(always)]
    pub fn at(&self, node: usize) -> Edges<'_>
        requires node { node < length self.now.lasts.items }
        requires falling { AreFalling self.now }
        ensures falling { CanGoOn result }
        ensures left { (node_of : ℕ → ℕ) (nodes edges : ℕ) → AreChains node_of nodes edges self.now →
            AreLeft node_of node edges result }
    {
        Edges {
            nexts: &self.nexts,
            next: self.lasts[node],
        }
    }
}

impl<'a> Iterator for Edges<'a> {
    type Item = usize;

    ghost can_next = { CanGoOn };

    ghost next_gives = { GivesEdge };

    ghost remaining = { λ edges. at_most edges.next };

    #[inline(always)]
    fn next(&mut self) -> Option<usize> {
        let edge = self.next.checked_sub(1)? as usize;
        self.next = self.nexts[edge];
        Some(edge)
    }
}
