//! A room: lists for the nodes of a network, and for what is found there.
ghost use Rattle.std.specs.Prelude.{◌≡◌, ◌≤◌, ◌<◌, ◌+◌, ◌^◌, [], pos, IfOk, length, replicate, slice_set};
ghost use Rattle.mintc_graph_walks.specs.Bounds.{AreBounded, AreFew, AreOrdinary, most_nodes};
ghost use Rattle.mintc_constraints.specs.Walked.{HasWalked};

use crate::lists::{fill, grow};
use mintc_graph_walks::{Answer, NONE, Network, Steps, Tree, greatest_walks};
use mintc_text::OutOfMemory;
use std::alloc::Global;
use std::marker::Model;
use std::sync::ledger::Ledger;

/// Memory for walks through a network of so many nodes and links: five lists, each of at most one number a node,
/// and what a walk leaves to make the next one short. Calls other than `reserve` take no memory.
#[derive(Debug, Drop)]
pub struct Room {
    nodes: usize,
    links: usize,
    values: Vec<i128>,
    before: Vec<u32>,
    late: Vec<i64>,
    early: Vec<i64>,
    chain: Vec<u32>,
    tree: Tree,
}

impl Model for Room {
    ghost use Rattle.std.specs.Prelude.{◌≤◌, vec_len, vec_capacity};
    ghost use Rattle.mintc_constraints.specs.Rooms.{Space};

    ghost Value = { Space };

    ghost view = { λ r. record {
      nodes = r.nodes;
      links = r.links;
      values = r.values.items;
      before = r.before.items;
      late = r.late.items;
      early = r.early.items;
      chain = r.chain.items;
    } };

    ghost invariant = { λ r.
        (r.nodes ≤ vec_capacity r.values) × (r.nodes ≤ vec_capacity r.before) × (r.nodes ≤ vec_capacity r.late)
        × (r.nodes ≤ vec_capacity r.early) × (r.nodes ≤ vec_capacity r.chain) × (r.nodes ≤ vec_capacity r.tree.marks)
        × (r.nodes ≤ vec_capacity r.tree.arcs) };
}

impl Room {
    /// A room for so many nodes and links, its lists empty.
    pub fn reserve(alloc: Global, nodes: usize, links: usize) -> Result<Room, OutOfMemory>
        ensures nodes { IfOk result (λ r. r.nodes ≡ nodes) }
        ensures links { IfOk result (λ r. r.links ≡ links) }
        ensures values { IfOk result (λ r. r.values ≡ []) }
        ensures before { IfOk result (λ r. r.before ≡ []) }
        ensures late { IfOk result (λ r. r.late ≡ []) }
        ensures early { IfOk result (λ r. r.early ≡ []) }
        ensures chain { IfOk result (λ r. r.chain ≡ []) }
    {
        let values = Vec::with_capacity(alloc, nodes)?;
        let before = Vec::with_capacity(alloc, nodes)?;
        let late = Vec::with_capacity(alloc, nodes)?;
        let early = Vec::with_capacity(alloc, nodes)?;
        let chain = Vec::with_capacity(alloc, nodes)?;
        let tree = Tree {
            marks: Vec::with_capacity(alloc, nodes)?,
            arcs: Vec::with_capacity(alloc, nodes)?,
        };
        Ok(Room {
            nodes,
            links,
            values,
            before,
            late,
            early,
            chain,
            tree,
        })
    }

    /// The number of nodes that it was reserved for.
    pub fn nodes(&self) -> usize
        ensures { result ≡ self.now.nodes }
    {
        self.nodes
    }

    /// The number of links that it was reserved for.
    pub fn links(&self) -> usize
        ensures { result ≡ self.now.links }
    {
        self.links
    }

    /// The values of the nodes.
    pub fn values(&self) -> &[i128]
        ensures { result.now ≡ self.now.values }
    {
        &self.values
    }

    /// Makes `values` so many zeros.
    pub fn fill_values(&mut self, count: usize)
        requires { count ≤ self.old.nodes }
        ensures { self.new ≡ record self.old { values = replicate count (pos 0) } }
    {
        fill(&mut self.values, count, 0);
    }

    /// Changes one item of `values`.
    pub fn set_values(&mut self, at: usize, value: i128)
        requires { at < length self.old.values }
        ensures { self.new ≡ record self.old { values = slice_set self.old.values at value } }
    {
        self.values[at] = value;
    }

    /// An arc's number for each node.
    pub fn before(&self) -> &[u32]
        ensures { result.now ≡ self.now.before }
    {
        &self.before
    }

    /// Makes `before` so many zeros.
    pub fn fill_before(&mut self, count: usize)
        requires { count ≤ self.old.nodes }
        ensures { self.new ≡ record self.old { before = replicate count (0) } }
    {
        fill(&mut self.before, count, 0);
    }

    /// Changes one item of `before`.
    pub fn set_before(&mut self, at: usize, value: u32)
        requires { at < length self.old.before }
        ensures { self.new ≡ record self.old { before = slice_set self.old.before at value } }
    {
        self.before[at] = value;
    }

    /// The late departures of the elements.
    pub fn late(&self) -> &[i64]
        ensures { result.now ≡ self.now.late }
    {
        &self.late
    }

    /// Makes `late` so many zeros.
    pub fn fill_late(&mut self, count: usize)
        requires { count ≤ self.old.nodes }
        ensures { self.new ≡ record self.old { late = replicate count (pos 0) } }
    {
        fill(&mut self.late, count, 0);
    }

    /// Changes one item of `late`.
    pub fn set_late(&mut self, at: usize, value: i64)
        requires { at < length self.old.late }
        ensures { self.new ≡ record self.old { late = slice_set self.old.late at value } }
    {
        self.late[at] = value;
    }

    /// The early departures of the elements.
    pub fn early(&self) -> &[i64]
        ensures { result.now ≡ self.now.early }
    {
        &self.early
    }

    /// Makes `early` so many zeros.
    pub fn fill_early(&mut self, count: usize)
        requires { count ≤ self.old.nodes }
        ensures { self.new ≡ record self.old { early = replicate count (pos 0) } }
    {
        fill(&mut self.early, count, 0);
    }

    /// Changes one item of `early`.
    pub fn set_early(&mut self, at: usize, value: i64)
        requires { at < length self.old.early }
        ensures { self.new ≡ record self.old { early = slice_set self.old.early at value } }
    {
        self.early[at] = value;
    }

    /// The arcs of a chain.
    pub fn chain(&self) -> &[u32]
        ensures { result.now ≡ self.now.chain }
    {
        &self.chain
    }

    /// Makes `chain` so many zeros.
    pub fn fill_chain(&mut self, count: usize)
        requires { count ≤ self.old.nodes }
        ensures { self.new ≡ record self.old { chain = replicate count (0) } }
    {
        fill(&mut self.chain, count, 0);
    }

    /// Changes one item of `chain`.
    pub fn set_chain(&mut self, at: usize, value: u32)
        requires { at < length self.old.chain }
        ensures { self.new ≡ record self.old { chain = slice_set self.old.chain at value } }
    {
        self.chain[at] = value;
    }

    /// Walks through a network, as `greatest_walks` does, from the room's values as the starts. With `Values` they are
    /// the greatest and the chain stays as it was; with a chain, `chain` holds its arcs, and the values mean nothing.
    pub fn walk<N: Network, L: Ledger>(&mut self, net: &N, steps: &mut Steps<L>) -> Answer
        requires some { 0 < length self.old.values }
        requires nodes { length self.old.values ≤ self.old.nodes }
        requires bound { length self.old.values ≤ most_nodes }
        requires chain { length self.old.chain ≤ length self.old.values }
        requires few { AreFew (N.arcs net.now) }
        requires arcs { AreOrdinary (length self.old.values) (N.arcs net.now) }
        requires starts { AreBounded (2 ^ 80) self.old.values }
        ensures walked { HasWalked (N.arcs net.now) self.old self.new result }
        ensures nodes { self.new.nodes ≡ self.old.nodes }
        ensures links { self.new.links ≡ self.old.links }
        ensures late { self.new.late ≡ self.old.late }
        ensures early { self.new.early ≡ self.old.early }
        ensures values { length self.new.values ≡ length self.old.values }
        ensures some { steps.old < steps.new }
        ensures cost { steps.new ≤ steps.old + length self.old.values }
    {
        let count = self.values.len();
        let len = self.chain.len();
        grow(&mut self.chain, count, 0);
        fill(&mut self.before, count, 0);
        fill(&mut self.tree.marks, count, 0);
        self.tree.arcs.truncate(count);
        grow(&mut self.tree.arcs, count, NONE);
        let answer = greatest_walks(
            net,
            self.values.as_mut_slice(),
            self.before.as_mut_slice(),
            &mut self.tree,
            self.chain.as_mut_slice(),
            steps,
        );
        match answer {
            Answer::Values => self.chain.truncate(len),
            Answer::Chain { len } => self.chain.truncate(len),
        }
        answer
    }
}
