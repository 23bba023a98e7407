//! The greatest walks, or a closed chain of positive weight.
ghost use Rattle.std.specs.Prelude.{◌≡◌, ◌<◌, ◌≤◌, ◌+◌, ◌^◌, length, vec_len, vec_capacity, IfNone, IfSome};
ghost use Rattle.mintc_graph_walks.specs.Answers.{IsAnswered, IsKept};
ghost use Rattle.mintc_graph_walks.specs.Bounds.{AreBounded, AreFew, AreOrdinary, most_nodes};
ghost use Rattle.mintc_graph_walks.specs.Chains.{AreParents, IsRing, IsRooted};

use crate::chains::{Ring, collect, mark};
use crate::network::{NONE, Network};
use crate::rings::heaviest;
use crate::rise::{Direction, pass, relax_all};
use crate::steps::Steps;
use crate::trees::list_tree;
use std::marker::Brand;
use std::sync::ledger::{Blank, Ledger};

/// What was found.
#[derive(Clone, Copy, Debug, PartialEq, Eq)]
pub enum Answer {
    /// `values` has for each node the greatest value of a walk to it, or `UNREACHED`.
    Values,
    /// The first `len` numbers of `chain` are the arcs of a closed chain of positive weight, in order.
    Chain { len: usize },
}

/// Lists with one item for each node, by which a walk goes on from the one before and finds rings. They are in this
/// struct so that who walks often keeps them: a walk takes no memory.
#[derive(Debug, Drop)]
pub struct Tree {
    /// Numbers of arcs that the next walk takes first, in their order. Any numbers will do, also of no arc. A walk
    /// leaves those by which a walk through a network that is little different takes fewer steps.
    pub arcs: Vec<u32>,
    /// For work alone: any numbers will do, and what a walk leaves says nothing.
    pub marks: Vec<u32>,
}

/// How many passes a counter may say before passes go by turns. Ordinary searches end sooner, so they find the chains
/// that they found before passes went by turns.
const ORDINARY_PASSES: u64 = 32;

/// The direction of the pass with which so many are taken. Arcs that lead back along a long chain raise nodes of it
/// anew in each pass upwards, so that few of its arcs are the ones that raised their ends last; every second pass goes
/// downwards once a search is long.
fn direction_of(taken: u64) -> Direction {
    if taken > ORDINARY_PASSES && taken % 2 == 1 {
        Direction::Downwards
    } else {
        Direction::Upwards
    }
}

/// A ring among the arcs by which the nodes were raised: the one that weighs most on the mean, else one behind the node
/// raised last.
fn find_ring<N: Network>(net: &N, before: &[u32], raised: u32, marks: &mut [u32]) -> Option<Ring>
    requires same { length marks.old ≡ length before.now }
    requires nodes { length before.now ≤ most_nodes }
    requires raised { raised < length before.now }
    requires arcs { AreOrdinary (length before.now) (N.arcs net.now) }
    requires parents { AreParents (N.arcs net.now) before.now }
    ensures ring { IfSome result (λ r. IsRing (N.arcs net.now) before.now marks.new r.node r.len) }
    ensures none { IfNone result (IsRooted (N.arcs net.now) before.now raised) }
{
    if let Some(node) = heaviest(net, before, raised, marks)
        && let Some(ring) = mark(net, before, node, marks)
    {
        return Some(ring);
    }
    mark(net, before, raised, marks)
}

/// The greatest value of the walks to each node, which is the value where a walk begins and the sum of its arcs'
/// weights; or, exactly where a walk leads to one, a closed chain of positive weight.
///
/// `values` comes in with the value at which a walk may begin at each node, or `UNREACHED`. All lists have one item for
/// each of 1 to 32,768 nodes. After `Chain` the numbers in `values` say nothing; `before` is for work alone. A step is
/// one pass over the arcs: there is at least one, and at most one for each node.
pub fn greatest_walks<N: Network, L: Ledger>(
    net: &N,
    values: &mut [i128],
    before: &mut [u32],
    tree: &mut Tree,
    chain: &mut [u32],
    steps: &mut Steps<L>,
) -> Answer
    requires some { 0 < length values.old }
    requires nodes { length values.old ≤ most_nodes }
    requires before { length before.old ≡ length values.old }
    requires marks { vec_len tree.old.marks ≡ length values.old }
    requires tree { vec_len tree.old.arcs ≡ length values.old }
    requires chain { length chain.old ≡ length values.old }
    requires few { AreFew (N.arcs net.now) }
    requires arcs { AreOrdinary (length values.old) (N.arcs net.now) }
    requires starts { AreBounded (2 ^ 80) values.old }

    ensures answer { IsAnswered (N.arcs net.now) values.old values.new chain.new result }
    ensures kept { IsKept chain.old chain.new result }
    ensures marks { vec_capacity tree.new.marks ≡ vec_capacity tree.old.marks }
    ensures tree { vec_capacity tree.new.arcs ≡ vec_capacity tree.old.arcs }
    ensures some { steps.old < steps.new }
    ensures cost { steps.new ≤ steps.old + length values.old }
{
    let first = tree.arcs.as_mut_slice();
    let marks = tree.marks.as_mut_slice();
    before.fill(NONE);
    relax_all(net, first, values, before);
    for round in 0..values.len() {
        steps.tick();
        let direction = direction_of(steps.taken());
        let Some(raised) = pass(net, direction, values, before) else {
            return Answer::Values;
        };
        if let Some(ring) = find_ring(net, before, raised, marks) {
            collect(net, before, marks, ring, chain);
            return Answer::Chain { len: ring.len };
        }
        list_tree(net, before, marks, first);
        relax_all(net, first, values, before);
    }
    unreachable!()
}

/// `greatest_walks` with a counter of its own.
fn walks_from_blank<N: Network, L: Ledger>(
    net: &N,
    values: &mut [i128],
    before: &mut [u32],
    tree: &mut Tree,
    chain: &mut [u32],
    blank: Blank,
) -> Answer
    requires name { blank.name ≡ L.name }
    requires parts { blank.parts ≡ L.parts }
    requires part { 0 < L.parts }
    requires some { 0 < length values.old }
    requires nodes { length values.old ≤ most_nodes }
    requires before { length before.old ≡ length values.old }
    requires marks { vec_len tree.old.marks ≡ length values.old }
    requires tree { vec_len tree.old.arcs ≡ length values.old }
    requires chain { length chain.old ≡ length values.old }
    requires few { AreFew (N.arcs net.now) }
    requires arcs { AreOrdinary (length values.old) (N.arcs net.now) }
    requires starts { AreBounded (2 ^ 80) values.old }

    ensures answer { IsAnswered (N.arcs net.now) values.old values.new chain.new result }
    ensures kept { IsKept chain.old chain.new result }
    ensures marks { vec_capacity tree.new.marks ≡ vec_capacity tree.old.marks }
    ensures tree { vec_capacity tree.new.arcs ≡ vec_capacity tree.old.arcs }
{
    let mut steps = Steps::<L>::open(blank);
    greatest_walks(net, values, before, tree, chain, &mut steps)
}

/// The same as `greatest_walks`, for callers that count no steps.
pub fn greatest_walks_uncounted<N: Network>(
    net: &N,
    values: &mut [i128],
    before: &mut [u32],
    tree: &mut Tree,
    chain: &mut [u32],
) -> Answer
    requires some { 0 < length values.old }
    requires nodes { length values.old ≤ most_nodes }
    requires before { length before.old ≡ length values.old }
    requires marks { vec_len tree.old.marks ≡ length values.old }
    requires tree { vec_len tree.old.arcs ≡ length values.old }
    requires chain { length chain.old ≡ length values.old }
    requires few { AreFew (N.arcs net.now) }
    requires arcs { AreOrdinary (length values.old) (N.arcs net.now) }
    requires starts { AreBounded (2 ^ 80) values.old }

    ensures answer { IsAnswered (N.arcs net.now) values.old values.new chain.new result }
    ensures kept { IsKept chain.old chain.new result }
    ensures marks { vec_capacity tree.new.marks ≡ vec_capacity tree.old.marks }
    ensures tree { vec_capacity tree.new.arcs ≡ vec_capacity tree.old.arcs }
{
    walks_from_blank::<N, Brand>(net, values, before, tree, chain, Blank::new(1))
}
