//! Lists that lead: items that each go from one node to another, walked one after the other, or round in a ring; and
//! edges by the node at which each one is.
//!
//! The arcs of a network, the arcs of a design and the links between moments all lead from node to node. What it is
//! to walk along them, by their numbers in a list or as a list of their own, to come back to where a walk begins, and
//! to add up what the items carry stands here once, as definitions and their laws, whatever the items are. The crates
//! above say of what kind theirs are (`Leads` of mintc_graph_walks, mintc_timing and mintc_constraints).
//!
//! `Adjacency` finds the edges at a node, from the last one down, in two lists of numbers. The crates above say which
//! edges theirs are, and at which node each one is: the arcs that leave a row (mintc_paths), the pairs that begin or
//! end at an element (mintc_departure).
#![tactic(auto)]

mod adjacency;

pub use adjacency::{Adjacency, Edges};
