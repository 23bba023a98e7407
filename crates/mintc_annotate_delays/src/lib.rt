//! The ranges of all that delays annotate: the least and the greatest number of each timing arc and check.
//!
//! A delay stands at the instance that its path names, at the top, or at every leaf of its cell type. There it
//! widens the range of each target that it annotates, and of no other. In the table of ranges joins and the arcs
//! that leave ports have their places by their bit, latches and flops by their leaf, and the arcs of gates are
//! found by their leaf and two pins. mintc_annotate gets the range of each target's delays, or the first delay
//! that names nothing. mintc_edges takes in the same delays by edge: it gets the leaves of each cell, the instance of a
//! delay's path, and the shared lemmas on both.
#![tactic(auto)]

mod gathering;
mod groups;
mod paths;
mod ranges;

pub use gathering::gather_ranges;
pub use groups::leaves_by_cell;
pub use paths::{PathInstance, instance_at, path_of};
pub use ranges::Ranges;
