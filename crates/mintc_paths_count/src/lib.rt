//! The number of a design's pairs, without a list of them.
//!
//! It says whether a design has too many pairs before memory is taken for any. Each bit has a mark for each of 128
//! elements at a time, two words, which is set where a path leads there from the element. The marks are carried
//! along the arcs in their order as `mintc_paths` carries sums, by an `or` of two words an arc (reachability in a
//! graph without loops by sets of bits), and those at the inputs are counted. The way is the one that has less to
//! carry, from the outputs on or from the inputs back. Where a look at the arcs tells that the pairs are few, none is
//! counted. The crates above get the refusals of the list, and the number.
#![tactic(auto)]

mod back;
mod bound;
mod count;
mod marks;

pub use count::{count_pairs, refuse_pairs};
