//! Designs that other designs cover: what a schedule that is right for the one says of the other.
//!
//! A design covers another where each element and each arc of that one lies on one of its own, whose numbers reach as
//! far down and as far up. So each listed path lies on a path, each pair on a pair, and a schedule that is right, or
//! passes, for the design that covers does for the other: its least cycle is no greater.
//!
//! The crate above gets these as laws; it stands on nothing but the timing model.
#![tactic(auto)]

mod laws;

pub use laws::{
    a_pass_is_kept, feeds_only_where, hopeless_only_where, least_cycle_is_no_greater,
    pairs_are_covered, paths_are_covered, right_is_kept,
};
