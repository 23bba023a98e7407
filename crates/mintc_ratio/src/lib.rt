//! The test of one cycle time, and the search for the least.
//!
//! At a cycle time a link weighs its delay less that time for each of its cycles, so a chain of positive weight
//! forbids the time, and where there is none the greatest walks are moments that meet each link. The least cycle
//! time is the greatest ratio of delay to cycles of a chain, a maximum cycle ratio (E. L. Lawler, 1976). `search`
//! keeps a range from the ratio of the chain that it holds up to a time that no chain with a cycle forbids. It
//! tests the held ratio while its allowance of passes lasts, and else the middle of the range, on a grid so fine
//! that two ratios of chains never lie between two neighbours.
//!
//! The crates above get the least cycle time in lowest terms, the greatest walks at it and a chain that forbids each
//! smaller one, or a chain that forbids all, in at most `68 (n + 1)` passes for `n` nodes, or `78 (n + 1)` where they
//! are more than 2,017.
#![tactic(auto)]

mod advancing;
mod budget;
mod from;
mod laws;
mod rest;
mod searching;
mod sums;
mod testing;
mod turns;
mod weighed;

pub use from::{walk_from, weight_at};
pub use laws::{greatest_are_brought, least_at_each_denominator, outcomes_are_determined};
pub use searching::{Outcome, search};
pub use testing::{Test, test_at};
