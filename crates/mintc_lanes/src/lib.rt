//! Rows of eight lanes, as vectors. A lane is absent or a whole number, and what it counts is the caller's.
//!
//! Sums along arcs are the same work for each of eight outputs, so eight go in one row: a kernel adds a delay to
//! each lane, and keeps the greater or the lesser of two rows, lane by lane, by the processor's vectors. An absent
//! lane stays absent. Each kernel is proved to be the plain operation on eight numbers, which is all that the
//! crates above know of it.
#![tactic(auto)]

mod row;
mod vectors;

pub use row::{max_plus_row, max_row, min_plus_row, plus_row};

/// What an absent lane holds.
pub const ABSENT: i64 = -4_000_000_000_000_000_000;
