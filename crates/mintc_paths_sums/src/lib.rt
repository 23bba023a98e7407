//! Sums of paths, in rows of eight, and the memory that holds them.
//!
//! The greatest and the least sums of the paths to a bit, from eight elements, are a row, a lane for each element.
//! Memory is taken for the rows that have sums alone, and all sums are taken away at once. Each call says what
//! every row holds after it, so that the rows are seen as a plain list. The crates above carry sums along arcs in
//! them.
#![tactic(auto)]

mod sparse_rows;
mod sums;

pub use sparse_rows::SparseRows;
pub use sums::{NO_SUMS, Sums, sum_in};
