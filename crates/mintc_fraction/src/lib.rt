//! Exact fractions of whole numbers. No call refuses, takes memory or rounds, other than to a grid.
//!
//! A fraction is two whole numbers of 128 bits, the second at least 1, and means their quotient: values are
//! compared, added and scaled by cross products, without lowest terms. `reduced` gives these, by Euclid's
//! algorithm, and `floor_at` and `ceil_at` the whole numbers of parts of a grid next to a value. Each operation
//! takes modest fractions, so small that no product leaves 128 bits, and its contract bounds what it gives, so that
//! callers can go on.
//!
//! The crates above have cycle times and slacks as such fractions, and rest on the laws: the order is total, sums
//! may be grouped and turned, and a value has one fraction in lowest terms.
#![tactic(auto)]

mod arithmetic;
mod fraction;
pub mod laws;

pub use fraction::Fraction;
