//! A set of places, a bit for each, in words of 64, and flags that are all taken back at once.
//!
//! The next place in it is found word by word, so that a stretch of places which aren't in it costs little: 64 of
//! them are passed over at once. Rows of sums, elements whose departures are stale and marks of a count are kept
//! so. Each call says what is in the set after it, and the next place comes with the promise that none stands
//! before it. `Stamps` are flags of which all are taken back at once, without a look at each.
#![tactic(auto)]

mod bit_set;
mod stamps;

pub use bit_set::BitSet;
pub use stamps::Stamps;
