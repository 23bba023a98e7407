//! What holds of fractions of whole numbers without bound, whether or not a machine has words for them.
//!
//! The crate below reduces fractions of machine numbers. Here each fraction has lowest terms: those with the least
//! denominator that any fraction of its value has.
#![tactic(auto)]

mod laws;

pub use laws::fractions_reduce;
