//! How an answer of `mintcx` is given, and times with units, by their words.
//!
//! A word stands for one value, by a definition that the contract of its reader names.
#![tactic(auto)]

mod manners;
mod times;

pub use manners::{Color, Detail, Format, Limit, TimeUnit};
pub use times::read_time;
