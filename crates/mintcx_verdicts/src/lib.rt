//! Verdicts on certificates for people: valid, and what that means, or which of the seven tests fails, and by what.
//!
//! A verdict is given by mintc_checker. Here it is told: of the first test that fails the counts that differ, the rules
//! that are broken, the element whose departure is wrong or too late, the member that isn't the design's or leads
//! elsewhere, or the sums. Each text has one definition, and each number in it is that of the exact amount. No call
//! refuses: those that write may lack memory, and nothing else.
#![tactic(auto)]

mod arrivals;
mod counts;
mod elements;
mod examined;
mod heads;
mod judging;
mod members;
mod ring;
mod rules;
mod sums;
mod verdict;

pub use examined::Examined;
pub use verdict::verdict_text;
