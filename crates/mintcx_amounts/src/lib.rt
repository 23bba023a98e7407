//! Times and frequencies as people read them.
//!
//! A time is a whole number of femtoseconds over a denominator, and stands in a text as a decimal of its unit: exactly
//! where six places are enough, else rounded to three and marked by a `~`. Zeros at the end of the places are left out.
//! A frequency is that of a cycle time, with three places, and is rounded down, so it is never above the true one. The
//! laws say how near each text is to the amount that it shows. An exact amount is its fraction in lowest terms, as
//! mintc writes it. No call here refuses: those that write may lack memory, and nothing else.
#![tactic(auto)]

mod amount;
mod decimal;
mod exact;
mod frequency;
mod laws;
mod unit;

pub use amount::put_amount;
pub use exact::put_exact;
pub use frequency::put_frequency;
pub use laws::{amounts, frequencies};
pub use unit::Unit;
