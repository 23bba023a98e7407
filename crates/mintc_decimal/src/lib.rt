//! Decimals: the numbers of a delay text.
//!
//! A decimal is kept as digits and a power of ten, so that a delay is rounded once, to a whole femtosecond, up or
//! down as its meaning asks.
#![tactic(auto)]

mod decimal;

pub use decimal::Decimal;
