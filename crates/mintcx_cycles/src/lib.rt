//! The earliest schedule of a cycle time that is asked for, or the chain that forbids it.
//!
//! At a given cycle time the constraints of a design are links between moments: either no closed chain of them asks
//! for more time than its cycles have, and the greatest walks are the earliest right schedule, or some chain does, and
//! shows why no schedule of that cycle time is right. One test of mintc_ratio tells which.
//!
//! The crates above get `at_cycle`: the answer to "why not so fast?".
#![tactic(auto)]

mod cycles;

pub use cycles::{AtCycle, at_cycle, at_cycle_uncounted};
