//! What holds of each system, whether or not a machine has memory to find it.
//!
//! The crates below find the least cycle time of a system with its certificate, and may stop for want of memory. The
//! law here says that there always is one: a search over the system's links leaves an outcome, and of it a
//! certificate is made, by the definitions alone.
#![tactic(auto)]

mod laws;

pub use laws::optima_exist;
