//! What holds of each few systems that differ in numbers alone, whether or not a machine has memory to find it.
//!
//! The crate below finds the least cycle time of one schedule for them, with its certificate, and may stop for want of
//! memory. The law here says that there always is one, as mintc_optimise_laws says of optima.
#![tactic(auto)]

mod laws;

pub use laws::joint_optima_exist;
