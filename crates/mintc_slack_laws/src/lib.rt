//! What holds of each system, whether or not a machine has memory to find it.
//!
//! The crate below finds how much the delay of each pair may grow, and may stop for want of memory. The law here says
//! that there always is an answer: greatest walks lead back from the end of each pair, and what they leave of the
//! pair's cycles has some whole femtoseconds.
#![tactic(auto)]

mod laws;

pub use laws::slacks_exist;
