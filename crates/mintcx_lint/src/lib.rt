//! What of a design is easily meant otherwise.
//!
//! An answer to a design is right by the model, and may still be one to another question than the user's: where a latch
//! leads to a latch on the same phase, where an output is on a phase of flops, and where nothing is said of a port of
//! the top. Here is what there is of that in a system, in a clock and in the ports of a top: all of it and nothing
//! else. What is said of it to people stands in `mintcx_warnings`. Each call goes over its lists a few times. No call
//! refuses: those that make lists may lack memory, and nothing else.
#![tactic(auto)]

mod latches;
mod outputs;
mod ports;
mod storage;

pub use latches::{SamePhase, same_phase};
pub use outputs::late_outputs;
pub use ports::{Unlisted, unlisted_ports};
pub use storage::storage_count;
