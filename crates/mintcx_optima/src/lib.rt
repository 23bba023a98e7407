//! The texts of least cycles for people.
//!
//! The text of an optimum is its head with the least cycle time, the phases of its schedule, and the chain that forbids
//! every smaller cycle time, stage by stage; or, where no schedule is right, the chain that forbids them all. Each
//! number stands in it as the amount of the exact one. The parts of these texts that others have too are handed out
//! beside them. No call refuses: those that write may lack memory, and nothing else.
#![tactic(auto)]

mod because;
mod cells;
mod counts;
mod holds;
mod least;
mod never;
mod optimum;
mod safe;
mod short;
mod tables;

pub use because::put_because;
pub use counts::{put_counted, put_decided};
pub use least::{cycle_of, unit_of};
pub use optimum::{chain_of, never_of, optimum_text};
pub use safe::{safe_chain_of, safe_text};
pub use short::cycle_text;
