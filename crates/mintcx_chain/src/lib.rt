//! The chain that decides a least cycle, stage by stage, as people read it.
//!
//! A stage is a link of a chain: the moments between which it leads, its delay in femtoseconds, its cycles, and why it
//! is there. A chain is a ring, so it is turned to begin at one place (`turned`), and its rows (`rows_of`) say for each
//! stage when it begins by a schedule, in which cycle, and what its latch borrows. The gates of a path are found by the
//! names of its bits. No call refuses: those that take memory may lack it, and nothing else.
#![tactic(auto)]

mod gates;
mod moments;
mod names;
mod rows;
mod stages;
mod sums;
mod through;
mod turning;

pub use gates::{bit_name, gate_of, gates_of, short_name};
pub use moments::moment_of;
pub use names::{element_of_stage, stage_from, stage_to};
pub use rows::{Row, Rows, rows_of};
pub use stages::{Stage, Stages, Why, stage_of, stages_of};
pub use sums::{Sums, sums_of};
pub use through::{put_gates, put_through};
pub use turning::{beginning, turned};
