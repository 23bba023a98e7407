//! The report of an optimum for people, gate by gate.
//!
//! A report begins as the text of the optimum does. Then each hop of the chain that decides has a row: where data
//! departs, each gate that takes time, and what a rule of the clock asks for; and below stand the latches that borrow,
//! most first. The text has one definition, and each number in it is that of the exact amount. No call refuses: those
//! that write may lack memory, and nothing else.
#![tactic(auto)]

mod begins;
mod borrowers;
mod cells;
mod hops;
mod report;
mod rules;
mod stages;
mod told;
mod wires;

pub use cells::cells_of;
pub use report::report_text;
