//! Data pins that have their data from a cell of the clock.
//!
//! No path of data goes through such a cell, so those that would are left out of a design. A data pin has its data from
//! the bit to which joins lead back from it: the ways back are doubled, round by round, until each is as long as there
//! are bits. No call refuses: those that make lists may lack memory, and nothing else.
#![tactic(auto)]

mod back;
mod data;

pub use data::{DataPath, data_paths};
