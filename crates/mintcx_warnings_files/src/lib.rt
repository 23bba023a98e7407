//! The warnings of a design that is given by files.
//!
//! `warnings_of` reads the netlist, the delays, the cells and the clock as mintc does, finds by `mintcx_lint` what of
//! their design is easily meant otherwise, and gives the texts of `mintcx_warnings` for that, one behind the other:
//! latches that lead to latches on the same phase, outputs on phases of flops by their order, cells of the clock that
//! lead to data by theirs, and ports of the top that no phase and no list names. Where mintc refuses the files, this is
//! mintc's refusal. An answer to the files is made elsewhere, and doesn't know of this. `clamped_warnings` is of delays
//! alone: what of them is below 0 and is taken as 0, where that is asked.
#![tactic(auto)]

mod clamped;
mod clocked;
mod entered;
mod files;
mod late;
mod parts;
mod same;
mod unlisted;
mod whole;

pub use clamped::clamped_warnings;
pub use files::{CellsForm, File, Files};
pub use whole::warnings_of;
