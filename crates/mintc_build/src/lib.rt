//! From the bytes of files or of a table to their design, and from a design to a system.
//!
//! `from_table`, `from_files` and `from_liberty` read a design and stop at the first refusal in the order of a run;
//! `system` gives it an order of its arcs and its pairs, or refuses a closed list of arcs, an overlong path or too
//! many pairs. A system need not be doubted again: its type keeps what was proved of it. Designs of one netlist,
//! cells and clock with other delays differ in numbers alone, which is what corners stand on. The crate above gets
//! one call for each way in.
#![tactic(auto)]

mod building;
mod files;
mod laws;

pub use building::{from_table, system, system_order};
pub use files::{from_files, from_liberty};
pub use laws::{
    accepted_designs_are_not_refused, corners_differ_in_numbers, design_refusals_are_determined,
    designs_have_systems_or_refusals, files_are_plain, files_have_designs_or_refusals,
};
