//! From the bytes of four files to their design with edges kept apart.
//!
//! `from_edge_liberty` reads a netlist, delays, a Liberty library with gates for the clock, and a clock; a cell's
//! senses are those of the library, for the cells with these gates. `from_edge_files` reads the cells from a
//! description, and the senses that its keys `positive` and `negative` say; where they don't name a pin, each edge of
//! it may make both. Both stop at the first refusal in the order of a run, which is that of the merged design up to
//! the hierarchy, but for the keys. A schedule that is right for the merged design of the same files is right for the
//! one with edges apart, and its least cycle is no greater; with the keys in a description that is so of the merged
//! design of the description without them.
#![tactic(auto)]

mod files;
mod halt;
mod laws;
mod reading;

pub use files::{from_edge_files, from_edge_liberty};
pub use halt::Halt;
pub use laws::{
    described_edges_make_both, edge_cycles_of_files_are_no_greater, edge_files_are_plain,
    edge_libraries_are_not_halted, edge_schedules_of_files_are_kept,
};
