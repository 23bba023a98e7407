//! The design of four files with edges kept apart, and the text of its table.
//!
//! `design_apart` makes the design of the bytes of a netlist, delays, cells and a clock; what is refused is told by the
//! files. `table_apart` writes the table that mintc reads in their place; a name that no table can have is an obstacle.
#![tactic(auto)]

mod apart;

pub use apart::{Apart, design_apart, table_apart};
pub use mintcx_edges::Halt;
pub use mintcx_tables::Obstacle;
