//! What the answers of mintcx for people have in common.
//!
//! An answer begins with a head, its verdict with the cycle time, and ends with a foot that tells the unit of its
//! times. Between them stand tables and lists: the phases of a schedule, and rows of which a limit may leave some out.
//! Here stand those parts, and what phases, elements and moments are called in them. Each has one definition that says
//! which bytes are written. No call refuses: those that write may lack memory, and nothing else.
#![tactic(auto)]

mod cells;
mod ends;
mod names;
mod phases;
mod rows;
mod view;

pub use cells::{amount_cell, number_cell, put_number, put_time, time_cell, word_cell};
pub use ends::{put_foot, put_head, put_subject};
pub use names::{element_name, kind_on_phase, node_name, phase_name, put_kind_on_phase, put_node};
pub use phases::put_phases;
pub use rows::{put_more, shown_rows};
pub use view::View;
