//! Which word of a line or a statement is at fault.
//!
//! A refusal names a line or a statement by its number. A finder looks inside of it for the word at fault, and for what
//! else is to be shown: another place, a module's name. What it finds lies inside of the line or statement; where it
//! finds nothing, the caller shows the whole. That the word is the right one is tested, and not proved. Each finder
//! passes over the text once or twice.
#![tactic(auto)]

mod arcs;
mod cells;
mod clocks;
mod connections;
mod declared;
mod delays;
mod described;
mod descriptions;
mod drives;
mod enables;
mod fields;
mod fits;
mod found;
mod graph;
mod header;
mod headings;
mod hierarchy;
mod instances;
mod items;
mod kinds;
mod library;
mod modules;
mod names;
mod negatives;
mod numbers;
mod pieces;
mod pins;
mod ports;
mod quoting;
mod sections;
mod tops;
mod walk;
mod ways;
mod widths;

pub use arcs::{arc_ends, arc_lines};
pub use cells::{cell_fault, cell_names};
pub use clocks::{Item, clock_fault, missing_port, phases_of};
pub use declared::{free_port, ports_of_top};
pub use delays::{missing_instance, unclosed_list, unread_key};
pub use described::{Side, pins_of_cell};
pub use drives::two_drivers;
pub use enables::{Through, Unclocked, clockless};
pub use fields::field_fault;
pub use fits::wrong_width;
pub use found::{Class, Fault, Found, MOST_PLACES, Number, Places, Way, Wrong, bytes_of, name_of};
pub use header::Header;
pub use headings::behaviour;
pub use instances::{PathEnd, path_end};
pub use items::{cell_heading, item_value};
pub use kinds::CellKind;
pub use library::{Lack, broken_statement};
pub use modules::{missing_cell, ring};
pub use names::name_twice;
pub use negatives::{Negative, negative_numbers};
pub use numbers::{far_number, negative_number};
pub use pins::{missing_pin, missing_port_of_module};
pub use ports::missing_way;
pub use tops::possible_tops;
pub use ways::{LongWay, long_way};
