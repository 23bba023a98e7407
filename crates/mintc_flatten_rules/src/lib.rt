//! The rules that refuse a netlist's statements.
//!
//! A name given twice, an instance of nothing, an instance on a closed chain, a pin that isn't there, a width that
//! doesn't fit, and a bit with two drivers. Each rule finds the first statement at fault, in the order of the file,
//! and answers for itself alone; the crate above asks them in their order. A rule keeps what it has seen of a
//! module's items in sets and maps, so that it goes over them once.
#![tactic(auto)]

mod name_twice;
mod no_module;
mod no_pin;
mod recursive;
mod refusing;
mod site;
mod two_drivers;
mod widths;

pub use refusing::{
    refuse_name_twice, refuse_no_module, refuse_no_pin, refuse_recursive, refuse_two_drivers,
    refuse_width,
};
