//! What each instance of a netlist is of, before any rule is judged: a cell, a module or nothing, found once by
//! name and kept as numbers.
//!
//! With it go the nets of each module, an order in which each module stands behind those that it instantiates, and
//! what an instance connects to each pin of what it is of, by name or in order. The rules that refuse a netlist and
//! the walk that flattens it both read these tables, and so look no name up again.
#![tactic(auto)]

mod bindings;
mod connection_index;
mod instance;
mod order;
mod pins;
mod resolve;
mod tables;

pub use bindings::BindingList;
pub use connection_index::ConnectionIndex;
pub use instance::Instance;
pub use order::modules_in_order;
pub use pins::{is_output, pin_count, pin_name, pin_width, push_pin};
pub use resolve::find_bindings;
pub use tables::{ModuleNets, Source, find_nets};
