//! What the bits and ports of a hierarchy are called, and of what a delay annotates.
//!
//! A delay names an instance by its path, and there a pin or a port. What it then annotates is a target: the arc of
//! a gate, the join into a pin, or one of the numbers of a latch or flop. The definitions are those of
//! specs/Resolution.antt. The crates above get the target that one delay annotates at one instance, if any, or that
//! it names nothing; mintc_edges also gets the output pin at which a path ends.
#![tactic(auto)]

mod instances;
mod names;
mod pins;
mod places;
mod ports;
mod resolving;
mod targets;

pub use instances::{Instance, Instances, is_same_path};
pub use names::inner_names;
pub use pins::output_pin;
pub use places::index_places;
pub use ports::{PortBit, port_bit_named};
pub use resolving::Lookup;
pub use targets::{Resolved, Target, at_leaf, is_storage};
