//! The nets of a module by name: their ranges, their bits, and the place of each bit among all bits of the module.
//!
//! A module of structural Verilog (IEEE 1364) has its ports, the nets that it declares and those that it only
//! mentions. Each name is a net of one bit, or a vector of the range that its first declaration gives. The bits of
//! all nets stand in one list: the nets in the order in which their names first come, each from its rightmost bit.
//! A table keeps each name once, with the place of its net's first bit; so the place of any bit, the width of an
//! expression and the places that it stands for are found by one look-up a name, and no list of bits is made. The
//! crate above numbers the bits of a whole design by these places.
#![tactic(auto)]

mod declared;
mod expressions;
mod net_names;
mod nets;
mod spans;

pub use declared::{Declaration, Declarations};
pub use expressions::has_constant;
pub use nets::Nets;
pub use spans::{bits, index_at};
