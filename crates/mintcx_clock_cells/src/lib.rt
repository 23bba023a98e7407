//! The cells of a Liberty library, with gates that carry the clock as cells of the clock's tree.
//!
//! A library doesn't say which of its gates carry the clock alone, so their names are given. `clock_cells` reads the
//! library and puts a cell of the clock in the place of each. Such a gate has one input and one output, and its output
//! always follows the input or always is its opposite: the function says so, or the groups `timing` where there is no
//! function. A gate that isn't so, and a name that no cell has, are told by their number in the list.
#![tactic(auto)]

mod choosing;
mod copies;
mod gates;
mod library;
mod unfit;

pub use library::clock_cells;
pub use unfit::Unfit;
