//! Tables of text for terminals.
//!
//! A table is rows of cells. Each column, also the first, stands behind two blanks, and is as wide as its widest cell,
//! and at least as wide as it asks for. A cell's width is its number of bytes. Names stand to the left of their column,
//! and numbers to the right. No line ends in a blank, and a row may end before its last column. The definition of the
//! text says which bytes stand where, and the law that a line loses nothing but blanks at its end. No call refuses:
//! those that take memory may lack it, and nothing else.
#![tactic(auto)]

mod cells;
mod laws;
mod lines;
mod table;

pub use cells::{Column, Side};
pub use laws::lines_keep_cells;
pub use table::Table;
