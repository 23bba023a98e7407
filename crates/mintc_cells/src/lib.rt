//! The cells that a cell description gives: gates, latches, flops and the cells of the clock's tree, under their
//! names.
//!
//! A description is a TOML document with a table `cell`. What a table stands for is built first, with defaults for
//! what it lacks, and judged then: a rule is a test on the shape of the table, and one on the cell. So the cells of
//! a `Cells` keep their rules whatever they were read from. The texts are those of docs/formats.md, "Cell
//! description".
//!
//! The crates above find a cell by its name or number, and see its pins in one order: inputs, then outputs.
#![tactic(auto)]

mod cell;
mod cells;
mod laws;
mod pins;
mod read;
mod rules;
mod shape;
mod tables;

pub use cell::Cell;
pub use cells::Cells;
pub use laws::{
    bad_cells_are_determined, cells_are_determined, cells_are_not_refused, cells_keep_rules,
    texts_have_cells_or_refusals,
};
pub use read::{cells_of_document, read_cells};
