//! The cells of a description, and the senses that it says of them.
//!
//! A gate, latch or flop of a description may have two more keys, `positive` and `negative`: lists of what makes an
//! edge of an output in its own kind, and in the other kind. `read_sensed_cells` reads the cells as they are without
//! these keys, and beside them which edges of a pin may make which edges of an output. What neither key names may make
//! both. The texts are those of docs/formats.md, "Cell description".
#![tactic(auto)]

mod laws;
mod naming;
mod plain;
mod read;
mod rows;

pub use laws::{
    bad_sensed_cells_are_determined, cells_have_no_keys, keyless_texts_are_plain,
    plain_cells_are_determined, sensed_cells_are_not_refused,
};
pub use read::{SensedCells, read_sensed_cells};
