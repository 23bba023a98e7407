//! The senses of a Liberty library's cells: which edges of an input may make which edges of an output.
//!
//! `read_senses` reads the library's statements anew, for cells that were read of it before. A gate's output has a
//! function, and where that has the input its sense is the function's; else the groups `timing` say it; else each
//! edge may make both. A latch's or flop's data pin is judged by the two names of the group that keeps the state.
//! Nothing is refused: where a text says nothing that is known, all transitions are taken, so that none is missing.
#![tactic(auto)]

mod groups;
mod keepers;
mod laws;
mod outputs;
mod rows;
mod senses;
mod texts;
mod timings;
mod values;
mod words;

pub use laws::{gates_cover_changes, libraries_are_read, senses_have_some};
pub use senses::{Senses, read_senses};
