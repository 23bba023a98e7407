//! The functions of cells: which edges of a pin make which edges of a value.
//!
//! `function_sense` reads what a cell's description says of an output, an expression over the cell's pins, and gives
//! the transitions from one of them to the value. What it gives is never too little: whatever the other pins' values
//! are, each change of the value with that pin alone is one of the transitions. The code builds no tree: it reads
//! symbol by symbol, and keeps for each open parenthesis the senses of the name in what stands before.
//!
//! That each expression is read as it is written, and nothing else is, are laws.
#![tactic(auto)]

mod laws;
mod levels;
mod readings;
mod signs;
mod transitions;

pub use laws::{expressions_are_the_texts, senses_cover_changes};
pub use readings::function_sense;
pub use signs::is_word_byte;
pub use transitions::Transitions;
