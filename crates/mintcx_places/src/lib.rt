//! Where things stand in the bytes of a file, and how such a place is shown to people.
//!
//! A refusal names a line, a statement or an entry by its number. Here stand the bytes of that line (`line_range`), of
//! that statement of a netlist (`statement_range`) or of a library (`library_statement_range`), or of that entry of the
//! delays (`entry_range`; `delays_range` is all of them), the line and column of a byte (`spot_of`), and the line as it
//! is shown with its marks (`excerpt_of`). Each call passes over the text once.
#![tactic(auto)]

mod entries;
mod excerpts;
mod laws;
mod library;
mod lines;
mod statements;

pub use entries::{delays_range, entry_range};
pub use excerpts::{Excerpt, excerpt_of};
pub use laws::statements_are_listed;
pub use library::library_statement_range;
pub use lines::{Range, Spot, line_range, spot_of};
pub use statements::statement_range;
