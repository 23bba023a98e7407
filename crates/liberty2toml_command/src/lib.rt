//! A Liberty text to its TOML form as one call: words and a file in, a status and one text out.
//!
//! `convert` judges the words, reads the file that they name, works out the answer whole in memory, and writes it
//! by one call of the sink. Statuses and refusals are those of mintc. The TOML text describes the very cells that
//! the Liberty text has, so that a design means the same with either. `toml_form` writes that text of any cells:
//! the data of a document is put together key by key, and the crate `toml` prints it.
#![tactic(auto)]

mod answer;
mod program;
mod status;
mod tables;

pub use program::convert;
pub use status::Status;
pub use tables::toml_form;
