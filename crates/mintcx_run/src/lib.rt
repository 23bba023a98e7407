//! The program `mintcx` as one call: words and files in, a status and one text out.
//!
//! `run` reads the words and the project file, has the answer of mintc's command for them worked out whole in memory,
//! and writes it by one call: to the first sink, or to the file that takes the answer in its place; a certificate that
//! goes to a file is made before that. What is wrong with the words, a file that can't be read or made and, where the
//! form isn't mintc's, a refusal are told to the second sink, but a refusal is an object for the first one with
//! `--format json`. With `--format plain` the status and the bytes are those that mintc answers to the same files.
//!
//! Its contract says which reply the words and files have, whatever shelf, sinks and folder stand behind the traits; no
//! clause says what the messages are, but for those of refusals.
#![tactic(auto)]

mod adapters;
mod answers;
mod apart;
mod calling;
mod folder;
mod libraries;
mod objects;
mod orders;
mod program;
mod projects;
mod reading;
mod refusals;
mod reply;
mod taking;
mod unsaid;
mod warned;

pub use adapters::OutputFolder;
pub use folder::Folder;
pub use mintc_command_answers::Status;
pub use program::run;
pub use reply::{Beside, Place, Reply};
