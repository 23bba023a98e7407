//! The project file of `mintcx`, `mintc.toml`.
//!
//! It is read by the kit's `toml`. A text that is TOML, with keys and values that a project file may have, gives its
//! `Settings`, and another one the first fault. Its paths are taken from its folder.
//!
//! No contract says what toml's messages are, nor the messages here: those are tested alone.
#![tactic(auto)]

mod edges;
mod messages;
mod project;
mod sources;

pub use edges::Edges;
pub use project::{ProjectFault, Settings, no_project, read_project};
pub use sources::Sources;
