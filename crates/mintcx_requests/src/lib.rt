//! What a run of `mintcx` is asked.
//!
//! What the words of a run give is a `Given`, and what its project file says `Settings`. Both together are a `Request`:
//! the command, the files that it needs, in their order, and how the answer is to be given. That a table and a netlist
//! exclude each other, and the like, is judged by `request_of`, a total function with messages of its own.
//!
//! No contract says what the messages are: those are tested alone.
#![tactic(auto)]

mod commands;
mod given;
mod messages;
mod requests;

pub use commands::{Asked, COMMANDS};
pub use given::{Given, MannerWords, Particulars};
pub use requests::{Cells, Design, Fault, Manner, Request, Task, request_of};
