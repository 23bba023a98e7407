//! What a request asks of mintc: its command, and the files that it names, in their order.
//!
//! A request that no command answers yet has a message of its own. No contract says what the messages are: those are
//! tested alone.
#![tactic(auto)]

mod calls;
mod messages;

pub use calls::{Aspect, Call, Gap, NoCall, call_of, cells_place};
