//! What the words of a run of `mintcx` give.
//!
//! The words are taken by the kit's `clap`; what they give is read off its matches, as a `Given` of `mintcx_requests`.
//! Help, the version and the text of wrong words are clap's.
//!
//! Which words parse, to which matches, and which kind of error others give, is clap's own statement for its *simple*
//! commands: no option here depends on another inside of clap.
//!
//! No contract says what clap's texts are (help, usage, tips): those are tested alone. That clap lets no words through
//! without a command is not said by its contracts in a form that is used here; `Misread::NoCommand` stands for it.
#![tactic(auto)]

mod command_line;
mod words;

pub use words::{Misread, read_words};
