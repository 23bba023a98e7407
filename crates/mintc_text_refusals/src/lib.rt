//! The line of a refusal.
//!
//! A refusal is written as mintc's answer has it: `refused`, its number and its fields, with a space between, and a
//! line feed. What the words are, `refusal_line` of mintc_text says; so each program and each message that shows a
//! refusal writes the same line, and needs nothing of designs or of the search for it. Words and numbers that
//! follow a space are handed out for the other lines of answers.
#![tactic(auto)]

mod lines;
mod words;

pub use lines::refusal_text;
pub use words::{put_number, put_word};
