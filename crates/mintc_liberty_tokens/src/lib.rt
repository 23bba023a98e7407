//! The tokens of a Liberty text and the statements that they make: attributes, statements of the second form, and
//! groups.
//!
//! `tokens_of` is the list of a text's tokens, and `front` gives the statements that stand whole at the front of
//! tokens, with what is left behind them. The code builds neither: a reader passes over the text, and each function
//! says what is left when it has passed what it is called after. Groups nest as deep as the caller allows.
#![tactic(auto)]

mod bytes;
mod laws;
mod reader;
mod scanner;
pub mod statements;
mod trivia;

pub use laws::statements_are_the_tokens;
pub use reader::{Kind, Reader, eat_sign, item, items, semicolon, statement, value_token};
pub use scanner::Scanner;
