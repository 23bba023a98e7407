//! The tokens of an SDF text (IEEE Std 1497) and the items that they write: words, strings, and lists of items in
//! parentheses.
//!
//! `tokens_of` is the list of a text's tokens, and `front` gives the items that stand whole at the front of tokens,
//! with what is left behind them. The code builds neither: a reader passes over the text once, and each call says
//! what it passed and what is left. Where the item of a condition begins that counts is found in one walk, however deep
//! conditions stand in one another.
//!
//! The crates above get that reader, a scanner that also tells where in the text it is, that item, and what words are:
//! keywords, edges, names, paths and units of time. One law: items are the tokens.
#![tactic(auto)]

mod bytes;
mod conditions;
mod laws;
mod reader;
mod scanner;
mod trivia;
mod words;

pub use conditions::{Layer, condition, innermost};
pub use laws::items_are_the_tokens;
pub use reader::{Reader, TokenKind};
pub use scanner::Scanner;
pub use words::{is_edge, is_key, names, product, time_of, times_of, unit_of, without_escapes};
