//! The lexemes of a Verilog statement, and what is read of them first: signs, reserved words, names, numbers and
//! expressions.
//!
//! A lexeme is what a token is to the grammar. A reader passes the tokens of one statement, from the text itself,
//! and is seen as the list of the lexemes that are left. An expression may have braces within braces, and its
//! pieces are written out. The code is tied to the grammar by functions on lists of lexemes: what is read is what
//! they give.
//!
//! The crates above read the parts of statements by these calls, and hand on why reading stopped.
#![tactic(auto)]

mod expressions;
mod lists;
mod numbers;
mod reader;
mod words;

pub use expressions::read_expression;
pub use lists::single;
pub use reader::Reader;
