//! What the lexers of Verilog, SDF and Liberty share: bytes at a place, white space, strings with backslashes, and
//! the comments `// ..` and `/* .. */`.
//!
//! A text is a list of pieces, of which some are tokens and the others are passed over. The end of a comment is
//! looked for only where a `*/` is still to come, so that a text is passed in the time of its length.
#![tactic(auto)]

mod bytes;
mod comments;

pub use bytes::{byte_at, is_pair, is_white, keeps, line_size, rest_from, string_size};
pub use comments::{comment_end, comment_size, last_end};
