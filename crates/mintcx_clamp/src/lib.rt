//! Delays below 0, taken as 0.
//!
//! Where a delay below 0 stands that may be none, mintc refuses the delays. `clamp` writes their text with `0` in the
//! place of each such number: what mintc reads of it are the delays with 0 for each number below 0, and it isn't
//! refused for one. An answer to that text is safe for setups, and for holds too good.
//!
//! No second grammar is needed for that: the text is written by a walk over its tokens, and then its tokens are held
//! against those of the text that was given. What a lexer makes of the new text is found by reading it.
#![tactic(auto)]

mod clamping;
mod laws;
mod walking;
mod words;
mod writing;

pub use clamping::clamp;
pub use laws::{clamped_delays_are_not_below_zero, delays_are_kept};
