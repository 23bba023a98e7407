//! The delays of an SDF text (IEEE Std 1497) by edge: of each value of a definition or check its numbers, the edge of
//! the port that it begins at, and the edges of which it speaks.
//!
//! `read_delays` of mintc_sdf says what a text says, whatever the edge, and refuses what is out of form. A text that it
//! doesn't refuse is passed once more: each definition and check with a number takes the next of those delays, and the
//! numbers of each of its values stand for themselves. Merged, they are those delays again.
#![tactic(auto)]

mod copies;
mod delays;
mod demands;
mod items;
mod laws;
mod ports;
mod spans;
mod telling;
mod texts;

pub use delays::{EdgeDelay, EdgeDelayList, EdgeDelays, Edges};
pub use laws::{delays_merge, edge_delays_are_within, edge_delays_have_edges};
pub use texts::read_edge_delays;
