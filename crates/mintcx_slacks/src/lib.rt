//! Slacks for people: how much the delay of each pair of elements may grow at the least cycle.
//!
//! `slack_text` lists the pairs, the least slack first, with their delays, as many as the limit lets it, and
//! `histogram_text` counts them by steps of slack; their order, their delays and the bars of the steps are handed out
//! for other answers. Each text has one definition, and each number in it is that of the exact amount. No call refuses:
//! those that write may lack memory, and nothing else.
#![tactic(auto)]

mod bars;
mod histogram;
mod listing;
mod order;
mod table;

pub use bars::{Step, bar, count, greatest, step_for};
pub use histogram::{fullest, histogram_text};
pub use listing::slack_text;
pub use order::{Place, by_slack};
pub use table::delay;
