//! The picture of slacks: a histogram of how much the delays of pairs may grow, as SVG.
//!
//! A bar stands for each step of slack, and its width is the whole number nearest to its exact part of the fullest
//! one's. No call refuses: those that take memory may lack it, and nothing else.
#![tactic(auto)]

mod bars;
mod drawing;
mod words;

pub use drawing::slack_picture;
