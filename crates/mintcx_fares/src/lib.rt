//! The picture of how a schedule fares: the setups that are worst off, and the holds that it breaks, as SVG.
//!
//! Each of them has two rows below the waves of the phases: that of the element from which the data comes that decides,
//! with what takes its time, and that of the element that it comes to, with the moment by which it has to be there, or
//! from which on it may come. What is missing stands in red below. No call refuses: those that take memory may lack
//! it, and nothing else.
#![tactic(auto)]

mod bars;
mod drawing;
mod items;
mod lanes;
mod places;
mod words;

pub use drawing::fares_picture;
