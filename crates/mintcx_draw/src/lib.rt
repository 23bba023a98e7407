//! The picture of a certificate: its schedule, with the chain that decides the least cycle time, as SVG.
//!
//! Below the waves of the phases each stage of the chain has a row, in the order of the chain, from the beginning by
//! which it is turned, and behind them the first stage again, some cycles on. A bar shows what takes the time of the
//! stage. No call refuses: those that take memory may lack it, and nothing else.
#![tactic(auto)]

mod bars;
mod chain;
mod drawing;
mod ends;
mod notes;
mod parts;

pub use drawing::draw;
