//! What is free in the answers to a command, and what is not.
//!
//! The crate below defines the answers to a command on the first bytes of its files. Its laws say that they have one
//! status, and that optima of one timing differ in their chains alone. Here it is put together for the texts: two
//! answers on the same files are the same, but for which chain shows an optimum, which loop ends a fail, and which arcs
//! the refusal of a loop names.
#![tactic(auto)]

mod laws;

pub use laws::{
    corner_answers_are_the_same, corner_refusals_are_the_same, job_answers_are_the_same,
    summaries_are_the_same,
};
