//! A large valid design made from a number: a ring of 2,000 latches on two phases, as the four texts of a design of
//! files.
//!
//! The ring serves as an input of full size that needs no file: the same number makes the same texts on each
//! machine. Latch `l` is fed by a gate from the latches one and three before it, and the delays of the gates differ
//! by a residue of the number, so that the least cycle time of each ring is known in closed form.
#![tactic(auto)]

mod ring;
mod texts;
mod weights;

pub use texts::{SampleFiles, files};
