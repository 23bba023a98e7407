//! What holds of the designs that files stand for, whether or not a machine has memory to read them.
//!
//! The crates below read four files to a design, and give it with its parts in their ranges. The law here says so of
//! the definition: whatever design four texts stand for, by a description of cells or by a Liberty library, each of
//! its elements, arcs and bounds is in its ranges.
#![tactic(auto)]

mod laws;

pub use laws::designs_are_sound;
