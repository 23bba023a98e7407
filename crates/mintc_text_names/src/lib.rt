//! Names, each once, in the order in which they first come.
//!
//! The nets of a module, the ports of modules and the phases of a clock are called by names, of which no two things
//! of a kind may have the same. A set keeps each name once, gives the place of a name by one look-up, and is seen
//! as the list of its names; so what a crate above says of names is said of lists.
#![tactic(auto)]

mod names;

pub use names::NameSet;
