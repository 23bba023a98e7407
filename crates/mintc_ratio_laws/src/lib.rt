//! What holds of each ordinary list of links, whether or not a machine has memory to search it.
//!
//! The search below finds the least cycle time that no chain forbids, with a chain that is tight at it and the
//! greatest walks at it, or a chain that forbids every cycle time. The laws here say that there is always the one or
//! the other. They go without a search: of the finitely many walks with no more links than there are nodes one is
//! the best, and whatever a longer walk shows, a shorter one shows too, since it meets some node twice.
#![tactic(auto)]

mod laws;

pub use laws::{greatest_walks_exist, searches_end};
