//! The design of files with edges kept apart: each element and each inner bit stands in it twice, once for data that
//! comes to rise and once for data that comes to fall.
//!
//! It is an ordinary design, so that all that is proved of designs holds of it. An arc of the merged design becomes an
//! arc for each transition that it can make: a wire keeps its edge, a gate has the sense of its pins, a latch or flop
//! that of its data pin. The numbers of each are those that delays say at its transition. What delays say is gathered
//! in one pass over them, by transitions; what passes a limit is found by counts, before anything is built. The design
//! is the one of specs/Apart.antt, list by list.
//!
//! The crates above get a design within its limits, or the first refusal, and the laws: the merged design covers it,
//! so a schedule that is right with edges merged is right with edges apart.
#![tactic(auto)]

mod apart;
mod arcs;
mod counting;
mod designing;
mod edge;
mod elements;
mod gathering;
mod laws;
mod matters;
mod spreads;
mod told;

pub use designing::{Sources, edges};
pub use edge::{Edge, Transition};
pub use laws::{
    edge_cycles_are_no_greater, edge_designs_are_covered, edge_designs_are_determined,
    edge_passes_are_kept, edge_schedules_are_kept, edges_are_hopeless_only_where,
    edges_feed_only_where, nothing_else_changes, there_is_an_edge_design_or_a_refusal,
};
