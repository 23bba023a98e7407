//! The design of files: a hierarchy with its cells, a clock and delays becomes elements and arcs.
//!
//! The phase of a latch or flop is found by a search back from its enable or clock pin, along joins and through the
//! cells of the clock's tree. What drives each bit is noted first; then the ways back are doubled, round by round,
//! until each leads to the end of its search, so that long chains before many latches cost no more than short ones.
//! What passes a limit is found by counts, before anything is built. The design is the one of specs/Made.antt, list
//! by list.
//!
//! mintc_build gets a design within its limits, or the first refusal. mintc_edges makes its design of the same parts: it
//! gets the phases, the listed bits, and the element of a latch or flop by what is said of it.
#![tactic(auto)]

mod annotating;
mod arcs;
mod clocked;
mod counting;
mod drivers;
mod elements;
mod gathering;
mod laws;
mod listing;
mod naming;
mod searching;
mod spots;
mod stored;
mod timed;
mod tracing;

pub use annotating::{annotate, copy_bounds, phase_names};
pub use arcs::{next_element, push_arc};
pub use clocked::{Clocked, clock_ports};
pub use elements::listed_element;
pub use laws::{
    annotate_refusals_are_determined, designs_are_determined, designs_are_not_refused,
    there_is_a_design_or_a_refusal,
};
pub use listing::{ListedBit, ListedBits, listed_bits};
pub use naming::leaf_name;
pub use searching::Spot;
pub use stored::{SaidOf, element_of};
pub use tracing::{trace_all, trace_phases};
