//! What a design demands: each constraint as a link between moments, and by how much a schedule fails those of the
//! clock and the bounds.
//!
//! A link says that one moment comes at least a delay after another, less a number of cycles. A schedule with its
//! departures is right where each link of the design holds of its moments, which makes the least cycle time a
//! question about chains of links. The search and the checker of certificates both stand on this crate, so that the
//! table of links and the amounts are written once.
#![tactic(auto)]

mod excess;
mod links;

pub use excess::{
    apart_excess, bound_excess, cycle_excess, order_excess, span_excess, times_denominator, width,
    width_excess,
};
pub use links::{
    apart_link, bound_link, cycle_link, opened_link, opening_link, order_link, reach_link,
    setup_link, span_link, start_link, width_link, width_needed,
};
