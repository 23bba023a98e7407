//! When data leaves each element under a schedule, at the latest and at the earliest, and what the schedule breaks.
//!
//! The model is that of K. A. Sakallah, T. N. Mudge and O. A. Olukotun (1990): a flop departs at the start of its
//! phase, a latch when it is open and its last data is there. So the late departures are the greatest walks of a
//! network of elements and pairs: `late` finds them, or a loop that keeps them from settling, by the rounds of R.
//! Bellman (1958) and L. R. Ford (1956) that mintc_graph_walks takes. The early departures rise in rounds from
//! where no data reaches an element, and the late ones bound them.
//!
//! The crates above get these departures as the least that are exact, and by `violations` all that a schedule
//! breaks, of the clock, the bounds, setups and holds: nothing exactly where it is right and keeps every hold
//! (`a_pass_means_right`).
#![tactic(auto)]

mod amounts;
mod arrivals;
mod clock_checks;
mod clocked_system;
mod element_checks;
mod judging;
mod latest;
mod laws;
mod pair_ends;
mod pair_network;
mod rising;
mod rounds;
mod settling;

pub use judging::violations;
pub use laws::{
    a_pass_is_right_with_late_departures, a_pass_means_right, schedules_in_range_are_of_phases,
};
pub use mintc_timing::{Broken, Violation};
pub use rounds::early;
pub use settling::{Settling, late};
