//! What holds of each schedule of a design, whether or not a machine has memory to find it.
//!
//! The crates below find late departures or a loop, early departures, and the list of all that a schedule breaks, and
//! may stop for want of memory. The laws here say that these always exist: so no definition of them leaves a schedule
//! without an answer, and what is said of a schedule's violations is said of each schedule. They go by rounds over the
//! elements that rise from where no data reaches one, until they stand still, or an element is met twice on the way
//! back along what still makes them rise.
#![tactic(auto)]

mod laws;

pub use laws::{
    late_departures_have_early_ones, passes_break_nothing, schedules_have_late_departures_or_loops,
    schedules_have_violations,
};
