//! The clocks of a schedule as SDC, and when data comes to the ports that a clock lists.
//!
//! Each phase becomes a clock on its port, with the times of the schedule; two phases on the levels of one port become
//! one clock. A listed input becomes the delays from the start of its phase, a listed output those before its end. All
//! times are whole femtoseconds, and stand in the text as decimals of nanoseconds, exactly. What of a clock or of a
//! schedule SDC can't say is an obstacle; where there is none, the text has one definition, a list of lines. No call
//! refuses: those that write may lack memory, and nothing else.
#![tactic(auto)]

mod clocks;
mod delays;
mod laws;
mod messages;
mod named;
mod obstacles;
mod text;
mod times;

pub use laws::times_are_exact;
pub use named::clock_by_names;
pub use obstacles::{Obstacle, Window, obstacle_of};
pub use text::{Titles, sdc_text};
