//! The text of the optimum of several corners for people.
//!
//! One schedule is to be right with each of two to four delay files, which make corners of one design. The text of
//! their optimum is a head with the joint cycle time, a table of what each corner needs alone, the phases of the
//! schedule, and the chain that forbids every smaller cycle time, its members with their corners; or, where no schedule
//! is right in all corners, the chain that forbids every cycle time. The elements of a member are shown by its own
//! corner's numbers, and each number stands in the text as the amount of the exact one. No call refuses: those that
//! write may lack memory, and nothing else.
#![tactic(auto)]

mod alone;
mod laws;
mod least;
mod never;
mod ring;
mod shown;
mod tables;
mod text;

pub use alone::Corners;
pub use laws::stages_are_links;
pub use ring::{Ring, joint_departures, joint_stages, member_at};
pub use shown::{corner_of, own_stage};
pub use text::corners_text;
