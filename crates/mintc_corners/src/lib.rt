//! The least cycle time of one schedule for several delay files, with a certificate.
//!
//! A chip has to work hot and cold: each delay file makes a corner of one design, and one schedule is to be right
//! in all. The constraints of K. A. Sakallah, T. N. Mudge and O. A. Olukotun (1990) speak of one design. So the
//! corners are put side by side as one: the phases and the bounds stand in it once, and the elements of each corner
//! come after those of the corners before. A schedule is right there exactly where it is right in each corner
//! (`beside_is_both`), and the joint cycle is the least cycle there (`joint_cycle_is_least`). `corners` makes the
//! links of each corner, numbers their nodes among those of all (time 0 and the nodes of the clock are those of
//! all, and the width that a link asks of a phase is the greatest over all corners), and searches once, as
//! mintc_optimise does for one design. A link's number tells its corner, so its member is made in that corner
//! alone.
//!
//! The crates above get a certificate that names corners, and its text (`corners_text`).
#![tactic(auto)]

mod certificate;
mod chain;
mod departing;
mod joining;
mod joint_links;
mod laws;
mod members;
mod searching;
mod writing;

pub use certificate::{CornerCertificate, DeparturesList};
pub use laws::{
    beside_is_both, corners_are_modest, joint_cycle_is_least, jointly_hopeless_is_hopeless,
};
pub use members::{CornerMember, CornerMemberList};
pub use searching::corners;
pub use writing::corners_text;
