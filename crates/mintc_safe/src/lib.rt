//! The least cycle time that keeps hold, with a certificate.
//!
//! In the model of K. A. Sakallah, T. N. Mudge and O. A. Olukotun (1990) a hold asks that early data comes late
//! enough, and early departures are least and greatest of others, which no link can say. So more is asked here:
//! each hold is kept even where every output comes as soon as it ever can, the least delay from the clock after its
//! phase starts. This is one more link for each pair into an element with a hold, from the end of that one's phase
//! (a flop: its start) to the start of the other's. The links of the design with these are searched as
//! mintc_optimise does. What keeps them keeps the holds (`greatest_are_safe`, `safe_meets_links`), and such a
//! schedule breaks nothing (`a_safe_schedule_passes`).
//!
//! The crates above get the safe cycle with a schedule and a chain that forbids each smaller one, and its text
//! (`safe_text`).
#![tactic(auto)]

mod certificate;
mod chain;
mod holds;
mod keeping;
mod laws;
mod members;
mod writing;

pub use certificate::SafeCertificate;
pub use keeping::safe;
pub use laws::{
    a_safe_schedule_passes, greatest_are_safe, safe_links_are_ordinary, safe_meets_links,
    stuck_is_hopeless_for_hold, tight_is_safe_cycle,
};
pub use members::{SafeMember, SafeMemberList};
pub use writing::safe_text;
