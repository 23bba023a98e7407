//! The least cycle time of a design, with a certificate.
//!
//! A design's constraints are links between moments, and the least cycle time is the least that no chain of links
//! forbids, the greatest ratio of a closed chain's delay to its cycles (A. Dasdan, "Experimental analysis of the
//! fastest optimum cycle ratio and mean algorithms", 2004). What the search of mintc_ratio leaves is written down
//! so that it can be judged without it: the chain that forbids every smaller cycle time, as members that the design
//! has, each reach with a path of its greatest delay; and the greatest walks from time 0 as a schedule with its
//! departures, the earliest there is. Where no schedule is right, the chain forbids all cycle times.
//!
//! The crate above gets `optimise`, whose certificate is valid and the earliest, the steps of it (`Bench`,
//! `member_of`, `members`, `schedule`, `departures`) for other lists of links and for tests of one cycle time, and the
//! laws of designs without bounds.
#![tactic(auto)]

mod bench;
mod chain;
mod laws;
mod optimum;
mod times;
mod turning;

pub use bench::Bench;
pub use chain::{member_of, members};
pub use laws::{never_needs_a_bound, unbounded_chains_take_nothing, unbounded_has_right};
pub use optimum::optimise;
pub use times::{departures, schedule};
pub use turning::{beginning, turned};
