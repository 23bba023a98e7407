//! Answers of mintcx as JSON, for scripts.
//!
//! Each answer is one object on one line. Numbers are whole: times are femtoseconds times the answer's `den`. Names
//! stand whole, in escapes where JSON asks for them. Of each object it is proved that what is written reads back as the
//! value of a definition. No call refuses: those that write may lack memory, and nothing else.
#![tactic(auto)]

mod chains;
mod clocks;
mod corners;
mod cycles;
mod fields;
mod judgements;
mod optimum;
mod refusals;
mod safe;
mod sheet;
mod slacks;
mod verdicts;

pub use corners::corners_json;
pub use cycles::cycle_json;
pub use fields::Heading;
pub use judgements::{fail_json, pass_json};
pub use optimum::optimum_json;
pub use refusals::{Cause, Refused, Spotted, refused_json};
pub use safe::safe_json;
pub use slacks::slack_json;
pub use verdicts::verdict_json;
