//! What is answered to a command of mintc in a text for people: a status, which is mintc's own, and a text.
//!
//! It goes the way of mintc: from the first bytes of the files to the system of their design, from there to what is
//! asked of it, and at the end to another text, by the crates that write for people. Where mintc refuses the files,
//! this is mintc's first refusal, and of a corner that of its own files. Where a design is at hand, the answer speaks
//! of it in place of the one that the first files give. Nothing is read or written here.
#![tactic(auto)]

mod answering;
mod certificates;
mod clocks;
mod corners;
mod halts;
mod jobs;
mod pictures;
mod reports;
mod schedules;
mod shown;
mod subjects;
mod tables;
mod verdicts;

pub use answering::{Question, answer_text};
pub use certificates::{Certified, certified_text};
pub use clocks::{Clocks, Stated, Statement, clocks_text};
pub use halts::Halt;
pub use pictures::{Motif, Pictured, Sketch, picture_for};
pub use subjects::{names_beside, subject_of, titles_of};
pub use tables::{Tabled, table_for};
