//! The texts of answers.
//!
//! Each answer is lines of words with a space between: of a pass with its departures, a fail with what is broken, a
//! verdict, a report of a certificate in the names of its design, and a summary of a sample. An amount in
//! femtoseconds is a fraction in lowest terms, so that each value has one text; the laws say that an answer
//! determines its text, and the text of a verdict the verdict. Each text is written into one list of bytes, and a
//! writer's contract says what it appends: some lines of which a claim holds. The crate above gets each text whole,
//! as the definition of its answer in specs/ says it.
#![tactic(auto)]

mod chain;
mod fail;
mod laws;
mod members;
mod pass;
mod report;
mod summary;
mod verdict;
mod writing;

pub use fail::fail_text;
pub use laws::{answers_are_determined, violations_name_pairs};
pub use pass::pass_text;
pub use report::report_text;
pub use summary::summary_text;
pub use verdict::verdict_text;
