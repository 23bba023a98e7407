//! Answers of mintcx as CSV, for spreadsheets and scripts.
//!
//! Each answer is one table, a head line and a record a line, as RFC 4180 has it: each line ends with a carriage return
//! and a line feed, and a field is in quotes only where it needs them. Times are whole numerals of femtoseconds; where
//! a schedule has a denominator above 1, they are numerators over it, and it stands in a last column. Of each table it
//! is proved that what `csv` reads of its text are exactly the rows of a definition. No call refuses: those that write
//! may lack memory, and nothing else.
#![tactic(auto)]

mod chains;
mod corners;
mod cycles;
mod optimum;
mod passes;
mod records;
mod safe;
mod slacks;
#[cfg(test)]
mod tests;
mod verdicts;
mod violations;

pub use chains::{chain_csv, hops_csv};
pub use corners::corners_csv;
pub use cycles::cycle_csv;
pub use optimum::optimum_csv;
pub use passes::pass_csv;
pub use safe::safe_csv;
pub use slacks::slack_csv;
pub use verdicts::verdict_csv;
pub use violations::fail_csv;
