//! The messages of refusals, for people.
//!
//! mintc says `refused 8 12`. Here that becomes what is wrong, the file, the line and the column, the line itself with
//! marks below it, why it is refused and what helps, and at the end mintc's own line. `file_of` tells which file of the
//! command a refusal speaks of, so that the caller reads that file alone once more; `refusal_message` and
//! `short_message` take its bytes. `beside_of` tells which other file has names that the message says: what a cell's
//! pins are, or the top's ports. For a corner these are the file of `teller`, and `corner_message`. A place is shown
//! where it is known: statements of the netlist and of a library, entries of the delays, lines of tables, schedules
//! and certificates, and keys of descriptions.
#![tactic(auto)]

mod advice;
mod carriers;
mod cases;
mod clocks;
mod counts;
mod described;
mod descriptions;
mod details;
mod entries;
mod files;
mod labels;
mod lists;
mod messages;
mod others;
mod parts;
mod places;
mod whats;
mod whys;
mod writing;

pub use files::{Inputs, beside_of, file_of, teller};
pub use messages::{corner_message, refusal_message, short_message};
pub use parts::{Marked, Parts, corner_parts, refusal_parts, refusal_what};
pub use writing::{digits_of, put_place, put_times, refusal_number};
