//! What one cell of a Liberty library means: a gate, a latch, a flop or a cell of the clock's tree, by what stands
//! in its group.
//!
//! `cell_of` gives the cell that the statements of a group mean, or none where it can't be used. The code builds no
//! statements: the group is passed a few times by copies of one reader, for its groups, its pins and what is said
//! of them. An expression is judged without its outer parentheses, and no more of it is kept than an input of the
//! cell may be called.
//!
//! mintc_liberty gets the cell of a group, and the groups that stand among statements, by which it finds a library's
//! cells. mintc_senses reads the pins and timings of the same groups by their names and values.
#![tactic(auto)]

mod bytes;
mod cells;
mod expressions;
mod groups;
mod parts;
mod pins;
mod values;

pub use cells::cell_of;
pub use groups::{Group, body, group_at, next_group, next_name, only_name};
pub use values::{is_text, last_value, says};
