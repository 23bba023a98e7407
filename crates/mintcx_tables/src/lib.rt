//! A design as the text of one table.
//!
//! The text is one that mintc reads, always of the third version, which can say what all designs have. It calls the
//! inner bits by their numbers, as tables do; all else is the design's. A name that no table can have is an obstacle;
//! where there is none, a design has one text. No call refuses: the one that writes may lack memory, and nothing else.
#![tactic(auto)]

mod laws;
mod messages;
mod obstacles;
mod parts;
mod text;
mod words;

pub use laws::designs_have_one_table;
pub use obstacles::{Obstacle, obstacle_of};
pub use text::table_text;
