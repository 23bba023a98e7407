//! Warnings: what of a design is easily meant otherwise, as people read it.
//!
//! `mintcx_lint` finds it. Here that becomes what is met, the file, the line and the column, the line itself with marks
//! below it, why that is worth a look, and what helps: the form of the messages of refusals. A place is shown where the
//! caller has found one, else the file alone. Each text has one definition. No call refuses: those that write may lack
//! memory, and nothing else.
#![tactic(auto)]

mod clamped;
mod data;
mod latches;
mod outputs;
mod ports;
mod said;
mod writing;

pub use clamped::{Clamped, clamped_text};
pub use data::{Entered, data_text};
pub use latches::same_phase_text;
pub use outputs::{Late, late_text};
pub use ports::ports_text;
pub use said::Said;
pub use writing::Scene;
