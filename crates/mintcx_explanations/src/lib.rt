//! What each refusal means, at length.
//!
//! Each refusal has a page of some lines, which begins with its number: what it means, an example, and what to do. The
//! pages are the sections of docs/refusals.md, "Each refusal", to the byte; and two warnings have pages of that kind,
//! the sections of "Each warning". Each is a function of its own, so that no proof meets more than one long text.
#![tactic(auto)]

mod delays;
mod descriptions;
mod designs;
mod explaining;
mod laws;
mod netlists;
mod texts;
mod topics;
mod warnings;

pub use explaining::explanation_of;
pub use laws::refusals_are_explained;
pub use topics::topic_number;
pub use warnings::warning_explanation;
