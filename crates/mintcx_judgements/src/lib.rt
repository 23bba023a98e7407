//! Judgements for people: what a schedule passes with, and what it fails and why.
//!
//! Under `pass` stand the phases, and the room that each setup and each hold leaves. Under `fail` stand the
//! violations: the rules of the clock in mintc's order, then the setups, then the holds, of each kind the worst first.
//! A setup or a hold that fails is told with the data that causes it: from where it comes, when it leaves, how long it
//! takes, and when it is wanted. The writers of single rules and of times amid words, the order of violations and the
//! rooms are handed out for other texts that tell of a system under a schedule. Each text has one definition, and each
//! number in it is that of the exact amount. No call refuses: those that write may lack memory, and nothing else.
#![tactic(auto)]

mod causes;
mod data;
mod fail;
mod judged;
mod laws;
mod pass;
mod ranking;
mod rooms;
mod rules;
mod shown;
mod sources;
mod told;
mod widest;

pub use data::put_element;
pub use fail::fail_text;
pub use judged::{Causes, Judged, causes_of};
pub use laws::violations_are_named;
pub use pass::pass_text;
pub use ranking::{Place, ranked};
pub use rooms::{by_room, hold_room, setup_room};
pub use rules::put_rule;
pub use shown::{put_measured, put_timed};
pub use sources::{departure, from_of, setup};
pub use told::Told;
