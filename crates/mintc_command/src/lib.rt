//! The program as one call: words and files in, a status and one text out.
//!
//! `run` judges the words, reads the files that they name, has the answer worked out whole in memory, and writes it
//! by one call of the sink. Its contract is the headline: the status and the text are the defined answer of the
//! command and the bytes of its files, whatever shelf and sink stand behind the traits; where a file can't be read,
//! the answer can't be written or memory ends, the status says so, and that status has no other cause. `run_within`
//! has the same contract within limits that the caller chooses; `run` takes the usual ones.
#![tactic(auto)]

mod program;
mod reading;

pub use mintc_command_answers::{
    Status, optima_are_verified, refusals_are_determined, refusals_exclude_answers, usual_limits,
};
pub use program::{run, run_within};
