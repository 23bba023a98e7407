//! What is answered to a command on the bytes of its files: a status and one text.
//!
//! `command_of` says which command words are, and `answer_to` works out its answer whole in memory: from the files
//! to the system of their design, from there to the answer of its job by the crate that does the work, and to the
//! text of that; where something is refused, the text of the first refusal. Nothing is read or written here. Laws
//! say that a first refusal excludes every other answer and is one, but for the choice of a loop, and that what
//! `optimise` answers, `verify` calls valid.
//!
//! The crates above get the defined answer of the command and the bytes, or the parts of which it is made: systems of
//! files, optima, judgements, and refusals.
#![tactic(auto)]

mod answer;
mod answering;
mod check_answers;
mod command;
mod corners_answers;
mod laws;
mod optimise_answers;
mod refusal_answers;
mod safe_answers;
mod slack_answers;
mod source;
mod status;
mod verify_answers;

pub use answer::Answer;
pub use answering::answer_to;
pub use check_answers::{room_for, schedule_of};
pub use command::{Command, Job, Source, command_of};
pub use corners_answers::{CornerStop, accepted_corners, certificate_from};
pub use laws::{
    answers_are_of_commands, joint_optima_are_determined, optima_are_determined,
    optima_are_verified, refusals_are_determined, refusals_exclude_answers,
    safe_optima_are_determined, statuses_are_determined, usual_limits,
};
pub use optimise_answers::optimum;
pub use safe_answers::safe_from;
pub use slack_answers::slacks_from;
pub use source::{own_file, system_of, too_long};
pub use status::Status;
