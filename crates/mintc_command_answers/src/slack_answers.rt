//! The answer of `slack`.
ghost use Rattle.std.specs.Prelude.{◌≡◌, ◌<◌, ◌≤◌, ℕ, List, IfOk, IfErr};
ghost use Rattle.mintc_text.specs.Stops.{StopsAt};
ghost use Rattle.mintc_text.specs.declared.limits.TheConstants.{MOST_SLACK};
ghost use Rattle.mintc_timing.specs.Design.{element_count};
ghost use Rattle.mintc_slack.specs.Answers.{IsSlackAnswer};
ghost use Rattle.mintc_command_answers.specs.Jobs.{IsFileRefused, IsJobAnswer, IsSlackJobAnswer, slack_status};

use crate::answer::Answer;
use crate::command::Job;
use crate::status::Status;
use mintc_graph_walks::Steps;
use mintc_slack::{Slacks, slack, slack_text};
use mintc_text::{Kind, Limits, OutOfMemory, Refusal, Stop};
use mintc_timing::System;
use std::alloc::Global;
use std::marker::Brand;
use std::sync::ledger::{Blank, Ledger};

/// The slacks of a system, with the steps of the walks counted from a blank.
pub fn slacks_from<L: Ledger>(
    alloc: Global,
    system: &System,
    blank: Blank,
) -> Result<Slacks, OutOfMemory>
    requires name { blank.name ≡ L.name }
    requires parts { blank.parts ≡ L.parts }
    requires part { 0 < L.parts }
    requires few { element_count system.now.flat ≤ MOST_SLACK }
    ensures { IfOk result (IsSlackAnswer system.now) }
{
    let mut steps = Steps::<L>::open(blank);
    slack(alloc, system, &mut steps)
}

/// How a run ends that has these slacks.
fn status_of(slacks: &Slacks) -> Status
    ensures { result ≡ slack_status slacks.now }
{
    match slacks {
        Slacks::Least { .. } => Status::Done,
        Slacks::Never => Status::Found,
    }
}

/// The text of the slacks.
fn slack_answer_within(alloc: Global, system: &System) -> Result<Answer, OutOfMemory>
    requires { element_count system.now.flat ≤ MOST_SLACK }
    ensures { IfOk result (λ answer. IsSlackJobAnswer system.now answer.status answer.text) }
{
    let slacks = slacks_from::<Brand>(alloc, system, Blank::new(1))?;
    let text = slack_text(alloc, system, &slacks)?;
    Ok(Answer::new(status_of(&slacks), text))
}

/// The text of the slacks, or the limit of the elements for which slacks are found.
pub(crate) fn slack_answer(alloc: Global, limits: &Limits, system: &System) -> Result<Answer, Stop>
    ensures value { (file : List ℕ) → IfOk result (λ answer. IsJobAnswer limits.now Job.Slack system.now file
        answer.status answer.text) }
    ensures stop { (file : List ℕ) → IfErr result (StopsAt (IsFileRefused limits.now Job.Slack system.now.flat file)) }
{
    let elements = system.flat().elements().len();
    if elements > limits.most().slack {
        return Err(Stop::Refused(Refusal::Limit {
            kind: Kind::Elements,
            count: elements as u64,
        }));
    }
    Ok(slack_answer_within(alloc, system)?)
}
