//! What the definitions of refusals and answers say: a law is the contract of a function that only calls laws.
ghost use Rattle.mintc_command_answers.specs.Laws.{AnswersAreOfCommands, OptimaAreVerified, RefusalsAreDetermined};
ghost use Rattle.mintc_command_answers.specs.Laws.{RefusalsExcludeAnswers, StatusesAreDetermined};
ghost use Rattle.mintc_command_answers.specs.Optima.{JointOptimaAreDetermined, OptimaAreDetermined};
ghost use Rattle.mintc_command_answers.specs.Optima.{SafeOptimaAreDetermined};
ghost use Rattle.mintc_command_answers.specs.Usual.{UsualLimits};

use mintc_build::{
    accepted_designs_are_not_refused, design_refusals_are_determined, files_are_plain,
};
use mintc_certificate::{certificate_texts_are_plain, written_certificates_are_read};
use mintc_corners::{beside_is_both, corners_are_modest};
use mintc_safe::safe_meets_links;
use mintc_timing::{pairs_are_determined, violations_are_determined};
use mintc_timing_text::{schedule_texts_are_plain, table_texts_are_plain};

/// Where there is a first refusal, its line is the only answer.
pub fn refusals_exclude_answers()
    ensures { RefusalsExcludeAnswers }
{
    schedule_texts_are_plain();
    table_texts_are_plain();
    certificate_texts_are_plain();
    accepted_designs_are_not_refused();
    files_are_plain();
}

/// There is one first refusal, but for the choice of a loop of arcs.
pub fn refusals_are_determined()
    ensures { RefusalsAreDetermined }
{
    schedule_texts_are_plain();
    table_texts_are_plain();
    certificate_texts_are_plain();
    accepted_designs_are_not_refused();
    files_are_plain();
    design_refusals_are_determined();
}

/// What `optimise` answers, `verify` calls valid.
pub fn optima_are_verified()
    ensures { OptimaAreVerified }
{
    written_certificates_are_read();
}

/// A defined answer has the status of an answer: it is done, something is found, or the input is refused.
#[tactic(auto, using(crate::proofs::StatusLaws::of_commands_lem))]
pub fn answers_are_of_commands()
    ensures { AnswersAreOfCommands }
{}

/// The defined answers of a command on the same files have one status.
pub fn statuses_are_determined()
    ensures { StatusesAreDetermined }
{
    schedule_texts_are_plain();
    table_texts_are_plain();
    certificate_texts_are_plain();
    accepted_designs_are_not_refused();
    files_are_plain();
    pairs_are_determined();
    violations_are_determined();
}

/// Two optima of one timing differ in their chains alone.
pub fn optima_are_determined()
    ensures { OptimaAreDetermined }
{}

/// Two optima of one timing that keep each hold differ in their chains alone.
pub fn safe_optima_are_determined()
    ensures { SafeOptimaAreDetermined }
{
    safe_meets_links();
}

/// Two optima of the same corners differ in their chains alone.
pub fn joint_optima_are_determined()
    ensures { JointOptimaAreDetermined }
{
    beside_is_both();
    corners_are_modest();
}

/// At the usual limits each definition that asks a limit is what it says in numbers.
pub fn usual_limits()
    ensures { UsualLimits }
{}
