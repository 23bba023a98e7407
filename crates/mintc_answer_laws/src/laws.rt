//! What the definitions of answers say of one another: a law is the contract of a function that only calls laws.
ghost use Rattle.mintc_answer_laws.specs.Corners.{CornerAnswersAreTheSame};
ghost use Rattle.mintc_answer_laws.specs.Free.{CornerRefusalsAreTheSame, JobAnswersAreTheSame, SummariesAreTheSame};

use mintc_build::{corners_differ_in_numbers, files_are_plain};
use mintc_certificate::certificate_texts_are_plain;
use mintc_command_answers::{
    joint_optima_are_determined, optima_are_determined, refusals_are_determined,
    safe_optima_are_determined, statuses_are_determined,
};
use mintc_paths::accepted_designs_have_systems;
use mintc_report::answers_are_determined;
use mintc_slack::slack_is_determined;
use mintc_timing::{
    early_are_determined, late_are_determined, least_cycle_is_determined, pairs_are_determined,
    violations_are_determined,
};
use mintc_timing_text::{
    schedule_texts_are_plain, schedule_texts_are_their_lines, table_texts_are_plain,
};

/// The answers to a job on the same files have one status, and are the same but for chains, loops and arcs.
pub fn job_answers_are_the_same()
    ensures { JobAnswersAreTheSame }
{
    statuses_are_determined();
    refusals_are_determined();
    table_texts_are_plain();
    files_are_plain();
    pairs_are_determined();
    schedule_texts_are_plain();
    schedule_texts_are_their_lines();
    late_are_determined();
    early_are_determined();
    violations_are_determined();
    certificate_texts_are_plain();
    optima_are_determined();
    safe_optima_are_determined();
    least_cycle_is_determined();
    slack_is_determined();
    answers_are_determined();
}

/// The answers to a sample of one number have one status and one text, but for the arcs of a refusal.
pub fn summaries_are_the_same()
    ensures { SummariesAreTheSame }
{
    statuses_are_determined();
    refusals_are_determined();
    table_texts_are_plain();
    files_are_plain();
    pairs_are_determined();
    optima_are_determined();
    answers_are_determined();
}

/// Where corners are refused, their answers are the same but for the arcs that a corner's own refusal names.
pub fn corner_refusals_are_the_same()
    ensures { CornerRefusalsAreTheSame }
{
    refusals_are_determined();
}

/// The answers to `corners` on the same files have one status, and are the same but for chains and arcs.
pub fn corner_answers_are_the_same()
    ensures { CornerAnswersAreTheSame }
{
    statuses_are_determined();
    refusals_are_determined();
    table_texts_are_plain();
    files_are_plain();
    pairs_are_determined();
    accepted_designs_have_systems();
    corners_differ_in_numbers();
    joint_optima_are_determined();
}
