//! What the definitions say of one another: each law is the contract of a function that only calls laws.
ghost use Rattle.mintc_existence.specs.Answers.{CertificatesHaveVerdicts, ChecksHaveAnswers, FailsHaveTexts};
ghost use Rattle.mintc_existence.specs.Answers.{FractionsHaveLowestTerms, OptimaHaveAnswers, PassesHaveTexts};
ghost use Rattle.mintc_existence.specs.Answers.{ReportsHaveTexts, SafeOptimaHaveAnswers, SummariesHaveTexts};
ghost use Rattle.mintc_existence.specs.Answers.{SystemsHaveSummaries, VerificationsHaveAnswers};
ghost use Rattle.mintc_existence.specs.Commands.{CommandsAreAnswered, CornersAreAnswered, FilesHaveTimings};
ghost use Rattle.mintc_existence.specs.Commands.{JobsAreAnswered};
ghost use Rattle.mintc_existence.specs.Commands.{SamplesAreAnswered, SourcesAreAnswered, TablesAreAnswered};
ghost use Rattle.mintc_existence.specs.Commands.{TablesHaveTimings};

use mintc_build::{
    corners_differ_in_numbers, designs_have_systems_or_refusals, files_have_designs_or_refusals,
};
use mintc_build_laws::designs_are_sound;
use mintc_certificate::texts_have_certificates_or_refusals;
use mintc_corners_laws::joint_optima_exist;
use mintc_departure_laws::schedules_have_violations;
use mintc_optimise_laws::optima_exist;
use mintc_safe_laws::safe_optima_exist;
use mintc_slack_laws::slacks_exist;
use mintc_timing::systems_are_accepted;
use mintc_timing_text::{
    schedule_texts_are_their_lines, texts_have_designs_or_refusals, texts_have_schedules_or_faults,
};

/// Each fraction over a denominator of at least 1 has lowest terms.
pub fn fractions_have_lowest_terms()
    ensures { FractionsHaveLowestTerms }
{}

/// Departures have a text of a pass.
pub fn passes_have_texts()
    ensures { PassesHaveTexts }
{}

/// Violations have a text of a fail.
pub fn fails_have_texts()
    ensures { FailsHaveTexts }
{}

/// On a design and a file `check` has an answer, or the file is refused.
pub fn checks_have_answers()
    ensures { ChecksHaveAnswers }
{
    schedules_have_violations();
    schedule_texts_are_their_lines();
    texts_have_schedules_or_faults();
}

/// A certificate has a verdict on each timing.
pub fn certificates_have_verdicts()
    ensures { CertificatesHaveVerdicts }
{}

/// On a timing and a file `verify` has an answer, or the file is refused.
pub fn verifications_have_answers()
    ensures { VerificationsHaveAnswers }
{
    texts_have_certificates_or_refusals();
}

/// A table gives a timing, or is refused.
pub fn tables_have_timings()
    ensures { TablesHaveTimings }
{
    designs_have_systems_or_refusals();
    systems_are_accepted();
    texts_have_designs_or_refusals();
}

/// A certificate that a text can say has a report in the names of each design.
pub fn reports_have_texts()
    ensures { ReportsHaveTexts }
{}

/// Such a certificate has a summary under each number.
pub fn summaries_have_texts()
    ensures { SummariesHaveTexts }
{}

/// Each system has a summary under each number.
pub fn systems_have_summaries()
    ensures { SystemsHaveSummaries }
{
    optima_exist();
}

/// `optimise`, `report` and `slack` have an answer on each system, or it has too many elements for `slack`.
pub fn optima_have_answers()
    ensures { OptimaHaveAnswers }
{
    optima_exist();
    slacks_exist();
}

/// `safe` has an answer on each system.
pub fn safe_optima_have_answers()
    ensures { SafeOptimaHaveAnswers }
{
    safe_optima_exist();
}

/// Four files give a system, or are refused.
pub fn files_have_timings()
    ensures { FilesHaveTimings }
{
    designs_have_systems_or_refusals();
    systems_are_accepted();
    files_have_designs_or_refusals();
    designs_are_sound();
}

/// A command of a job on one design is answered or refused, where its source has systems and its job has answers.
pub fn jobs_are_answered()
    ensures { JobsAreAnswered }
{}

/// Each job is answered or refused, where its source has systems.
pub fn sources_are_answered()
    ensures { SourcesAreAnswered }
{
    checks_have_answers();
    verifications_have_answers();
    optima_have_answers();
    safe_optima_have_answers();
}

/// Each sample is answered or refused, where files have systems.
pub fn samples_are_answered()
    ensures { SamplesAreAnswered }
{
    systems_have_summaries();
}

/// Each job of a table is answered or refused.
pub fn tables_are_answered()
    ensures { TablesAreAnswered }
{
    tables_have_timings();
    sources_are_answered();
}

/// `corners` is answered or refused, where files have systems.
pub fn corners_are_answered()
    ensures { CornersAreAnswered }
{
    corners_differ_in_numbers();
    joint_optima_exist();
}

/// The bytes of each command's files have a first refusal or a defined answer.
pub fn commands_are_answered()
    ensures { CommandsAreAnswered }
{
    tables_have_timings();
    files_have_timings();
    sources_are_answered();
    samples_are_answered();
    corners_are_answered();
}
