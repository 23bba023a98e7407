//! The answer to a command, from the bytes of its files.
ghost use Rattle.std.specs.Prelude.{◌≡◌, ◌≤◌, length, IfOk, IfErr};
ghost use Rattle.mintc_text.specs.Stops.{StopsAt};
ghost use Rattle.mintc_command_answers.specs.Answers.{IsAnswerOn, IsContentAnswer, IsContentRefusal, IsDefined};
ghost use Rattle.mintc_command_answers.specs.Answers.{IsOfCommand};
ghost use Rattle.mintc_command_answers.specs.Commands.{IsNumberInRange, roles_of};
ghost use Rattle.mintc_command_answers.specs.Contents.{content_roles, sample_texts};
ghost use Rattle.mintc_command_answers.specs.Jobs.{IsFileRefused, IsJobAnswer};
ghost use Rattle.mintc_command_answers.specs.Sources.{AreShort};

use crate::answer::Answer;
use crate::check_answers::check_answer;
use crate::command::{Command, Job, Source};
use crate::corners_answers::corners_answer;
use crate::optimise_answers::{optimise_answer, report_answer, summary_answer};
use crate::refusal_answers::refusal_answer;
use crate::safe_answers::safe_answer;
use crate::slack_answers::slack_answer;
use crate::source::{Ordered, ordered_of, own_file, system_of, too_long};
use crate::verify_answers::verify_answer;
use mintc_sample::files;
use mintc_text::limits::MOST_BYTES;
use mintc_text::{Bytes, Limits, OutOfMemory, Stop};
use mintc_timing::System;
use std::alloc::Global;

/// The answer to a job on a system and on the file that stands beside the design's, or why that file is refused.
fn job_answer(
    alloc: Global,
    limits: &Limits,
    job: Job,
    system: &System,
    file: &[u8],
) -> Result<Answer, Stop>
    requires { length file.now ≤ MOST_BYTES }
    ensures value { IfOk result (λ answer. IsJobAnswer limits.now job system.now file.now answer.status answer.text) }
    ensures stop { IfErr result (StopsAt (IsFileRefused limits.now job system.now.flat file.now)) }
{
    let answer = match job {
        Job::Check => return check_answer(alloc, limits, system, file),
        Job::Verify => return verify_answer(alloc, limits, system.flat(), system.order(), file),
        Job::Optimise => optimise_answer(alloc, system),
        Job::Report => report_answer(alloc, system),
        Job::Safe => safe_answer(alloc, system),
        Job::Slack => return slack_answer(alloc, limits, system),
    };
    Ok(answer?)
}

/// The verdict on a certificate, from the texts of a design and of the certificate, none of them too long, or their
/// first refusal.
fn verdict_answer(
    alloc: Global,
    limits: &Limits,
    source: Source,
    texts: &mut [Bytes],
) -> Result<Answer, Stop>
    requires count { length texts.old ≡ length (content_roles (Command.OfDesign Job.Verify source)) }
    requires short { AreShort limits.now texts.old }
    ensures value { IfOk result
        (λ answer. IsContentAnswer limits.now (Command.OfDesign Job.Verify source) texts.old answer.status
        answer.text) }
    ensures stop { IfErr result (StopsAt (IsContentRefusal limits.now (Command.OfDesign Job.Verify source) texts.old)) }
{
    let Ordered { flat, order } = ordered_of(alloc, limits, source, texts)?;
    verify_answer(
        alloc,
        limits,
        &flat,
        &order,
        own_file(limits, source, texts),
    )
}

/// The answer to a job on the texts of a design and of the file beside them, none of them too long, or their first
/// refusal.
fn design_answer(
    alloc: Global,
    limits: &Limits,
    job: Job,
    source: Source,
    texts: &mut [Bytes],
) -> Result<Answer, Stop>
    requires count { length texts.old ≡ length (content_roles (Command.OfDesign job source)) }
    requires short { AreShort limits.now texts.old }
    ensures value { IfOk result
        (λ answer. IsContentAnswer limits.now (Command.OfDesign job source) texts.old answer.status answer.text) }
    ensures stop { IfErr result (StopsAt (IsContentRefusal limits.now (Command.OfDesign job source) texts.old)) }
{
    if let Job::Verify = job {
        return verdict_answer(alloc, limits, source, texts);
    }
    let system = system_of(alloc, limits, source, texts)?;
    job_answer(alloc, limits, job, &system, own_file(limits, source, texts))
}

/// The summary of a sample from its texts, none of them too long, or their first refusal.
fn sample_answer(
    alloc: Global,
    limits: &Limits,
    number: u64,
    texts: &mut [Bytes],
) -> Result<Answer, Stop>
    requires count { length texts.old ≡ length (content_roles (Command.Sample number)) }
    requires short { AreShort limits.now texts.old }
    ensures value { IfOk result
        (λ answer. IsContentAnswer limits.now (Command.Sample number) texts.old answer.status answer.text) }
    ensures stop { IfErr result (StopsAt (IsContentRefusal limits.now (Command.Sample number) texts.old)) }
{
    let system = system_of(alloc, limits, Source::Files, texts)?;
    Ok(summary_answer(alloc, number, &system)?)
}

/// The answer to a command on the texts that it works on: the text of their first refusal, or what is answered
/// where nothing is refused.
fn answer_on(
    alloc: Global,
    limits: &Limits,
    command: Command,
    texts: &mut [Bytes],
) -> Result<Answer, OutOfMemory>
    requires count { length texts.old ≡ length (content_roles command) }
    requires in_range { IsNumberInRange command }
    ensures value { IfOk result (λ answer. IsAnswerOn limits.now command texts.old answer.status answer.text) }
    ensures status { IfOk result (λ answer. IsOfCommand answer.status) }
{
    if let Some(refusal) = too_long(limits, command.content_roles(), texts) {
        return refusal_answer(alloc, &refusal);
    }
    let answer = match command {
        Command::OfDesign { job, source } => design_answer(alloc, limits, job, source, texts),
        Command::Sample { number } => sample_answer(alloc, limits, number, texts),
        Command::Corners { count } => return corners_answer(alloc, limits, count, texts),
    };
    match answer {
        Ok(answer) => Ok(answer),
        Err(Stop::Refused(refusal)) => refusal_answer(alloc, &refusal),
        Err(Stop::OutOfMemory) => Err(OutOfMemory),
    }
}

/// The texts of the sample of a number, in the order of the files that they stand for.
fn sample_texts(alloc: Global, number: u64) -> Result<[Bytes; 4], OutOfMemory>
    ensures { IfOk result (λ texts. texts ≡ sample_texts number) }
{
    let sample = files(alloc, number)?;
    Ok([sample.netlist, sample.delays, sample.cells, sample.clock])
}

/// The answer to a command, of the bytes of its files.
pub fn answer_to(
    alloc: Global,
    limits: &Limits,
    command: Command,
    files: &mut [Bytes],
) -> Result<Answer, OutOfMemory>
    requires count { length files.old ≡ length (roles_of command) }
    requires in_range { IsNumberInRange command }
    ensures defined { IfOk result (λ answer. IsDefined limits.now command files.old answer.status answer.text) }
    ensures status { IfOk result (λ answer. IsOfCommand answer.status) }
{
    match command {
        Command::OfDesign { .. } | Command::Corners { .. } => answer_on(
            alloc, limits, command, files,
        ),
        Command::Sample { number } => {
            let mut texts = sample_texts(alloc, number)?;
            answer_on(
                alloc,
                limits,
                Command::Sample { number },
                texts.as_mut_slice(),
            )
        }
    }
}
