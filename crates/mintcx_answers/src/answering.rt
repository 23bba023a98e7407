//! The answer to a command in a text for people, from the bytes of its files.
ghost use Rattle.std.specs.Prelude.{◌≡◌, length, IfOk, IfErr, IfSome};
ghost use Rattle.mintc_text.specs.Stops.{StopsAt};
ghost use Rattle.mintc_timing.specs.Limits.{IsWithinLimits};
ghost use Rattle.mintc_command_answers.specs.Answers.{IsOfCommand};
ghost use Rattle.mintc_command_answers.specs.Commands.{IsNumberInRange, roles_of};
ghost use Rattle.mintc_command_answers.specs.Corners.{IsFirstRefused, corners_of};
ghost use Rattle.mintc_command_answers.specs.Sources.{AreShort};
ghost use Rattle.mintcx_answers.specs.Halts.{HaltsAt};
ghost use Rattle.mintcx_answers.specs.Answers.{AreNamed, HasAnswer, IsContentAnswer, IsOnFiles};
ghost use Rattle.mintcx_answers.specs.Shown.{IsFirstRefusalFor, IsJobRefusalFor};

use crate::corners::corners_answer;
use crate::halts::Halt;
use crate::jobs::{Work, job_text};
use crate::reports::netlist_for;
use crate::shown::system_for;
use mintc_command_answers::{Answer, Command, own_file, too_long};
use mintc_text::{Bytes, Limits, Name, Stop};
use mintc_timing::Flat;
use mintcx_frame::View;
use mintcx_translation::Aspect;
use std::alloc::Global;

/// What is asked in a text for people: a command, what of it is told, and what stands beside the subject, as it is
/// called: of `verify` the design, and of `corners` the files of delays, in their order.
#[derive(Clone, Copy)]
pub struct Question<'a> {
    pub command: Command,
    pub aspect: Aspect,
    pub beside: &'a [Name],
}

/// The answer to a job on the design at hand, or on the texts of one, and on the file beside them, none of them too
/// long, or their first refusal.
fn design_text(
    alloc: Global,
    limits: &Limits,
    work: &Work<'_, '_>,
    shown: Option<Flat>,
    view: &View,
    texts: &mut [Bytes],
) -> Result<Answer, Stop>
    requires count { length texts.old ≡ length (roles_of (Command.OfDesign work.now.job work.now.source)) }
    requires short { AreShort limits.now texts.old }
    requires within { IfSome shown (IsWithinLimits limits.now) }
    ensures value { IfOk result
        (λ answer. IsContentAnswer limits.now shown (Command.OfDesign work.now.job work.now.source) work.now.aspect
        work.now.beside.now texts.old view.now answer.status answer.text) }
    ensures stop { IfErr result
        (StopsAt (IsJobRefusalFor limits.now shown work.now.job work.now.source texts.old)) }
{
    let system = system_for(alloc, limits, work.source, shown, texts)?;
    let file = own_file(limits, work.source, texts);
    job_text(alloc, limits, work, &system, file, view)
}

/// The answer to a question in a text for people, of the first bytes of the files of its command, shown in this view,
/// or their first refusal, which is mintc's, and of a corner that of its own files. Where a design is at hand, a
/// command of one design is answered of it. The memory of files is given back once their design is read.
pub fn answer_text(
    alloc: Global,
    limits: &Limits,
    question: &Question<'_>,
    shown: Option<Flat>,
    view: &View,
    files: &mut [Bytes],
) -> Result<Answer, Halt>
    requires count { length files.old ≡ length (roles_of question.now.command) }
    requires in_range { IsNumberInRange question.now.command }
    requires on_files { IsOnFiles question.now.command }
    requires names { AreNamed question.now.command question.now.beside.now }
    requires within { IfSome shown (IsWithinLimits limits.now) }
    ensures value { IfOk result
        (λ answer. HasAnswer limits.now shown question.now.command question.now.aspect question.now.beside.now
        files.old view.now answer.status answer.text) }
    ensures of_command { IfOk result (λ answer. IsOfCommand answer.status) }
    ensures stop { IfErr result (HaltsAt (IsFirstRefusalFor limits.now shown question.now.command files.old)
        (IsFirstRefused limits.now (corners_of files.old) 1)) }
{
    if let Some(refusal) = too_long(limits, question.command.roles(), files) {
        return Err(Halt::Refused(refusal));
    }
    match question.command {
        Command::OfDesign { job, source } => {
            let read = netlist_for(alloc, job, source, files)?;
            let netlist = read.as_ref();
            let work = Work {
                job,
                source,
                aspect: question.aspect,
                beside: question.beside,
                netlist,
            };
            Ok(design_text(alloc, limits, &work, shown, view, files)?)
        }
        Command::Corners { count } => corners_answer(alloc, limits, question, count, view, files),
        Command::Sample { .. } => unreachable!(),
    }
}
