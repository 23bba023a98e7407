//! The optimum with its certificate.
ghost use Rattle.std.specs.Prelude.{◌≡◌, ◌≤◌, length, IfErr, IfOk, IfSome};
ghost use Rattle.mintc_text.specs.Stops.{StopsAt};
ghost use Rattle.mintc_timing.specs.Design.{Timing};
ghost use Rattle.mintc_timing.specs.Limits.{IsWithinLimits};
ghost use Rattle.mintc_command_answers.specs.Answers.{IsOfCommand};
ghost use Rattle.mintc_command_answers.specs.Commands.{roles_of, source_roles};
ghost use Rattle.mintc_command_answers.specs.Sources.{AreShort};
ghost use Rattle.mintcx_answers.specs.Answers.{HasCertificate, IsCertifiedAnswer};
ghost use Rattle.mintcx_answers.specs.Shown.{HasNoSystem, IsFirstRefusalFor, IsSystemFor};

use crate::jobs::certificate_status;
use crate::shown::system_for;
use mintc_certificate::write;
use mintc_command_answers::{Answer, Command, Job, Source, optimum, too_long};
use mintc_text::{Bytes, Limits, OutOfMemory, Stop};
use mintc_timing::{Flat, System};
use mintcx_frame::View;
use mintcx_optima::optimum_text;
use std::alloc::Global;

/// The answer to `optimise` in a text for people, and its certificate as a text that `verify` takes.
#[derive(Drop)]
pub struct Certified {
    pub answer: Answer,
    pub certificate: Bytes,
}

/// The text of the optimum, and its certificate.
fn certified_optimum(alloc: Global, system: &System, view: &View) -> Result<Certified, OutOfMemory>
    ensures { IfOk result (λ told. IsCertifiedAnswer system.now view.now told.answer.status told.answer.text
        told.certificate) }
{
    let certificate = optimum(alloc, system)?;
    let text = optimum_text(alloc, system, &certificate, view)?;
    let written = write(alloc, &certificate)?;
    let status = certificate_status(&certificate);
    Ok(Certified {
        answer: Answer { status, text },
        certificate: Bytes::new(written),
    })
}

/// The optimum of the design at hand, or of the texts of one, none of them too long, with its certificate, or their
/// first refusal.
fn certified_design(
    alloc: Global,
    limits: &Limits,
    source: Source,
    shown: Option<Flat>,
    view: &View,
    texts: &mut [Bytes],
) -> Result<Certified, Stop>
    requires all { length (source_roles source) ≤ length texts.old }
    requires short { AreShort limits.now texts.old }
    requires within { IfSome shown (IsWithinLimits limits.now) }
    ensures value { IfOk result (λ told. (t : Timing) × IsSystemFor limits.now shown source texts.old t
        × IsCertifiedAnswer t view.now told.answer.status told.answer.text told.certificate) }
    ensures stop { IfErr result (StopsAt (HasNoSystem limits.now shown source texts.old)) }
{
    let system = system_for(alloc, limits, source, shown, texts)?;
    Ok(certified_optimum(alloc, &system, view)?)
}

/// The answer to `optimise` in a text for people, of the first bytes of its files, shown in this view, with its
/// certificate; or their first refusal, which is mintc's. Where a design is at hand, it is the optimum of that. The
/// memory of files is given back once their design is read.
pub fn certified_text(
    alloc: Global,
    limits: &Limits,
    source: Source,
    shown: Option<Flat>,
    view: &View,
    files: &mut [Bytes],
) -> Result<Certified, Stop>
    requires count { length files.old ≡ length (roles_of (Command.OfDesign Job.Optimise source)) }
    requires within { IfSome shown (IsWithinLimits limits.now) }
    ensures value { IfOk result (λ told. HasCertificate limits.now shown source files.old view.now
        told.answer.status told.answer.text told.certificate) }
    ensures of_command { IfOk result (λ told. IsOfCommand told.answer.status) }
    ensures stop { IfErr result
        (StopsAt (IsFirstRefusalFor limits.now shown (Command.OfDesign Job.Optimise source) files.old)) }
{
    let command = Command::OfDesign {
        job: Job::Optimise,
        source,
    };
    if let Some(refusal) = too_long(limits, command.roles(), files) {
        return Err(Stop::Refused(refusal));
    }
    certified_design(alloc, limits, source, shown, view, files)
}
