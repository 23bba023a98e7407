//! Verdicts on certificates.
ghost use Rattle.std.specs.Prelude.{◌≡◌, ◌≤◌, length, IfErr, IfOk};
ghost use Rattle.mintc_text.specs.Stops.{StopsAt};
ghost use Rattle.mintc_timing.specs.Design.{phase_count};
ghost use Rattle.mintc_timing.specs.Limits.{IsInRange};
ghost use Rattle.mintc_timing.specs.Violations.{AreViolations};
ghost use Rattle.mintc_certificate.specs.Ranges.{IsCertificateInRange};
ghost use Rattle.mintc_checker.specs.Verdicts.{IsVerdict};
ghost use Rattle.mintc_command_answers.specs.Jobs.{IsFileRefused, verdict_status};
ghost use Rattle.mintcx_judgements.specs.Named.{AreNamed};
ghost use Rattle.mintcx_answers.specs.Answers.{AreOfVerdict, IsJobAnswer, IsScheduleOrVerdict, IsToldVerdict};
ghost use Rattle.mintcx_answers.specs.Answers.{IsTextOfVerdict, IsVerdictAsObject, IsVerifyAnswer};
ghost use Rattle.mintcx_answers.specs.Answers.{certified_status, fails_rule, name_beside};

use crate::jobs::{Work, certificate_status};
use crate::schedules::own_text;
use mintc_certificate::{Certificate, read};
use mintc_checker::{Verdict, examine};
use mintc_command_answers::{Answer, Job, Status, room_for};
use mintc_departure::violations;
use mintc_text::limits::MOST_BYTES;
use mintc_text::{Bytes, Limits, Name, OutOfMemory, Stop};
use mintc_timing::{Schedule, System, Violation};
use mintcx_csv::verdict_csv;
use mintcx_frame::View;
use mintcx_json::verdict_json;
use mintcx_judgements::violations_are_named;
use mintcx_translation::Aspect;
use mintcx_verdicts::{Examined, verdict_text};
use std::alloc::Global;

/// Whether a rule of the clock or a bound fails: the second test or the third.
fn fails_rule(verdict: Verdict) -> bool
    ensures { result ≡ fails_rule verdict }
{
    match verdict {
        Verdict::Valid => false,
        Verdict::Invalid(test) => test == 2 || test == 3,
    }
}

/// What a schedule breaks.
fn schedule_violations(
    alloc: Global,
    system: &System,
    schedule: &Schedule,
) -> Result<Vec<Violation>, OutOfMemory>
    requires in_range { IsInRange schedule.now }
    requires phases { length schedule.now.starts ≡ phase_count system.now.flat }
    ensures found { IfOk result (λ found. AreViolations system.now schedule.now found.items) }
    ensures named { IfOk result (λ found. AreNamed system.now found.items) }
{
    violations_are_named();
    let mut room = room_for(alloc, system)?;
    let found = violations(alloc, system, schedule, &mut room)?;
    Ok(found)
}

/// The violations with which a verdict is told.
fn verdict_violations(
    alloc: Global,
    system: &System,
    certificate: &Certificate,
    verdict: Verdict,
) -> Result<Vec<Violation>, OutOfMemory>
    requires in_range { IsCertificateInRange certificate.now }
    requires verdict { IsVerdict system.now certificate.now verdict }
    ensures told { IfOk result (λ found. AreOfVerdict system.now certificate.now verdict found.items) }
    ensures named { IfOk result (λ found. AreNamed system.now found.items) }
{
    match certificate {
        Certificate::Least { schedule, .. } => {
            if fails_rule(verdict) {
                schedule_violations(alloc, system, schedule)
            } else {
                Ok(Vec::new(alloc))
            }
        }
        Certificate::Never { .. } => Ok(Vec::new(alloc)),
    }
}

/// A certificate of a system with its verdict, and what the design is called.
#[derive(Clone, Copy)]
pub(crate) struct Judged<'a> {
    pub(crate) system: &'a System,
    pub(crate) certificate: &'a Certificate,
    pub(crate) verdict: Verdict,
    pub(crate) design: &'a [u8],
}

/// The text of a verdict.
pub(crate) fn told_verdict(
    alloc: Global,
    judged: &Judged<'_>,
    view: &View,
) -> Result<Bytes, OutOfMemory>
    requires in_range { IsCertificateInRange judged.now.certificate.now }
    requires verdict { IsVerdict judged.now.system.now judged.now.certificate.now judged.now.verdict }
    ensures { IfOk result (IsToldVerdict judged.now.system.now judged.now.certificate.now judged.now.design.now view.now
        judged.now.verdict) }
{
    let found = verdict_violations(alloc, judged.system, judged.certificate, judged.verdict)?;
    let examined = Examined {
        system: judged.system,
        certificate: judged.certificate,
        verdict: judged.verdict,
        violations: found.as_slice(),
        design: judged.design,
    };
    verdict_text(alloc, &examined, view)
}

/// The object of a verdict.
fn verdict_object(alloc: Global, judged: &Judged<'_>, view: &View) -> Result<Bytes, OutOfMemory>
    requires in_range { IsCertificateInRange judged.now.certificate.now }
    requires verdict { IsVerdict judged.now.system.now judged.now.certificate.now judged.now.verdict }
    ensures { IfOk result (IsVerdictAsObject judged.now.system.now judged.now.certificate.now judged.now.design.now
        view.now judged.now.verdict) }
{
    let found = verdict_violations(alloc, judged.system, judged.certificate, judged.verdict)?;
    let examined = Examined {
        system: judged.system,
        certificate: judged.certificate,
        verdict: judged.verdict,
        violations: found.as_slice(),
        design: judged.design,
    };
    verdict_json(alloc, &examined, view)
}

/// The text of a verdict, its table or its object.
fn text_of_verdict(
    alloc: Global,
    aspect: Aspect,
    judged: &Judged<'_>,
    view: &View,
) -> Result<Bytes, OutOfMemory>
    requires in_range { IsCertificateInRange judged.now.certificate.now }
    requires verdict { IsVerdict judged.now.system.now judged.now.certificate.now judged.now.verdict }
    ensures { IfOk result (IsTextOfVerdict judged.now.system.now aspect judged.now.certificate.now
        judged.now.design.now view.now judged.now.verdict) }
{
    match aspect {
        Aspect::Rows => verdict_csv(alloc, judged.verdict),
        Aspect::Object => verdict_object(alloc, judged, view),
        Aspect::Whole
        | Aspect::Cycle(_)
        | Aspect::CycleRows(_)
        | Aspect::CycleObject(_)
        | Aspect::Histogram
        | Aspect::Schedule(_)
        | Aspect::Clocks
        | Aspect::Picture
        | Aspect::Table => told_verdict(alloc, judged, view),
    }
}

/// The schedule of a certificate that is valid and has one, or else the text of the verdict.
fn schedule_or_verdict(
    alloc: Global,
    judged: &Judged<'_>,
    view: &View,
) -> Result<Bytes, OutOfMemory>
    requires in_range { IsCertificateInRange judged.now.certificate.now }
    requires verdict { IsVerdict judged.now.system.now judged.now.certificate.now judged.now.verdict }
    ensures { IfOk result (IsScheduleOrVerdict judged.now.system.now judged.now.certificate.now judged.now.design.now
        view.now judged.now.verdict) }
{
    match judged.certificate {
        Certificate::Least { schedule, .. } => match judged.verdict {
            Verdict::Valid => own_text(alloc, schedule),
            Verdict::Invalid(_) => told_verdict(alloc, judged, view),
        },
        Certificate::Never { .. } => told_verdict(alloc, judged, view),
    }
}

/// How a run ends that has this verdict.
fn verdict_status(verdict: Verdict) -> Status
    ensures { result ≡ verdict_status verdict }
{
    match verdict {
        Verdict::Valid => Status::Done,
        Verdict::Invalid(_) => Status::Found,
    }
}

/// How a run ends that tells the schedule of a certificate with this verdict.
fn certified_status(verdict: Verdict, certificate: &Certificate) -> Status
    ensures { result ≡ certified_status verdict certificate.now }
{
    match verdict {
        Verdict::Valid => certificate_status(certificate),
        Verdict::Invalid(_) => Status::Found,
    }
}

/// The text of a verdict, or the schedule of its certificate.
fn judged_answer(
    alloc: Global,
    aspect: Aspect,
    judged: &Judged<'_>,
    view: &View,
) -> Result<Answer, OutOfMemory>
    requires in_range { IsCertificateInRange judged.now.certificate.now }
    requires verdict { IsVerdict judged.now.system.now judged.now.certificate.now judged.now.verdict }
    ensures { IfOk result (λ answer. IsVerifyAnswer judged.now.system.now aspect judged.now.certificate.now
        judged.now.design.now view.now answer.status answer.text) }
{
    match aspect {
        Aspect::Schedule(_) => {
            let text = schedule_or_verdict(alloc, judged, view)?;
            Ok(Answer {
                status: certified_status(judged.verdict, judged.certificate),
                text,
            })
        }
        Aspect::Whole
        | Aspect::Cycle(_)
        | Aspect::Histogram
        | Aspect::Rows
        | Aspect::CycleRows(_)
        | Aspect::Object
        | Aspect::CycleObject(_)
        | Aspect::Clocks
        | Aspect::Picture
        | Aspect::Table => {
            let text = text_of_verdict(alloc, aspect, judged, view)?;
            Ok(Answer {
                status: verdict_status(judged.verdict),
                text,
            })
        }
    }
}

/// The text of the verdict on a certificate, or its schedule.
fn examined_answer(
    alloc: Global,
    aspect: Aspect,
    system: &System,
    certificate: &Certificate,
    design: &[u8],
    view: &View,
) -> Result<Answer, OutOfMemory>
    requires in_range { IsCertificateInRange certificate.now }
    ensures { IfOk result (λ answer. IsVerifyAnswer system.now aspect certificate.now design.now view.now answer.status
        answer.text) }
{
    let verdict = examine(alloc, system, certificate)?;
    let judged = Judged {
        system,
        certificate,
        verdict,
        design,
    };
    judged_answer(alloc, aspect, &judged, view)
}

/// What the design is called beside a certificate.
pub(crate) fn name_beside(beside: &[Name]) -> &[u8]
    ensures { result.now ≡ name_beside beside.now }
{
    if beside.is_empty() {
        &[]
    } else {
        beside[0].bytes()
    }
}

/// The verdict on the certificate of a text, or its schedule, or why the text is refused.
pub(crate) fn verify_answer(
    alloc: Global,
    limits: &Limits,
    work: &Work<'_, '_>,
    system: &System,
    file: &[u8],
    view: &View,
) -> Result<Answer, Stop>
    requires { length file.now ≤ MOST_BYTES }
    ensures value { IfOk result
        (λ answer. IsJobAnswer limits.now Job.Verify work.now.aspect work.now.beside.now system.now file.now view.now
        answer.status answer.text) }
    ensures stop { IfErr result (StopsAt (IsFileRefused limits.now Job.Verify system.now.flat file.now)) }
{
    let certificate = read(alloc, limits, file)?;
    let design = name_beside(work.beside);
    let answer = examined_answer(alloc, work.aspect, system, &certificate, design, view)?;
    Ok(answer)
}
