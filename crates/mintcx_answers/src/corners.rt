//! The optimum of several corners.
ghost use Rattle.std.specs.Prelude.{◌≡◌, ◌≤◌, None, length, IfErr, IfOk};
ghost use Rattle.std.specs.List.{AllZip};
ghost use Rattle.mintc_text.specs.declared.limits.TheConstants.{MOST_ELEMENTS};
ghost use Rattle.mintc_corners.specs.CornerOptimum.{IsOptimumOf};
ghost use Rattle.mintc_corners.specs.Joint.{AreCorners};
ghost use Rattle.mintc_command_answers.specs.Answers.{IsFirstRefusal};
ghost use Rattle.mintc_command_answers.specs.Commands.{IsNumberInRange, roles_of};
ghost use Rattle.mintc_command_answers.specs.Corners.{IsFirstRefused, corner_status, corners_of, elements_together};
ghost use Rattle.mintc_command_answers.specs.Jobs.{IsOptimum};
ghost use Rattle.mintc_command_answers.specs.Sources.{AreShort};
ghost use Rattle.mintcx_joint.specs.Alone.{HasAlone};
ghost use Rattle.mintcx_answers.specs.Answers.{IsContentAnswer, IsCornersAnswer, IsTextOfCorners};
ghost use Rattle.mintcx_answers.specs.Halts.{HaltsAt};

use crate::answering::Question;
use crate::halts::Halt;
use mintc_certificate::Certificate;
use mintc_command_answers::{
    Answer, Command, CornerStop, Status, accepted_corners, certificate_from, optimum,
};
use mintc_corners::CornerCertificate;
use mintc_text::{Bytes, Limits, Name, OutOfMemory};
use mintc_timing::System;
use mintcx_csv::corners_csv;
use mintcx_frame::View;
use mintcx_joint::{Corners, corners_text};
use mintcx_json::corners_json;
use mintcx_translation::Aspect;
use std::alloc::Global;
use std::marker::Brand;
use std::sync::ledger::Blank;

/// The certificate of the optimum of each corner alone.
fn alone_of(alloc: Global, systems: &[System]) -> Result<Vec<Certificate>, OutOfMemory>
    ensures { IfOk result (λ alone. AllZip IsOptimum systems.now alone.items) }
{
    let mut alone = Vec::new(alloc);
    for system in systems {
        let certificate = optimum(alloc, system)?;
        alone.push(certificate)?;
    }
    Ok(alone)
}

/// How a run ends that has this certificate.
fn status_of(certificate: &CornerCertificate) -> Status
    ensures { result ≡ corner_status certificate.now }
{
    match certificate {
        CornerCertificate::Least { .. } => Status::Done,
        CornerCertificate::Never { .. } => Status::Found,
    }
}

/// The text of the optimum of all corners, its table or its object.
fn text_of_corners(
    alloc: Global,
    aspect: Aspect,
    corners: &Corners<'_>,
    certificate: &CornerCertificate,
    view: &View,
) -> Result<Bytes, OutOfMemory>
    requires some { 1 ≤ length corners.now.systems.now }
    requires few { length corners.now.systems.now ≤ 4 }
    requires alike { AreCorners corners.now.systems.now }
    requires optimum { IsOptimumOf corners.now.systems.now certificate.now }
    requires alone { HasAlone corners.now.systems.now corners.now.names.now corners.now.alone.now }
    ensures { IfOk result (IsTextOfCorners corners.now.systems.now aspect corners.now.names.now corners.now.alone.now
        certificate.now view.now) }
{
    match aspect {
        Aspect::Rows => corners_csv(alloc, corners.systems, certificate),
        Aspect::Object => corners_json(alloc, corners, certificate, view),
        Aspect::Whole
        | Aspect::Cycle(_)
        | Aspect::CycleRows(_)
        | Aspect::CycleObject(_)
        | Aspect::Histogram
        | Aspect::Schedule(_)
        | Aspect::Clocks
        | Aspect::Picture
        | Aspect::Table => corners_text(alloc, corners, certificate, view),
    }
}

/// The text of the optimum of all corners, with the names of their files of delays.
fn joint_answer(
    alloc: Global,
    aspect: Aspect,
    systems: &[System],
    names: &[Name],
    view: &View,
) -> Result<Answer, OutOfMemory>
    requires some { 2 ≤ length systems.now }
    requires few { length systems.now ≤ 4 }
    requires names { length names.now ≡ length systems.now }
    requires alike { AreCorners systems.now }
    requires elements { elements_together systems.now ≤ MOST_ELEMENTS }
    ensures { IfOk result
        (λ answer. IsCornersAnswer systems.now aspect names.now view.now answer.status answer.text) }
{
    let certificate = certificate_from::<Brand>(alloc, systems, Blank::new(1))?;
    let alone = alone_of(alloc, systems)?;
    let corners = Corners {
        systems,
        names,
        alone: alone.as_slice(),
    };
    let text = text_of_corners(alloc, aspect, &corners, &certificate, view)?;
    Ok(Answer {
        status: status_of(&certificate),
        text,
    })
}

/// The answer to a question about so many corners, of texts that aren't too long, or their first refusal.
pub(crate) fn corners_answer(
    alloc: Global,
    limits: &Limits,
    question: &Question<'_>,
    count: u32,
    view: &View,
    texts: &[Bytes],
) -> Result<Answer, Halt>
    requires count { length texts.now ≡ length (roles_of (Command.Corners count)) }
    requires in_range { IsNumberInRange (Command.Corners count) }
    requires names { length question.now.beside.now ≡ count }
    requires short { AreShort limits.now texts.now }
    ensures value { IfOk result
        (λ answer. IsContentAnswer limits.now None (Command.Corners count) question.now.aspect
        question.now.beside.now texts.now view.now answer.status answer.text) }
    ensures stop { IfErr result (HaltsAt (IsFirstRefusal limits.now (Command.Corners count) texts.now)
        (IsFirstRefused limits.now (corners_of texts.now) 1)) }
{
    let _most = limits.most();
    match accepted_corners(alloc, limits, count, texts) {
        Ok(systems) => Ok(joint_answer(
            alloc,
            question.aspect,
            systems.as_slice(),
            question.beside,
            view,
        )?),
        Err(CornerStop::Refused { corner, own }) => Err(Halt::Corner { corner, own }),
        Err(CornerStop::TooMany(refusal)) => Err(Halt::Refused(refusal)),
        Err(CornerStop::OutOfMemory) => Err(Halt::OutOfMemory),
    }
}
