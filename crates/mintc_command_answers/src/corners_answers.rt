//! The answer of `corners`: the least cycle time of one schedule for several delay files.
ghost use Rattle.std.specs.Prelude.{◌≡◌, ◌≤◌, ◌<◌, length, map, MatchOption, IfOk, IfErr};
ghost use Rattle.mintc_text.specs.Stops.{StopsAt};
ghost use Rattle.mintc_text.specs.declared.limits.TheConstants.{MOST_ELEMENTS};
ghost use Rattle.mintc_corners.specs.CornerOptimum.{IsOptimumOf};
ghost use Rattle.mintc_corners.specs.Joint.{AreCorners};
ghost use Rattle.mintc_command_answers.specs.Answers.{IsAnswerOn, IsOfCommand};
ghost use Rattle.mintc_command_answers.specs.Commands.{IsNumberInRange};
ghost use Rattle.mintc_command_answers.specs.Contents.{content_roles};
ghost use Rattle.mintc_command_answers.specs.Corners.{AreGiven, AreTooMany, HaveStopped, IsCornersAnswer, IsCornerStop};
ghost use Rattle.mintc_command_answers.specs.Corners.{corner_status, corners_of, elements_together, files_with};
ghost use Rattle.mintc_command_answers.specs.Sources.{AreShort, Gives, IsSourceRefused};

use crate::answer::Answer;
use crate::command::{Command, Source};
use crate::refusal_answers::{refusal_answer, refused_corner};
use crate::source::{accepted_system, file_at};
use crate::status::Status;
use mintc_build::{corners_differ_in_numbers, from_files};
use mintc_corners::{CornerCertificate, corners, corners_text};
use mintc_graph_walks::Steps;
use mintc_text::{Bytes, Kind, Limits, OutOfMemory, Refusal, Stop};
use mintc_timing::System;
use std::alloc::Global;
use std::marker::Brand;
use std::sync::ledger::{Blank, Ledger};

/// Why corners have no systems.
#[derive(Drop)]
pub enum CornerStop {
    /// The files of this corner, counted from 1, are the first that are refused, and so they are.
    Refused { corner: u32, own: Refusal },
    /// The corners have more elements together than the run takes, and this says so.
    TooMany(Refusal),
    OutOfMemory,
}

/// The system of the corner of these delays. The texts are those of the netlist, the cells and the clock, and then any.
fn corner_system(
    alloc: Global,
    limits: &Limits,
    texts: &[Bytes],
    delays: &Bytes,
) -> Result<System, Stop>
    requires all { 3 ≤ length texts.now }
    requires short { AreShort limits.now texts.now }
    requires delays { length delays.now ≤ limits.now.bytes }
    ensures value { IfOk result (Gives limits.now Source.Files (files_with texts.now delays.now)) }
    ensures stop { IfErr result (StopsAt (IsSourceRefused limits.now Source.Files (files_with texts.now delays.now))) }
{
    let flat = from_files(
        alloc,
        limits,
        file_at(limits, texts, 0),
        delays.items(),
        file_at(limits, texts, 1),
        file_at(limits, texts, 2),
    )?;
    accepted_system(alloc, limits, flat)
}

/// The systems of the corners of these delays, in order.
fn corner_systems(
    alloc: Global,
    limits: &Limits,
    texts: &[Bytes],
    delays: &[Bytes],
) -> Result<Vec<System>, CornerStop>
    requires all { 3 ≤ length texts.now }
    requires short { AreShort limits.now texts.now }
    requires few { length delays.now ≤ 4 }
    requires delays { AreShort limits.now delays.now }
    ensures value { IfOk result (λ systems. AreGiven limits.now (map (files_with texts.now) delays.now) systems.items) }
    ensures stop { IfErr result (IsCornerStop limits.now (map (files_with texts.now) delays.now) 1) }
{
    let mut systems = Vec::new(alloc);
    for corner in delays {
        match corner_system(alloc, limits, texts, corner) {
            Ok(system) => {
                let Ok(()) = systems.push(system) else {
                    return Err(CornerStop::OutOfMemory);
                };
            }
            Err(Stop::Refused(own)) => {
                return Err(CornerStop::Refused {
                    corner: systems.len() as u32 + 1,
                    own,
                });
            }
            Err(Stop::OutOfMemory) => return Err(CornerStop::OutOfMemory),
        }
    }
    Ok(systems)
}

/// The limit of elements, where those of all corners pass it.
fn too_many(limits: &Limits, systems: &[System]) -> Option<Refusal>
    requires some { 1 ≤ length systems.now }
    requires few { length systems.now ≤ 4 }
    ensures too_many { MatchOption result (elements_together systems.now ≤ limits.now.elements)
        (AreTooMany limits.now systems.now) }
    ensures limit { limits.now.elements ≤ MOST_ELEMENTS }
{
    let elements = systems.len() * systems[0].flat().elements().len();
    if elements > limits.most().elements {
        Some(Refusal::Limit {
            kind: Kind::Elements,
            count: elements as u64,
        })
    } else {
        None
    }
}

/// The systems of the corners of texts that aren't too long, which differ in numbers alone, or why there are none.
pub fn accepted_corners(
    alloc: Global,
    limits: &Limits,
    count: u32,
    texts: &[Bytes],
) -> Result<Vec<System>, CornerStop>
    requires count { length texts.now ≡ length (content_roles (Command.Corners count)) }
    requires in_range { IsNumberInRange (Command.Corners count) }
    requires short { AreShort limits.now texts.now }
    ensures given { IfOk result (λ systems. AreGiven limits.now (corners_of texts.now) systems.items) }
    ensures within { IfOk result (λ systems. elements_together systems.items ≤ limits.now.elements) }
    ensures few { IfOk result (λ systems. elements_together systems.items ≤ MOST_ELEMENTS) }
    ensures count { IfOk result (λ systems. length systems.items ≡ count) }
    ensures alike { IfOk result (λ systems. AreCorners systems.items) }
    ensures stop { IfErr result (HaveStopped limits.now texts.now) }
{
    let systems = corner_systems(alloc, limits, texts, &texts[3..])?;
    if let Some(refusal) = too_many(limits, systems.as_slice()) {
        return Err(CornerStop::TooMany(refusal));
    }
    corners_differ_in_numbers();
    Ok(systems)
}

/// The certificate of the optimum of all corners, with the steps of its search counted from a blank.
pub fn certificate_from<L: Ledger>(
    alloc: Global,
    systems: &[System],
    blank: Blank,
) -> Result<CornerCertificate, OutOfMemory>
    requires name { blank.name ≡ L.name }
    requires parts { blank.parts ≡ L.parts }
    requires part { 0 < L.parts }
    requires some { 2 ≤ length systems.now }
    requires few { length systems.now ≤ 4 }
    requires alike { AreCorners systems.now }
    requires elements { elements_together systems.now ≤ MOST_ELEMENTS }
    ensures { IfOk result (IsOptimumOf systems.now) }
{
    let mut steps = Steps::<L>::open(blank);
    corners(alloc, systems, &mut steps)
}

/// How a run ends that has this certificate.
fn status_of(certificate: &CornerCertificate) -> Status
    ensures { result ≡ corner_status certificate.now }
{
    match certificate {
        CornerCertificate::Least { .. } => Status::Done,
        CornerCertificate::Never { .. } => Status::Found,
    }
}

/// The text of the optimum of all corners.
fn optimum_of(alloc: Global, systems: &[System]) -> Result<Answer, OutOfMemory>
    requires some { 2 ≤ length systems.now }
    requires few { length systems.now ≤ 4 }
    requires alike { AreCorners systems.now }
    requires elements { elements_together systems.now ≤ MOST_ELEMENTS }
    ensures { IfOk result (λ answer. IsCornersAnswer systems.now answer.status answer.text) }
{
    let certificate = certificate_from::<Brand>(alloc, systems, Blank::new(1))?;
    let text = corners_text(alloc, &certificate)?;
    Ok(Answer::new(status_of(&certificate), text))
}

/// The answer of `corners` on texts that aren't too long: the text of their first refusal, or of the optimum of all
/// corners.
pub(crate) fn corners_answer(
    alloc: Global,
    limits: &Limits,
    count: u32,
    texts: &[Bytes],
) -> Result<Answer, OutOfMemory>
    requires count { length texts.now ≡ length (content_roles (Command.Corners count)) }
    requires in_range { IsNumberInRange (Command.Corners count) }
    requires short { AreShort limits.now texts.now }
    ensures value { IfOk result (λ answer. IsAnswerOn limits.now (Command.Corners count) texts.now answer.status
        answer.text) }
    ensures status { IfOk result (λ answer. IsOfCommand answer.status) }
{
    match accepted_corners(alloc, limits, count, texts) {
        Ok(systems) => optimum_of(alloc, systems.as_slice()),
        Err(CornerStop::Refused { corner, own }) => refused_corner(alloc, corner, &own),
        Err(CornerStop::TooMany(refusal)) => refusal_answer(alloc, &refusal),
        Err(CornerStop::OutOfMemory) => Err(OutOfMemory),
    }
}
