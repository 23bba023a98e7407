//! Pictures, as SVG.
ghost use Rattle.std.specs.Prelude.{◌≡◌, ◌≤◌, ◌+◌, ◌*◌, ℕ, List, length, IfErr, IfOk, IfSome};
ghost use Rattle.mintc_text.specs.Stops.{StopsAt};
ghost use Rattle.mintc_text.specs.declared.limits.TheConstants.{MOST_SLACK};
ghost use Rattle.mintc_timing.specs.Design.{element_count, phase_count};
ghost use Rattle.mintc_timing.specs.Limits.{IsInRange, IsWithinLimits};
ghost use Rattle.mintc_certificate.specs.Ranges.{IsCertificateInRange};
ghost use Rattle.mintc_certificate.specs.Valid.{IsValid};
ghost use Rattle.mintc_checker.specs.Verdicts.{IsVerdict};
ghost use Rattle.mintc_slack.specs.Answers.{AreOfPairs};
ghost use Rattle.mintc_command_answers.specs.Commands.{roles_of};
ghost use Rattle.mintc_command_answers.specs.Jobs.{IsFileRefused};
ghost use Rattle.mintc_command_answers.specs.Sources.{AreShort};
ghost use Rattle.mintcx_optima.specs.Optimum.{IsOptimumText};
ghost use Rattle.mintcx_slacks.specs.Slacks.{IsSlackText};
ghost use Rattle.mintcx_draw.specs.Drawings.{IsDrawnOf};
ghost use Rattle.mintcx_fares.specs.Drawings.{IsFaresDrawn};
ghost use Rattle.mintcx_histogram.specs.Pictures.{IsSlackDrawn};
ghost use Rattle.mintcx_answers.specs.Answers.{IsToldVerdict, name_beside};
ghost use Rattle.mintcx_answers.specs.Pictures.{HasPicture, IsCertificateShown, IsDenied, IsOfFiles, IsOfMotif};
ghost use Rattle.mintcx_answers.specs.Pictures.{IsOptimumShown, IsScheduleShown, IsShowing, IsSlackShown};
ghost use Rattle.mintcx_answers.specs.Pictures.{command_of, job_of};
ghost use Rattle.mintcx_answers.specs.Shown.{IsFirstRefusalFor, IsJobRefusalFor};

use crate::shown::system_for;
use crate::verdicts::{Judged as Examination, name_beside, told_verdict};
use mintc_certificate::{Certificate, read};
use mintc_checker::{Verdict, examine};
use mintc_command_answers::{
    Command, Job, Source, optimum, own_file, room_for, schedule_of, slacks_from, too_long,
};
use mintc_constraints::Room;
use mintc_departure::{Settling, early, late, violations};
use mintc_slack::Slacks;
use mintc_text::limits::MOST_BYTES;
use mintc_text::{Bytes, Kind, Limits, Name, OutOfMemory, Refusal, Stop};
use mintc_timing::{Flat, Schedule, System};
use mintcx_draw::draw;
use mintcx_fares::fares_picture;
use mintcx_frame::View;
use mintcx_histogram::slack_picture;
use mintcx_judgements::Judged;
use mintcx_optima::optimum_text;
use mintcx_picture::Drawn;
use mintcx_slacks::slack_text;
use std::alloc::Global;
use std::marker::Brand;
use std::sync::ledger::Blank;

/// What a picture shows.
#[derive(Clone, Copy, Debug, PartialEq, Eq)]
pub enum Motif {
    /// The least cycle time, with the chain that decides it.
    Optimum,
    /// The same of a certificate, as `verify` takes it.
    Certificate,
    /// How a schedule fares, as `check` takes it.
    Schedule,
    /// The slacks of all pairs.
    Slacks,
}

impl Motif {
    /// What reads the text beside the design.
    pub fn job(self) -> Job
        ensures { result ≡ job_of self }
    {
        match self {
            Motif::Optimum => Job::Optimise,
            Motif::Certificate => Job::Verify,
            Motif::Schedule => Job::Check,
            Motif::Slacks => Job::Slack,
        }
    }
}

/// What is told where a picture is asked for.
#[derive(Drop)]
pub enum Pictured {
    /// A picture, or why none can be drawn.
    Shown(Drawn),
    /// There is no right schedule, or the certificate gives none: what is said of it, for people.
    Denied(Bytes),
}

/// What a picture is asked of: the source of a design, what is shown of it, and what the design is called beside a
/// certificate.
#[derive(Clone, Copy)]
pub struct Sketch<'a> {
    pub source: Source,
    pub motif: Motif,
    pub beside: &'a [Name],
}

/// Whether a design is a table.
fn is_table(source: Source) -> bool {
    matches!(source, Source::Table)
}

/// The picture of a certificate of a least cycle time.
fn least_shown(
    alloc: Global,
    system: &System,
    certificate: &Certificate,
    table: bool,
    view: &View,
) -> Result<Pictured, OutOfMemory>
    requires valid { IsValid system.now certificate.now }
    requires in_range { IsCertificateInRange certificate.now }
    ensures { IfOk result (IsShowing (IsDrawnOf system.now.flat certificate.now)) }
{
    let drawn = draw(alloc, system, certificate, table, view)?;
    Ok(Pictured::Shown(drawn))
}

/// What is said where no schedule is right.
fn never_denied(
    alloc: Global,
    system: &System,
    certificate: &Certificate,
    view: &View,
) -> Result<Pictured, OutOfMemory>
    requires valid { IsValid system.now certificate.now }
    requires in_range { IsCertificateInRange certificate.now }
    ensures { IfOk result (IsDenied (IsOptimumText system.now.flat certificate.now view.now)) }
{
    let text = optimum_text(alloc, system, certificate, view)?;
    Ok(Pictured::Denied(text))
}

/// The picture of an optimum, or what is said where no schedule is right.
fn optimum_shown(
    alloc: Global,
    system: &System,
    table: bool,
    view: &View,
) -> Result<Pictured, OutOfMemory>
    ensures { IfOk result (IsOptimumShown system.now view.now) }
{
    let certificate = optimum(alloc, system)?;
    match &certificate {
        Certificate::Least { .. } => least_shown(alloc, system, &certificate, table, view),
        Certificate::Never { .. } => never_denied(alloc, system, &certificate, view),
    }
}

/// A view of the same with another subject.
fn entitled(alloc: Global, subject: &[u8], view: &View) -> Result<View, OutOfMemory> {
    Ok(View {
        subject: Name::new(alloc, subject)?,
        unit: view.unit,
        limit: view.limit,
        apart: view.apart,
    })
}

/// The picture of a valid certificate of a least cycle time, under the name of the design.
fn certified_shown(
    alloc: Global,
    system: &System,
    certificate: &Certificate,
    sketch: &Sketch<'_>,
    view: &View,
) -> Result<Pictured, OutOfMemory>
    requires valid { IsValid system.now certificate.now }
    requires in_range { IsCertificateInRange certificate.now }
    ensures { IfOk result (IsShowing (IsDrawnOf system.now.flat certificate.now)) }
{
    let own = entitled(alloc, name_beside(sketch.beside), view)?;
    least_shown(alloc, system, certificate, is_table(sketch.source), &own)
}

/// The verdict on a certificate that isn't drawn.
fn verdict_denied(
    alloc: Global,
    examined: &Examination<'_>,
    view: &View,
) -> Result<Pictured, OutOfMemory>
    requires in_range { IsCertificateInRange examined.now.certificate.now }
    requires verdict { IsVerdict examined.now.system.now examined.now.certificate.now examined.now.verdict }
    ensures { IfOk result (IsDenied (IsToldVerdict examined.now.system.now examined.now.certificate.now
        examined.now.design.now view.now examined.now.verdict)) }
{
    let text = told_verdict(alloc, examined, view)?;
    Ok(Pictured::Denied(text))
}

/// The picture of a valid certificate of a least cycle time, or the verdict on another one.
fn certificate_shown(
    alloc: Global,
    system: &System,
    certificate: &Certificate,
    sketch: &Sketch<'_>,
    view: &View,
) -> Result<Pictured, OutOfMemory>
    requires in_range { IsCertificateInRange certificate.now }
    ensures { IfOk result (IsCertificateShown system.now certificate.now (name_beside sketch.now.beside.now) view.now) }
{
    let verdict = examine(alloc, system, certificate)?;
    let examined = Examination {
        system,
        certificate,
        verdict,
        design: name_beside(sketch.beside),
    };
    match (verdict, certificate) {
        (Verdict::Valid, Certificate::Least { .. }) => {
            certified_shown(alloc, system, certificate, sketch, view)
        }
        _ => verdict_denied(alloc, &examined, view),
    }
}

/// How much a schedule breaks.
fn violation_count(
    alloc: Global,
    system: &System,
    schedule: &Schedule,
    room: &mut Room,
) -> Result<usize, OutOfMemory>
    requires in_range { IsInRange schedule.now }
    requires phases { length schedule.now.starts ≡ phase_count system.now.flat }
    requires room { 1 + 2 * phase_count system.now.flat + element_count system.now.flat ≤ room.old.nodes }
    ensures { room.new.nodes ≡ room.old.nodes }
{
    let broken = violations(alloc, system, schedule, room)?;
    Ok(broken.len())
}

/// The picture of how a schedule fares with these departures.
fn fares_shown(
    alloc: Global,
    judged: &Judged<'_>,
    broken: usize,
    table: bool,
    view: &View,
) -> Result<Pictured, OutOfMemory>
    requires in_range { IsInRange judged.now.schedule.now }
    requires phases { length judged.now.schedule.now.starts ≡ phase_count judged.now.system.now.flat }
    ensures { IfOk result (IsShowing (IsFaresDrawn judged.now.system.now judged.now.schedule.now judged.now.late.now
        judged.now.early.now)) }
{
    let drawn = fares_picture(alloc, judged, broken, table, view)?;
    Ok(Pictured::Shown(drawn))
}

/// The picture of how a schedule fares.
fn schedule_shown(
    alloc: Global,
    system: &System,
    schedule: &Schedule,
    table: bool,
    view: &View,
) -> Result<Pictured, OutOfMemory>
    requires in_range { IsInRange schedule.now }
    requires phases { length schedule.now.starts ≡ phase_count system.now.flat }
    ensures { IfOk result (IsScheduleShown system.now schedule.now) }
{
    let mut room = room_for(alloc, system)?;
    let broken = violation_count(alloc, system, schedule, &mut room)?;
    match late(system, schedule, &mut room) {
        Settling::Settled => {
            early(system, schedule, &mut room);
            let judged = Judged {
                system,
                schedule,
                late: room.late(),
                early: room.early(),
            };
            fares_shown(alloc, &judged, broken, table, view)
        }
        Settling::Loop => Ok(Pictured::Shown(Drawn::Unsettled)),
    }
}

/// The picture of slacks.
fn slacks_drawn(
    alloc: Global,
    system: &System,
    slacks: &Slacks,
    view: &View,
) -> Result<Pictured, OutOfMemory>
    requires { AreOfPairs system.now slacks.now }
    ensures { IfOk result (IsShowing (IsSlackDrawn view.now slacks.now)) }
{
    let drawn = slack_picture(alloc, system, slacks, view)?;
    Ok(Pictured::Shown(drawn))
}

/// What is said of slacks where no schedule is right.
fn slacks_denied(
    alloc: Global,
    system: &System,
    slacks: &Slacks,
    view: &View,
) -> Result<Pictured, OutOfMemory>
    requires { AreOfPairs system.now slacks.now }
    ensures { IfOk result (IsDenied (IsSlackText system.now view.now slacks.now)) }
{
    let text = slack_text(alloc, system, slacks, view)?;
    Ok(Pictured::Denied(text))
}

/// The picture of the slacks of all pairs, or what is said where no schedule is right.
fn slacks_shown(alloc: Global, system: &System, view: &View) -> Result<Pictured, OutOfMemory>
    requires { element_count system.now.flat ≤ MOST_SLACK }
    ensures { IfOk result (IsSlackShown system.now view.now) }
{
    let slacks = slacks_from::<Brand>(alloc, system, Blank::new(1))?;
    match &slacks {
        Slacks::Least { .. } => slacks_drawn(alloc, system, &slacks, view),
        Slacks::Never => slacks_denied(alloc, system, &slacks, view),
    }
}

/// The same, or the limit of the elements for which slacks are found.
fn slacks_within(
    alloc: Global,
    limits: &Limits,
    system: &System,
    view: &View,
) -> Result<Pictured, Stop>
    ensures value { IfOk result (IsSlackShown system.now view.now) }
    ensures stop { (file : List ℕ) → IfErr result
        (StopsAt (IsFileRefused limits.now Job.Slack system.now.flat file)) }
{
    let elements = system.flat().elements().len();
    if elements > limits.most().slack {
        return Err(Stop::Refused(Refusal::Limit {
            kind: Kind::Elements,
            count: elements as u64,
        }));
    }
    Ok(slacks_shown(alloc, system, view)?)
}

/// A picture of a design and of the text beside it, or why that text is refused.
fn motif_shown(
    alloc: Global,
    limits: &Limits,
    sketch: &Sketch<'_>,
    system: &System,
    file: &[u8],
    view: &View,
) -> Result<Pictured, Stop>
    requires { length file.now ≤ MOST_BYTES }
    ensures value { IfOk result (IsOfMotif limits.now sketch.now.motif (name_beside sketch.now.beside.now) system.now
        file.now view.now) }
    ensures stop { IfErr result
        (StopsAt (IsFileRefused limits.now (job_of sketch.now.motif) system.now.flat file.now)) }
{
    match sketch.motif {
        Motif::Optimum => Ok(optimum_shown(alloc, system, is_table(sketch.source), view)?),
        Motif::Certificate => {
            let certificate = read(alloc, limits, file)?;
            Ok(certificate_shown(alloc, system, &certificate, sketch, view)?)
        }
        Motif::Schedule => {
            let schedule = schedule_of(file, system.flat().phase_count())?;
            let table = is_table(sketch.source);
            Ok(schedule_shown(alloc, system, &schedule, table, view)?)
        }
        Motif::Slacks => slacks_within(alloc, limits, system, view),
    }
}

/// The command that reads a design and the text beside it.
fn command_of(sketch: &Sketch<'_>) -> Command
    ensures { result ≡ command_of sketch.now.motif sketch.now.source }
{
    Command::OfDesign {
        job: sketch.motif.job(),
        source: sketch.source,
    }
}

/// A picture of the design at hand, or of that of texts, and of the text beside it, none of them too long, or their
/// first refusal.
fn design_shown(
    alloc: Global,
    limits: &Limits,
    sketch: &Sketch<'_>,
    shown: Option<Flat>,
    view: &View,
    texts: &mut [Bytes],
) -> Result<Pictured, Stop>
    requires count { length texts.old ≡ length (roles_of (command_of sketch.now.motif sketch.now.source)) }
    requires short { AreShort limits.now texts.old }
    requires within { IfSome shown (IsWithinLimits limits.now) }
    ensures value { IfOk result (IsOfFiles limits.now shown sketch.now.motif sketch.now.source
        (name_beside sketch.now.beside.now) view.now texts.old) }
    ensures stop { IfErr result
        (StopsAt (IsJobRefusalFor limits.now shown (job_of sketch.now.motif) sketch.now.source texts.old)) }
{
    let system = system_for(alloc, limits, sketch.source, shown, texts)?;
    let file = own_file(limits, sketch.source, texts);
    motif_shown(alloc, limits, sketch, &system, file, view)
}

/// A picture as SVG, of the first bytes of its files, or their first refusal, which is that of mintc's command for it.
/// Where a design is at hand, it is one of that. The memory of files is given back once their design is read.
pub fn picture_for(
    alloc: Global,
    limits: &Limits,
    sketch: &Sketch<'_>,
    shown: Option<Flat>,
    view: &View,
    files: &mut [Bytes],
) -> Result<Pictured, Stop>
    requires count { length files.old ≡ length (roles_of (command_of sketch.now.motif sketch.now.source)) }
    requires within { IfSome shown (IsWithinLimits limits.now) }
    ensures value { IfOk result (HasPicture limits.now shown sketch.now.motif sketch.now.source
        (name_beside sketch.now.beside.now) view.now files.old) }
    ensures stop { IfErr result
        (StopsAt (IsFirstRefusalFor limits.now shown (command_of sketch.now.motif sketch.now.source) files.old)) }
{
    let command = command_of(sketch);
    if let Some(refusal) = too_long(limits, command.roles(), files) {
        return Err(Stop::Refused(refusal));
    }
    design_shown(alloc, limits, sketch, shown, view, files)
}
