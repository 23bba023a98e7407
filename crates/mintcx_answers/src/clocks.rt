//! The clocks of a schedule as SDC.
ghost use Rattle.std.specs.Prelude.{◌≡◌, ◌≤◌, None, true, false, length, IfErr, IfOk, IfSome, MatchOption};
ghost use Rattle.mintc_text.specs.Stops.{StopsAt};
ghost use Rattle.mintc_timing.specs.Design.{phase_count};
ghost use Rattle.mintc_timing.specs.Limits.{IsInRange, IsWithinLimits};
ghost use Rattle.mintc_certificate.specs.Ranges.{IsCertificateInRange};
ghost use Rattle.mintc_checker.specs.Verdicts.{IsVerdict};
ghost use Rattle.mintc_clock.specs.Laws.{KeepsLimits};
ghost use Rattle.mintc_command_answers.specs.Commands.{roles_of, source_roles};
ghost use Rattle.mintc_command_answers.specs.Jobs.{IsFileRefused};
ghost use Rattle.mintc_command_answers.specs.Sources.{AreShort};
ghost use Rattle.mintcx_answers.specs.Answers.{IsToldVerdict};
ghost use Rattle.mintcx_answers.specs.Clocks.{AreHolds, HasClocks, IsBeyond, IsChosen, IsClockIn, IsDenied};
ghost use Rattle.mintcx_answers.specs.Clocks.{IsOfCertificate, IsOfFiles, IsOfLeast, IsOfSchedule, IsOfText};
ghost use Rattle.mintcx_answers.specs.Clocks.{IsRaised, IsRoundedUp, IsSaid, command_of, is_hold, job_of, of_phases};
ghost use Rattle.mintcx_answers.specs.Shown.{IsFirstRefusalFor, IsJobRefusalFor};

use crate::jobs::{cycle_of, failed};
use crate::shown::system_for;
use crate::verdicts::{Judged, told_verdict};
use mintc_certificate::{Certificate, read};
use mintc_checker::{Verdict, examine};
use mintc_clock::{
    Clock, clocks_are_determined, clocks_are_not_refused, clocks_keep_limits, read_clock,
};
use mintc_command_answers::{Command, Job, Source, own_file, room_for, schedule_of, too_long};
use mintc_departure::violations;
use mintc_text::limits::MOST_BYTES;
use mintc_text::{Bytes, Limits, OutOfMemory, Stop};
use mintc_timing::{Broken, Flat, Schedule, System, Violation};
use mintcx_cycles::{AtCycle, at_cycle_uncounted};
use mintcx_frame::View;
use mintcx_sdc::{Obstacle, Titles, clock_by_names, obstacle_of, sdc_text};
use std::alloc::Global;

/// What a schedule stands in.
#[derive(Clone, Copy, Debug, PartialEq, Eq)]
pub enum Stated {
    /// A text of its own, as `check` takes it.
    Schedule,
    /// A certificate, as `verify` takes it.
    Certificate,
}

/// What is told of the clocks of a schedule.
#[derive(Drop)]
pub enum Clocks {
    /// The clocks as SDC.
    Said(Bytes),
    /// What of them SDC can't say.
    Unsaid(Obstacle),
    /// The schedule isn't right, or there is none: the judgement of it, or the verdict on the certificate, for people.
    Denied(Bytes),
}

/// A schedule as it is stated: the source of its design, the text that it stands in, what both are called, and how a
/// judgement is shown.
#[derive(Clone, Copy)]
pub struct Statement<'a> {
    pub source: Source,
    pub stated: Stated,
    pub titles: &'a Titles,
    pub view: &'a View,
}

/// A design and its clock, what its clocks are called after, and how a judgement is shown.
#[derive(Clone, Copy)]
struct Clocked<'a> {
    system: &'a System,
    clock: &'a Clock,
    titles: &'a Titles,
    view: &'a View,
}

/// The clocks of a schedule, or what of them SDC can't say.
fn said(
    alloc: Global,
    clock: &Clock,
    schedule: &Schedule,
    titles: &Titles,
) -> Result<Clocks, OutOfMemory>
    requires in_range { IsInRange schedule.now }
    requires limits { KeepsLimits clock.now }
    requires alike { length clock.now.phases ≡ length schedule.now.starts }
    ensures { IfOk result (IsSaid clock.now schedule.now titles.now) }
{
    match obstacle_of(clock, schedule) {
        Some(obstacle) => Ok(Clocks::Unsaid(obstacle)),
        None => Ok(Clocks::Said(sdc_text(alloc, clock, schedule, titles)?)),
    }
}

/// Whether a hold is broken.
fn is_hold(violation: &Violation) -> bool
    ensures { result ≡ is_hold violation.now }
{
    matches!(violation.broken, Broken::Hold { .. })
}

/// Whether holds alone are broken.
fn are_holds(violations: &[Violation]) -> bool
    ensures yes { result ≡ true → AreHolds violations.now }
    ensures no { result ≡ false → AreHolds violations.now → ⊥ }
{
    for violation in violations {
        if !is_hold(violation) {
            return false;
        }
    }
    true
}

/// The clocks of a schedule that is right but for holds, or the judgement of another one.
fn schedule_clocks(
    alloc: Global,
    clocked: &Clocked<'_>,
    schedule: &Schedule,
) -> Result<Clocks, OutOfMemory>
    requires in_range { IsInRange schedule.now }
    requires phases { length schedule.now.starts ≡ phase_count clocked.now.system.now.flat }
    requires alike { length clocked.now.clock.now.phases ≡ phase_count clocked.now.system.now.flat }
    requires limits { KeepsLimits clocked.now.clock.now }
    ensures { IfOk result (IsOfSchedule clocked.now.system.now clocked.now.clock.now schedule.now
        clocked.now.titles.now clocked.now.view.now) }
{
    let mut room = room_for(alloc, clocked.system)?;
    let broken = violations(alloc, clocked.system, schedule, &mut room)?;
    if are_holds(broken.as_slice()) {
        return said(alloc, clocked.clock, schedule, clocked.titles);
    }
    let text = failed(
        alloc,
        clocked.system,
        schedule,
        broken.as_slice(),
        &mut room,
        clocked.view,
    )?;
    Ok(Clocks::Denied(text))
}

/// The cycle time of a schedule in femtoseconds, rounded up, where 32 bits hold it.
fn rounded_up(schedule: &Schedule) -> Option<u32>
    requires { IsInRange schedule.now }
    ensures { MatchOption result (IsBeyond schedule.now) (IsRoundedUp schedule.now) }
{
    let cycle = cycle_of(schedule).ceil_at(1);
    u32::try_from(cycle).ok()
}

/// The earliest schedule of the next whole femtosecond, where the cycle time is none.
fn raised(
    alloc: Global,
    system: &System,
    schedule: &Schedule,
) -> Result<Option<Schedule>, OutOfMemory>
    requires { IsInRange schedule.now }
    ensures value { IfOk result (IsRaised system.now schedule.now) }
    ensures in_range { IfOk result (λ o. IfSome o IsInRange) }
    ensures phases { IfOk result
        (λ o. IfSome o (λ whole. length whole.starts ≡ phase_count system.now.flat)) }
{
    if schedule.den == 1 {
        return Ok(None);
    }
    let Some(cycle) = rounded_up(schedule) else {
        return Ok(None);
    };
    match at_cycle_uncounted(alloc, system, cycle)? {
        AtCycle::Right {
            schedule,
            departures: _departures,
        } => Ok(Some(schedule)),
        AtCycle::Short { chain: _chain } => Ok(None),
    }
}

/// The clocks of the schedule of a valid certificate, in whole femtoseconds.
fn least_clocks(
    alloc: Global,
    clocked: &Clocked<'_>,
    schedule: &Schedule,
) -> Result<Clocks, OutOfMemory>
    requires in_range { IsInRange schedule.now }
    requires phases { length schedule.now.starts ≡ phase_count clocked.now.system.now.flat }
    requires alike { length clocked.now.clock.now.phases ≡ phase_count clocked.now.system.now.flat }
    requires limits { KeepsLimits clocked.now.clock.now }
    ensures { IfOk result (IsOfLeast clocked.now.system.now clocked.now.clock.now schedule.now
        clocked.now.titles.now) }
{
    match raised(alloc, clocked.system, schedule)? {
        Some(whole) => said(alloc, clocked.clock, &whole, clocked.titles),
        None => said(alloc, clocked.clock, schedule, clocked.titles),
    }
}

/// The verdict on a certificate that gives no right schedule.
fn denied(
    alloc: Global,
    clocked: &Clocked<'_>,
    certificate: &Certificate,
    verdict: Verdict,
) -> Result<Clocks, OutOfMemory>
    requires in_range { IsCertificateInRange certificate.now }
    requires verdict { IsVerdict clocked.now.system.now certificate.now verdict }
    ensures { IfOk result (IsDenied (IsToldVerdict clocked.now.system.now certificate.now
        clocked.now.titles.now.subject clocked.now.view.now verdict)) }
{
    let judged = Judged {
        system: clocked.system,
        certificate,
        verdict,
        design: clocked.titles.subject.bytes(),
    };
    let text = told_verdict(alloc, &judged, clocked.view)?;
    Ok(Clocks::Denied(text))
}

/// The clocks of the schedule of a certificate, or the verdict on one that gives no right schedule.
fn certificate_clocks(
    alloc: Global,
    clocked: &Clocked<'_>,
    certificate: &Certificate,
) -> Result<Clocks, OutOfMemory>
    requires in_range { IsCertificateInRange certificate.now }
    requires alike { length clocked.now.clock.now.phases ≡ phase_count clocked.now.system.now.flat }
    requires limits { KeepsLimits clocked.now.clock.now }
    ensures { IfOk result (IsOfCertificate clocked.now.system.now clocked.now.clock.now certificate.now
        clocked.now.titles.now clocked.now.view.now) }
{
    let verdict = examine(alloc, clocked.system, certificate)?;
    match (verdict, certificate) {
        (Verdict::Valid, Certificate::Least { schedule, .. }) => least_clocks(
            alloc, clocked, schedule,
        ),
        _ => denied(alloc, clocked, certificate, verdict),
    }
}

/// The clocks of the schedule of a text, or why the text is refused.
fn text_clocks(
    alloc: Global,
    limits: &Limits,
    stated: Stated,
    clocked: &Clocked<'_>,
    file: &[u8],
) -> Result<Clocks, Stop>
    requires short { length file.now ≤ MOST_BYTES }
    requires alike { length clocked.now.clock.now.phases ≡ phase_count clocked.now.system.now.flat }
    requires limits { KeepsLimits clocked.now.clock.now }
    ensures value { IfOk result (IsOfText limits.now stated clocked.now.system.now clocked.now.clock.now file.now
        clocked.now.titles.now clocked.now.view.now) }
    ensures stop { IfErr result
        (StopsAt (IsFileRefused limits.now (job_of stated) clocked.now.system.now.flat file.now)) }
{
    match stated {
        Stated::Schedule => {
            let schedule = schedule_of(file, clocked.system.flat().phase_count())?;
            Ok(schedule_clocks(alloc, clocked, &schedule)?)
        }
        Stated::Certificate => {
            let certificate = read(alloc, limits, file)?;
            Ok(certificate_clocks(alloc, clocked, &certificate)?)
        }
    }
}

/// The clock of a description, where it can be read. A table has none.
fn clock_in(
    alloc: Global,
    limits: &Limits,
    source: Source,
    files: &[Bytes],
) -> Result<Option<Clock>, OutOfMemory>
    requires all { length (source_roles source) ≤ length files.now }
    requires short { AreShort limits.now files.now }
    ensures { IfOk result (IsClockIn source files.now) }
{
    let _most = limits.most();
    match source {
        Source::Table => Ok(None),
        Source::Files | Source::Liberty => match read_clock(alloc, files[3].items()) {
            Ok(clock) => Ok(Some(clock)),
            Err(Stop::Refused(_)) => Ok(None),
            Err(Stop::OutOfMemory) => Err(OutOfMemory),
        },
    }
}

/// The clock that was read, or that of a table, by the names of its phases.
fn clock_of(alloc: Global, system: &System, read: Option<Clock>) -> Result<Clock, OutOfMemory>
    ensures value { IfOk result (IsChosen system.now read) }
    ensures limits { IfOk result (λ clock. read ≡ None → KeepsLimits clock) }
{
    match read {
        Some(clock) => Ok(clock),
        None => clock_by_names(alloc, system.flat()),
    }
}

/// A clock, where it has so many phases.
fn of_phases(count: u32, read: Option<Clock>) -> Option<Clock>
    ensures { result ≡ of_phases count read }
{
    match read {
        Some(clock) if clock.phases.items().len() == count as usize => Some(clock),
        _ => None,
    }
}

/// The clock that was read, where it has as many phases as a design, or that of the names of the design's phases.
fn fitting_clock(alloc: Global, system: &System, read: Option<Clock>) -> Result<Clock, OutOfMemory>
    ensures value { IfOk result (IsChosen system.now (of_phases (phase_count system.now.flat) read)) }
    ensures limits { IfOk result
        (λ clock. of_phases (phase_count system.now.flat) read ≡ None → KeepsLimits clock) }
{
    let fitting = of_phases(system.flat().phase_count(), read);
    clock_of(alloc, system, fitting)
}

/// The command that reads a design and the text beside it.
fn command_of(asked: &Statement<'_>) -> Command
    ensures { result ≡ command_of asked.now.stated asked.now.source }
{
    let job = match asked.stated {
        Stated::Schedule => Job::Check,
        Stated::Certificate => Job::Verify,
    };
    Command::OfDesign {
        job,
        source: asked.source,
    }
}

/// The clocks of the schedule of a text beside the design at hand, or beside that of texts, none of them too long, or
/// their first refusal.
fn design_clocks(
    alloc: Global,
    limits: &Limits,
    asked: &Statement<'_>,
    shown: Option<Flat>,
    read: Option<Clock>,
    texts: &mut [Bytes],
) -> Result<Clocks, Stop>
    requires all { length (source_roles asked.now.source) ≤ length texts.old }
    requires short { AreShort limits.now texts.old }
    requires within { IfSome shown (IsWithinLimits limits.now) }
    requires read { IsClockIn asked.now.source texts.old read }
    ensures value { IfOk result (IsOfFiles limits.now shown asked.now.stated asked.now.source asked.now.titles.now
        asked.now.view.now texts.old) }
    ensures stop { IfErr result
        (StopsAt (IsJobRefusalFor limits.now shown (job_of asked.now.stated) asked.now.source texts.old)) }
{
    clocks_keep_limits();
    clocks_are_determined();
    clocks_are_not_refused();
    let system = system_for(alloc, limits, asked.source, shown, texts)?;
    let clock = fitting_clock(alloc, &system, read)?;
    let clocked = Clocked {
        system: &system,
        clock: &clock,
        titles: asked.titles,
        view: asked.view,
    };
    let file = own_file(limits, asked.source, texts);
    text_clocks(alloc, limits, asked.stated, &clocked, file)
}

/// The clocks of a schedule as SDC, of the first bytes of its files, or their first refusal, which is that of mintc's
/// command for it. Where a design is at hand, they are clocks of that. The memory of files is given back once their
/// design is read.
pub fn clocks_text(
    alloc: Global,
    limits: &Limits,
    asked: &Statement<'_>,
    shown: Option<Flat>,
    files: &mut [Bytes],
) -> Result<Clocks, Stop>
    requires count { length files.old ≡ length (roles_of (command_of asked.now.stated asked.now.source)) }
    requires within { IfSome shown (IsWithinLimits limits.now) }
    ensures value { IfOk result (HasClocks limits.now shown asked.now.stated asked.now.source asked.now.titles.now
        asked.now.view.now files.old) }
    ensures stop { IfErr result
        (StopsAt (IsFirstRefusalFor limits.now shown (command_of asked.now.stated asked.now.source) files.old)) }
{
    let command = command_of(asked);
    if let Some(refusal) = too_long(limits, command.roles(), files) {
        return Err(Stop::Refused(refusal));
    }
    let read = clock_in(alloc, limits, asked.source, files)?;
    design_clocks(alloc, limits, asked, shown, read, files)
}
