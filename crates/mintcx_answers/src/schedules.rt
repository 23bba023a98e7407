//! Schedules, as `check` takes them.
ghost use Rattle.std.specs.Prelude.{◌≡◌, ◌++◌, IfOk, OnOk};
ghost use Rattle.mintc_text.specs.Lines.{text_of};
ghost use Rattle.mintc_timing.specs.Limits.{IsInRange};
ghost use Rattle.mintc_timing_text.specs.LineForms.{schedule_text_lines};
ghost use Rattle.mintc_certificate.specs.Ranges.{IsCertificateInRange};
ghost use Rattle.mintc_certificate.specs.Valid.{IsValid};
ghost use Rattle.mintcx_cycles.specs.AtCycles.{IsAtCycle, IsSayable};
ghost use Rattle.mintcx_answers.specs.Answers.{IsOwnText, IsScheduleOrNever, IsScheduleOrShort, IsTimedAnswer};

use crate::jobs::{certificate_status, cycle_status};
use mintc_certificate::{Certificate, put_schedule};
use mintc_command_answers::{Answer, optimum};
use mintc_text::{Bytes, Lines, OutOfMemory};
use mintc_timing::{Schedule, System};
use mintcx_cycles::{AtCycle, at_cycle_uncounted};
use mintcx_frame::View;
use mintcx_optima::{cycle_text, optimum_text};
use std::alloc::Global;

/// Writes the lines of a schedule's own text.
fn put_own_lines(lines: &mut Lines, schedule: &Schedule) -> Result<(), OutOfMemory>
    requires { IsInRange schedule.now }
    ensures { OnOk result (lines.new ≡ lines.old ++ text_of (schedule_text_lines schedule.now)) }
{
    lines.put(b"schedule 1\n")?;
    put_schedule(lines, schedule)?;
    lines.put(b"end\n")
}

/// A schedule's own text.
pub(crate) fn own_text(alloc: Global, schedule: &Schedule) -> Result<Bytes, OutOfMemory>
    requires { IsInRange schedule.now }
    ensures { IfOk result (IsOwnText schedule.now) }
{
    let mut lines = Lines::new(alloc);
    put_own_lines(&mut lines, schedule)?;
    Ok(Bytes::new(lines.into_bytes()))
}

/// The schedule of a certificate, or the text of the chain that forbids every cycle time.
fn schedule_or_never(
    alloc: Global,
    system: &System,
    certificate: &Certificate,
    view: &View,
) -> Result<Bytes, OutOfMemory>
    requires valid { IsValid system.now certificate.now }
    requires in_range { IsCertificateInRange certificate.now }
    ensures { IfOk result (IsScheduleOrNever system.now certificate.now view.now) }
{
    match certificate {
        Certificate::Least { schedule, .. } => own_text(alloc, schedule),
        Certificate::Never { .. } => optimum_text(alloc, system, certificate, view),
    }
}

/// The schedule at a cycle time in femtoseconds, or the text of the chain that forbids it.
fn schedule_or_short(
    alloc: Global,
    system: &System,
    cycle: u32,
    found: &AtCycle,
    view: &View,
) -> Result<Bytes, OutOfMemory>
    requires found { IsAtCycle system.now cycle found.now }
    requires sayable { IsSayable found.now }
    ensures { IfOk result (IsScheduleOrShort system.now cycle found.now view.now) }
{
    match found {
        AtCycle::Right { schedule, .. } => own_text(alloc, schedule),
        AtCycle::Short { .. } => cycle_text(alloc, system, cycle, found, view),
    }
}

/// The schedule of the least cycle time, or of another one in femtoseconds.
pub(crate) fn timed_answer(
    alloc: Global,
    cycle: Option<u32>,
    system: &System,
    view: &View,
) -> Result<Answer, OutOfMemory>
    ensures { IfOk result (λ answer. IsTimedAnswer system.now cycle view.now answer.status answer.text) }
{
    match cycle {
        None => {
            let certificate = optimum(alloc, system)?;
            let text = schedule_or_never(alloc, system, &certificate, view)?;
            let status = certificate_status(&certificate);
            Ok(Answer { status, text })
        }
        Some(cycle) => {
            let found = at_cycle_uncounted(alloc, system, cycle)?;
            let text = schedule_or_short(alloc, system, cycle, &found, view)?;
            let status = cycle_status(&found);
            Ok(Answer { status, text })
        }
    }
}
