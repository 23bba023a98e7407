//! Where a stage of a chain begins, in words.
ghost use Rattle.std.specs.Prelude.{◌≡◌, ◌<◌, ◌≤◌, ◌++◌, pos, negsuc, ◌+ℤ◌, ◌≤ℤ◌, codes, OnOk};
ghost use Rattle.mintc_timing.specs.Clocking.{width_of};
ghost use Rattle.mintc_timing.specs.Design.{element_count, phase_count};
ghost use Rattle.mintc_timing.specs.Limits.{IsNumerator, IsPhase};
ghost use Rattle.mintcx_chain.specs.Names.{IsStage};
ghost use Rattle.mintcx_reports.specs.Begins.{IsTimed, begin_text, element_text, lent_text, moment_text, open_text};
ghost use Rattle.mintcx_reports.specs.Begins.{sample_text, starts_in, window_text};

use crate::told::{Told, put_moment, starts_in};
use mintc_text::{Lines, OutOfMemory};
use mintcx_chain::{Row, Stage, element_of_stage};
use mintcx_frame::{put_kind_on_phase, put_node};

/// How wide a phase is, over the schedule's denominator.
fn width_at(told: &Told, phase: u32) -> i64
    requires timed { IsTimed told.now.flat.now told.now.schedule.now }
    requires phase { IsPhase (phase_count told.now.flat.now) phase }
    ensures value { result ≡ width_of told.now.schedule.now phase }
    ensures range { IsNumerator result }
{
    told.schedule.widths.items()[phase as usize - 1]
}

/// When a phase that starts in a cycle ends, over the schedule's denominator.
fn ends_in(told: &Told, phase: u32, cycle: u64) -> i128
    requires timed { IsTimed told.now.flat.now told.now.schedule.now }
    requires phase { IsPhase (phase_count told.now.flat.now) phase }
    requires few { cycle ≤ 1000000 }
    ensures value { result ≡ starts_in told.now.schedule.now phase cycle +ℤ width_of told.now.schedule.now phase }
    ensures low { negsuc 99999999999999 ≤ℤ result }
    ensures high { result ≤ℤ pos 100000200000000000000 }
{
    starts_in(told, phase, cycle) + i128::from(width_at(told, phase))
}

/// Writes when a flop on a phase samples in a cycle.
fn put_sample(lines: &mut Lines, told: &Told, phase: u32, cycle: u64) -> Result<(), OutOfMemory>
    requires timed { IsTimed told.now.flat.now told.now.schedule.now }
    requires phase { IsPhase (phase_count told.now.flat.now) phase }
    requires few { cycle ≤ 1000000 }
    ensures { OnOk result (lines.new ≡ lines.old ++ sample_text told.now.schedule.now told.now.unit phase cycle) }
{
    lines.put(b", samples at ")?;
    put_moment(lines, told, starts_in(told, phase, cycle))
}

/// Writes when a latch on a phase is open in a cycle.
fn put_open(lines: &mut Lines, told: &Told, phase: u32, cycle: u64) -> Result<(), OutOfMemory>
    requires timed { IsTimed told.now.flat.now told.now.schedule.now }
    requires phase { IsPhase (phase_count told.now.flat.now) phase }
    requires few { cycle ≤ 1000000 }
    ensures { OnOk result (lines.new ≡ lines.old ++ open_text told.now.schedule.now told.now.unit phase cycle) }
{
    lines.put(b", open from ")?;
    put_moment(lines, told, starts_in(told, phase, cycle))?;
    lines.put(b" to ")?;
    put_moment(lines, told, ends_in(told, phase, cycle))
}

/// Writes what a latch borrows.
fn put_borrows(lines: &mut Lines, told: &Told, time: i64) -> Result<(), OutOfMemory>
    requires { IsTimed told.now.flat.now told.now.schedule.now }
    ensures { OnOk result (lines.new ≡ lines.old
        ++ (codes ", borrows " ++ moment_text told.now.unit told.now.schedule.now time)) }
{
    lines.put(b", borrows ")?;
    put_moment(lines, told, i128::from(time))
}

/// Writes what a latch borrows, where it does.
fn put_lent(lines: &mut Lines, told: &Told, time: i64) -> Result<(), OutOfMemory>
    requires { IsTimed told.now.flat.now told.now.schedule.now }
    ensures { OnOk result (lines.new ≡ lines.old ++ lent_text told.now.schedule.now told.now.unit time) }
{
    if time == 0 {
        Ok(())
    } else {
        put_borrows(lines, told, time)
    }
}

/// Writes when an element of a row samples or is open, and what it borrows.
fn put_window(lines: &mut Lines, told: &Told, element: u32, row: &Row) -> Result<(), OutOfMemory>
    requires timed { IsTimed told.now.flat.now told.now.schedule.now }
    requires element { element < element_count told.now.flat.now }
    requires few { row.now.cycle ≤ 1000000 }
    ensures { OnOk result (lines.new ≡ lines.old
        ++ window_text told.now.flat.now told.now.schedule.now told.now.unit row.now element) }
{
    let found = told.flat.element(element);
    if found.flop {
        return put_sample(lines, told, found.phase, row.cycle);
    }
    put_open(lines, told, found.phase, row.cycle)?;
    put_lent(lines, told, row.borrows)
}

/// Writes an element where a stage begins: its name, its kind, when it samples or is open, and what it borrows.
fn put_element(lines: &mut Lines, told: &Told, element: u32, row: &Row) -> Result<(), OutOfMemory>
    requires timed { IsTimed told.now.flat.now told.now.schedule.now }
    requires element { element < element_count told.now.flat.now }
    requires few { row.now.cycle ≤ 1000000 }
    ensures { OnOk result (lines.new ≡ lines.old
        ++ element_text told.now.flat.now told.now.schedule.now told.now.unit row.now element) }
{
    lines.put(told.flat.element(element).name.bytes())?;
    lines.put(b"  ")?;
    put_kind_on_phase(lines, told.flat, element)?;
    put_window(lines, told, element, row)
}

/// Writes what a stage begins at.
pub(crate) fn put_begin(
    lines: &mut Lines,
    told: &Told,
    row: &Row,
    stage: &Stage,
) -> Result<(), OutOfMemory>
    requires timed { IsTimed told.now.flat.now told.now.schedule.now }
    requires few { row.now.cycle ≤ 1000000 }
    requires stage { IsStage told.now.flat.now stage.now }
    ensures { OnOk result (lines.new ≡ lines.old
        ++ begin_text told.now.flat.now told.now.schedule.now told.now.unit row.now stage.now) }
{
    match element_of_stage(stage) {
        Some(element) => put_element(lines, told, element, row),
        None => put_node(lines, told.flat, stage.from),
    }
}
