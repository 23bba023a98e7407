//! The table of phases.
ghost use Rattle.std.specs.Prelude.{◌≡◌, ◌++◌, length, IfOk, OnOk};
ghost use Rattle.mintc_timing.specs.Clocking.{end_of, start_of, width_of};
ghost use Rattle.mintc_timing.specs.Design.{phase_count};
ghost use Rattle.mintc_timing.specs.Limits.{IsInRange, IsPhase};
ghost use Rattle.mintcx_frame.specs.Phases.{phase_columns, phase_head, phase_row, phases_grid, phases_text};

use crate::cells::{time_cell, word_cell};
use crate::names::phase_name;
use mintc_text::{Lines, Names, OutOfMemory};
use mintc_timing::{Flat, Schedule};
use mintcx_amounts::Unit;
use mintcx_columns::{Column, Table};
use std::alloc::Global;

/// The columns of the table.
fn phase_columns(alloc: Global) -> Result<Vec<Column>, OutOfMemory>
    ensures { IfOk result (λ columns. columns.items ≡ phase_columns) }
{
    let (left, right) = (Column::left(), Column::right());
    Ok(vec![in alloc; left, right, right, right]?)
}

/// Its first row.
fn phase_head(alloc: Global) -> Result<Names, OutOfMemory>
    ensures { IfOk result (λ row. row ≡ phase_head) }
{
    let phase = word_cell(alloc, b"phase")?;
    let starts = word_cell(alloc, b"starts")?;
    let ends = word_cell(alloc, b"ends")?;
    let width = word_cell(alloc, b"width")?;
    Ok(Names::new(vec![in alloc; phase, starts, ends, width]?))
}

/// When a phase starts.
fn start_at(schedule: &Schedule, phase: u32) -> i64
    requires { IsPhase (length schedule.now.starts) phase }
    ensures { result ≡ start_of schedule.now phase }
{
    schedule.starts.items()[phase as usize - 1]
}

/// How wide a phase is.
fn width_at(schedule: &Schedule, phase: u32) -> i64
    requires { IsPhase (length schedule.now.widths) phase }
    ensures { result ≡ width_of schedule.now phase }
{
    schedule.widths.items()[phase as usize - 1]
}

/// When a phase ends.
fn end_at(schedule: &Schedule, phase: u32) -> i64
    requires in_range { IsInRange schedule.now }
    requires phase { IsPhase (length schedule.now.starts) phase }
    ensures { result ≡ end_of schedule.now phase }
{
    let at = phase as usize - 1;
    schedule.starts.items()[at] + schedule.widths.items()[at]
}

/// The row of a phase.
fn phase_row(
    alloc: Global,
    flat: &Flat,
    schedule: &Schedule,
    unit: Unit,
    phase: u32,
) -> Result<Names, OutOfMemory>
    requires in_range { IsInRange schedule.now }
    requires alike { length schedule.now.starts ≡ phase_count flat.now }
    requires phase { IsPhase (phase_count flat.now) phase }
    ensures { IfOk result (λ row. row ≡ phase_row flat.now schedule.now unit phase) }
{
    let name = word_cell(alloc, phase_name(flat, phase))?;
    let starts = time_cell(alloc, start_at(schedule, phase), schedule.den, unit)?;
    let ends = time_cell(alloc, end_at(schedule, phase), schedule.den, unit)?;
    let width = time_cell(alloc, width_at(schedule, phase), schedule.den, unit)?;
    Ok(Names::new(vec![in alloc; name, starts, ends, width]?))
}

/// The table of the phases of a schedule.
fn phases_table(
    alloc: Global,
    flat: &Flat,
    schedule: &Schedule,
    unit: Unit,
) -> Result<Table, OutOfMemory>
    requires in_range { IsInRange schedule.now }
    requires alike { length schedule.now.starts ≡ phase_count flat.now }
    ensures { IfOk result (λ table. table ≡ phases_grid flat.now schedule.now unit) }
{
    let mut table = Table::new(alloc, phase_columns(alloc)?);
    table.push(phase_head(alloc)?)?;
    for at in 0..flat.phase_count() {
        table.push(phase_row(alloc, flat, schedule, unit, at + 1)?)?;
    }
    Ok(table)
}

/// Writes the table of the phases of a schedule, a line each with its start, its end and its width in the unit.
pub fn put_phases(
    lines: &mut Lines,
    alloc: Global,
    flat: &Flat,
    schedule: &Schedule,
    unit: Unit,
) -> Result<(), OutOfMemory>
    requires in_range { IsInRange schedule.now }
    requires alike { length schedule.now.starts ≡ phase_count flat.now }
    ensures { OnOk result (lines.new ≡ lines.old ++ phases_text flat.now schedule.now unit) }
{
    let text = phases_table(alloc, flat, schedule, unit)?.text(alloc)?;
    lines.put(&text)
}
