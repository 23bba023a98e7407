//! The texts of a cycle time that is asked for.
ghost use Rattle.std.specs.Prelude.{◌≡◌, ◌≤◌, ◌++◌, pos, length, All, IfOk, OnOk};
ghost use Rattle.mintc_text.specs.declared.limits.TheConstants.{MOST_MEMBERS};
ghost use Rattle.mintc_timing.specs.Design.{phase_count};
ghost use Rattle.mintc_timing.specs.Limits.{IsInRange};
ghost use Rattle.mintc_certificate.specs.Ranges.{IsChainInRange};
ghost use Rattle.mintc_certificate.specs.Valid.{IsMember};
ghost use Rattle.mintcx_chain.specs.Names.{IsShort, IsStage};
ghost use Rattle.mintcx_cycles.specs.AtCycles.{IsAtCycle, IsSayable};
ghost use Rattle.mintcx_optima.specs.Least.{IsRing};
ghost use Rattle.mintcx_optima.specs.Cycles.{hops_text, needs_text, right_text, short_cells, short_columns, short_grid};
ghost use Rattle.mintcx_optima.specs.Cycles.{short_head, short_text, IsCycleText, IsShortOf};

use crate::cells::through_cell;
use crate::counts::put_counted;
use crate::least::{cycle_of, unit_of};
use crate::never::put_asks;
use crate::optimum::chain_of;
use mintc_certificate::Member;
use mintc_fraction::Fraction;
use mintc_text::{Bytes, Lines, Names, OutOfMemory};
use mintc_timing::{Flat, Schedule, System};
use mintcx_amounts::{Unit, put_amount};
use mintcx_chain::{Stage, stage_from, stage_to, sums_of};
use mintcx_columns::{Column, Table};
use mintcx_cycles::AtCycle;
use mintcx_frame::{
    View, number_cell, put_foot, put_head, put_more, put_phases, put_time, shown_rows, time_cell,
    word_cell,
};
use mintcx_manners::Limit;
use std::alloc::Global;

/// The columns of the table.
fn short_columns(alloc: Global) -> Result<Vec<Column>, OutOfMemory>
    ensures { IfOk result (λ columns. columns.items ≡ short_columns) }
{
    let (left, right) = (Column::left(), Column::right());
    Ok(vec![in alloc; left, right, right, left, left]?)
}

/// Its first row.
fn short_head(alloc: Global) -> Result<Names, OutOfMemory>
    ensures { IfOk result (λ row. row ≡ short_head) }
{
    let from = word_cell(alloc, b"from")?;
    let delay = word_cell(alloc, b"delay")?;
    let cycles = word_cell(alloc, b"cycles")?;
    let to = word_cell(alloc, b"to")?;
    let through = word_cell(alloc, b"through")?;
    Ok(Names::new(vec![in alloc; from, delay, cycles, to, through]?))
}

/// The cells of a stage.
fn short_cells(alloc: Global, flat: &Flat, unit: Unit, stage: &Stage) -> Result<Names, OutOfMemory>
    requires { IsStage flat.now stage.now }
    ensures { IfOk result (λ cells. cells ≡ short_cells flat.now unit stage.now) }
{
    let from = stage_from(alloc, flat, stage)?;
    let delay = time_cell(alloc, stage.delay, 1, unit)?;
    let cycles = number_cell(alloc, u64::from(stage.cycles))?;
    let to = stage_to(alloc, flat, stage)?;
    let through = through_cell(alloc, flat, stage)?;
    Ok(Names::new(vec![in alloc; from, delay, cycles, to, through]?))
}

/// The table of some stages.
fn short_table(
    alloc: Global,
    flat: &Flat,
    unit: Unit,
    stages: &[Stage],
) -> Result<Table, OutOfMemory>
    requires { All (IsStage flat.now) stages.now }
    ensures { IfOk result (λ table. table ≡ short_grid flat.now unit stages.now) }
{
    let mut table = Table::new(alloc, short_columns(alloc)?);
    table.push(short_head(alloc)?)?;
    for stage in stages {
        table.push(short_cells(alloc, flat, unit, stage)?)?;
    }
    Ok(table)
}

/// Writes the line that says how long a chain takes, and which cycle it needs so.
fn put_needs(lines: &mut Lines, stages: &[Stage], unit: Unit) -> Result<(), OutOfMemory>
    requires short { All IsShort stages.now }
    requires most { length stages.now ≤ MOST_MEMBERS }
    ensures { OnOk result (lines.new ≡ lines.old ++ needs_text stages.now unit) }
{
    let sums = sums_of(stages);
    if sums.cycles == 0 {
        return put_asks(lines, stages, unit);
    }
    lines.put(b"a chain of ")?;
    put_counted(lines, stages.len() as u64, b"constraint")?;
    lines.put(b" takes ")?;
    put_time(lines, &Fraction::new(i128::from(sums.delay), 1), unit)?;
    lines.put(b" in ")?;
    put_counted(lines, sums.cycles, b"cycle")?;
    lines.put(b", and so needs a cycle of ")?;
    put_amount(
        lines,
        &Fraction::new(i128::from(sums.delay), i128::from(sums.cycles)),
        unit,
    )?;
    lines.put(b":\n\n")
}

/// Writes the table of the stages of a chain, as many as a limit allows.
fn put_hops(
    lines: &mut Lines,
    alloc: Global,
    flat: &Flat,
    unit: Unit,
    stages: &[Stage],
    limit: Limit,
) -> Result<(), OutOfMemory>
    requires { All (IsStage flat.now) stages.now }
    ensures { OnOk result (lines.new ≡ lines.old ++ hops_text flat.now unit stages.now limit) }
{
    let shown = shown_rows(limit, stages.len());
    let text = short_table(alloc, flat, unit, &stages[..shown])?.text(alloc)?;
    lines.put(&text)?;
    put_more(lines, limit, stages.len())
}

/// Writes the text of a cycle time in femtoseconds that a chain forbids.
fn put_short(
    lines: &mut Lines,
    alloc: Global,
    flat: &Flat,
    cycle: u32,
    stages: &[Stage],
    view: &View,
) -> Result<(), OutOfMemory>
    requires { IsRing flat.now stages.now }
    ensures { OnOk result (lines.new ≡ lines.old ++ short_text flat.now cycle stages.now view.now) }
{
    let cycle = Fraction::new(i128::from(cycle), 1);
    let unit = view.unit_for(&cycle);
    put_head(lines, b"short", &cycle, view)?;
    lines.put(b"\n")?;
    put_needs(lines, stages, unit)?;
    put_hops(lines, alloc, flat, unit, stages, view.limit)?;
    lines.put(b"\n")?;
    put_foot(lines, unit, b"")
}

/// The text of a cycle time in femtoseconds that the members of a chain forbid.
fn short_of(
    alloc: Global,
    system: &System,
    cycle: u32,
    members: &[Member],
    view: &View,
) -> Result<Bytes, OutOfMemory>
    requires chain { IsChainInRange members.now }
    requires members { All (IsMember system.now) members.now }
    ensures { IfOk result (IsShortOf system.now.flat cycle members.now view.now) }
{
    let stages = chain_of(alloc, system, &[], members)?;
    let mut lines = Lines::new(alloc);
    put_short(
        &mut lines,
        alloc,
        system.flat(),
        cycle,
        stages.items(),
        view,
    )?;
    Ok(Bytes::new(lines.into_bytes()))
}

/// Writes the text of a right schedule of a cycle time that is asked for: its head, and its phases.
fn put_right(
    lines: &mut Lines,
    alloc: Global,
    flat: &Flat,
    schedule: &Schedule,
    view: &View,
) -> Result<(), OutOfMemory>
    requires in_range { IsInRange schedule.now }
    requires phases { length schedule.now.starts ≡ phase_count flat.now }
    requires widths { length schedule.now.widths ≡ phase_count flat.now }
    ensures { OnOk result (lines.new ≡ lines.old ++ right_text flat.now schedule.now view.now) }
{
    let unit = unit_of(schedule, view);
    put_head(lines, b"right", &cycle_of(schedule), view)?;
    lines.put(b"\n")?;
    put_phases(lines, alloc, flat, schedule, unit)?;
    lines.put(b"\n")?;
    put_foot(lines, unit, b"")
}

/// The text of a right schedule of a cycle time that is asked for.
fn right_of(
    alloc: Global,
    flat: &Flat,
    schedule: &Schedule,
    view: &View,
) -> Result<Bytes, OutOfMemory>
    requires in_range { IsInRange schedule.now }
    requires phases { length schedule.now.starts ≡ phase_count flat.now }
    requires widths { length schedule.now.widths ≡ phase_count flat.now }
    ensures { IfOk result (λ text. text ≡ right_text flat.now schedule.now view.now) }
{
    let mut lines = Lines::new(alloc);
    put_right(&mut lines, alloc, flat, schedule, view)?;
    Ok(Bytes::new(lines.into_bytes()))
}

/// The text of what there is at a cycle time in femtoseconds: the phases of its earliest right schedule, or the chain
/// that forbids it.
pub fn cycle_text(
    alloc: Global,
    system: &System,
    cycle: u32,
    found: &AtCycle,
    view: &View,
) -> Result<Bytes, OutOfMemory>
    requires found { IsAtCycle system.now cycle found.now }
    requires sayable { IsSayable found.now }
    ensures { IfOk result (IsCycleText system.now.flat cycle found.now view.now) }
{
    match found {
        AtCycle::Right { schedule, .. } => right_of(alloc, system.flat(), schedule, view),
        AtCycle::Short { chain } => short_of(alloc, system, cycle, chain.items(), view),
    }
}
