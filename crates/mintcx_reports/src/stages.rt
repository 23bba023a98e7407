//! The table of the hops of a chain.
ghost use Rattle.std.specs.Prelude.{◌≡◌, ◌<◌, ◌≤◌, ◌+◌, ◌++◌, ◌∷◌, [], flat_map, length, All, IfOk, OnOk};
ghost use Rattle.std.specs.List.{range_with_len};
ghost use Rattle.mintc_text.specs.declared.limits.TheConstants.{MOST_MEMBERS};
ghost use Rattle.mintcx_chain.specs.declared.rows.Row.{Row as RowOf};
ghost use Rattle.mintcx_chain.specs.Names.{IsShort, IsStage};
ghost use Rattle.mintcx_chain.specs.Rows.{AreInTime, IsChainTime};
ghost use Rattle.mintcx_optima.specs.Least.{IsRing};
ghost use Rattle.mintcx_reports.specs.Begins.{IsTimed, begin_text};
ghost use Rattle.mintcx_reports.specs.Hops.{IsTraced};
ghost use Rattle.mintcx_reports.specs.Rows.{again_text, begin_cells, hop_columns, hop_grid, hop_head, last_cells};
ghost use Rattle.mintcx_reports.specs.Rows.{nth_rows, product_text, stage_rows, turns_text};

use crate::begins::put_begin;
use crate::hops::push_hops;
use crate::told::{Told, cycles_time, put_moment};
use mintc_fraction::Fraction;
use mintc_text::{Lines, Name, Names, OutOfMemory};
use mintcx_chain::{Row, Stage, stage_from, sums_of};
use mintcx_columns::{Column, Table};
use mintcx_frame::{amount_cell, number_cell, put_number, word_cell};
use mintcx_optima::put_counted;
use std::alloc::Global;

/// The columns of the table.
fn hop_columns(alloc: Global) -> Result<Vec<Column>, OutOfMemory>
    ensures { IfOk result (λ columns. columns.items ≡ hop_columns) }
{
    let (left, right) = (Column::left(), Column::right());
    Ok(vec![in alloc; right, right, right, left]?)
}

/// Its first row.
fn hop_head(alloc: Global) -> Result<Names, OutOfMemory>
    ensures { IfOk result (λ row. row ≡ hop_head) }
{
    let cycle = word_cell(alloc, b"cycle")?;
    let delay = word_cell(alloc, b"delay")?;
    let time = word_cell(alloc, b"time")?;
    let at = word_cell(alloc, b"at")?;
    Ok(Names::new(vec![in alloc; cycle, delay, time, at]?))
}

/// The cells of a row where a stage begins, and what is there.
fn begin_cells(alloc: Global, told: &Told, row: &Row, what: &[u8]) -> Result<Names, OutOfMemory>
    requires timed { IsTimed told.now.flat.now told.now.schedule.now }
    requires time { IsChainTime row.now.at }
    ensures { IfOk result (λ cells. cells ≡ begin_cells told.now.schedule.now told.now.unit row.now what.now) }
{
    let cycle = number_cell(alloc, row.cycle)?;
    let delay = word_cell(alloc, b"")?;
    let begins = Fraction::new(row.at, i128::from(told.schedule.den));
    let time = amount_cell(alloc, &begins, told.unit)?;
    let at = word_cell(alloc, what)?;
    Ok(Names::new(vec![in alloc; cycle, delay, time, at]?))
}

/// What a stage begins at.
fn begin_words(alloc: Global, told: &Told, row: &Row, stage: &Stage) -> Result<Name, OutOfMemory>
    requires timed { IsTimed told.now.flat.now told.now.schedule.now }
    requires few { row.now.cycle ≤ 1000000 }
    requires stage { IsStage told.now.flat.now stage.now }
    ensures { IfOk result
        (λ name. name ≡ begin_text told.now.flat.now told.now.schedule.now told.now.unit row.now stage.now) }
{
    let mut what = Lines::new(alloc);
    put_begin(&mut what, told, row, stage)?;
    word_cell(alloc, &what.into_bytes())
}

/// Adds the rows of a stage: where it begins, and its hops.
fn push_stage(
    table: &mut Table,
    alloc: Global,
    told: &Told,
    row: &Row,
    stage: &Stage,
) -> Result<(), OutOfMemory>
    requires columns { length table.old.columns ≡ 4 }
    requires timed { IsTimed told.now.flat.now told.now.schedule.now }
    requires time { IsChainTime row.now.at }
    requires few { row.now.cycle ≤ 1000000 }
    requires stage { IsStage told.now.flat.now stage.now }
    requires short { IsShort stage.now }
    requires traced { IsTraced told.now.flat.now stage.now }
    ensures columns { table.new.columns ≡ table.old.columns }
    ensures ok { OnOk result (table.new.rows ≡ table.old.rows ++ stage_rows told.now.flat.now
        told.now.schedule.now told.now.cells.now told.now.unit row.now stage.now) }
{
    let what = begin_words(alloc, told, row, stage)?;
    let cells = begin_cells(alloc, told, row, what.bytes())?;
    table.push(cells)?;
    push_hops(table, alloc, told, stage, row.at)
}

/// Writes so many cycles as a time, and as a product.
fn put_product(lines: &mut Lines, told: &Told, cycles: u64) -> Result<(), OutOfMemory>
    requires timed { IsTimed told.now.flat.now told.now.schedule.now }
    requires few { cycles ≤ MOST_MEMBERS }
    ensures { OnOk result (lines.new ≡ lines.old ++ product_text told.now.schedule.now told.now.unit cycles) }
{
    let cycle = told.schedule.cycle;
    lines.put(b": ")?;
    put_moment(lines, told, cycles_time(cycles, cycle))?;
    lines.put(b" = ")?;
    put_number(lines, cycles)?;
    lines.put(b" x ")?;
    put_moment(lines, told, i128::from(cycle))
}

/// Writes so many cycles as a time, where they are not one.
fn put_turns(lines: &mut Lines, told: &Told, cycles: u64) -> Result<(), OutOfMemory>
    requires timed { IsTimed told.now.flat.now told.now.schedule.now }
    requires few { cycles ≤ MOST_MEMBERS }
    ensures { OnOk result (lines.new ≡ lines.old ++ turns_text told.now.schedule.now told.now.unit cycles) }
{
    if cycles == 1 {
        Ok(())
    } else {
        put_product(lines, told, cycles)
    }
}

/// Writes the first stage again, so many cycles on.
fn put_again(
    lines: &mut Lines,
    alloc: Global,
    told: &Told,
    first: &Stage,
    cycles: u64,
) -> Result<(), OutOfMemory>
    requires timed { IsTimed told.now.flat.now told.now.schedule.now }
    requires few { cycles ≤ MOST_MEMBERS }
    requires stage { IsStage told.now.flat.now first.now }
    ensures { OnOk result (lines.new ≡ lines.old
        ++ again_text told.now.flat.now told.now.schedule.now told.now.unit first.now cycles) }
{
    let name = stage_from(alloc, told.flat, first)?;
    lines.put(name.bytes())?;
    lines.put(b" again, ")?;
    put_counted(lines, cycles, b"cycle")?;
    lines.put(b" on")?;
    put_turns(lines, told, cycles)
}

/// The first stage again, so many cycles on.
fn again_words(alloc: Global, told: &Told, first: &Stage, cycles: u64) -> Result<Name, OutOfMemory>
    requires timed { IsTimed told.now.flat.now told.now.schedule.now }
    requires few { cycles ≤ MOST_MEMBERS }
    requires stage { IsStage told.now.flat.now first.now }
    ensures { IfOk result
        (λ name. name ≡ again_text told.now.flat.now told.now.schedule.now told.now.unit first.now cycles) }
{
    let mut what = Lines::new(alloc);
    put_again(&mut what, alloc, told, first, cycles)?;
    word_cell(alloc, &what.into_bytes())
}

/// The cells of the last row: the first stage again.
fn last_cells(
    alloc: Global,
    told: &Told,
    stages: &[Stage],
    rows: &[Row],
) -> Result<Names, OutOfMemory>
    requires timed { IsTimed told.now.flat.now told.now.schedule.now }
    requires ring { IsRing told.now.flat.now stages.now }
    requires times { AreInTime rows.now }
    requires rows { length rows.now ≡ length stages.now + 1 }
    ensures { IfOk result
        (λ cells. cells ≡ last_cells told.now.flat.now told.now.schedule.now told.now.unit stages.now rows.now) }
{
    let sums = sums_of(stages);
    let what = again_words(alloc, told, &stages[0], sums.cycles)?;
    begin_cells(alloc, told, &rows[stages.len()], what.bytes())
}

/// Adds the rows of the stage of a number.
fn push_nth(
    table: &mut Table,
    alloc: Global,
    told: &Told,
    stages: &[Stage],
    rows: &[Row],
    number: usize,
) -> Result<(), OutOfMemory>
    requires columns { length table.old.columns ≡ 4 }
    requires timed { IsTimed told.now.flat.now told.now.schedule.now }
    requires ring { IsRing told.now.flat.now stages.now }
    requires traced { All (IsTraced told.now.flat.now) stages.now }
    requires times { AreInTime rows.now }
    requires few { All (λ (row : RowOf). row.cycle ≤ 1000000) rows.now }
    requires rows { length rows.now ≡ length stages.now + 1 }
    requires number { number < length stages.now }
    ensures columns { table.new.columns ≡ table.old.columns }
    ensures ok { OnOk result (table.new.rows ≡ table.old.rows ++ nth_rows told.now.flat.now told.now.schedule.now
        told.now.cells.now told.now.unit stages.now rows.now number) }
{
    push_stage(table, alloc, told, &rows[number], &stages[number])
}

/// Adds the rows of all stages.
fn push_stages(
    table: &mut Table,
    alloc: Global,
    told: &Told,
    stages: &[Stage],
    rows: &[Row],
) -> Result<(), OutOfMemory>
    requires columns { length table.old.columns ≡ 4 }
    requires timed { IsTimed told.now.flat.now told.now.schedule.now }
    requires ring { IsRing told.now.flat.now stages.now }
    requires traced { All (IsTraced told.now.flat.now) stages.now }
    requires times { AreInTime rows.now }
    requires few { All (λ (row : RowOf). row.cycle ≤ 1000000) rows.now }
    requires rows { length rows.now ≡ length stages.now + 1 }
    ensures columns { table.new.columns ≡ table.old.columns }
    ensures ok { OnOk result (table.new.rows ≡ table.old.rows ++ flat_map (nth_rows told.now.flat.now
        told.now.schedule.now told.now.cells.now told.now.unit stages.now rows.now)
        (range_with_len 0 (length stages.now))) }
{
    for number in 0..stages.len() {
        push_nth(table, alloc, told, stages, rows, number)?;
    }
    Ok(())
}

/// Adds the first row, the rows of all stages, and the last row.
fn push_rows(
    table: &mut Table,
    alloc: Global,
    told: &Told,
    stages: &[Stage],
    rows: &[Row],
) -> Result<(), OutOfMemory>
    requires columns { length table.old.columns ≡ 4 }
    requires timed { IsTimed told.now.flat.now told.now.schedule.now }
    requires ring { IsRing told.now.flat.now stages.now }
    requires traced { All (IsTraced told.now.flat.now) stages.now }
    requires times { AreInTime rows.now }
    requires few { All (λ (row : RowOf). row.cycle ≤ 1000000) rows.now }
    requires rows { length rows.now ≡ length stages.now + 1 }
    ensures columns { OnOk result (table.new.columns ≡ table.old.columns) }
    ensures ok { OnOk result (table.new.rows ≡ table.old.rows ++ hop_head ∷ [] ++ flat_map (nth_rows told.now.flat.now
        told.now.schedule.now told.now.cells.now told.now.unit stages.now rows.now)
        (range_with_len 0 (length stages.now))
        ++ last_cells told.now.flat.now told.now.schedule.now told.now.unit stages.now rows.now ∷ []) }
{
    let head = hop_head(alloc)?;
    table.push(head)?;
    push_stages(table, alloc, told, stages, rows)?;
    let last = last_cells(alloc, told, stages, rows)?;
    table.push(last)
}

/// The table of the hops of a chain, stage by stage.
pub(crate) fn hop_table(
    alloc: Global,
    told: &Told,
    stages: &[Stage],
    rows: &[Row],
) -> Result<Table, OutOfMemory>
    requires timed { IsTimed told.now.flat.now told.now.schedule.now }
    requires ring { IsRing told.now.flat.now stages.now }
    requires traced { All (IsTraced told.now.flat.now) stages.now }
    requires times { AreInTime rows.now }
    requires few { All (λ (row : RowOf). row.cycle ≤ 1000000) rows.now }
    requires rows { length rows.now ≡ length stages.now + 1 }
    ensures { IfOk result (λ table. table
        ≡ hop_grid told.now.flat.now told.now.schedule.now told.now.cells.now told.now.unit stages.now rows.now) }
{
    let columns = hop_columns(alloc)?;
    let mut table = Table::new(alloc, columns);
    push_rows(&mut table, alloc, told, stages, rows)?;
    Ok(table)
}
