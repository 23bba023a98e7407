//! The table of the chain of a least cycle.
ghost use Rattle.std.specs.Prelude.{◌≡◌, ◌<◌, ◌≤◌, ◌+◌, ◌++◌, length, All, IfOk, OnOk};
ghost use Rattle.mintc_timing.specs.Limits.{IsDenominator};
ghost use Rattle.mintcx_chain.specs.Names.{IsStage};
ghost use Rattle.mintcx_chain.specs.Rows.{AreInTime, IsChainTime};
ghost use Rattle.mintcx_optima.specs.Tables.{chain_cells, chain_columns, chain_grid, chain_head, chain_text};
ghost use Rattle.mintcx_optima.specs.Tables.{last_cells, stage_cells};

use crate::cells::{lent_cell, moment_cell, through_cell};
use mintc_text::{Lines, Names, OutOfMemory};
use mintc_timing::Flat;
use mintcx_amounts::Unit;
use mintcx_chain::{Row, Stage, stage_from, stage_to};
use mintcx_columns::{Column, Table};
use mintcx_frame::{number_cell, put_more, shown_rows, time_cell, word_cell};
use mintcx_manners::Limit;
use std::alloc::Global;

/// How the rows of a chain are shown: over which denominator their times are, in which unit, and how many.
#[derive(Clone, Copy)]
pub(crate) struct Scale {
    pub(crate) den: i64,
    pub(crate) unit: Unit,
    pub(crate) limit: Limit,
}

/// The columns of the table.
fn chain_columns(alloc: Global) -> Result<Vec<Column>, OutOfMemory>
    ensures { IfOk result (λ columns. columns.items ≡ chain_columns) }
{
    let (left, right) = (Column::left(), Column::right());
    Ok(vec![in alloc; right, left, right, right, right, left, left]?)
}

/// Its first row.
fn chain_head(alloc: Global) -> Result<Names, OutOfMemory>
    ensures { IfOk result (λ row. row ≡ chain_head) }
{
    let cycle = word_cell(alloc, b"cycle")?;
    let from = word_cell(alloc, b"from")?;
    let at = word_cell(alloc, b"at")?;
    let borrows = word_cell(alloc, b"borrows")?;
    let delay = word_cell(alloc, b"delay")?;
    let to = word_cell(alloc, b"to")?;
    let through = word_cell(alloc, b"through")?;
    Ok(Names::new(vec![in alloc; cycle, from, at, borrows, delay, to, through]?))
}

/// The cells of a stage with its row.
fn stage_cells(
    alloc: Global,
    flat: &Flat,
    scale: Scale,
    row: &Row,
    stage: &Stage,
) -> Result<Names, OutOfMemory>
    requires time { IsChainTime row.now.at }
    requires den { IsDenominator scale.den }
    requires stage { IsStage flat.now stage.now }
    ensures { IfOk result (λ cells. cells ≡ stage_cells flat.now scale.unit scale.den row.now stage.now) }
{
    let cycle = number_cell(alloc, row.cycle)?;
    let from = stage_from(alloc, flat, stage)?;
    let at = moment_cell(alloc, row.at, scale.den, scale.unit)?;
    let lent = lent_cell(alloc, row.borrows, scale.den, scale.unit)?;
    let delay = time_cell(alloc, stage.delay, 1, scale.unit)?;
    let to = stage_to(alloc, flat, stage)?;
    let through = through_cell(alloc, flat, stage)?;
    Ok(Names::new(vec![in alloc; cycle, from, at, lent, delay, to, through]?))
}

/// The cells of the last row, which is the first stage again.
fn last_cells(
    alloc: Global,
    flat: &Flat,
    scale: Scale,
    row: &Row,
    first: &Stage,
) -> Result<Names, OutOfMemory>
    requires time { IsChainTime row.now.at }
    requires den { IsDenominator scale.den }
    requires stage { IsStage flat.now first.now }
    ensures { IfOk result (λ cells. cells ≡ last_cells flat.now scale.unit scale.den row.now first.now) }
{
    let cycle = number_cell(alloc, row.cycle)?;
    let from = stage_from(alloc, flat, first)?;
    let at = moment_cell(alloc, row.at, scale.den, scale.unit)?;
    Ok(Names::new(vec![in alloc; cycle, from, at]?))
}

/// The cells of the row of a number.
fn chain_cells(
    alloc: Global,
    flat: &Flat,
    scale: Scale,
    stages: &[Stage],
    rows: &[Row],
    number: usize,
) -> Result<Names, OutOfMemory>
    requires times { AreInTime rows.now }
    requires den { IsDenominator scale.den }
    requires stages { All (IsStage flat.now) stages.now }
    requires some { 1 ≤ length stages.now }
    requires rows { length rows.now ≡ length stages.now + 1 }
    requires there { number < length rows.now }
    ensures { IfOk result (λ cells. cells ≡ chain_cells flat.now scale.unit scale.den stages.now rows.now number) }
{
    if number < stages.len() {
        stage_cells(alloc, flat, scale, &rows[number], &stages[number])
    } else {
        last_cells(alloc, flat, scale, &rows[number], &stages[0])
    }
}

/// The table of a chain, of so many rows.
fn chain_table(
    alloc: Global,
    flat: &Flat,
    scale: Scale,
    stages: &[Stage],
    rows: &[Row],
    shown: usize,
) -> Result<Table, OutOfMemory>
    requires times { AreInTime rows.now }
    requires den { IsDenominator scale.den }
    requires stages { All (IsStage flat.now) stages.now }
    requires some { 1 ≤ length stages.now }
    requires rows { length rows.now ≡ length stages.now + 1 }
    requires there { shown ≤ length rows.now }
    ensures { IfOk result (λ table. table ≡ chain_grid flat.now scale.unit scale.den stages.now rows.now shown) }
{
    let mut table = Table::new(alloc, chain_columns(alloc)?);
    table.push(chain_head(alloc)?)?;
    for number in 0..shown {
        table.push(chain_cells(alloc, flat, scale, stages, rows, number)?)?;
    }
    Ok(table)
}

/// Writes the rows of a chain as a table, as many as its limit allows.
pub(crate) fn put_chain(
    lines: &mut Lines,
    alloc: Global,
    flat: &Flat,
    scale: Scale,
    stages: &[Stage],
    rows: &[Row],
) -> Result<(), OutOfMemory>
    requires times { AreInTime rows.now }
    requires den { IsDenominator scale.den }
    requires stages { All (IsStage flat.now) stages.now }
    requires some { 1 ≤ length stages.now }
    requires rows { length rows.now ≡ length stages.now + 1 }
    ensures { OnOk result (lines.new ≡ lines.old
        ++ chain_text flat.now scale.unit scale.den stages.now rows.now scale.limit) }
{
    let shown = shown_rows(scale.limit, rows.len());
    let text = chain_table(alloc, flat, scale, stages, rows, shown)?.text(alloc)?;
    lines.put(&text)?;
    put_more(lines, scale.limit, rows.len())
}
