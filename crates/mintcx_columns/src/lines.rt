//! Lines of a table.
ghost use Rattle.std.specs.Prelude.{◌≡◌, ◌++◌, length, map, OnOk, IfOk};
ghost use Rattle.mintc_text.specs.Lines.{ended, text_of};
ghost use Rattle.mintcx_columns.specs.Tables.{line_of, padded_cells, widths_of};

use crate::Column;
use crate::cells::{end_of, put_cell, width_of};
use mintc_text::{Lines, Names, OutOfMemory};
use std::alloc::Global;

/// How wide each column is.
#[tactic(auto, using(crate::proofs::LineLaws::widths_more))]
pub(crate) fn widths_of(
    alloc: Global,
    columns: &[Column],
    rows: &[Names],
) -> Result<Vec<usize>, OutOfMemory>
    ensures { IfOk result (λ widths. widths.items ≡ widths_of columns.now rows.now (length columns.now)) }
{
    let mut widths = Vec::new(alloc);
    for (at, column) in columns.iter().enumerate() {
        widths.push(width_of(column.least, at, rows))?;
    }
    Ok(widths)
}

/// Writes the cells of a row, each padded and after two blanks.
#[tactic(auto, using(crate::proofs::LineLaws::cells_more))]
fn put_cells(
    line: &mut Lines,
    columns: &[Column],
    widths: &[usize],
    row: &Names,
) -> Result<(), OutOfMemory>
    requires { length widths.now ≡ length columns.now }
    ensures { OnOk result (line.new ≡ line.old ++ padded_cells columns.now widths.now row.now (length columns.now)) }
{
    for (at, column) in columns.iter().enumerate() {
        put_cell(line, column.side, widths[at], row, at)?;
    }
    Ok(())
}

/// Writes the line of a row.
fn put_line(
    lines: &mut Lines,
    alloc: Global,
    columns: &[Column],
    widths: &[usize],
    row: &Names,
) -> Result<(), OutOfMemory>
    requires { length widths.now ≡ length columns.now }
    ensures { OnOk result (lines.new ≡ lines.old ++ ended (line_of columns.now widths.now row.now)) }
{
    let mut line = Lines::new(alloc);
    put_cells(&mut line, columns, widths, row)?;
    let bytes = line.into_bytes();
    lines.put(&bytes[..end_of(&bytes)])?;
    lines.put(b"\n")
}

/// Writes the lines of rows.
pub(crate) fn put_lines(
    lines: &mut Lines,
    alloc: Global,
    columns: &[Column],
    widths: &[usize],
    rows: &[Names],
) -> Result<(), OutOfMemory>
    requires { length widths.now ≡ length columns.now }
    ensures { OnOk result (lines.new ≡ lines.old ++ text_of (map (line_of columns.now widths.now) rows.now)) }
{
    for row in rows {
        put_line(lines, alloc, columns, widths, row)?;
    }
    Ok(())
}
