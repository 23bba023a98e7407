//! Cells in their columns.
ghost use Rattle.std.specs.Prelude.{◌≡◌, ◌++◌, ◌≤◌, length, take, OnOk};
ghost use Rattle.mintcx_columns.specs.Cells.{blanks, cell_of, padded, trimmed, width_of};

use mintc_text::{Lines, Names, OutOfMemory};

/// Where a cell stands in its column.
#[derive(Clone, Copy, Debug, PartialEq, Eq)]
pub enum Side {
    /// To the left, as names do.
    Left,
    /// To the right, as numbers do.
    Right,
}

/// A column of a table: where its cells stand, and how many bytes wide it is at least.
#[derive(Clone, Copy, Debug, PartialEq, Eq)]
pub struct Column {
    pub side: Side,
    pub least: usize,
}

impl Column {
    /// A column of names, as wide as its widest cell.
    pub fn left() -> Column
        ensures { result ≡ record { side = Side.Left; least = 0 } }
    {
        Column {
            side: Side::Left,
            least: 0,
        }
    }

    /// A column of numbers, as wide as its widest cell.
    pub fn right() -> Column
        ensures { result ≡ record { side = Side.Right; least = 0 } }
    {
        Column {
            side: Side::Right,
            least: 0,
        }
    }
}

/// A cell of a row. A row that ends before has an empty one.
fn cell(row: &Names, column: usize) -> &[u8]
    ensures { result.now ≡ cell_of column row.now }
{
    match row.items().get(column) {
        Some(name) => name.bytes(),
        None => b"",
    }
}

/// How wide a column is: as its widest cell, and at least so many bytes.
pub(crate) fn width_of(least: usize, column: usize, rows: &[Names]) -> usize
    ensures { result ≡ width_of least column rows.now }
{
    let mut width = least;
    for row in rows {
        width = width.max(cell(row, column).len());
    }
    width
}

/// Writes so many blanks.
fn put_blanks(line: &mut Lines, count: usize) -> Result<(), OutOfMemory>
    ensures { OnOk result (line.new ≡ line.old ++ blanks count) }
{
    for _turn in 0..count {
        line.put(b" ")?;
    }
    Ok(())
}

/// Writes a cell with blanks up to the width of its column.
fn put_padded(line: &mut Lines, side: Side, width: usize, cell: &[u8]) -> Result<(), OutOfMemory>
    ensures { OnOk result (line.new ≡ line.old ++ padded side width cell.now) }
{
    let count = width.saturating_sub(cell.len());
    match side {
        Side::Left => {
            line.put(cell)?;
            put_blanks(line, count)
        }
        Side::Right => {
            put_blanks(line, count)?;
            line.put(cell)
        }
    }
}

/// Writes a cell of a row after two blanks.
pub(crate) fn put_cell(
    line: &mut Lines,
    side: Side,
    width: usize,
    row: &Names,
    column: usize,
) -> Result<(), OutOfMemory>
    ensures { OnOk result (line.new ≡ line.old ++ (blanks 2 ++ padded side width (cell_of column row.now))) }
{
    line.put(b"  ")?;
    put_padded(line, side, width, cell(row, column))
}

/// Where a line ends without the blanks at its end.
#[tactic(auto, using(crate::proofs::LineLaws::end_less, crate::proofs::LineLaws::end_whole))]
pub(crate) fn end_of(line: &[u8]) -> usize
    ensures value { take result line.now ≡ trimmed line.now }
    ensures within { result ≤ length line.now }
{
    let mut end = line.len();
    while end > 0 && line[end - 1] == b' ' {
        end -= 1;
    }
    end
}
