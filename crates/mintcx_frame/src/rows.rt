//! How many rows of a list are shown.
ghost use Rattle.std.specs.Prelude.{◌≡◌, ◌≤◌, ◌++◌, OnOk};
ghost use Rattle.mintcx_frame.specs.Rows.{left_text, more_text, shown_rows};

use crate::cells::put_number;
use mintc_text::{Lines, OutOfMemory};
use mintcx_manners::Limit;

/// How many rows of so many are shown.
pub fn shown_rows(limit: Limit, count: usize) -> usize
    ensures value { result ≡ shown_rows limit count }
    ensures few { result ≤ count }
{
    match limit {
        Limit::All => count,
        Limit::Rows(most) => count.min(most as usize),
    }
}

/// Writes the line for so many rows that are left out; nothing for none.
fn put_left(lines: &mut Lines, left: u64) -> Result<(), OutOfMemory>
    ensures { OnOk result (lines.new ≡ lines.old ++ left_text left) }
{
    if left == 0 {
        return Ok(());
    }
    lines.put(b"  ")?;
    put_number(lines, left)?;
    lines.put(b" more (--limit all)\n")
}

/// Writes the line for those of so many rows that a limit leaves out, as `  6 more (--limit all)`; nothing where it
/// leaves out none.
pub fn put_more(lines: &mut Lines, limit: Limit, count: usize) -> Result<(), OutOfMemory>
    ensures { OnOk result (lines.new ≡ lines.old ++ more_text limit count) }
{
    put_left(lines, (count - shown_rows(limit, count)) as u64)
}
