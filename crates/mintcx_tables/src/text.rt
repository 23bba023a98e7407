//! The text of a design's table.
ghost use Rattle.std.specs.Prelude.{◌≡◌, ◌++◌, IfOk, OnOk};
ghost use Rattle.mintc_text.specs.Lines.{text_of};
ghost use Rattle.mintcx_tables.specs.Lines.{table_lines};
ghost use Rattle.mintcx_tables.specs.Obstacles.{HasNames};
ghost use Rattle.mintcx_tables.specs.Tables.{IsTableOf};

use crate::parts::{put_arcs, put_bounds, put_count, put_elements, put_phases};
use mintc_text::{Bytes, Lines, OutOfMemory};
use mintc_timing::Flat;
use mintc_timing_text::table_texts_are_their_lines;
use std::alloc::Global;

/// Writes the lines of a design.
fn put_design(lines: &mut Lines, flat: &Flat) -> Result<(), OutOfMemory>
    ensures { OnOk result (lines.new ≡ lines.old ++ text_of (table_lines flat.now)) }
{
    lines.put(b"table 3\n")?;
    put_phases(lines, flat.phases().items())?;
    put_elements(lines, flat.elements())?;
    put_count(lines, b"inner", flat.inner().items().len())?;
    put_arcs(lines, flat.arcs(), flat.element_count())?;
    put_bounds(lines, flat.bounds())?;
    lines.put(b"end\n")
}

/// The table of a design of which `obstacle_of` is None. Its inner bits are called by their numbers.
pub fn table_text(alloc: Global, flat: &Flat) -> Result<Bytes, OutOfMemory>
    requires { HasNames flat.now }
    ensures { IfOk result (IsTableOf flat.now) }
{
    let _kept = flat.bit_count();
    let mut lines = Lines::new(alloc);
    put_design(&mut lines, flat)?;
    table_texts_are_their_lines();
    Ok(Bytes::new(lines.into_bytes()))
}
