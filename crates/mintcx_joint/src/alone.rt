//! The table of the corners, with the cycle time that each needs alone.
ghost use Rattle.std.specs.Prelude.{◌≡◌, ◌<◌, ◌++◌, length, IfOk, OnOk};
ghost use Rattle.mintc_certificate.specs.Ranges.{IsCertificateInRange};
ghost use Rattle.mintcx_joint.specs.Alone.{alone_cells, alone_columns, alone_grid, alone_head, alone_text};
ghost use Rattle.mintcx_joint.specs.Alone.{corners_table, HasAlone};

use mintc_certificate::Certificate;
use mintc_text::{Lines, Name, Names, OutOfMemory};
use mintc_timing::System;
use mintcx_amounts::Unit;
use mintcx_columns::{Column, Table};
use mintcx_frame::{amount_cell, number_cell, word_cell};
use mintcx_optima::cycle_of;
use std::alloc::Global;

/// Corners of one design, in the order of their delay files: their systems, the names of the files, and the certificate
/// of the optimum of each corner alone.
#[derive(Clone, Copy)]
pub struct Corners<'a> {
    pub systems: &'a [System],
    pub names: &'a [Name],
    pub alone: &'a [Certificate],
}

/// The columns of the table.
fn alone_columns(alloc: Global) -> Result<Vec<Column>, OutOfMemory>
    ensures { IfOk result (λ columns. columns.items ≡ alone_columns) }
{
    let (left, right) = (Column::left(), Column::right());
    Ok(vec![in alloc; right, left, right]?)
}

/// Its first row.
fn alone_head(alloc: Global) -> Result<Names, OutOfMemory>
    ensures { IfOk result (λ row. row ≡ alone_head) }
{
    let corner = word_cell(alloc, b"corner")?;
    let delays = word_cell(alloc, b"delays")?;
    let alone = word_cell(alloc, b"cycle alone")?;
    Ok(Names::new(vec![in alloc; corner, delays, alone]?))
}

/// The cycle time that a corner needs alone, as a cell; a word where no schedule is right in it.
fn alone_cell(alloc: Global, certificate: &Certificate, unit: Unit) -> Result<Name, OutOfMemory>
    requires { IsCertificateInRange certificate.now }
    ensures { IfOk result (λ cell. cell ≡ alone_text unit certificate.now) }
{
    match certificate {
        Certificate::Least { schedule, .. } => amount_cell(alloc, &cycle_of(schedule), unit),
        Certificate::Never { .. } => word_cell(alloc, b"never"),
    }
}

/// The cells of a corner, counted from 0, of which the table tells the number from 1.
fn alone_cells(
    alloc: Global,
    corners: &Corners,
    unit: Unit,
    corner: usize,
) -> Result<Names, OutOfMemory>
    requires alone { HasAlone corners.now.systems.now corners.now.names.now corners.now.alone.now }
    requires corner { corner < length corners.now.names.now }
    ensures { IfOk result (λ cells. cells ≡ alone_cells unit corners.now.names.now corners.now.alone.now corner) }
{
    let number = number_cell(alloc, corner as u64 + 1)?;
    let delays = word_cell(alloc, corners.names[corner].bytes())?;
    let alone = alone_cell(alloc, &corners.alone[corner], unit)?;
    Ok(Names::new(vec![in alloc; number, delays, alone]?))
}

/// The table of the corners.
fn alone_table(alloc: Global, corners: &Corners, unit: Unit) -> Result<Table, OutOfMemory>
    requires { HasAlone corners.now.systems.now corners.now.names.now corners.now.alone.now }
    ensures { IfOk result (λ table. table ≡ alone_grid unit corners.now.names.now corners.now.alone.now) }
{
    let mut table = Table::new(alloc, alone_columns(alloc)?);
    table.push(alone_head(alloc)?)?;
    for corner in 0..corners.names.len() {
        table.push(alone_cells(alloc, corners, unit, corner)?)?;
    }
    Ok(table)
}

/// Writes the table of the corners, a line each with the number, the name of the delay file and the cycle time that the
/// corner needs alone.
pub(crate) fn put_corners(
    lines: &mut Lines,
    alloc: Global,
    corners: &Corners,
    unit: Unit,
) -> Result<(), OutOfMemory>
    requires { HasAlone corners.now.systems.now corners.now.names.now corners.now.alone.now }
    ensures { OnOk result (lines.new ≡ lines.old ++ corners_table unit corners.now.names.now corners.now.alone.now) }
{
    let text = alone_table(alloc, corners, unit)?.text(alloc)?;
    lines.put(&text)
}
