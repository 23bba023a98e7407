//! The arcs of a path, in words.
ghost use Rattle.std.specs.Prelude.{◌≡◌, ◌<◌, ◌++◌, length, OnOk};
ghost use Rattle.mintc_timing.specs.Design.{element_count};
ghost use Rattle.mintcx_chain.specs.Gates.{gate_of as gate_on};
ghost use Rattle.mintcx_reports.specs.Hops.{arc_text, cell_at, cell_text, end_name, pins_text};

use crate::told::Told;
use mintc_text::{Lines, Name, OutOfMemory};
use mintc_timing::{Flat, TimingArc};
use mintcx_chain::{bit_name, gate_of, short_name};

/// Writes the pins that an arc joins.
fn put_pins(lines: &mut Lines, flat: &Flat, arc: &TimingArc) -> Result<(), OutOfMemory>
    ensures { OnOk result (lines.new ≡ lines.old ++ pins_text flat.now arc.now) }
{
    lines.put(short_name(bit_name(flat, arc.from)))?;
    lines.put(b" -> ")?;
    lines.put(short_name(bit_name(flat, arc.to)))
}

/// The cell of the arc of a number, by the cells of all arcs; empty past the last.
fn cell_at(cells: &[Name], number: u32) -> &[u8]
    ensures { result.now ≡ cell_at cells.now number }
{
    match cells.get(number as usize) {
        Some(cell) => cell.bytes(),
        None => b"",
    }
}

/// Writes the cell of a gate and the pins that its arc joins; nothing where the cell has no name.
fn put_cell(lines: &mut Lines, flat: &Flat, cell: &[u8], arc: &TimingArc) -> Result<(), OutOfMemory>
    ensures { OnOk result (lines.new ≡ lines.old ++ cell_text flat.now cell.now arc.now) }
{
    if cell.is_empty() {
        return Ok(());
    }
    lines.put(b"  ")?;
    lines.put(cell)?;
    lines.put(b" ")?;
    put_pins(lines, flat, arc)
}

/// What a bit is called on the way to an element: its own name, or where it has none the element's.
fn end_name(flat: &Flat, element: u32, bit: u32) -> &[u8]
    requires { element < element_count flat.now }
    ensures { result.now ≡ end_name flat.now element bit }
{
    let name = bit_name(flat, bit);
    if name.is_empty() {
        flat.element(element).name.bytes()
    } else {
        name
    }
}

/// Writes what an arc on the way to an element is: of a gate its name and its cell, else a wire to a bit.
pub(crate) fn put_arc(
    lines: &mut Lines,
    told: &Told,
    number: u32,
    element: u32,
) -> Result<(), OutOfMemory>
    requires arc { number < length told.now.flat.now.arcs }
    requires element { element < element_count told.now.flat.now }
    ensures { OnOk result (lines.new ≡ lines.old ++ arc_text told.now.flat.now told.now.cells.now element number
        (gate_on told.now.flat.now number)) }
{
    let arc = &told.flat.arcs()[number as usize];
    match gate_of(told.flat, number) {
        Some(gate) => {
            lines.put(gate)?;
            put_cell(lines, told.flat, cell_at(told.cells, number), arc)
        }
        None => {
            lines.put(b"to ")?;
            lines.put(end_name(told.flat, element, arc.to))
        }
    }
}
