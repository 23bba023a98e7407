//! Cells as a description that is scanned by its lines: their kinds, and those of their pins that a clock goes by.

use mintc_cells::{Cell, Cells};
use mintc_text::{Bytes, Lines, Name, Names, OutOfMemory};
use std::alloc::Global;

/// Which cells a way back from an enable or clock pin passes.
#[derive(Clone, Copy, PartialEq, Eq)]
pub(crate) enum Passing {
    /// None of them.
    Nothing,
    /// Cells of the clock.
    Clocks,
    /// These, and gates of one input and one output.
    Pairs,
}

/// Whether a name stands between quotes as it is.
fn is_plain(name: &[u8]) -> bool {
    !name.contains(&b'"') && !name.contains(&b'\\')
}

/// Writes a name in quotes, or none where it doesn't stand there as it is.
fn put_quoted(out: &mut Lines, name: &Name) -> Result<(), OutOfMemory> {
    out.put(b"\"")?;
    if is_plain(name.bytes()) {
        out.put(name.bytes())?;
    }
    out.put(b"\"")
}

/// Writes a key and the pin that it says.
fn put_pin(out: &mut Lines, key: &[u8], pin: &Name) -> Result<(), OutOfMemory> {
    out.put(key)?;
    put_quoted(out, pin)?;
    out.put(b"\n")
}

/// Writes the outputs of a cell.
fn put_outputs(out: &mut Lines, outputs: &Names) -> Result<(), OutOfMemory> {
    let mut before: &[u8] = b"outputs = [";
    for output in outputs.items() {
        out.put(before)?;
        put_quoted(out, output)?;
        before = b", ";
    }
    out.put(b"]\n")
}

/// Writes a cell of the clock.
fn put_clock(out: &mut Lines, input: &Name, output: &Name) -> Result<(), OutOfMemory> {
    out.put(b"kind = \"clock\"\n")?;
    put_pin(out, b"input = ", input)?;
    put_pin(out, b"output = ", output)
}

/// Writes a gate, as a cell of the clock where a way back passes it.
fn put_gate(
    out: &mut Lines,
    inputs: &Names,
    outputs: &Names,
    passing: Passing,
) -> Result<(), OutOfMemory> {
    match (inputs.items(), outputs.items()) {
        ([input], [output]) if passing == Passing::Pairs => put_clock(out, input, output),
        _ => {
            out.put(b"kind = \"gate\"\n")?;
            put_outputs(out, outputs)
        }
    }
}

/// Writes a cell behind its heading.
fn put_cell(out: &mut Lines, cell: &Cell, passing: Passing) -> Result<(), OutOfMemory> {
    match cell {
        Cell::Gate {
            inputs,
            outputs,
            ..
        } => put_gate(out, inputs, outputs, passing),
        Cell::Latch { pin_g, outputs, .. } => {
            out.put(b"kind = \"latch\"\n")?;
            put_pin(out, b"g = ", pin_g)?;
            put_outputs(out, outputs)
        }
        Cell::Flop {
            pin_clock,
            outputs,
            ..
        } => {
            out.put(b"kind = \"flop\"\n")?;
            put_pin(out, b"clock = ", pin_clock)?;
            put_outputs(out, outputs)
        }
        Cell::Clock { output, .. } if passing == Passing::Nothing => {
            out.put(b"kind = \"gate\"\n")?;
            put_pin(out, b"output = ", output)
        }
        Cell::Clock { input, output, .. } => put_clock(out, input, output),
    }
}

/// A description of cells, as a way back sees them that passes some of them. None where a name doesn't stand in it as
/// it is.
pub(crate) fn description_of(
    alloc: Global,
    cells: &Cells,
    passing: Passing,
) -> Result<Option<Bytes>, OutOfMemory> {
    let mut lines = Lines::new(alloc);
    for number in 0..cells.count() {
        let name = cells.name(number);
        if !is_plain(name) {
            return Ok(None);
        }
        lines.put(b"[cell.\"")?;
        lines.put(name)?;
        lines.put(b"\"]\n")?;
        put_cell(&mut lines, cells.cell(number), passing)?;
    }
    Ok(Some(Bytes::new(lines.into_bytes())))
}
