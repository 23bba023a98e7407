//! What a clock comes through to a latch or flop that is on no phase.
ghost use Rattle.std.specs.Prelude.{IfOk, IfSome};
ghost use Rattle.mintcx_finders.specs.Places.{IsRange};

use crate::described::{Passing, description_of};
use mintc_cells::{Cell, Cells, read_cells};
use mintc_liberty::read_liberty;
use mintc_text::limits::MOST_BYTES;
use mintc_text::{OutOfMemory, Stop};
use mintcx_finders::{Fault, Found, Through, clockless, name_of};
use std::alloc::Global;

/// Which pins the gate has that a clock comes through.
#[derive(Clone, Copy, Debug, PartialEq, Eq)]
pub(crate) enum Pins {
    /// No input.
    Tied,
    /// One input and one output.
    Pair,
    /// Others, or there is no such gate.
    Others,
}

/// How a clock comes to a latch or flop that is on no phase.
#[derive(Clone, Copy, Debug)]
pub(crate) struct Way {
    pub(crate) pins: Pins,
    /// Whether it comes through cells of the clock last.
    pub(crate) is_passed: bool,
}

/// A latch or flop that is on no phase, and how its clock comes to it.
#[derive(Clone, Copy)]
pub(crate) struct Carried {
    pub(crate) found: Found,
    pub(crate) way: Way,
}

/// The cells that something was read of. None where it is refused.
fn read(cells: Result<Cells, Stop>) -> Result<Option<Cells>, OutOfMemory> {
    match cells {
        Ok(cells) => Ok(Some(cells)),
        Err(Stop::Refused(_)) => Ok(None),
        Err(Stop::OutOfMemory) => Err(OutOfMemory),
    }
}

/// The cells of a library. None of another text.
fn library_cells(alloc: Global, text: &[u8]) -> Result<Option<Cells>, OutOfMemory> {
    if text.len() > MOST_BYTES {
        return Ok(None);
    }
    read(read_liberty(alloc, text))
}

/// The cells of a cell description. None of another text.
fn described_cells(alloc: Global, text: &[u8]) -> Result<Option<Cells>, OutOfMemory> {
    if text.len() > MOST_BYTES {
        return Ok(None);
    }
    read(read_cells(alloc, text))
}

/// The latch or flop of a number that is on no phase, and the first cell back from it that isn't passed.
fn traced(
    alloc: Global,
    file: &[u8],
    cells: &Cells,
    passing: Passing,
    element: u32,
) -> Result<Option<Found>, OutOfMemory>
    ensures { IfOk result (λ o. IfSome o (λ found. IsRange file.now found.range)) }
{
    match description_of(alloc, cells, passing)? {
        Some(text) => clockless(alloc, file, text.items(), element),
        None => Ok(None),
    }
}

/// The cell that a clock comes through.
fn through_of(found: Option<Found>) -> Option<Through> {
    match found {
        Some(
            Found {
                fault: Fault::Unclocked { unclocked },
                ..
            },
        ) => unclocked.through,
        _ => None,
    }
}

/// Where the name of the instance begins that a clock comes through.
fn place_of(found: Option<Found>) -> Option<usize> {
    match through_of(found) {
        Some(through) => Some(through.name.from),
        None => None,
    }
}

/// Which pins the gate has that a clock comes through.
fn pins_of(file: &[u8], cells: &Cells, found: Option<Found>) -> Pins {
    let Some(through) = through_of(found) else {
        return Pins::Others;
    };
    let Some(number) = cells.find(name_of(file, &through.cell)) else {
        return Pins::Others;
    };
    match cells.cell(number) {
        Cell::Gate {
            inputs,
            outputs,
            ..
        } => match (inputs.items(), outputs.items()) {
            ([], _) => Pins::Tied,
            ([_], [_]) => Pins::Pair,
            _ => Pins::Others,
        },
        Cell::Latch { .. } | Cell::Flop { .. } | Cell::Clock { .. } => Pins::Others,
    }
}

/// The way that a clock comes by, if its latch or flop is found.
fn carried_so(file: &[u8], cells: &Cells, found: Option<Found>, is_passed: bool) -> Option<Carried>
    requires { IfSome found (λ f. IsRange file.now f.range) }
    ensures { IfSome result (λ c. IsRange file.now c.found.range) }
{
    let pins = pins_of(file, cells, found);
    match found {
        Some(found) => Some(Carried {
            found,
            way: Way { pins, is_passed },
        }),
        None => None,
    }
}

/// The way with the cells of a library. A gate of one input and one output may be named as a cell of the clock, which
/// isn't known here: so it is the one at fault only where none of the others is.
fn carried_in_library(
    alloc: Global,
    file: &[u8],
    cells: &Cells,
    element: u32,
) -> Result<Option<Carried>, OutOfMemory>
    ensures { IfOk result (λ o. IfSome o (λ c. IsRange file.now c.found.range)) }
{
    let far = traced(alloc, file, cells, Passing::Pairs, element)?;
    if through_of(far).is_some() {
        return Ok(carried_so(file, cells, far, false));
    }
    let near = traced(alloc, file, cells, Passing::Clocks, element)?;
    Ok(carried_so(file, cells, near, false))
}

/// The way with the cells of a cell description.
fn carried_in_description(
    alloc: Global,
    file: &[u8],
    cells: &Cells,
    element: u32,
) -> Result<Option<Carried>, OutOfMemory>
    ensures { IfOk result (λ o. IfSome o (λ c. IsRange file.now c.found.range)) }
{
    let found = traced(alloc, file, cells, Passing::Clocks, element)?;
    let last = traced(alloc, file, cells, Passing::Nothing, element)?;
    let is_passed = place_of(found) != place_of(last);
    Ok(carried_so(file, cells, found, is_passed))
}

/// The latch or flop of a number that is on no phase, by the text of a library or of a cell description, and how its
/// clock comes to it. None where it isn't found.
pub(crate) fn clock_of(
    alloc: Global,
    file: &[u8],
    beside: &[u8],
    element: u32,
) -> Result<Option<Carried>, OutOfMemory>
    ensures { IfOk result (λ o. IfSome o (λ c. IsRange file.now c.found.range)) }
{
    if let Some(cells) = library_cells(alloc, beside)? {
        return carried_in_library(alloc, file, &cells, element);
    }
    match described_cells(alloc, beside)? {
        Some(cells) => carried_in_description(alloc, file, &cells, element),
        None => Ok(None),
    }
}
