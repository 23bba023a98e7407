//! A library's cells with gates for the clock.
ghost use Rattle.std.specs.Prelude.{◌≡◌, ◌≤◌, Ok, length, IfOk, IfErr};
ghost use Rattle.mintc_text.specs.declared.limits.TheConstants.{MOST_BYTES};
ghost use Rattle.mintc_liberty.specs.Meaning.{liberty_cells};
ghost use Rattle.mintcx_clock_cells.specs.Clocks.{HasClockCells, IsUnfit};
ghost use Rattle.mintcx_clock_cells.specs.Seen.{IsRefused};

use crate::choosing::{check_gates, with_clocks};
use crate::unfit::Unfit;
use mintc_cells::Cells;
use mintc_liberty::read_liberty;
use mintc_senses::read_senses;
use mintc_text::{Name, Stop};
use std::alloc::Global;

/// The cells of a library's text.
fn own_cells(alloc: Global, text: &[u8]) -> Result<Cells, Unfit>
    requires { length text.now ≤ MOST_BYTES }
    ensures cells { IfOk result (λ cells. liberty_cells text.now ≡ Ok cells) }
    ensures refused { IfErr result (IsRefused text.now) }
{
    match read_liberty(alloc, text) {
        Ok(cells) => Ok(cells),
        Err(Stop::Refused(refusal)) => Err(Unfit::Refused(refusal)),
        Err(Stop::OutOfMemory) => Err(Unfit::OutOfMemory),
    }
}

/// The cells of a Liberty library's text, with each gate of these names as a cell of the clock: one input and one
/// output, which always follows the input or always is its opposite. A cell that is one of the clock already may be
/// named too, and stays. Refuses what the library's reader refuses, and the first name that no cell has, or whose cell
/// can't be one of the clock, by its number in the list, counted from 0.
pub fn clock_cells(alloc: Global, text: &[u8], gates: &[Name]) -> Result<Cells, Unfit>
    requires { length text.now ≤ MOST_BYTES }
    ensures cells { IfOk result (HasClockCells text.now gates.now) }
    ensures unfit { IfErr result (IsUnfit text.now gates.now) }
{
    let own = own_cells(alloc, text)?;
    if gates.is_empty() {
        return Ok(own);
    }
    let senses = read_senses(alloc, text, &own)?;
    check_gates(alloc, &own, &senses, gates)?;
    Ok(with_clocks(alloc, gates, &own, &senses)?)
}
