//! Gates that can carry the clock.
ghost use Rattle.std.specs.Prelude.{◌≡◌, ◌<◌, length, Some, None, IfOk, MatchOption};
ghost use Rattle.mintcx_clock_cells.specs.Clocks.{alone, inverts, clock_between, clock_at};

use crate::copies::copied;
use mintc_cells::{Cell, Cells};
use mintc_senses::Senses;
use mintc_senses_expressions::Transitions;
use mintc_text::{Name, Names, OutOfMemory};
use std::alloc::Global;

/// The name that stands alone among names.
fn alone(names: &Names) -> Option<&Name>
    ensures { MatchOption result (alone names.now ≡ None) (λ name. alone names.now ≡ Some name.now) }
{
    match names.items() {
        [name] => Some(name),
        _ => None,
    }
}

/// Whether a sense turns edges, where it turns all or none.
fn inverts(sense: Transitions) -> Option<bool>
    ensures { result ≡ inverts sense }
{
    match (
        sense.rise_to_rise,
        sense.rise_to_fall,
        sense.fall_to_rise,
        sense.fall_to_fall,
    ) {
        (true, false, false, true) => Some(false),
        (false, true, true, false) => Some(true),
        _ => None,
    }
}

/// The cell of the clock that a gate with these pins can be, by the sense of its input and output.
fn clock_gate(
    alloc: Global,
    inputs: &Names,
    outputs: &Names,
    sense: Transitions,
) -> Result<Option<Cell>, OutOfMemory>
    ensures { IfOk result (λ cell. cell ≡ clock_between (inverts sense) (alone inputs.now) (alone outputs.now)) }
{
    let Some(invert) = inverts(sense) else {
        return Ok(None);
    };
    let Some(input) = alone(inputs) else {
        return Ok(None);
    };
    let Some(output) = alone(outputs) else {
        return Ok(None);
    };
    Ok(Some(Cell::Clock {
        input: input.copy(alloc)?,
        output: output.copy(alloc)?,
        invert,
        ignored: Names::new(Vec::new(alloc)),
    }))
}

/// The cell of the clock that the cell of a number can be.
pub(crate) fn clock_cell(
    alloc: Global,
    cells: &Cells,
    senses: &Senses,
    number: u32,
) -> Result<Option<Cell>, OutOfMemory>
    requires { number < length cells.now }
    ensures { IfOk result (λ cell. cell ≡ clock_at senses.now cells.now number) }
{
    let sense = senses.sense(number, 0, 0);
    let cell = cells.cell(number);
    match cell {
        Cell::Gate {
            inputs,
            outputs,
            ..
        } => clock_gate(alloc, inputs, outputs, sense),
        Cell::Clock { .. } => Ok(Some(copied(alloc, cell)?)),
        Cell::Latch { .. } | Cell::Flop { .. } => Ok(None),
    }
}
