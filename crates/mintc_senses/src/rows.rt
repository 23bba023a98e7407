//! The senses of the inputs of a cell for one output.
ghost use Rattle.std.specs.Prelude.{◌≡◌, ◌-◌, ◌<◌, ◌++◌, ◌∷◌, codes, map, Some, None, IfOk, OnOk, option_map, bytes_eq};
ghost use Rattle.std.specs.Prelude.{unwrap_or};
ghost use Rattle.mintc_cells.specs.Rules.{inputs_of};
ghost use Rattle.mintc_liberty_tokens.specs.Statements.{front};
ghost use Rattle.mintc_liberty_cell.specs.Meaning.{groups};
ghost use Rattle.mintc_senses_expressions.specs.Transitions.{all_transitions};
ghost use Rattle.mintc_senses.specs.Senses.{pin_inside, function_in, gate_sense, first_named, keeper_sense, sense_in};
ghost use Rattle.mintc_senses.specs.Seen.{inside_or_none, from_data, any_sense};

use crate::groups::first_named;
use crate::keepers::keeper_sense;
use crate::outputs::{Output, gate_sense, output_of};
use mintc_cells::Cell;
use mintc_liberty_tokens::Reader;
use mintc_senses_expressions::Transitions;
use mintc_text::{Name, Names, OutOfMemory};
use std::alloc::Global;

/// How deep groups nest in a cell, which stands in the library.
pub(crate) const MOST_OPEN: u32 = 62;

/// The senses of a gate's inputs.
fn gate_row(
    alloc: Global,
    output: &Output,
    inputs: &Names,
    room: u32,
) -> Result<Vec<Transitions>, OutOfMemory>
    requires room { 0 < room }
    requires function { option_map (λ v. v.items) output.now.function
        ≡ function_in (inside_or_none room output.now.inside) }
    ensures { IfOk result (λ r. r.items ≡ map (gate_sense (inside_or_none room output.now.inside)) inputs.now) }
{
    let inputs = inputs.items();
    let mut row = Vec::with_capacity(alloc, inputs.len())?;
    for input in inputs {
        row.push(gate_sense(alloc, output, input.bytes(), room)?)?;
    }
    Ok(row)
}

/// The sense of a pin of a latch or flop: that of the data pin, or all.
fn from_data(pin: &Name, data_pin: &Name, sense: Transitions) -> Transitions
    ensures { result ≡ from_data data_pin.now sense pin.now }
{
    if pin.bytes() == data_pin.bytes() {
        sense
    } else {
        Transitions::all()
    }
}

/// The senses of the pins of a latch or flop, by that of its data pin.
fn stored_row(
    alloc: Global,
    data_pin: &Name,
    control: &Name,
    ignored: &Names,
    sense: Transitions,
) -> Result<Vec<Transitions>, OutOfMemory>
    ensures { IfOk result (λ r. r.items
        ≡ map (from_data data_pin.now sense) (data_pin.now ∷ control.now ∷ ignored.now)) }
{
    let mut row = Vec::new(alloc);
    row.push(from_data(data_pin, data_pin, sense))?;
    row.push(from_data(control, data_pin, sense))?;
    let ignored = ignored.items();
    for pin in ignored {
        row.push(from_data(pin, data_pin, sense))?;
    }
    Ok(row)
}

/// The sense of any pin of a clock cell.
fn any_sense(_pin: &Name) -> Transitions
    ensures { result ≡ any_sense _pin.now }
{
    Transitions::all()
}

/// All transitions for each of the inputs of a clock cell.
fn all_row(alloc: Global, input: &Name, ignored: &Names) -> Result<Vec<Transitions>, OutOfMemory>
    ensures { IfOk result (λ r. r.items ≡ map any_sense (input.now ∷ ignored.now)) }
{
    let mut row = Vec::new(alloc);
    row.push(any_sense(input))?;
    let ignored = ignored.items();
    for pin in ignored {
        row.push(any_sense(pin))?;
    }
    Ok(row)
}

/// The sense of the data pin of a latch or flop.
fn stored_sense(
    alloc: Global,
    inside: &Reader,
    kind: &[u8],
    key: &[u8],
    data_pin: &Name,
    output: &Output,
) -> Result<Transitions, OutOfMemory>
    ensures { IfOk result (λ t. t ≡ unwrap_or (keeper_sense key.now data_pin.now
        (option_map (λ v. v.items) output.now.function)
        (first_named kind.now (groups (front 62 inside.now).statements))) all_transitions) }
{
    let Some(group) = first_named(inside, kind, MOST_OPEN) else {
        return Ok(Transitions::all());
    };
    match keeper_sense(
        alloc,
        &group,
        key,
        data_pin.bytes(),
        &output.function,
        MOST_OPEN - 1,
    )? {
        Some(sense) => Ok(sense),
        None => Ok(Transitions::all()),
    }
}

/// The senses of the inputs of a cell for one output, by what stands in the cell's group.
pub(crate) fn row(
    alloc: Global,
    inside: &Reader,
    cell: &Cell,
    output: &Name,
) -> Result<Vec<Transitions>, OutOfMemory>
    ensures { IfOk result (λ r. r.items
        ≡ map (λ a. sense_in (groups (front 62 inside.now).statements) cell.now a output.now) (inputs_of cell.now)) }
{
    let said = output_of(alloc, inside, output.bytes(), MOST_OPEN)?;
    match cell {
        Cell::Gate { inputs, .. } => gate_row(alloc, &said, inputs, MOST_OPEN - 1),
        Cell::Latch {
            pin_d,
            pin_g,
            ignored,
            ..
        } => {
            let sense = stored_sense(alloc, inside, b"latch", b"data_in", pin_d, &said)?;
            stored_row(alloc, pin_d, pin_g, ignored, sense)
        }
        Cell::Flop {
            pin_d,
            pin_clock,
            ignored,
            ..
        } => {
            let sense = stored_sense(alloc, inside, b"ff", b"next_state", pin_d, &said)?;
            stored_row(alloc, pin_d, pin_clock, ignored, sense)
        }
        Cell::Clock { input, ignored, .. } => all_row(alloc, input, ignored),
    }
}
