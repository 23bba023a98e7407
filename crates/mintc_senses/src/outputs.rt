//! What is said of an output, and the senses of a gate's inputs.
ghost use Rattle.std.specs.Prelude.{◌≡◌, ◌-◌, ◌<◌, ◌&&◌, not, codes, Some, None, IfOk, IfNone, IfSome, MatchOption};
ghost use Rattle.std.specs.Prelude.{option_map};
ghost use Rattle.mintc_liberty_tokens.specs.Statements.{Statements, front, none};
ghost use Rattle.mintc_liberty_cell.specs.Meaning.{groups};
ghost use Rattle.mintc_liberty_cell.specs.Seen.{group_seen};
ghost use Rattle.mintc_senses.specs.Senses.{is_pin_of, pin_inside, function_in, by_function, gate_sense};
ghost use Rattle.mintc_senses.specs.Seen.{inside_or_none};

use crate::groups::has_name;
use crate::timings::by_timing;
use crate::values::value_of;
use mintc_liberty_cell::{Group, next_group, says};
use mintc_liberty_tokens::Reader;
use mintc_senses_expressions::{Transitions, function_sense};
use mintc_text::OutOfMemory;
use std::alloc::Global;

/// Whether a group is one of pins that aren't inside the cell, with this one among them.
fn is_pin_of(group: &Group, pin: &[u8], room: u32) -> bool
    ensures { result ≡ is_pin_of pin.now (group_seen room group.now) }
{
    group.name == b"pin".as_slice()
        && !says(&group.inside, b"direction", b"internal", room)
        && has_name(&group.items, pin)
}

/// What begins with what is said of a pin.
fn pin_inside<'a>(inside: &Reader<'a>, pin: &[u8], room: u32) -> Option<Reader<'a>>
    requires { 0 < room }
    ensures { inside_or_none (room - 1) result ≡ pin_inside (groups (front room inside.now).statements) pin.now }
{
    let mut reader = inside.copy();
    while let Some(group) = next_group(&mut reader, room) {
        if is_pin_of(&group, pin, room - 1) {
            return Some(group.inside);
        }
    }
    None
}

/// What is said of an output: what begins with it, and its function.
#[derive(Drop)]
pub(crate) struct Output<'a> {
    pub inside: Option<Reader<'a>>,
    pub function: Option<Vec<u8>>,
}

/// What is said of an output of a cell.
pub(crate) fn output_of<'a>(
    alloc: Global,
    inside: &Reader<'a>,
    pin: &[u8],
    room: u32,
) -> Result<Output<'a>, OutOfMemory>
    requires { 0 < room }
    ensures inside { IfOk result (λ o. inside_or_none (room - 1) o.inside
        ≡ pin_inside (groups (front room inside.now).statements) pin.now) }
    ensures function { IfOk result (λ o. option_map (λ v. v.items) o.function
        ≡ function_in (pin_inside (groups (front room inside.now).statements) pin.now)) }
{
    let here = pin_inside(inside, pin, room);
    let function = match &here {
        Some(here) => value_of(alloc, here, b"function", room - 1)?,
        None => None,
    };
    Ok(Output {
        inside: here,
        function,
    })
}

/// The transitions of an input by a function, where it is an expression that has the input.
fn by_function(
    alloc: Global,
    function: &Option<Vec<u8>>,
    input: &[u8],
) -> Result<Option<Transitions>, OutOfMemory>
    ensures { IfOk result (λ o. o ≡ by_function input.now (option_map (λ v. v.items) function.now)) }
{
    match function {
        Some(text) => function_sense(alloc, text, input),
        None => Ok(None),
    }
}

/// The sense of an input of a gate, where groups nest so deep at most in what is said of the output.
pub(crate) fn gate_sense(
    alloc: Global,
    output: &Output,
    input: &[u8],
    room: u32,
) -> Result<Transitions, OutOfMemory>
    requires room { 0 < room }
    requires function { option_map (λ v. v.items) output.now.function
        ≡ function_in (inside_or_none room output.now.inside) }
    ensures { IfOk result (λ t. t ≡ gate_sense (inside_or_none room output.now.inside) input.now) }
{
    if let Some(sense) = by_function(alloc, &output.function, input)? {
        return Ok(sense);
    }
    let Some(inside) = &output.inside else {
        return Ok(Transitions::all());
    };
    let sense = by_timing(alloc, inside, input, room)?;
    if sense.has_some() {
        Ok(sense)
    } else {
        Ok(Transitions::all())
    }
}
