//! The cell of a group.
ghost use Rattle.std.specs.Prelude.{◌≡◌, ◌<◌, ◌-◌, ◌&&◌, codes, length, nat_le, Some, None, true, IfOk, IfSome, IfNone};
ghost use Rattle.std.specs.Prelude.{option_map};
ghost use Rattle.mintc_cells.specs.Rules.{is_cell};
ghost use Rattle.mintc_liberty_cell.specs.Expressions.{expression};
ghost use Rattle.mintc_liberty_tokens.specs.Statements.{front};
ghost use Rattle.mintc_liberty_cell.specs.Seen.{group_seen, pins_seen};
ghost use Rattle.mintc_liberty_cell.specs.Held.{held, cell_held, is_between, has_counts};
ghost use Rattle.mintc_liberty_cell.specs.Meaning.{last_value, inputs, outputs, others, stores, latch_by, flop_by};
ghost use Rattle.mintc_liberty_cell.specs.Meaning.{clock_by, gate_by, stateless, keeper_by, with_role, only, kept};
ghost use Rattle.mintc_liberty_cell.specs.Meaning.{cell_of};
ghost use Rattle.mintc_liberty_cell.specs.declared.pins.Role.TheVariants as role;

use crate::expressions::{Literal, expression};
use crate::groups::Group;
use crate::parts::{Parts, parts_of};
use crate::pins::{Pin, Role, names, only, others};
use crate::values::last_value;
use mintc_cells::Cell;
use mintc_liberty_tokens::Reader;
use mintc_text::{Name, Names, OutOfMemory};
use std::alloc::Global;

/// A control pin, plain or inverted, and another pin for the data.
#[derive(Clone, Copy)]
struct Stored<'a> {
    control: Literal<'a>,
    data_pin: &'a [u8],
}

/// The expression that the last attribute of a name is, directly in the group that the reader stands in.
fn last_expression<'a>(
    alloc: Global,
    pins: &[Pin<'a>],
    inside: &Reader,
    key: &[u8],
    room: u32,
) -> Result<Option<Literal<'a>>, OutOfMemory>
    ensures none { IfOk result
        (λ o. IfNone o (expression (inputs (pins_seen pins.now)) (last_value key.now (front room inside.now).statements)
        ≡ None)) }
    ensures some { IfOk result
        (λ o. IfSome o (λ l. expression (inputs (pins_seen pins.now))
        (last_value key.now (front room inside.now).statements) ≡ Some (l.name.now, l.is_plain))) }
{
    let value = last_value(inside, key, room);
    expression(alloc, pins, &value)
}

/// The two pins that two attributes of a group name.
fn stores<'a>(
    alloc: Global,
    pins: &[Pin<'a>],
    inside: &Reader,
    control_key: &[u8],
    data_key: &[u8],
    room: u32,
) -> Result<Option<Stored<'a>>, OutOfMemory>
    ensures none { IfOk result
        (λ o. IfNone o (stores (pins_seen pins.now) control_key.now data_key.now (front room inside.now).statements
        ≡ None)) }
    ensures some { IfOk result
        (λ o. IfSome o (λ s. stores (pins_seen pins.now) control_key.now data_key.now (front room inside.now).statements
        ≡ Some ((s.control.name.now, s.control.is_plain), s.data_pin.now))) }
{
    let Some(control) = last_expression(alloc, pins, inside, control_key, room)? else {
        return Ok(None);
    };
    let Some(stored) = last_expression(alloc, pins, inside, data_key, room)? else {
        return Ok(None);
    };
    if control.name == stored.name {
        return Ok(None);
    }
    Ok(Some(Stored {
        control,
        data_pin: stored.name,
    }))
}

/// The pins of a latch or a flop: that of the data, that of the control, the outputs, and the inputs that are neither.
#[derive(Drop)]
struct Wires {
    data: Name,
    control: Name,
    outputs: Names,
    ignored: Names,
}

/// Two names.
fn two_names(alloc: Global, one: &[u8], two: &[u8]) -> Result<(Name, Name), OutOfMemory>
    ensures { IfOk result (λ ns. (ns.0 ≡ one.now) × (ns.1 ≡ two.now)) }
{
    let first = Name::new(alloc, one)?;
    Ok((first, Name::new(alloc, two)?))
}

/// The pins of a latch or a flop.
fn wires_of(alloc: Global, pins: &[Pin], stored: &Stored) -> Result<Wires, OutOfMemory>
    ensures { IfOk result (λ w. (w.data ≡ stored.now.data_pin.now) × (w.control ≡ stored.now.control.name.now)
        × (w.outputs ≡ outputs (pins_seen pins.now))
        × (w.ignored ≡ others stored.now.data_pin.now stored.now.control.name.now (inputs (pins_seen pins.now)))) }
{
    let outputs = names(alloc, pins, Role::Output)?;
    let ignored = others(alloc, pins, stored.data_pin, stored.control.name)?;
    let (data, control) = two_names(alloc, stored.data_pin, stored.control.name)?;
    Ok(Wires {
        data,
        control,
        outputs,
        ignored,
    })
}

/// A latch without numbers.
fn latch(alloc: Global, pins: &[Pin], stored: &Stored) -> Result<Cell, OutOfMemory>
    ensures { IfOk result
        (λ cell. cell ≡ latch_by (pins_seen pins.now) (
          (stored.now.control.name.now, stored.now.control.is_plain),
          stored.now.data_pin.now,
        )) }
{
    let wires = wires_of(alloc, pins, stored)?;
    Ok(Cell::Latch {
        pin_d: wires.data,
        pin_g: wires.control,
        high: stored.control.is_plain,
        outputs: wires.outputs,
        ignored: wires.ignored,
        setup: 0,
        hold: 0,
        has_hold: false,
        dq_min: 0,
        dq_max: 0,
        cq_min: 0,
        cq_max: 0,
        has_cq: false,
        width: 0,
    })
}

/// A flop without numbers.
fn flop(alloc: Global, pins: &[Pin], stored: &Stored) -> Result<Cell, OutOfMemory>
    ensures { IfOk result
        (λ cell. cell ≡ flop_by (pins_seen pins.now) (
          (stored.now.control.name.now, stored.now.control.is_plain),
          stored.now.data_pin.now,
        )) }
{
    let wires = wires_of(alloc, pins, stored)?;
    Ok(Cell::Flop {
        pin_d: wires.data,
        pin_clock: wires.control,
        rising: stored.control.is_plain,
        outputs: wires.outputs,
        ignored: wires.ignored,
        setup: 0,
        hold: 0,
        has_hold: false,
        cq_min: 0,
        cq_max: 0,
        width: 0,
    })
}

/// The latch of the statements in its group, None where it is passed over.
fn latch_of(
    alloc: Global,
    pins: &[Pin],
    inside: &Reader,
    room: u32,
) -> Result<Option<Cell>, OutOfMemory>
    ensures { IfOk result
        (λ o. o ≡ option_map (latch_by (pins_seen pins.now))
        (stores (pins_seen pins.now) (codes "enable") (codes "data_in") (front room inside.now).statements)) }
{
    match stores(alloc, pins, inside, b"enable", b"data_in", room)? {
        Some(stored) => Ok(Some(latch(alloc, pins, &stored)?)),
        None => Ok(None),
    }
}

/// The flop of the statements in its group, None where it is passed over.
fn flop_of(
    alloc: Global,
    pins: &[Pin],
    inside: &Reader,
    room: u32,
) -> Result<Option<Cell>, OutOfMemory>
    ensures { IfOk result
        (λ o. o ≡ option_map (flop_by (pins_seen pins.now))
        (stores (pins_seen pins.now) (codes "clocked_on") (codes "next_state") (front room inside.now).statements)) }
{
    match stores(alloc, pins, inside, b"clocked_on", b"next_state", room)? {
        Some(stored) => Ok(Some(flop(alloc, pins, &stored)?)),
        None => Ok(None),
    }
}

/// The cell of a group that keeps a state, None where it is passed over.
fn keeper(
    alloc: Global,
    pins: &[Pin],
    group: &Group,
    room: u32,
) -> Result<Option<Cell>, OutOfMemory>
    ensures { IfOk result (λ o. o ≡ keeper_by (pins_seen pins.now) (group_seen room group.now)) }
{
    if group.name == b"latch".as_slice() {
        latch_of(alloc, pins, &group.inside, room)
    } else if group.name == b"ff".as_slice() {
        flop_of(alloc, pins, &group.inside, room)
    } else {
        Ok(None)
    }
}

/// The cell of a clock's tree, None where the pins aren't those of one.
fn clock(alloc: Global, pins: &[Pin]) -> Result<Option<Cell>, OutOfMemory>
    ensures { IfOk result (λ o. o ≡ clock_by (pins_seen pins.now) (only (with_role role.Clock (pins_seen pins.now)))
        (only (with_role role.Output (pins_seen pins.now)))) }
{
    let Some(input) = only(pins, Role::Clock) else {
        return Ok(None);
    };
    let Some(output) = only(pins, Role::Output) else {
        return Ok(None);
    };
    let Some(function) = expression(alloc, pins, &output.function)? else {
        return Ok(None);
    };
    if function.name != input.name {
        return Ok(None);
    }
    let ignored = others(alloc, pins, input.name, input.name)?;
    let (input, output) = two_names(alloc, input.name, output.name)?;
    Ok(Some(Cell::Clock {
        input,
        output,
        invert: !function.is_plain,
        ignored,
    }))
}

/// A gate without numbers.
fn gate(alloc: Global, pins: &[Pin]) -> Result<Cell, OutOfMemory>
    ensures { IfOk result (λ cell. cell ≡ gate_by (pins_seen pins.now)) }
{
    Ok(Cell::Gate {
        inputs: names(alloc, pins, Role::Input)?,
        outputs: names(alloc, pins, Role::Output)?,
        min: 0,
        max: 0,
    })
}

/// The cell of pins where nothing keeps a state.
fn stateless(alloc: Global, pins: &[Pin]) -> Result<Cell, OutOfMemory>
    ensures { IfOk result (λ cell. cell ≡ stateless (pins_seen pins.now)) }
{
    match clock(alloc, pins)? {
        Some(cell) => Ok(cell),
        None => gate(alloc, pins),
    }
}

/// The cell of some parts, None where it is passed over.
fn cell_by(alloc: Global, parts: &Parts, room: u32) -> Result<Option<Cell>, OutOfMemory>
    ensures { IfOk result (λ o. o ≡ cell_held (held room parts.now)) }
{
    match &parts.keeper {
        Some(group) => keeper(alloc, &parts.pins, group, room),
        None => Ok(Some(stateless(alloc, &parts.pins)?)),
    }
}

/// Whether there are so many names.
fn is_between(names: &Names, least: usize, most: usize) -> bool
    ensures { result ≡ is_between least most names.now }
{
    least <= names.items().len() && names.items().len() <= most
}

/// Whether a cell has as many pins as its kind allows.
fn has_counts(cell: &Cell) -> bool
    ensures { result ≡ has_counts cell.now }
{
    match cell {
        Cell::Gate {
            inputs,
            outputs,
            ..
        } => is_between(inputs, 0, 64) && is_between(outputs, 1, 16),
        Cell::Latch {
            outputs,
            ignored,
            ..
        }
        | Cell::Flop {
            outputs,
            ignored,
            ..
        } => is_between(outputs, 1, 2) && is_between(ignored, 0, 64),
        Cell::Clock { ignored, .. } => is_between(ignored, 0, 64),
    }
}

/// A cell within the rules of a cell description, whose pins are names, each once.
fn if_within_rules(cell: Option<Cell>) -> Option<Cell>
    requires { IfSome cell (λ c. is_cell c ≡ has_counts c) }
    ensures { result ≡ kept cell }
{
    let cell = cell?;
    if has_counts(&cell) { Some(cell) } else { None }
}

/// The cell of the group that a reader stands in, None where it is passed over.
pub fn cell_of(alloc: Global, inside: &Reader, room: u32) -> Result<Option<Cell>, OutOfMemory>
    requires { 0 < room }
    ensures { IfOk result (λ o. o ≡ cell_of (front room inside.now).statements) }
{
    match parts_of(alloc, inside, room)? {
        Some(parts) => Ok(if_within_rules(cell_by(alloc, &parts, room - 1)?)),
        None => Ok(None),
    }
}
