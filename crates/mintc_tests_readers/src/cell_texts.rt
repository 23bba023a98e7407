//! Cells as texts.
use mintc_cells::{Cell, Cells};
use mintc_text::{Name, Names};
use std::alloc::{AllocError, Global};
use std::str;

/// A name's text.
pub(crate) fn shown(name: &[u8]) -> &str {
    str::from_utf8(name).unwrap_or("no text")
}

/// Adds names with a space between them.
fn push_names(text: &mut String, names: &[Name]) -> Result<(), AllocError> {
    for name in names {
        if !text.is_empty() {
            text.push_str(" ")?;
        }
        text.push_str(shown(name.bytes()))?;
    }
    Ok(())
}

/// Names in brackets.
pub(crate) fn names_text(alloc: Global, names: &Names) -> Result<String, AllocError> {
    let mut text = String::new(alloc);
    push_names(&mut text, names.items())?;
    format!(in alloc; "[{text}]")
}

/// A gate's kind and pins.
fn gate_text(alloc: Global, inputs: &Names, outputs: &Names) -> Result<String, AllocError> {
    let (inputs, outputs) = (names_text(alloc, inputs)?, names_text(alloc, outputs)?);
    format!(in alloc; "gate {inputs} {outputs}")
}

/// A latch's or flop's kind and pins.
fn stored_text(
    alloc: Global,
    kind: &str,
    pins: (&Name, &Name),
    is_plain: bool,
    lists: (&Names, &Names),
) -> Result<String, AllocError> {
    let (data, control) = (shown(pins.0.bytes()), shown(pins.1.bytes()));
    let (outputs, ignored) = (names_text(alloc, lists.0)?, names_text(alloc, lists.1)?);
    format!(in alloc; "{kind} {data} {control} {is_plain} {outputs} {ignored}")
}

/// A clock cell's kind and pins.
fn clock_text(
    alloc: Global,
    pins: (&Name, &Name),
    invert: bool,
    ignored: &Names,
) -> Result<String, AllocError> {
    let (from, to) = (shown(pins.0.bytes()), shown(pins.1.bytes()));
    let ignored = names_text(alloc, ignored)?;
    format!(in alloc; "clock {from} {to} {invert} {ignored}")
}

/// A cell's kind and pins.
pub(crate) fn cell_text(alloc: Global, cell: &Cell) -> Result<String, AllocError> {
    match cell {
        Cell::Gate {
            inputs,
            outputs,
            ..
        } => gate_text(alloc, inputs, outputs),
        Cell::Latch {
            pin_d,
            pin_g,
            high,
            outputs,
            ignored,
            ..
        } => stored_text(alloc, "latch", (pin_d, pin_g), *high, (outputs, ignored)),
        Cell::Flop {
            pin_d,
            pin_clock,
            rising,
            outputs,
            ignored,
            ..
        } => stored_text(
            alloc,
            "flop",
            (pin_d, pin_clock),
            *rising,
            (outputs, ignored),
        ),
        Cell::Clock {
            input,
            output,
            invert,
            ignored,
        } => clock_text(alloc, (input, output), *invert, ignored),
    }
}

/// A cell's numbers; a clock cell has none.
pub(crate) fn numbers_text(alloc: Global, cell: &Cell) -> Result<String, AllocError> {
    match cell {
        Cell::Gate { min, max, .. } => format!(in alloc; "{min} {max}"),
        Cell::Latch {
            setup,
            hold,
            has_hold,
            dq_min,
            dq_max,
            cq_min,
            cq_max,
            has_cq,
            width,
            ..
        } => format!(in alloc;
            "{setup} {hold} {has_hold} {dq_min} {dq_max} {cq_min} {cq_max} {has_cq} {width}"
        ),
        Cell::Flop {
            setup,
            hold,
            has_hold,
            cq_min,
            cq_max,
            width,
            ..
        } => format!(in alloc; "{setup} {hold} {has_hold} {cq_min} {cq_max} {width}"),
        Cell::Clock { .. } => Ok(String::new(alloc)),
    }
}

/// Adds a cell's name, its text and an end.
pub(crate) fn push_cell(text: &mut String, name: &str, cell: &str) -> Result<(), AllocError> {
    text.push_str(name)?;
    text.push_str(" ")?;
    text.push_str(cell)?;
    text.push_str(";")
}

/// Cells without their numbers, each with its name and an end.
pub(crate) fn cells_text(alloc: Global, cells: &Cells) -> Result<String, AllocError> {
    let mut text = String::new(alloc);
    for number in 0..cells.count() {
        let cell = cell_text(alloc, cells.cell(number))?;
        push_cell(&mut text, shown(cells.name(number)), &cell)?;
    }
    Ok(text)
}
