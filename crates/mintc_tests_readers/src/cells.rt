//! Cell descriptions of mintc_cells: the values of cells with all keys and with none but those that they need, and
//! each rule of refusal 13 at its limit and one past it.

mod cases;

use super::cell_texts::{cell_text, numbers_text, push_cell, shown};
use cases::{CELLS, EXAMPLE, IGNORING, PINS, SAID, TEXTS};
use mintc_cells::{Cell, Cells, read_cells};
use mintc_text::{Refusal, Stop};
use std::alloc::{AllocError, Global};
use std::process::Abort;
use std::test::Fail;

/// The entry and the rule for which a text is refused; None where it has cells.
fn fault(rt: &impl Abort, alloc: Global, text: &[u8]) -> Option<(u32, u32)> {
    assert!(rt; text.len() < 10_000);
    match read_cells(alloc, text) {
        Ok(_) => None,
        Err(Stop::Refused(Refusal::BadCell { entry, rule })) => Some((entry, rule)),
        Err(_) => Some((99, 99)),
    }
}

/// The cells of a text.
fn cells(rt: &impl Abort, alloc: Global, text: &str) -> Option<Cells> {
    assert!(rt; text.len() < 10_000);
    read_cells(alloc, text.as_bytes()).ok()
}

/// A text is refused for this entry and rule, or for none.
fn has_fault(rt: &impl Abort, alloc: Global, text: &str, want: Option<(u32, u32)>) {
    assert!(rt; fault(rt, alloc, text.as_bytes()) == want, "at {text}");
}

/// A cell on one line.
fn line_of(alloc: Global, cell: &Cell) -> Result<String, AllocError> {
    let pins = cell_text(alloc, cell)?;
    let numbers = numbers_text(alloc, cell)?;
    let between = if numbers.is_empty() { "" } else { " " };
    format!(in alloc; "{pins}{between}{numbers}")
}

/// All cells with their numbers, each with its name.
fn lines_text(alloc: Global, cells: &Cells) -> Result<String, AllocError> {
    let mut text = String::new(alloc);
    for at in 0..cells.count() {
        let cell = line_of(alloc, cells.cell(at))?;
        push_cell(&mut text, shown(cells.name(at)), &cell)?;
    }
    Ok(text)
}

/// The pins of a cell in cell order, an output with a `>`.
fn pins_text(alloc: Global, cells: &Cells, name: &[u8]) -> Result<String, AllocError> {
    let mut text = String::new(alloc);
    if let Some(at) = cells.find(name) {
        add_pins(&mut text, cells, at)?;
    }
    Ok(text)
}

/// Adds the pins of the cell at a place, where there is one.
fn add_pins(text: &mut String, cells: &Cells, at: u32) -> Result<(), AllocError> {
    if at >= cells.count() {
        return Ok(());
    }
    for number in 0..cells.pin_count(at) {
        let pin = shown(cells.pin(at, number).bytes());
        text.push_str(if cells.is_output(at, number) {
            ">"
        } else {
            " "
        })?;
        text.push_str(pin)?;
    }
    Ok(())
}

/// What the cells of a text are.
fn said_of(rt: &impl Abort, alloc: Global, text: &str) -> Option<String> {
    let cells = cells(rt, alloc, text)?;
    lines_text(alloc, &cells).ok()
}

/// A text has cells that are these.
fn has_cells(rt: &impl Abort, alloc: Global, text: &str, want: &str) -> Result<(), Fail> {
    let said = said_of(rt, alloc, text).ok_or("refused")?;
    assert!(rt; said.as_str() == want, "{said}");
    Ok(())
}

/// Cells have the values of their texts, with their defaults.
#[test]
fn cells_have_their_values(rt: HostRuntime) -> Result<(), Fail> {
    for (text, want) in SAID {
        has_cells(&rt, rt.alloc(), text, want)?;
    }
    Ok(())
}

/// The cell of this name has these pins.
fn has_pins(
    rt: &impl Abort,
    alloc: Global,
    cells: &Cells,
    name: &str,
    pins: &str,
) -> Result<(), AllocError> {
    let found = pins_text(alloc, cells, name.as_bytes())?;
    assert!(rt; found.as_str() == pins, "{name}: {found}");
    Ok(())
}

/// The cells of the example have their pins.
fn have_pins(rt: &impl Abort, alloc: Global, cells: &Cells) -> Result<(), AllocError> {
    for (name, pins) in PINS {
        has_pins(rt, alloc, cells, name, pins)?;
    }
    Ok(())
}

/// The pins of a cell stand in cell order, and a name finds its cell.
#[test]
fn pins_stand_in_cell_order(rt: HostRuntime) -> Result<(), Fail> {
    let cells = cells(&rt, rt.alloc(), EXAMPLE).ok_or("refused")?;
    have_pins(&rt, rt.alloc(), &cells)?;
    assert!(rt; cells.find(b"DLL") == Some(3) && cells.find(b"DLK").is_none());
    Ok(())
}

/// A cell of these keys is refused for this entry and rule, or for none.
fn cell_has_fault(
    rt: &impl Abort,
    alloc: Global,
    keys: &str,
    want: Option<(u32, u32)>,
) -> Result<(), AllocError> {
    let text = format!(in alloc; "[cell.X]\n{keys}")?;
    has_fault(rt, alloc, text.as_str(), want);
    Ok(())
}

/// Each rule fails first where it should, at its limit and one past it.
#[test]
fn refusal_13_names_the_cell_and_the_first_rule(rt: HostRuntime) -> Result<(), Fail> {
    assert!(rt; fault(&rt, rt.alloc(), b"\xff") == Some((0, 0)));
    for (text, want) in TEXTS {
        has_fault(&rt, rt.alloc(), text, *want);
    }
    for (keys, rule) in CELLS {
        cell_has_fault(&rt, rt.alloc(), keys, rule.map(|rule| (1, rule)))?;
    }
    Ok(())
}

/// So many names of a list, each another one.
fn list_text(alloc: Global, word: &str, count: u32) -> Result<String, AllocError> {
    let mut text = format!(in alloc; "{word} = [")?;
    for number in 0..count {
        text.push_str(&format!(in alloc; "\"{word}{number}\",")?)?;
    }
    text.push_str("]\n")?;
    Ok(text)
}

/// A gate with so many inputs and outputs.
fn gate(alloc: Global, inputs: u32, outputs: u32) -> Result<String, AllocError> {
    let inputs = list_text(alloc, "inputs", inputs)?;
    let outputs = list_text(alloc, "outputs", outputs)?;
    format!(in alloc; "[cell.X]\nkind = \"gate\"\n{inputs}{outputs}")
}

/// A cell with these keys and so many ignored pins.
fn ignoring(alloc: Global, keys: &str, count: u32) -> Result<String, AllocError> {
    let ignored = list_text(alloc, "ignored", count)?;
    format!(in alloc; "[cell.X]\n{keys}{ignored}")
}

/// So many bytes of a name.
fn long_name(alloc: Global, count: u32) -> Result<String, AllocError> {
    let mut name = String::new(alloc);
    for _ in 0..count {
        name.push_str("!")?;
    }
    Ok(name)
}

/// A cell whose name has so many bytes.
fn named(alloc: Global, count: u32) -> Result<String, AllocError> {
    let name = long_name(alloc, count)?;
    format!(in alloc; "[cell.\"{name}\"]\nkind = \"clock\"\ninput = \"a\"\noutput = \"y\"\n")
}

/// A cell with a pin whose name has so many bytes.
fn with_pin(alloc: Global, count: u32) -> Result<String, AllocError> {
    let name = long_name(alloc, count)?;
    format!(in alloc; "[cell.X]\nkind = \"clock\"\ninput = \"a\"\noutput = \"{name}\"\n")
}

/// Lists of pins have their limits.
#[test]
fn lists_of_pins_are_short(rt: HostRuntime) -> Result<(), Fail> {
    let alloc = rt.alloc();
    for (inputs, outputs, want) in &[
        (64, 16, None),
        (65, 16, Some((1, 4))),
        (64, 17, Some((1, 4))),
    ] {
        has_fault(&rt, alloc, &gate(alloc, *inputs, *outputs)?, *want);
    }
    for keys in IGNORING {
        has_fault(&rt, alloc, &ignoring(alloc, keys, 64)?, None);
        has_fault(&rt, alloc, &ignoring(alloc, keys, 65)?, Some((1, 4)));
    }
    Ok(())
}

/// Names have at most 255 bytes.
#[test]
fn names_have_at_most_255_bytes(rt: HostRuntime) -> Result<(), Fail> {
    let alloc = rt.alloc();
    for (count, name, pin) in &[(255, None, None), (256, Some((1, 2)), Some((1, 4)))] {
        has_fault(&rt, alloc, &named(alloc, *count)?, *name);
        has_fault(&rt, alloc, &with_pin(alloc, *count)?, *pin);
    }
    Ok(())
}
