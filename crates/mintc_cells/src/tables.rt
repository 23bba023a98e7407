//! The tables of the four kinds of cells: the shape of each, and the cell that it stands for.
ghost use Rattle.std.specs.Prelude.{◌≡◌, [], codes, IfOk};
ghost use Rattle.toml.specs.Data.{get_member};
ghost use Rattle.toml.specs.View.{table_view};
ghost use Rattle.mintc_toml.specs.Lookups.{text_in, texts_in};
ghost use Rattle.mintc_cells.specs.Description.{has_pins, gate_shape, latch_shape, flop_shape, clock_shape, gate_of};
ghost use Rattle.mintc_cells.specs.Description.{latch_of, flop_of, clock_of};

use crate::cell::Cell;
use crate::shape::Shape;
use mintc_text::{Name, Names, OutOfMemory};
use mintc_toml::{
    are_integers, are_names, flag, has, has_only, integer, is_flag, is_integer, is_one_of, is_text,
    name, names, text,
};
use std::alloc::Global;
use toml::Table;

/// The shape of a gate's table.
pub(crate) fn gate_shape(table: &Table) -> Shape
    ensures { result ≡ gate_shape (table_view table.now) }
{
    Shape {
        keys: has_only(table, &["kind", "inputs", "outputs", "min", "max"]),
        pins: are_names(table, "inputs", false) && are_names(table, "outputs", false),
        numbers: is_integer(table, "min", true) && is_integer(table, "max", true),
        switches: true,
    }
}

/// The shape of a clock cell's table.
pub(crate) fn clock_shape(table: &Table) -> Shape
    ensures { result ≡ clock_shape (table_view table.now) }
{
    Shape {
        keys: has_only(table, &["kind", "input", "output", "invert", "ignored"]),
        pins: (is_text(table, "input", false) && is_text(table, "output", false))
            && are_names(table, "ignored", true),
        numbers: true,
        switches: is_flag(table, "invert"),
    }
}

/// Whether the pins of a latch or flop are there, as texts and arrays of texts.
fn has_pins(table: &Table, first: &str, second: &str) -> bool
    ensures { result ≡ has_pins first.now second.now (table_view table.now) }
{
    (is_text(table, first, false) && is_text(table, second, false))
        && (are_names(table, "outputs", false) && are_names(table, "ignored", true))
}

/// The shape of a latch's table.
pub(crate) fn latch_shape(table: &Table) -> Shape
    ensures { result ≡ latch_shape (table_view table.now) }
{
    Shape {
        keys: has_only(
            table,
            &[
                "kind", "d", "g", "outputs", "active", "ignored", "setup", "hold", "dq_min",
                "dq_max", "cq_min", "cq_max", "width",
            ],
        ),
        pins: has_pins(table, "d", "g"),
        numbers: are_integers(
            table,
            &[
                "setup", "hold", "dq_min", "dq_max", "cq_min", "cq_max", "width",
            ],
        ),
        switches: is_one_of(table, "active", &["high", "low"], "high"),
    }
}

/// The shape of a flop's table.
pub(crate) fn flop_shape(table: &Table) -> Shape
    ensures { result ≡ flop_shape (table_view table.now) }
{
    Shape {
        keys: has_only(
            table,
            &[
                "kind", "d", "clock", "outputs", "edge", "ignored", "setup", "hold", "cq_min",
                "cq_max", "width",
            ],
        ),
        pins: has_pins(table, "d", "clock"),
        numbers: are_integers(table, &["setup", "hold", "cq_min", "cq_max", "width"]),
        switches: is_one_of(table, "edge", &["rising", "falling"], "rising"),
    }
}

/// What a latch and a flop have alike: the data pin, the outputs, and the pins that are ignored.
#[derive(Drop)]
struct Wires {
    data: Name,
    outputs: Names,
    ignored: Names,
}

/// The pins that a latch and a flop have alike.
fn wires_of(alloc: Global, table: &Table) -> Result<Wires, OutOfMemory>
    ensures { IfOk result (λ w. (w.data ≡ text_in [] (get_member (codes "d") (table_view table.now)))
        × (w.outputs ≡ texts_in (get_member (codes "outputs") (table_view table.now)))
        × (w.ignored ≡ texts_in (get_member (codes "ignored") (table_view table.now)))) }
{
    let outputs = names(alloc, table, "outputs")?;
    let ignored = names(alloc, table, "ignored")?;
    Ok(Wires {
        data: name(alloc, table, "d")?,
        outputs,
        ignored,
    })
}

/// The latch that a table stands for.
pub(crate) fn latch(alloc: Global, table: &Table) -> Result<Cell, OutOfMemory>
    ensures { IfOk result (λ cell. cell ≡ latch_of (table_view table.now)) }
{
    let pin_g = name(alloc, table, "g")?;
    let wires = wires_of(alloc, table)?;
    let dq_min = integer(table, "dq_min", 0);
    let dq_max = integer(table, "dq_max", dq_min);
    Ok(Cell::Latch {
        pin_d: wires.data,
        pin_g,
        high: text(table, "active", "high") == "high",
        outputs: wires.outputs,
        ignored: wires.ignored,
        setup: integer(table, "setup", 0),
        hold: integer(table, "hold", 0),
        has_hold: has(table, "hold"),
        dq_min,
        dq_max,
        cq_min: integer(table, "cq_min", dq_min),
        cq_max: integer(table, "cq_max", dq_max),
        has_cq: has(table, "cq_min") || has(table, "cq_max"),
        width: integer(table, "width", 0),
    })
}

/// The flop that a table stands for.
pub(crate) fn flop(alloc: Global, table: &Table) -> Result<Cell, OutOfMemory>
    ensures { IfOk result (λ cell. cell ≡ flop_of (table_view table.now)) }
{
    let pin_clock = name(alloc, table, "clock")?;
    let wires = wires_of(alloc, table)?;
    let cq_min = integer(table, "cq_min", 0);
    Ok(Cell::Flop {
        pin_d: wires.data,
        pin_clock,
        rising: text(table, "edge", "rising") == "rising",
        outputs: wires.outputs,
        ignored: wires.ignored,
        setup: integer(table, "setup", 0),
        hold: integer(table, "hold", 0),
        has_hold: has(table, "hold"),
        cq_min,
        cq_max: integer(table, "cq_max", cq_min),
        width: integer(table, "width", 0),
    })
}

/// The gate that a table stands for.
pub(crate) fn gate(alloc: Global, table: &Table) -> Result<Cell, OutOfMemory>
    ensures { IfOk result (λ cell. cell ≡ gate_of (table_view table.now)) }
{
    let inputs = names(alloc, table, "inputs")?;
    let outputs = names(alloc, table, "outputs")?;
    let min = integer(table, "min", 0);
    let max = integer(table, "max", min);
    Ok(Cell::Gate {
        inputs,
        outputs,
        min,
        max,
    })
}

/// The clock cell that a table stands for.
pub(crate) fn clock(alloc: Global, table: &Table) -> Result<Cell, OutOfMemory>
    ensures { IfOk result (λ cell. cell ≡ clock_of (table_view table.now)) }
{
    let input = name(alloc, table, "input")?;
    let output = name(alloc, table, "output")?;
    let invert = flag(table, "invert", false);
    let ignored = names(alloc, table, "ignored")?;
    Ok(Cell::Clock {
        input,
        output,
        invert,
        ignored,
    })
}
