//! What is said of a latch or flop that is on no phase.

use crate::carriers::{Pins, Way};
use crate::cases::{Case, marked};
use crate::files::named;
use crate::places::{Place, fault_of};
use mintc_text::{Lines, OutOfMemory, Role};
use mintc_vlex::{TokenKind, next_token};
use mintcx_finders::{CellKind, Fault, MOST_PLACES, Through, Unclocked, name_of};
use mintcx_places::{Range, library_statement_range};

/// The word of a kind.
fn kind_word(kind: CellKind) -> &'static [u8] {
    match kind {
        CellKind::Gate => b"gate",
        CellKind::Latch => b"latch",
        CellKind::Flop => b"flop",
        CellKind::Clock => b"clock",
    }
}

/// Writes a name behind those of so many of the instances that a latch or flop stands inside of, with dots between.
fn put_path(
    out: &mut Lines,
    case: &Case<'_>,
    unclocked: &Unclocked,
    depth: usize,
    name: &Range,
) -> Result<(), OutOfMemory> {
    out.put(b" `")?;
    for place in 0..MOST_PLACES {
        if place < depth {
            if let Some(level) = unclocked.levels[place] {
                out.put(name_of(case.file, &level))?;
                out.put(b".")?;
            }
        }
    }
    if depth > MOST_PLACES {
        out.put(b"...")?;
    }
    out.put(name_of(case.file, name))?;
    out.put(b"`")
}

/// Writes that a latch or flop is on no phase.
pub(crate) fn put_unclocked(out: &mut Lines, case: &Case<'_>) -> Result<(), OutOfMemory> {
    match fault_of(case.place) {
        Some(Fault::Unclocked { unclocked }) => {
            out.put(kind_word(unclocked.kind))?;
            put_path(out, case, &unclocked, unclocked.depth, &unclocked.name)?;
        }
        _ => out.put(b"a latch or flop")?,
    }
    out.put(b" is on no phase")
}

/// What is connected to a pin.
#[derive(Clone, Copy, PartialEq, Eq)]
enum Connected {
    Nothing,
    Constant,
    Net,
}

/// What stands first in the parentheses of a connection, from its dot on.
fn first_connected(connection: &[u8]) -> Option<Connected> {
    let dot = next_token(connection, 0)?;
    let pin = next_token(connection, dot.to)?;
    let open = next_token(connection, pin.to)?;
    let first = next_token(connection, open.to)?;
    let word = &connection[first.from..first.to];
    Some(match first.kind {
        TokenKind::Digits | TokenKind::Constant => Connected::Constant,
        TokenKind::Sign if word == b")".as_slice() => Connected::Nothing,
        _ => Connected::Net,
    })
}

/// What the enable or clock pin of a latch or flop is connected to, by its connection.
fn connected_to(connection: &[u8]) -> Connected {
    first_connected(connection).unwrap_or(Connected::Net)
}

/// Writes what comes of a clock on its way back from a latch or flop.
pub(crate) fn put_clock_label(
    out: &mut Lines,
    case: &Case<'_>,
    unclocked: &Unclocked,
) -> Result<(), OutOfMemory> {
    out.put(if unclocked.kind == CellKind::Latch {
        b" its enable"
    } else {
        b" its clock"
    })?;
    if let Some(through) = unclocked.through {
        out.put(b" comes through a ")?;
        return out.put(kind_word(through.kind));
    }
    out.put(match connected_to(marked(case)) {
        Connected::Nothing => b" isn't connected",
        Connected::Constant => b" is a constant",
        Connected::Net => b" leads back to no phase",
    })
}

/// A cell that a clock comes through, with the name of its instance.
pub(crate) fn whole_cell(through: &Through) -> Range {
    Range {
        from: through.cell.from,
        to: through.name.to,
    }
}

/// Writes which cell it is that a clock comes through.
pub(crate) fn put_through_label(
    out: &mut Lines,
    case: &Case<'_>,
    unclocked: &Unclocked,
    through: &Through,
) -> Result<(), OutOfMemory> {
    out.put(b" this one,")?;
    put_path(out, case, unclocked, through.depth, &through.name)?;
    out.put(b", of kind ")?;
    out.put(kind_word(through.kind))
}

/// Whether the cells are those of a library.
fn is_library(case: &Case<'_>) -> bool {
    library_statement_range(case.inputs.beside, 1).is_some()
}

/// Why a latch or flop is on no phase.
pub(crate) fn clock_why(case: &Case<'_>) -> &'static [u8] {
    match fault_of(case.place) {
        Some(Fault::Unclocked { unclocked }) if unclocked.through.is_none() => {
            b"it has to lead through clock cells alone back to an input of the top that a phase has, with its level"
        }
        _ if is_library(case) => {
            b"a clock goes through the clock cells of the library and those of `--clock-cell` alone"
        }
        _ => b"a clock goes through cells of kind `clock` alone",
    }
}

/// What helps where a clock has to come another way to a latch or flop.
const ANOTHER_WAY: &[u8] = b"bring the clock to the `input` of each clock cell on the way";

/// Writes how a cell is made one of the clock by a cell description.
fn put_described(out: &mut Lines, case: &Case<'_>, cell: &[u8]) -> Result<(), OutOfMemory> {
    if is_library(case) {
        out.put(b"take `--cells` in the library's place (`liberty2toml` writes it), and ")?;
    }
    out.put(b"describe ")?;
    out.put(cell)?;
    out.put(b" as a clock cell")
}

/// Writes how a gate of a library is made a cell of the clock by an option, which may have been given.
fn put_option_help(out: &mut Lines, cell: &[u8]) -> Result<(), OutOfMemory> {
    out.put(b"give `--clock-cell ")?;
    out.put(cell)?;
    out.put(b"`, if it carries no data; and a phase has to have the input that it leads back to")
}

/// Writes what helps with a gate on the way of a clock that is described as a cell of the clock.
fn put_described_help(
    out: &mut Lines,
    case: &Case<'_>,
    way: &Way,
    cell: &[u8],
) -> Result<(), OutOfMemory> {
    put_described(out, case, cell)?;
    if way.pins != Pins::Pair {
        out.put(b" with the clock's pin as `input`")?;
    }
    out.put(b", if it carries no data; else ")?;
    out.put(if way.is_passed {
        ANOTHER_WAY
    } else {
        b"use another cell here"
    })
}

/// Writes what helps with a gate on the way of a clock.
fn put_gate_help(
    out: &mut Lines,
    case: &Case<'_>,
    way: &Way,
    cell: &[u8],
) -> Result<(), OutOfMemory> {
    match way.pins {
        Pins::Tied => out.put(b"connect it to a clock: this gate has no input"),
        Pins::Pair if is_library(case) => put_option_help(out, cell),
        Pins::Pair | Pins::Others => put_described_help(out, case, way, cell),
    }
}

/// Writes what helps with a latch on the way of a clock, which may be a clock gate.
fn put_latch_help(
    out: &mut Lines,
    case: &Case<'_>,
    way: &Way,
    cell: &[u8],
) -> Result<(), OutOfMemory> {
    out.put(b"if this is a clock gate, ")?;
    put_described(out, case, cell)?;
    out.put(b"; else ")?;
    out.put(if way.is_passed {
        ANOTHER_WAY
    } else {
        b"bring this clock in at an input of the top"
    })
}

/// Writes what helps with a cell on the way of a clock.
fn put_through_help(
    out: &mut Lines,
    case: &Case<'_>,
    way: &Way,
    through: &Through,
) -> Result<(), OutOfMemory> {
    let cell = name_of(case.file, &through.cell);
    match through.kind {
        CellKind::Gate => put_gate_help(out, case, way, cell),
        CellKind::Latch => put_latch_help(out, case, way, cell),
        CellKind::Flop | CellKind::Clock if way.is_passed => out.put(ANOTHER_WAY),
        CellKind::Flop | CellKind::Clock => {
            out.put(b"bring this clock in at an input of the top, with a phase of its own")
        }
    }
}

/// Writes what helps where no cell is found on the way of a clock.
fn put_end_help(out: &mut Lines, case: &Case<'_>, way: &Way) -> Result<(), OutOfMemory> {
    if connected_to(marked(case)) != Connected::Net {
        return out.put(b"connect it to a clock");
    }
    out.put(b"follow it back to an input of the top, and give that a phase of its level in ")?;
    out.put(named(case.inputs, Role::Clock, b"the clock description"))?;
    if way.is_passed {
        out.put(b"; or ")?;
        out.put(ANOTHER_WAY)?;
    }
    Ok(())
}

/// Writes what helps where the latch or flop isn't found.
fn put_way_help(out: &mut Lines, case: &Case<'_>) -> Result<(), OutOfMemory> {
    if is_library(case) {
        out.put(b"name the gates on its clock's way by `--clock-cell`")?;
    } else {
        out.put(b"describe the cells on its clock's way in ")?;
        out.put(named(case.inputs, Role::Cells, b"the cells"))?;
        out.put(b" with the kind `clock`")?;
    }
    out.put(b", if they carry no data, and give its port a phase")
}

/// How a clock comes to its latch or flop, as far as that is found.
fn way_of(case: &Case<'_>) -> Way {
    match case.place {
        Some(Place { way: Some(way), .. }) => way,
        _ => Way {
            pins: Pins::Others,
            is_passed: false,
        },
    }
}

/// Writes what helps with a latch or flop that is on no phase.
pub(crate) fn put_clock_help(out: &mut Lines, case: &Case<'_>) -> Result<(), OutOfMemory> {
    let Some(Fault::Unclocked { unclocked }) = fault_of(case.place) else {
        return put_way_help(out, case);
    };
    let way = way_of(case);
    match unclocked.through {
        Some(through) => put_through_help(out, case, &way, &through),
        None => put_end_help(out, case, &way),
    }
}
