//! What other files say that a message takes names from: pins of cells, ports and instances of the netlist, phases.

use crate::cases::Case;
use crate::counts::{put_count, put_many};
use crate::details::{put_first, put_named};
use crate::files::named;
use mintc_sdf_tokens::names;
use mintc_text::{Lines, OutOfMemory, Role};
use mintcx_finders::{
    Item, LongWay, MOST_PLACES, PathEnd, Side, bytes_of, cell_names, name_of, path_end, phases_of,
    pins_of_cell, ports_of_top,
};
use std::alloc::Global;

/// Writes behind words which names there are that a name could be, or that there are none.
fn put_choice(out: &mut Lines, before: &[u8], names: &[&[u8]]) -> Result<(), OutOfMemory> {
    out.put(before)?;
    if names.is_empty() {
        return out.put(b"it has none");
    }
    out.put(b"not one of ")?;
    put_first(out, names)
}

/// Writes behind words which pins a cell has by the cell description, if that has the cell.
pub(crate) fn put_pins(
    alloc: Global,
    out: &mut Lines,
    case: &Case<'_>,
    before: &[u8],
    cell: &[u8],
    side: Side,
) -> Result<(), OutOfMemory> {
    match pins_of_cell(alloc, case.inputs.beside, cell, side)? {
        Some(pins) => put_choice(out, before, &pins),
        None => Ok(()),
    }
}

/// Writes behind words from which names to which something leads, if it leads anywhere.
fn put_from_to(
    out: &mut Lines,
    before: &[u8],
    from: &[&[u8]],
    to: &[&[u8]],
) -> Result<(), OutOfMemory> {
    if from.is_empty() || to.is_empty() {
        return Ok(());
    }
    out.put(before)?;
    out.put(b"from ")?;
    put_first(out, from)?;
    out.put(b" to ")?;
    put_first(out, to)
}

/// Writes behind words from which pins to which a cell leads by the cell description, if that has the cell.
pub(crate) fn put_ways(
    alloc: Global,
    out: &mut Lines,
    case: &Case<'_>,
    before: &[u8],
    cell: &[u8],
) -> Result<(), OutOfMemory> {
    let Some(inputs) = pins_of_cell(alloc, case.inputs.beside, cell, Side::Inputs)? else {
        return Ok(());
    };
    match pins_of_cell(alloc, case.inputs.beside, cell, Side::Outputs)? {
        Some(outputs) => put_from_to(out, before, &inputs, &outputs),
        None => Ok(()),
    }
}

/// Writes several things and which they are, by words for one and for many.
fn put_which(out: &mut Lines, one: &[u8], many: &[u8], names: &[&[u8]]) -> Result<(), OutOfMemory> {
    out.put(if names.len() == 1 { one } else { many })?;
    put_first(out, names)
}

/// Writes which ports of the top an item of the clock description may name, if the top is clear.
pub(crate) fn put_ports_of_top(
    alloc: Global,
    out: &mut Lines,
    case: &Case<'_>,
    item: Item,
) -> Result<(), OutOfMemory> {
    let Some(ports) = ports_of_top(alloc, case.inputs.beside, case.file, item)? else {
        return Ok(());
    };
    if ports.is_empty() {
        return out.put(b" it has none");
    }
    match item {
        Item::Output => put_which(out, b" the output is ", b" the outputs are ", &ports),
        Item::Phase | Item::Bound | Item::Input => {
            put_which(out, b" the input is ", b" the inputs are ", &ports)
        }
    }
}

/// Where a path of the delays ends that leads to no cell, if the top is clear.
pub(crate) fn end_of_path(
    alloc: Global,
    case: &Case<'_>,
    path: &[u8],
    divider: u8,
) -> Result<Option<PathEnd>, OutOfMemory> {
    let parts = names(alloc, path, divider)?;
    path_end(alloc, case.inputs.beside, parts.items())
}

/// Writes in what a name of a path isn't.
fn put_holder(out: &mut Lines, case: &Case<'_>, end: &PathEnd) -> Result<(), OutOfMemory> {
    let holder = name_of(case.inputs.beside, &end.holder);
    if end.known == 0 {
        return put_named(out, b" isn't in the top,", holder);
    }
    if end.is_module {
        return put_named(out, b" isn't in module", holder);
    }
    put_named(out, b" isn't in", holder)?;
    out.put(b", a cell")
}

/// Writes where a path of the delays ends that leads to no cell, if the top is clear.
pub(crate) fn put_path_end(
    alloc: Global,
    out: &mut Lines,
    case: &Case<'_>,
    path: &[u8],
    divider: u8,
) -> Result<(), OutOfMemory> {
    let Some(end) = end_of_path(alloc, case, path, divider)? else {
        return Ok(());
    };
    let parts = names(alloc, path, divider)?;
    match parts.items().get(end.known) {
        Some(name) => {
            put_named(out, b"", name.bytes())?;
            put_holder(out, case, &end)
        }
        None => put_named(
            out,
            b" it is a module,",
            name_of(case.inputs.beside, &end.holder),
        ),
    }
}

/// Writes which cells the cell description has, if it has any.
pub(crate) fn put_cells(
    alloc: Global,
    out: &mut Lines,
    case: &Case<'_>,
) -> Result<(), OutOfMemory> {
    let cells = match cell_names(alloc, case.inputs.beside)? {
        Some(cells) if !cells.is_empty() => cells,
        _ => return Ok(()),
    };
    out.put(named(case.inputs, Role::Cells, b"the description"))?;
    out.put(b" describes ")?;
    put_many(alloc, out, cells.len() as u64, b"cell", b"cells")?;
    out.put(b": ")?;
    put_first(out, &cells)
}

/// Writes which phases the design has, if they are found.
pub(crate) fn put_phases(
    alloc: Global,
    out: &mut Lines,
    case: &Case<'_>,
) -> Result<(), OutOfMemory> {
    let phases = phases_of(alloc, case.inputs.beside)?;
    if phases.is_empty() {
        return Ok(());
    }
    put_which(out, b"the phase is ", b"the phases are ", &phases)
}

/// Writes what stands before the delay at a place of a way.
fn put_between(out: &mut Lines, place: usize, count: usize) -> Result<(), OutOfMemory> {
    if place == 0 {
        out.put(b": ")
    } else if place.saturating_add(1) == count {
        out.put(b" and ")
    } else {
        out.put(b", ")
    }
}

/// Writes the delays of a way, if it isn't too long for all of them.
fn put_delays(alloc: Global, out: &mut Lines, way: &LongWay) -> Result<(), OutOfMemory> {
    if way.count > MOST_PLACES {
        return Ok(());
    }
    for place in 0..MOST_PLACES {
        if place < way.count {
            put_between(out, place, way.count)?;
            put_count(alloc, out, way.delays[place])?;
        }
    }
    out.put(b" fs")
}

/// Writes the names on a way, the last one too.
fn put_way_names(out: &mut Lines, case: &Case<'_>, way: &LongWay) -> Result<(), OutOfMemory> {
    let mut before: &[u8] = b"the way is ";
    for place in &way.names {
        if let Some(name) = place {
            out.put(before)?;
            out.put(bytes_of(case.file, name))?;
            before = b", ";
        }
    }
    if way.count > MOST_PLACES {
        out.put(b", ..")?;
    }
    if way.count < MOST_PLACES {
        return Ok(());
    }
    out.put(b", ")?;
    out.put(bytes_of(case.file, &way.last))
}

/// Writes the way that takes too long.
pub(crate) fn put_way(
    alloc: Global,
    out: &mut Lines,
    case: &Case<'_>,
    way: &LongWay,
) -> Result<(), OutOfMemory> {
    put_way_names(out, case, way)?;
    put_delays(alloc, out, way)
}
