//! The warnings of cells of the clock that lead to data.
ghost use Rattle.std.specs.Prelude.{◌≡◌, ◌<◌, ◌≤◌, ◌∷◌, [], ℕ, List, IfOk, IfSome, length};
ghost use Rattle.std.specs.List.{AllZip, concat, range_with_len};
ghost use Rattle.mintc_cells.specs.Entries.{name_at};
ghost use Rattle.mintc_flatten_hierarchy.specs.Shape.{IsGivenHierarchy};
ghost use Rattle.mintcx_warnings.specs.Data.{data_said};
ghost use Rattle.mintcx_warnings_files.specs.Written.{IsOfCell, IsOfCells, IsShownIn};

use crate::clocked::{before_part, net_behind, paths_from};
use crate::files::{CellsForm, File, scene};
use crate::parts::Parts;
use mintc_annotate_resolve::inner_names;
use mintc_flatten_hierarchy::hierarchies_are_in_shape;
use mintc_text::{Bytes, Lines, Name, OutOfMemory};
use mintcx_finders::cell_heading;
use mintcx_lint_data::{DataPath, data_paths};
use mintcx_places::Range;
use mintcx_warnings::{Entered, data_text};
use std::alloc::Global;

/// What bits are called, the paths from cells of the clock, and the file of the cells, with its form.
#[derive(Drop)]
struct Met<'a> {
    names: &'a [Name],
    paths: &'a [DataPath],
    cells: &'a File<'a>,
    form: CellsForm,
}

/// What a bit is called; no byte where there is no such bit.
fn name_of<'a>(names: &'a [Name], bit: u32) -> &'a [u8] {
    match names.get(bit as usize) {
        Some(name) => name.bytes(),
        None => b"",
    }
}

/// The data pin at the end of a path; no byte where there is none.
fn pin_of<'a>(parts: &'a Parts, path: &DataPath) -> &'a [u8] {
    let Some(leaf) = parts.hierarchy.leaves.items().get(path.leaf as usize) else {
        return b"";
    };
    if leaf.cell < parts.cells.count() && path.pin < parts.cells.pin_count(leaf.cell) {
        parts.cells.pin(leaf.cell, path.pin).bytes()
    } else {
        b""
    }
}

/// What the data pin at the end of a path is called; no byte where there is none.
fn end_of<'a>(parts: &Parts, names: &'a [Name], path: &DataPath) -> &'a [u8] {
    match parts.hierarchy.leaves.items().get(path.leaf as usize) {
        Some(leaf) => name_of(names, leaf.first_pin.saturating_add(path.pin)),
        None => b"",
    }
}

/// Where a cell is described, which is known in a description alone that was not made.
fn heading_of(met: &Met<'_>, cell: &[u8]) -> Option<Range>
    ensures { IfSome result (λ range. range.from ≤ length met.now.cells.now.text.now) }
{
    match met.form {
        CellsForm::Description => cell_heading(met.cells.text, cell),
        CellsForm::Library | CellsForm::Made => None,
    }
}

/// The warning of so many paths from a cell of the clock, of which this is the first.
fn paths_text(
    alloc: Global,
    parts: &Parts,
    met: &Met<'_>,
    cell: u32,
    first: &DataPath,
    count: usize,
) -> Result<Bytes, OutOfMemory>
    requires { cell < length parts.now.cells }
    ensures { IfOk result (λ text. (net : List ℕ) × (pin : List ℕ) × (instance : List ℕ)
        × IsShownIn met.now.cells.now (data_said (name_at parts.now.cells cell) count net pin instance) text) }
{
    let pin = pin_of(parts, first);
    let entered = Entered {
        cell: parts.cells.name(cell),
        count,
        net: name_of(
            met.names,
            net_behind(parts.hierarchy.joins.items(), first.source),
        ),
        pin,
        instance: before_part(end_of(parts, met.names, first), pin),
    };
    let place = heading_of(met, entered.cell);
    data_text(alloc, &entered, &scene(met.cells, place))
}

/// The warning of a cell of the clock that leads to data; no byte where it doesn't.
fn cell_text(alloc: Global, parts: &Parts, met: &Met<'_>, cell: u32) -> Result<Bytes, OutOfMemory>
    requires { cell < length parts.now.cells }
    ensures { IfOk result (IsOfCell met.now.cells.now parts.now met.now.paths.now cell) }
{
    let paths = paths_from(alloc, met.paths, cell)?;
    match paths.items() {
        [] => Ok(Bytes::new(Vec::new(alloc))),
        [first, ..] => paths_text(alloc, parts, met, cell, first, paths.items().len()),
    }
}

/// The warnings of all cells, one behind the other.
fn cell_texts(alloc: Global, parts: &Parts, met: &Met<'_>) -> Result<Bytes, OutOfMemory>
    ensures { IfOk result (λ text. (texts : List (List ℕ))
        × AllZip (IsOfCell met.now.cells.now parts.now met.now.paths.now)
        (range_with_len 0 (length parts.now.cells)) texts
        × (text ≡ concat texts)) }
{
    let mut lines = Lines::new(alloc);
    for cell in 0..parts.cells.count() {
        lines.put(cell_text(alloc, parts, met, cell)?.items())?;
    }
    Ok(Bytes::new(lines.into_bytes()))
}

/// What all bits are called, where there is a path.
fn names_for(alloc: Global, parts: &Parts, paths: &[DataPath]) -> Result<Vec<Name>, OutOfMemory>
    requires { IsGivenHierarchy parts.now.cells parts.now.hierarchy }
{
    if paths.is_empty() {
        return Ok(Vec::new(alloc));
    }
    hierarchies_are_in_shape();
    inner_names(alloc, &parts.hierarchy)
}

/// The warnings of cells of the clock that lead to data, by the order of the cells.
pub(crate) fn entered_texts(
    alloc: Global,
    parts: &Parts,
    cells: &File<'_>,
    form: CellsForm,
) -> Result<Bytes, OutOfMemory>
    requires { IsGivenHierarchy parts.now.cells parts.now.hierarchy }
    ensures { IfOk result (IsOfCells cells.now parts.now) }
{
    let paths = data_paths(alloc, &parts.hierarchy, &parts.cells)?;
    let names = names_for(alloc, parts, paths.items())?;
    let met = Met {
        names: names.as_slice(),
        paths: paths.items(),
        cells,
        form,
    };
    cell_texts(alloc, parts, &met)
}
