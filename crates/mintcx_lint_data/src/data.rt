//! Data pins that have their data from a cell of the clock.
ghost use Rattle.std.specs.Prelude.{◌≡◌, ◌<◌, ◌≤◌, ◌++◌, ◌∷◌, [], List, ℕ, length, IfOk, OnOk};
ghost use Rattle.mintc_cells.specs.Rules.{pins};
ghost use Rattle.mintc_flatten_hierarchy.specs.Shape.{IsFlattened, IsGivenHierarchy};
ghost use Rattle.mintc_annotate_resolve.specs.Pins.{leaf_cell};
ghost use Rattle.mintcx_lint_data.specs.Back.{AreSources};
ghost use Rattle.mintcx_lint_data.specs.Data.{AreDataPaths, clock_cell, data_pins, is_clock, leaf_paths, path_at};
ghost use Rattle.mintcx_lint_data.specs.Data.{data_paths};

use crate::back::sources;
use mintc_cells::{Cell, Cells};
use mintc_flatten_hierarchy::{Hierarchy, Inner, hierarchies_are_in_shape};
use mintc_text::{Items, OutOfMemory};
use std::alloc::Global;

/// A path of data that begins at a cell of the clock: no path goes through such a cell, so this one is left out.
#[derive(Clone, Copy, Drop)]
pub struct DataPath {
    /// The number of the cell of the clock.
    pub cell: u32,
    /// The bit of its pin.
    pub source: u32,
    /// The leaf to which the path leads.
    pub leaf: u32,
    /// The data pin of that leaf, counted from 0.
    pub pin: u32,
}

/// How many data pins a cell has: all inputs of a gate, the one of a latch or flop. They are its first pins.
fn data_pins(cell: &Cell) -> usize
    ensures value { result ≡ data_pins cell.now }
{
    match cell {
        Cell::Gate { inputs, .. } => inputs.items().len(),
        Cell::Latch { .. } | Cell::Flop { .. } => 1,
        Cell::Clock { .. } => 0,
    }
}

/// Whether a cell is one of the clock.
fn is_clock(cell: &Cell) -> bool
    ensures { result ≡ is_clock cell.now }
{
    matches!(cell, Cell::Clock { .. })
}

/// The number of the cell of the clock of which a bit is a pin.
fn clock_cell(hierarchy: &Hierarchy, cells: &Cells, bit: u32) -> Option<u32>
    requires shape { IsFlattened cells.now hierarchy.now }
    requires bit { bit < length hierarchy.now.inner }
    ensures { result ≡ clock_cell hierarchy.now cells.now bit }
{
    match &hierarchy.inner.items()[bit as usize] {
        Inner::Pin { leaf, .. } => {
            let cell = hierarchy.leaves.items()[*leaf as usize].cell;
            if is_clock(cells.cell(cell)) {
                Some(cell)
            } else {
                None
            }
        }
        Inner::Net { .. } => None,
    }
}

/// Adds the path to a data pin, where its data is from a cell of the clock.
fn push_path(
    paths: &mut Vec<DataPath>,
    hierarchy: &Hierarchy,
    cells: &Cells,
    sources: &[u32],
    leaf: usize,
    pin: usize,
) -> Result<(), OutOfMemory>
    requires shape { IsFlattened cells.now hierarchy.now }
    requires sources { AreSources hierarchy.now.joins (length hierarchy.now.inner) sources.now }
    requires leaf { leaf < length hierarchy.now.leaves }
    requires pin { pin < data_pins (leaf_cell hierarchy.now cells.now leaf) }
    ensures { OnOk result
        (paths.new.items ≡ paths.old.items ++ path_at hierarchy.now cells.now sources.now leaf pin) }
{
    let bit = hierarchy.leaves.items()[leaf].first_pin as usize + pin;
    let source = sources[bit];
    if let Some(cell) = clock_cell(hierarchy, cells, source) {
        paths.push(DataPath {
            cell,
            source,
            leaf: leaf as u32,
            pin: pin as u32,
        })?;
    }
    Ok(())
}

/// Adds the paths to the data pins of a leaf.
fn push_leaf(
    paths: &mut Vec<DataPath>,
    hierarchy: &Hierarchy,
    cells: &Cells,
    sources: &[u32],
    leaf: usize,
) -> Result<(), OutOfMemory>
    requires shape { IsFlattened cells.now hierarchy.now }
    requires sources { AreSources hierarchy.now.joins (length hierarchy.now.inner) sources.now }
    requires leaf { leaf < length hierarchy.now.leaves }
    ensures { OnOk result
        (paths.new.items ≡ paths.old.items ++ leaf_paths hierarchy.now cells.now sources.now leaf) }
{
    let cell = hierarchy.leaves.items()[leaf].cell;
    for pin in 0..data_pins(cells.cell(cell)) {
        push_path(paths, hierarchy, cells, sources, leaf, pin)?;
    }
    Ok(())
}

/// The paths to all data pins whose data is from a cell of the clock, of a hierarchy in shape.
fn paths_of(
    alloc: Global,
    hierarchy: &Hierarchy,
    cells: &Cells,
    sources: &[u32],
) -> Result<Vec<DataPath>, OutOfMemory>
    requires shape { IsFlattened cells.now hierarchy.now }
    requires sources { AreSources hierarchy.now.joins (length hierarchy.now.inner) sources.now }
    ensures { IfOk result (λ paths. paths.items ≡ data_paths hierarchy.now cells.now sources.now) }
{
    let mut paths = Vec::new(alloc);
    for leaf in 0..hierarchy.leaves.items().len() {
        push_leaf(&mut paths, hierarchy, cells, sources, leaf)?;
    }
    Ok(paths)
}

/// The same, with the bits that all bits have their data from.
fn all_paths(
    alloc: Global,
    hierarchy: &Hierarchy,
    cells: &Cells,
) -> Result<Vec<DataPath>, OutOfMemory>
    requires { IsFlattened cells.now hierarchy.now }
    ensures { IfOk result (λ paths. AreDataPaths hierarchy.now cells.now paths.items) }
{
    let bits = hierarchy.inner.items().len() as u32;
    let sources = sources(alloc, bits, hierarchy.joins.items())?;
    paths_of(alloc, hierarchy, cells, &sources)
}

/// The paths to all data pins whose data is from a pin of a cell of the clock, by the order of leaves and their pins.
pub fn data_paths(
    alloc: Global,
    hierarchy: &Hierarchy,
    cells: &Cells,
) -> Result<Items<DataPath>, OutOfMemory>
    requires { IsGivenHierarchy cells.now hierarchy.now }
    ensures { IfOk result (AreDataPaths hierarchy.now cells.now) }
{
    hierarchies_are_in_shape();
    Ok(Items::new(all_paths(alloc, hierarchy, cells)?))
}
