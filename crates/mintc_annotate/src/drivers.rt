//! What drives each bit of a hierarchy.
ghost use Rattle.std.specs.Prelude.{◌≡◌, ◌<◌, ◌++◌, List, length, map, flat_map, [], All, IfOk};
ghost use Rattle.mintc_flatten_hierarchy.specs.Shape.{IsFlattened};
ghost use Rattle.mintc_annotate.specs.Phases.{drives, join_drive, cell_drives};
ghost use Rattle.mintc_annotate_resolve.specs.Pins.{all_leaves, leaf_cell};
ghost use Rattle.mintc_annotate.specs.Searches.{AreDrivers};
ghost use Rattle.mintc_annotate.specs.declared.searching.Drive.{Drive};

use crate::searching::{Drive, add, no_drivers};
use mintc_cells::{Cell, Cells};
use mintc_flatten_hierarchy::{Hierarchy, Join};
use mintc_text::OutOfMemory;
use std::alloc::Global;

/// Adds what joins drive.
fn add_joins(table: &mut [Option<Drive>], joins: &[Join])
    requires { All (λ j. (j.from < length table.old) × (j.to < length table.old)) joins.now }
    ensures size { length table.new ≡ length table.old }
    ensures added { (ds : List Drive) → AreDrivers ds (length table.old) table.old →
        AreDrivers (ds ++ map join_drive joins.now) (length table.old) table.new }
{
    for join in joins {
        add(
            table,
            Drive {
                to: join.to,
                from: join.from,
                inverts: false,
            },
        );
    }
}

/// Adds what a leaf drives, if it is a clock cell.
fn add_cell(table: &mut [Option<Drive>], hierarchy: &Hierarchy, cells: &Cells, number: usize)
    requires shape { IsFlattened cells.now hierarchy.now }
    requires bits { length table.old ≡ length hierarchy.now.inner }
    requires leaf { number < length hierarchy.now.leaves }
    ensures size { length table.new ≡ length table.old }
    ensures added { (ds : List Drive) → AreDrivers ds (length table.old) table.old →
        AreDrivers (ds ++ cell_drives hierarchy.now number (leaf_cell hierarchy.now cells.now number))
        (length table.old) table.new }
{
    let leaf = &hierarchy.leaves.items()[number];
    if let Cell::Clock {
        invert,
        ignored,
        ..
    } = cells.cell(leaf.cell)
    {
        let output = leaf.first_pin + (ignored.items().len() as u32 + 1);
        add(
            table,
            Drive {
                to: output,
                from: leaf.first_pin,
                inverts: *invert,
            },
        );
    }
}

/// Adds what the clock cells of a hierarchy drive.
fn add_cells(table: &mut [Option<Drive>], hierarchy: &Hierarchy, cells: &Cells)
    requires shape { IsFlattened cells.now hierarchy.now }
    requires bits { length table.old ≡ length hierarchy.now.inner }
    ensures size { length table.new ≡ length table.old }
    ensures added { (ds : List Drive) → AreDrivers ds (length table.old) table.old →
        AreDrivers (ds ++ flat_map (λ l. cell_drives hierarchy.now l (leaf_cell hierarchy.now cells.now l))
        (all_leaves hierarchy.now)) (length table.old) table.new }
{
    for number in 0..hierarchy.leaves.items().len() {
        add_cell(table, hierarchy, cells, number);
    }
}

/// Adds what joins and clock cells drive.
fn add_all(table: &mut [Option<Drive>], hierarchy: &Hierarchy, cells: &Cells)
    requires shape { IsFlattened cells.now hierarchy.now }
    requires bits { length table.old ≡ length hierarchy.now.inner }
    ensures size { length table.new ≡ length table.old }
    ensures added { AreDrivers [] (length table.old) table.old →
        AreDrivers (drives hierarchy.now cells.now) (length table.old) table.new }
{
    add_joins(table, hierarchy.joins.items());
    add_cells(table, hierarchy, cells);
}

/// What drives each bit.
pub(crate) fn drivers(
    alloc: Global,
    hierarchy: &Hierarchy,
    cells: &Cells,
) -> Result<Vec<Option<Drive>>, OutOfMemory>
    requires { IsFlattened cells.now hierarchy.now }
    ensures { IfOk result
        (λ table. AreDrivers (drives hierarchy.now cells.now) (length hierarchy.now.inner) table.items) }
{
    let mut table = no_drivers(alloc, hierarchy.inner.items().len())?;
    add_all(&mut table, hierarchy, cells);
    Ok(table)
}
