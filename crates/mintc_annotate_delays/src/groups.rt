//! The leaves of each cell.
ghost use Rattle.std.specs.Prelude.{◌<◌, length, IfOk, OnOk};
ghost use Rattle.mintc_flatten_hierarchy.specs.Shape.{IsFlattened};
ghost use Rattle.mintc_annotate_delays.specs.Groups.{AreGrouped};
ghost use Rattle.mintc_annotate_delays.specs.Gathered.{IsGroupedIn};

use mintc_cells::Cells;
use mintc_flatten_hierarchy::Hierarchy;
use mintc_text::OutOfMemory;
use std::alloc::Global;

/// Puts a leaf to those of its cell.
fn group(groups: &mut Vec<Vec<u32>>, cell: usize, leaf: u32) -> Result<(), OutOfMemory>
    requires { cell < length groups.old.items }
    ensures { OnOk result (IsGroupedIn groups.old.items groups.new.items cell leaf) }
{
    groups[cell].push(leaf)?;
    Ok(())
}

/// The numbers of the leaves of each cell, in their order, by the number of the cell.
pub fn leaves_by_cell(
    alloc: Global,
    hierarchy: &Hierarchy,
    cells: &Cells,
) -> Result<Vec<Vec<u32>>, OutOfMemory>
    requires { IsFlattened cells.now hierarchy.now }
    ensures { IfOk result (λ v. AreGrouped hierarchy.now (length cells.now) v.items) }
{
    let mut groups = Vec::new(alloc);
    for cell in 0..cells.count() {
        groups.push(Vec::new(alloc))?;
    }
    let leaves = hierarchy.leaves.items();
    for number in 0..leaves.len() {
        let leaf = &leaves[number];
        group(&mut groups, leaf.cell as usize, number as u32)?;
    }
    Ok(groups)
}
