//! The latches and flops of a hierarchy.
ghost use Rattle.std.specs.Prelude.{◌≡◌, ◌≤◌};
ghost use Rattle.mintc_flatten_hierarchy.specs.Shape.{IsFlattened, IsGivenHierarchy};
ghost use Rattle.mintcx_lint.specs.Storage.{storage_count, storage_in};

use mintc_annotate_resolve::is_storage;
use mintc_cells::{Cell, Cells};
use mintc_flatten_hierarchy::{Hierarchy, hierarchies_are_in_shape};

/// 1 for a cell that is a latch or a flop.
fn storage_in(cell: &Cell) -> usize
    ensures value { result ≡ storage_in cell.now }
    ensures small { result ≤ 1 }
{
    if is_storage(cell) { 1 } else { 0 }
}

/// How many leaves of a hierarchy in shape are latches or flops.
fn count_storage(hierarchy: &Hierarchy, cells: &Cells) -> usize
    requires { IsFlattened cells.now hierarchy.now }
    ensures { result ≡ storage_count hierarchy.now cells.now }
{
    let mut count = 0;
    for leaf in hierarchy.leaves.items() {
        count += storage_in(cells.cell(leaf.cell));
    }
    count
}

/// How many leaves of a hierarchy are latches or flops. Of all elements of its design these are the first.
pub fn storage_count(hierarchy: &Hierarchy, cells: &Cells) -> usize
    requires { IsGivenHierarchy cells.now hierarchy.now }
    ensures { result ≡ storage_count hierarchy.now cells.now }
{
    hierarchies_are_in_shape();
    count_storage(hierarchy, cells)
}
