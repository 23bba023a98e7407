//! How many elements and arcs a design has, before anything of it is built.
ghost use Rattle.std.specs.Prelude.{◌≡◌, ◌≤◌, ◌+◌, ◌^◌, min};
ghost use Rattle.mintc_text.specs.declared.limits.TheConstants.{MOST_INNER};
ghost use Rattle.mintc_flatten_hierarchy.specs.Shape.{IsFlattened};
ghost use Rattle.mintc_annotate_resolve.specs.Pins.{input_count, output_count};
ghost use Rattle.mintc_annotate.specs.Counts.{arc_count, leaf_arc_count};

use mintc_cells::{Cell, Cells};
use mintc_flatten_hierarchy::Hierarchy;
use mintc_text::limits::MOST_TOLD;

/// How many arcs a leaf of a cell has.
fn arc_count(cell: &Cell) -> u64
    requires { input_count cell.now + output_count cell.now ≤ MOST_INNER }
    ensures value { result ≡ arc_count cell.now }
    ensures small { result ≤ 2 ^ 46 }
{
    match cell {
        Cell::Gate {
            inputs,
            outputs,
            ..
        } => inputs.items().len() as u64 * outputs.items().len() as u64,
        Cell::Latch { outputs, .. } => outputs.items().len() as u64 + 1,
        Cell::Flop { outputs, .. } => outputs.items().len() as u64 + 1,
        Cell::Clock { .. } => 0,
    }
}

/// How many arcs all leaves have, up to `MOST_TOLD`.
pub(crate) fn leaf_arc_count(hierarchy: &Hierarchy, cells: &Cells) -> u64
    requires { IsFlattened cells.now hierarchy.now }
    ensures { result ≡ min (leaf_arc_count hierarchy.now cells.now) MOST_TOLD }
{
    let leaves = hierarchy.leaves.items();
    let mut total = 0;
    for leaf in leaves {
        total = (total + arc_count(cells.cell(leaf.cell))).min(MOST_TOLD);
    }
    total
}
