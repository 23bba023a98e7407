//! What a number of a delay is of, with the pins of latches and flops told apart.
ghost use Rattle.std.specs.Prelude.{◌≡◌, ◌<◌, if◌then◌else◌, length};
ghost use Rattle.mintc_flatten_hierarchy.specs.Shape.{IsFlattened};
ghost use Rattle.mintc_annotate_resolve.specs.Targets.{IsThere, target_of};
ghost use Rattle.mintc_annotate.specs.Made.{is_flop};
ghost use Rattle.mintc_edges.specs.Matters.{path_from, matter_of};

use mintc_annotate_resolve::{Target, output_pin};
use mintc_cells::{Cell, Cells};
use mintc_flatten_hierarchy::Hierarchy;
use mintc_sdf::Subject;

/// What a number is of: the path from one pin of a leaf to another, be it a gate, a latch or a flop; the join into a
/// bit; the arcs that leave a bit of a port; or a check of the latch or flop of a leaf.
#[derive(Clone, Copy, Debug)]
pub(crate) enum Matter {
    Path { leaf: u32, from: u32, to: u32 },
    Join { bit: u32 },
    Port { bit: u32 },
    Setup { leaf: u32 },
    Hold { leaf: u32 },
    Width { leaf: u32 },
}

/// The pin from which the delays of the data of a cell are: of a flop the clock pin, else the first.
pub(crate) fn first_pin(cell: &Cell) -> u32
    ensures { result ≡ (if is_flop cell.now then 1 else 0) }
{
    match cell {
        Cell::Flop { .. } => 1,
        Cell::Gate { .. } | Cell::Latch { .. } | Cell::Clock { .. } => 0,
    }
}

/// The path that a delay is of, from a pin of a leaf to that of its subject's end.
fn path_from(
    hierarchy: &Hierarchy,
    cells: &Cells,
    leaf: u32,
    from: u32,
    subject: &Subject,
) -> Option<Matter>
    requires shape { IsFlattened cells.now hierarchy.now }
    requires leaf { leaf < length hierarchy.now.leaves }
    ensures { result ≡ path_from hierarchy.now cells.now leaf from subject.now }
{
    match subject {
        Subject::Iopath { to, .. } => {
            let cell = hierarchy.leaves.items()[leaf as usize].cell;
            match output_pin(cells, cell, to.bytes()) {
                Some(to) => Some(Matter::Path { leaf, from, to }),
                None => None,
            }
        }
        _ => None,
    }
}

/// What a target that a subject annotates is, by its pins.
pub(crate) fn matter_of(
    hierarchy: &Hierarchy,
    cells: &Cells,
    target: Target,
    subject: &Subject,
) -> Option<Matter>
    requires shape { IsFlattened cells.now hierarchy.now }
    requires there { IsThere hierarchy.now target }
    ensures { result ≡ matter_of hierarchy.now cells.now (target_of target) subject.now }
{
    match target {
        Target::PathOn { leaf, from, to } => Some(Matter::Path { leaf, from, to }),
        Target::JoinInto { bit } => Some(Matter::Join { bit }),
        Target::ArcsFrom { bit } => Some(Matter::Port { bit }),
        Target::DqOf { leaf } => {
            let from = first_pin(cells.cell(hierarchy.leaves.items()[leaf as usize].cell));
            path_from(hierarchy, cells, leaf, from, subject)
        }
        Target::CqOf { leaf } => path_from(hierarchy, cells, leaf, 1, subject),
        Target::SetupOf { leaf } => Some(Matter::Setup { leaf }),
        Target::HoldOf { leaf } => Some(Matter::Hold { leaf }),
        Target::WidthOf { leaf } => Some(Matter::Width { leaf }),
    }
}
