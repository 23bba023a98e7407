//! What a delay at a leaf annotates.
ghost use Rattle.std.specs.Prelude.{◌≡◌, ◌<◌, length, option_map, IfSome};
ghost use Rattle.mintc_sdf.specs.declared.delays.Subject.TheVariants as subject;
ghost use Rattle.mintc_flatten_hierarchy.specs.Shape.{IsFlattened};
ghost use Rattle.mintc_annotate_resolve.specs.Pins.{leaf_cell, pin_bit, input_pin, is_storage};
ghost use Rattle.mintc_annotate_resolve.specs.Resolution.{of_path, of_check, pins_named, of_leaf};
ghost use Rattle.mintc_annotate_resolve.specs.Targets.{target_of, targets_of, IsThere, IsResolved};

use crate::pins::{input_pin, output_pin};
use mintc_cells::{Cell, Cells};
use mintc_flatten_hierarchy::Hierarchy;
use mintc_sdf::Subject;

/// What a number may annotate: the arc of a gate, the join into a bit, the arcs that leave a bit of a port, or a
/// number of the latch or flop of a leaf.
#[derive(Clone, Copy, Debug)]
pub enum Target {
    PathOn { leaf: u32, from: u32, to: u32 },
    JoinInto { bit: u32 },
    ArcsFrom { bit: u32 },
    DqOf { leaf: u32 },
    CqOf { leaf: u32 },
    SetupOf { leaf: u32 },
    HoldOf { leaf: u32 },
    WidthOf { leaf: u32 },
}

/// What a delay annotates, which may be nothing; or why it names nothing that it could annotate.
#[derive(Clone, Copy, Debug)]
pub enum Resolved {
    Of(Option<Target>),
    NoInstance,
    NoArc,
}

/// What a path through a leaf annotates.
fn of_path(cell: &Cell, leaf: u32, from: u32, to: u32) -> Option<Target>
    ensures { targets_of result ≡ of_path leaf cell.now from to }
{
    match cell {
        Cell::Gate { .. } => Some(Target::PathOn { leaf, from, to }),
        Cell::Latch { .. } => {
            if from == 0 {
                Some(Target::DqOf { leaf })
            } else if from == 1 {
                Some(Target::CqOf { leaf })
            } else {
                None
            }
        }
        Cell::Flop { .. } => if from == 1 {
            Some(Target::DqOf { leaf })
        } else {
            None
        },
        Cell::Clock { .. } => None,
    }
}

/// Whether a cell is a latch or a flop.
pub fn is_storage(cell: &Cell) -> bool
    ensures { result ≡ is_storage cell.now }
{
    match cell {
        Cell::Latch { .. } | Cell::Flop { .. } => true,
        Cell::Gate { .. } | Cell::Clock { .. } => false,
    }
}

/// What a check at a pin annotates: of a latch or flop, at the one pin that matters.
fn of_check(cell: &Cell, wanted: u32, target: Target, pin: u32) -> Option<Target>
    ensures { targets_of result ≡ of_check cell.now wanted (target_of target) pin }
{
    if is_storage(cell) && pin == wanted {
        Some(target)
    } else {
        None
    }
}

/// What a path through a leaf annotates, by the names of its pins.
fn iopath(hierarchy: &Hierarchy, cells: &Cells, leaf: u32, from: &[u8], to: &[u8]) -> Resolved
    requires shape { IsFlattened cells.now hierarchy.now }
    requires leaf { leaf < length hierarchy.now.leaves }
    ensures { IsResolved hierarchy.now result (of_leaf hierarchy.now cells.now leaf (subject.Iopath from.now to.now)) }
{
    let cell = hierarchy.leaves.items()[leaf as usize].cell;
    let Some(start) = input_pin(cells, cell, from) else {
        return Resolved::NoArc;
    };
    let Some(end) = output_pin(cells, cell, to) else {
        return Resolved::NoArc;
    };
    Resolved::Of(of_path(cells.cell(cell), leaf, start, end))
}

/// The bit of an input pin of a leaf.
pub(crate) fn input_bit(hierarchy: &Hierarchy, cells: &Cells, leaf: u32, pin: &[u8]) -> Option<u32>
    requires shape { IsFlattened cells.now hierarchy.now }
    requires leaf { leaf < length hierarchy.now.leaves }
    ensures bit { result ≡ option_map (pin_bit hierarchy.now leaf)
        (input_pin (leaf_cell hierarchy.now cells.now leaf) pin.now) }
    ensures there { IfSome result (λ b. b < length hierarchy.now.inner) }
{
    let instance = &hierarchy.leaves.items()[leaf as usize];
    let Some(number) = input_pin(cells, instance.cell, pin) else {
        return None;
    };
    Some(instance.first_pin + number)
}

/// What the wires into a pin of a leaf annotate.
fn port(hierarchy: &Hierarchy, cells: &Cells, leaf: u32, pin: &[u8]) -> Resolved
    requires shape { IsFlattened cells.now hierarchy.now }
    requires leaf { leaf < length hierarchy.now.leaves }
    ensures { IsResolved hierarchy.now result (of_leaf hierarchy.now cells.now leaf (subject.Port pin.now)) }
{
    match input_bit(hierarchy, cells, leaf, pin) {
        Some(bit) => Resolved::Of(Some(Target::JoinInto { bit })),
        None => Resolved::NoArc,
    }
}

/// What a check at a pin of a leaf annotates.
fn check(
    hierarchy: &Hierarchy,
    cells: &Cells,
    leaf: u32,
    pin: &[u8],
    wanted: u32,
    target: Target,
) -> Resolved
    requires shape { IsFlattened cells.now hierarchy.now }
    requires leaf { leaf < length hierarchy.now.leaves }
    requires target { IsThere hierarchy.now target }
    ensures { IsResolved hierarchy.now result
        (pins_named (option_map (of_check (leaf_cell hierarchy.now cells.now leaf) wanted (target_of target))
        (input_pin (leaf_cell hierarchy.now cells.now leaf) pin.now))) }
{
    let cell = hierarchy.leaves.items()[leaf as usize].cell;
    match input_pin(cells, cell, pin) {
        Some(number) => Resolved::Of(of_check(cells.cell(cell), wanted, target, number)),
        None => Resolved::NoArc,
    }
}

/// What a delay at a leaf annotates.
pub fn at_leaf(hierarchy: &Hierarchy, cells: &Cells, leaf: u32, subject: &Subject) -> Resolved
    requires shape { IsFlattened cells.now hierarchy.now }
    requires leaf { leaf < length hierarchy.now.leaves }
    ensures { IsResolved hierarchy.now result (of_leaf hierarchy.now cells.now leaf subject.now) }
{
    match subject {
        Subject::Iopath { from, to } => iopath(hierarchy, cells, leaf, from.bytes(), to.bytes()),
        Subject::Port { pin } => port(hierarchy, cells, leaf, pin.bytes()),
        Subject::Setup { pin } => check(
            hierarchy,
            cells,
            leaf,
            pin.bytes(),
            0,
            Target::SetupOf { leaf },
        ),
        Subject::Hold { pin } => check(
            hierarchy,
            cells,
            leaf,
            pin.bytes(),
            0,
            Target::HoldOf { leaf },
        ),
        Subject::Width { pin } => check(
            hierarchy,
            cells,
            leaf,
            pin.bytes(),
            1,
            Target::WidthOf { leaf },
        ),
        Subject::Interconnect { .. } => Resolved::NoInstance,
    }
}
