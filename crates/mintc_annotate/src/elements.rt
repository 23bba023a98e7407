//! The elements of a design.
ghost use Rattle.std.specs.Prelude.{◌≡◌, ◌<◌, ◌≤◌, ◌++◌, ◌∷◌, [], length, map, slice_index_or, true, false, All};
ghost use Rattle.std.specs.Prelude.{MatchOption, IfOk, OnOk};
ghost use Rattle.mintc_flatten_hierarchy.specs.Shape.{IsFlattened};
ghost use Rattle.mintc_annotate_resolve.specs.Names.{HasNames};
ghost use Rattle.mintc_annotate_resolve.specs.Pins.{leaf_cell, leaf_path, dotted, is_storage};
ghost use Rattle.mintc_annotate_delays.specs.Ranges.{look};
ghost use Rattle.mintc_annotate.specs.Phases.{storage};
ghost use Rattle.mintc_annotate.specs.Counts.{with_port, IsListedBit};
ghost use Rattle.mintc_annotate.specs.Made.{element_of, elements_at, port_element, storage_elements};

use crate::listing::ListedBit;
use crate::naming::leaf_name;
use crate::stored::{element_of, said_of};
use crate::timed::Timed;
use mintc_annotate_delays::Ranges;
use mintc_annotate_resolve::is_storage;
use mintc_cells::Cell;
use mintc_clock::Listed;
use mintc_text::{Name, OutOfMemory};
use mintc_timing::Element;
use std::alloc::Global;

/// The element of a leaf that is a latch or flop; None of any other cell.
fn element_in(ranges: &Ranges, name: Name, leaf: u32, phase: u32, cell: &Cell) -> Option<Element>
    ensures { MatchOption result (is_storage cell.now ≡ false)
        (λ e. e ≡ element_of (look ranges.now) name leaf phase cell.now) }
{
    element_of(said_of(ranges, leaf), name, phase, cell)
}

/// Adds the element of a latch or flop.
fn push_stored(
    alloc: Global,
    timed: &Timed<'_>,
    cell: &Cell,
    leaf: u32,
    phase: u32,
    found: &mut Vec<Element>,
) -> Result<(), OutOfMemory>
    requires shape { HasNames timed.now.hierarchy.now }
    requires leaf { leaf < length timed.now.hierarchy.now.leaves }
    requires stored { is_storage cell.now ≡ true }
    ensures { OnOk result (found.new.items ≡ found.old.items ++ element_of (look timed.now.ranges.now)
        (dotted (leaf_path timed.now.hierarchy.now leaf)) leaf phase cell.now ∷ []) }
{
    let name = leaf_name(alloc, timed.hierarchy, leaf as usize)?;
    match element_in(timed.ranges, name, leaf, phase, cell) {
        Some(element) => {
            found.push(element)?;
            Ok(())
        }
        None => unreachable!(),
    }
}

/// Adds the element of a leaf, if it is a latch or a flop.
fn push_leaf(
    alloc: Global,
    timed: &Timed<'_>,
    phases: &[u32],
    leaf: u32,
    found: &mut Vec<Element>,
) -> Result<(), OutOfMemory>
    requires shape { IsFlattened timed.now.cells.now timed.now.hierarchy.now }
    requires leaf { leaf < length timed.now.hierarchy.now.leaves }
    requires phase { is_storage (leaf_cell timed.now.hierarchy.now timed.now.cells.now leaf) ≡ true →
        length found.old.items < length phases.now }
    ensures { OnOk result (found.new.items ≡ found.old.items
        ++ elements_at timed.now.hierarchy.now timed.now.cells.now (look timed.now.ranges.now) leaf
        (slice_index_or phases.now (length found.old.items) 0)) }
{
    let cell = timed
        .cells
        .cell(timed.hierarchy.leaves.items()[leaf as usize].cell);
    if !is_storage(cell) {
        return Ok(());
    }
    push_stored(alloc, timed, cell, leaf, phases[found.len()], found)
}

/// Adds the elements of latches and flops.
pub(crate) fn push_storage(
    alloc: Global,
    timed: &Timed<'_>,
    phases: &[u32],
    found: &mut Vec<Element>,
) -> Result<(), OutOfMemory>
    requires shape { IsFlattened timed.now.cells.now timed.now.hierarchy.now }
    requires phases { length phases.now ≡ length (storage timed.now.hierarchy.now timed.now.cells.now) }
    requires first { found.old.items ≡ [] }
    ensures { OnOk result (found.new.items ≡ storage_elements timed.now.hierarchy.now timed.now.cells.now
        (look timed.now.ranges.now) phases.now) }
{
    for leaf in 0..timed.hierarchy.leaves.items().len() as u32 {
        push_leaf(alloc, timed, phases, leaf, found)?;
    }
    Ok(())
}

/// The element of a bit of a listed port, by the name of the bit.
pub fn listed_element(name: Name, listed: &Listed) -> Element
    ensures { result ≡ port_element (name ∷ []) (listed.now, 0) }
{
    Element {
        name,
        phase: listed.phase,
        flop: false,
        setup: listed.setup,
        hold: listed.hold,
        has_hold: listed.has_hold,
        dq_min: listed.min,
        dq_max: listed.max,
        cq_min: listed.min,
        cq_max: listed.max,
        width: 0,
    }
}

/// The element of a bit of a listed port.
fn port_element(
    alloc: Global,
    names: &[Name],
    listed: &Listed,
    bit: u32,
) -> Result<Element, OutOfMemory>
    requires { bit < length names.now }
    ensures { IfOk result (λ e. e ≡ port_element names.now (listed.now, bit)) }
{
    let name = names[bit as usize].copy(alloc)?;
    Ok(listed_element(name, listed))
}

/// Adds the elements of bits of listed ports.
pub(crate) fn push_ports(
    alloc: Global,
    names: &[Name],
    listed: &[Listed],
    bits: &[ListedBit],
    found: &mut Vec<Element>,
) -> Result<(), OutOfMemory>
    requires { All (IsListedBit (length listed.now) (length names.now)) bits.now }
    ensures { OnOk result (found.new.items ≡ found.old.items
        ++ map (port_element names.now) (map (with_port listed.now) bits.now)) }
{
    for at in bits {
        let element = port_element(alloc, names, &listed[at.place], at.bit)?;
        found.push(element)?;
    }
    Ok(())
}
