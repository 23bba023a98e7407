//! The elements of the design.
ghost use Rattle.std.specs.Prelude.{◌≡◌, ◌<◌, ◌+◌, ◌++◌, ◌∷◌, [], ◌-ℤ◌, pos, length, map, flat_map};
ghost use Rattle.std.specs.Prelude.{slice_index_or, zip, true, false, All, IfOk, OnOk, if◌then◌else◌};
ghost use Rattle.std.specs.Int.{int_max};
ghost use Rattle.mintc_flatten_hierarchy.specs.Shape.{IsFlattened};
ghost use Rattle.mintc_annotate_resolve.specs.Names.{HasNames};
ghost use Rattle.mintc_annotate_resolve.specs.Pins.{leaf_cell, leaf_path, dotted, is_storage};
ghost use Rattle.mintc_annotate.specs.Counts.{with_port, IsListedBit};
ghost use Rattle.mintc_annotate.specs.Made.{port_element};
ghost use Rattle.mintc_annotate.specs.Said.{element_said};
ghost use Rattle.mintc_annotate.specs.Phases.{storage};
ghost use Rattle.mintc_senses_expressions.specs.Transitions.{has};
ghost use Rattle.mintc_edges.specs.Edges.{each_edge, edge_name, is_rise};
ghost use Rattle.mintc_edges.specs.Numbers.{wider};
ghost use Rattle.mintc_edges.specs.Apart.{named_at, no_later_than};
ghost use Rattle.mintc_edges.specs.Kept.{leaf_kept};
ghost use Rattle.mintc_cells.specs.Entries.{cell_at};
ghost use Rattle.mintc_edges.specs.Stored.{merged_paths_kept, path_said, along_kept, paths_kept, merged_said_kept};
ghost use Rattle.mintc_edges.specs.Stored.{said_kept, stored_elements_kept, HasFewPins};

use crate::apart::Apart;
use crate::arcs::{LeafAt, leaf_at};
use crate::edge::{Edge, makes};
use crate::matters::first_pin;
use crate::spreads::{Spread, wider};
use mintc_annotate::{ListedBit, SaidOf, element_of, leaf_name, listed_element, next_element};
use mintc_annotate_resolve::is_storage;
use mintc_cells::Cell;
use mintc_clock::Listed;
use mintc_senses_expressions::Transitions;
use mintc_text::{Name, OutOfMemory};
use mintc_timing::Element;
use std::alloc::Global;

/// What is said of the paths from a pin of a latch or flop to all its outputs, whatever the edge.
fn merged_paths(apart: &Apart<'_>, stored: LeafAt, from: u32) -> Option<(i64, i64)>
    requires { HasFewPins stored }
    ensures { result ≡ merged_paths_kept apart.now.told.now stored from }
{
    let mut found = None;
    for output in 0..stored.outputs {
        let spread = apart.told.path(stored.leaf, from, stored.inputs + output);
        found = wider(found, spread.all());
    }
    found
}

/// What a path from a pin of a latch or flop says at an edge that it makes of an edge of the data: one from the data
/// pin begins at that edge, the first edge of one from an enable or a clock pin isn't read.
fn path_said(spread: Spread, from: u32, edge: Edge, to: Edge) -> Option<(i64, i64)>
    ensures { result ≡ path_said spread from edge to }
{
    if from == 0 {
        spread.at(edge, to)
    } else {
        spread.to(to)
    }
}

/// The same, where a sense has the transition from the edge of the data to that edge.
fn said_if(
    sense: Transitions,
    spread: Spread,
    from: u32,
    edge: Edge,
    to: Edge,
) -> Option<(i64, i64)>
    ensures { result ≡ (if has sense (is_rise edge) (is_rise to) then path_said spread from edge to else None) }
{
    if makes(sense, edge, to) {
        path_said(spread, from, edge, to)
    } else {
        None
    }
}

/// What is said of the path from a pin of a latch or flop to an output, counted among its outputs, at the edges that it
/// makes of an edge of its data.
fn said_along(
    apart: &Apart<'_>,
    stored: LeafAt,
    from: u32,
    output: u32,
    edge: Edge,
) -> Option<(i64, i64)>
    requires few { HasFewPins stored }
    requires output { output < stored.outputs }
    ensures { result ≡ along_kept apart.now.told.now apart.now.senses.now stored from edge output }
{
    let sense = apart.senses.sense(stored.cell, 0, output);
    let spread = apart.told.path(stored.leaf, from, stored.inputs + output);
    let rise = said_if(sense, spread, from, edge, Edge::Rise);
    let fall = said_if(sense, spread, from, edge, Edge::Fall);
    wider(rise, fall)
}

/// What is said of the paths from a pin of a latch or flop to all its outputs, where its data comes at an edge; where
/// nothing is, what is said whatever the edge.
fn paths_at(apart: &Apart<'_>, stored: LeafAt, from: u32, edge: Edge) -> Option<(i64, i64)>
    requires { HasFewPins stored }
    ensures { result ≡ paths_kept apart.now.told.now apart.now.senses.now stored from edge }
{
    let mut found = None;
    for output in 0..stored.outputs {
        found = wider(found, said_along(apart, stored, from, output, edge));
    }
    found.or(merged_paths(apart, stored, from))
}

/// What is said of a latch or flop whatever the edge.
fn merged_said(apart: &Apart<'_>, stored: LeafAt, cell: &Cell) -> SaidOf
    requires { HasFewPins stored }
    ensures { result ≡ merged_said_kept apart.now.told.now stored cell.now }
{
    SaidOf {
        dq: merged_paths(apart, stored, first_pin(cell)),
        cq: merged_paths(apart, stored, 1),
        setup: apart.told.setup(stored.leaf).all(),
        hold: apart.told.hold(stored.leaf).all(),
        width: apart.told.width(stored.leaf).all(),
    }
}

/// What is said of a latch or flop whose data comes at an edge.
fn said_at(apart: &Apart<'_>, stored: LeafAt, cell: &Cell, edge: Edge) -> SaidOf
    requires { HasFewPins stored }
    ensures { result ≡ said_kept apart.now.told.now apart.now.senses.now stored cell.now edge }
{
    SaidOf {
        dq: paths_at(apart, stored, first_pin(cell), edge),
        cq: paths_at(apart, stored, 1, edge),
        setup: apart.told.setup(stored.leaf).at(edge),
        hold: apart.told.hold(stored.leaf).at(edge),
        width: apart.told.width(stored.leaf).all(),
    }
}

/// What is left of a delay from the enable, less what the merged one has above that from its data.
fn opening(merged_dq: i64, merged_cq: i64, own_cq: i64) -> i128
    ensures { result ≡ own_cq -ℤ int_max (pos 0) (merged_cq -ℤ merged_dq) }
{
    let late = (i128::from(merged_cq) - i128::from(merged_dq)).max(0);
    i128::from(own_cq) - late
}

/// Makes the delay of an element from its data as great as it takes to open no later than the merged one.
fn open_no_later(merged: &Element, own: &mut Element)
    ensures { own.new ≡ no_later_than merged.now own.old }
{
    let opening = opening(merged.dq_max, merged.cq_max, own.cq_max);
    own.dq_max = i128::from(own.dq_max).max(opening) as i64;
}

/// The element of a latch or flop for data that comes at an edge, by the merged one.
fn element_at(
    alloc: Global,
    apart: &Apart<'_>,
    stored: LeafAt,
    cell: &Cell,
    merged: &Element,
    edge: Edge,
) -> Result<Element, OutOfMemory>
    requires few { HasFewPins stored }
    requires stored { is_storage cell.now ≡ true }
    ensures { IfOk result (λ e. e ≡ no_later_than merged.now
        (element_said (said_kept apart.now.told.now apart.now.senses.now stored cell.now edge)
        (edge_name merged.now.name edge) merged.now.phase cell.now)) }
{
    let said = said_at(apart, stored, cell, edge);
    let name = edge.name(alloc, merged.name.bytes())?;
    match element_of(said, name, merged.phase, cell) {
        Some(own) => {
            let mut own = own;
            open_no_later(merged, &mut own);
            Ok(own)
        }
        None => unreachable!(),
    }
}

/// Adds the two elements of a latch or flop.
fn push_stored(
    alloc: Global,
    apart: &Apart<'_>,
    stored: LeafAt,
    phase: u32,
    found: &mut Vec<Element>,
) -> Result<(), OutOfMemory>
    requires shape { IsFlattened apart.now.cells.now apart.now.hierarchy.now }
    requires names { HasNames apart.now.hierarchy.now }
    requires few { HasFewPins stored }
    requires leaf { stored.leaf < length apart.now.hierarchy.now.leaves }
    requires cell { stored.cell < length apart.now.cells.now }
    requires stored { is_storage (cell_at apart.now.cells.now stored.cell) ≡ true }
    ensures { OnOk result (found.new.items ≡ found.old.items
        ++ stored_elements_kept apart.now.told.now apart.now.senses.now stored
        (dotted (leaf_path apart.now.hierarchy.now stored.leaf)) phase (cell_at apart.now.cells.now stored.cell)) }
{
    let cell = apart.cells.cell(stored.cell);
    let name = leaf_name(alloc, apart.hierarchy, stored.leaf as usize)?;
    match element_of(merged_said(apart, stored, cell), name, phase, cell) {
        Some(merged) => {
            found.push(element_at(alloc, apart, stored, cell, &merged, Edge::Rise)?)?;
            found.push(element_at(alloc, apart, stored, cell, &merged, Edge::Fall)?)?;
            Ok(())
        }
        None => unreachable!(),
    }
}

/// Adds the elements of a leaf, if it is a latch or a flop; its phase is the next one after so many.
fn push_leaf(
    alloc: Global,
    apart: &Apart<'_>,
    phases: &[u32],
    leaf: u32,
    number: u32,
    found: &mut Vec<Element>,
) -> Result<(), OutOfMemory>
    requires shape { IsFlattened apart.now.cells.now apart.now.hierarchy.now }
    requires leaf { leaf < length apart.now.hierarchy.now.leaves }
    requires phase { is_storage (leaf_cell apart.now.hierarchy.now apart.now.cells.now leaf) ≡ true →
        number < length phases.now }
    ensures { OnOk result (found.new.items ≡ found.old.items
        ++ (if is_storage (leaf_cell apart.now.hierarchy.now apart.now.cells.now leaf)
        then stored_elements_kept apart.now.told.now apart.now.senses.now
        (leaf_kept apart.now.hierarchy.now apart.now.cells.now 0 leaf)
        (dotted (leaf_path apart.now.hierarchy.now leaf)) (slice_index_or phases.now number 0)
        (leaf_cell apart.now.hierarchy.now apart.now.cells.now leaf) else [])) }
{
    let known = leaf_at(apart, 0, leaf);
    if !is_storage(apart.cells.cell(known.cell)) {
        return Ok(());
    }
    push_stored(alloc, apart, known, phases[number as usize], found)
}

/// Adds the elements of latches and flops, two for each, whose phases are these in the order of their leaves.
pub(crate) fn push_storage(
    alloc: Global,
    apart: &Apart<'_>,
    phases: &[u32],
    found: &mut Vec<Element>,
) -> Result<(), OutOfMemory>
    requires shape { IsFlattened apart.now.cells.now apart.now.hierarchy.now }
    requires phases { length phases.now ≡ length (storage apart.now.hierarchy.now apart.now.cells.now) }
    ensures { OnOk result (found.new.items ≡ found.old.items
        ++ flat_map (λ x. stored_elements_kept apart.now.told.now apart.now.senses.now
        (leaf_kept apart.now.hierarchy.now apart.now.cells.now 0 x.0)
        (dotted (leaf_path apart.now.hierarchy.now x.0)) x.1
        (leaf_cell apart.now.hierarchy.now apart.now.cells.now x.0))
        (zip (storage apart.now.hierarchy.now apart.now.cells.now) phases.now)) }
{
    let mut number = 0;
    for leaf in 0..apart.hierarchy.leaves.items().len() as u32 {
        push_leaf(alloc, apart, phases, leaf, number, found)?;
        number = next_element(apart.hierarchy, apart.cells, leaf, number);
    }
    Ok(())
}

/// The element of a bit of a listed port at an edge, by the name of the bit.
fn port_element_at(
    alloc: Global,
    name: &Name,
    listed: &Listed,
    edge: Edge,
) -> Result<Element, OutOfMemory>
    ensures { IfOk result (λ e. e ≡ named_at edge (port_element (name.now ∷ []) (listed.now, 0))) }
{
    let name = edge.name(alloc, name.bytes())?;
    Ok(listed_element(name, listed))
}

/// Adds the two elements of a bit of a listed port.
fn push_port(
    alloc: Global,
    name: &Name,
    listed: &Listed,
    found: &mut Vec<Element>,
) -> Result<(), OutOfMemory>
    ensures { OnOk result (found.new.items ≡ found.old.items
        ++ each_edge (λ e. named_at e (port_element (name.now ∷ []) (listed.now, 0)))) }
{
    found.push(port_element_at(alloc, name, listed, Edge::Rise)?)?;
    found.push(port_element_at(alloc, name, listed, Edge::Fall)?)?;
    Ok(())
}

/// Adds the elements of bits of listed ports, two for each.
pub(crate) fn push_ports(
    alloc: Global,
    names: &[Name],
    listed: &[Listed],
    bits: &[ListedBit],
    found: &mut Vec<Element>,
) -> Result<(), OutOfMemory>
    requires { All (IsListedBit (length listed.now) (length names.now)) bits.now }
    ensures { OnOk result (found.new.items ≡ found.old.items
        ++ flat_map (λ x. each_edge (λ e. named_at e (port_element names.now x)))
        (map (with_port listed.now) bits.now)) }
{
    for at in bits {
        push_port(alloc, &names[at.bit as usize], &listed[at.place], found)?;
    }
    Ok(())
}
