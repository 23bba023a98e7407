//! The arcs of the design.
ghost use Rattle.std.specs.Prelude.{◌≡◌, ◌<◌, ◌≤◌, ◌+◌, ◌++◌, ◌∷◌, [], List, length, map, flat_map, true, All, OnOk};
ghost use Rattle.std.specs.Prelude.{if◌then◌else◌};
ghost use Rattle.mintc_text.specs.declared.limits.TheConstants.{MOST_ELEMENTS, MOST_INNER};
ghost use Rattle.mintc_flatten_hierarchy.specs.Shape.{IsFlattened};
ghost use Rattle.mintc_annotate_resolve.specs.Pins.{leaf_cell, all_leaves, is_storage, input_count, output_count};
ghost use Rattle.mintc_clock.specs.declared.clock.Listed.{Listed};
ghost use Rattle.mintc_senses.specs.Senses.{sense_at};
ghost use Rattle.mintc_senses_expressions.specs.Transitions.{has};
ghost use Rattle.mintc_timing.specs.Paths.{output_of};
ghost use Rattle.mintc_annotate.specs.Counts.{with_port};
ghost use Rattle.mintc_annotate.specs.Made.{arc_of, no_delay};
ghost use Rattle.mintc_annotate.specs.Phases.{storage};
ghost use Rattle.mintc_edges.specs.Edges.{each_edge, at_edge, is_rise};
ghost use Rattle.mintc_edges.specs.Apart.{bit_apart, input_arcs_apart};
ghost use Rattle.mintc_edges.specs.Kept.{IsSmall, join_arc_kept, gate_arc_kept, pin_arcs_kept, row_arcs_kept};
ghost use Rattle.mintc_edges.specs.Kept.{gate_arcs_kept, data_arc_kept, output_arc_kept, output_arcs_kept};
ghost use Rattle.mintc_edges.specs.Kept.{stored_arcs_kept, leaf_arcs_kept, leaf_arcs_in, leaf_kept, port_arc_kept};
ghost use Rattle.mintc_edges.specs.Kept.{output_arcs_of};

use crate::apart::Apart;
use crate::edge::{
    Edge, FALL_TO_FALL, FALL_TO_RISE, RISE_TO_FALL, RISE_TO_RISE, Transition, makes,
};
use crate::told::Told;
use mintc_annotate::{ListedBit, next_element, push_arc};
use mintc_cells::Cell;
use mintc_flatten_hierarchy::Join;
use mintc_text::OutOfMemory;
use mintc_timing::TimingArc;

/// A leaf in a design in which so many elements stand twice: its number, the number of its cell, its first inner bit,
/// and how many inputs and outputs it has.
#[derive(Clone, Copy)]
pub(crate) struct LeafAt {
    elements: u32,
    pub(crate) leaf: u32,
    pub(crate) cell: u32,
    first: u32,
    pub(crate) inputs: u32,
    pub(crate) outputs: u32,
}

/// An inner bit at an edge, as a bit of a design in which so many elements stand twice.
fn bit_apart(elements: u32, bit: u32, edge: Edge) -> u32
    requires elements { elements ≤ MOST_ELEMENTS }
    requires bit { bit ≤ MOST_INNER }
    ensures { result ≡ bit_apart elements bit edge }
{
    4 * elements + edge.at(bit)
}

/// Adds the arc of a join at an edge.
fn push_join_at(
    found: &mut Vec<TimingArc>,
    told: &Told,
    elements: u32,
    join: &Join,
    edge: Edge,
) -> Result<(), OutOfMemory>
    requires elements { elements ≤ MOST_ELEMENTS }
    requires from { join.now.from < MOST_INNER }
    requires to { join.now.to < MOST_INNER }
    ensures { OnOk result (found.new.items ≡ found.old.items ++ join_arc_kept told.now elements join.now edge ∷ []) }
{
    let said = told.join(join.to).at(edge);
    push_arc(
        found,
        bit_apart(elements, join.from, edge),
        bit_apart(elements, join.to, edge),
        said.unwrap_or((0, 0)),
    )
}

/// Adds the arcs of joins: two for each.
pub(crate) fn push_joins(
    found: &mut Vec<TimingArc>,
    told: &Told,
    elements: u32,
    joins: &[Join],
) -> Result<(), OutOfMemory>
    requires elements { elements ≤ MOST_ELEMENTS }
    requires joins { All (λ j. (j.from < MOST_INNER) × (j.to < MOST_INNER)) joins.now }
    ensures { OnOk result (found.new.items ≡ found.old.items
        ++ flat_map (λ j. each_edge (join_arc_kept told.now elements j)) joins.now) }
{
    for join in joins {
        push_join_at(found, told, elements, join, Edge::Rise)?;
        push_join_at(found, told, elements, join, Edge::Fall)?;
    }
    Ok(())
}

/// An input of a gate, and an output, counted among its outputs.
#[derive(Clone, Copy)]
pub(crate) struct PinPair {
    input: u32,
    output: u32,
}

/// Adds the arc of a gate between two pins from an edge to an edge, if their sense has it.
fn push_transition(
    found: &mut Vec<TimingArc>,
    apart: &Apart<'_>,
    gate: LeafAt,
    default: (i64, i64),
    pins: PinPair,
    edges: Transition,
) -> Result<(), OutOfMemory>
    requires gate { IsSmall gate }
    requires input { pins.input < gate.inputs }
    requires output { pins.output < gate.outputs }
    ensures { OnOk result (found.new.items ≡ found.old.items
        ++ (if has (sense_at apart.now.senses.now gate.cell pins.input pins.output) (is_rise edges.from)
        (is_rise edges.to)
        then gate_arc_kept apart.now.told.now gate default pins.input pins.output edges ∷ [] else [])) }
{
    let pin = gate.inputs + pins.output;
    let sense = apart.senses.sense(gate.cell, pins.input, pins.output);
    if !makes(sense, edges.from, edges.to) {
        return Ok(());
    }
    let said = apart.told.path(gate.leaf, pins.input, pin);
    push_arc(
        found,
        bit_apart(gate.elements, gate.first + pins.input, edges.from),
        bit_apart(gate.elements, gate.first + pin, edges.to),
        said.at(edges.from, edges.to).unwrap_or(default),
    )
}

/// Adds the arcs of a gate between two pins, one for each transition of their sense.
fn push_transitions(
    found: &mut Vec<TimingArc>,
    apart: &Apart<'_>,
    gate: LeafAt,
    default: (i64, i64),
    pins: PinPair,
) -> Result<(), OutOfMemory>
    requires gate { IsSmall gate }
    requires input { pins.input < gate.inputs }
    requires output { pins.output < gate.outputs }
    ensures { OnOk result (found.new.items ≡ found.old.items
        ++ pin_arcs_kept apart.now.told.now apart.now.senses.now gate default pins.input pins.output) }
{
    push_transition(found, apart, gate, default, pins, RISE_TO_RISE)?;
    push_transition(found, apart, gate, default, pins, RISE_TO_FALL)?;
    push_transition(found, apart, gate, default, pins, FALL_TO_RISE)?;
    push_transition(found, apart, gate, default, pins, FALL_TO_FALL)
}

/// Adds the arcs from an input of a gate to each output.
fn push_row(
    found: &mut Vec<TimingArc>,
    apart: &Apart<'_>,
    gate: LeafAt,
    default: (i64, i64),
    input: u32,
) -> Result<(), OutOfMemory>
    requires gate { IsSmall gate }
    requires input { input < gate.inputs }
    ensures { OnOk result (found.new.items ≡ found.old.items
        ++ row_arcs_kept apart.now.told.now apart.now.senses.now gate default input) }
{
    for output in 0..gate.outputs {
        push_transitions(found, apart, gate, default, PinPair { input, output })?;
    }
    Ok(())
}

/// Adds the arcs of a gate: from each input in order to each output.
fn push_gate(
    found: &mut Vec<TimingArc>,
    apart: &Apart<'_>,
    gate: LeafAt,
    default: (i64, i64),
) -> Result<(), OutOfMemory>
    requires { IsSmall gate }
    ensures { OnOk result (found.new.items ≡ found.old.items
        ++ gate_arcs_kept apart.now.told.now apart.now.senses.now gate default) }
{
    for input in 0..gate.inputs {
        push_row(found, apart, gate, default, input)?;
    }
    Ok(())
}

/// Adds the arc into the element of a latch or flop for data that comes at an edge.
fn push_data(
    found: &mut Vec<TimingArc>,
    stored: LeafAt,
    element: u32,
    edge: Edge,
) -> Result<(), OutOfMemory>
    requires stored { IsSmall stored }
    requires element { element < MOST_ELEMENTS }
    ensures { OnOk result (found.new.items ≡ found.old.items ++ data_arc_kept stored element edge ∷ []) }
{
    push_arc(
        found,
        bit_apart(stored.elements, stored.first, edge),
        2 * edge.at(element),
        (0, 0),
    )
}

/// Adds the arc from the element of a latch or flop for data that comes at an edge to an output at an edge, if the
/// sense of its data pin has it.
fn push_output_at(
    found: &mut Vec<TimingArc>,
    apart: &Apart<'_>,
    stored: LeafAt,
    element: u32,
    output: u32,
    edges: Transition,
) -> Result<(), OutOfMemory>
    requires stored { IsSmall stored }
    requires element { element < MOST_ELEMENTS }
    requires output { output < stored.outputs }
    ensures { OnOk result (found.new.items ≡ found.old.items
        ++ (if has (sense_at apart.now.senses.now stored.cell 0 output) (is_rise edges.from) (is_rise edges.to)
        then output_arc_kept stored element output edges ∷ [] else [])) }
{
    if !makes(
        apart.senses.sense(stored.cell, 0, output),
        edges.from,
        edges.to,
    ) {
        return Ok(());
    }
    push_arc(
        found,
        2 * edges.from.at(element) + 1,
        bit_apart(
            stored.elements,
            stored.first + (stored.inputs + output),
            edges.to,
        ),
        (0, 0),
    )
}

/// Adds the arcs from the two elements of a latch or flop to an output, counted among its outputs, by the sense of its
/// data pin.
fn push_output(
    found: &mut Vec<TimingArc>,
    apart: &Apart<'_>,
    stored: LeafAt,
    element: u32,
    output: u32,
) -> Result<(), OutOfMemory>
    requires stored { IsSmall stored }
    requires element { element < MOST_ELEMENTS }
    requires output { output < stored.outputs }
    ensures { OnOk result (found.new.items ≡ found.old.items
        ++ output_arcs_kept apart.now.senses.now stored element output) }
{
    push_output_at(found, apart, stored, element, output, RISE_TO_RISE)?;
    push_output_at(found, apart, stored, element, output, RISE_TO_FALL)?;
    push_output_at(found, apart, stored, element, output, FALL_TO_RISE)?;
    push_output_at(found, apart, stored, element, output, FALL_TO_FALL)
}

/// Adds the arcs of a latch or flop: from its data pin into its two elements, and from them to each output pin.
fn push_stored(
    found: &mut Vec<TimingArc>,
    apart: &Apart<'_>,
    stored: LeafAt,
    element: u32,
) -> Result<(), OutOfMemory>
    requires stored { IsSmall stored }
    requires element { element < MOST_ELEMENTS }
    ensures { OnOk result (found.new.items ≡ found.old.items
        ++ stored_arcs_kept apart.now.senses.now stored element) }
{
    push_data(found, stored, element, Edge::Rise)?;
    push_data(found, stored, element, Edge::Fall)?;
    for output in 0..stored.outputs {
        push_output(found, apart, stored, element, output)?;
    }
    Ok(())
}

/// How many input pins and output pins a cell has.
pub(crate) fn pin_counts(cell: &Cell) -> (u32, u32)
    requires { input_count cell.now + output_count cell.now ≤ MOST_INNER }
    ensures inputs { result.0 ≡ input_count cell.now }
    ensures outputs { result.1 ≡ output_count cell.now }
{
    match cell {
        Cell::Gate {
            inputs,
            outputs,
            ..
        } => (inputs.items().len() as u32, outputs.items().len() as u32),
        Cell::Latch {
            ignored,
            outputs,
            ..
        }
        | Cell::Flop {
            ignored,
            outputs,
            ..
        } => (
            ignored.items().len() as u32 + 2,
            outputs.items().len() as u32,
        ),
        Cell::Clock { ignored, .. } => (ignored.items().len() as u32 + 1, 1),
    }
}

/// A leaf in a design in which so many elements stand twice.
pub(crate) fn leaf_at(apart: &Apart<'_>, elements: u32, leaf: u32) -> LeafAt
    requires shape { IsFlattened apart.now.cells.now apart.now.hierarchy.now }
    requires elements { elements ≤ MOST_ELEMENTS }
    requires leaf { leaf < length apart.now.hierarchy.now.leaves }
    ensures value { result ≡ leaf_kept apart.now.hierarchy.now apart.now.cells.now elements leaf }
    ensures small { IsSmall result }
{
    let at = &apart.hierarchy.leaves.items()[leaf as usize];
    let pins = pin_counts(apart.cells.cell(at.cell));
    LeafAt {
        elements,
        leaf,
        cell: at.cell,
        first: at.first_pin,
        inputs: pins.0,
        outputs: pins.1,
    }
}

/// Adds the arcs of a leaf, whose latch or flop is the element of this number in the merged design.
fn push_leaf(
    found: &mut Vec<TimingArc>,
    apart: &Apart<'_>,
    elements: u32,
    leaf: u32,
    element: u32,
) -> Result<(), OutOfMemory>
    requires shape { IsFlattened apart.now.cells.now apart.now.hierarchy.now }
    requires elements { elements ≤ MOST_ELEMENTS }
    requires leaf { leaf < length apart.now.hierarchy.now.leaves }
    requires element { is_storage (leaf_cell apart.now.hierarchy.now apart.now.cells.now leaf) ≡ true →
        element < MOST_ELEMENTS }
    ensures { OnOk result (found.new.items ≡ found.old.items
        ++ leaf_arcs_kept apart.now.told.now apart.now.senses.now
        (leaf_kept apart.now.hierarchy.now apart.now.cells.now elements leaf) element
        (leaf_cell apart.now.hierarchy.now apart.now.cells.now leaf)) }
{
    let known = leaf_at(apart, elements, leaf);
    match apart.cells.cell(known.cell) {
        Cell::Gate { min, max, .. } => push_gate(found, apart, known, (*min, *max)),
        Cell::Latch { .. } | Cell::Flop { .. } => push_stored(found, apart, known, element),
        Cell::Clock { .. } => Ok(()),
    }
}

/// Adds the arcs of all leaves.
pub(crate) fn push_leaves(
    found: &mut Vec<TimingArc>,
    apart: &Apart<'_>,
    elements: u32,
) -> Result<(), OutOfMemory>
    requires shape { IsFlattened apart.now.cells.now apart.now.hierarchy.now }
    requires elements { elements ≤ MOST_ELEMENTS }
    requires few { length (storage apart.now.hierarchy.now apart.now.cells.now) ≤ MOST_ELEMENTS }
    ensures { OnOk result (found.new.items ≡ found.old.items
        ++ flat_map (leaf_arcs_in apart.now.told.now apart.now.senses.now apart.now.hierarchy.now apart.now.cells.now
        elements) (all_leaves apart.now.hierarchy.now)) }
{
    let mut element = 0;
    for leaf in 0..apart.hierarchy.leaves.items().len() as u32 {
        push_leaf(found, apart, elements, leaf, element)?;
        element = next_element(apart.hierarchy, apart.cells, leaf, element);
    }
    Ok(())
}

/// Adds the arc from the element of a bit of a listed input to that bit at an edge.
fn push_input_at(
    found: &mut Vec<TimingArc>,
    elements: u32,
    element: u32,
    bit: u32,
    edge: Edge,
) -> Result<(), OutOfMemory>
    requires elements { elements ≤ MOST_ELEMENTS }
    requires element { element < MOST_ELEMENTS }
    requires bit { bit < MOST_INNER }
    ensures { OnOk result (found.new.items ≡ found.old.items
        ++ arc_of (output_of (at_edge element edge)) (bit_apart elements bit edge) no_delay ∷ []) }
{
    push_arc(
        found,
        2 * edge.at(element) + 1,
        bit_apart(elements, bit, edge),
        (0, 0),
    )
}

/// Adds the arcs from the elements of listed inputs to their bits; the first of these elements stands twice from a
/// number on.
pub(crate) fn push_inputs(
    found: &mut Vec<TimingArc>,
    elements: u32,
    first: u32,
    bits: &[ListedBit],
) -> Result<(), OutOfMemory>
    requires elements { elements ≤ MOST_ELEMENTS }
    requires first { first + length bits.now ≤ elements }
    requires bits { All (λ x. x.bit < MOST_INNER) bits.now }
    ensures { (listed : List Listed) → OnOk result
        (found.new.items ≡ found.old.items ++ input_arcs_apart elements first (map (with_port listed) bits.now)) }
{
    for number in 0..bits.len() {
        let element = first + number as u32;
        push_input_at(found, elements, element, bits[number].bit, Edge::Rise)?;
        push_input_at(found, elements, element, bits[number].bit, Edge::Fall)?;
    }
    Ok(())
}

/// Adds the arc from a bit of a listed output to its element at an edge.
fn push_port_at(
    found: &mut Vec<TimingArc>,
    told: &Told,
    elements: u32,
    element: u32,
    bit: u32,
    edge: Edge,
) -> Result<(), OutOfMemory>
    requires elements { elements ≤ MOST_ELEMENTS }
    requires element { element < MOST_ELEMENTS }
    requires bit { bit < MOST_INNER }
    ensures { OnOk result (found.new.items ≡ found.old.items ++ port_arc_kept told.now elements element bit edge ∷ []) }
{
    let said = told.port(bit).at(edge);
    push_arc(
        found,
        bit_apart(elements, bit, edge),
        2 * edge.at(element),
        said.unwrap_or((0, 0)),
    )
}

/// Adds the arcs from the bits of listed outputs to their elements; the first of these elements stands twice from a
/// number on.
pub(crate) fn push_outputs(
    found: &mut Vec<TimingArc>,
    told: &Told,
    elements: u32,
    first: u32,
    bits: &[ListedBit],
) -> Result<(), OutOfMemory>
    requires elements { elements ≤ MOST_ELEMENTS }
    requires first { first + length bits.now ≤ elements }
    requires bits { All (λ x. x.bit < MOST_INNER) bits.now }
    ensures { (listed : List Listed) → OnOk result (found.new.items ≡ found.old.items
        ++ output_arcs_of told.now elements first (map (with_port listed) bits.now)) }
{
    for number in 0..bits.len() {
        let element = first + number as u32;
        push_port_at(found, told, elements, element, bits[number].bit, Edge::Rise)?;
        push_port_at(found, told, elements, element, bits[number].bit, Edge::Fall)?;
    }
    Ok(())
}
