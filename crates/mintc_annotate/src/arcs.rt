//! The arcs of a design.
ghost use Rattle.std.specs.Prelude.{◌≡◌, ◌<◌, ◌≤◌, ◌+◌, ◌++◌, ◌∷◌, [], List, length, map, flat_map, true, All, OnOk};
ghost use Rattle.std.specs.List.{range_with_len};
ghost use Rattle.mintc_text.specs.declared.limits.TheConstants.{MOST_ELEMENTS, MOST_INNER};
ghost use Rattle.mintc_flatten_hierarchy.specs.Shape.{IsFlattened};
ghost use Rattle.mintc_annotate_resolve.specs.Pins.{leaf_cell, all_leaves, is_storage};
ghost use Rattle.mintc_clock.specs.declared.clock.Listed.{Listed};
ghost use Rattle.mintc_annotate_delays.specs.Ranges.{look};
ghost use Rattle.mintc_annotate.specs.Phases.{storage};
ghost use Rattle.mintc_timing.specs.Paths.{input_of, output_of};
ghost use Rattle.mintc_annotate.specs.Counts.{with_port, gate_at, IsSmall};
ghost use Rattle.mintc_annotate.specs.Made.{arc_of, no_delay, inner_bit, join_arc, pin_arc, leaf_arcs, number_in};
ghost use Rattle.mintc_annotate.specs.Made.{input_arcs, output_arcs};

use crate::listing::ListedBit;
use crate::timed::Timed;
use mintc_annotate_delays::Ranges;
use mintc_annotate_resolve::is_storage;
use mintc_cells::{Cell, Cells};
use mintc_flatten_hierarchy::{Hierarchy, Join};
use mintc_text::{Names, OutOfMemory};
use mintc_timing::TimingArc;

/// A gate in a design of so many elements: its leaf, its first inner bit, the delay of its cell, and its pins.
#[derive(Clone, Copy)]
struct GateAt {
    elements: u32,
    leaf: u32,
    first: u32,
    default: (i64, i64),
    inputs: u32,
    outputs: u32,
}

/// An inner bit as a bit of a design of so many elements.
fn inner_bit(elements: u32, bit: u32) -> u32
    requires elements { elements ≤ MOST_ELEMENTS }
    requires bit { bit ≤ MOST_INNER }
    ensures { result ≡ inner_bit elements bit }
{
    2 * elements + bit
}

/// Adds an arc between two bits of a design, with the least and the greatest of its delay in femtoseconds.
pub fn push_arc(
    found: &mut Vec<TimingArc>,
    from: u32,
    to: u32,
    delay: (i64, i64),
) -> Result<(), OutOfMemory>
    ensures { OnOk result (found.new.items ≡ found.old.items ++ arc_of from to delay ∷ []) }
{
    found.push(TimingArc {
        from,
        to,
        min: delay.0,
        max: delay.1,
    })?;
    Ok(())
}

/// Adds the arcs of joins, in a design of so many elements.
pub(crate) fn push_joins(
    found: &mut Vec<TimingArc>,
    ranges: &Ranges,
    elements: u32,
    joins: &[Join],
) -> Result<(), OutOfMemory>
    requires elements { elements ≤ MOST_ELEMENTS }
    requires joins { All (λ j. (j.from < MOST_INNER) × (j.to < MOST_INNER)) joins.now }
    ensures { OnOk result (found.new.items ≡ found.old.items ++ map (join_arc (look ranges.now) elements) joins.now) }
{
    for join in joins {
        let delay = ranges.join(join.to).unwrap_or((0, 0));
        push_arc(
            found,
            inner_bit(elements, join.from),
            inner_bit(elements, join.to),
            delay,
        )?;
    }
    Ok(())
}

/// Adds the arcs from an input of a gate to each of its outputs.
fn push_row(
    found: &mut Vec<TimingArc>,
    ranges: &Ranges,
    gate: GateAt,
    input: u32,
) -> Result<(), OutOfMemory>
    requires gate { IsSmall gate }
    requires input { input < gate.inputs }
    ensures { OnOk result (found.new.items ≡ found.old.items
        ++ map (pin_arc (look ranges.now) gate.elements gate.leaf gate.first gate.default input)
        (range_with_len gate.inputs gate.outputs)) }
{
    for number in 0..gate.outputs {
        let output = gate.inputs + number;
        let delay = ranges
            .path(gate.leaf, input, output)
            .unwrap_or(gate.default);
        push_arc(
            found,
            inner_bit(gate.elements, gate.first + input),
            inner_bit(gate.elements, gate.first + output),
            delay,
        )?;
    }
    Ok(())
}

/// Adds the arcs of a gate: from each input in order to each output.
fn push_gate(found: &mut Vec<TimingArc>, ranges: &Ranges, gate: GateAt) -> Result<(), OutOfMemory>
    requires gate { IsSmall gate }
    ensures { OnOk result (found.new.items ≡ found.old.items
        ++ flat_map (λ i. map (pin_arc (look ranges.now) gate.elements gate.leaf gate.first gate.default i)
        (range_with_len gate.inputs gate.outputs)) (range_with_len 0 gate.inputs)) }
{
    for input in 0..gate.inputs {
        push_row(found, ranges, gate, input)?;
    }
    Ok(())
}

/// Adds the arcs from the output of a latch or flop to each of its output pins.
fn push_pins(
    found: &mut Vec<TimingArc>,
    elements: u32,
    first: u32,
    element: u32,
    inputs: u32,
    outputs: u32,
) -> Result<(), OutOfMemory>
    requires elements { elements ≤ MOST_ELEMENTS }
    requires element { element < MOST_ELEMENTS }
    requires pins { first + (inputs + outputs) ≤ MOST_INNER }
    ensures { OnOk result (found.new.items ≡ found.old.items
        ++ map (λ o. arc_of (output_of element) (inner_bit elements (first + o)) no_delay)
        (range_with_len inputs outputs)) }
{
    for number in 0..outputs {
        push_arc(
            found,
            2 * element + 1,
            inner_bit(elements, first + (inputs + number)),
            (0, 0),
        )?;
    }
    Ok(())
}

/// How many pins these names are.
fn count(names: &Names) -> u32
    requires { length names.now ≤ MOST_INNER }
    ensures { result ≡ length names.now }
{
    names.items().len() as u32
}

/// Adds the arcs of a latch or flop, whose inputs are two and those that are ignored: from its data pin to the
/// element's input, and from its output to each output pin.
fn push_stored(
    found: &mut Vec<TimingArc>,
    elements: u32,
    first: u32,
    element: u32,
    ignored: &Names,
    outputs: &Names,
) -> Result<(), OutOfMemory>
    requires elements { elements ≤ MOST_ELEMENTS }
    requires element { element < MOST_ELEMENTS }
    requires pins { first + (length ignored.now + 2 + length outputs.now) ≤ MOST_INNER }
    ensures { OnOk result (found.new.items ≡ found.old.items
        ++ (arc_of (inner_bit elements (first + 0)) (input_of element) no_delay ∷
        map (λ o. arc_of (output_of element) (inner_bit elements (first + o)) no_delay)
        (range_with_len (length ignored.now + 2) (length outputs.now)))) }
{
    push_arc(found, inner_bit(elements, first), 2 * element, (0, 0))?;
    let inputs = count(ignored) + 2;
    push_pins(found, elements, first, element, inputs, count(outputs))
}

/// The gate of a leaf.
fn gate_at(
    elements: u32,
    leaf: u32,
    first: u32,
    default: (i64, i64),
    inputs: &Names,
    outputs: &Names,
) -> GateAt
    requires inputs { length inputs.now ≤ MOST_INNER }
    requires outputs { length outputs.now ≤ MOST_INNER }
    ensures { result ≡ gate_at elements leaf first default (length inputs.now) (length outputs.now) }
{
    GateAt {
        elements,
        leaf,
        first,
        default,
        inputs: count(inputs),
        outputs: count(outputs),
    }
}

/// Adds the arcs of a leaf, whose latch or flop is an element of this number.
fn push_leaf(
    found: &mut Vec<TimingArc>,
    timed: &Timed<'_>,
    elements: u32,
    leaf: u32,
    element: u32,
) -> Result<(), OutOfMemory>
    requires shape { IsFlattened timed.now.cells.now timed.now.hierarchy.now }
    requires elements { elements ≤ MOST_ELEMENTS }
    requires leaf { leaf < length timed.now.hierarchy.now.leaves }
    requires element { element ≡ number_in timed.now.hierarchy.now timed.now.cells.now leaf }
    requires few { is_storage (leaf_cell timed.now.hierarchy.now timed.now.cells.now leaf) ≡ true →
        element < MOST_ELEMENTS }
    ensures { OnOk result (found.new.items ≡ found.old.items ++ leaf_arcs timed.now.hierarchy.now timed.now.cells.now
        (look timed.now.ranges.now) elements leaf (leaf_cell timed.now.hierarchy.now timed.now.cells.now leaf)) }
{
    let at = &timed.hierarchy.leaves.items()[leaf as usize];
    match timed.cells.cell(at.cell) {
        Cell::Gate {
            inputs,
            outputs,
            min,
            max,
        } => {
            let gate = gate_at(elements, leaf, at.first_pin, (*min, *max), inputs, outputs);
            push_gate(found, timed.ranges, gate)
        }
        Cell::Latch {
            ignored,
            outputs,
            ..
        }
        | Cell::Flop {
            ignored,
            outputs,
            ..
        } => push_stored(found, elements, at.first_pin, element, ignored, outputs),
        Cell::Clock { .. } => Ok(()),
    }
}

/// The number of the next latch or flop after a leaf, where the one at or after the leaf has this number.
pub fn next_element(hierarchy: &Hierarchy, cells: &Cells, leaf: u32, element: u32) -> u32
    requires shape { IsFlattened cells.now hierarchy.now }
    requires leaf { leaf < length hierarchy.now.leaves }
    requires element { element ≡ number_in hierarchy.now cells.now leaf }
    requires small { element ≤ leaf }
    ensures value { result ≡ number_in hierarchy.now cells.now (leaf + 1) }
    ensures small { result ≤ leaf + 1 }
{
    if is_storage(cells.cell(hierarchy.leaves.items()[leaf as usize].cell)) {
        element + 1
    } else {
        element
    }
}

/// Adds the arcs of all leaves.
pub(crate) fn push_leaves(
    found: &mut Vec<TimingArc>,
    timed: &Timed<'_>,
    elements: u32,
) -> Result<(), OutOfMemory>
    requires shape { IsFlattened timed.now.cells.now timed.now.hierarchy.now }
    requires elements { elements ≤ MOST_ELEMENTS }
    requires few { length (storage timed.now.hierarchy.now timed.now.cells.now) ≤ MOST_ELEMENTS }
    ensures { OnOk result (found.new.items ≡ found.old.items
        ++ flat_map (λ l. leaf_arcs timed.now.hierarchy.now timed.now.cells.now (look timed.now.ranges.now) elements l
        (leaf_cell timed.now.hierarchy.now timed.now.cells.now l)) (all_leaves timed.now.hierarchy.now)) }
{
    let mut element = 0;
    for leaf in 0..timed.hierarchy.leaves.items().len() as u32 {
        push_leaf(found, timed, elements, leaf, element)?;
        element = next_element(timed.hierarchy, timed.cells, leaf, element);
    }
    Ok(())
}

/// Adds the arcs from the elements of listed inputs to their bits; the first of these elements has a number.
pub(crate) fn push_inputs(
    found: &mut Vec<TimingArc>,
    elements: u32,
    first: u32,
    bits: &[ListedBit],
) -> Result<(), OutOfMemory>
    requires elements { elements ≤ MOST_ELEMENTS }
    requires first { first + length bits.now ≤ elements }
    requires bits { All (λ x. x.bit < MOST_INNER) bits.now }
    ensures { (listed : List Listed) →
        OnOk result (found.new.items ≡ found.old.items ++ input_arcs elements first (map (with_port listed) bits.now)) }
{
    for number in 0..bits.len() {
        push_arc(
            found,
            2 * (first + number as u32) + 1,
            inner_bit(elements, bits[number].bit),
            (0, 0),
        )?;
    }
    Ok(())
}

/// Adds the arcs from the bits of listed outputs to their elements; the first of these elements has a number.
pub(crate) fn push_outputs(
    found: &mut Vec<TimingArc>,
    ranges: &Ranges,
    elements: u32,
    first: u32,
    bits: &[ListedBit],
) -> Result<(), OutOfMemory>
    requires elements { elements ≤ MOST_ELEMENTS }
    requires first { first + length bits.now ≤ elements }
    requires bits { All (λ x. x.bit < MOST_INNER) bits.now }
    ensures { (listed : List Listed) →
        OnOk result (found.new.items ≡ found.old.items
        ++ output_arcs (look ranges.now) elements first (map (with_port listed) bits.now)) }
{
    for number in 0..bits.len() {
        let bit = bits[number].bit;
        let delay = ranges.port(bit).unwrap_or((0, 0));
        push_arc(
            found,
            inner_bit(elements, bit),
            2 * (first + number as u32),
            delay,
        )?;
    }
    Ok(())
}
