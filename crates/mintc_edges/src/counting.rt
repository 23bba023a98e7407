//! How many arcs a design has, before anything of it is built.
ghost use Rattle.std.specs.Prelude.{◌≡◌, ◌<◌, ◌≤◌, ◌+◌, ◌*◌, min, length};
ghost use Rattle.mintc_cells.specs.Entries.{cell_at};
ghost use Rattle.mintc_flatten_hierarchy.specs.Shape.{IsFlattened};
ghost use Rattle.mintc_text.specs.declared.limits.TheConstants.{MOST_INNER, MOST_TOLD};
ghost use Rattle.mintc_annotate_resolve.specs.Pins.{input_count, output_count};
ghost use Rattle.mintc_edges.specs.Counts.{arc_count, leaf_arc_count, row_count, gate_count};
ghost use Rattle.mintc_edges.specs.Edges.{transitions_of};
ghost use Rattle.mintc_edges.specs.Numbers.{sense_of};

use mintc_cells::{Cell, Cells};
use mintc_flatten_hierarchy::Hierarchy;
use mintc_senses::Senses;
use mintc_senses_expressions::Transitions;
use mintc_text::limits::MOST_TOLD;

/// How many transitions a sense has.
pub(crate) fn transition_count(sense: Transitions) -> u64
    ensures value { result ≡ length (transitions_of sense) }
    ensures small { result ≤ 4 }
{
    u64::from(sense.rise_to_rise)
        + u64::from(sense.rise_to_fall)
        + u64::from(sense.fall_to_rise)
        + u64::from(sense.fall_to_fall)
}

/// How many arcs there are from an input pin of a cell to its outputs.
fn arcs_from(senses: &Senses, cell: u32, input: u32, outputs: u32) -> u64
    requires { outputs ≤ MOST_INNER }
    ensures value { result ≡ row_count senses.now cell input outputs }
    ensures small { result ≤ 4 * outputs }
{
    let mut total = 0;
    for number in 0..outputs {
        total += transition_count(senses.sense(cell, input, number));
    }
    total
}

/// How many arcs a gate has, those of each input, up to `MOST_TOLD`.
fn gate_arcs(senses: &Senses, cell: u32, inputs: u32, outputs: u32) -> u64
    requires { inputs + outputs ≤ MOST_INNER }
    ensures { result ≡ min (gate_count senses.now cell inputs outputs) MOST_TOLD }
{
    let mut total = 0;
    for input in 0..inputs {
        total = (total + arcs_from(senses, cell, input, outputs)).min(MOST_TOLD);
    }
    total
}

/// How many arcs a latch or flop has: those of its data pin, and two into its elements.
fn stored_arcs(senses: &Senses, cell: u32, outputs: u32) -> u64
    requires { outputs ≤ MOST_INNER }
    ensures { result ≡ min (2 + row_count senses.now cell 0 outputs) MOST_TOLD }
{
    2 + arcs_from(senses, cell, 0, outputs)
}

/// How many arcs a leaf of a cell has, up to `MOST_TOLD`: of a gate those of each input, of a latch or flop those of
/// its data pin and two into its elements.
fn arc_count(senses: &Senses, cells: &Cells, number: u32) -> u64
    requires number { number < length cells.now }
    requires pins { input_count (cell_at cells.now number) + output_count (cell_at cells.now number) ≤ MOST_INNER }
    ensures { result ≡ min (arc_count (sense_of senses.now cells.now) number (cell_at cells.now number)) MOST_TOLD }
{
    match cells.cell(number) {
        Cell::Gate {
            inputs,
            outputs,
            ..
        } => gate_arcs(
            senses,
            number,
            inputs.items().len() as u32,
            outputs.items().len() as u32,
        ),
        Cell::Latch { outputs, .. } => stored_arcs(senses, number, outputs.items().len() as u32),
        Cell::Flop { outputs, .. } => stored_arcs(senses, number, outputs.items().len() as u32),
        Cell::Clock { .. } => 0,
    }
}

/// How many arcs all leaves have, up to `MOST_TOLD`.
pub(crate) fn leaf_arc_count(hierarchy: &Hierarchy, cells: &Cells, senses: &Senses) -> u64
    requires { IsFlattened cells.now hierarchy.now }
    ensures { result ≡ min (leaf_arc_count hierarchy.now cells.now (sense_of senses.now cells.now)) MOST_TOLD }
{
    let leaves = hierarchy.leaves.items();
    let mut total = 0;
    for leaf in leaves {
        total = (total + arc_count(senses, cells, leaf.cell)).min(MOST_TOLD);
    }
    total
}
