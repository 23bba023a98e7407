//! The senses of all cells.
ghost use Rattle.std.specs.Prelude.{◌≡◌, ◌<◌, ◌++◌, ◌∷◌, [], length, map, None, IfOk, OnOk, unwrap_or};
ghost use Rattle.std.specs.Prelude.{slice_index_or};
ghost use Rattle.mintc_cells.specs.Entries.{cell_at};
ghost use Rattle.mintc_cells.specs.Rules.{outputs_of, inputs_of};
ghost use Rattle.mintc_liberty_tokens.specs.Statements.{front, none};
ghost use Rattle.mintc_liberty_cell.specs.Meaning.{groups};
ghost use Rattle.mintc_senses.specs.Senses.{sense_in, senses_by, senses_of, sense_at, library_inside};
ghost use Rattle.mintc_senses.specs.Seen.{inside_seen, rows_seen, senses_seen};

use crate::rows::row;
use crate::texts::{insides, library, no_statements};
use mintc_cells::{Cell, Cells};
use mintc_liberty_tokens::Reader;
use mintc_senses_expressions::Transitions;
use mintc_text::{Name, OutOfMemory};
use std::alloc::Global;
use std::marker::Model;

/// The senses of a library's cells: for each cell, in the order of their numbers, for each output, in cell order,
/// those of all pins that are none.
#[derive(Drop)]
pub struct Senses {
    cells: Vec<Vec<Vec<Transitions>>>,
}

impl Model for Senses {
    ghost use Rattle.std.specs.Prelude.{List};
    ghost use Rattle.mintc_senses_expressions.specs.declared.transitions.Transitions.{Transitions};
    ghost use Rattle.mintc_senses.specs.Seen.{senses_seen};

    ghost Value = { List (List (List Transitions)) };

    ghost view = { λ s. senses_seen s.cells.items };
}

/// Adds the row of an output.
fn push_row(rows: &mut Vec<Vec<Transitions>>, row: Vec<Transitions>) -> Result<(), OutOfMemory>
    ensures { OnOk result (rows.new.items ≡ rows.old.items ++ row ∷ []) }
{
    Ok(rows.push(row)?)
}

/// The senses of the inputs of a cell for some of its outputs.
fn rows(
    alloc: Global,
    inside: &Reader,
    cell: &Cell,
    outputs: &[Name],
) -> Result<Vec<Vec<Transitions>>, OutOfMemory>
    ensures { IfOk result (λ r. rows_seen r.items
        ≡ map (λ y. map (λ a. sense_in (groups (front 62 inside.now).statements) cell.now a y)
        (inputs_of cell.now)) outputs.now) }
{
    let mut rows = Vec::new(alloc);
    for output in outputs {
        let next = row(alloc, inside, cell, output)?;
        push_row(&mut rows, next)?;
    }
    Ok(rows)
}

/// The senses of a cell, by what stands in its group.
fn senses_inside(
    alloc: Global,
    inside: &Reader,
    cell: &Cell,
) -> Result<Vec<Vec<Transitions>>, OutOfMemory>
    ensures { IfOk result (λ r. rows_seen r.items ≡ senses_by (groups (front 62 inside.now).statements) cell.now) }
{
    match cell {
        Cell::Gate { outputs, .. } | Cell::Latch { outputs, .. } | Cell::Flop { outputs, .. } => {
            rows(alloc, inside, cell, outputs.items())
        }
        Cell::Clock { output, .. } => rows(alloc, inside, cell, std::slice::from_ref(output)),
    }
}

/// The senses of a cell, by what stands in its group, if it has one.
fn senses_by(
    alloc: Global,
    inside: &Option<Reader>,
    cell: &Cell,
) -> Result<Vec<Vec<Transitions>>, OutOfMemory>
    ensures { IfOk result (λ r. rows_seen r.items
        ≡ senses_by (groups (unwrap_or (inside_seen inside.now) none)) cell.now) }
{
    match inside {
        Some(inside) => senses_inside(alloc, inside, cell),
        None => senses_inside(alloc, &no_statements(), cell),
    }
}

/// Adds the rows of a cell.
fn push_cell(
    all: &mut Vec<Vec<Vec<Transitions>>>,
    rows: Vec<Vec<Transitions>>,
) -> Result<(), OutOfMemory>
    ensures { OnOk result (all.new.items ≡ all.old.items ++ rows ∷ []) }
{
    Ok(all.push(rows)?)
}

/// The senses of the cell of a number, by what stands in the groups of all cells.
fn senses_at(
    alloc: Global,
    insides: &[Option<Reader>],
    cells: &Cells,
    number: u32,
) -> Result<Vec<Vec<Transitions>>, OutOfMemory>
    requires insides { number < length insides.now }
    requires cells { number < length cells.now }
    ensures { IfOk result (λ r. rows_seen r.items
        ≡ senses_by (groups (unwrap_or (inside_seen (slice_index_or insides.now number None)) none))
        (cell_at cells.now number)) }
{
    senses_by(alloc, &insides[number as usize], cells.cell(number))
}

/// The senses of some cells by the text of a Liberty library: which edges of an input may make which edges of an
/// output. What the text doesn't say, or not in a known form, has all transitions.
pub fn read_senses(alloc: Global, text: &[u8], cells: &Cells) -> Result<Senses, OutOfMemory>
    ensures { IfOk result (λ s. s ≡ senses_of (library_inside text.now) cells.now) }
{
    let insides = insides(alloc, &library(text), cells)?;
    let places = insides.as_slice();
    let mut all = Vec::with_capacity(alloc, places.len())?;
    for number in 0..cells.count() {
        let next = senses_at(alloc, places, cells, number)?;
        push_cell(&mut all, next)?;
    }
    Ok(Senses { cells: all })
}

impl Senses {
    /// These senses: for each cell, for each output, those of all pins that are none.
    pub fn new(cells: Vec<Vec<Vec<Transitions>>>) -> Senses
        ensures { result ≡ senses_seen cells.items }
    {
        Senses { cells }
    }

    /// Which edges of an input of a cell may make which edges of an output, which is counted among the cell's
    /// outputs; all where there is no such pin.
    pub fn sense(&self, cell: u32, input: u32, output: u32) -> Transitions
        ensures { result ≡ sense_at self.now cell input output }
    {
        let Some(outputs) = self.cells.get(cell as usize) else {
            return Transitions::all();
        };
        let Some(inputs) = outputs.get(output as usize) else {
            return Transitions::all();
        };
        match inputs.get(input as usize) {
            Some(sense) => *sense,
            None => Transitions::all(),
        }
    }
}
