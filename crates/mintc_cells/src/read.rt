//! Reading a cell description.
ghost use Rattle.std.specs.Prelude.{◌≡◌, ◌≤◌, ◌<◌, ◌+◌, ◌^◌, ◌++◌, ◌∷◌, [], ℕ, List, Some, Err, length, map, IfOk};
ghost use Rattle.std.specs.Prelude.{OnOk, MatchResult};
ghost use Rattle.mintc_text.specs.declared.limits.TheConstants.{MOST_BYTES};
ghost use Rattle.toml.specs.View.{view, table_view};
ghost use Rattle.mintc_text.specs.Stops.{StopsAt};
ghost use Rattle.mintc_cells.specs.declared.cell.Cell.{Cell as CellRead};
ghost use Rattle.mintc_cells.specs.Description.{least_rule, judged, read_table, cell_of, Reads};
ghost use Rattle.mintc_cells.specs.Entries.{AreAscending, AreOrdered};
ghost use Rattle.mintc_cells.specs.CellsOf.{entries, IsReadAs, AreRead, IsFirstBad, AreInTable, IsBadTable, AreCells};
ghost use Rattle.mintc_cells.specs.CellsOf.{IsBadCell, IsBadCellBy};

use crate::cell::Cell;
use crate::cells::Cells;
use crate::shape::{Fault, Shape};
use crate::{rules, tables};
use mintc_text::{Name, OutOfMemory, Refusal, Stop};
use mintc_toml::{has_only, is_name, member, text};
use std::alloc::Global;
use toml::{Table, Value};

/// The cell, unless it fails a rule.
fn check_rules(shape: Shape, cell: Cell) -> Result<Cell, Fault>
    ensures { Reads (judged cell (least_rule shape cell)) result }
{
    match rules::least_rule(&shape, &cell) {
        None => Ok(cell),
        Some(rule) => Err(Fault::Rule(rule)),
    }
}

/// The cell of a table, by the kind that it names.
fn read_table(alloc: Global, table: &Table) -> Result<Cell, Fault>
    ensures { Reads (read_table (Some (table_view table.now))) result }
{
    let kind = text(table, "kind", "");
    if kind == "gate" {
        check_rules(tables::gate_shape(table), tables::gate(alloc, table)?)
    } else if kind == "latch" {
        check_rules(tables::latch_shape(table), tables::latch(alloc, table)?)
    } else if kind == "flop" {
        check_rules(tables::flop_shape(table), tables::flop(alloc, table)?)
    } else if kind == "clock" {
        check_rules(tables::clock_shape(table), tables::clock(alloc, table)?)
    } else {
        Err(Fault::Rule(2))
    }
}

/// The cell that an entry stands for.
fn read_cell(alloc: Global, name: &str, value: &Value) -> Result<Cell, Fault>
    ensures { Reads (cell_of name.now (view value.now)) result }
{
    if !is_name(name.as_bytes()) {
        return Err(Fault::Rule(2));
    }
    match value.as_table() {
        Some(table) => read_table(alloc, table),
        None => Err(Fault::Rule(2)),
    }
}

/// The cell that entry number `entry` stands for, under its name.
fn read_entry(alloc: Global, entry: u32, name: &str, value: &Value) -> Result<(Name, Cell), Stop>
    ensures { MatchResult result (IsReadAs (name.now, view value.now))
        (StopsAt (IsBadCellBy (λ n rule. (n ≡ entry) × (cell_of name.now (view value.now) ≡ Err rule)))) }
{
    match read_cell(alloc, name, value) {
        Ok(cell) => Ok((Name::new(alloc, name.as_bytes())?, cell)),
        Err(Fault::Rule(rule)) => Err(Stop::Refused(Refusal::BadCell { entry, rule })),
        Err(Fault::OutOfMemory) => Err(Stop::OutOfMemory),
    }
}

/// Adds a cell with its name.
fn push_cell(cells: &mut Vec<(Name, Cell)>, cell: (Name, Cell)) -> Result<(), OutOfMemory>
    ensures { OnOk result (cells.new.items ≡ cells.old.items ++ cell ∷ []) }
{
    Ok(cells.push(cell)?)
}

/// Adds the cell that the next entry stands for.
fn add_entry(
    alloc: Global,
    cells: &mut Vec<(Name, Cell)>,
    name: &str,
    value: &Value,
) -> Result<(), Stop>
    requires { length cells.old.items < 2 ^ 32 }
    ensures { MatchResult result
        (λ _. (c : List ℕ × CellRead) × IsReadAs (name.now, view value.now) c
        × (cells.new.items ≡ cells.old.items ++ c ∷ []) × (length cells.old.items + 1 < 2 ^ 32))
        (StopsAt (IsBadCellBy (λ n rule. (n ≡ length cells.old.items + 1)
        × (cell_of name.now (view value.now) ≡ Err rule)))) }
{
    let entry = u32::try_from(cells.len() + 1)?;
    let cell = read_entry(alloc, entry, name, value)?;
    push_cell(cells, cell)?;
    Ok(())
}

/// The cells that the entries of a table stand for.
#[tactic(auto, using(crate::proofs::EntriesLaws::ascending))]
fn read_entries(alloc: Global, table: &Table) -> Result<Vec<(Name, Cell)>, Stop>
    ensures value { MatchResult result (λ cells. AreRead (entries (table_view table.now)) cells.items)
        (StopsAt (IsBadCellBy (IsFirstBad (entries (table_view table.now))))) }
    ensures ascending { AreAscending (map (λ e. e.0) (entries (table_view table.now))) }
    ensures ordered { IfOk result (λ cells. AreOrdered cells.items) }
{
    let mut cells = Vec::new(alloc);
    for (key, value) in table.iter() {
        add_entry(alloc, &mut cells, key.as_str(), value)?;
    }
    Ok(cells)
}

/// The cells of a document.
fn read_document(alloc: Global, document: &Table) -> Result<Vec<(Name, Cell)>, Stop>
    ensures value { MatchResult result (λ cells. AreInTable (table_view document.now) cells.items)
        (StopsAt (IsBadCellBy (IsBadTable (table_view document.now)))) }
    ensures ordered { IfOk result (λ cells. AreOrdered cells.items) }
{
    if !has_only(document, &["cell"]) {
        return Err(Stop::Refused(Refusal::BadCell { entry: 0, rule: 1 }));
    }
    match member(document, "cell") {
        Some(value) => match value.as_table() {
            Some(table) => read_entries(alloc, table),
            None => Err(Stop::Refused(Refusal::BadCell { entry: 0, rule: 1 })),
        },
        None => Ok(Vec::new(alloc)),
    }
}

/// The cells that a document describes. Refused as its text is.
pub fn cells_of_document(alloc: Global, document: &Table) -> Result<Cells, Stop>
    ensures { MatchResult result (AreInTable (table_view document.now))
        (StopsAt (IsBadCellBy (IsBadTable (table_view document.now)))) }
{
    let entries = read_document(alloc, document)?;
    Ok(Cells::new(alloc, entries)?)
}

/// The cells that a text describes.
fn read_text(alloc: Global, text: &[u8]) -> Result<Vec<(Name, Cell)>, Stop>
    ensures value { MatchResult result (λ cells. AreCells text.now cells.items)
        (StopsAt (IsBadCellBy (IsBadCell text.now))) }
    ensures ordered { IfOk result (λ cells. AreOrdered cells.items) }
{
    match toml::table_from_slice(alloc, text) {
        Ok(document) => read_document(alloc, &document),
        Err(error) => {
            if error.is_memory() {
                Err(Stop::OutOfMemory)
            } else {
                Err(Stop::Refused(Refusal::BadCell { entry: 0, rule: 0 }))
            }
        }
    }
}

/// The cells that a text describes. Refused by the first cell that fails a rule, and its least such rule.
pub fn read_cells(alloc: Global, text: &[u8]) -> Result<Cells, Stop>
    requires { length text.now ≤ MOST_BYTES }
    ensures { MatchResult result (AreCells text.now) (StopsAt (IsBadCellBy (IsBadCell text.now))) }
{
    let entries = read_text(alloc, text)?;
    Ok(Cells::new(alloc, entries)?)
}
