//! Reading a cell description with its senses.
ghost use Rattle.std.specs.Prelude.{◌≡◌, ◌<◌, ◌^◌, ◌++◌, ◌∷◌, [], None, Some, length, map, IfOk, IfErr, OnOk};
ghost use Rattle.std.specs.Prelude.{MatchResult};
ghost use Rattle.mintc_text.specs.Stops.{StopsAt};
ghost use Rattle.toml.specs.View.{view, table_view};
ghost use Rattle.mintc_toml.specs.Documents.{IsDocument};
ghost use Rattle.mintc_cells.specs.CellsOf.{entries, AreInTable, IsBadCellBy};
ghost use Rattle.mintcx_sense_keys.specs.Plain.{plain_document};
ghost use Rattle.mintcx_sense_keys.specs.Senses.{senses_said};
ghost use Rattle.mintcx_sense_keys.specs.SensedCells.{with_cells, first_failing, first_unfit, senses_in, IsNoDocument};
ghost use Rattle.mintcx_sense_keys.specs.SensedCells.{ArePlainCells, IsBadPlainCell, AreSensedCells, IsBadSensedCell};
ghost use Rattle.mintcx_sense_keys.specs.SensedCells.{senses_of_text};

use crate::plain::strip_document;
use crate::rows::entry_rows;
use mintc_cells::{Cell, Cells, cells_of_document};
use mintc_senses::Senses;
use mintc_senses_expressions::Transitions;
use mintc_text::{OutOfMemory, Refusal, Stop};
use mintc_toml::member;
use std::alloc::Global;
use toml::{Table, Value};

/// The cells of a description, and the senses that it says of them.
#[derive(Drop)]
pub struct SensedCells {
    pub cells: Cells,
    pub senses: Senses,
}

/// The document of a text.
fn document_of(alloc: Global, text: &[u8]) -> Result<Table, Stop>
    ensures { MatchResult result (λ t. IsDocument text.now (table_view t))
        (StopsAt (IsBadCellBy (λ n rule. IsNoDocument text.now × (n ≡ 0) × (rule ≡ 0)))) }
{
    match toml::table_from_slice(alloc, text) {
        Ok(document) => Ok(document),
        Err(error) => {
            if error.is_memory() {
                Err(Stop::OutOfMemory)
            } else {
                Err(Stop::Refused(Refusal::BadCell { entry: 0, rule: 0 }))
            }
        }
    }
}

/// The cells of a text without the keys of senses.
fn plain_cells(alloc: Global, text: &[u8]) -> Result<Cells, Stop>
    ensures { MatchResult result (ArePlainCells text.now) (StopsAt (IsBadCellBy (IsBadPlainCell text.now))) }
{
    let mut document = document_of(alloc, text)?;
    strip_document(&mut document);
    cells_of_document(alloc, &document)
}

/// Each entry with the cell that it stands for.
fn with_cells<'a>(
    alloc: Global,
    table: &'a Table,
    cells: &'a Cells,
) -> Result<Vec<(&'a Value, &'a Cell)>, OutOfMemory>
    requires { length (entries (table_view table.now)) ≡ length cells.now }
    ensures few { IfOk result (λ v. length v.items < 2 ^ 32) }
    ensures value { IfOk result (λ v. map (λ p. (view p.0.now, p.1.now)) v.items
        ≡ with_cells (entries (table_view table.now)) cells.now) }
{
    let count = cells.count();
    let mut pairs = Vec::with_capacity(alloc, count as usize)?;
    for (_, value) in table.iter() {
        let number = pairs.len() as u32;
        pairs.push((value, cells.cell(number)))?;
    }
    Ok(pairs)
}

/// Adds the rows of a cell.
fn push_cell(
    all: &mut Vec<Vec<Vec<Transitions>>>,
    rows: Vec<Vec<Transitions>>,
) -> Result<(), OutOfMemory>
    ensures { OnOk result (all.new.items ≡ all.old.items ++ rows ∷ []) }
{
    Ok(all.push(rows)?)
}

/// The senses that entries say of their cells. Refused by the first that fails rule 9.
fn senses_of(alloc: Global, pairs: &[(&Value, &Cell)]) -> Result<Senses, Stop>
    requires { length pairs.now < 2 ^ 32 }
    ensures { let ps = map (λ p. (view p.0.now, p.1.now)) pairs.now in
        MatchResult result (λ s. (first_failing 1 ps ≡ None) × (s ≡ map senses_said ps))
        (StopsAt (IsBadCellBy (λ n rule. (first_failing 1 ps ≡ Some n) × (rule ≡ 9)))) }
{
    let mut all = Vec::with_capacity(alloc, pairs.len())?;
    for (place, (value, cell)) in pairs.iter().enumerate() {
        let Some(rows) = entry_rows(alloc, *value, *cell)? else {
            let entry = (place + 1) as u32;
            return Err(Stop::Refused(Refusal::BadCell { entry, rule: 9 }));
        };
        push_cell(&mut all, rows)?;
    }
    Ok(Senses::new(all))
}

/// The senses that a document says of its cells, which are those that it describes without the keys.
fn senses_in(alloc: Global, document: &Table, cells: &Cells) -> Result<Senses, Stop>
    requires { AreInTable (plain_document (table_view document.now)) cells.now }
    ensures { let ms = table_view document.now in
        MatchResult result (λ s. (first_unfit ms cells.now ≡ None) × (s ≡ senses_in ms cells.now))
        (StopsAt (IsBadCellBy (λ n rule. (first_unfit ms cells.now ≡ Some n) × (rule ≡ 9)))) }
{
    let Some(value) = member(document, "cell") else {
        return senses_of(alloc, &[]);
    };
    let Some(table) = value.as_table() else {
        return senses_of(alloc, &[]);
    };
    let pairs = with_cells(alloc, table, cells)?;
    senses_of(alloc, pairs.as_slice())
}

/// The cells that a text describes without the keys of senses, and the senses that these keys say of them. Refused as
/// the text is without the keys, by the first cell that fails a rule and its least such rule; and where none does, by
/// the first cell whose keys fail rule 9.
pub fn read_sensed_cells(alloc: Global, text: &[u8]) -> Result<SensedCells, Stop>
    ensures cells { IfOk result (λ read. AreSensedCells text.now read.cells) }
    ensures senses { IfOk result (λ read. read.senses ≡ senses_of_text text.now read.cells) }
    ensures stop { IfErr result (StopsAt (IsBadCellBy (IsBadSensedCell text.now))) }
{
    let document = document_of(alloc, text)?;
    let cells = plain_cells(alloc, text)?;
    let senses = senses_in(alloc, &document, &cells)?;
    Ok(SensedCells { cells, senses })
}
