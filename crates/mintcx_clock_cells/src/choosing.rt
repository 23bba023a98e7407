//! The gates that are chosen, and the cells with them.
ghost use Rattle.std.specs.Prelude.{◌≡◌, ◌<◌, ◌++◌, ◌∷◌, [], ℕ, length, All, IfOk, IfErr, OnOk};
ghost use Rattle.mintc_cells.specs.Entries.{AreOrdered, names_of, name_at, cell_at};
ghost use Rattle.mintc_liberty_cell.specs.Expressions.{is_among};
ghost use Rattle.mintcx_clock_cells.specs.Clocks.{IsFit, IsUnfitAmong, cell_for};
ghost use Rattle.mintcx_clock_cells.specs.Seen.{IsUnfitName};

use crate::copies::copied;
use crate::gates::clock_cell;
use crate::unfit::Unfit;
use mintc_cells::{Cell, Cells};
use mintc_senses::Senses;
use mintc_text::{Name, OutOfMemory};
use std::alloc::Global;

/// Whether a name is among names.
fn is_among(names: &[Name], name: &[u8]) -> bool
    ensures { result ≡ is_among names.now name.now }
{
    for other in names {
        if name == other.bytes() {
            return true;
        }
    }
    false
}

/// Refuses a name, which stands at this place of a list, where it isn't that of a cell that can be one of the clock.
fn check_gate(
    alloc: Global,
    cells: &Cells,
    senses: &Senses,
    name: &[u8],
    at: usize,
) -> Result<(), Unfit>
    ensures fit { IfOk result (λ done. IsFit senses.now cells.now name.now) }
    ensures unfit { IfErr result (IsUnfitName senses.now cells.now name.now at) }
{
    let Some(number) = cells.find(name) else {
        return Err(Unfit::Unknown { at });
    };
    match clock_cell(alloc, cells, senses, number)? {
        Some(_) => Ok(()),
        None => Err(Unfit::Unusable { at }),
    }
}

/// Refuses the first of some names that isn't that of a cell that can be one of the clock.
pub(crate) fn check_gates(
    alloc: Global,
    cells: &Cells,
    senses: &Senses,
    gates: &[Name],
) -> Result<(), Unfit>
    ensures fit { IfOk result (λ done. All (IsFit senses.now cells.now) gates.now) }
    ensures unfit { IfErr result (IsUnfitAmong senses.now cells.now gates.now) }
{
    for at in 0..gates.len() {
        check_gate(alloc, cells, senses, gates[at].bytes(), at)?;
    }
    Ok(())
}

/// The cell of a number, or the cell of the clock that it can be, where it is one of these gates.
fn cell_for(
    alloc: Global,
    gates: &[Name],
    cells: &Cells,
    senses: &Senses,
    number: u32,
) -> Result<Cell, OutOfMemory>
    requires { number < length cells.now }
    ensures { IfOk result (λ cell. cell ≡ cell_for gates.now senses.now cells.now number) }
{
    if is_among(gates, cells.name(number)) {
        if let Some(clock) = clock_cell(alloc, cells, senses, number)? {
            return Ok(clock);
        }
    }
    copied(alloc, cells.cell(number))
}

/// Adds a cell under a name.
fn push_entry(entries: &mut Vec<(Name, Cell)>, name: Name, cell: Cell) -> Result<(), OutOfMemory>
    ensures { OnOk result (entries.new.items ≡ entries.old.items ++ (name, cell) ∷ []) }
{
    Ok(entries.push((name, cell))?)
}

/// The names and cells of some, with these gates as cells of the clock.
fn entries_with(
    alloc: Global,
    gates: &[Name],
    cells: &Cells,
    senses: &Senses,
) -> Result<Vec<(Name, Cell)>, OutOfMemory>
    ensures names { IfOk result (λ entries. names_of entries.items ≡ names_of cells.now) }
    ensures each { IfOk result (λ entries. (k : ℕ) → k < length cells.now → cell_at entries.items k
        ≡ cell_for gates.now senses.now cells.now k) }
    ensures ordered { IfOk result (λ entries. AreOrdered entries.items) }
{
    let count = cells.count();
    let mut entries = Vec::with_capacity(alloc, count as usize)?;
    for number in 0..count {
        let name = Name::new(alloc, cells.name(number))?;
        let cell = cell_for(alloc, gates, cells, senses, number)?;
        push_entry(&mut entries, name, cell)?;
    }
    Ok(entries)
}

/// Cells, with these gates as cells of the clock.
pub(crate) fn with_clocks(
    alloc: Global,
    gates: &[Name],
    cells: &Cells,
    senses: &Senses,
) -> Result<Cells, OutOfMemory>
    ensures names { IfOk result (λ all. names_of all ≡ names_of cells.now) }
    ensures each { IfOk result (λ all. (k : ℕ) → k < length cells.now → cell_at all k
        ≡ cell_for gates.now senses.now cells.now k) }
{
    let entries = entries_with(alloc, gates, cells, senses)?;
    Cells::new(alloc, entries)
}
