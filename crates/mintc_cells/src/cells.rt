//! The cells of a description, by name and by number.
ghost use Rattle.std.specs.Prelude.{◌≡◌, ◌<◌, ℕ, Vec, nat_eq, length, IfOk, OnOk, [], slice_index_or};
ghost use Rattle.std.specs.Global.{Global};
ghost use Rattle.std.specs.Cmp.Lexicographic.{pointwise};
ghost use Rattle.indexmap.specs.IndexMap.{insert_entry};
ghost use Rattle.mintc_cells.specs.Entries.{AreOrdered, number_of, name_at, cell_at, is_output};
ghost use Rattle.mintc_cells.specs.Rules.{pins};

use crate::cell::Cell;
use crate::pins;
use indexmap::IndexMap;
use mintc_text::{Name, OutOfMemory};
use std::alloc::Global;
use std::marker::Model;

/// Cells, seen as the list of their names and themselves.
#[derive(Drop)]
pub struct Cells {
    entries: IndexMap<Vec<u8>, Cell>,
}

impl Model for Cells {
    ghost use Rattle.std.specs.Prelude.{ℕ, List, map, ◌<◌, ◌^◌, length};
    ghost use Rattle.mintc_cells.specs.declared.cell.Cell.{Cell};
    ghost use Rattle.mintc_cells.specs.Entries.{AreAscending, AreKept, names_of};

    ghost Value = { List (List ℕ × Cell) };

    ghost view = { λ c. map (λ e. (e.0.items, e.1)) c.entries.entries };

    ghost invariant = { λ c. (length c.entries.entries < 2 ^ 32)
        × AreAscending (names_of (map (λ e. (e.0.items, e.1)) c.entries.entries))
        × AreKept (map (λ e. (e.0.items, e.1)) c.entries.entries) };
}

/// Puts a cell under a name.
fn put(
    alloc: Global,
    map: &mut IndexMap<Vec<u8>, Cell>,
    name: &Name,
    cell: Cell,
) -> Result<(), OutOfMemory>
    ensures { OnOk result ((key : Vec ℕ Global) × (key.items ≡ name.now)
        × (map.new.entries ≡ insert_entry (λ x y. pointwise nat_eq x.items y.items) map.old.entries key cell)) }
{
    let bytes = Vec::from_slice(alloc, name.bytes())?;
    drop(map.insert(bytes, cell)?);
    Ok(())
}

impl Cells {
    /// These cells, in this order.
    pub fn new(alloc: Global, entries: Vec<(Name, Cell)>) -> Result<Cells, OutOfMemory>
        requires { AreOrdered entries.items }
        ensures { IfOk result (λ cells. cells ≡ entries.items) }
    {
        let mut map = IndexMap::new(alloc);
        for (name, cell) in entries {
            put(alloc, &mut map, &name, cell)?;
        }
        Ok(Cells { entries: map })
    }

    /// How many there are.
    pub fn count(&self) -> u32
        ensures count { result ≡ length self.now }
        ensures kept { AreOrdered self.now }
    {
        self.entries.len() as u32
    }

    /// The number of the cell with a name.
    pub fn find(&self, name: &[u8]) -> Option<u32>
        ensures { result ≡ number_of self.now name.now }
    {
        match self.entries.get_index_of(name) {
            Some(number) => Some(number as u32),
            None => None,
        }
    }

    /// The cell with a number.
    pub fn cell(&self, at: u32) -> &Cell
        requires { at < length self.now }
        ensures { result.now ≡ cell_at self.now at }
    {
        match self.entries.get_index(at as usize) {
            Some((_, cell)) => cell,
            None => unreachable!(),
        }
    }

    /// The name of the cell with a number.
    pub fn name(&self, at: u32) -> &[u8]
        requires { at < length self.now }
        ensures { result.now ≡ name_at self.now at }
    {
        match self.entries.get_index(at as usize) {
            Some((name, _)) => name.as_slice(),
            None => unreachable!(),
        }
    }

    /// How many pins the cell with a number has.
    pub fn pin_count(&self, at: u32) -> u32
        requires { at < length self.now }
        ensures { result ≡ length (pins (cell_at self.now at)) }
    {
        let _ = &self.entries;
        pins::pin_count(self.cell(at)) as u32
    }

    /// A pin of a cell, in cell order.
    pub fn pin(&self, at: u32, number: u32) -> &Name
        requires cell { at < length self.now }
        requires pin { number < length (pins (cell_at self.now at)) }
        ensures { result.now ≡ slice_index_or (pins (cell_at self.now at)) number [] }
    {
        pins::pin(self.cell(at), number as usize)
    }

    /// Whether a pin of a cell is an output.
    pub fn is_output(&self, at: u32, number: u32) -> bool
        requires cell { at < length self.now }
        requires pin { number < length (pins (cell_at self.now at)) }
        ensures { result ≡ is_output (cell_at self.now at) number }
    {
        pins::is_output(self.cell(at), number as usize)
    }
}
