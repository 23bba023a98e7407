//! Tables.
ghost use Rattle.std.specs.Prelude.{◌≡◌, ◌++◌, ◌∷◌, [], ◌≤◌, length, OnOk, OnErr, IfOk};
ghost use Rattle.mintcx_columns.specs.Tables.{table_text};

use crate::Column;
use crate::lines::{put_lines, widths_of};
use mintc_text::{Lines, Names, OutOfMemory};
use std::alloc::Global;
use std::marker::Model;

/// A table, seen as its columns and its rows of cells. No row has more cells than there are columns.
#[derive(Debug, Drop)]
pub struct Table {
    columns: Vec<Column>,
    rows: Vec<Names>,
}

impl Model for Table {
    ghost use Rattle.std.specs.Prelude.{◌≤◌, length, All};
    ghost use Rattle.mintcx_columns.specs.Tables.{Grid};

    ghost Value = { Grid };

    ghost view = { λ t. record { columns = t.columns.items; rows = t.rows.items } };

    ghost invariant = { λ t. All (λ row. length row ≤ length t.columns.items) t.rows.items };
}

impl Table {
    ghost use Rattle.std.specs.Prelude.{All};

    /// A table of these columns, without rows.
    pub fn new(alloc: Global, columns: Vec<Column>) -> Table
        ensures columns { result.columns ≡ columns.items }
        ensures rows { result.rows ≡ [] }
    {
        Table {
            columns,
            rows: Vec::new(alloc),
        }
    }

    /// How many columns it has.
    pub fn column_count(&self) -> usize
        ensures { result ≡ length self.now.columns }
    {
        self.columns.len()
    }

    /// Adds a row. Err leaves the table as it was.
    pub fn push(&mut self, row: Names) -> Result<(), OutOfMemory>
        requires { length row ≤ length self.old.columns }
        ensures columns { self.new.columns ≡ self.old.columns }
        ensures ok { OnOk result (self.new.rows ≡ self.old.rows ++ row ∷ []) }
        ensures err { OnErr result (self.new.rows ≡ self.old.rows) }
    {
        self.rows.push(row)?;
        Ok(())
    }

    /// Its text.
    #[tactic(auto, using(crate::proofs::LineLaws::length_of_widths))]
    pub fn text(&self, alloc: Global) -> Result<Vec<u8>, OutOfMemory>
        ensures text { IfOk result (λ bytes. bytes.items ≡ table_text self.now) }
        ensures whole { All (λ row. length row ≤ length self.now.columns) self.now.rows }
    {
        let widths = widths_of(alloc, &self.columns, &self.rows)?;
        let mut lines = Lines::new(alloc);
        put_lines(&mut lines, alloc, &self.columns, &widths, &self.rows)?;
        Ok(lines.into_bytes())
    }
}
