//! What a block of elements has once its sums are filled in.
ghost use Rattle.std.specs.Prelude.{◌≤◌, length};
ghost use Rattle.mintc_paths.specs.Sums.{AreMarked, AreRows};

use crate::rows::Rows;
use mintc_bitset::Stamps;
use mintc_paths_sums::SparseRows;

/// The sums from so many elements, from the first of them on, a lane for each, and the rows that are reached.
#[derive(Clone, Copy)]
pub(crate) struct Filled<'a> {
    pub sums: &'a SparseRows,
    pub reached: &'a Stamps,
    pub rows: &'a Rows,
    pub first: u32,
    pub lanes: usize,
    ghost few: { lanes ≤ 8 },
    ghost marked: { AreMarked sums.now reached.now },
    ghost are_rows: { AreRows (length sums.now) rows.now },
}
