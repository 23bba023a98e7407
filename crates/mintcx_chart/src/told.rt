//! What the rows of a chart are told by.
ghost use Rattle.std.specs.Prelude.{◌≡◌, slice_index_or, All, [], pos};
ghost use Rattle.mintc_timing.specs.Limits.{IsNumerator};

use mintc_timing::{Flat, Schedule};
use mintcx_amounts::Unit;

/// What the rows of a chart are told by: the design and a schedule of it, the unit of its times, and whether the
/// design is a table.
#[derive(Clone, Copy)]
pub struct Told<'a> {
    pub flat: &'a Flat,
    pub schedule: &'a Schedule,
    pub unit: Unit,
    pub table: bool,
}

/// The name of the phase at a place in the list of phases; empty past the last.
pub fn phase_at(flat: &Flat, at: usize) -> &[u8]
    ensures { result.now ≡ slice_index_or flat.now.phases at [] }
{
    match flat.phases().items().get(at) {
        Some(name) => name.bytes(),
        None => b"",
    }
}

/// The number at a place of a list; 0 past the last.
pub fn number_at(numbers: &[i64], at: usize) -> i64
    requires { All IsNumerator numbers.now }
    ensures value { result ≡ slice_index_or numbers.now at (pos 0) }
    ensures range { IsNumerator result }
{
    match numbers.get(at) {
        Some(number) => *number,
        None => 0,
    }
}
