//! The check of a path that was found by some means: whether it is a listed one, and what its delays sum to.
ghost use Rattle.std.specs.Prelude.{◌≡◌};
ghost use Rattle.std.specs.Bool.{OnTrue};
ghost use Rattle.mintc_paths.specs.Finding.{IsListedWith};

use crate::trace::{Extreme, delay_at};
use mintc_timing::Flat;

/// A path that is asked for: from one element to another, with the greatest or the least sum, which is known, in
/// femtoseconds.
#[derive(Clone, Copy)]
pub(crate) struct Wanted {
    pub extreme: Extreme,
    pub from: u32,
    pub to: u32,
    pub delay: i64,
}

/// Whether the arcs are a path that is asked for.
pub(crate) fn is_listed_with(flat: &Flat, path: &[u32], wanted: Wanted) -> bool
    ensures { OnTrue result (IsListedWith wanted.extreme flat.now.arcs wanted.from wanted.to wanted.delay path.now) }
{
    let arcs = flat.arcs();
    if path.is_empty() || path.len() > arcs.len() {
        return false;
    }
    let mut bit = 2 * u64::from(wanted.from) + 1;
    let mut summed = 0;
    for number in path {
        if *number as usize >= arcs.len() {
            return false;
        }
        let arc = &arcs[*number as usize];
        if u64::from(arc.from) != bit {
            return false;
        }
        bit = u64::from(arc.to);
        summed += delay_at(wanted.extreme, arc);
    }
    bit == 2 * u64::from(wanted.to) && summed == wanted.delay
}
