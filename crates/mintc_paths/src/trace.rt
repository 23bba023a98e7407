//! A path with the greatest or the least sum, traced back along the order.
ghost use Rattle.std.specs.Prelude.{◌≡◌, ◌<◌, ◌+◌, ◌*◌, ◌↔◌, ℕ, ℤ, pos, length, Some, IfOk, IsTrue};
ghost use Rattle.mintc_graph.specs.Rings.{total};
ghost use Rattle.mintc_timing.specs.Limits.{IsDelay};
ghost use Rattle.mintc_timing.specs.Order.{IsOrder};
ghost use Rattle.mintc_timing.specs.Paths.{Leads};
ghost use Rattle.mintc_paths_sums.specs.Sums.{sums_at, IsBounded, most_sum};
ghost use Rattle.mintc_paths.specs.Trace.{sum_of, delay_of, weight_of, AreBestSums, IsThrough};

use mintc_paths_sums::{SparseRows, Sums, sum_in};
use mintc_timing::{Flat, Order, TimingArc};
use std::alloc::{AllocError, Global};

/// Which of the sums.
#[derive(Clone, Copy)]
pub enum Extreme {
    Greatest,
    Least,
}

/// The sum from the element of the first lane.
fn sum_at(extreme: Extreme, sums: &Sums) -> Option<i64>
    ensures { result ≡ sum_of extreme sums.now }
{
    match extreme {
        Extreme::Greatest => sum_in(&sums.greatest, 0),
        Extreme::Least => sum_in(&sums.least, 0),
    }
}

/// The arc's greatest or least delay, in femtoseconds.
pub(crate) fn delay_at(extreme: Extreme, arc: &TimingArc) -> i64
    ensures { result ≡ delay_of extreme arc.now }
{
    match extreme {
        Extreme::Greatest => arc.max,
        Extreme::Least => arc.min,
    }
}

/// Whether a best path to the bit can end with the arc: whether it enters the bit, and the best sum there goes
/// through it.
fn is_last(extreme: Extreme, sums: &SparseRows, arc: &TimingArc, bit: u32) -> bool
    requires from { arc.now.from < length sums.now }
    requires to { arc.now.to < length sums.now }
    requires min { IsDelay arc.now.min }
    requires max { IsDelay arc.now.max }
    requires bounded { IsBounded most_sum (sums_at sums.now arc.now.from) }
    ensures { IsTrue result ↔ ((arc.now.to ≡ bit) × IsThrough extreme sums.now arc.now) }
{
    if arc.to != bit {
        return false;
    }
    let Some(before) = sum_at(extreme, sums.at(arc.from as usize)) else {
        return false;
    };
    let Some(after) = sum_at(extreme, sums.at(arc.to as usize)) else {
        return false;
    };
    before + delay_at(extreme, arc) == after
}

/// The arcs of a path to a bit with the best sum.
#[tactic(auto, using(mintc_timing::proofs::SharedOrdered::inside))]
pub(crate) fn trace(
    alloc: Global,
    extreme: Extreme,
    flat: &Flat,
    order: &Order,
    sums: &SparseRows,
    end: u32,
) -> Result<Vec<u32>, AllocError>
    requires bits { length sums.now ≡ 2 * length flat.now.elements + length flat.now.inner }
    requires end { end < length sums.now }
    requires order { IsOrder flat.now.arcs order.now }
    requires bounded { (bit : ℕ) → bit < length sums.now → IsBounded most_sum (sums_at sums.now bit) }
    ensures { IfOk result (λ path. (from : ℕ) (best : ℤ) → AreBestSums extreme flat.now.arcs order.now from sums.now
        → sum_of extreme (sums_at sums.now from) ≡ Some (pos 0) → sum_of extreme (sums_at sums.now end) ≡ Some best
        → Leads flat.now.arcs from path.items end × (total (weight_of extreme flat.now.arcs) path.items ≡ best)) }
{
    let (arcs, numbers) = (flat.arcs(), order.arcs().items());
    let mut path = Vec::new(alloc);
    let mut bit = end;
    let mut left = numbers.len();
    while left > 0 {
        left -= 1;
        let number = numbers[left];
        let arc = &arcs[number as usize];
        if is_last(extreme, sums, arc, bit) {
            path.push(number)?;
            bit = arc.from;
        }
    }
    path.reverse();
    Ok(path)
}
