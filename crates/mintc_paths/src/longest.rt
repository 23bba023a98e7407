//! A bound above the sums of all paths at once, by which most designs are seen to have no path that is too long.
ghost use Rattle.std.specs.Prelude.{◌≡◌, ◌≢◌, ◌<◌, ◌+◌, ◌*◌, ℕ, ℤ, pos, ◌+ℤ◌, ◌≤ℤ◌, IfOk, All, length};
ghost use Rattle.std.specs.Bool.{OnTrue};
ghost use Rattle.mintc_timing.specs.Limits.{IsDelay, IsDesign};
ghost use Rattle.mintc_timing.specs.Order.{IsOrder, ArePathsShort};
ghost use Rattle.mintc_paths.specs.Longest.{bit_sum, bit_sums, AreCarried, AreRunsShort};
ghost use Rattle.mintc_paths.specs.Sums.{IsSequence};
ghost use Rattle.mintc_paths_sums.specs.Sums.{most_sum};

use crate::rows::ArcSequence;
use mintc_text::limits::MOST_DELAY;
use mintc_timing::{Flat, Order, TimingArc};
use std::alloc::{AllocError, Global};

/// Raises the sum in the row that an arc enters to what the arc brings.
fn raise(sums: &mut [i64], arc: TimingArc)
    requires from { arc.from < length sums.old }
    requires to { arc.to < length sums.old }
    requires low { pos 0 ≤ℤ bit_sum sums.old arc.from }
    requires high { bit_sum sums.old arc.from ≤ℤ pos most_sum }
    requires delay { IsDelay arc.max }
    ensures others { (row : ℕ) → row ≢ arc.to → bit_sum sums.new row ≡ bit_sum sums.old row }
    ensures kept { bit_sum sums.old arc.to ≤ℤ bit_sum sums.new arc.to }
    ensures raised { (bit_sum sums.old arc.from +ℤ arc.max) ≤ℤ bit_sum sums.new arc.to }
    ensures limit { (most : ℤ) → bit_sum sums.old arc.to ≤ℤ most → (bit_sum sums.old arc.from +ℤ arc.max) ≤ℤ most →
        bit_sum sums.new arc.to ≤ℤ most }
{
    let sum = sums[arc.from as usize] + arc.max;
    if sums[arc.to as usize] < sum {
        sums[arc.to as usize] = sum;
    }
}

/// Makes the sums, which are 0 in each row, the greatest along arcs that end there, wherever they begin, in
/// femtoseconds.
fn raise_all(sums: &mut [i64], flat: &Flat, order: &Order, sequence: &ArcSequence)
    requires design { IsDesign flat.now }
    requires order { IsOrder flat.now.arcs order.now }
    requires bits { length sums.old ≡ 2 * length flat.now.elements + length flat.now.inner }
    requires sequence { IsSequence (length sums.old) flat.now.arcs order.now sequence.now }
    requires none { AreCarried flat.now.arcs order.now 0 (bit_sums sequence.now.rows.of_bits.items sums.old) }
    ensures { AreCarried flat.now.arcs order.now (length order.now)
        (bit_sums sequence.now.rows.of_bits.items sums.new) }
{
    for place in 0..sequence.along.len() {
        raise(sums, sequence.along[place]);
    }
}

/// Whether no sum is above the limit.
fn are_within(sums: &[i64]) -> bool
    ensures { OnTrue result (All (λ z. z ≤ℤ MOST_DELAY) sums.now) }
{
    sums.iter().all(|sum| *sum <= MOST_DELAY)
}

/// Whether no arcs in a row have a sum above the limit, wherever they begin.
#[tactic(auto, using(crate::proofs::Raising::AreCarried_no_rows))]
pub(crate) fn runs_are_within_limit(
    alloc: Global,
    flat: &Flat,
    order: &Order,
    sequence: &ArcSequence,
) -> Result<bool, AllocError>
    requires order { IsOrder flat.now.arcs order.now }
    requires sequence { IsSequence (2 * length flat.now.elements + length flat.now.inner) flat.now.arcs order.now
        sequence.now }
    ensures { IfOk result (λ short. OnTrue short (AreRunsShort flat.now.arcs)) }
{
    let mut sums = vec![in alloc; 0; flat.bit_count()]?;
    raise_all(&mut sums, flat, order, sequence);
    Ok(are_within(&sums))
}

/// Whether it is plain that no path is too long, since no arcs in a row are, wherever they begin.
pub fn bound_is_within_limit(
    alloc: Global,
    flat: &Flat,
    order: &Order,
    sequence: &ArcSequence,
) -> Result<bool, AllocError>
    requires order { IsOrder flat.now.arcs order.now }
    requires sequence { IsSequence (2 * length flat.now.elements + length flat.now.inner) flat.now.arcs order.now
        sequence.now }
    ensures { IfOk result (λ short. OnTrue short (ArePathsShort flat.now)) }
{
    runs_are_within_limit(alloc, flat, order, sequence)
}
