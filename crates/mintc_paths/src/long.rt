//! The search for a sum above the limit.
ghost use Rattle.std.specs.Prelude.{◌<◌, ◌≤◌, ◌+◌, ◌^◌, ◌<ℤ◌, ◌≤ℤ◌, ℕ, pos, length, MatchOption, IfSome, IfErr, OnOk};
ghost use Rattle.std.specs.Prelude.{IsSomeAnd};
ghost use Rattle.std.specs.Bool.{OnTrue, OnFalse};
ghost use Rattle.mintc_text.specs.declared.limits.TheConstants.{MOST_ELEMENTS};
ghost use Rattle.mintc_lanes.specs.Lanes.{lane_at, AreLanes};
ghost use Rattle.mintc_paths_sums.specs.Sums.{sums_at};
ghost use Rattle.mintc_paths_sums.specs.Placed.{placed};
ghost use Rattle.mintc_paths.specs.Sums.{AreMarked, AreRows};
ghost use Rattle.mintc_paths.specs.Long.{IsShortLane, IsFirstBit};
ghost use Rattle.mintc_paths.specs.Reached.{AreExtremes};
ghost use Rattle.mintc_paths.specs.Refusals.{AreShortBefore, IsPathRange};
ghost use Rattle.mintc_timing.specs.Design.{Design};
ghost use Rattle.mintc_timing.specs.Order.{ArePathsShort};

use crate::filled::Filled;
use crate::rows::Rows;
use mintc_bitset::Stamps;
use mintc_lanes::max_row;
use mintc_paths_sums::{SparseRows, Sums};
use mintc_text::Refusal;
use mintc_text::limits::MOST_DELAY;

/// Whether no sum is above the limit.
fn are_short(sums: &SparseRows, reached: &Stamps) -> bool
    requires marked { AreMarked sums.now reached.now }
    requires bounded { (row : ℕ) → row < length sums.now → AreLanes (sums_at sums.now row).greatest }
    ensures { OnTrue result ((lane : ℕ) → lane < 8 → IsShortLane sums.now lane) }
{
    for row in 0..sums.len() {
        if reached.at(row) && max_row(&sums.at(row).greatest) > MOST_DELAY {
            return false;
        }
    }
    true
}

/// Whether the lane's greatest sum is above the limit.
fn is_long(sums: &Sums, lane: usize) -> bool
    requires { lane < 8 }
    ensures long { OnTrue result (IsSomeAnd (lane_at sums.now.greatest lane) (λ z. MOST_DELAY <ℤ z)) }
    ensures short { OnFalse result (IfSome (lane_at sums.now.greatest lane) (λ z. z ≤ℤ MOST_DELAY)) }
{
    sums.greatest[lane] > MOST_DELAY
}

/// The first bit with a sum of the lane above the limit.
#[tactic(auto, using(mintc_paths_sums::proofs::SharedPlaced::placed_at))]
fn first_bit(sums: &SparseRows, rows: &Rows, lane: usize) -> Option<usize>
    requires rows { AreRows (length sums.now) rows.now }
    requires lane { lane < 8 }
    ensures { MatchOption result (IsShortLane (placed rows.now.of_bits.items sums.now) lane)
        (λ bit. IsFirstBit (placed rows.now.of_bits.items sums.now) lane bit) }
{
    for bit in 0..rows.of_bits.len() {
        let row = rows.of_bits[bit] as usize;
        if is_long(sums.at(row), lane) {
            return Some(bit);
        }
    }
    None
}

/// Refuses the first path that is too long among those from a block's elements. Where it is known that no path is,
/// there is nothing to look for.
#[tactic(auto, using(crate::proofs::Short::more, crate::proofs::Rowing::short, crate::proofs::Short::first_long))]
pub(crate) fn refuse_long(block: &Filled, known_short: bool) -> Result<(), Refusal>
    ghost design: { Design }
    requires few { length design.elements ≤ MOST_ELEMENTS }
    requires some { length block.now.sums.now ≤ 2 ^ 24 }
    requires elements { block.now.first + block.now.lanes ≤ length design.elements }
    requires extremes { AreExtremes design block.now.first block.now.lanes
        (placed block.now.rows.now.of_bits.items block.now.sums.now) }
    requires bounded { (row : ℕ) → row < length block.now.sums.now →
        AreLanes (sums_at block.now.sums.now row).greatest }
    requires short { AreShortBefore design block.now.first }
    requires known { OnTrue known_short (ArePathsShort design) }
    ensures short { OnOk result (AreShortBefore design (block.now.first + block.now.lanes)) }
    ensures refusal { IfErr result (IsPathRange design) }
{
    if known_short {
        return Ok(());
    }
    if are_short(block.sums, block.reached) {
        return Ok(());
    }
    for lane in 0..block.lanes {
        if let Some(bit) = first_bit(block.sums, block.rows, lane) {
            return Err(Refusal::PathRange {
                element: block.first + lane as u32,
                bit: bit as u32,
            });
        }
    }
    Ok(())
}
