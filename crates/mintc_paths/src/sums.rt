//! Sums of paths to bits, from up to eight elements at a time.
ghost use Rattle.std.specs.Prelude.{◌≡◌, ◌≢◌, ◌+◌, ◌*◌, ◌<◌, ◌≤◌, ℕ, List, length, slice_index_or, false, OnOk};
ghost use Rattle.std.specs.Int.{int_max, int_min};
ghost use Rattle.mintc_lanes.specs.Lanes.{AreJoined};
ghost use Rattle.mintc_timing.specs.Limits.{IsDelay};
ghost use Rattle.mintc_timing.specs.declared.parts.TimingArc.{TimingArc};
ghost use Rattle.mintc_paths_sums.specs.Sums.{sums_at, IsBounded, IsAlike, most_sum};
ghost use Rattle.mintc_paths_sums.specs.Placed.{placed};
ghost use Rattle.mintc_paths.specs.Worklist.{IsReady, IsAwake};
ghost use Rattle.mintc_paths.specs.Ordered.{Ordered, IsSequenceOf};
ghost use Rattle.mintc_paths.specs.Reached.{AreExtremes};
ghost use Rattle.mintc_paths.specs.Leaving.{AreLeaving};
ghost use Rattle.mintc_paths.specs.Sums.{AreRows, AreBegun, AreMarked, AreSums};

use crate::rows::ArcSequence;
use crate::worklist::Worklist;
use mintc_bitset::Stamps;
use mintc_paths_sums::{NO_SUMS, SparseRows};
use mintc_timing::TimingArc;
use std::alloc::AllocError;

/// Takes away the sums in the rows that were reached.
fn wipe(sums: &mut SparseRows, reached: &mut Stamps)
    requires marked { AreMarked sums.old reached.old }
    ensures count { length sums.new ≡ length sums.old }
    ensures none { (row : ℕ) → row < length sums.new → sums_at sums.new row ≡ NO_SUMS }
    ensures marked { AreMarked sums.new reached.new }
    ensures off { (row : ℕ) → slice_index_or reached.new row false ≡ false }
{
    sums.clear();
    reached.clear();
}

/// Makes the sums those of the empty paths from so many elements.
fn clear(
    sums: &mut SparseRows,
    reached: &mut Stamps,
    awake: &mut Worklist,
    sequence: &ArcSequence,
    first: u32,
    lanes: usize,
) -> Result<(), AllocError>
    requires lanes { lanes ≤ 8 }
    requires outputs { 2 * (first + lanes) ≤ length sums.old }
    requires rows { AreRows (length sums.old) sequence.now.rows }
    requires leaving { AreLeaving sequence.now.along.items (length sums.old) sequence.now.leaving }
    requires marked { AreMarked sums.old reached.old }
    requires ready { IsReady (length sequence.now.along.items) awake.old }
    ensures count { length sums.new ≡ length sums.old }
    ensures begun { OnOk result ((arcs : List TimingArc) (order : List ℕ) →
        AreBegun arcs order first lanes (placed sequence.now.rows.of_bits.items sums.new)) }
    ensures marked { OnOk result (AreMarked sums.new reached.new) }
    ensures awake { OnOk result (IsAwake sequence.now.along.items 0 reached.new awake.new) }
{
    wipe(sums, reached);
    awake.renew(sequence.along.len());
    for lane in 0..lanes {
        let row = sequence.rows.of_bits[2 * (first as usize + lane) + 1];
        sums.begin(row, lane)?;
        awake.reach(reached, sequence, row);
    }
    Ok(())
}

/// Carries the sums in the row that the arc leaves, if it is reached, to the row that it enters.
fn carry(
    sums: &mut SparseRows,
    reached: &mut Stamps,
    awake: &mut Worklist,
    sequence: &ArcSequence,
    arc: TimingArc,
) -> Result<(), AllocError>
    requires from { arc.from < length sums.old }
    requires to { arc.to < length sums.old }
    requires apart { arc.from ≢ arc.to }
    requires min { IsDelay arc.min }
    requires max { IsDelay arc.max }
    requires from_bounded { IsBounded most_sum (sums_at sums.old arc.from) }
    requires to_bounded { IsBounded most_sum (sums_at sums.old arc.to) }
    requires alike { IsAlike (sums_at sums.old arc.from) }
    requires marked { AreMarked sums.old reached.old }
    requires leaving { AreLeaving sequence.now.along.items (length sums.old) sequence.now.leaving }
    requires ready { IsReady (length sequence.now.along.items) awake.old }
    ensures count { length sums.new ≡ length sums.old }
    ensures marked { OnOk result (AreMarked sums.new reached.new) }
    ensures awake { OnOk result ((place : ℕ) → IsAwake sequence.now.along.items place reached.old awake.old
        → IsAwake sequence.now.along.items place reached.new awake.new) }
    ensures others { (bit : ℕ) → bit ≢ arc.to → sums_at sums.new bit ≡ sums_at sums.old bit }
    ensures greatest { OnOk result
        (AreJoined int_max (sums_at sums.old arc.to).greatest (sums_at sums.old arc.from).greatest arc.max
        (sums_at sums.new arc.to).greatest) }
    ensures least { OnOk result
        (AreJoined int_min (sums_at sums.old arc.to).least (sums_at sums.old arc.from).least arc.min
        (sums_at sums.new arc.to).least) }
    ensures bounded { OnOk result ((most : ℕ) → IsBounded most (sums_at sums.old arc.from) →
        IsBounded most (sums_at sums.old arc.to) → IsBounded (most + 1000000000) (sums_at sums.new arc.to)) }
{
    if reached.at(arc.from as usize) {
        awake.reach(reached, sequence, arc.to);
        sums.join(arc)?;
    }
    Ok(())
}

/// Makes the sums those of the listed paths, and of the empty ones, from up to eight elements from `first` on. A row
/// without sums isn't marked as reached. Only the arcs that leave rows that are reached are looked at.
pub(crate) fn fill(
    sums: &mut SparseRows,
    reached: &mut Stamps,
    awake: &mut Worklist,
    sequence: &ArcSequence,
    first: u32,
    lanes: usize,
) -> Result<(), AllocError>
    ghost of: { Ordered }
    requires sequence { IsSequenceOf (length sums.old) of sequence.now }
    requires lanes { lanes ≤ 8 }
    requires elements { first + lanes ≤ length of.design.elements }
    requires marked { AreMarked sums.old reached.old }
    requires ready { IsReady (length sequence.now.along.items) awake.old }
    ensures count { length sums.new ≡ length sums.old }
    ensures marked { OnOk result (AreMarked sums.new reached.new) }
    ensures ready { OnOk result (IsReady (length sequence.now.along.items) awake.new) }
    ensures sums { OnOk result
        (AreSums of.design.arcs of.order (length of.order) first lanes
        (placed sequence.now.rows.of_bits.items sums.new)) }
    ensures extremes { OnOk result
        (AreExtremes of.design first lanes (placed sequence.now.rows.of_bits.items sums.new)) }
{
    clear(sums, reached, awake, sequence, first, lanes)?;
    let mut place = awake.next(0);
    while place < sequence.along.len() {
        awake.pass(place);
        let arc = sequence.along[place];
        carry(sums, reached, awake, sequence, arc)?;
        place = awake.next(place + 1);
    }
    Ok(())
}
