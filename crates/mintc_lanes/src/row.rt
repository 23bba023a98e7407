//! The calls on rows.
ghost use Rattle.std.specs.Prelude.{◌≡◌, ◌+◌, ◌^◌, ◌<◌, ◌≤◌, ℕ, ℤ, max, None, unsigned_abs, IsSome};
ghost use Rattle.std.specs.Int.{int_max, int_min};
ghost use Rattle.mintc_lanes.specs.Lanes.{joined, lane_at, AreJoined, AreWithin, AreLanes, IsGreatestLane};
ghost use Rattle.mintc_lanes.specs.Vectors.{IsVector, HasNumbers, joined_at};

use crate::vectors::{
    greater, lesser, sums, turned_by_four, turned_by_one, turned_by_two, where_absent,
};
use std::simd::prelude::*;

/// The numbers of a row.
fn numbers(row: &[i64; 8]) -> i64x8
    requires { AreLanes row.now }
    ensures vector { IsVector result }
    ensures numbers { result ≡ row.now }
{
    i64x8::from_array(*row)
}

/// The numbers of `row` where `other` is absent, those of `sum` where `row` is, and else those of `chosen`.
fn choose_lanes(row: i64x8, other: i64x8, sum: i64x8, chosen: i64x8) -> i64x8
    requires row { IsVector row }
    requires other { IsVector other }
    requires sum { IsVector sum }
    requires chosen { IsVector chosen }
    ensures vector { IsVector result }
    ensures numbers { HasNumbers result (joined_at row other sum chosen) }
{
    where_absent(other, row, where_absent(row, sum, chosen))
}

/// Each lane becomes the greater of itself and the lane of `other` with `add`. An absent lane of `other`
/// changes nothing, and an absent lane of `row` takes the other.
pub fn max_plus_row(row: &mut [i64; 8], other: &[i64; 8], add: i64)
    requires row { AreLanes row.old }
    requires other { AreLanes other.now }
    requires add { unsigned_abs add ≤ 10 ^ 18 }
    ensures lanes { AreJoined int_max row.old other.now add row.new }
    ensures present { (k : ℕ) → k < 8 → IsSome (lane_at row.old k) → IsSome (lane_at row.new k) }
    // The lanes of the two rows are at most m and n in absolute value, the added number at most b.
    ensures bounds { (m n b : ℕ) → AreWithin m row.old → AreWithin n other.now → unsigned_abs add ≤ b
        → AreWithin (max m (n + b)) row.new }
{
    let own = numbers(row);
    let others = numbers(other);
    let sum = sums(others, add);
    *row = where_absent(others, own, greater(own, sum)).to_array();
}

/// Each lane becomes the lesser of itself and the lane of `other` with `add`. An absent lane of `other`
/// changes nothing, and an absent lane of `row` takes the other.
pub fn min_plus_row(row: &mut [i64; 8], other: &[i64; 8], add: i64)
    requires row { AreLanes row.old }
    requires other { AreLanes other.now }
    requires add { unsigned_abs add ≤ 10 ^ 18 }
    ensures lanes { AreJoined int_min row.old other.now add row.new }
    ensures present { (k : ℕ) → k < 8 → IsSome (lane_at row.old k) → IsSome (lane_at row.new k) }
    // The lanes of the two rows are at most m and n in absolute value, the added number at most b.
    ensures bounds { (m n b : ℕ) → AreWithin m row.old → AreWithin n other.now → unsigned_abs add ≤ b
        → AreWithin (max m (n + b)) row.new }
{
    let own = numbers(row);
    let others = numbers(other);
    let sum = sums(others, add);
    *row = choose_lanes(own, others, sum, lesser(own, sum)).to_array();
}

/// The lanes of `other` with `add`: what a row whose lanes are all absent becomes beside it.
pub fn plus_row(other: &[i64; 8], add: i64) -> [i64; 8]
    requires other { AreLanes other.now }
    requires add { unsigned_abs add ≤ 10 ^ 18 }
    ensures lanes { (choose : ℤ → ℤ → ℤ) (k : ℕ) → k < 8 →
        lane_at result k ≡ joined choose None (lane_at other.now k) add }
    // The lanes of the other row are at most n in absolute value, the added number at most b.
    ensures bounds { (n b : ℕ) → AreWithin n other.now → unsigned_abs add ≤ b → AreWithin (n + b) result }
{
    let others = numbers(other);
    where_absent(others, others, sums(others, add)).to_array()
}

/// The greatest lane, `ABSENT` where all are.
pub fn max_row(row: &[i64; 8]) -> i64
    requires { AreLanes row.now }
    ensures { IsGreatestLane row.now result }
{
    let lanes = numbers(row);
    let lanes = greater(lanes, turned_by_four(lanes));
    let lanes = greater(lanes, turned_by_two(lanes));
    let lanes = greater(lanes, turned_by_one(lanes));
    lanes.to_array()[0]
}
