//! Vectors of eight lanes.
ghost use Rattle.std.specs.Prelude.{◌+◌, ◌%◌, ◌<◌, ℕ, ◌+ℤ◌, ◌-ℤ◌, FitsSigned};
ghost use Rattle.std.specs.Int.{int_max, int_min, w64};
ghost use Rattle.mintc_lanes.specs.Vectors.{IsVector, HasNumbers, number_at, where_absent_at};

use crate::ABSENT;
use std::simd::prelude::*;

/// The greater of each two numbers. The sign of their difference says which: that takes fewer steps than to compare
/// numbers of 64 bits on a processor that compares only those of 32.
pub(crate) fn greater(x: i64x8, y: i64x8) -> i64x8
    requires x { IsVector x }
    requires y { IsVector y }
    requires near { (k : ℕ) → k < 8 → FitsSigned w64 (number_at x k -ℤ number_at y k) }
    ensures vector { IsVector result }
    ensures numbers { HasNumbers result (λ k. int_max (number_at x k) (number_at y k)) }
{
    (x - y).simd_lt(i64x8::splat(0)).select(y, x)
}

/// The lesser of each two numbers, by the sign of their difference.
pub(crate) fn lesser(x: i64x8, y: i64x8) -> i64x8
    requires x { IsVector x }
    requires y { IsVector y }
    requires near { (k : ℕ) → k < 8 → FitsSigned w64 (number_at x k -ℤ number_at y k) }
    ensures vector { IsVector result }
    ensures numbers { HasNumbers result (λ k. int_min (number_at x k) (number_at y k)) }
{
    (x - y).simd_lt(i64x8::splat(0)).select(x, y)
}

/// Each number with one number added.
pub(crate) fn sums(x: i64x8, add: i64) -> i64x8
    requires x { IsVector x }
    requires fits { (k : ℕ) → k < 8 → FitsSigned w64 (number_at x k +ℤ add) }
    ensures vector { IsVector result }
    ensures numbers { HasNumbers result (λ k. number_at x k +ℤ add) }
{
    x + i64x8::splat(add)
}

/// The numbers of `absent` where those of `x` are `ABSENT`, and else those of `present`.
pub(crate) fn where_absent(x: i64x8, absent: i64x8, present: i64x8) -> i64x8
    requires x { IsVector x }
    requires absent { IsVector absent }
    requires present { IsVector present }
    ensures vector { IsVector result }
    ensures numbers { HasNumbers result (where_absent_at x absent present) }
{
    x.simd_eq(i64x8::splat(ABSENT)).select(absent, present)
}

/// The numbers four places on, round the end.
pub(crate) fn turned_by_four(x: i64x8) -> i64x8
    requires { IsVector x }
    ensures vector { IsVector result }
    ensures numbers { HasNumbers result (λ k. number_at x ((k + 4) % 8)) }
{
    x.rotate_elements_left::<4>()
}

/// The numbers two places on, round the end.
pub(crate) fn turned_by_two(x: i64x8) -> i64x8
    requires { IsVector x }
    ensures vector { IsVector result }
    ensures numbers { HasNumbers result (λ k. number_at x ((k + 2) % 8)) }
{
    x.rotate_elements_left::<2>()
}

/// The numbers one place on, round the end.
pub(crate) fn turned_by_one(x: i64x8) -> i64x8
    requires { IsVector x }
    ensures vector { IsVector result }
    ensures numbers { HasNumbers result (λ k. number_at x ((k + 1) % 8)) }
{
    x.rotate_elements_left::<1>()
}
