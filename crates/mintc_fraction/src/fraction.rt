//! The type and its operations.
ghost use Rattle.std.specs.Prelude.{◌≡◌, ◌+◌, ◌*◌, ◌^◌, ◌≤◌, ℕ, pos, ◌≤ℤ◌, unsigned_abs};

use crate::arithmetic::{greatest_divisor, product, quotient, rounded_down};
use std::cmp::Ordering;
use std::fmt;
use std::marker::Model;

/// A fraction of two whole numbers, the second at least 1. It need not be in lowest terms.
///
/// A fraction is modest where its numerator is at most 10^24 in absolute value and its denominator at
/// most 10^12. The operations take modest fractions.
#[derive(Clone, Copy, Debug)]
pub struct Fraction {
    num: i128,
    den: i128,
}

impl Model for Fraction {
    ghost use Rattle.std.specs.Prelude.{pos, ◌≤ℤ◌};
    ghost use Rattle.mintc_fraction.specs.Ratio.{Ratio};

    ghost Value = { Ratio };

    ghost view = { λ f. record { num = f.num; den = f.den } };

    ghost invariant = { λ f. pos 1 ≤ℤ f.den };

    ghost inverse = { λ a. record { num = a.num; den = a.den } };
}

impl Fraction {
    ghost use Rattle.mintc_fraction.specs.Ratio.{over, IsFraction, IsOrderOf, IsEqual, sum_of, product_of, IsFloor};
    ghost use Rattle.mintc_fraction.specs.Ratio.{IsCeiling, IsLowest, IsWithin, IsModest};

    /// The fraction `num / den`.
    pub fn new(num: i128, den: i128) -> Fraction
        requires { pos 1 ≤ℤ den }
        ensures { result ≡ over num den }
    {
        Fraction { num, den }
    }

    /// The numerator, as the fraction was made.
    pub fn num(&self) -> i128
        ensures { result ≡ self.now.num }
    {
        self.num
    }

    /// The denominator, as the fraction was made.
    pub fn den(&self) -> i128
        ensures value { result ≡ self.now.den }
        ensures positive { IsFraction self.now }
    {
        self.den
    }

    /// How the values compare.
    pub fn compare(&self, other: &Fraction) -> Ordering
        requires modest { IsModest self.now }
        requires other { IsModest other.now }
        ensures { IsOrderOf self.now other.now result }
    {
        let left = product(self.num, other.den);
        let right = product(other.num, self.den);
        left.cmp(&right)
    }

    /// The sum. It is not reduced.
    pub fn add(&self, other: &Fraction) -> Fraction
        requires modest { IsModest self.now }
        requires other { IsModest other.now }
        ensures value { IsEqual result (sum_of self.now other.now) }
        ensures positive { IsFraction result }
        // The numerators are at most n and m in absolute value, the denominators at most d and e.
        ensures bounds { (n d m e : ℕ) → IsWithin n d self.now → IsWithin m e other.now
            → IsWithin (n * e + m * d) (d * e) result }
    {
        let num = product(self.num, other.den) + product(other.num, self.den);
        let den = product(self.den, other.den);
        Fraction { num, den }
    }

    /// The product with a whole number. It is not reduced.
    pub fn scale(&self, by: i128) -> Fraction
        requires modest { IsModest self.now }
        requires by { unsigned_abs by ≤ 10 ^ 12 }
        ensures value { IsEqual result (product_of self.now by) }
        ensures positive { IsFraction result }
        ensures bounds { (n d k : ℕ) → IsWithin n d self.now → unsigned_abs by ≤ k
            → IsWithin (n * k) d result }
    {
        Fraction {
            num: product(self.num, by),
            den: self.den,
        }
    }

    /// The greatest `g` with `g / grid` at most the value.
    pub fn floor_at(&self, grid: i128) -> i128
        requires modest { IsModest self.now }
        requires some { pos 1 ≤ℤ grid }
        requires few { grid ≤ℤ pos (10 ^ 12) }
        ensures value { IsFloor self.now grid result }
        ensures bound { (n k : ℕ) → unsigned_abs self.now.num ≤ n → grid ≤ℤ pos k
            → unsigned_abs result ≤ n * k }
    {
        rounded_down(product(self.num, grid), self.den)
    }

    /// The least `g` with `g / grid` at least the value.
    pub fn ceil_at(&self, grid: i128) -> i128
        requires modest { IsModest self.now }
        requires some { pos 1 ≤ℤ grid }
        requires few { grid ≤ℤ pos (10 ^ 12) }
        ensures value { IsCeiling self.now grid result }
        ensures bound { (n k : ℕ) → unsigned_abs self.now.num ≤ n → grid ≤ℤ pos k
            → unsigned_abs result ≤ n * k }
    {
        -rounded_down(-product(self.num, grid), self.den)
    }

    /// The same value in lowest terms.
    pub fn reduced(&self) -> Fraction
        requires { IsModest self.now }
        ensures value { IsEqual result self.now }
        ensures lowest { IsLowest result }
        ensures positive { IsFraction result }
        ensures modest { IsModest result }
        ensures bounds { (n d : ℕ) → IsWithin n d self.now → IsWithin n d result }
    {
        let divisor = greatest_divisor(self.num, self.den);
        Fraction {
            num: quotient(self.num, divisor),
            den: quotient(self.den, divisor),
        }
    }
}

impl fmt::Display for Fraction {
    ghost use Rattle.std.specs.Prelude.{Some};
    ghost use Rattle.mintc_fraction.specs.Ratio.{text_of};

    ghost output = { λ a. Some (text_of a) };

    fn fmt<W: fmt::Write>(&self, f: &mut fmt::Formatter<W>) -> fmt::Result {
        write!(f, "{}/{}", self.num, self.den)
    }
}
