//! Steps on whole numbers.
ghost use Rattle.std.specs.Prelude.{◌≡◌, ◌^◌, ◌≤◌, pos, ◌+ℤ◌, ◌*ℤ◌, ◌≤ℤ◌, ◌<ℤ◌, unsigned_abs};
ghost use Rattle.std.specs.Int.{IsGcd, ◌∣◌};

/// A product of a number that may be a numerator and one that may be a denominator.
pub(crate) fn product(x: i128, y: i128) -> i128
    requires x { unsigned_abs x ≤ 10 ^ 24 }
    requires y { unsigned_abs y ≤ 10 ^ 12 }
    ensures value { result ≡ x *ℤ y }
    ensures bound { unsigned_abs result ≤ 10 ^ 36 }
{
    x * y
}

/// The greatest whole number at most `x / y`.
pub(crate) fn rounded_down(x: i128, y: i128) -> i128
    requires x { unsigned_abs x ≤ 10 ^ 36 }
    requires y { pos 1 ≤ℤ y }
    ensures low { (result *ℤ y) ≤ℤ x }
    ensures high { x <ℤ (result *ℤ y +ℤ y) }
    ensures bound { unsigned_abs result ≤ 10 ^ 36 }
{
    x.div_euclid(y)
}

/// The number that is `x` divided by one of its divisors.
pub(crate) fn quotient(x: i128, y: i128) -> i128
    requires y { pos 1 ≤ℤ y }
    requires exact { unsigned_abs y ∣ unsigned_abs x }
    ensures { result *ℤ y ≡ x }
{
    x / y
}

/// The greatest common divisor of two numbers, the second at least 1, by Euclid's algorithm. Each turn
/// at least halves the product of the two numbers that are left, so 80 turns are enough.
fn euclid(x: u128, y: u128) -> u128
    requires some { 1 ≤ y }
    requires few { y ≤ 10 ^ 12 }
    ensures { IsGcd x y result }
{
    let (mut a, mut b) = (y, x % y);
    for turn in 0..80u32 {
        if b == 0 {
            return a;
        }
        (a, b) = (b, a % b);
    }
    a
}

/// The greatest common divisor of a number and of one that is at least 1.
pub(crate) fn greatest_divisor(x: i128, y: i128) -> i128
    requires some { pos 1 ≤ℤ y }
    requires few { y ≤ℤ pos (10 ^ 12) }
    ensures divisor { IsGcd (unsigned_abs x) (unsigned_abs y) (unsigned_abs result) }
    ensures positive { pos 1 ≤ℤ result }
{
    euclid(x.unsigned_abs(), y.unsigned_abs()) as i128
}
