//! Numbers below zero and fractions that follow a space.
ghost use Rattle.std.specs.Prelude.{◌≡◌, ◌++◌, ◌∷◌, OnOk};
ghost use Rattle.mintc_text.specs.Lines.{numeral_of, fraction_word};
ghost use Rattle.mintc_timing.specs.Limits.{IsDenominator};
ghost use Rattle.mintc_report.specs.Answers.{IsLowestOf};

use mintc_fraction::Fraction;
use mintc_text::{Lines, OutOfMemory};

/// Writes a number that may be below zero after a space.
pub(crate) fn put_integer(lines: &mut Lines, number: i64) -> Result<(), OutOfMemory>
    ensures { OnOk result (lines.new ≡ lines.old ++ 32 ∷ numeral_of number) }
{
    lines.put(b" ")?;
    lines.number(number as i128)
}

/// The fraction `num / den` in lowest terms.
pub(crate) fn lowest(num: i64, den: i64) -> Fraction
    requires { IsDenominator den }
    ensures { IsLowestOf num den result }
{
    Fraction::new(num as i128, den as i128).reduced()
}

/// Writes a fraction after a space.
pub(crate) fn put_fraction(lines: &mut Lines, fraction: &Fraction) -> Result<(), OutOfMemory>
    ensures { OnOk result (lines.new ≡ lines.old ++ 32 ∷ fraction_word fraction.now.num fraction.now.den) }
{
    lines.put(b" ")?;
    lines.fraction(fraction.num(), fraction.den())
}
