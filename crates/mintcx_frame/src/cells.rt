//! Words, numbers and times as cells of a table.
ghost use Rattle.std.specs.Prelude.{◌≡◌, ◌++◌, decimal, IfOk, OnOk};
ghost use Rattle.mintc_fraction.specs.Ratio.{IsModest, over};
ghost use Rattle.mintc_timing.specs.Limits.{IsDenominator};
ghost use Rattle.mintcx_amounts.specs.Amounts.{amount_text};
ghost use Rattle.mintcx_frame.specs.Ends.{time_text};

use mintc_fraction::Fraction;
use mintc_text::{Lines, Name, OutOfMemory};
use mintcx_amounts::{Unit, put_amount};
use std::alloc::Global;

/// What was written, as a cell.
pub(crate) fn cell_of(alloc: Global, lines: Lines) -> Result<Name, OutOfMemory>
    ensures { IfOk result (λ cell. cell ≡ lines) }
{
    Name::new(alloc, &lines.into_bytes())
}

/// A word as a cell.
pub fn word_cell(alloc: Global, word: &[u8]) -> Result<Name, OutOfMemory>
    ensures { IfOk result (λ cell. cell ≡ word.now) }
{
    Name::new(alloc, word)
}

/// Writes a whole number.
pub fn put_number(lines: &mut Lines, number: u64) -> Result<(), OutOfMemory>
    ensures { OnOk result (lines.new ≡ lines.old ++ decimal number) }
{
    lines.number(i128::from(number))
}

/// A whole number as a cell.
pub fn number_cell(alloc: Global, number: u64) -> Result<Name, OutOfMemory>
    ensures { IfOk result (λ cell. cell ≡ decimal number) }
{
    let mut lines = Lines::new(alloc);
    lines.number(i128::from(number))?;
    cell_of(alloc, lines)
}

/// An amount of femtoseconds in a unit, as a cell.
pub fn amount_cell(alloc: Global, amount: &Fraction, unit: Unit) -> Result<Name, OutOfMemory>
    requires { IsModest amount.now }
    ensures { IfOk result (λ cell. cell ≡ amount_text unit amount.now) }
{
    let mut lines = Lines::new(alloc);
    put_amount(&mut lines, amount, unit)?;
    cell_of(alloc, lines)
}

/// A time over a denominator, in femtoseconds, as the cell of a unit.
pub fn time_cell(alloc: Global, time: i64, den: i64, unit: Unit) -> Result<Name, OutOfMemory>
    requires { IsDenominator den }
    ensures { IfOk result (λ cell. cell ≡ amount_text unit (over time den)) }
{
    amount_cell(
        alloc,
        &Fraction::new(i128::from(time), i128::from(den)),
        unit,
    )
}

/// Writes an amount of femtoseconds in a unit, and after a blank the unit.
pub fn put_time(lines: &mut Lines, amount: &Fraction, unit: Unit) -> Result<(), OutOfMemory>
    requires { IsModest amount.now }
    ensures { OnOk result (lines.new ≡ lines.old ++ time_text unit amount.now) }
{
    put_amount(lines, amount, unit)?;
    lines.put(b" ")?;
    lines.put(unit.word())
}
