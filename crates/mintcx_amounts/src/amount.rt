//! Amounts of time.
ghost use Rattle.std.specs.Prelude.{◌≡◌, ◌≤◌, ◌++◌, ◌^◌, length, take, OnErr, OnOk};
ghost use Rattle.mintc_fraction.specs.Ratio.{IsModest};
ghost use Rattle.mintcx_amounts.specs.Amounts.{amount_text, mark_of, shown_in, sign_of};

use crate::Unit;
use crate::decimal::{Decimal, put_decimal, trimmed};
use mintc_fraction::Fraction;
use mintc_text::{Lines, OutOfMemory};

/// How an amount is shown: whether it is rounded, whether it is below 0, and its size as a decimal of its unit.
#[derive(Clone, Copy)]
pub(crate) struct Shown {
    pub(crate) rounded: bool,
    pub(crate) negative: bool,
    pub(crate) size: Decimal,
}

/// How an amount in femtoseconds is shown in a unit.
fn shown_in(unit: Unit, amount: &Fraction) -> Shown
    requires { IsModest amount.now }
    ensures value { result ≡ shown_in unit amount.now }
    ensures few { result.size.digits ≤ 10 ^ 37 }
{
    let negative = amount.num() < 0;
    let size = amount.num().unsigned_abs();
    let scale = amount.den().unsigned_abs() * unit.femtoseconds();
    let millionths = size * 1_000_000;
    if millionths % scale == 0 {
        Shown {
            rounded: false,
            negative,
            size: trimmed(millionths / scale, 6),
        }
    } else {
        Shown {
            rounded: true,
            negative,
            size: trimmed((size * 2_000 + scale) / (scale * 2), 3),
        }
    }
}

/// The mark before an amount that is rounded.
fn mark_of(rounded: bool) -> &'static [u8]
    ensures { result.now ≡ mark_of rounded }
{
    if rounded { b"~" } else { b"" }
}

/// The sign of an amount.
fn sign_of(negative: bool) -> &'static [u8]
    ensures { result.now ≡ sign_of negative }
{
    if negative { b"-" } else { b"" }
}

/// Writes an amount of femtoseconds in a unit, without the unit's name: exactly where six places are enough, else a `~`
/// and the amount rounded to three places.
///
/// A want of memory may leave a part of it behind.
pub fn put_amount(lines: &mut Lines, amount: &Fraction, unit: Unit) -> Result<(), OutOfMemory>
    requires { IsModest amount.now }
    ensures ok { OnOk result (lines.new ≡ lines.old ++ amount_text unit amount.now) }
    ensures err { OnErr result (take (length lines.old) lines.new ≡ lines.old) }
{
    let shown = shown_in(unit, amount);
    lines.put(mark_of(shown.rounded))?;
    lines.put(sign_of(shown.negative))?;
    put_decimal(lines, &shown.size)
}
