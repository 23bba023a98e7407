//! Exact amounts.
ghost use Rattle.std.specs.Prelude.{length, take, OnErr, OnOk, ◌≡◌};
ghost use Rattle.mintc_fraction.specs.Ratio.{IsModest};
ghost use Rattle.mintcx_amounts.specs.Amounts.{AppendsLowest};

use mintc_fraction::Fraction;
use mintc_text::{Lines, OutOfMemory};

/// Writes an amount as the fraction `N/D` in lowest terms, as mintc does.
pub fn put_exact(lines: &mut Lines, amount: &Fraction) -> Result<(), OutOfMemory>
    requires { IsModest amount.now }
    ensures ok { OnOk result (AppendsLowest amount.now lines.old lines.new) }
    ensures err { OnErr result (lines.new ≡ lines.old) }
{
    let lowest = amount.reduced();
    lines.fraction(lowest.num(), lowest.den())
}
