//! Decimals, and how they are written.
ghost use Rattle.std.specs.Prelude.{◌≡◌, ◌≤◌, ◌++◌, ◌^◌, length, take, OnErr, OnOk};
ghost use Rattle.mintcx_amounts.specs.Decimals.{decimal_text, trimmed, with_point};

use mintc_text::{Lines, OutOfMemory};

/// The number `digits / 10^places`.
#[derive(Clone, Copy)]
pub(crate) struct Decimal {
    pub(crate) digits: u128,
    pub(crate) places: u32,
}

/// The decimal `digits / 10^places` without zeros at the end of its places.
#[tactic(auto, using(crate::proofs::DecimalLaws::turns))]
pub(crate) fn trimmed(mut digits: u128, mut places: u32) -> Decimal
    ensures value { result ≡ trimmed places digits }
    ensures few { result.digits ≤ digits }
{
    while places > 0 && digits % 10 == 0 {
        digits /= 10;
        places -= 1;
    }
    Decimal { digits, places }
}

/// Writes a number with a point before its last places.
#[tactic(auto, using(crate::proofs::DecimalLaws::with_point_more))]
pub(crate) fn put_with_point(
    lines: &mut Lines,
    digits: u128,
    places: u32,
) -> Result<(), OutOfMemory>
    requires { digits ≤ 10 ^ 37 }
    ensures ok { OnOk result (lines.new ≡ lines.old ++ with_point places digits) }
    ensures err { OnErr result (take (length lines.old) lines.new ≡ lines.old) }
{
    if places == 0 {
        lines.number(digits as i128)?;
        return lines.put(b".");
    }
    put_with_point(lines, digits / 10, places - 1)?;
    lines.put(&[b'0' + (digits % 10) as u8])
}

/// Writes a decimal.
pub(crate) fn put_decimal(lines: &mut Lines, decimal: &Decimal) -> Result<(), OutOfMemory>
    requires { decimal.now.digits ≤ 10 ^ 37 }
    ensures ok { OnOk result (lines.new ≡ lines.old ++ decimal_text decimal.now) }
    ensures err { OnErr result (take (length lines.old) lines.new ≡ lines.old) }
{
    if decimal.places == 0 {
        lines.number(decimal.digits as i128)
    } else {
        put_with_point(lines, decimal.digits, decimal.places)
    }
}
