//! A time with its unit, in femtoseconds.
ghost use Rattle.std.specs.Prelude.{◌≡◌, ◌≤◌, IfSome, option_map};
ghost use Rattle.mintc_decimal.specs.DecimalValue.{value_of};
ghost use Rattle.mintcx_manners.specs.Times.{scale_of, number_part, unit_part, femto_of, time_of};

use mintc_decimal::Decimal;

/// How many femtoseconds a unit has.
fn scale_of(unit: &[u8]) -> Option<u64>
    ensures value { result ≡ scale_of unit.now }
    ensures least { IfSome result (λ scale. 1 ≤ scale) }
    ensures most { IfSome result (λ scale. scale ≤ 1000000) }
{
    if unit == b"fs".as_slice() {
        Some(1)
    } else if unit == b"ps".as_slice() {
        Some(1_000)
    } else if unit == b"ns".as_slice() {
        Some(1_000_000)
    } else {
        None
    }
}

/// A decimal times a scale, where that is whole and from 1 to 10^9.
fn whole_femto(number: &Decimal, scale: u64) -> Option<u32>
    requires least { 1 ≤ scale }
    requires most { scale ≤ 1000000 }
    ensures { result ≡ femto_of scale (value_of number.now) }
{
    if number.negative {
        return None;
    }
    let above = number.to_femto_up(scale)?;
    let below = number.to_femto_down(scale)?;
    if above == below && 1 <= above && above <= 1_000_000_000 {
        Some(above as u32)
    } else {
        None
    }
}

/// The femtoseconds of a time as `1400ps`: a decimal and its unit. None where it is no whole number of them from 1 to
/// 10^9.
pub fn read_time(text: &[u8]) -> Option<u32>
    ensures { result ≡ time_of text.now }
{
    let end = text.len().saturating_sub(2);
    let scale = scale_of(&text[end..])?;
    let number = Decimal::read(&text[..end])?;
    whole_femto(&number, scale)
}
