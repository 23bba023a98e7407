//! The words of values with `0` in the place of numbers below 0.
ghost use Rattle.std.specs.Prelude.{◌≡◌, ◌≤◌, ◌++◌, OnOk, length};
ghost use Rattle.mintc_decimal.specs.Decimals.{number_of};
ghost use Rattle.mintc_sdf.specs.Values.{colon_size};
ghost use Rattle.mintcx_clamp.specs.Words.{clamped_part, clamped_word, is_below};

use mintc_decimal::Decimal;
use mintc_text::OutOfMemory;
use mintc_text_scan::rest_from;

/// Whether some bytes are a number below 0.
fn is_below_zero(bytes: &[u8]) -> bool
    ensures { result ≡ is_below (number_of bytes.now) }
{
    match Decimal::read(bytes) {
        Some(number) => number.negative && number.digits > 0,
        None => false,
    }
}

/// Writes a part of a word, or `0` where it is a number below 0.
fn put_part(out: &mut Vec<u8>, part: &[u8]) -> Result<(), OutOfMemory>
    ensures { OnOk result (out.new.items ≡ out.old.items ++ clamped_part part.now) }
{
    if is_below_zero(part) {
        Ok(out.push(b'0')?)
    } else {
        Ok(out.extend_from_slice(part)?)
    }
}

/// How many bytes stand before the first colon.
fn colon_size(bytes: &[u8]) -> usize
    ensures value { result ≡ colon_size bytes.now }
    ensures within { result ≤ length bytes.now }
{
    bytes
        .iter()
        .position(|byte| *byte == b':')
        .unwrap_or(bytes.len())
}

/// Writes the word of a value with `0` in the place of each number below 0.
pub(crate) fn put_word(out: &mut Vec<u8>, word: &[u8]) -> Result<(), OutOfMemory>
    ensures { OnOk result (out.new.items ≡ out.old.items ++ clamped_word word.now) }
{
    let mut rest = word;
    loop {
        let size = colon_size(rest);
        put_part(out, &rest[..size])?;
        if size == rest.len() {
            return Ok(());
        }
        out.push(b':')?;
        rest = rest_from(rest, size + 1);
    }
}
