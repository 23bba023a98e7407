//! Expressions over one pin.
ghost use Rattle.std.specs.Prelude.{◌≡◌, ◌+◌, ◌&&◌, nat_le, take, drop, length, IfOk, IfSome, IfNone, Some, None, true};
ghost use Rattle.std.specs.Prelude.{false, option_map};
ghost use Rattle.mintc_liberty_cell.specs.Expressions.{stripped, is_among, literal, inverted_input, expression};
ghost use Rattle.std.specs.List.{list_any};
ghost use Rattle.mintc_liberty_cell.specs.Meaning.{inputs, is_as};
ghost use Rattle.mintc_liberty_cell.specs.declared.pins.Role.TheVariants as role;
ghost use Rattle.mintc_liberty_cell.specs.Parentheses.{leading, outer, pairs};
ghost use Rattle.mintc_liberty_cell.specs.Passing.{value_bytes};
ghost use Rattle.mintc_liberty_cell.specs.Seen.{pins_seen};

use crate::bytes::{ValueBytes, bytes_from};
use crate::pins::{Pin, Role, is_as, is_input};
use mintc_liberty_tokens::Reader;
use mintc_text::OutOfMemory;
use mintc_text_scan::{byte_at, rest_from};
use std::alloc::Global;

/// A pin by its name, and whether it is meant as it is and not inverted.
#[derive(Clone, Copy)]
pub(crate) struct Literal<'a> {
    pub name: &'a [u8],
    pub is_plain: bool,
}

/// One more, unless it can't be counted.
fn one_more(count: usize) -> Result<usize, OutOfMemory>
    ensures { IfOk result (λ more. more ≡ count + 1) }
{
    count.checked_add(1).ok_or(OutOfMemory)
}

/// How many bytes a value has, white space not counted.
fn size(value: &Reader) -> Result<usize, OutOfMemory>
    ensures { IfOk result (λ size. size ≡ length (stripped (value_bytes value.now))) }
{
    let mut bytes = ValueBytes::new(value);
    let mut size = 0;
    while let Some(_) = bytes.next() {
        size = one_more(size)?;
    }
    Ok(size)
}

/// How many parentheses open at the front.
fn leading(value: &Reader) -> Result<usize, OutOfMemory>
    ensures { IfOk result (λ count. count ≡ leading (stripped (value_bytes value.now))) }
{
    let mut bytes = ValueBytes::new(value);
    let mut count = 0;
    while let Some(byte) = bytes.next() {
        if byte != b'(' {
            return Ok(count);
        }
        count = one_more(count)?;
    }
    Ok(count)
}

/// How many pairs of outer parentheses there are, behind those that open at the front.
fn outer(value: &Reader, from: usize) -> Result<usize, OutOfMemory>
    ensures { IfOk result (λ pairs. pairs ≡ outer from from (drop from (stripped (value_bytes value.now)))) }
{
    let mut bytes = bytes_from(value, from);
    let mut open = from;
    let mut pairs = from;
    while let Some(byte) = bytes.next() {
        if byte == b')' {
            if open == 0 {
                return Ok(0);
            }
            open -= 1;
        } else {
            pairs = pairs.min(open);
            if byte == b'(' {
                open = one_more(open)?;
            }
        }
    }
    Ok(if open == 0 { pairs } else { 0 })
}

/// How many pairs of outer parentheses there are.
fn pairs(value: &Reader) -> Result<usize, OutOfMemory>
    ensures { IfOk result (λ count. count ≡ pairs (stripped (value_bytes value.now))) }
{
    let from = leading(value)?;
    outer(value, from)
}

/// Whether a pin is an input, and so many bytes are no more than its name and a mark.
fn is_near(pin: &Pin, size: usize) -> bool
    ensures { result ≡ (is_as role.Input pin.now.role && nat_le size (length pin.now.name.now + 1)) }
{
    is_as(Role::Input, pin.role) && size <= pin.name.len() + 1
}

/// Whether so many bytes can be an expression: no more than an input's name and a mark.
fn fits(pins: &[Pin], size: usize) -> bool
    ensures { result ≡ list_any (λ name. nat_le size (length name + 1)) (inputs (pins_seen pins.now)) }
{
    for pin in pins {
        if is_near(pin, size) {
            return true;
        }
    }
    false
}

/// So many bytes of a value from a place on, white space not counted.
fn part(alloc: Global, value: &Reader, from: usize, size: usize) -> Result<Vec<u8>, OutOfMemory>
    ensures { IfOk result (λ part. part.items ≡ take size (drop from (stripped (value_bytes value.now)))) }
{
    let mut bytes = bytes_from(value, from);
    let mut part = Vec::with_capacity(alloc, size)?;
    for _ in 0..size {
        let Some(byte) = bytes.next() else {
            return Ok(part);
        };
        part.push(byte)?;
    }
    Ok(part)
}

/// The input of a name.
fn input_named<'a>(pins: &[Pin<'a>], name: &[u8]) -> Option<&'a [u8]>
    ensures none { IfNone result (is_among (inputs (pins_seen pins.now)) name.now ≡ false) }
    ensures some { IfSome result (λ n. (is_among (inputs (pins_seen pins.now)) name.now ≡ true) × (n.now ≡ name.now)) }
{
    for pin in pins {
        if is_input(pin, name) {
            return Some(pin.name);
        }
    }
    None
}

/// The input of a name that a mark stands beside.
fn input_beside_mark<'a>(pins: &[Pin<'a>], has_mark: bool, name: &[u8]) -> Option<&'a [u8]>
    ensures none { IfNone result ((has_mark && is_among (inputs (pins_seen pins.now)) name.now) ≡ false) }
    ensures some { IfSome result (λ n. ((has_mark && is_among (inputs (pins_seen pins.now)) name.now) ≡ true)
        × (n.now ≡ name.now)) }
{
    if has_mark {
        input_named(pins, name)
    } else {
        None
    }
}

/// `!P` or `P'` of an input.
fn inverted_input<'a>(pins: &[Pin<'a>], bytes: &[u8]) -> Option<&'a [u8]>
    ensures none { IfNone result (inverted_input (inputs (pins_seen pins.now)) bytes.now ≡ None) }
    ensures some { IfSome result (λ n. inverted_input (inputs (pins_seen pins.now)) bytes.now ≡ Some n.now) }
{
    if let Some(name) = input_beside_mark(pins, byte_at(bytes, 0) == b'!', rest_from(bytes, 1)) {
        return Some(name);
    }
    let last = bytes.len().saturating_sub(1);
    input_beside_mark(pins, byte_at(bytes, last) == b'\'', &bytes[..last])
}

/// `P`, `!P` or `P'` of an input.
fn literal_of<'a>(pins: &[Pin<'a>], bytes: &[u8]) -> Option<Literal<'a>>
    ensures none { IfNone result (literal (inputs (pins_seen pins.now)) bytes.now ≡ None) }
    ensures some { IfSome result (λ l. literal (inputs (pins_seen pins.now)) bytes.now
        ≡ Some (l.name.now, l.is_plain)) }
{
    if let Some(name) = input_named(pins, bytes) {
        return Some(Literal {
            name,
            is_plain: true,
        });
    }
    let name = inverted_input(pins, bytes)?;
    Some(Literal {
        name,
        is_plain: false,
    })
}

/// The expression over an input that a value is.
pub(crate) fn expression<'a>(
    alloc: Global,
    pins: &[Pin<'a>],
    value: &Option<Reader>,
) -> Result<Option<Literal<'a>>, OutOfMemory>
    ensures none { IfOk result
        (λ o. IfNone o (expression (inputs (pins_seen pins.now)) (option_map value_bytes value.now) ≡ None)) }
    ensures some { IfOk result
        (λ o. IfSome o (λ l. expression (inputs (pins_seen pins.now)) (option_map value_bytes value.now)
        ≡ Some (l.name.now, l.is_plain))) }
{
    match value {
        Some(value) => {
            let count = pairs(value)?;
            let size = size(value)? - count - count;
            if !fits(pins, size) {
                return Ok(None);
            }
            let bytes = part(alloc, value, count, size)?;
            Ok(literal_of(pins, &bytes))
        }
        None => Ok(None),
    }
}
