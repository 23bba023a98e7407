//! Cells as their description has them.
ghost use Rattle.std.specs.Prelude.{◌≤◌, length};

use crate::cells::section_named;
use crate::descriptions::has_long_strings;
use crate::found::bytes_of;
use crate::quoting::inside_quotes;
use crate::sections::{Section, entry_of, is_plain};
use mintc_text::{OutOfMemory, place_of};
use mintcx_places::Range;
use std::alloc::Global;

/// Pins of a cell.
#[derive(Clone, Copy, Debug, PartialEq, Eq)]
pub enum Side {
    Inputs,
    Outputs,
    /// All of them, also those that are ignored.
    All,
}

/// The keys of pins of gates, of latches, of flops and of cells of the clock's tree, in the order of the description.
fn pin_keys(kind: &[u8], side: Side) -> &'static [&'static [u8]] {
    let is_gate = kind == b"gate".as_slice();
    let is_clock = kind == b"clock".as_slice();
    let is_latch = kind == b"latch".as_slice();
    match side {
        Side::Inputs if is_gate => &[b"inputs"],
        Side::Inputs if is_clock => &[b"input"],
        Side::Inputs if is_latch => &[b"d", b"g"],
        Side::Inputs => &[b"d", b"clock"],
        Side::Outputs if is_clock => &[b"output"],
        Side::Outputs => &[b"outputs"],
        Side::All => &[
            b"inputs", b"input", b"d", b"g", b"clock", b"outputs", b"output", b"ignored",
        ],
    }
}

/// Where the first quote stands, from a place on; the end where there is none.
fn quote_from(bytes: &[u8], from: usize) -> usize
    requires { from ≤ length bytes.now }
    ensures after { from ≤ result }
    ensures within { result ≤ length bytes.now }
{
    for at in from..bytes.len() {
        if bytes[at] == b'"' || bytes[at] == b'\'' {
            return at;
        }
    }
    bytes.len()
}

/// Takes in the strings of a value that stands on one line, without their quotes. Whether each is closed, and none has
/// a backslash.
fn add_strings<'a>(bytes: &'a [u8], names: &mut Vec<&'a [u8]>) -> Result<bool, OutOfMemory> {
    if bytes.contains(&b'\\') {
        return Ok(false);
    }
    let mut from = 0;
    while from < bytes.len() {
        let quote = quote_from(bytes, from);
        if quote >= bytes.len() {
            return Ok(true);
        }
        let to = place_of(bytes[quote], bytes, quote + 1);
        if to >= bytes.len() {
            return Ok(false);
        }
        names.push(&bytes[quote + 1..to])?;
        from = to + 1;
    }
    Ok(true)
}

/// The item of the cell of a name, where each of its keys stands on one line with its value.
fn plain_cell(text: &[u8], name: &[u8]) -> Option<Section> {
    if has_long_strings(text) {
        return None;
    }
    let (_, section) = section_named(text, name)?;
    if is_plain(text, &section) {
        Some(section)
    } else {
        None
    }
}

/// The word that says the kind of a cell.
pub(crate) fn kind_in<'a>(text: &'a [u8], section: &Section) -> Option<&'a [u8]> {
    let value = entry_of(text, section, b"kind")?.value;
    let kind = inside_quotes(text, &value)?;
    Some(bytes_of(text, &kind))
}

/// Takes in the pins that some keys of a cell name. Whether they are found of each key that is there.
fn add_pins<'a>(
    text: &'a [u8],
    section: &Section,
    keys: &[&[u8]],
    names: &mut Vec<&'a [u8]>,
) -> Result<bool, OutOfMemory> {
    for key in keys {
        if let Some(entry) = entry_of(text, section, *key) {
            if !add_strings(bytes_of(text, &entry.value), names)? {
                return Ok(false);
            }
        }
    }
    Ok(true)
}

/// The outputs of a cell, as far as they are found.
pub(crate) fn outputs_in<'a>(
    alloc: Global,
    text: &'a [u8],
    section: &Section,
) -> Result<Vec<&'a [u8]>, OutOfMemory> {
    let mut names = Vec::new(alloc);
    let _whole = add_pins(text, section, &[b"outputs", b"output"], &mut names)?;
    Ok(names)
}

/// The pin that a key of the cell of a name says.
pub(crate) fn pin_said<'a>(text: &'a [u8], name: &[u8], key: &[u8]) -> Option<&'a [u8]> {
    let section = plain_cell(text, name)?;
    let value = entry_of(text, &section, key)?.value;
    let pin = inside_quotes(text, &value)?;
    Some(bytes_of(text, &pin))
}

/// Pins of the cell of a name in a cell description, in the order of the keys of its kind. None where the cell isn't
/// found there, or the description isn't scanned by its lines.
pub fn pins_of_cell<'a>(
    alloc: Global,
    text: &'a [u8],
    name: &[u8],
    side: Side,
) -> Result<Option<Vec<&'a [u8]>>, OutOfMemory> {
    let Some(section) = plain_cell(text, name) else {
        return Ok(None);
    };
    let Some(kind) = kind_in(text, &section) else {
        return Ok(None);
    };
    let mut names = Vec::new(alloc);
    if add_pins(text, &section, pin_keys(kind, side), &mut names)? {
        Ok(Some(names))
    } else {
        Ok(None)
    }
}
