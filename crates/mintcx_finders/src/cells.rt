//! Cells of a cell description.
ghost use Rattle.std.specs.Prelude.{IfOk, IfSome};
ghost use Rattle.mintcx_finders.specs.Places.{IsRange};

use crate::descriptions::{has_long_strings, quote_fault};
use crate::found::{Fault, Found, Wrong, bytes_of, found_anywhere};
use crate::quoting::{inked, inside_quotes};
use crate::sections::{
    Section, entry_of, extra_key, is_bare_key, is_header, is_plain, line_at, no_whole, section_at,
};
use mintc_text::OutOfMemory;
use mintcx_places::Range;
use std::alloc::Global;

/// What the line of a cell begins with.
const CELL: &[u8] = b"[cell.";

/// The keys of numbers.
const NUMBERS: &[&[u8]] = &[
    b"min", b"max", b"setup", b"hold", b"dq_min", b"dq_max", b"cq_min", b"cq_max", b"width",
];

/// The keys of gates, of latches, of flops and of cells of the clock's tree.
const GATE: &[&[u8]] = &[b"kind", b"inputs", b"outputs", b"min", b"max"];

const LATCH: &[&[u8]] = &[
    b"kind", b"d", b"g", b"outputs", b"active", b"ignored", b"setup", b"hold", b"dq_min",
    b"dq_max", b"cq_min", b"cq_max", b"width",
];

const FLOP: &[&[u8]] = &[
    b"kind", b"d", b"clock", b"outputs", b"edge", b"ignored", b"setup", b"hold", b"cq_min",
    b"cq_max", b"width",
];

const CLOCK: &[&[u8]] = &[b"kind", b"input", b"output", b"invert", b"ignored"];

/// The name of the cell that a line begins. None where the line is another.
pub(crate) fn name_on(text: &[u8], line: &Range) -> Option<Range> {
    let header = inked(text, line);
    match bytes_of(text, &header) {
        [.., b']'] if bytes_of(text, &header).starts_with(CELL) => {}
        _ => return None,
    }
    let name = Range {
        from: header.from.saturating_add(CELL.len()),
        to: header.to.saturating_sub(1),
    };
    if is_bare_key(bytes_of(text, &name)) {
        Some(name)
    } else {
        inside_quotes(text, &name)
    }
}

/// The names of all cells, in the order of the text. None where it has items that are none.
fn names_of<'a>(alloc: Global, text: &'a [u8]) -> Result<Option<Vec<&'a [u8]>>, OutOfMemory> {
    let mut names = Vec::new(alloc);
    let mut at = 0;
    while let Some(line) = line_at(text, at) {
        if is_header(text, &line) {
            let Some(name) = name_on(text, &line) else {
                return Ok(None);
            };
            names.push(bytes_of(text, &name))?;
        }
        at = line.to + 1;
    }
    Ok(Some(names))
}

/// The cell of a name: its name and its item.
pub(crate) fn section_named(text: &[u8], wanted: &[u8]) -> Option<(Range, Section)> {
    let mut at = 0;
    while let Some(line) = line_at(text, at) {
        if let Some(name) = name_on(text, &line) {
            if bytes_of(text, &name) == wanted {
                return Some((name, section_at(text, &line)));
            }
        }
        at = line.to + 1;
    }
    None
}

/// The names of the cells of a cell description, in byte order. None where it has items that are none, or isn't scanned
/// by its lines.
pub fn cell_names<'a>(alloc: Global, text: &'a [u8]) -> Result<Option<Vec<&'a [u8]>>, OutOfMemory> {
    if has_long_strings(text) {
        return Ok(None);
    }
    let Some(mut names) = names_of(alloc, text)? else {
        return Ok(None);
    };
    names.sort()?;
    Ok(Some(names))
}

/// The cell of a number from 1 on in byte order of names: its name and its item.
fn nth_cell(
    alloc: Global,
    text: &[u8],
    number: u32,
) -> Result<Option<(Range, Section)>, OutOfMemory> {
    let Some(names) = cell_names(alloc, text)? else {
        return Ok(None);
    };
    match names.get((number as usize).wrapping_sub(1)) {
        Some(name) => Ok(section_named(text, name)),
        None => Ok(None),
    }
}

/// The keys that a cell of a kind has. None where it is no kind.
fn keys_of(kind: &[u8]) -> Option<&'static [&'static [u8]]> {
    if kind == b"gate".as_slice() {
        Some(GATE)
    } else if kind == b"latch".as_slice() {
        Some(LATCH)
    } else if kind == b"flop".as_slice() {
        Some(FLOP)
    } else if kind == b"clock".as_slice() {
        Some(CLOCK)
    } else {
        None
    }
}

/// A key that the kind of a cell doesn't have.
fn key_beside(text: &[u8], section: &Section) -> Option<Range> {
    let kind = inside_quotes(text, &entry_of(text, section, b"kind")?.value)?;
    extra_key(text, section, keys_of(bytes_of(text, &kind))?)
}

/// What of a cell fails a rule, and why. All of it, where that isn't found.
fn wrong_in(text: &[u8], section: &Section, rule: u32) -> (Range, Wrong) {
    if !is_plain(text, section) {
        return (section.header, Wrong::Whole);
    }
    if rule == 3 {
        if let Some(key) = key_beside(text, section) {
            return (key, Wrong::Extra);
        }
    }
    if rule == 6 {
        if let Some(entry) = no_whole(text, section, NUMBERS) {
            return (entry.value, Wrong::NoWhole { key: entry.key });
        }
    }
    (section.header, Wrong::Whole)
}

/// What of a cell of a cell description fails a rule, counted as in refusals; or the quote that is left open, where the
/// description is no TOML.
pub fn cell_fault(
    alloc: Global,
    text: &[u8],
    entry: u32,
    rule: u32,
) -> Result<Option<Found>, OutOfMemory>
    ensures { IfOk result (λ o. IfSome o (λ found. IsRange text.now found.range)) }
{
    if has_long_strings(text) {
        return Ok(None);
    }
    if rule == 0 {
        return Ok(quote_fault(text));
    }
    let Some((name, section)) = nth_cell(alloc, text, entry)? else {
        return Ok(None);
    };
    let (range, wrong) = wrong_in(text, &section, rule);
    let fault = Fault::Item {
        cell: Some(name),
        wrong,
    };
    Ok(found_anywhere(text, Some(range), fault))
}
