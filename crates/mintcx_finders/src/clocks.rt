//! Items of a clock description.
ghost use Rattle.std.specs.Prelude.{IfSome};
ghost use Rattle.mintcx_finders.specs.Places.{IsRange};

use crate::descriptions::{has_long_strings, quote_fault};
use crate::found::{Fault, Found, MOST_PLACES, Places, Wrong, bytes_of, found_anywhere};
use crate::quoting::inside_quotes;
use crate::sections::{
    Section, count_of, entry_of, extra_key, is_plain, line_at, missing_key, no_whole, nth_section,
};
use mintc_text::OutOfMemory;
use mintcx_places::Range;
use std::alloc::Global;

/// Items of a clock description.
#[derive(Clone, Copy, Debug, PartialEq, Eq)]
pub enum Item {
    Phase,
    Bound,
    Input,
    Output,
}

/// The items that a rule of clock descriptions is about. None where it is about no single one.
fn item_of(rule: u32) -> Option<Item> {
    match rule {
        3 | 4 => Some(Item::Phase),
        5 => Some(Item::Bound),
        6 => Some(Item::Input),
        7 => Some(Item::Output),
        _ => None,
    }
}

/// What an item begins with.
pub(crate) fn header_of(item: Item) -> &'static [u8] {
    match item {
        Item::Phase => b"[[phase]]",
        Item::Bound => b"[[bound]]",
        Item::Input => b"[[input]]",
        Item::Output => b"[[output]]",
    }
}

/// The keys that an item has to have.
fn needed_keys(item: Item) -> &'static [&'static [u8]] {
    match item {
        Item::Phase => &[b"name", b"port"],
        Item::Bound => &[b"from", b"to", b"gap", b"cycles"],
        Item::Input | Item::Output => &[b"port", b"phase"],
    }
}

/// The keys that an item may have.
fn known_keys(item: Item) -> &'static [&'static [u8]] {
    match item {
        Item::Phase => &[b"name", b"port", b"level"],
        Item::Bound => &[b"from", b"to", b"gap", b"cycles"],
        Item::Input => &[b"port", b"phase", b"min", b"max"],
        Item::Output => &[b"port", b"phase", b"setup", b"hold"],
    }
}

/// The keys of numbers.
const NUMBERS: &[&[u8]] = &[b"gap", b"cycles", b"min", b"max", b"setup", b"hold"];

/// The name of a phase. None where it isn't found.
fn phase_name(text: &[u8], section: &Section) -> Option<Range> {
    if !is_plain(text, section) {
        return None;
    }
    inside_quotes(text, &entry_of(text, section, b"name")?.value)
}

/// The names of all phases. None where there are more than have room, or one isn't found.
fn phase_names(text: &[u8]) -> Option<Places> {
    let mut places = [None; MOST_PLACES];
    let count = count_of(text, header_of(Item::Phase)) as usize;
    if count == 0 || count > MOST_PLACES {
        return None;
    }
    for place in 0..MOST_PLACES {
        if place < count {
            let section = nth_section(text, header_of(Item::Phase), place as u32 + 1)?;
            places[place] = Some(phase_name(text, &section)?);
        }
    }
    Some(places)
}

/// The names of the phases of a table, as its lines say them.
fn phases_of_table<'a>(alloc: Global, text: &'a [u8]) -> Result<Vec<&'a [u8]>, OutOfMemory> {
    let mut names = Vec::new(alloc);
    let mut at = 0;
    while let Some(line) = line_at(text, at) {
        match bytes_of(text, &line) {
            [b'p', b'h', b'a', b's', b'e', b' ', name @ ..] => names.push(name)?,
            _ => {}
        }
        at = line.to + 1;
    }
    Ok(names)
}

/// The names at these places.
fn names_at<'a>(
    alloc: Global,
    text: &'a [u8],
    places: &Places,
) -> Result<Vec<&'a [u8]>, OutOfMemory> {
    let mut names = Vec::new(alloc);
    for place in places {
        if let Some(name) = place {
            names.push(bytes_of(text, name))?;
        }
    }
    Ok(names)
}

/// The names of the phases of a table or of a clock description, in their order; none where they aren't found.
pub fn phases_of<'a>(alloc: Global, text: &'a [u8]) -> Result<Vec<&'a [u8]>, OutOfMemory> {
    if text.starts_with(b"table ") {
        return phases_of_table(alloc, text);
    }
    match phase_names(text) {
        Some(phases) if !has_long_strings(text) => names_at(alloc, text, &phases),
        _ => Ok(Vec::new(alloc)),
    }
}

/// Whether one of these is a name.
fn is_name_of(text: &[u8], names: &Places, name: &[u8]) -> bool {
    for range in names {
        if let Some(range) = range {
            if bytes_of(text, range) == name {
                return true;
            }
        }
    }
    false
}

/// The name of a phase in a point of the cycle. None of a point that is none, or has none.
fn point_name(text: &[u8], point: &Range) -> Option<Range> {
    let bytes = bytes_of(text, point);
    let size = if bytes.starts_with(b"start ") {
        6
    } else if bytes.starts_with(b"end ") {
        4
    } else {
        return None;
    };
    Some(Range {
        from: point.from.saturating_add(size),
        to: point.to,
    })
}

/// The name of a phase that a key of an item says. None where it says none.
fn name_said(text: &[u8], section: &Section, key: &[u8]) -> Option<Range> {
    let value = inside_quotes(text, &entry_of(text, section, key)?.value)?;
    if key == b"phase".as_slice() {
        Some(value)
    } else {
        point_name(text, &value)
    }
}

/// The first name of a phase in an item that no phase has, and the phases that there are.
fn unknown_phase(text: &[u8], section: &Section) -> Option<(Range, Wrong)> {
    let phases = phase_names(text)?;
    for key in &[b"from".as_slice(), b"to".as_slice(), b"phase".as_slice()] {
        if let Some(name) = name_said(text, section, key) {
            if !is_name_of(text, &phases, bytes_of(text, &name)) {
                return Some((name, Wrong::NoPhase { phases }));
            }
        }
    }
    None
}

/// What of an item fails its rule, and why. All of it, where that isn't found.
fn wrong_in(text: &[u8], item: Item, section: &Section) -> (Range, Wrong) {
    if !is_plain(text, section) {
        return (section.header, Wrong::Whole);
    }
    if let Some(key) = extra_key(text, section, known_keys(item)) {
        return (key, Wrong::Extra);
    }
    if let Some(key) = missing_key(text, section, needed_keys(item)) {
        return (section.header, Wrong::Missing { key });
    }
    if let Some(entry) = no_whole(text, section, NUMBERS) {
        return (entry.value, Wrong::NoWhole { key: entry.key });
    }
    match unknown_phase(text, section) {
        Some(found) => found,
        None => (section.header, Wrong::Whole),
    }
}

/// What of an item of a clock description fails a rule, counted as in refusals; or the quote that is left open, where
/// the description is no TOML.
pub fn clock_fault(text: &[u8], entry: u32, rule: u32) -> Option<Found>
    ensures { IfSome result (λ found. IsRange text.now found.range) }
{
    if has_long_strings(text) {
        return None;
    }
    if rule == 0 {
        return quote_fault(text);
    }
    let item = item_of(rule)?;
    let section = nth_section(text, header_of(item), entry)?;
    let (range, wrong) = if rule == 4 {
        (section.header, Wrong::Whole)
    } else {
        wrong_in(text, item, &section)
    };
    found_anywhere(text, Some(range), Fault::Item { cell: None, wrong })
}

/// The item of a number among phases, inputs and outputs counted together.
fn listed_section(text: &[u8], number: u32) -> Option<(Item, Section)> {
    let mut left = number;
    for item in &[Item::Phase, Item::Input, Item::Output] {
        let count = count_of(text, header_of(*item));
        if left <= count {
            return Some((*item, nth_section(text, header_of(*item), left)?));
        }
        left -= count;
    }
    None
}

/// The port of an item of a clock description that the top doesn't have. Phases, inputs and outputs are counted
/// together, from 1 on.
pub fn missing_port(text: &[u8], number: u32) -> Option<Found>
    ensures { IfSome result (λ found. IsRange text.now found.range) }
{
    if has_long_strings(text) {
        return None;
    }
    let (item, section) = listed_section(text, number)?;
    if !is_plain(text, &section) {
        return None;
    }
    let value = entry_of(text, &section, b"port")?.value;
    let name = inside_quotes(text, &value)?;
    found_anywhere(text, Some(value), Fault::Port { item, name })
}
