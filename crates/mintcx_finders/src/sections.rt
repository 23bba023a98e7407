//! Items of a description, and their keys, by a scan of its lines.
ghost use Rattle.std.specs.Prelude.{◌<◌, ◌≤◌, IfSome, length};

use crate::found::bytes_of;
use crate::quoting::{inked, trimmed};
use mintc_text::place_of;
use mintcx_places::Range;

/// An item: the line that begins it, and the lines of its keys.
#[derive(Clone, Copy)]
pub(crate) struct Section {
    pub(crate) header: Range,
    pub(crate) body: Range,
}

/// A key and its value, on one line.
#[derive(Clone, Copy)]
pub(crate) struct Entry {
    pub(crate) key: Range,
    pub(crate) value: Range,
}

/// The line that begins at a place, without its line feed. None at the end.
pub(crate) fn line_at(text: &[u8], from: usize) -> Option<Range>
    ensures before { IfSome result (λ _. from < length text.now) }
    ensures behind { IfSome result (λ line. from ≤ line.to) }
    ensures within { IfSome result (λ line. line.to ≤ length text.now) }
{
    if from >= text.len() {
        return None;
    }
    Some(Range {
        from,
        to: place_of(b'\n', text, from),
    })
}

/// Whether a line begins an item.
pub(crate) fn is_header(text: &[u8], line: &Range) -> bool {
    bytes_of(text, &inked(text, line)).starts_with(b"[")
}

/// Where the next line begins that begins an item, from a place on, or the end of the text.
fn next_header(text: &[u8], from: usize) -> usize {
    let mut at = from;
    while let Some(line) = line_at(text, at) {
        if is_header(text, &line) {
            return at;
        }
        at = line.to + 1;
    }
    text.len()
}

/// What stands before the first item.
pub(crate) fn head_section(text: &[u8]) -> Section {
    Section {
        header: Range { from: 0, to: 0 },
        body: Range {
            from: 0,
            to: next_header(text, 0),
        },
    }
}

/// The item that a line begins.
pub(crate) fn section_at(text: &[u8], line: &Range) -> Section {
    let from = line.to.saturating_add(1);
    Section {
        header: inked(text, line),
        body: Range {
            from,
            to: next_header(text, from),
        },
    }
}

/// The item of a number from 1 on among those that begin with the same bytes.
pub(crate) fn nth_section(text: &[u8], header: &[u8], number: u32) -> Option<Section> {
    let mut count = 0u32;
    let mut at = 0;
    while let Some(line) = line_at(text, at) {
        if bytes_of(text, &inked(text, &line)) == header {
            count = count.saturating_add(1);
            if count == number {
                return Some(section_at(text, &line));
            }
        }
        at = line.to + 1;
    }
    None
}

/// How many items begin with the same bytes.
pub(crate) fn count_of(text: &[u8], header: &[u8]) -> u32 {
    let mut count = 0u32;
    let mut at = 0;
    while let Some(line) = line_at(text, at) {
        if bytes_of(text, &inked(text, &line)) == header {
            count = count.saturating_add(1);
        }
        at = line.to + 1;
    }
    count
}

/// Whether a byte stands in a key without quotes.
fn is_bare(byte: u8) -> bool {
    byte.is_ascii_alphanumeric() || byte == b'_' || byte == b'-'
}

/// Whether some bytes are a key without quotes.
pub(crate) fn is_bare_key(bytes: &[u8]) -> bool {
    for byte in bytes {
        if !is_bare(*byte) {
            return false;
        }
    }
    !bytes.is_empty()
}

/// The key and the value on a line. None of another line.
fn entry_on(text: &[u8], line: &Range) -> Option<Entry> {
    let whole = inked(text, line);
    let bytes = bytes_of(text, &whole);
    let at = place_of(b'=', bytes, 0);
    if at >= bytes.len() || !is_bare_key(bytes_of(text, &key_before(text, &whole, at))) {
        return None;
    }
    let behind = Range {
        from: whole.from.saturating_add(at).saturating_add(1),
        to: whole.to,
    };
    Some(Entry {
        key: key_before(text, &whole, at),
        value: trimmed(text, &behind),
    })
}

/// What stands before a place of a line.
fn key_before(text: &[u8], line: &Range, at: usize) -> Range {
    let before = Range {
        from: line.from,
        to: line.from.saturating_add(at),
    };
    trimmed(text, &before)
}

/// Whether each line of an item is a key with its value, or nothing.
pub(crate) fn is_plain(text: &[u8], section: &Section) -> bool {
    let body = bytes_of(text, &section.body);
    let mut at = 0;
    while let Some(line) = line_at(body, at) {
        let is_nothing = bytes_of(body, &inked(body, &line)).is_empty();
        if !is_nothing && entry_on(body, &line).is_none() {
            return false;
        }
        at = line.to + 1;
    }
    true
}

/// The next key of an item's lines and its value, and where the line behind them begins.
pub(crate) fn next_entry(body: &[u8], from: usize) -> Option<(Entry, usize)>
    ensures before { IfSome result (λ _. from < length body.now) }
    ensures behind { IfSome result (λ e. from < e.1) }
{
    let mut at = from;
    while let Some(line) = line_at(body, at) {
        if let Some(entry) = entry_on(body, &line) {
            return Some((entry, line.to + 1));
        }
        at = line.to + 1;
    }
    None
}

/// A range of an item's lines, as one of the whole text.
fn moved(section: &Section, range: &Range) -> Range {
    Range {
        from: section.body.from.saturating_add(range.from),
        to: section.body.from.saturating_add(range.to),
    }
}

/// A key of an item's lines and its value, as places of the whole text.
fn entry_moved(section: &Section, entry: &Entry) -> Entry {
    Entry {
        key: moved(section, &entry.key),
        value: moved(section, &entry.value),
    }
}

/// Whether some bytes are among these.
pub(crate) fn is_among(bytes: &[u8], known: &[&[u8]]) -> bool {
    for one in known {
        if *one == bytes {
            return true;
        }
    }
    false
}

/// The first key of an item that is among these, or that isn't, and its value.
fn first_entry(text: &[u8], section: &Section, keys: &[&[u8]], is_wanted: bool) -> Option<Entry> {
    let body = bytes_of(text, &section.body);
    let mut from = 0;
    while let Some((entry, to)) = next_entry(body, from) {
        if is_among(bytes_of(body, &entry.key), keys) == is_wanted {
            return Some(entry_moved(section, &entry));
        }
        from = to;
    }
    None
}

/// A key of an item, and its value.
pub(crate) fn entry_of(text: &[u8], section: &Section, key: &[u8]) -> Option<Entry> {
    first_entry(text, section, &[key], true)
}

/// The first key of an item that isn't among these.
pub(crate) fn extra_key(text: &[u8], section: &Section, known: &[&[u8]]) -> Option<Range> {
    Some(first_entry(text, section, known, false)?.key)
}

/// The first of these keys that an item doesn't have.
pub(crate) fn missing_key(
    text: &[u8],
    section: &Section,
    needed: &'static [&'static [u8]],
) -> Option<&'static [u8]> {
    for key in needed {
        if entry_of(text, section, key).is_none() {
            return Some(*key);
        }
    }
    None
}

/// Whether a value is a whole number.
fn is_whole(value: &[u8]) -> bool {
    let digits = match value {
        [b'-' | b'+', digits @ ..] => digits,
        digits => digits,
    };
    for digit in digits {
        if !(digit.is_ascii_digit() || *digit == b'_') {
            return false;
        }
    }
    !digits.is_empty()
}

/// The first of the keys of an item that are among these whose value is no whole number.
pub(crate) fn no_whole(text: &[u8], section: &Section, numbers: &[&[u8]]) -> Option<Entry> {
    let body = bytes_of(text, &section.body);
    let mut from = 0;
    while let Some((entry, to)) = next_entry(body, from) {
        if is_among(bytes_of(body, &entry.key), numbers)
            && !is_whole(bytes_of(body, &entry.value))
        {
            return Some(entry_moved(section, &entry));
        }
        from = to;
    }
    None
}
