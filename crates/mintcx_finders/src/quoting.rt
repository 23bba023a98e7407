//! Quotes, comments and blanks on a line of a description.
ghost use Rattle.std.specs.Prelude.{◌≤◌, length};

use crate::found::bytes_of;
use mintcx_places::Range;

/// Inside of which quote a place of a line stands, where that began, and whether a backslash stands right before it.
#[derive(Clone, Copy)]
struct Quoting {
    quote: Option<u8>,
    from: usize,
    is_kept: bool,
}

/// Outside of quotes.
const OUTSIDE: Quoting = Quoting {
    quote: None,
    from: 0,
    is_kept: false,
};

/// The same behind a byte, which stands at a place.
fn behind(quoting: Quoting, byte: u8, at: usize) -> Quoting {
    match quoting.quote {
        None if byte == b'"' || byte == b'\'' => Quoting {
            quote: Some(byte),
            from: at,
            is_kept: false,
        },
        Some(b'"') if !quoting.is_kept && byte == b'\\' => Quoting {
            is_kept: true,
            ..quoting
        },
        Some(quote) if !quoting.is_kept && byte == quote => OUTSIDE,
        _ => Quoting {
            is_kept: false,
            ..quoting
        },
    }
}

/// Where the comment of a line begins, or the line's end.
fn comment_from(line: &[u8]) -> usize
    ensures { result ≤ length line.now }
{
    let mut quoting = OUTSIDE;
    for at in 0..line.len() {
        if quoting.quote.is_none() && line[at] == b'#' {
            return at;
        }
        quoting = behind(quoting, line[at], at);
    }
    line.len()
}

/// Where a quote of a line begins that isn't closed on it. None where there is none.
pub(crate) fn open_quote(line: &[u8]) -> Option<usize> {
    let line = &line[..comment_from(line)];
    let mut quoting = OUTSIDE;
    for at in 0..line.len() {
        quoting = behind(quoting, line[at], at);
    }
    if quoting.quote.is_some() {
        Some(quoting.from)
    } else {
        None
    }
}

/// Whether a byte is a blank.
fn is_blank(byte: u8) -> bool {
    matches!(byte, b' ' | b'\t' | b'\r')
}

/// How many blanks some bytes begin with.
fn blanks_before(bytes: &[u8]) -> usize {
    for at in 0..bytes.len() {
        if !is_blank(bytes[at]) {
            return at;
        }
    }
    bytes.len()
}

/// How many bytes are left without the blanks at the end.
fn without_blanks(bytes: &[u8]) -> usize {
    let mut end = 0;
    for at in 0..bytes.len() {
        if !is_blank(bytes[at]) {
            end = at + 1;
        }
    }
    end
}

/// A range without the blanks at both of its ends.
pub(crate) fn trimmed(text: &[u8], range: &Range) -> Range {
    let bytes = bytes_of(text, range);
    Range {
        from: range.from.saturating_add(blanks_before(bytes)),
        to: range.from.saturating_add(without_blanks(bytes)),
    }
}

/// A line without its comment, and without blanks at both ends.
pub(crate) fn inked(text: &[u8], line: &Range) -> Range {
    let without_comment = Range {
        from: line.from,
        to: line.from.saturating_add(comment_from(bytes_of(text, line))),
    };
    trimmed(text, &without_comment)
}

/// The bytes of a string on one line between its quotes. None where it is none, or has a backslash.
pub(crate) fn inside_quotes(text: &[u8], value: &Range) -> Option<Range> {
    match bytes_of(text, value) {
        [b'"', inside @ .., b'"'] if !inside.contains(&b'\\') => {}
        [b'\'', .., b'\''] => {}
        _ => return None,
    }
    Some(Range {
        from: value.from.saturating_add(1),
        to: value.to.saturating_sub(1),
    })
}
