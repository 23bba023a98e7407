//! Pins that an entry of the delays speaks of.
ghost use Rattle.std.specs.Prelude.{IfSome};
ghost use Rattle.mintcx_finders.specs.Places.{IsInside};

use crate::found::{Fault, Found, bytes_of, found_inside};
use crate::header::header_of;
use crate::pieces::{Piece, behind_key, is_keyword, is_one_of, next_piece};
use mintc_sdf_tokens::{Scanner, TokenKind};
use mintcx_places::Range;

/// Keywords of what speaks of pins of its instance.
const OF_PINS: &[&[u8]] = &[
    b"IOPATH",
    b"PORT",
    b"SETUP",
    b"HOLD",
    b"SETUPHOLD",
    b"WIDTH",
];

/// The pins that a definition or a check speaks of: the first, and of an IOPATH the one that it leads to.
#[derive(Clone, Copy)]
struct Pins {
    first: Range,
    last: Option<Range>,
}

/// The word that comes next. None where no word does.
fn next_word(scanner: &mut Scanner<'_>, base: usize) -> Option<Range> {
    let piece = next_piece(scanner, base)?;
    if piece.kind == TokenKind::Word {
        Some(piece.range)
    } else {
        None
    }
}

/// The pins that stand behind a keyword. None where one of them has an edge or a condition.
fn pins_behind(
    text: &[u8],
    scanner: &mut Scanner<'_>,
    base: usize,
    keyword: &Piece,
) -> Option<Pins> {
    let first = next_word(scanner, base)?;
    let last = if is_keyword(text, keyword, b"IOPATH") {
        Some(next_word(scanner, base)?)
    } else {
        None
    };
    Some(Pins { first, last })
}

/// The pins of the one definition or check of an entry. None where there are more.
fn pins_of(text: &[u8], entry: &Range) -> Option<Pins> {
    let bytes = bytes_of(text, entry);
    let mut scanner = Scanner::new(bytes);
    let mut pins = None;
    for _token in 0..bytes.len() {
        let Some(piece) = next_piece(&mut scanner, entry.from) else {
            return pins;
        };
        if is_one_of(text, &piece, OF_PINS) {
            if pins.is_some() {
                return None;
            }
            pins = Some(pins_behind(text, &mut scanner, entry.from, &piece)?);
        }
    }
    pins
}

/// The bytes between the quotes of a string.
fn inside_quotes(quoted: &Range) -> Range {
    Range {
        from: quoted.from.saturating_add(1),
        to: quoted.to.saturating_sub(1),
    }
}

/// The pins of the one definition or check of an entry of the delays, its cell and its instance. None where there are
/// more than one.
pub fn missing_way(text: &[u8], entry: &Range) -> Option<Found>
    ensures { IfSome result (λ found. IsInside entry.now found.range) }
{
    let pins = pins_of(text, entry)?;
    let both = Range {
        from: pins.first.from,
        to: pins.last.unwrap_or(pins.first).to,
    };
    let fault = Fault::Pins {
        cell: inside_quotes(&behind_key(text, entry, b"CELLTYPE", TokenKind::Quote)?),
        first: pins.first,
        last: pins.last,
        instance: behind_key(text, entry, b"INSTANCE", TokenKind::Word),
        header: header_of(text),
    };
    found_inside(entry, both, fault)
}
