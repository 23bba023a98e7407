//! Fields of a line of a table, a schedule or a certificate.
ghost use Rattle.std.specs.Prelude.{◌≡◌, ◌≤◌, IfSome, length};
ghost use Rattle.mintcx_finders.specs.Places.{IsInside};

use crate::found::{Fault, Found, bytes_of, found_inside};
use mintc_text::{numeral, place_of};
use mintcx_places::Range;

/// Numbers are compared up to this size, which is above all that texts may have.
const MOST: i64 = 1_000_000_000_000_000;

/// Words behind which all fields of a line are numbers.
const COUNTED: &[&[u8]] = &[
    b"table",
    b"phases",
    b"elements",
    b"inner",
    b"arcs",
    b"bounds",
    b"schedule",
    b"den",
    b"cycle",
    b"phase",
    b"certificate",
    b"departures",
    b"departure",
    b"chain",
    b"start",
    b"order",
    b"span",
    b"width",
    b"apart",
    b"open",
    b"opened",
    b"reach",
    b"setup",
    b"bound",
];

/// Which fields of a line are numbers. Fields are counted from 0, which is the line's first word.
#[derive(Clone, Copy)]
struct Form {
    /// The first number, behind which all fields are numbers but those that are named here.
    numbers: usize,
    /// A field that is a word.
    word: Option<usize>,
    /// A field that may be `-`.
    dash: Option<usize>,
    /// The greatest numbers right behind whose least they stand.
    greatest: Option<usize>,
    other_greatest: Option<usize>,
}

/// A line whose fields are numbers from one on.
const fn numbers_from(numbers: usize) -> Form {
    Form {
        numbers,
        word: None,
        dash: None,
        greatest: None,
        other_greatest: None,
    }
}

/// The form of a line of an element.
fn element_form(text: &[u8]) -> Form {
    if text.starts_with(b"table 1\n") {
        return Form {
            dash: Some(4),
            greatest: Some(6),
            ..numbers_from(2)
        };
    }
    let other_greatest = if text.starts_with(b"table 2\n") {
        None
    } else {
        Some(9)
    };
    Form {
        word: Some(3),
        dash: Some(5),
        greatest: Some(7),
        other_greatest,
        ..numbers_from(2)
    }
}

/// The form of a line of a table, by its first word. None of a line that has no numbers.
fn table_form(text: &[u8], word: &[u8]) -> Option<Form> {
    if word == b"phase".as_slice() {
        None
    } else if word == b"element".as_slice() {
        Some(element_form(text))
    } else if word == b"arc".as_slice() {
        Some(Form {
            greatest: Some(4),
            ..numbers_from(3)
        })
    } else if word == b"bound".as_slice() {
        Some(numbers_from(3))
    } else {
        counted_form(word)
    }
}

/// The form of a line whose fields are all numbers, by its first word.
fn counted_form(word: &[u8]) -> Option<Form> {
    for known in COUNTED {
        if *known == word {
            return Some(numbers_from(1));
        }
    }
    None
}

/// The form of a line of a text, by its first word. None where it isn't known.
fn form_of(text: &[u8], word: &[u8]) -> Option<Form> {
    if text.starts_with(b"table ") {
        table_form(text, word)
    } else {
        counted_form(word)
    }
}

/// Whether a field is to be a number.
fn is_number(form: &Form, field: usize) -> bool {
    field >= form.numbers && form.word != Some(field)
}

/// Whether a word is digits, behind a minus or not.
fn is_whole(word: &[u8]) -> bool {
    let digits = match word {
        [b'-', digits @ ..] => digits,
        digits => digits,
    };
    for digit in digits {
        if !digit.is_ascii_digit() {
            return false;
        }
    }
    !digits.is_empty()
}

/// Whether a number is above another. Words that are none are not.
fn is_above(word: &[u8], other: &[u8]) -> bool {
    match (numeral(word, -MOST, MOST), numeral(other, -MOST, MOST)) {
        (Some(number), Some(other)) => number > other,
        _ => false,
    }
}

/// The field of a line that begins at a place.
fn field_from(text: &[u8], line: &Range, from: usize) -> Range
    requires order { from ≤ line.now.to }
    requires within { line.now.to ≤ length text.now }
    ensures from { result.from ≡ from }
    ensures order { from ≤ result.to }
    ensures within { result.to ≤ line.now.to }
{
    Range {
        from,
        to: place_of(b' ', &text[..line.to], from),
    }
}

/// What is wrong with a field of a line, which stands behind another.
fn fault_at(
    text: &[u8],
    line: &Range,
    form: &Form,
    number: usize,
    before: &Range,
    field: &Range,
) -> Option<Found>
    ensures { IfSome result (λ found. IsInside line.now found.range) }
{
    let word = bytes_of(text, field);
    let is_dash = form.dash == Some(number) && word == b"-".as_slice();
    if is_number(form, number) && !is_dash && !is_whole(word) {
        return found_inside(line, *field, Fault::NoNumber);
    }
    let is_greatest = form.greatest == Some(number) || form.other_greatest == Some(number);
    if !is_greatest || !is_above(bytes_of(text, before), word) {
        return None;
    }
    let both = Range {
        from: before.from,
        to: field.to,
    };
    let fault = Fault::Above {
        least: *before,
        greatest: *field,
    };
    found_inside(line, both, fault)
}

/// The first field of a line of a table, a schedule or a certificate that is no whole number, or the two whose least
/// number is above the greatest.
pub fn field_fault(text: &[u8], line: &Range) -> Option<Found>
    requires order { line.now.from ≤ line.now.to }
    requires within { line.now.to ≤ length text.now }
    ensures { IfSome result (λ found. IsInside line.now found.range) }
{
    let mut before = field_from(text, line, line.from);
    let form = form_of(text, bytes_of(text, &before))?;
    let mut number = 1;
    while before.to < line.to {
        let field = field_from(text, line, before.to + 1);
        let found = fault_at(text, line, &form, number, &before, &field);
        if found.is_some() {
            return found;
        }
        before = field;
        number += 1;
    }
    None
}
