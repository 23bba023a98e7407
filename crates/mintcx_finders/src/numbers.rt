//! Numbers of the delays that are out of their limits.
ghost use Rattle.std.specs.Prelude.{◌≤◌, IfSome, length};
ghost use Rattle.mintcx_finders.specs.Places.{IsInside};

use crate::found::{Fault, Found, Number, bytes_of, found_inside};
use crate::header::{Header, header_of};
use crate::pieces::{Piece, behind_key, is_one_of, next_piece};
use mintc_decimal::Decimal;
use mintc_sdf_tokens::{Scanner, TokenKind};
use mintc_text::place_of;
use mintcx_places::Range;

/// Keywords before numbers that may not be below 0.
const UNSIGNED: &[&[u8]] = &[b"IOPATH", b"INTERCONNECT", b"PORT", b"WIDTH"];

/// Keywords before numbers that may.
const SIGNED: &[&[u8]] = &[b"SETUP", b"HOLD", b"SETUPHOLD"];

/// Keywords before what is passed over.
const PASSED: &[&[u8]] = &[
    b"PATHPULSE",
    b"PATHPULSEPERCENT",
    b"LABEL",
    b"TIMINGENV",
    b"RECOVERY",
    b"REMOVAL",
    b"RECREM",
    b"SKEW",
    b"BIDIRECTSKEW",
    b"PERIOD",
    b"NOCHANGE",
];

/// The greatest unit of numbers, in femtoseconds.
const MOST_SCALE: u64 = 100_000_000_000;

/// What numbers have to keep to.
#[derive(Clone, Copy, PartialEq, Eq)]
pub(crate) enum Rule {
    Unsigned,
    Signed,
    Passed,
}

/// Which numbers are looked for.
#[derive(Clone, Copy, PartialEq, Eq)]
pub(crate) enum Sought {
    Negative,
    Far,
}

/// Where a walk through an entry stands: behind which keyword, right behind an opening parenthesis or not, and inside
/// of a value or not.
#[derive(Clone, Copy)]
pub(crate) struct State {
    pub(crate) rule: Rule,
    pub(crate) is_opened: bool,
    pub(crate) is_value: bool,
}

/// The rule behind a word.
fn rule_behind(text: &[u8], piece: &Piece, rule: Rule) -> Rule {
    if is_one_of(text, piece, UNSIGNED) {
        Rule::Unsigned
    } else if is_one_of(text, piece, SIGNED) {
        Rule::Signed
    } else if is_one_of(text, piece, PASSED) {
        Rule::Passed
    } else {
        rule
    }
}

/// Whether a word begins as a value does.
fn is_value(word: &[u8]) -> bool {
    matches!(word, [b'0'..=b'9' | b'+' | b'-' | b'.' | b':', ..])
}

/// Where a walk stands behind a token.
pub(crate) fn state_behind(text: &[u8], piece: &Piece, state: State) -> State {
    match piece.kind {
        TokenKind::Open => State {
            is_opened: true,
            is_value: false,
            ..state
        },
        TokenKind::Word if state.is_opened => State {
            rule: rule_behind(text, piece, state.rule),
            is_opened: false,
            is_value: is_value(bytes_of(text, &piece.range)),
        },
        TokenKind::Word => state,
        TokenKind::Close | TokenKind::Quote | TokenKind::End => State {
            is_opened: false,
            is_value: false,
            ..state
        },
    }
}

/// A number as people read it, in whole femtoseconds without its sign. None where it is none, or takes more than 64
/// bits.
fn femtoseconds(number: &Decimal, scale: u64) -> Option<u64> {
    let mut value = number.digits.checked_mul(u128::from(scale))?;
    for _place in 0..number.places {
        if value % 10 != 0 {
            return None;
        }
        value /= 10;
    }
    for _place in number.places..0 {
        value = value.checked_mul(10)?;
    }
    u64::try_from(value).ok()
}

/// A number of a value, where it is one that is looked for.
fn fault_of(word: &[u8], header: &Header, rule: Rule, sought: Sought) -> Option<Number> {
    let number = Decimal::read(word)?;
    let scale = header.scale.max(1).min(MOST_SCALE);
    let is_near = number.to_femto_both(scale).is_some();
    let is_found = match sought {
        Sought::Far => !is_near,
        Sought::Negative => {
            is_near && number.negative && number.digits > 0 && rule == Rule::Unsigned
        }
    };
    if !is_found {
        return None;
    }
    Some(Number {
        is_negative: number.negative,
        femtoseconds: femtoseconds(&number, scale),
    })
}

/// The first part of a value that is looked for, and where it stands. Colons part them.
pub(crate) fn part_of(
    text: &[u8],
    value: &Range,
    header: &Header,
    rule: Rule,
    sought: Sought,
) -> Option<(Range, Number)> {
    let bytes = bytes_of(text, value);
    let mut from = 0;
    while from < bytes.len() {
        let to = place_of(b':', bytes, from);
        if let Some(number) = fault_of(&bytes[from..to], header, rule, sought) {
            let range = Range {
                from: value.from.saturating_add(from),
                to: value.from.saturating_add(to),
            };
            return Some((range, number));
        }
        from = to + 1;
    }
    None
}

/// The first number of an entry that is looked for, and where it stands.
fn number_of(
    text: &[u8],
    entry: &Range,
    header: &Header,
    sought: Sought,
) -> Option<(Range, Number)> {
    let bytes = bytes_of(text, entry);
    let mut scanner = Scanner::new(bytes);
    let mut state = State {
        rule: Rule::Passed,
        is_opened: false,
        is_value: false,
    };
    for _token in 0..bytes.len() {
        let piece = next_piece(&mut scanner, entry.from)?;
        state = state_behind(text, &piece, state);
        if state.is_value && state.rule != Rule::Passed {
            let found = part_of(text, &piece.range, header, state.rule, sought);
            if found.is_some() {
                return found;
            }
        }
    }
    None
}

/// The first number of an entry that is looked for, and the instance that it is of.
fn number_fault(text: &[u8], entry: &Range, sought: Sought) -> Option<Found>
    ensures { IfSome result (λ found. IsInside entry.now found.range) }
{
    let header = header_of(text);
    let (range, number) = number_of(text, entry, &header, sought)?;
    let instance = behind_key(text, entry, b"INSTANCE", TokenKind::Word);
    let fault = Fault::Number {
        number,
        instance,
        header,
    };
    found_inside(entry, range, fault)
}

/// The first number of an entry of the delays that is below 0 and may not be.
pub fn negative_number(text: &[u8], entry: &Range) -> Option<Found>
    ensures { IfSome result (λ found. IsInside entry.now found.range) }
{
    number_fault(text, entry, Sought::Negative)
}

/// The first number of an entry of the delays that is above a microsecond, or so far below 0.
pub fn far_number(text: &[u8], entry: &Range) -> Option<Found>
    ensures { IfSome result (λ found. IsInside entry.now found.range) }
{
    number_fault(text, entry, Sought::Far)
}
