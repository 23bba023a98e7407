//! The numbers of values.
ghost use Rattle.std.specs.Prelude.{◌≡◌, ◌≤◌, ◌^◌, ◌++◌, ◌∷◌, [], Some, None, OnOk, MatchResult};
ghost use Rattle.mintc_text.specs.ReadErrors.{Halts};
ghost use Rattle.mintc_decimal.specs.DecimalValue.{value_of};
ghost use Rattle.mintc_sdf_tokens.specs.Reading.{inside};
ghost use Rattle.mintc_sdf.specs.Forms.{parts_of};
ghost use Rattle.mintc_sdf_edges.specs.Spans.{wider, wider_of, number_span, part_span, parts_span, value_span};
ghost use Rattle.mintc_sdf_edges.specs.Spans.{value_spans};

use mintc_decimal::Decimal;
use mintc_sdf::{colon_size, read_opening, read_word, round_both_ways};
use mintc_sdf_tokens::Reader;
use mintc_text::{OutOfMemory, ReadError};
use mintc_text_scan::rest_from;

/// The least of some numbers, rounded down, and the greatest, rounded up, in femtoseconds; none of no numbers.
pub(crate) type Span = Option<(i64, i64)>;

/// The span of the numbers of two spans.
fn wider(one: Span, other: Span) -> Span
    ensures { result ≡ wider one other }
{
    let Some((least, greatest)) = one else {
        return other;
    };
    match other {
        Some((low, high)) => Some((least.min(low), greatest.max(high))),
        None => one,
    }
}

/// The span of a number. None where it is too far from 0.
fn number_span(number: &Decimal, scale: u64) -> Option<Span>
    requires least { 1 ≤ scale }
    requires most { scale ≤ 10 ^ 11 }
    ensures { result ≡ number_span scale (value_of number.now) }
{
    match round_both_ways(number, scale) {
        Some(both) => Some(Some(both)),
        None => None,
    }
}

/// The span of one part of a value, which may be empty. None of a part that is no number.
fn part_span(bytes: &[u8], scale: u64) -> Option<Span>
    requires least { 1 ≤ scale }
    requires most { scale ≤ 10 ^ 11 }
    ensures { result ≡ part_span scale bytes.now }
{
    if bytes.is_empty() {
        return Some(None);
    }
    match Decimal::read(bytes) {
        Some(number) => number_span(&number, scale),
        None => None,
    }
}

/// The wider of two spans, where both are there.
fn wider_of(one: Option<Span>, other: Option<Span>) -> Option<Span>
    ensures { result ≡ wider_of one other }
{
    match one {
        Some(one) => match other {
            Some(other) => Some(wider(one, other)),
            None => None,
        },
        None => None,
    }
}

/// The span of a word of a value. None of a word with a part that is no number.
fn word_span(word: &[u8], scale: u64) -> Option<Span>
    requires least { 1 ≤ scale }
    requires most { scale ≤ 10 ^ 11 }
    ensures { result ≡ parts_span scale (parts_of word.now) }
{
    let mut span: Option<Span> = Some(None);
    let mut rest = word;
    loop {
        let size = colon_size(rest);
        span = wider_of(span, part_span(&rest[..size], scale));
        if size == rest.len() {
            return span;
        }
        rest = rest_from(rest, size + 1);
    }
}

/// The span of a value, to the parenthesis that closes it.
fn value(reader: &mut Reader, scale: u64) -> Result<Span, ReadError>
    requires least { 1 ≤ scale }
    requires most { scale ≤ 10 ^ 11 }
    ensures { MatchResult result (λ s. inside (value_span scale) reader.old ≡ Some (s, reader.new))
        (Halts (inside (value_span scale) reader.old ≡ None)) }
{
    let mut span: Span = None;
    while !reader.close() {
        let word = read_word(reader)?;
        let Some(next) = word_span(word, scale) else {
            return Err(ReadError::Malformed);
        };
        span = wider(span, next);
    }
    Ok(span)
}

/// Adds a span.
fn push_span(spans: &mut Vec<Span>, span: Span) -> Result<(), OutOfMemory>
    ensures { OnOk result (spans.new.items ≡ spans.old.items ++ span ∷ []) }
{
    Ok(spans.push(span)?)
}

/// The spans of the values that come next, to the parenthesis that closes what they stand in.
pub(crate) fn values(
    reader: &mut Reader,
    scale: u64,
    spans: &mut Vec<Span>,
) -> Result<(), ReadError>
    requires least { 1 ≤ scale }
    requires most { scale ≤ 10 ^ 11 }
    ensures { MatchResult result (λ _. inside (value_spans scale) reader.old ≡ Some (spans.new.items, reader.new))
        (Halts (inside (value_spans scale) reader.old ≡ None)) }
{
    spans.truncate(0);
    while !reader.close() {
        read_opening(reader)?;
        let span = value(reader, scale)?;
        push_span(spans, span)?;
    }
    Ok(())
}
