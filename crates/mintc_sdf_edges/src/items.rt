//! Lists whose keyword says what they tell.
ghost use Rattle.std.specs.Prelude.{◌≡◌, ◌||◌, true, List, Some, None, MatchResult};
ghost use Rattle.mintc_text.specs.ReadErrors.{Halts};
ghost use Rattle.mintc_sdf_tokens.specs.Tokens.{Token};
ghost use Rattle.mintc_sdf_tokens.specs.Reading.{inside};
ghost use Rattle.mintc_sdf_tokens.specs.Conditions.{condition_at};
ghost use Rattle.mintc_sdf_edges.specs.Telling.{has_one_port, has_two_ports, said, plain, item};

use crate::demands::pass_rest;
use crate::ports::heading;
use crate::spans::{Span, values};
use crate::telling::Telling;
use mintc_sdf::{read_opening, read_word, scale_of};
use mintc_sdf_tokens::{Layer, Reader, innermost, is_key};
use mintc_text::ReadError;
use std::alloc::Global;

/// Whether one port stands behind a keyword, whose edge isn't read.
fn has_one_port(key: &[u8]) -> bool
    ensures { result ≡ has_one_port key.now }
{
    is_key(key, b"PORT") || is_key(key, b"WIDTH")
}

/// Whether two ports stand behind a keyword, of whose first the edge is read.
fn has_two_ports(key: &[u8]) -> bool
    ensures { result ≡ has_two_ports key.now }
{
    is_key(key, b"IOPATH")
        || is_key(key, b"INTERCONNECT")
        || is_key(key, b"SETUP")
        || is_key(key, b"HOLD")
        || is_key(key, b"SETUPHOLD")
}

/// Whether ports and values stand behind a keyword.
fn is_said(key: &[u8]) -> bool
    ensures { result ≡ (has_two_ports key.now || has_one_port key.now) }
{
    has_two_ports(key) || has_one_port(key)
}

/// Tells what ports and values behind a keyword say.
fn said(
    reader: &mut Reader,
    alloc: Global,
    key: &[u8],
    spans: &mut Vec<Span>,
    telling: &mut Telling,
) -> Result<(), ReadError>
    ensures { MatchResult result
        (λ _. inside (said telling.old key.now) reader.old ≡ Some (telling.new, reader.new))
        (Halts (inside (said telling.old key.now) reader.old ≡ None)) }
{
    let edge = heading(reader, alloc, has_two_ports(key))?;
    values(reader, telling.scale(), spans)?;
    telling.keep_all(alloc, is_key(key, b"SETUPHOLD"), edge, spans)
}

/// Passes a list that is no condition, of which the keyword was read, and tells what it says.
pub(crate) fn plain(
    reader: &mut Reader,
    alloc: Global,
    key: &[u8],
    spans: &mut Vec<Span>,
    telling: &mut Telling,
) -> Result<(), ReadError>
    ensures { MatchResult result
        (λ _. inside (plain telling.old key.now) reader.old ≡ Some (telling.new, reader.new))
        (Halts (inside (plain telling.old key.now) reader.old ≡ None)) }
{
    if is_said(key) {
        return said(reader, alloc, key, spans, telling);
    }
    if !is_key(key, b"TIMESCALE") {
        return pass_rest(reader);
    }
    let Some(scale) = scale_of(reader) else {
        return Err(ReadError::Malformed);
    };
    telling.set_scale(scale);
    Ok(())
}

/// Passes a list that is no condition, of which the first parenthesis was read, and tells what it says.
fn plain_item(
    reader: &mut Reader,
    alloc: Global,
    spans: &mut Vec<Span>,
    telling: &mut Telling,
) -> Result<(), ReadError>
    requires plain { condition_at true reader.old ≡ None }
    ensures { MatchResult result (λ _. inside (item telling.old) reader.old ≡ Some (telling.new, reader.new))
        (Halts (inside (item telling.old) reader.old ≡ None)) }
{
    let key = read_word(reader)?;
    plain(reader, alloc, key, spans, telling)
}

/// Passes what is left of a condition, of which the keyword was read, and tells what the item says that counts.
pub(crate) fn conditional(
    reader: &mut Reader,
    alloc: Global,
    outer: Layer,
    spans: &mut Vec<Span>,
    telling: &mut Telling,
) -> Result<(), ReadError>
    ensures { (ts : List Token) → condition_at true ts ≡ Some (outer, reader.old) → MatchResult result
        (λ _. inside (item telling.old) ts ≡ Some (telling.new, reader.new))
        (Halts (inside (item telling.old) ts ≡ None)) }
{
    let Some(mut inner) = innermost(reader, alloc, outer, true)? else {
        return Err(ReadError::Malformed);
    };
    read_opening(&mut inner)?;
    plain_item(&mut inner, alloc, spans, telling)
}
