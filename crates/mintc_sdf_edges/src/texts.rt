//! Delay texts.
ghost use Rattle.std.specs.Prelude.{◌≡◌, ◌≤◌, ◌<◌, ◌||◌, ◌∷◌, [], true, false, length, List, Some, None, Ok, Err, OnOk};
ghost use Rattle.std.specs.Prelude.{MatchBool, MatchResult};
ghost use Rattle.mintc_text.specs.ReadErrors.{Halts};
ghost use Rattle.mintc_text.specs.Stops.{StopsAt};
ghost use Rattle.mintc_text.specs.declared.limits.TheConstants.{MOST_BYTES};
ghost use Rattle.mintc_sdf_tokens.specs.Tokens.{Token, closing};
ghost use Rattle.mintc_sdf_tokens.specs.Items.{Items, items, after};
ghost use Rattle.mintc_sdf_tokens.specs.Reading.{mark_of, inside};
ghost use Rattle.mintc_sdf_tokens.specs.declared.reader.TokenKind.TheVariants.{End};
ghost use Rattle.mintc_sdf_tokens.specs.Conditions.{condition_at};
ghost use Rattle.mintc_sdf.specs.Texts.{after_head, delays_of};
ghost use Rattle.mintc_sdf_edges.specs.Telling.{is_block, after_list};
ghost use Rattle.mintc_sdf_edges.specs.Texts.{told_in, AreTold};
ghost use Rattle.mintc_sdf_edges.specs.Walking.{spelled, after_rows, IsOn, IsEntered};

use crate::items::{conditional, plain};
use crate::laws::delays_merge;
use crate::spans::Span;
use crate::telling::Telling;
use crate::{EdgeDelayList, EdgeDelays};
use mintc_sdf::{Delay, read_delays, read_opening, read_word};
use mintc_sdf_tokens::{Reader, TokenKind, condition, is_key, items_are_the_tokens};
use mintc_text::{ReadError, Stop};
use std::alloc::Global;

/// Whether the items of a list with this keyword tell.
fn is_block(key: &[u8]) -> bool
    ensures { result ≡ is_block key.now }
{
    is_key(key, b"CELL")
        || is_key(key, b"DELAY")
        || is_key(key, b"ABSOLUTE")
        || is_key(key, b"TIMINGCHECK")
}

/// Passes the keyword of a block, or the whole of another list that is no condition, of which the first parenthesis
/// was read.
fn keyed(
    reader: &mut Reader,
    alloc: Global,
    spans: &mut Vec<Span>,
    telling: &mut Telling,
) -> Result<(), ReadError>
    requires plain { condition_at true reader.old ≡ None }
    ensures entered { (rows : List Items) (inner : Items) → reader.old ≡ spelled (inner ∷ rows) → MatchResult result
        (λ _. IsEntered telling.old inner rows telling.new reader.new)
        (Halts (after_list telling.old inner ≡ None)) }
    ensures shorter { OnOk result (length reader.new < length reader.old) }
{
    items_are_the_tokens();
    let key = read_word(reader)?;
    if is_block(key) {
        return Ok(());
    }
    plain(reader, alloc, key, spans, telling)
}

/// Passes a list of which the first parenthesis was read, but of a block its keyword alone.
fn list(
    reader: &mut Reader,
    alloc: Global,
    spans: &mut Vec<Span>,
    telling: &mut Telling,
) -> Result<(), ReadError>
    ensures entered { (rows : List Items) (inner : Items) → reader.old ≡ spelled (inner ∷ rows) → MatchResult result
        (λ _. IsEntered telling.old inner rows telling.new reader.new)
        (Halts (after_list telling.old inner ≡ None)) }
    ensures shorter { OnOk result (length reader.new < length reader.old) }
{
    items_are_the_tokens();
    match condition(reader, true) {
        Some(outer) => conditional(reader, alloc, outer, spans, telling),
        None => keyed(reader, alloc, spans, telling),
    }
}

/// One step into the items or out of them.
fn step(
    reader: &mut Reader,
    alloc: Global,
    spans: &mut Vec<Span>,
    telling: &mut Telling,
) -> Result<(), ReadError>
    requires { mark_of reader.old ≡ End → ⊥ }
    ensures on { (rows : List Items) → reader.old ≡ spelled rows → MatchResult result
        (λ _. IsOn telling.old rows telling.new reader.new) (Halts (after_rows telling.old rows ≡ None)) }
    ensures shorter { OnOk result (length reader.new < length reader.old) }
{
    if reader.close() {
        return Ok(());
    }
    read_opening(reader)?;
    list(reader, alloc, spans, telling)
}

/// Walks to the end of a text, from items in it.
fn walk(reader: &mut Reader, alloc: Global, telling: &mut Telling) -> Result<(), ReadError>
    ensures { (rows : List Items) → reader.old ≡ spelled rows → MatchResult result
        (λ _. after_rows telling.old rows ≡ Some telling.new) (Halts (after_rows telling.old rows ≡ None)) }
{
    let mut spans = Vec::new(alloc);
    loop {
        if let TokenKind::End = reader.mark() {
            return Ok(());
        }
        step(reader, alloc, &mut spans, telling)?;
    }
}

/// Passes what a delay text begins with.
fn head(reader: &mut Reader) -> bool
    ensures { MatchBool result (after_head reader.old ≡ Some reader.new) (after_head reader.old ≡ None) }
{
    reader.open() && reader.word().is_some_and(|key| is_key(key, b"DELAYFILE"))
}

/// What a text in form tells of its delays by edge.
fn told_in(alloc: Global, text: &[u8], delays: &[Delay]) -> Result<EdgeDelayList, ReadError>
    requires { delays_of text.now ≡ Ok delays.now }
    ensures { MatchResult result (λ es. told_in text.now delays.now ≡ Some es)
        (Halts (told_in text.now delays.now ≡ None)) }
{
    items_are_the_tokens();
    let mut reader = Reader::new(text);
    if !head(&mut reader) {
        return Err(ReadError::Malformed);
    }
    let mut telling = Telling::new(alloc, delays);
    walk(&mut reader, alloc, &mut telling)?;
    Ok(telling.into_items())
}

/// The delays of an SDF text by edge: for each of its definitions and checks, in its order, the values with a number,
/// each with the edges that it begins at and those that it speaks of. Merged, they are the delays that `read_delays`
/// gives, and the refusals are the same.
pub fn read_edge_delays(alloc: Global, text: &[u8]) -> Result<EdgeDelays, Stop>
    requires { length text.now ≤ MOST_BYTES }
    ensures { MatchResult result (λ d. AreTold text.now d.items) (StopsAt (λ r. delays_of text.now ≡ Err r)) }
{
    delays_merge();
    let delays = read_delays(alloc, text)?;
    match told_in(alloc, text, delays.items.items()) {
        Ok(items) => Ok(EdgeDelays { items }),
        Err(ReadError::OutOfMemory) => Err(Stop::OutOfMemory),
        Err(ReadError::Malformed) => unreachable!(),
    }
}
