//! The edges of ports.
ghost use Rattle.std.specs.Prelude.{◌≡◌, false, List, Some, None, MatchResult};
ghost use Rattle.mintc_text.specs.ReadErrors.{Halts};
ghost use Rattle.mintc_sdf_tokens.specs.Tokens.{Token};
ghost use Rattle.mintc_sdf_tokens.specs.Items.{items, after};
ghost use Rattle.mintc_sdf_tokens.specs.Reading.{after_opening, inside};
ghost use Rattle.mintc_sdf_tokens.specs.Conditions.{condition_at};
ghost use Rattle.mintc_sdf_edges.specs.Edges.{is_rise, edge_of, inner_edge, edge_at};
ghost use Rattle.mintc_sdf_edges.specs.Telling.{heading};

use crate::Edges;
use crate::delays::{both_edges, falling, rising};
use crate::demands::pass_rest;
use mintc_sdf::{read_opening, read_word};
use mintc_sdf_tokens::{Reader, condition, innermost, is_key};
use mintc_text::ReadError;
use std::alloc::Global;

/// Whether a word is a rise.
fn is_rise(word: &[u8]) -> bool
    ensures { result ≡ is_rise word.now }
{
    is_key(word, b"posedge")
        || word == b"01".as_slice()
        || word == b"0z".as_slice()
        || word == b"z1".as_slice()
}

/// The edge that a word is.
fn edge_of(word: &[u8]) -> Edges
    ensures { result ≡ edge_of word.now }
{
    if is_rise(word) { rising() } else { falling() }
}

/// The edge of a port in parentheses that is no condition, of which the first parenthesis was read.
fn edge_port(reader: &mut Reader) -> Result<Edges, ReadError>
    requires plain { condition_at false reader.old ≡ None }
    ensures { MatchResult result (λ e. inside inner_edge reader.old ≡ Some (e, reader.new))
        (Halts (inside inner_edge reader.old ≡ None)) }
{
    let edge = read_word(reader)?;
    pass_rest(reader)?;
    Ok(edge_of(edge))
}

/// The edges of the port at which a reader stands, which is no condition.
fn plain_port(reader: &mut Reader) -> Result<Edges, ReadError>
    requires plain { (next : List Token) → after_opening reader.old ≡ Some next → condition_at false next ≡ None }
    ensures { MatchResult result
        (λ e. (edge_at (items reader.old) ≡ Some (e, items reader.new)) × (after reader.new ≡ after reader.old))
        (Halts (edge_at (items reader.old) ≡ None)) }
{
    if let Some(_name) = reader.word() {
        return Ok(both_edges());
    }
    read_opening(reader)?;
    edge_port(reader)
}

/// The edges of a port in parentheses, of which the first was read.
fn inner_port(reader: &mut Reader, alloc: Global) -> Result<Edges, ReadError>
    ensures { MatchResult result (λ e. inside inner_edge reader.old ≡ Some (e, reader.new))
        (Halts (inside inner_edge reader.old ≡ None)) }
{
    let Some(outer) = condition(reader, false) else {
        return edge_port(reader);
    };
    let Some(mut inner) = innermost(reader, alloc, outer, false)? else {
        return Err(ReadError::Malformed);
    };
    plain_port(&mut inner)
}

/// The edges of the port that comes next.
fn port(reader: &mut Reader, alloc: Global) -> Result<Edges, ReadError>
    ensures { MatchResult result
        (λ e. (edge_at (items reader.old) ≡ Some (e, items reader.new)) × (after reader.new ≡ after reader.old))
        (Halts (edge_at (items reader.old) ≡ None)) }
{
    if let Some(_name) = reader.word() {
        return Ok(both_edges());
    }
    read_opening(reader)?;
    inner_port(reader, alloc)
}

/// The edges that count of the one or two ports that come next: of two ports those of the first, and of one both.
pub(crate) fn heading(reader: &mut Reader, alloc: Global, two: bool) -> Result<Edges, ReadError>
    ensures { MatchResult result
        (λ e. (heading two (items reader.old) ≡ Some (e, items reader.new)) × (after reader.new ≡ after reader.old))
        (Halts (heading two (items reader.old) ≡ None)) }
{
    let first = port(reader, alloc)?;
    if !two {
        return Ok(both_edges());
    }
    let _second = port(reader, alloc)?;
    Ok(first)
}
