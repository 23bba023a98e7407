//! What is told of delays while a text is passed.
ghost use Rattle.std.specs.Prelude.{◌≡◌, ◌≤◌, ◌<◌, ◌^◌, ◌++◌, ◌∷◌, [], length, is_some, Some, None, OnOk, MatchResult};
ghost use Rattle.std.specs.List.{list_any};
ghost use Rattle.mintc_text.specs.ReadErrors.{Halts};
ghost use Rattle.mintc_sdf_edges.specs.Edges.{speaks};
ghost use Rattle.mintc_sdf_edges.specs.Telling.{told_one, told, keep, keep_each, keep_all, with_scale};
ghost use Rattle.mintc_sdf_edges.specs.Texts.{start};

use crate::copies::with_span;
use crate::delays::{both_edges, falling, rising};
use crate::spans::Span;
use crate::{EdgeDelay, EdgeDelayList, Edges};
use mintc_sdf::Delay;
use mintc_text::{OutOfMemory, ReadError};
use std::alloc::Global;
use std::marker::Model;

/// Delays, of which the first so many are told apart, the scale that holds, and what is told.
#[derive(Drop)]
pub(crate) struct Telling<'a> {
    delays: &'a [Delay],
    next: usize,
    scale: u64,
    found: Vec<EdgeDelay>,
}

impl<'a> Model for Telling<'a> {
    ghost use Rattle.std.specs.Prelude.{drop, ◌≤◌, ◌^◌};
    ghost use Rattle.mintc_sdf_edges.specs.Telling.{Progress};

    ghost Value = { Progress };

    ghost view = { λ t. record { scale = t.scale; left = drop t.next t.delays.now; found = t.found.items } };

    ghost invariant = { λ t. (1 ≤ t.scale) × (t.scale ≤ 10 ^ 11) };
}

/// The edges that the value of a place speaks of, of so many.
fn speaks(count: usize, place: usize) -> Edges
    ensures { result ≡ speaks count place }
{
    if count == 1 {
        both_edges()
    } else if place == 0 {
        rising()
    } else if place == 1 {
        falling()
    } else {
        both_edges()
    }
}

/// Tells what a value says of a delay, if it has a number.
fn tell_one(
    alloc: Global,
    found: &mut Vec<EdgeDelay>,
    delay: &Delay,
    edge: Edges,
    speaks: Edges,
    span: Span,
) -> Result<(), OutOfMemory>
    ensures { OnOk result (found.new.items ≡ found.old.items ++ told_one delay.now edge speaks span) }
{
    let Some((least, greatest)) = span else {
        return Ok(());
    };
    let delay = with_span(alloc, delay, least, greatest)?;
    Ok(found.push(EdgeDelay {
        delay,
        edge,
        speaks,
    })?)
}

/// Tells what values say of a delay.
fn tell(
    alloc: Global,
    found: &mut Vec<EdgeDelay>,
    delay: &Delay,
    edge: Edges,
    spans: &[Span],
) -> Result<(), OutOfMemory>
    ensures { OnOk result (found.new.items ≡ found.old.items ++ told delay.now edge (length spans.now) 0 spans.now) }
{
    for place in 0..spans.len() {
        tell_one(
            alloc,
            found,
            delay,
            edge,
            speaks(spans.len(), place),
            spans[place],
        )?;
    }
    Ok(())
}

/// Whether a value has a number.
fn has_number(spans: &[Span]) -> bool
    ensures { result ≡ list_any is_some spans.now }
{
    spans.iter().any(|span| span.is_some())
}

impl<'a> Telling<'a> {
    /// Nothing, of some delays.
    pub(crate) fn new(alloc: Global, delays: &'a [Delay]) -> Telling<'a>
        ensures { result ≡ start delays.now }
    {
        Telling {
            delays,
            next: 0,
            scale: 1_000_000,
            found: Vec::new(alloc),
        }
    }

    /// What is told.
    pub(crate) fn into_items(self) -> EdgeDelayList
        ensures { result ≡ self.entry.found }
    {
        let Telling {
            delays: _,
            next: _,
            scale: _,
            found,
        } = self;
        EdgeDelayList::new(found)
    }

    /// How many femtoseconds the number 1 stands for.
    pub(crate) fn scale(&self) -> u64
        ensures value { result ≡ self.now.scale }
        ensures least { 1 ≤ result }
        ensures most { result ≤ 10 ^ 11 }
    {
        self.scale
    }

    /// Another scale from here on.
    pub(crate) fn set_scale(&mut self, scale: u64)
        requires least { 1 ≤ scale }
        requires most { scale ≤ 10 ^ 11 }
        ensures { self.new ≡ with_scale self.old scale }
    {
        self.scale = scale;
    }

    /// Tells what was said with some values, which is the next delay where one of them has a number.
    fn keep(&mut self, alloc: Global, edge: Edges, spans: &[Span]) -> Result<(), ReadError>
        ensures { MatchResult result (λ _. keep edge spans.now self.old ≡ Some self.new)
            (Halts (keep edge spans.now self.old ≡ None)) }
    {
        if !has_number(spans) {
            return Ok(());
        }
        let delays = self.delays;
        let Some(delay) = delays.get(self.next) else {
            return Err(ReadError::Malformed);
        };
        self.next += 1;
        Ok(tell(alloc, &mut self.found, delay, edge, spans)?)
    }

    /// The same, where each value is said of another subject.
    fn keep_each(&mut self, alloc: Global, edge: Edges, spans: &[Span]) -> Result<(), ReadError>
        ensures { MatchResult result (λ _. keep_each edge spans.now self.old ≡ Some self.new)
            (Halts (keep_each edge spans.now self.old ≡ None)) }
    {
        for span in spans {
            self.keep(alloc, edge, std::slice::from_ref(span))?;
        }
        Ok(())
    }

    /// The same, by whether each value is said of another subject.
    pub(crate) fn keep_all(
        &mut self,
        alloc: Global,
        each: bool,
        edge: Edges,
        spans: &[Span],
    ) -> Result<(), ReadError>
        ensures { MatchResult result (λ _. keep_all each edge spans.now self.old ≡ Some self.new)
            (Halts (keep_all each edge spans.now self.old ≡ None)) }
    {
        if each {
            self.keep_each(alloc, edge, spans)
        } else {
            self.keep(alloc, edge, spans)
        }
    }
}
