//! Paths of a table that take long.
ghost use Rattle.std.specs.Prelude.{IfSome, IfOk};
ghost use Rattle.mintcx_finders.specs.Places.{IsRange};

use crate::arcs::{ARC, arc_ends, word_from};
use crate::found::{Fault, Found, MOST_PLACES, Places, bytes_of, found_anywhere};
use crate::graph::{Edge, longest_way};
use mintc_text::{OutOfMemory, leading_digits, place_of};
use mintcx_places::Range;
use std::alloc::Global;

/// What the line of an element begins with.
const ELEMENT: &[u8] = b"element ";

/// The longest that a path may take, in femtoseconds.
const MOST_PATH: u64 = 1_000_000_000;

/// A path from an element to a bit, and where it gets too long.
#[derive(Clone, Copy, Debug)]
pub struct LongWay {
    /// The names on the way: of the element that it leads from, of the inner bits, and of the element that it leads to,
    /// unless it leads to an inner bit.
    pub names: Places,
    /// The greatest delays between them, in femtoseconds.
    pub delays: [u64; MOST_PLACES],
    /// How many delays the way has. Where there are more than have room, the first ones stand above.
    pub count: usize,
    /// The last of the names.
    pub last: Range,
}

/// What bits of a table an element and inner bits have, as edges name them: inner bits by their numbers, and behind
/// them the output that a path leads from, and the input that it leads to.
#[derive(Clone, Copy)]
struct Bits {
    elements: u64,
    inner: usize,
    element: u64,
    bit: u64,
}

/// The number behind the first byte of a word.
fn number_behind(word: &[u8]) -> u64 {
    match word {
        [_, digits @ ..] => leading_digits(digits).0,
        [] => 0,
    }
}

/// The number that a line says behind a word. None of another line.
fn number_said(line: &[u8], word: &[u8]) -> Option<u64> {
    if line.starts_with(word) && word.len() <= line.len() {
        Some(leading_digits(&line[word.len()..]).0)
    } else {
        None
    }
}

/// How many elements and inner bits a table has.
fn bits_of(text: &[u8], element: u32, bit: u32) -> Bits {
    let mut bits = Bits {
        elements: 0,
        inner: 0,
        element: u64::from(element),
        bit: u64::from(bit),
    };
    let mut from = 0;
    while from < text.len() {
        let to = place_of(b'\n', text, from);
        if let Some(count) = number_said(&text[from..to], b"elements ") {
            bits.elements = count;
        }
        if let Some(count) = number_said(&text[from..to], b"inner ") {
            bits.inner = usize::try_from(count).ok().unwrap_or(0);
        }
        from = to + 1;
    }
    bits
}

/// The node of a bit that an arc leads from. None of an output that no path is looked for from.
fn node_from(bits: &Bits, word: &[u8]) -> Option<usize> {
    let number = number_behind(word);
    if word.starts_with(b"n") {
        return usize::try_from(number).ok();
    }
    if number == bits.element {
        Some(bits.inner)
    } else {
        None
    }
}

/// The node of a bit that an arc leads to. None of an input that no path is looked for to.
fn node_to(bits: &Bits, word: &[u8]) -> Option<usize> {
    let number = number_behind(word);
    if word.starts_with(b"n") {
        return usize::try_from(number).ok();
    }
    if number.saturating_mul(2) == bits.bit {
        Some(bits.inner.saturating_add(1))
    } else {
        None
    }
}

/// The greatest delay of an arc, by its line: its last word.
fn delay_of(text: &[u8], line: &Range, to: &Range) -> Option<u64> {
    let least = word_from(text, to.to.saturating_add(1))?;
    let most = word_from(text, least.to.saturating_add(1))?;
    if most.to > line.to {
        return None;
    }
    Some(leading_digits(bytes_of(text, &most)).0)
}

/// The arc of a line as an edge. None of an arc that no path looked for may take.
fn edge_on(text: &[u8], line: &Range, bits: &Bits) -> Option<Edge> {
    let (from, to) = arc_ends(text, line)?;
    Some(Edge {
        line: *line,
        from: node_from(bits, bytes_of(text, &from))?,
        to: node_to(bits, bytes_of(text, &to))?,
        delay: delay_of(text, line, &to)?,
    })
}

/// The arcs of a table that a path looked for may take.
fn edges_of(alloc: Global, text: &[u8], bits: &Bits) -> Result<Vec<Edge>, OutOfMemory> {
    let mut edges = Vec::new(alloc);
    let mut from = 0;
    while from < text.len() {
        let to = place_of(b'\n', text, from);
        let line = Range { from, to };
        if bytes_of(text, &line).starts_with(ARC) {
            if let Some(edge) = edge_on(text, &line, bits) {
                edges.push(edge)?;
            }
        }
        from = to + 1;
    }
    Ok(edges)
}

/// The name of the element of a number from 0 on.
fn element_name(text: &[u8], number: u64) -> Option<Range> {
    let mut count = 0u64;
    let mut from = 0;
    while from < text.len() {
        let to = place_of(b'\n', text, from);
        if text[from..to].starts_with(ELEMENT) {
            if count == number {
                return word_from(text, from.saturating_add(ELEMENT.len()));
            }
            count = count.saturating_add(1);
        }
        from = to + 1;
    }
    None
}

/// The name of what an arc leads to: an inner bit, or the element of the input.
fn name_behind(text: &[u8], line: &Range) -> Option<Range> {
    let (_, to) = arc_ends(text, line)?;
    let word = bytes_of(text, &to);
    if word.starts_with(b"d") {
        element_name(text, number_behind(word))
    } else {
        Some(to)
    }
}

/// The line of the arc on which a way gets too long. None where it doesn't.
fn passing(way: &[Edge]) -> Option<Range> {
    let mut sum = 0u64;
    for edge in way {
        sum = sum.saturating_add(edge.delay);
        if sum > MOST_PATH {
            return Some(edge.line);
        }
    }
    None
}

/// A way from an element, as it is told.
fn way_told(text: &[u8], element: u32, way: &[Edge]) -> Option<LongWay> {
    let mut names = [None; MOST_PLACES];
    let mut delays = [0; MOST_PLACES];
    names[0] = Some(element_name(text, u64::from(element))?);
    for place in 0..MOST_PLACES {
        if place < way.len() {
            delays[place] = way[place].delay;
        }
        if place > 0 && place <= way.len() {
            names[place] = Some(name_behind(text, &way[place - 1].line)?);
        }
    }
    if way.is_empty() {
        return None;
    }
    Some(LongWay {
        names,
        delays,
        count: way.len(),
        last: name_behind(text, &way[way.len() - 1].line)?,
    })
}

/// The node of the bit that a path is looked for to.
fn target_of(bits: &Bits) -> usize {
    let both = bits.elements.saturating_mul(2);
    match usize::try_from(bits.bit.saturating_sub(both)) {
        Ok(number) if bits.bit >= both => number,
        _ => bits.inner.saturating_add(1),
    }
}

/// The line of the arc of a table on which the longest path from an element to a bit takes more than a microsecond, and
/// that path. Elements are counted from 0, and bits as in refusals: the input of element i is bit 2i, and inner bits
/// stand behind those of all elements.
pub fn long_way(
    alloc: Global,
    text: &[u8],
    element: u32,
    bit: u32,
) -> Result<Option<Found>, OutOfMemory>
    ensures { IfOk result (λ o. IfSome o (λ found. IsRange text.now found.range)) }
{
    let bits = bits_of(text, element, bit);
    let edges = edges_of(alloc, text, &bits)?;
    let way = longest_way(alloc, &edges, bits.inner, target_of(&bits))?;
    match way_told(text, element, &way) {
        Some(told) => Ok(found_anywhere(text, passing(&way), Fault::Long { way: told })),
        None => Ok(None),
    }
}
