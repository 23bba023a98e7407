//! Lines of the arcs of a table.
ghost use Rattle.std.specs.Prelude.{IfSome};
ghost use Rattle.mintcx_finders.specs.Places.{IsRange};

use crate::found::{Fault, Found, MOST_PLACES, Places, bytes_of, found_anywhere};
use mintc_text::{place_of, word};
use mintcx_places::Range;

/// What the line of an arc begins with.
pub(crate) const ARC: &[u8] = b"arc ";

/// Puts the line of an arc at the place that its number has among others.
fn put_line(places: &mut Places, arcs: &[u32], number: u32, line: Range) {
    for place in 0..MOST_PLACES {
        if place < arcs.len() && arcs[place] == number {
            places[place] = Some(line);
        }
    }
}

/// The lines of the first of these arcs. Arcs are counted from 0 in the order of their lines.
fn lines_of(text: &[u8], arcs: &[u32]) -> Places {
    let mut places = [None; MOST_PLACES];
    let mut number = 0u32;
    let mut from = 0;
    while from < text.len() {
        let to = place_of(b'\n', text, from);
        let line = Range { from, to };
        if bytes_of(text, &line).starts_with(ARC) {
            put_line(&mut places, arcs, number, line);
            number = number.saturating_add(1);
        }
        from = to + 1;
    }
    places
}

/// The line of the first of these arcs of a table, counted from 0, and with it those of the next ones.
pub fn arc_lines(text: &[u8], arcs: &[u32]) -> Option<Found>
    ensures { IfSome result (λ found. IsRange text.now found.range) }
{
    let arcs = lines_of(text, arcs);
    found_anywhere(text, arcs[0], Fault::Arcs { arcs })
}

/// The word of a text that begins at a place; none where no byte of a word stands there.
pub(crate) fn word_from(text: &[u8], from: usize) -> Option<Range> {
    if from > text.len() {
        return None;
    }
    let (from, to) = word(text, from)?;
    Some(Range { from, to })
}

/// Where an arc begins and where it ends, by its line.
pub fn arc_ends(text: &[u8], line: &Range) -> Option<(Range, Range)> {
    let from = word_from(text, line.from.saturating_add(ARC.len()))?;
    let to = word_from(text, from.to.saturating_add(1))?;
    Some((from, to))
}
