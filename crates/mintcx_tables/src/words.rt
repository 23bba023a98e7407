//! The words of a line behind its first, each after a space.
ghost use Rattle.std.specs.Prelude.{◌≡◌, ◌≤◌, ◌++◌, ◌∷◌, [], List, ℕ, OnOk};
ghost use Rattle.mintc_text.specs.Lines.{numeral_of, spaced};
ghost use Rattle.mintc_text.specs.declared.limits.TheConstants.{MOST_ELEMENTS};
ghost use Rattle.mintc_timing_text.specs.Fields.{number};
ghost use Rattle.mintc_timing_text.specs.TableText.{hold_word, kind_word, point_word};
ghost use Rattle.mintcx_tables.specs.Lines.{bit_word, margin_words, time_words};

use mintc_text::{Lines, OutOfMemory};
use mintc_timing::{Element, Point};

/// Writes a word.
pub(crate) fn put_word(lines: &mut Lines, word: &[u8]) -> Result<(), OutOfMemory>
    ensures { OnOk result (lines.new ≡ lines.old ++ spaced (word.now ∷ [])) }
{
    lines.put(b" ")?;
    lines.put(word)
}

/// Writes a number.
pub(crate) fn put_number(lines: &mut Lines, value: i64) -> Result<(), OutOfMemory>
    ensures { OnOk result (lines.new ≡ lines.old ++ spaced (numeral_of value ∷ [])) }
{
    lines.put(b" ")?;
    lines.number(i128::from(value))
}

/// Writes a letter and a count, as one word.
fn put_lettered(lines: &mut Lines, letter: &[u8], count: u32) -> Result<(), OutOfMemory>
    ensures { OnOk result (lines.new ≡ lines.old ++ spaced ((letter.now ++ number count) ∷ [])) }
{
    lines.put(b" ")?;
    lines.put(letter)?;
    lines.number(i128::from(count))
}

/// Writes a bit of a design of so many elements: an input or an output of an element by this letter, or an inner bit.
pub(crate) fn put_bit(
    lines: &mut Lines,
    letter: &[u8],
    bit: u32,
    elements: u32,
) -> Result<(), OutOfMemory>
    requires { elements ≤ MOST_ELEMENTS }
    ensures { OnOk result (lines.new ≡ lines.old ++ spaced (bit_word letter.now elements bit ∷ [])) }
{
    let inner = 2 * elements;
    if bit < inner {
        put_lettered(lines, letter, bit / 2)
    } else {
        put_lettered(lines, b"n", bit - inner)
    }
}

/// Writes a point of the clock.
pub(crate) fn put_point(lines: &mut Lines, point: Point) -> Result<(), OutOfMemory>
    ensures { OnOk result (lines.new ≡ lines.old ++ spaced (point_word point ∷ [])) }
{
    match point {
        Point::Origin => put_word(lines, b"o"),
        Point::Start(phase) => put_lettered(lines, b"s", phase),
        Point::End(phase) => put_lettered(lines, b"e", phase),
    }
}

/// The word of a kind.
fn kind_word(flop: bool) -> &'static [u8]
    ensures { result.now ≡ kind_word flop }
{
    if flop { b"flop" } else { b"latch" }
}

/// Writes the name of an element, its phase and its kind.
pub(crate) fn put_kind(lines: &mut Lines, element: &Element) -> Result<(), OutOfMemory>
    ensures { OnOk result (lines.new ≡ lines.old ++ spaced (element.now.name ∷ number element.now.phase
        ∷ kind_word element.now.flop ∷ [])) }
{
    put_word(lines, element.name.bytes())?;
    lines.numbers(&[element.phase])?;
    put_word(lines, kind_word(element.flop))
}

/// Writes a hold, a dash where there is none.
fn put_hold(lines: &mut Lines, has_hold: bool, hold: i64) -> Result<(), OutOfMemory>
    ensures { OnOk result (lines.new ≡ lines.old ++ spaced (hold_word has_hold hold ∷ [])) }
{
    if has_hold {
        put_number(lines, hold)
    } else {
        put_word(lines, b"-")
    }
}

/// Writes the setup and the hold of an element.
pub(crate) fn put_margins(lines: &mut Lines, element: &Element) -> Result<(), OutOfMemory>
    ensures { OnOk result (lines.new ≡ lines.old ++ spaced (margin_words element.now)) }
{
    put_number(lines, element.setup)?;
    put_hold(lines, element.has_hold, element.hold)
}

/// Writes two numbers.
pub(crate) fn put_two(lines: &mut Lines, low: i64, high: i64) -> Result<(), OutOfMemory>
    ensures { OnOk result (lines.new ≡ lines.old ++ spaced (numeral_of low ∷ numeral_of high ∷ [])) }
{
    put_number(lines, low)?;
    put_number(lines, high)
}

/// Writes the delays of an element, from its data and from its opening edge, and the least width of its phase.
pub(crate) fn put_times(lines: &mut Lines, element: &Element) -> Result<(), OutOfMemory>
    ensures { OnOk result (lines.new ≡ lines.old ++ spaced (time_words element.now)) }
{
    put_two(lines, element.dq_min, element.dq_max)?;
    put_two(lines, element.cq_min, element.cq_max)?;
    put_number(lines, element.width)
}
