//! The parts that each message has.
ghost use Rattle.std.specs.Prelude.{◌≡◌, ◌++◌, ◌∷◌, [], IfOk, OnOk, codes, decimal, replicate};
ghost use Rattle.mintc_text.specs.Refusals.{refusal_number};
ghost use Rattle.mintcx_refusals.specs.Messages.{arrow_text, excerpt_text, file_text, head, line_text};
ghost use Rattle.mintcx_refusals.specs.Messages.{corner_note, marks_text, note, note_text, own_line};
ghost use Rattle.mintcx_refusals.specs.Messages.{padded, place_text, short_file, short_place, spot_text};

use mintc_text::{Bytes, Lines, OutOfMemory, Refusal};
use mintc_text_refusals::refusal_text;
use mintcx_places::{Excerpt, Spot};
use std::alloc::Global;

/// The number of a refusal, as mintc's own line has it.
pub fn refusal_number(refusal: &Refusal) -> u32
    ensures { result ≡ refusal_number refusal.now }
{
    match refusal {
        Refusal::Syntax { .. } => 1,
        Refusal::TooLong { .. } => 2,
        Refusal::NameTwice { .. } => 3,
        Refusal::NoModule { .. } => 4,
        Refusal::Recursive { .. } => 5,
        Refusal::NoPin { .. } => 6,
        Refusal::Width { .. } => 7,
        Refusal::TwoDrivers { .. } => 8,
        Refusal::TopUnclear { .. } => 9,
        Refusal::NoInstance { .. } => 10,
        Refusal::NoArc { .. } => 11,
        Refusal::Negative { .. } => 12,
        Refusal::BadCell { .. } => 13,
        Refusal::BadClock { .. } => 14,
        Refusal::NoPhase { .. } => 15,
        Refusal::CombinationalLoop { .. } => 16,
        Refusal::Limit { .. } => 17,
        Refusal::Range { .. } => 18,
        Refusal::PhaseMismatch { .. } => 19,
        Refusal::PathRange { .. } => 21,
        Refusal::Corner { .. } => 22,
    }
}

/// Writes a number.
pub(crate) fn put_number(lines: &mut Lines, number: u64) -> Result<(), OutOfMemory>
    ensures { OnOk result (lines.new ≡ lines.old ++ decimal number) }
{
    lines.number(i128::from(number))
}

/// Writes what a message begins with, and what the refusal is.
pub(crate) fn put_head(lines: &mut Lines, refusal: &Refusal, what: &[u8]) -> Result<(), OutOfMemory>
    ensures { OnOk result (lines.new ≡ lines.old ++ (head refusal.now ++ what.now ++ 10 ∷ [])) }
{
    lines.put(b"error[")?;
    put_number(lines, refusal_number(refusal) as u64)?;
    lines.put(b"]: ")?;
    lines.put(what)?;
    lines.put(b"\n")
}

/// mintc's own line of a refusal, without its line feed.
fn own_line(alloc: Global, refusal: &Refusal) -> Result<Bytes, OutOfMemory>
    ensures { IfOk result (λ line. line ≡ own_line refusal.now) }
{
    let mut text = refusal_text(alloc, refusal)?;
    let _feed = text.pop();
    Ok(Bytes::new(text))
}

/// Writes what a message ends with, by mintc's own words and a number.
fn put_note_text(lines: &mut Lines, own: &[u8], number: u32) -> Result<(), OutOfMemory>
    ensures { OnOk result (lines.new ≡ lines.old ++ note_text own.now number) }
{
    lines.put(b"= note: `")?;
    lines.put(own)?;
    lines.put(b"`; `mintcx explain ")?;
    put_number(lines, number as u64)?;
    lines.put(b"` says more")?;
    lines.put(b"\n")
}

/// Writes what a message ends with.
pub(crate) fn put_note(
    alloc: Global,
    lines: &mut Lines,
    refusal: &Refusal,
) -> Result<(), OutOfMemory>
    ensures { OnOk result (lines.new ≡ lines.old ++ note refusal.now) }
{
    let own = own_line(alloc, refusal)?;
    put_note_text(lines, own.items(), refusal_number(refusal))
}

/// mintc's own lines of a corner and of its files.
fn both_lines(alloc: Global, corner: &Refusal, own: &Refusal) -> Result<Bytes, OutOfMemory>
    ensures { IfOk result (λ both. both ≡ own_line corner.now ++ codes "; " ++ own_line own.now) }
{
    let first = own_line(alloc, corner)?;
    let second = own_line(alloc, own)?;
    let mut lines = Lines::new(alloc);
    lines.put(first.items())?;
    lines.put(b"; ")?;
    lines.put(second.items())?;
    Ok(Bytes::new(lines.into_bytes()))
}

/// Writes what the message of a corner ends with.
pub(crate) fn put_corner_note(
    alloc: Global,
    lines: &mut Lines,
    corner: &Refusal,
    own: &Refusal,
) -> Result<(), OutOfMemory>
    ensures { OnOk result (lines.new ≡ lines.old ++ corner_note corner.now own.now) }
{
    let both = both_lines(alloc, corner, own)?;
    put_note_text(lines, both.items(), refusal_number(corner))
}

/// Writes a byte so many times.
pub fn put_times(lines: &mut Lines, byte: u8, count: usize) -> Result<(), OutOfMemory>
    ensures { OnOk result (lines.new ≡ lines.old ++ replicate count byte) }
{
    for _turn in 0..count {
        lines.put(&[byte])?;
    }
    Ok(())
}

/// Writes a file, a line and a column.
fn put_spot(lines: &mut Lines, name: &[u8], spot: Spot) -> Result<(), OutOfMemory>
    ensures { OnOk result (lines.new ≡ lines.old ++ spot_text name.now spot) }
{
    lines.put(name)?;
    lines.put(b":")?;
    put_number(lines, spot.line as u64)?;
    lines.put(b":")?;
    put_number(lines, spot.column as u64)
}

/// The digits of a number.
pub fn digits_of(alloc: Global, number: usize) -> Result<Bytes, OutOfMemory>
    ensures { IfOk result (λ digits. digits ≡ decimal number) }
{
    let mut lines = Lines::new(alloc);
    put_number(&mut lines, number as u64)?;
    Ok(Bytes::new(lines.into_bytes()))
}

/// The digits of a number behind so many blanks that both are as wide as a margin.
pub(crate) fn padded(alloc: Global, margin: usize, number: usize) -> Result<Bytes, OutOfMemory>
    ensures { IfOk result (λ digits. digits ≡ padded margin number) }
{
    let digits = digits_of(alloc, number)?;
    let mut lines = Lines::new(alloc);
    put_times(
        &mut lines,
        b' ',
        margin.saturating_sub(digits.items().len()),
    )?;
    lines.put(digits.items())?;
    Ok(Bytes::new(lines.into_bytes()))
}

/// Writes the line of an excerpt that says where it is.
fn put_arrow(lines: &mut Lines, margin: usize, name: &[u8], spot: Spot) -> Result<(), OutOfMemory>
    ensures { OnOk result (lines.new ≡ lines.old ++ arrow_text (replicate margin 32) name.now spot) }
{
    put_times(lines, b' ', margin)?;
    lines.put(b"--> ")?;
    put_spot(lines, name, spot)?;
    lines.put(b"\n")
}

/// Writes the line of an excerpt behind its number.
fn put_line(lines: &mut Lines, number: &[u8], line: &[u8]) -> Result<(), OutOfMemory>
    ensures { OnOk result (lines.new ≡ lines.old ++ line_text number.now line.now) }
{
    lines.put(number)?;
    lines.put(b" | ")?;
    lines.put(line)?;
    lines.put(b"\n")
}

/// Writes the marks of an excerpt, and their label.
fn put_marks(
    lines: &mut Lines,
    margin: usize,
    excerpt: &Excerpt,
    label: &[u8],
) -> Result<(), OutOfMemory>
    ensures { OnOk result (lines.new
        ≡ lines.old ++ marks_text (replicate margin 32) excerpt.now.caret excerpt.now.marks label.now) }
{
    put_times(lines, b' ', margin)?;
    lines.put(b" | ")?;
    put_times(lines, b' ', excerpt.caret)?;
    put_times(lines, b'^', excerpt.marks)?;
    lines.put(label)?;
    lines.put(b"\n")
}

/// Writes an excerpt of a file behind a margin, with its marks and their label.
fn put_excerpt(
    alloc: Global,
    lines: &mut Lines,
    margin: usize,
    name: &[u8],
    excerpt: &Excerpt,
    label: &[u8],
) -> Result<(), OutOfMemory>
    ensures { OnOk result (lines.new ≡ lines.old ++ excerpt_text margin name.now excerpt.now label.now) }
{
    let number = padded(alloc, margin, excerpt.spot.line)?;
    put_arrow(lines, margin, name, excerpt.spot)?;
    put_line(lines, number.items(), excerpt.line.items())?;
    put_marks(lines, margin, excerpt, label)
}

/// Writes a file alone, if there is one.
fn put_file(lines: &mut Lines, name: &[u8]) -> Result<(), OutOfMemory>
    ensures { OnOk result (lines.new ≡ lines.old ++ file_text name.now) }
{
    if name.is_empty() {
        return Ok(());
    }
    lines.put(b" --> ")?;
    lines.put(name)?;
    lines.put(b"\n")
}

/// Writes a place: with an excerpt, or else its file alone.
pub fn put_place(
    alloc: Global,
    lines: &mut Lines,
    margin: usize,
    name: &[u8],
    excerpt: &Option<Excerpt>,
    label: &[u8],
) -> Result<(), OutOfMemory>
    ensures { OnOk result (lines.new ≡ lines.old ++ place_text margin name.now excerpt.now label.now) }
{
    match excerpt {
        Some(excerpt) => put_excerpt(alloc, lines, margin, name, excerpt, label),
        None => put_file(lines, name),
    }
}

/// Writes a file as a line begins with it, if there is one.
fn put_short_file(lines: &mut Lines, name: &[u8]) -> Result<(), OutOfMemory>
    ensures { OnOk result (lines.new ≡ lines.old ++ short_file name.now) }
{
    if name.is_empty() {
        return Ok(());
    }
    lines.put(name)?;
    lines.put(b": ")
}

/// Writes a place as a line begins with it.
pub(crate) fn put_short_place(
    lines: &mut Lines,
    name: &[u8],
    spot: Option<Spot>,
) -> Result<(), OutOfMemory>
    ensures { OnOk result (lines.new ≡ lines.old ++ short_place name.now spot) }
{
    let Some(spot) = spot else {
        return put_short_file(lines, name);
    };
    put_spot(lines, name, spot)?;
    lines.put(b": ")
}
