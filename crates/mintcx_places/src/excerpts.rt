//! A line as it is shown.
ghost use Rattle.std.specs.Prelude.{◌≡◌, ◌≤◌, ◌<◌, ◌+◌, ◌++◌, ◌^◌, ℕ, List, IfOk, OnOk, length};
ghost use Rattle.mintcx_places.specs.Excerpts.{IsExcerpt, IsPart, IsShown, cut, shown, shown_byte};

use crate::lines::{Range, Spot, before_return, line_around, spot_on};
use mintc_text::{Bytes, OutOfMemory};
use std::alloc::Global;

/// How many bytes of a line are shown at most.
const MOST_SHOWN: usize = 100;

/// How many of them before the caret, where the line is longer.
const BEFORE: usize = 60;

/// How many bytes an excerpt takes at most: tabs become four blanks, and there is `...` at both ends.
const MOST_TAKEN: usize = 4 * MOST_SHOWN + 6;

/// A line as it is shown, and its marks.
#[derive(Debug, Drop)]
pub struct Excerpt {
    /// Where the marks begin, in the text.
    pub spot: Spot,
    /// The line, or a part of it with `...` where it is cut: printable bytes alone.
    pub line: Bytes,
    /// How many bytes of `line` stand before the marks.
    pub caret: usize,
    /// How many marks there are, 1 at least.
    pub marks: usize,
}

/// What is shown of a line, by places of the text: from `from` up to `to`, marked from `caret` up to `marked`.
#[derive(Clone, Copy)]
pub(crate) struct Part {
    pub(crate) from: usize,
    pub(crate) caret: usize,
    pub(crate) marked: usize,
    pub(crate) to: usize,
}

/// A part of a line as it is shown, where its marks begin, and how many there are.
#[derive(Drop)]
pub(crate) struct Shown {
    pub(crate) line: Bytes,
    pub(crate) caret: usize,
    pub(crate) marks: usize,
}

/// What is shown of a line for a range that begins on it.
fn part_of(line: &Range, range: &Range) -> Part
    requires order { line.now.from ≤ line.now.to }
    requires above { line.now.from ≤ range.now.from }
    requires few { line.now.to < 2 ^ 63 }
    ensures { IsPart line.now range.now result }
{
    let caret = range.from.min(line.to);
    let least = line.from.max(caret.saturating_sub(BEFORE));
    let to = line.to.min(least + MOST_SHOWN);
    let from = line.from.max(to.saturating_sub(MOST_SHOWN));
    let marked = caret.max(range.to.min(to));
    Part {
        from,
        caret,
        marked,
        to,
    }
}

/// Writes a byte as it is shown.
fn put_byte(out: &mut Vec<u8>, byte: u8) -> Result<(), OutOfMemory>
    ensures { OnOk result (out.new.items ≡ out.old.items ++ shown_byte byte) }
{
    match byte {
        b'\t' => out.extend_from_slice(b"    ")?,
        b' '..=b'~' => out.push(byte)?,
        _ => out.push(b'?')?,
    }
    Ok(())
}

/// Writes bytes as they are shown.
fn put_shown(out: &mut Vec<u8>, bytes: &[u8]) -> Result<(), OutOfMemory>
    ensures { OnOk result (out.new.items ≡ out.old.items ++ shown bytes.now) }
{
    for byte in bytes {
        put_byte(out, *byte)?;
    }
    Ok(())
}

/// Writes that a line is cut, where it is.
fn put_cut(out: &mut Vec<u8>, is_cut: bool) -> Result<(), OutOfMemory>
    ensures { OnOk result (out.new.items ≡ out.old.items ++ cut is_cut) }
{
    if is_cut {
        out.extend_from_slice(b"...")?;
    }
    Ok(())
}

/// The part of a line as it is shown, where its marks begin, and how many there are.
fn shown_part(alloc: Global, text: &[u8], line: &Range, part: &Part) -> Result<Shown, OutOfMemory>
    requires before { part.now.from ≤ part.now.caret }
    requires marks { part.now.caret ≤ part.now.marked }
    requires behind { part.now.marked ≤ part.now.to }
    requires within { part.now.to ≤ length text.now }
    ensures { IfOk result (IsShown text.now line.now part.now) }
{
    let mut out = Vec::with_capacity(alloc, MOST_TAKEN)?;
    put_cut(&mut out, line.from < part.from)?;
    put_shown(&mut out, &text[part.from..part.caret])?;
    let caret = out.len();
    put_shown(&mut out, &text[part.caret..part.marked])?;
    let end = out.len();
    put_shown(&mut out, &text[part.marked..part.to])?;
    put_cut(&mut out, part.to < line.to)?;
    Ok(Shown {
        line: Bytes::new(out),
        caret,
        marks: (end - caret).max(1),
    })
}

/// The line of a text on which a range begins, as it is shown, with the range marked as far as that line goes. A tab is
/// shown as four blanks, another byte outside of 32 to 126 as `?`, and of a line of more than 100 bytes a part.
pub fn excerpt_of(alloc: Global, text: &[u8], range: &Range) -> Result<Excerpt, OutOfMemory>
    requires { range.now.from ≤ length text.now }
    ensures { IfOk result (IsExcerpt text.now range.now) }
{
    let around = line_around(text, range.from);
    let line = Range {
        from: around.from,
        to: before_return(text, around.from, around.end),
    };
    let part = part_of(&line, range);
    let shown = shown_part(alloc, text, &line, &part)?;
    Ok(Excerpt {
        spot: spot_on(&around, range.from),
        line: shown.line,
        caret: shown.caret,
        marks: shown.marks,
    })
}
