//! Lines, and places in them.
ghost use Rattle.std.specs.Prelude.{◌≡◌, ◌≤◌, ◌<◌, ◌+◌, ◌^◌, ℕ, List, IfNone, IfSome, length, take};
ghost use Rattle.mintcx_places.specs.Lines.{Begins, HasNoLine, IsLine, IsNumbered, IsRest, IsSpot, before_return};
ghost use Rattle.mintcx_places.specs.Lines.{feeds};

use mintc_text::place_of;

/// Bytes of a text, counted from 0: from the first one up to, and without, the other.
#[derive(Clone, Copy, Debug, PartialEq, Eq)]
pub struct Range {
    pub from: usize,
    pub to: usize,
}

/// A place in a text as people say it. Lines and columns are counted from 1, columns in bytes.
#[derive(Clone, Copy, Debug, PartialEq, Eq)]
pub struct Spot {
    pub line: usize,
    pub column: usize,
}

/// A line of a text: its number, its first byte, and the place of its line feed or of the text's end.
#[derive(Clone, Copy)]
pub(crate) struct Line {
    pub(crate) number: usize,
    pub(crate) from: usize,
    pub(crate) end: usize,
}

/// Where a line ends without the carriage return at its end.
pub(crate) fn before_return(text: &[u8], from: usize, end: usize) -> usize
    requires { end ≤ length text.now }
    ensures value { result ≡ before_return text.now from end }
    ensures within { result ≤ end }
    ensures after { from ≤ end → from ≤ result }
{
    if from < end && text[end - 1] == b'\r' {
        end - 1
    } else {
        end
    }
}

/// Where a line begins, by its number from 1 on: the place behind so many line feeds less one. None where there are
/// fewer.
fn line_start(text: &[u8], number: u32) -> Option<usize>
    requires { 0 < number }
    ensures begins { IfSome result (Begins text.now) }
    ensures within { IfSome result (λ from. from ≤ length text.now) }
    ensures count { IfSome result (λ from. number ≡ feeds (take from text.now) + 1) }
    ensures none { IfNone result (feeds text.now + 1 < number) }
{
    let mut from = 0;
    for _passed in 1..number {
        let feed = place_of(b'\n', text, from);
        if feed == text.len() {
            return None;
        }
        from = feed + 1;
    }
    Some(from)
}

/// The line that begins at a place, without its line feed and the carriage return before it.
fn line_from(text: &[u8], from: usize) -> Range
    requires begins { Begins text.now from }
    requires within { from ≤ length text.now }
    ensures line { (end : ℕ) × IsLine text.now from end × (result.to ≡ before_return text.now from end) }
    ensures from { result.from ≡ from }
    ensures order { from ≤ result.to }
    ensures within { result.to ≤ length text.now }
{
    let end = place_of(b'\n', text, from);
    Range {
        from,
        to: before_return(text, from, end),
    }
}

/// The bytes of a line, by its number from 1 on, without its line feed and the carriage return before it. None where
/// the text has no such line: what is behind its last line feed is a line where it is anything.
pub fn line_range(text: &[u8], number: u32) -> Option<Range>
    ensures line { IfSome result (IsNumbered text.now number) }
    ensures within { IfSome result (λ range. (range.from ≤ range.to) × (range.to ≤ length text.now)) }
    ensures none { IfNone result (HasNoLine text.now number) }
{
    if number == 0 {
        return None;
    }
    let from = line_start(text, number)?;
    if from == text.len() {
        return None;
    }
    Some(line_from(text, from))
}

/// The line on which a place stands.
pub(crate) fn line_around(text: &[u8], at: usize) -> Line
    requires { at ≤ length text.now }
    ensures line { IsLine text.now result.from result.end }
    ensures number { result.number ≡ feeds (take result.from text.now) + 1 }
    ensures above { result.from ≤ at }
    ensures below { at ≤ result.end }
{
    let mut number = 1;
    let mut from = 0;
    let mut end = place_of(b'\n', text, 0);
    while end < at {
        number += 1;
        from = end + 1;
        end = place_of(b'\n', text, from);
    }
    Line { number, from, end }
}

/// The line on which a place stands, from there on, without its line feed and the carriage return before it.
pub(crate) fn rest_of_line(text: &[u8], from: usize) -> Range
    requires { from ≤ length text.now }
    ensures from { result.from ≡ from }
    ensures rest { IsRest text.now result }
    ensures within { (from ≤ result.to) × (result.to ≤ length text.now) }
{
    let line = line_around(text, from);
    Range {
        from,
        to: before_return(text, from, line.end),
    }
}

/// Where a place of a line stands.
pub(crate) fn spot_on(line: &Line, at: usize) -> Spot
    requires order { line.now.from ≤ at }
    requires few { at < 2 ^ 63 }
    ensures { (text : List ℕ) → IsLine text line.now.from line.now.end → at ≤ line.now.end
        → line.now.number ≡ feeds (take line.now.from text) + 1 → IsSpot text at result }
{
    Spot {
        line: line.number,
        column: at - line.from + 1,
    }
}

/// The line and the column of a place of a text.
pub fn spot_of(text: &[u8], at: usize) -> Spot
    requires { at ≤ length text.now }
    ensures { IsSpot text.now at result }
{
    spot_on(&line_around(text, at), at)
}
