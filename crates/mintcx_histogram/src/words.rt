//! The words of the histogram.
ghost use Rattle.std.specs.Prelude.{◌≡◌, ◌≤◌, ◌*◌, ◌^◌, ◌++◌, decimal, pos, IfOk, OnOk};
ghost use Rattle.mintc_fraction.specs.Ratio.{IsModest};
ghost use Rattle.mintcx_chart.specs.Words.{span_text};
ghost use Rattle.mintcx_histogram.specs.Bars.{bar_name, up_to};

use mintc_fraction::Fraction;
use mintc_text::{Lines, Name, OutOfMemory};
use mintcx_amounts::Unit;
use mintcx_chart::{name_of, shown_subject};
use mintcx_frame::{number_cell, put_number, put_time, word_cell};
use mintcx_picture::cut;
use std::alloc::Global;

/// As many letters of what a histogram is of stand in its first line.
const MOST_LETTERS: usize = 60;

/// Writes up to which slack a bar goes, in femtoseconds.
fn put_end(lines: &mut Lines, unit: Unit, end: u64) -> Result<(), OutOfMemory>
    requires { end ≤ 12 * 10 ^ 18 }
    ensures { OnOk result (lines.new ≡ lines.old ++ up_to unit end) }
{
    lines.put(b"up to ")?;
    put_time(lines, &Fraction::new(i128::from(end), 1), unit)
}

/// Up to which slack a bar goes, in femtoseconds.
fn end_name(alloc: Global, unit: Unit, end: u64) -> Result<Name, OutOfMemory>
    requires { end ≤ 12 * 10 ^ 18 }
    ensures { IfOk result (λ name. name ≡ up_to unit end) }
{
    let mut lines = Lines::new(alloc);
    put_end(&mut lines, unit, end)?;
    name_of(alloc, lines)
}

/// What a bar is called.
pub(crate) fn bar_name(
    alloc: Global,
    unit: Unit,
    number: u32,
    end: u64,
) -> Result<Name, OutOfMemory>
    requires { end ≤ 12 * 10 ^ 18 }
    ensures { IfOk result (λ name. name ≡ bar_name unit number end) }
{
    if number == 0 {
        return word_cell(alloc, b"none");
    }
    end_name(alloc, unit, end)
}

/// A number of pairs as a name.
pub(crate) fn count_name(alloc: Global, count: u64) -> Result<Name, OutOfMemory>
    ensures { IfOk result (λ name. name ≡ decimal count) }
{
    number_cell(alloc, count)
}

/// The title: what the slacks are of, and at which cycle time.
fn put_title(
    lines: &mut Lines,
    subject: &[u8],
    unit: Unit,
    cycle: &Fraction,
) -> Result<(), OutOfMemory>
    requires { IsModest cycle.now }
{
    lines.put(subject)?;
    lines.put(b": slack at a cycle of ")?;
    put_time(lines, cycle, unit)
}

/// The title: what the slacks are of, and at which cycle time.
pub(crate) fn title_of(
    alloc: Global,
    subject: &[u8],
    unit: Unit,
    cycle: &Fraction,
) -> Result<Name, OutOfMemory>
    requires { IsModest cycle.now }
{
    let mut lines = Lines::new(alloc);
    let shown = shown_subject(alloc, subject)?;
    put_title(&mut lines, shown.bytes(), unit, cycle)?;
    name_of(alloc, lines)
}

/// The first line: the same with what the slacks are of cut to its room.
pub(crate) fn headline(
    alloc: Global,
    subject: &[u8],
    unit: Unit,
    cycle: &Fraction,
) -> Result<Name, OutOfMemory>
    requires { IsModest cycle.now }
{
    let mut lines = Lines::new(alloc);
    let shown = shown_subject(alloc, subject)?;
    let short = cut(alloc, shown.bytes(), MOST_LETTERS)?;
    put_title(&mut lines, short.bytes(), unit, cycle)?;
    name_of(alloc, lines)
}

/// The word for so many pairs.
fn pairs_word(count: u64) -> &'static [u8] {
    if count == 1 {
        b" pair of elements; "
    } else {
        b" pairs of elements; "
    }
}

/// What so many pairs without slack do.
fn hold_word(count: u64) -> &'static [u8] {
    if count == 1 {
        b" holds the clock back"
    } else {
        b" hold the clock back"
    }
}

/// The second line: how many pairs there are, and how many of them have no slack.
pub(crate) fn second_line(alloc: Global, pairs: u64, tight: u64) -> Result<Name, OutOfMemory> {
    let mut lines = Lines::new(alloc);
    put_number(&mut lines, pairs)?;
    lines.put(pairs_word(pairs))?;
    put_number(&mut lines, tight)?;
    lines.put(hold_word(tight))?;
    name_of(alloc, lines)
}

/// The end of what a picture shows: whether one or more pairs are without slack.
fn none_word(pairs: u64, tight: u64) -> &'static [u8] {
    if pairs == 1 {
        b" pair has no slack."
    } else if tight == 1 {
        b" pairs has no slack."
    } else {
        b" pairs have no slack."
    }
}

/// What a picture shows.
pub(crate) fn about_of(alloc: Global, pairs: u64, tight: u64) -> Result<Name, OutOfMemory> {
    let mut lines = Lines::new(alloc);
    put_number(&mut lines, tight)?;
    lines.put(b" of ")?;
    put_number(&mut lines, pairs)?;
    lines.put(none_word(pairs, tight))?;
    name_of(alloc, lines)
}
