//! The words of the picture.
ghost use Rattle.std.specs.Prelude.{◌<◌};
ghost use Rattle.mintc_timing.specs.Design.{element_count};
ghost use Rattle.mintc_timing.specs.Limits.{IsDenominator};
ghost use Rattle.mintcx_chart.specs.Ranges.{IsDrawnTime};

use mintc_text::{Lines, Name, OutOfMemory};
use mintc_timing::Flat;
use mintcx_amounts::Unit;
use mintcx_chart::{Kind, name_of, put_kind_on_phase, put_moment};
use mintcx_frame::put_number;
use mintcx_optima::put_counted;
use std::alloc::Global;

/// How many setups and holds are drawn.
pub(crate) const SHOWN: usize = 6;

/// What is noted of an element: its kind and its phase, and behind them a word.
pub(crate) fn note_of(
    alloc: Global,
    flat: &Flat,
    kind: Kind,
    element: u32,
    word: &[u8],
) -> Result<Name, OutOfMemory>
    requires { element < element_count flat.now }
{
    let mut lines = Lines::new(alloc);
    put_kind_on_phase(&mut lines, flat, kind, element)?;
    lines.put(word)?;
    name_of(alloc, lines)
}

/// The word for what is judged of an element.
pub(crate) fn judged_word(hold: bool) -> &'static [u8] {
    if hold { b", hold" } else { b", setup" }
}

/// The word behind how much room there is, or how much is missing.
fn room_word(hold: bool, kept: bool) -> &'static [u8] {
    match (kept, hold) {
        (true, _) => b" to spare",
        (false, true) => b" too soon",
        (false, false) => b" too late",
    }
}

/// How much room there is, or how much is missing, in words.
pub(crate) fn room_words(
    alloc: Global,
    unit: Unit,
    den: i64,
    room: i128,
    hold: bool,
) -> Result<Name, OutOfMemory>
    requires den { IsDenominator den }
    requires room { IsDrawnTime room }
{
    let mut lines = Lines::new(alloc);
    let kept = room >= 0;
    let amount = if kept { room } else { -room };
    put_moment(&mut lines, unit, den, amount)?;
    lines.put(room_word(hold, kept))?;
    name_of(alloc, lines)
}

/// Writes how many violations there are.
fn put_verdict(lines: &mut Lines, violations: usize) -> Result<(), OutOfMemory> {
    if violations == 0 {
        lines.put(b"it passes")
    } else {
        put_counted(lines, violations as u64, b"violation")
    }
}

/// The second line: how many violations there are, and how many of all setups and broken holds are drawn.
pub(crate) fn second_line(
    alloc: Global,
    violations: usize,
    all: usize,
) -> Result<Name, OutOfMemory> {
    let mut lines = Lines::new(alloc);
    put_verdict(&mut lines, violations)?;
    lines.put(b"; of ")?;
    put_number(&mut lines, all as u64)?;
    lines.put(b" setups and broken holds the ")?;
    put_number(&mut lines, all.min(SHOWN) as u64)?;
    lines.put(b" worst off")?;
    name_of(alloc, lines)
}
