//! What is said of clocks that SDC can't say.
ghost use Rattle.std.specs.Prelude.{◌≡◌, ◌≤◌, IfSome, length};

use mintc_clock::{PhaseDef, read_clock};
use mintc_command_answers::Source;
use mintc_fraction::Fraction;
use mintc_text::limits::MOST_BYTES;
use mintc_text::{Bytes, Lines, Name, OutOfMemory};
use mintcx_amounts::{Unit, put_amount};
use mintcx_finders::{Item, item_value};
use mintcx_frame::View;
use mintcx_places::{Excerpt, Range, excerpt_of};
use mintcx_refusals::{digits_of, put_place, put_times};
use mintcx_sdc::{Obstacle, Window};
use std::alloc::Global;

/// The clock description of a design, by its name and its bytes.
#[derive(Drop)]
pub(crate) struct ClockText {
    name: Bytes,
    text: Bytes,
}

/// Two phases on the levels of one port, with the number of the low one, from 1 on, and how long it starts after the
/// other one ends.
#[derive(Clone, Copy)]
struct Levels<'a> {
    high: &'a PhaseDef,
    low: &'a PhaseDef,
    number: u32,
    late: i64,
    high_window: Window,
    low_window: Window,
}

/// Bytes of their own.
fn owned(alloc: Global, bytes: &[u8]) -> Result<Bytes, OutOfMemory> {
    Ok(Bytes::new(Vec::from_slice(alloc, bytes)?))
}

/// The clock description among the files of a design; none of a table.
pub(crate) fn clock_among(
    alloc: Global,
    source: Source,
    names: &[Name],
    files: &[Bytes],
) -> Result<Option<ClockText>, OutOfMemory> {
    match (source, names, files) {
        (Source::Files | Source::Liberty, [_, _, _, name, ..], [_, _, _, text, ..]) => {
            Ok(Some(ClockText {
                name: owned(alloc, name.bytes())?,
                text: owned(alloc, text.items())?,
            }))
        }
        _ => Ok(None),
    }
}

/// Where the line begins that a place is on.
fn line_begin(text: &[u8], place: usize) -> usize
    requires { place ≤ length text.now }
    ensures { result ≤ place }
{
    let mut begin = 0;
    for at in 0..place {
        if text[at] == b'\n' {
            begin = at + 1;
        }
    }
    begin
}

/// Where a clock description says the level of a phase.
fn level_place(text: &[u8], number: u32) -> Option<Range>
    ensures { IfSome result (λ range. range.from ≤ length text.now) }
{
    let range = item_value(text, Item::Phase, number, b"level")?;
    let from = line_begin(text, range.from);
    Some(Range { from, to: range.to })
}

/// Writes an amount of femtoseconds, without its unit.
fn put_femtoseconds(lines: &mut Lines, amount: i64, unit: Unit) -> Result<(), OutOfMemory> {
    put_amount(lines, &Fraction::new(i128::from(amount), 1), unit)
}

/// Writes a name between quotes.
fn put_quoted(lines: &mut Lines, name: &Name) -> Result<(), OutOfMemory> {
    lines.put(b"`")?;
    lines.put(name.bytes())?;
    lines.put(b"`")
}

/// Writes which phases share which port.
fn put_what(lines: &mut Lines, levels: &Levels<'_>) -> Result<(), OutOfMemory> {
    lines.put(b"error: ")?;
    put_quoted(lines, &levels.high.name)?;
    lines.put(b" and ")?;
    put_quoted(lines, &levels.low.name)?;
    lines.put(b" share the port ")?;
    put_quoted(lines, &levels.low.port)?;
    lines.put(b", and aren't each other's complement\n")
}

/// From when to when the low phase is open, as a label.
fn label_of(alloc: Global, window: &Window, unit: Unit) -> Result<Bytes, OutOfMemory> {
    let mut lines = Lines::new(alloc);
    lines.put(b" open from ")?;
    put_femtoseconds(&mut lines, window.from, unit)?;
    lines.put(b" to ")?;
    put_femtoseconds(&mut lines, window.to, unit)?;
    Ok(Bytes::new(lines.into_bytes()))
}

/// Writes why they aren't.
fn put_why(lines: &mut Lines, levels: &Levels<'_>, unit: Unit) -> Result<(), OutOfMemory> {
    lines.put(b" = why: ")?;
    put_quoted(lines, &levels.high.name)?;
    lines.put(b" is from ")?;
    put_femtoseconds(lines, levels.high_window.from, unit)?;
    lines.put(b" to ")?;
    put_femtoseconds(lines, levels.high_window.to, unit)?;
    lines.put(b" ")?;
    lines.put(unit.word())?;
    lines.put(b", so the wire would be low from ")?;
    put_femtoseconds(lines, levels.high_window.to, unit)?;
    if levels.late == 0 {
        return lines.put(b" until that comes again\n");
    }
    lines.put(b" on, not from ")?;
    put_femtoseconds(lines, levels.low_window.from, unit)?;
    lines.put(b"\n")
}

/// The excerpt of a place, if there is one.
fn excerpt_at(
    alloc: Global,
    text: &[u8],
    place: Option<Range>,
) -> Result<Option<Excerpt>, OutOfMemory>
    requires { IfSome place (λ range. range.from ≤ length text.now) }
{
    match place {
        Some(range) => Ok(Some(excerpt_of(alloc, text, &range)?)),
        None => Ok(None),
    }
}

/// How many blanks stand before the parts of a message: as many as the number of its line has digits.
fn margin_of(alloc: Global, excerpt: &Option<Excerpt>) -> Result<usize, OutOfMemory> {
    match excerpt {
        Some(excerpt) => Ok(digits_of(alloc, excerpt.spot.line)?.items().len()),
        None => Ok(0),
    }
}

/// What is said of two levels of one port.
fn levels_text(
    alloc: Global,
    clock: &ClockText,
    levels: &Levels<'_>,
    view: &View,
) -> Result<Bytes, OutOfMemory> {
    let most = Fraction::new(i128::from(levels.low_window.to), 1);
    let unit = view.unit_for(&most);
    let text = clock.text.items();
    let excerpt = excerpt_at(alloc, text, level_place(text, levels.number))?;
    let margin = margin_of(alloc, &excerpt)?;
    let label = label_of(alloc, &levels.low_window, unit)?;
    let mut lines = Lines::new(alloc);
    put_what(&mut lines, levels)?;
    put_place(
        alloc,
        &mut lines,
        margin,
        clock.name.items(),
        &excerpt,
        label.items(),
    )?;
    put_times(&mut lines, b' ', margin)?;
    put_why(&mut lines, levels, unit)?;
    put_times(&mut lines, b' ', margin)?;
    lines.put(b" = help: write the schedule that the wire has, and `mintcx check` it\n")?;
    Ok(Bytes::new(lines.into_bytes()))
}

/// What is said of an obstacle by the names of the clock description, where it is about two levels of one port.
fn named_text(
    alloc: Global,
    clock: &ClockText,
    obstacle: &Obstacle,
    view: &View,
) -> Result<Option<Bytes>, OutOfMemory> {
    let Obstacle::Levels {
        high,
        low,
        late,
        high_window,
        low_window,
    } = obstacle
    else {
        return Ok(None);
    };
    if clock.text.items().len() > MOST_BYTES {
        return Ok(None);
    }
    let Ok(told) = read_clock(alloc, clock.text.items()) else {
        return Ok(None);
    };
    let phases = told.phases.items();
    match (
        phases.get(high.saturating_sub(1)),
        phases.get(low.saturating_sub(1)),
    ) {
        (Some(high), Some(low_phase)) => {
            let levels = Levels {
                high,
                low: low_phase,
                number: u32::try_from(*low).unwrap_or(0),
                late: *late,
                high_window: *high_window,
                low_window: *low_window,
            };
            Ok(Some(levels_text(alloc, clock, &levels, view)?))
        }
        _ => Ok(None),
    }
}

/// What is said of clocks that SDC can't say.
pub(crate) fn unsaid_text(
    alloc: Global,
    clock: &Option<ClockText>,
    obstacle: &Obstacle,
    view: &View,
) -> Result<Bytes, OutOfMemory> {
    if let Some(clock) = clock {
        if let Some(text) = named_text(alloc, clock, obstacle, view)? {
            return Ok(text);
        }
    }
    let text = format!(in alloc; "error: SDC can't say this schedule: {obstacle}\n")?;
    Ok(Bytes::new(text.into_bytes()))
}
