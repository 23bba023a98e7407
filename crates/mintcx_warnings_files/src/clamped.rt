//! The warning of delays below 0 that are taken as 0.
ghost use Rattle.std.specs.Prelude.{◌≤◌, IfOk, IfSome, length};
ghost use Rattle.mintcx_warnings_files.specs.Clamped.{AreOfClamped, IsOfClamped};

use crate::files::{File, scene};
use mintc_fraction::Fraction;
use mintc_sdf_tokens::names;
use mintc_text::{Bytes, Lines, OutOfMemory};
use mintcx_amounts::Unit;
use mintcx_finders::{Fault, Found, Negative, bytes_of, negative_number, negative_numbers};
use mintcx_frame::put_time;
use mintcx_places::Range;
use mintcx_warnings::{Clamped, clamped_text};
use std::alloc::Global;

/// What there is of numbers below 0: how many values have one, the first, and the one that is farthest from 0, of
/// several the first.
#[derive(Clone, Copy)]
struct Tally {
    values: usize,
    first: Negative,
    least: Negative,
}

/// How far a number is from 0, in femtoseconds; 0 where that isn't known.
fn distance(negative: &Negative) -> u64 {
    negative.number.femtoseconds.unwrap_or(0)
}

/// The number that is farther from 0; of equal ones the first.
fn farther(one: Negative, other: Negative) -> Negative {
    if distance(&other) > distance(&one) {
        other
    } else {
        one
    }
}

/// What there is, with one more number behind a number of this value.
fn with_number(tally: Tally, before: &Range, negative: &Negative) -> Tally {
    let is_same = before.from == negative.value.from;
    Tally {
        values: tally.values.saturating_add(if is_same { 0 } else { 1 }),
        first: tally.first,
        least: farther(tally.least, *negative),
    }
}

/// What there is of numbers below 0. None where there is none.
fn tally_of(found: &[Negative]) -> Option<Tally> {
    let first = *found.first()?;
    let mut tally = Tally {
        values: 1,
        first,
        least: first,
    };
    let mut before = first.value;
    for negative in found {
        tally = with_number(tally, &before, negative);
        before = negative.value;
    }
    Some(tally)
}

/// The unit that so many femtoseconds are read in.
fn unit_for(femtoseconds: u64) -> Unit {
    if femtoseconds < 1_000 {
        Unit::Femto
    } else if femtoseconds < 1_000_000 {
        Unit::Pico
    } else {
        Unit::Nano
    }
}

/// So many femtoseconds below 0, as people read them.
fn amount_below(alloc: Global, femtoseconds: u64) -> Result<Bytes, OutOfMemory> {
    let mut lines = Lines::new(alloc);
    let amount = Fraction::new(-i128::from(femtoseconds), 1);
    put_time(&mut lines, &amount, unit_for(femtoseconds))?;
    Ok(Bytes::new(lines.into_bytes()))
}

/// What parts the names of a path of some delays, by the first of them that is below 0.
fn divider_of(text: &[u8]) -> u8 {
    let whole = Range {
        from: 0,
        to: text.len(),
    };
    match negative_number(text, &whole) {
        Some(
            Found {
                range: _,
                fault: Fault::Number { header, .. },
            },
        ) => header.divider,
        _ => b'/',
    }
}

/// The path of an instance with a dot between its names; no byte where none is known.
fn instance_in(
    alloc: Global,
    text: &[u8],
    instance: &Option<Range>,
    divider: u8,
) -> Result<Bytes, OutOfMemory> {
    let mut lines = Lines::new(alloc);
    if let Some(range) = instance {
        let parts = names(alloc, bytes_of(text, range), divider)?;
        let mut before: &[u8] = b"";
        for name in parts.items() {
            lines.put(before)?;
            lines.put(name.bytes())?;
            before = b".";
        }
    }
    Ok(Bytes::new(lines.into_bytes()))
}

/// A place of a text, where it begins inside.
fn place_in(text: &[u8], range: Range) -> Option<Range>
    ensures { IfSome result (λ place. place.from ≤ length text.now) }
{
    if range.from <= text.len() {
        Some(range)
    } else {
        None
    }
}

/// The warning of so many numbers below 0.
fn tally_text(
    alloc: Global,
    delays: &File<'_>,
    tally: &Tally,
    numbers: usize,
) -> Result<Bytes, OutOfMemory>
    ensures { IfOk result (IsOfClamped delays.now) }
{
    let amount = amount_below(alloc, distance(&tally.least))?;
    let divider = divider_of(delays.text);
    let first = instance_in(alloc, delays.text, &tally.first.instance, divider)?;
    let least = instance_in(alloc, delays.text, &tally.least.instance, divider)?;
    let clamped = Clamped {
        delays: tally.values,
        numbers,
        first: first.items(),
        least: least.items(),
        amount: amount.items(),
    };
    let place = place_in(delays.text, tally.first.range);
    clamped_text(alloc, &clamped, &scene(delays, place))
}

/// The warning of the delays below 0 of a file; no byte where none is found.
fn clamped_warning(alloc: Global, delays: &File<'_>) -> Result<Bytes, OutOfMemory>
    ensures { IfOk result (IsOfClamped delays.now) }
{
    let found = negative_numbers(alloc, delays.text)?;
    match tally_of(found.as_slice()) {
        Some(tally) => tally_text(alloc, delays, &tally, found.len()),
        None => Ok(Bytes::new(Vec::new(alloc))),
    }
}

/// The warnings of the delays below 0 of some files, which are taken as 0, one behind the other; no byte of a file
/// where none is found.
pub fn clamped_warnings(alloc: Global, files: &[File<'_>]) -> Result<Bytes, OutOfMemory>
    ensures { IfOk result (AreOfClamped files.now) }
{
    let mut lines = Lines::new(alloc);
    for file in files {
        lines.put(clamped_warning(alloc, file)?.items())?;
    }
    Ok(Bytes::new(lines.into_bytes()))
}
