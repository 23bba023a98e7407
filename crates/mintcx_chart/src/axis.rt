//! The axis: the cycles, and the lines of round times.
ghost use Rattle.std.specs.Prelude.{◌≤◌, pos, negsuc, ◌≤ℤ◌};
ghost use Rattle.mintc_timing.specs.Limits.{IsDenominator};
ghost use Rattle.mintcx_chart.specs.Ranges.{IsAcross, IsLap, IsQuotient};
ghost use Rattle.mintcx_chart.specs.Sheets.{IsSheet};

use crate::sheet::{Beam, Sheet, Spot, beam_of, stroke, words};
use crate::times::{lap_time, over_den, steps_time};
use crate::windows::{count_of, quotient};
use crate::wording::name_of;
use mintc_fraction::Fraction;
use mintc_text::{Lines, Name, OutOfMemory};
use mintcx_amounts::put_amount;
use mintcx_picture::{Anchor, Colour, Form, Line, Paint, Step, Steps, room};
use std::alloc::Global;

/// A longer time than any that is drawn.
const LONGEST: i128 = 10_000_000_000_000_000_000_000;

/// The cycle in which a time is, the first one being 0.
fn cycle_at(sheet: &Sheet, time: i128) -> i128
    requires sheet { IsSheet sheet.now }
    requires time { IsQuotient time }
    ensures { IsQuotient result }
{
    quotient(time, i128::from(sheet.cycle))
}

/// The word for a cycle, counted from 1.
fn cycle_words(alloc: Global, cycle: i128) -> Result<Name, OutOfMemory>
    requires { IsLap cycle }
{
    let mut lines = Lines::new(alloc);
    lines.put(b"cycle ")?;
    lines.number(cycle + 1)?;
    name_of(alloc, lines)
}

/// Adds the ground of a cycle that stands from one place to another, where it is an even one.
fn push_zebra(
    forms: &mut Vec<Form>,
    sheet: &Sheet,
    cycle: i128,
    from: u32,
    to: u32,
) -> Result<(), OutOfMemory>
    requires { IsSheet sheet.now }
{
    if cycle.rem_euclid(2) != 0 {
        return Ok(());
    }
    let beam = Beam {
        from,
        to,
        y: 70,
        height: sheet.foot - 70,
    };
    forms.push(beam_of(beam, Paint::Filled(Colour::Zebra), None))?;
    Ok(())
}

/// Adds the word of a cycle that stands from one place to another, where it has room.
fn push_cycle_words(
    forms: &mut Vec<Form>,
    alloc: Global,
    cycle: i128,
    from: u32,
    to: u32,
) -> Result<(), OutOfMemory>
    requires cycle { IsLap cycle }
    requires from { IsAcross from }
    requires to { IsAcross to }
    requires ordered { from ≤ to }
{
    let word = cycle_words(alloc, cycle)?;
    if to - from < room(word.bytes().len(), 11) + 8 {
        return Ok(());
    }
    let spot = Spot {
        x: (from + to) / 2,
        y: 84,
    };
    forms.push(words(spot, word, 11, Colour::Soft, Anchor::Middle))?;
    Ok(())
}

/// Adds a cycle: its ground, and its word.
fn push_cycle(
    forms: &mut Vec<Form>,
    alloc: Global,
    sheet: &Sheet,
    cycle: i128,
) -> Result<(), OutOfMemory>
    requires sheet { IsSheet sheet.now }
    requires low { negsuc 60000000000000000000000 ≤ℤ cycle }
    requires high { cycle ≤ℤ pos 60000000000000000000000 }
{
    let from = sheet.scale.place(lap_time(cycle, sheet.cycle));
    let to = sheet.scale.place(lap_time(cycle + 1, sheet.cycle));
    if to <= from {
        return Ok(());
    }
    push_zebra(forms, sheet, cycle, from, to)?;
    push_cycle_words(forms, alloc, cycle, from, to)
}

/// Adds the cycles that the stretch has a part of.
pub(crate) fn push_cycles(
    forms: &mut Vec<Form>,
    alloc: Global,
    sheet: &Sheet,
) -> Result<(), OutOfMemory>
    requires { IsSheet sheet.now }
{
    let first = cycle_at(sheet, sheet.scale.first);
    let last = cycle_at(sheet, sheet.scale.last);
    for number in 0..count_of(first, last) {
        push_cycle(forms, alloc, sheet, first + i128::from(number))?;
    }
    Ok(())
}

/// A round number: 1, 2 or 5 times a power of ten.
#[derive(Clone, Copy)]
struct Round {
    digit: u32,
    power: i128,
}

/// The next round number. Powers go no further than 10^18.
fn next_round(round: Round) -> Round
    requires some { pos 1 ≤ℤ round.power }
    requires few { round.power ≤ℤ pos 1000000000000000000 }
    ensures some { pos 1 ≤ℤ result.power }
    ensures few { result.power ≤ℤ pos 1000000000000000000 }
    ensures least { 1 ≤ result.digit }
    ensures most { result.digit ≤ 5 }
{
    let Round { digit, power } = round;
    match digit {
        1 => Round { digit: 2, power },
        2 => Round { digit: 5, power },
        _ => Round {
            digit: 1,
            power: (power * 10).min(1_000_000_000_000_000_000),
        },
    }
}

/// How many femtoseconds a round number is.
fn round_time(round: Round) -> i128
    requires some { pos 1 ≤ℤ round.power }
    requires few { round.power ≤ℤ pos 1000000000000000000 }
    requires least { 1 ≤ round.digit }
    requires most { round.digit ≤ 5 }
    ensures some { pos 1 ≤ℤ result }
    ensures few { result ≤ℤ pos 10000000000000000000 }
{
    match round.digit {
        1 => round.power,
        2 => 2 * round.power,
        _ => 5 * round.power,
    }
}

/// How many femtoseconds the lines of the axis are apart: the least round number of which at most 14 fill a span over a
/// denominator.
fn step_of(span: i128, den: i64) -> i128
    requires { IsDenominator den }
    ensures some { pos 1 ≤ℤ result }
    ensures few { result ≤ℤ pos 10000000000000000000 }
{
    let mut round = Round { digit: 1, power: 1 };
    for _ in 0..60u32 {
        if span <= over_den(14 * round_time(round), den) {
            break;
        }
        round = next_round(round);
    }
    round_time(round)
}

/// Adds the line of a time in femtoseconds.
fn push_grid_line(
    forms: &mut Vec<Form>,
    alloc: Global,
    foot: u32,
    x: u32,
) -> Result<(), OutOfMemory> {
    let steps = vec![in alloc; Step::Move { x, y: 106 }, Step::Down(foot)]?;
    forms.push(stroke(steps, Colour::Grid, 1))?;
    Ok(())
}

/// Adds a time in femtoseconds: its line and its words.
fn push_grid_time(
    forms: &mut Vec<Form>,
    alloc: Global,
    sheet: &Sheet,
    time: i128,
) -> Result<(), OutOfMemory>
    requires sheet { IsSheet sheet.now }
    requires low { negsuc 99999999999999999999999 ≤ℤ time }
    requires high { time ≤ℤ pos 100000000000000000000000 }
{
    let x = sheet.scale.place(over_den(time, sheet.den));
    push_grid_line(forms, alloc, sheet.foot, x)?;
    let mut lines = Lines::new(alloc);
    put_amount(&mut lines, &Fraction::new(time, 1), sheet.unit)?;
    let word = name_of(alloc, lines)?;
    let spot = Spot { x, y: 101 };
    forms.push(words(spot, word, 11, Colour::Soft, Anchor::Middle))?;
    Ok(())
}

/// The round times of a stretch of whole femtoseconds: the first one, how far they are apart, and how many they are.
#[derive(Clone, Copy)]
struct Ticks {
    first: i128,
    step: i128,
    count: u32,
}

/// The least multiple of a step that is at least a time.
fn multiple_from(time: i128, step: i128) -> i128
    requires time { IsQuotient time }
    requires some { pos 1 ≤ℤ step }
    requires few { step ≤ℤ pos 10000000000000000000 }
    ensures low { negsuc 59999999999999999999999 ≤ℤ result }
    ensures high { result ≤ℤ pos 60000000000000000000000 }
{
    let past = time.rem_euclid(step);
    if past == 0 { time } else { time - past + step }
}

/// A time that is no longer than any that is drawn, and none below 0 but one.
fn bounded(time: i128) -> i128
    ensures { IsQuotient result }
{
    if time < 0 {
        -1
    } else if time > LONGEST {
        LONGEST
    } else {
        time
    }
}

/// The round times of the stretch.
fn ticks_of(sheet: &Sheet) -> Ticks
    requires { IsSheet sheet.now }
    ensures low { negsuc 59999999999999999999999 ≤ℤ result.first }
    ensures high { result.first ≤ℤ pos 60000000000000000000000 }
    ensures some { pos 1 ≤ℤ result.step }
    ensures few { result.step ≤ℤ pos 10000000000000000000 }
    ensures count { result.count ≤ 1000 }
{
    let den = i128::from(sheet.den);
    let step = step_of(sheet.scale.last - sheet.scale.first, sheet.den);
    let first = multiple_from(-quotient(-sheet.scale.first, den), step);
    let last = quotient(sheet.scale.last, den);
    let count = count_of(0, quotient(bounded(last - first), step));
    Ticks { first, step, count }
}

/// Adds the unit of the times.
fn push_unit(forms: &mut Vec<Form>, alloc: Global, sheet: &Sheet) -> Result<(), OutOfMemory> {
    let unit = Name::new(alloc, sheet.unit.word())?;
    let spot = Spot { x: 258, y: 101 };
    forms.push(words(spot, unit, 11, Colour::Soft, Anchor::End))?;
    Ok(())
}

/// Adds the lines of the round times of the stretch, and their unit.
pub(crate) fn push_grid(
    forms: &mut Vec<Form>,
    alloc: Global,
    sheet: &Sheet,
) -> Result<(), OutOfMemory>
    requires { IsSheet sheet.now }
{
    let ticks = ticks_of(sheet);
    for number in 0..ticks.count {
        let time = ticks.first + steps_time(number, ticks.step);
        push_grid_time(forms, alloc, sheet, time)?;
    }
    push_unit(forms, alloc, sheet)
}

/// Adds the edge at which a cycle begins, where it stands in the stretch.
fn push_edge(
    forms: &mut Vec<Form>,
    alloc: Global,
    sheet: &Sheet,
    cycle: i128,
) -> Result<(), OutOfMemory>
    requires sheet { IsSheet sheet.now }
    requires cycle { IsLap cycle }
{
    let time = lap_time(cycle, sheet.cycle);
    if !sheet.scale.holds(time) {
        return Ok(());
    }
    let x = sheet.scale.place(time);
    let steps = vec![in alloc;
        Step::Move { x, y: 70 },
        Step::Down(88),
        Step::Move { x, y: 106 },
        Step::Down(sheet.foot),
    ]?;
    forms.push(Form::Line(Line {
        steps: Steps::new(steps),
        stroke: Colour::Edge,
        width: 1,
        dashed: true,
    }))?;
    Ok(())
}

/// Adds the edges of the cycles.
pub(crate) fn push_edges(
    forms: &mut Vec<Form>,
    alloc: Global,
    sheet: &Sheet,
) -> Result<(), OutOfMemory>
    requires { IsSheet sheet.now }
{
    let first = cycle_at(sheet, sheet.scale.first);
    let last = cycle_at(sheet, sheet.scale.last);
    for number in 0..count_of(first, last) + 1 {
        push_edge(forms, alloc, sheet, first + i128::from(number))?;
    }
    Ok(())
}
