//! The waves of the phases.
ghost use Rattle.std.specs.Prelude.{◌≡◌, ◌≤◌, length, All, IfOk};
ghost use Rattle.mintc_timing.specs.Design.{phase_count};
ghost use Rattle.mintc_timing.specs.Limits.{IsDenominator, IsInRange, IsNumerator};
ghost use Rattle.mintcx_picture.specs.Places.{IsScale};
ghost use Rattle.mintcx_chart.specs.Ranges.{IsHeight};
ghost use Rattle.mintcx_chart.specs.Sheets.{IsSheet, IsWave};

use crate::sheet::{Beam, Sheet, Spot, beam_of, bold_words, soft_words, stroke};
use crate::told::{number_at, phase_at};
use crate::windows::{Window, windows_of};
use mintc_fraction::Fraction;
use mintc_text::{Lines, Name, OutOfMemory};
use mintc_timing::{Flat, Schedule};
use mintcx_amounts::{Unit, put_amount};
use mintcx_picture::{Anchor, Colour, Form, LEFT, Paint, Scale, Step, cut};
use std::alloc::Global;

/// A phase: its name, when it starts, and how wide it is.
#[derive(Drop)]
pub struct Wave {
    pub name: Name,
    pub start: i64,
    pub width: i64,
}

/// The phase at a place of the phases of a design.
fn wave_at(alloc: Global, flat: &Flat, schedule: &Schedule, at: usize) -> Result<Wave, OutOfMemory>
    requires { IsInRange schedule.now }
    ensures { IfOk result IsWave }
{
    Ok(Wave {
        name: Name::new(alloc, phase_at(flat, at))?,
        start: number_at(schedule.starts.items(), at),
        width: number_at(schedule.widths.items(), at),
    })
}

/// The phases of a design.
pub fn waves_of(alloc: Global, flat: &Flat, schedule: &Schedule) -> Result<Vec<Wave>, OutOfMemory>
    requires { IsInRange schedule.now }
    ensures each { IfOk result (λ waves. All IsWave waves.items) }
    ensures count { IfOk result (λ waves. length waves.items ≡ phase_count flat.now) }
{
    let mut waves = Vec::new(alloc);
    for at in 0..flat.phase_count() {
        waves.push(wave_at(alloc, flat, schedule, at as usize)?)?;
    }
    Ok(waves)
}

/// Writes a time over a denominator, without its unit.
fn put_amount_of(lines: &mut Lines, unit: Unit, den: i64, time: i64) -> Result<(), OutOfMemory>
    requires { IsDenominator den }
{
    let amount = Fraction::new(i128::from(time), i128::from(den));
    put_amount(lines, &amount, unit)
}

/// When a phase starts, and how wide it is, in words.
fn wave_words(alloc: Global, sheet: &Sheet, wave: &Wave) -> Result<Name, OutOfMemory>
    requires { IsSheet sheet.now }
{
    let mut lines = Lines::new(alloc);
    lines.put(b"from ")?;
    put_amount_of(&mut lines, sheet.unit, sheet.den, wave.start)?;
    lines.put(b", ")?;
    put_amount_of(&mut lines, sheet.unit, sheet.den, wave.width)?;
    lines.put(b" wide")?;
    cut(alloc, &lines.into_bytes(), 35)
}

/// Adds the window of a phase, where some of it shows.
fn push_window(
    forms: &mut Vec<Form>,
    scale: &Scale,
    window: &Window,
    y: u32,
) -> Result<(), OutOfMemory>
    requires scale { IsScale scale.now }
    requires y { IsHeight y }
{
    let from = scale.place(window.from);
    let to = scale.place(window.to);
    if to <= from {
        return Ok(());
    }
    let beam = Beam {
        from,
        to,
        y: y + 8,
        height: 20,
    };
    forms.push(beam_of(beam, Paint::Filled(Colour::Open), None))?;
    Ok(())
}

/// Adds the steps of a wave along a window.
fn push_wave_steps(
    steps: &mut Vec<Step>,
    scale: &Scale,
    window: &Window,
    y: u32,
) -> Result<(), OutOfMemory>
    requires scale { IsScale scale.now }
    requires y { IsHeight y }
{
    if window.from >= scale.first {
        steps.push(Step::Across(scale.place(window.from)))?;
        steps.push(Step::Down(y + 8))?;
    }
    if window.to <= scale.last {
        steps.push(Step::Across(scale.place(window.to)))?;
        steps.push(Step::Down(y + 28))?;
    }
    Ok(())
}

/// How high a wave begins: it is up where its first window began before the stretch.
fn wave_start(scale: &Scale, windows: &[Window], y: u32) -> u32
    requires { IsHeight y }
{
    match windows.first() {
        Some(window) if window.from < scale.first => y + 8,
        _ => y + 28,
    }
}

/// The steps of a wave with these windows.
fn wave_steps(
    alloc: Global,
    scale: &Scale,
    windows: &[Window],
    y: u32,
) -> Result<Vec<Step>, OutOfMemory>
    requires scale { IsScale scale.now }
    requires y { IsHeight y }
{
    let start = Step::Move {
        x: LEFT,
        y: wave_start(scale, windows, y),
    };
    let mut steps = vec![in alloc; start]?;
    for window in windows {
        push_wave_steps(&mut steps, scale, window, y)?;
    }
    steps.push(Step::Across(scale.edge()))?;
    Ok(steps)
}

/// Adds the name of a phase and its times.
fn push_wave_words(
    forms: &mut Vec<Form>,
    alloc: Global,
    sheet: &Sheet,
    wave: &Wave,
    y: u32,
) -> Result<(), OutOfMemory>
    requires sheet { IsSheet sheet.now }
    requires y { IsHeight y }
{
    let name = cut(alloc, wave.name.bytes(), 30)?;
    let named = Spot { x: 20, y: y + 17 };
    forms.push(bold_words(named, name, 12, Anchor::Start))?;
    let timed = Spot { x: 20, y: y + 31 };
    forms.push(soft_words(timed, wave_words(alloc, sheet, wave)?))?;
    Ok(())
}

/// Adds the windows of a phase and its wave.
fn push_wave_windows(
    forms: &mut Vec<Form>,
    alloc: Global,
    sheet: &Sheet,
    windows: &[Window],
    y: u32,
) -> Result<(), OutOfMemory>
    requires sheet { IsSheet sheet.now }
    requires y { IsHeight y }
{
    for window in windows {
        push_window(forms, &sheet.scale, window, y)?;
    }
    let steps = wave_steps(alloc, &sheet.scale, windows, y)?;
    forms.push(stroke(steps, Colour::Ink, 2))?;
    Ok(())
}

/// Adds a phase.
fn push_wave(
    forms: &mut Vec<Form>,
    alloc: Global,
    sheet: &Sheet,
    wave: &Wave,
    y: u32,
) -> Result<(), OutOfMemory>
    requires sheet { IsSheet sheet.now }
    requires wave { IsWave wave.now }
    requires y { IsHeight y }
{
    push_wave_words(forms, alloc, sheet, wave, y)?;
    let windows = windows_of(alloc, &sheet.scale, sheet.cycle, wave.start, wave.width)?;
    push_wave_windows(forms, alloc, sheet, &windows, y)
}

/// Adds the phases, and the line below them.
pub(crate) fn push_waves(
    forms: &mut Vec<Form>,
    alloc: Global,
    sheet: &Sheet,
) -> Result<(), OutOfMemory>
    requires { IsSheet sheet.now }
{
    let count = sheet.waves.len() as u32;
    for at in 0..count {
        push_wave(
            forms,
            alloc,
            sheet,
            &sheet.waves[at as usize],
            118 + 36 * at,
        )?;
    }
    let y = 128 + 36 * count;
    let steps = vec![in alloc; Step::Move { x: 20, y }, Step::Across(sheet.scale.edge())]?;
    forms.push(stroke(steps, Colour::Edge, 1))?;
    Ok(())
}
