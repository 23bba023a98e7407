//! The words and the windows of rows: their names, what is noted of them, and when their elements are open.
ghost use Rattle.std.specs.Prelude.{◌≡◌, ◌≤◌, IfOk, OnOk};
ghost use Rattle.mintcx_chart.specs.Ranges.{IsAcross, IsHeight};
ghost use Rattle.mintcx_chart.specs.Rows.{name_height, note_height, row_words, HasRow, HasRows};
ghost use Rattle.mintcx_chart.specs.Sheets.{IsLane, IsSheet};

use crate::lanes::{Kind, Lane};
use crate::sheet::{Beam, Sheet, Spot, beam_of, bold_words, filled, soft_words, stroke};
use crate::stretch::own_window;
use crate::times::span_time;
use crate::windows::{Window, windows_of};
use crate::wording::{borrows_words, word_and_span};
use mintc_text::OutOfMemory;
use mintcx_picture::{Anchor, Colour, Form, LEFT, Layer, Paint, Step, cut};
use std::alloc::Global;

/// How far below the top of a row its name stands.
fn name_height(kind: Kind) -> u32
    ensures value { result ≡ name_height kind }
    ensures few { result ≤ 19 }
{
    match kind {
        Kind::Clock => 14,
        _ => 19,
    }
}

/// How far below the top of a row stands what is noted of it.
fn note_height(kind: Kind) -> u32
    ensures value { result ≡ note_height kind }
    ensures few { result ≤ 35 }
{
    match kind {
        Kind::Clock => 28,
        _ => 35,
    }
}

/// The words of a row: its name, and what is noted of it.
fn words_layer(alloc: Global, lane: &Lane) -> Result<Layer, OutOfMemory>
    requires { IsLane lane.now }
    ensures { IfOk result (λ layer. layer ≡ row_words lane.now) }
{
    let name = cut(alloc, lane.name.bytes(), 30)?;
    let note = cut(alloc, lane.note.bytes(), 35)?;
    let named = Spot {
        x: 20,
        y: lane.top + name_height(lane.kind),
    };
    let noted = Spot {
        x: 20,
        y: lane.top + note_height(lane.kind),
    };
    let first = bold_words(named, name, 12, Anchor::Start);
    let second = soft_words(noted, note);
    Ok(Layer::new(vec![in alloc; first, second]?))
}

/// Adds the edge at which a flop samples.
fn push_sample(
    forms: &mut Vec<Form>,
    alloc: Global,
    x: u32,
    y: u32,
    fill: Colour,
) -> Result<(), OutOfMemory>
    requires x { IsAcross x }
    requires y { IsHeight y }
{
    let steps = vec![in alloc;
        Step::Move {
            x: x - 5,
            y: y + 22
        },
        Step::Line { x, y: y + 12 },
        Step::Line {
            x: x + 5,
            y: y + 22
        },
        Step::Close,
    ]?;
    forms.push(filled(steps, fill))?;
    Ok(())
}

/// The colour of the edge at which a flop samples: that of its row's own lap, or that of others.
fn sample_colour(start: &Window, lane: &Lane) -> Colour {
    if start.lap == i128::from(lane.lap) {
        Colour::Ink
    } else {
        Colour::Faint
    }
}

/// Adds the edges at which a flop samples.
fn push_samples(
    forms: &mut Vec<Form>,
    alloc: Global,
    sheet: &Sheet,
    lane: &Lane,
    starts: &[Window],
) -> Result<(), OutOfMemory>
    requires sheet { IsSheet sheet.now }
    requires lane { IsLane lane.now }
{
    for start in starts {
        let x = sheet.scale.place(start.from);
        push_sample(forms, alloc, x, lane.top, sample_colour(start, lane))?;
    }
    Ok(())
}

/// Adds when a flop samples.
fn push_flop(
    forms: &mut Vec<Form>,
    alloc: Global,
    sheet: &Sheet,
    lane: &Lane,
) -> Result<(), OutOfMemory>
    requires sheet { IsSheet sheet.now }
    requires lane { IsLane lane.now }
{
    let y = lane.top + 22;
    let steps = vec![in alloc; Step::Move { x: LEFT, y }, Step::Across(sheet.scale.edge())]?;
    forms.push(stroke(steps, Colour::Other, 2))?;
    let starts = windows_of(alloc, &sheet.scale, sheet.cycle, lane.start, 0)?;
    push_samples(forms, alloc, sheet, lane, &starts)
}

/// The beam of a latch from one time to another.
fn beam_between(sheet: &Sheet, lane: &Lane, from: i128, to: i128) -> Beam
    requires sheet { IsSheet sheet.now }
    requires lane { IsLane lane.now }
{
    Beam {
        from: sheet.scale.place(from),
        to: sheet.scale.place(to),
        y: lane.top + 8,
        height: 14,
    }
}

/// The colour of a window: that of its row's own lap, or that of others.
fn window_colour(window: &Window, lane: &Lane) -> Colour {
    if window.lap == i128::from(lane.lap) {
        Colour::Open
    } else {
        Colour::Other
    }
}

/// Adds the setup of a latch, where it has one.
fn push_setup(
    forms: &mut Vec<Form>,
    alloc: Global,
    sheet: &Sheet,
    lane: &Lane,
) -> Result<(), OutOfMemory>
    requires sheet { IsSheet sheet.now }
    requires lane { IsLane lane.now }
{
    if lane.setup <= 0 {
        return Ok(());
    }
    let ends = own_window(sheet.cycle, lane).last;
    let begins = ends - i128::from(span_time(lane.setup, sheet.den));
    let tip = word_and_span(alloc, b"setup", sheet.unit, lane.setup)?;
    let beam = beam_between(sheet, lane, begins, ends);
    forms.push(beam_of(beam, Paint::Filled(Colour::Setup), Some(tip)))?;
    Ok(())
}

/// Adds what a latch borrows, where it does.
fn push_lent(
    forms: &mut Vec<Form>,
    alloc: Global,
    sheet: &Sheet,
    lane: &Lane,
) -> Result<(), OutOfMemory>
    requires sheet { IsSheet sheet.now }
    requires lane { IsLane lane.now }
{
    if lane.borrowed <= 0 {
        return Ok(());
    }
    let begins = own_window(sheet.cycle, lane).first;
    let tip = borrows_words(alloc, sheet.unit, sheet.den, lane.borrowed)?;
    let beam = beam_between(sheet, lane, begins, lane.at);
    forms.push(beam_of(beam, Paint::Filled(Colour::Lent), Some(tip)))?;
    Ok(())
}

/// Adds the windows of a latch.
fn push_windows(
    forms: &mut Vec<Form>,
    sheet: &Sheet,
    lane: &Lane,
    windows: &[Window],
) -> Result<(), OutOfMemory>
    requires sheet { IsSheet sheet.now }
    requires lane { IsLane lane.now }
{
    for window in windows {
        let beam = beam_between(sheet, lane, window.from, window.to);
        forms.push(beam_of(beam, Paint::Filled(window_colour(window, lane)), None))?;
    }
    Ok(())
}

/// Adds the edge of the window of a latch in its row's own lap.
fn push_own(forms: &mut Vec<Form>, sheet: &Sheet, lane: &Lane) -> Result<(), OutOfMemory>
    requires sheet { IsSheet sheet.now }
    requires lane { IsLane lane.now }
{
    let own = own_window(sheet.cycle, lane);
    let beam = beam_between(sheet, lane, own.first, own.last);
    forms.push(beam_of(beam, Paint::Outlined(Colour::Gate), None))?;
    Ok(())
}

/// Adds when a latch is open, its setup and what it borrows.
fn push_latch(
    forms: &mut Vec<Form>,
    alloc: Global,
    sheet: &Sheet,
    lane: &Lane,
) -> Result<(), OutOfMemory>
    requires sheet { IsSheet sheet.now }
    requires lane { IsLane lane.now }
{
    let windows = windows_of(alloc, &sheet.scale, sheet.cycle, lane.start, lane.width)?;
    push_windows(forms, sheet, lane, &windows)?;
    push_setup(forms, alloc, sheet, lane)?;
    push_lent(forms, alloc, sheet, lane)?;
    push_own(forms, sheet, lane)
}

/// When the element of a row is open.
fn windows_layer(alloc: Global, sheet: &Sheet, lane: &Lane) -> Result<Layer, OutOfMemory>
    requires sheet { IsSheet sheet.now }
    requires lane { IsLane lane.now }
{
    let mut forms = Vec::new(alloc);
    match lane.kind {
        Kind::Clock => {}
        Kind::Flop => push_flop(&mut forms, alloc, sheet, lane)?,
        _ => push_latch(&mut forms, alloc, sheet, lane)?,
    }
    Ok(Layer::new(forms))
}

/// Adds the layers of a row.
fn push_row(
    layers: &mut Vec<Layer>,
    alloc: Global,
    sheet: &Sheet,
    lane: &Lane,
) -> Result<(), OutOfMemory>
    requires sheet { IsSheet sheet.now }
    requires lane { IsLane lane.now }
    ensures { OnOk result (HasRow lane.now layers.old.items layers.new.items) }
{
    let words = words_layer(alloc, lane)?;
    let windows = windows_layer(alloc, sheet, lane)?;
    layers.push(words)?;
    layers.push(windows)?;
    Ok(())
}

/// Adds the layers of the rows.
pub fn push_rows(layers: &mut Vec<Layer>, alloc: Global, sheet: &Sheet) -> Result<(), OutOfMemory>
    requires { IsSheet sheet.now }
    ensures { OnOk result (HasRows sheet.now.lanes.now layers.old.items layers.new.items) }
{
    for lane in sheet.lanes {
        push_row(layers, alloc, sheet, lane)?;
    }
    Ok(())
}
