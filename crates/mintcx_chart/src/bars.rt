//! The bars: what takes the time of each row.
ghost use Rattle.std.specs.Prelude.{◌≡◌, ◌≤◌, [], IfOk, OnOk};
ghost use Rattle.mintcx_picture.specs.Places.{IsScale};
ghost use Rattle.mintcx_chart.specs.Ranges.{IsAcross, IsHeight};
ghost use Rattle.mintcx_chart.specs.Rows.{bar_height, bar_top, part_beam, part_form, AreParts, Extends, HasPart};
ghost use Rattle.mintcx_chart.specs.Sheets.{IsBeam, IsLane, IsSheet};

use crate::lanes::{Kind, Lane};
use crate::parts::{Part, PartKind};
use crate::sheet::{Beam, Sheet, Spot, beam_of, filled, stroke, words};
use crate::wording::{name_of, put_span, word_and_span};
use mintc_text::{Lines, Name, OutOfMemory};
use mintcx_amounts::Unit;
use mintcx_chain::short_name;
use mintcx_picture::{Anchor, Colour, Form, LEFT, Layer, Paint, Scale, Step, room};
use std::alloc::Global;

/// How far below the top of a row its bar stands.
fn bar_top(kind: Kind) -> u32
    ensures value { result ≡ bar_top kind }
    ensures few { result ≤ 30 }
{
    match kind {
        Kind::Clock => 9,
        _ => 30,
    }
}

/// How high the bar of a row is.
fn bar_height(kind: Kind) -> u32
    ensures { result ≡ bar_height kind }
{
    match kind {
        Kind::Clock => 10,
        _ => 18,
    }
}

/// From where to where the bar of a part goes.
fn part_beam(scale: &Scale, lane: &Lane, part: &Part) -> Beam
    requires scale { IsScale scale.now }
    requires lane { IsLane lane.now }
    ensures value { result ≡ part_beam scale.now lane.now part.now }
    ensures beam { IsBeam result }
{
    Beam {
        from: scale.place(part.from),
        to: scale.place(part.to),
        y: lane.top + bar_top(lane.kind),
        height: bar_height(lane.kind),
    }
}

/// The colour of a part. Gates have two in turns.
fn part_colour(kind: PartKind, even: bool) -> Colour {
    match kind {
        PartKind::Own => Colour::Own,
        PartKind::Gate if even => Colour::Gate,
        PartKind::Gate => Colour::Next,
        PartKind::Wire => Colour::Wire,
        PartKind::Setup => Colour::Setup,
        PartKind::Rule => Colour::Rule,
    }
}

/// Whether a small text has room in so many pixels.
fn fits(text: &[u8], width: u32) -> bool {
    room(text.len(), 11) + 6 <= width
}

/// The words for a gate in so many pixels: its name, or in files what stands behind the last point of it.
fn gate_words(table: bool, name: &[u8], width: u32) -> &[u8] {
    if table || fits(name, width) {
        name
    } else {
        short_name(name)
    }
}

/// The words for the delay of an element.
fn own_words(kind: Kind) -> &'static [u8] {
    match kind {
        Kind::Flop => b"C-Q",
        Kind::Input => b"in",
        _ => b"D-Q",
    }
}

/// The words in a part that is so many pixels wide.
fn part_words<'a>(sheet: &Sheet, lane: &Lane, part: &'a Part, width: u32) -> &'a [u8] {
    match part.kind {
        PartKind::Own => own_words(lane.kind),
        PartKind::Gate => gate_words(sheet.table, part.name.bytes(), width),
        PartKind::Setup => b"setup",
        PartKind::Wire | PartKind::Rule => b"",
    }
}

/// Adds the words in a part, where there are some and they have room.
fn push_part_words(
    forms: &mut Vec<Form>,
    alloc: Global,
    text: &[u8],
    beam: Beam,
) -> Result<(), OutOfMemory>
    requires { IsBeam beam }
    ensures { OnOk result (Extends forms.old.items forms.new.items) }
{
    if text.is_empty() || !fits(text, beam.width()) {
        return Ok(());
    }
    let spot = Spot {
        x: (beam.from + beam.to) / 2,
        y: beam.y + 13,
    };
    let name = Name::new(alloc, text)?;
    forms.push(words(spot, name, 11, Colour::Paper, Anchor::Middle))?;
    Ok(())
}

/// The bar of a part in a colour.
fn part_form(
    alloc: Global,
    scale: &Scale,
    unit: Unit,
    lane: &Lane,
    colour: Colour,
    part: &Part,
) -> Result<Form, OutOfMemory>
    requires scale { IsScale scale.now }
    requires lane { IsLane lane.now }
    ensures { IfOk result (λ form. form ≡ part_form scale.now unit lane.now colour part.now) }
{
    let tip = word_and_span(alloc, part.name.bytes(), unit, part.delay)?;
    let beam = part_beam(scale, lane, part);
    Ok(beam_of(beam, Paint::Filled(colour), Some(tip)))
}

/// Adds a part of a row's bar.
fn push_part(
    forms: &mut Vec<Form>,
    alloc: Global,
    sheet: &Sheet,
    lane: &Lane,
    part: &Part,
    even: bool,
) -> Result<(), OutOfMemory>
    requires sheet { IsSheet sheet.now }
    requires lane { IsLane lane.now }
    ensures { OnOk result
        (HasPart sheet.now.scale sheet.now.unit lane.now part.now forms.old.items forms.new.items) }
{
    let colour = part_colour(part.kind, even);
    let form = part_form(alloc, &sheet.scale, sheet.unit, lane, colour, part)?;
    forms.push(form)?;
    let beam = part_beam(&sheet.scale, lane, part);
    push_part_words(
        forms,
        alloc,
        part_words(sheet, lane, part, beam.width()),
        beam,
    )
}

/// Adds the parts of a row's bar.
fn push_parts(
    forms: &mut Vec<Form>,
    alloc: Global,
    sheet: &Sheet,
    lane: &Lane,
) -> Result<(), OutOfMemory>
    requires sheet { IsSheet sheet.now }
    requires lane { IsLane lane.now }
    requires none { forms.old.items ≡ [] }
    ensures { OnOk result
        (AreParts sheet.now.scale sheet.now.unit lane.now lane.now.parts forms.new.items) }
{
    let mut even = true;
    for part in lane.parts.items() {
        push_part(forms, alloc, sheet, lane, part, even)?;
        even = even != (part.kind == PartKind::Gate);
    }
    Ok(())
}

/// Adds the sign of a moment of the clock.
pub fn push_diamond(forms: &mut Vec<Form>, alloc: Global, x: u32, y: u32) -> Result<(), OutOfMemory>
    requires x { IsAcross x }
    requires y { IsHeight y }
{
    let steps = vec![in alloc;
        Step::Move {
            x: x - 6,
            y: y + 14
        },
        Step::Line { x, y: y + 8 },
        Step::Line {
            x: x + 6,
            y: y + 14
        },
        Step::Line { x, y: y + 20 },
        Step::Close,
    ]?;
    forms.push(filled(steps, Colour::Ink))?;
    Ok(())
}

/// Adds what joins a row to its bar: the sign of a moment of the clock, or a line down where there is a bar.
pub fn push_joint(
    forms: &mut Vec<Form>,
    alloc: Global,
    lane: &Lane,
    x: u32,
) -> Result<(), OutOfMemory>
    requires lane { IsLane lane.now }
    requires x { IsAcross x }
{
    if lane.kind == Kind::Clock {
        return push_diamond(forms, alloc, x, lane.top);
    }
    if lane.parts.items().is_empty() {
        return Ok(());
    }
    let steps = vec![in alloc;
        Step::Move {
            x,
            y: lane.top + 22
        },
        Step::Down(lane.top + 30),
    ]?;
    forms.push(stroke(steps, Colour::Own, 1))?;
    Ok(())
}

/// Adds a delay in words behind a bar from one place to another, or else before it, where there is room.
fn push_delay_words(
    forms: &mut Vec<Form>,
    text: Name,
    sheet: &Sheet,
    beam: Beam,
) -> Result<(), OutOfMemory>
    requires sheet { IsSheet sheet.now }
    requires beam { IsBeam beam }
{
    let room = room(text.bytes().len(), 11);
    let (lesser, greater) = (beam.from.min(beam.to), beam.from.max(beam.to));
    if greater + 8 + room <= sheet.scale.edge() {
        let spot = Spot {
            x: greater + 8,
            y: beam.y,
        };
        forms.push(words(spot, text, 11, Colour::Ink, Anchor::Start))?;
    } else if lesser >= LEFT + 8 + room {
        let spot = Spot {
            x: lesser - 8,
            y: beam.y,
        };
        forms.push(words(spot, text, 11, Colour::Ink, Anchor::End))?;
    }
    Ok(())
}

/// Adds the delay of a row in words, where it has parts.
pub fn push_delay(
    forms: &mut Vec<Form>,
    alloc: Global,
    sheet: &Sheet,
    lane: &Lane,
) -> Result<(), OutOfMemory>
    requires sheet { IsSheet sheet.now }
    requires lane { IsLane lane.now }
{
    if lane.parts.items().is_empty() {
        return Ok(());
    }
    let mut lines = Lines::new(alloc);
    put_span(&mut lines, sheet.unit, lane.delay)?;
    let text = name_of(alloc, lines)?;
    let y = if lane.kind == Kind::Clock {
        lane.top + 18
    } else {
        lane.top + 43
    };
    let beam = Beam {
        from: sheet.scale.place(lane.at),
        to: sheet.scale.place(lane.ends),
        y,
        height: 0,
    };
    push_delay_words(forms, text, sheet, beam)
}

/// Where the arrow out of a row begins.
pub fn arrow_begins(lane: &Lane) -> u32
    requires { IsLane lane.now }
{
    if lane.kind == Kind::Clock {
        lane.top + 20
    } else if lane.parts.items().is_empty() {
        lane.top + 22
    } else {
        lane.top + 48
    }
}

/// Adds an arrow straight down.
pub fn push_arrow(
    forms: &mut Vec<Form>,
    alloc: Global,
    x: u32,
    begins: u32,
    ends: u32,
) -> Result<(), OutOfMemory>
    requires x { IsAcross x }
    requires least { 7 ≤ ends }
{
    let steps = vec![in alloc; Step::Move { x, y: begins }, Step::Down(ends - 5)]?;
    forms.push(stroke(steps, Colour::Own, 2))?;
    let steps = vec![in alloc;
        Step::Move {
            x: x - 4,
            y: ends - 6
        },
        Step::Across(x + 4),
        Step::Line { x, y: ends },
        Step::Close,
    ]?;
    forms.push(filled(steps, Colour::Own))?;
    Ok(())
}

/// The parts of the bar of a row.
pub fn parts_layer(alloc: Global, sheet: &Sheet, lane: &Lane) -> Result<Layer, OutOfMemory>
    requires sheet { IsSheet sheet.now }
    requires lane { IsLane lane.now }
    ensures { IfOk result
        (λ layer. AreParts sheet.now.scale sheet.now.unit lane.now lane.now.parts layer) }
{
    let mut forms = Vec::new(alloc);
    push_parts(&mut forms, alloc, sheet, lane)?;
    Ok(Layer::new(forms))
}
