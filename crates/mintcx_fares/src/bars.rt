//! How setups and holds fare: the data that comes, by when it has to, and what is missing.
ghost use Rattle.std.specs.Prelude.{◌≤◌};
ghost use Rattle.mintcx_chart.specs.Ranges.{IsAcross};
ghost use Rattle.mintcx_chart.specs.Sheets.{IsLane, IsSheet};
ghost use Rattle.mintcx_judgements.specs.Shown.{IsLong};

use crate::items::Item;
use crate::words::room_words;
use mintc_text::{Name, OutOfMemory};
use mintcx_chart::{
    Beam, Lane, Sheet, arrow_begins, beam_of, push_arrow, push_delay, push_joint, stroke,
};
use mintcx_picture::{Anchor, Colour, Form, Label, Layer, Paint, Step, room};
use std::alloc::Global;

/// Adds what is missing of a setup or a hold, where it is broken: from when data may come to when it does.
fn push_missing(
    forms: &mut Vec<Form>,
    alloc: Global,
    sheet: &Sheet,
    item: &Item,
    top: u32,
) -> Result<(), OutOfMemory>
    requires sheet { IsSheet sheet.now }
    requires room { IsLong item.now.room }
    requires top { top ≤ 4000 }
{
    if item.is_kept() {
        return Ok(());
    }
    let tip = room_words(alloc, sheet.unit, sheet.den, item.room, item.hold)?;
    let beam = Beam {
        from: sheet.scale.place(item.limit),
        to: sheet.scale.place(item.come),
        y: top + 30,
        height: 18,
    };
    forms.push(beam_of(beam, Paint::Filled(Colour::Missing), Some(tip)))?;
    Ok(())
}

/// Adds the line by which data has to come, or from which on it may.
fn push_limit(
    forms: &mut Vec<Form>,
    alloc: Global,
    sheet: &Sheet,
    item: &Item,
    top: u32,
) -> Result<(), OutOfMemory>
    requires sheet { IsSheet sheet.now }
    requires top { top ≤ 4000 }
{
    let x = sheet.scale.place(item.limit);
    let colour = if item.is_kept() {
        Colour::Ink
    } else {
        Colour::Missing
    };
    let steps = vec![in alloc; Step::Move { x, y: top + 4 }, Step::Down(top + 48)]?;
    forms.push(stroke(steps, colour, 2))?;
    Ok(())
}

/// Adds the arrow from the data of a row to the row below it.
fn push_coming(
    forms: &mut Vec<Form>,
    alloc: Global,
    sheet: &Sheet,
    source: &Lane,
    item: &Item,
    top: u32,
) -> Result<(), OutOfMemory>
    requires sheet { IsSheet sheet.now }
    requires source { IsLane source.now }
    requires top { top ≤ 4000 }
{
    let x = sheet.scale.place(item.come);
    let ends = if item.is_kept() { top + 7 } else { top + 29 };
    push_arrow(forms, alloc, x, arrow_begins(source), ends)
}

/// A text at a height, in red and bold where something is missing.
fn room_label(text: Name, kept: bool, x: u32, y: u32, anchor: Anchor) -> Form {
    Form::Text(Label {
        x,
        y,
        text,
        size: 12,
        fill: if kept { Colour::Soft } else { Colour::Missing },
        anchor,
        bold: !kept,
    })
}

/// Before what the words of a setup or a hold stand, and behind what, in pixels from the left: the line, or, where
/// something is missing, the two ends of the red bar.
#[derive(Clone, Copy)]
struct Ends {
    lesser: u32,
    greater: u32,
}

/// Before what the words of a setup or a hold stand, and behind what.
fn ends_of(sheet: &Sheet, item: &Item) -> Ends
    requires { IsSheet sheet.now }
    ensures lesser { IsAcross result.lesser }
    ensures greater { IsAcross result.greater }
{
    let limit = sheet.scale.place(item.limit);
    if item.is_kept() {
        return Ends {
            lesser: limit,
            greater: limit,
        };
    }
    let come = sheet.scale.place(item.come);
    Ends {
        lesser: limit.min(come),
        greater: limit.max(come),
    }
}

/// Adds how much room there is, or how much is missing, in words: behind the line and, where something is missing, the
/// red bar; or before them where there is no room.
fn push_room(
    forms: &mut Vec<Form>,
    alloc: Global,
    sheet: &Sheet,
    item: &Item,
    top: u32,
) -> Result<(), OutOfMemory>
    requires sheet { IsSheet sheet.now }
    requires room { IsLong item.now.room }
    requires top { top ≤ 4000 }
{
    let kept = item.is_kept();
    let Ends { lesser, greater } = ends_of(sheet, item);
    let text = room_words(alloc, sheet.unit, sheet.den, item.room, item.hold)?;
    let wide = room(text.bytes().len(), 12);
    let y = top + 43;
    let label = if greater + 8 + wide <= sheet.scale.edge() {
        room_label(text, kept, greater + 8, y, Anchor::Start)
    } else {
        room_label(text, kept, lesser - 8, y, Anchor::End)
    };
    forms.push(label)?;
    Ok(())
}

/// Adds the line below a setup or a hold, where another one follows.
fn push_between(
    forms: &mut Vec<Form>,
    alloc: Global,
    sheet: &Sheet,
    top: u32,
    more: bool,
) -> Result<(), OutOfMemory>
    requires sheet { IsSheet sheet.now }
    requires top { top ≤ 4000 }
{
    if !more {
        return Ok(());
    }
    let steps = vec![in alloc;
        Step::Move { x: 20, y: top + 60 },
        Step::Across(sheet.scale.edge()),
    ]?;
    forms.push(stroke(steps, Colour::Grid, 1))?;
    Ok(())
}

/// A setup or a hold as it is drawn: the row from which its data comes, how high the row of its element stands, and
/// whether another one follows.
#[derive(Clone, Copy)]
pub(crate) struct Fare<'a> {
    pub(crate) item: &'a Item,
    pub(crate) source: &'a Lane,
    pub(crate) top: u32,
    pub(crate) more: bool,
}

/// How a setup or a hold fares.
pub(crate) fn fare_layer(alloc: Global, sheet: &Sheet, fare: &Fare) -> Result<Layer, OutOfMemory>
    requires sheet { IsSheet sheet.now }
    requires source { IsLane fare.now.source.now }
    requires room { IsLong fare.now.item.now.room }
    requires top { fare.now.top ≤ 4000 }
{
    let Fare {
        item,
        source,
        top,
        more,
    } = *fare;
    let mut forms = Vec::new(alloc);
    push_joint(&mut forms, alloc, source, sheet.scale.place(source.at))?;
    push_delay(&mut forms, alloc, sheet, source)?;
    push_missing(&mut forms, alloc, sheet, item, top)?;
    push_limit(&mut forms, alloc, sheet, item, top)?;
    push_coming(&mut forms, alloc, sheet, source, item, top)?;
    push_room(&mut forms, alloc, sheet, item, top)?;
    push_between(&mut forms, alloc, sheet, top, more)?;
    Ok(Layer::new(forms))
}
