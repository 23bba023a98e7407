//! The picture of how a schedule fares.
ghost use Rattle.std.specs.Prelude.{◌≡◌, ◌≤◌, ◌+◌, length, flat_map, pos, ◌≤ℤ◌, All, IfOk, OnOk};
ghost use Rattle.mintc_paths.specs.Trace.{IsPairOf};
ghost use Rattle.mintc_timing.specs.Design.{phase_count};
ghost use Rattle.mintc_timing.specs.Limits.{IsInRange};
ghost use Rattle.mintcx_picture.specs.Pictures.{IsDrawn};
ghost use Rattle.mintcx_picture.specs.Places.{IsScale};
ghost use Rattle.mintcx_chart.specs.Ranges.{IsCycle, IsDrawnTime};
ghost use Rattle.mintcx_chart.specs.Rows.{HasBar, HasBars};
ghost use Rattle.mintcx_chart.specs.Sheets.{IsLane, IsSheet};
ghost use Rattle.mintcx_fares.specs.Drawings.{AreLayers, IsFaresDrawn, IsOfRows, sources};
ghost use Rattle.mintcx_fares.specs.Items.{AreFares, Grows, IsItem, IsMarked};
ghost use Rattle.mintcx_fares.specs.Places.{AreWorst, IsPlace, place_names, two_names};

use crate::bars::{Fare, fare_layer};
use crate::items::{Item, item_of};
use crate::lanes::{arcs_of, element_lane, source_lane};
use crate::places::{Place, places_of};
use crate::words::{SHOWN, second_line};
use mintc_fraction::Fraction;
use mintc_text::{Bytes, Name, OutOfMemory};
use mintcx_chart::{
    Lane, Sheet, Span, Spot, Told, ground_of, parts_layer, push_legend, push_rows, push_word,
    scale_for, shown_subject, title_of, waves_of, with_time,
};
use mintcx_frame::View;
use mintcx_judgements::{Causes, Judged, causes_of};
use mintcx_picture::{Colour, Drawn, Form, Head, Layer, Scale, picture_text};
use std::alloc::Global;

/// What is drawn of a schedule: setups and holds with two rows each, in their order, the first one highest.
#[derive(Drop)]
pub(crate) struct Fares {
    pub(crate) items: Vec<Item>,
    pub(crate) lanes: Vec<Lane>,
}

/// How high the first row of a setup or a hold stands, by its number, counted from 0.
fn top_of(phases: u32, number: usize) -> u32
    requires phases { phases ≤ 8 }
    requires number { number ≤ 6 }
    ensures least { 138 ≤ result }
    ensures most { result ≤ 1194 }
{
    138 + 36 * phases + 128 * number as u32
}

/// Adds a setup or a hold with its rows.
fn push_item(
    fares: &mut Fares,
    alloc: Global,
    causes: &Causes<'_>,
    told: &Told,
    item: Item,
) -> Result<(), OutOfMemory>
    requires in_range { IsInRange told.now.schedule.now }
    requires item { IsItem told.now.flat.now item }
    requires pair { IsPairOf causes.now.told.system.now.pairs item.from item.to }
    requires few { length fares.old.items.items ≤ 5 }
    ensures { OnOk result
        (Grows told.now.flat.now (two_names told.now.flat.now item.from item.to) fares.old fares.new) }
{
    let departures = if item.hold { causes.early } else { causes.late };
    let top = top_of(told.flat.phase_count(), fares.items.len());
    let arcs = arcs_of(alloc, causes.told.system, &item)?;
    let source = source_lane(alloc, told, departures, &item, arcs.items(), top)?;
    let element = element_lane(alloc, told, causes.late, &item, top + 58)?;
    fares.lanes.push(source)?;
    fares.lanes.push(element)?;
    fares.items.push(item)?;
    Ok(())
}

/// Adds the setup or the hold of a place with its rows, where some data decides it.
fn push_place(
    fares: &mut Fares,
    alloc: Global,
    causes: &Causes<'_>,
    told: &Told,
    place: &Place,
) -> Result<(), OutOfMemory>
    requires flat { told.now.flat.now ≡ causes.now.told.system.now.flat }
    requires in_range { IsInRange told.now.schedule.now }
    requires cycle { IsCycle told.now.schedule.now.cycle }
    requires place { IsPlace causes.now.told.system.now.flat place.now }
    requires few { length fares.old.items.items ≤ 5 }
    ensures { OnOk result (Grows told.now.flat.now (place_names causes.now.told.system.now
        causes.now.told.schedule.now causes.now.late.now causes.now.early.now place.now) fares.old fares.new) }
{
    match item_of(causes, told, *place) {
        Some(item) => push_item(fares, alloc, causes, told, item),
        None => Ok(()),
    }
}

/// The setups and holds of these places with their rows.
fn fares_of(
    alloc: Global,
    causes: &Causes<'_>,
    told: &Told,
    places: &[Place],
) -> Result<Fares, OutOfMemory>
    requires flat { told.now.flat.now ≡ causes.now.told.system.now.flat }
    requires in_range { IsInRange told.now.schedule.now }
    requires cycle { IsCycle told.now.schedule.now.cycle }
    requires each { All (IsPlace causes.now.told.system.now.flat) places.now }
    requires few { length places.now ≤ 6 }
    ensures { IfOk result (AreFares told.now.flat.now 6 (flat_map (place_names causes.now.told.system.now
        causes.now.told.schedule.now causes.now.late.now causes.now.early.now) places.now)) }
{
    let mut fares = Fares {
        items: Vec::new(alloc),
        lanes: Vec::new(alloc),
    };
    for place in places {
        push_place(&mut fares, alloc, causes, told, place)?;
    }
    Ok(fares)
}

/// The stretch of time from 0 to the end of the cycle with the times of setups and holds in it.
fn marks_of(cycle: i64, items: &[Item]) -> Span
    requires cycle { IsCycle cycle }
    requires items { All IsMarked items.now }
    ensures first { IsDrawnTime result.first }
    ensures last { IsDrawnTime result.last }
    ensures ordered { result.first ≤ℤ result.last }
{
    let mut span = Span {
        first: 0,
        last: i128::from(cycle),
    };
    for item in items {
        span = with_time(with_time(span, item.come), item.limit);
    }
    span
}

/// Adds the layers of a setup or a hold: the parts of its data, and how it fares.
fn push_fare(
    layers: &mut Vec<Layer>,
    alloc: Global,
    sheet: &Sheet,
    fare: &Fare,
) -> Result<(), OutOfMemory>
    requires sheet { IsSheet sheet.now }
    requires room { IsMarked fare.now.item.now }
    requires source { IsLane fare.now.source.now }
    requires top { fare.now.top ≤ 4000 }
    ensures { OnOk result
        (HasBar sheet.now.scale sheet.now.unit fare.now.source.now layers.old.items layers.new.items) }
{
    let parts = parts_layer(alloc, sheet, fare.source)?;
    let fares = fare_layer(alloc, sheet, fare)?;
    layers.push(parts)?;
    layers.push(fares)?;
    Ok(())
}

/// Adds the layers of setups and holds.
fn push_fares(
    layers: &mut Vec<Layer>,
    alloc: Global,
    sheet: &Sheet,
    items: &[Item],
) -> Result<(), OutOfMemory>
    requires sheet { IsSheet sheet.now }
    requires items { All IsMarked items.now }
    requires lanes { length sheet.now.lanes.now ≡ length items.now + length items.now }
    ensures { OnOk result (HasBars sheet.now.scale sheet.now.unit (sources sheet.now.lanes.now)
        layers.old.items layers.new.items) }
{
    for number in 0..items.len() {
        let at = 2 * number;
        let fare = Fare {
            item: &items[number],
            source: &sheet.lanes[at],
            top: sheet.lanes[at + 1].top,
            more: number + 1 < items.len(),
        };
        push_fare(layers, alloc, sheet, &fare)?;
    }
    Ok(())
}

/// What stands below the rows: the legend, with what is missing where something is.
fn ends_layer(alloc: Global, sheet: &Sheet, items: &[Item]) -> Result<Layer, OutOfMemory>
    requires { IsSheet sheet.now }
{
    let mut forms = Vec::new(alloc);
    let y = sheet.foot + 16;
    let x = push_legend(&mut forms, alloc, sheet, y)?;
    if items.iter().any(|item| !item.is_kept()) {
        push_word(
            &mut forms,
            alloc,
            Spot { x, y },
            Colour::Missing,
            b"missing",
        )?;
    }
    Ok(Layer::new(forms))
}

/// The layers of the picture.
fn layers_of(
    alloc: Global,
    sheet: &Sheet,
    items: &[Item],
    subject: &[u8],
    second: Name,
) -> Result<Vec<Layer>, OutOfMemory>
    requires sheet { IsSheet sheet.now }
    requires items { All IsMarked items.now }
    requires lanes { length sheet.now.lanes.now ≡ length items.now + length items.now }
    ensures { IfOk result
        (λ layers. AreLayers sheet.now.scale sheet.now.unit sheet.now.lanes.now layers.items) }
{
    let ground = ground_of(alloc, sheet, subject, second)?;
    let ends = ends_layer(alloc, sheet, items)?;
    let mut layers = vec![in alloc; ground]?;
    push_rows(&mut layers, alloc, sheet)?;
    push_fares(&mut layers, alloc, sheet, items)?;
    layers.push(ends)?;
    Ok(layers)
}

/// How many violations there are, and how many setups and broken holds.
#[derive(Clone, Copy)]
struct Counts {
    violations: usize,
    all: usize,
}

/// What stands before the layers.
fn head_of(
    alloc: Global,
    sheet: &Sheet,
    counts: Counts,
    subject: &[u8],
) -> Result<Head, OutOfMemory>
    requires { IsSheet sheet.now }
{
    let title = title_of(alloc, sheet, subject)?;
    let about = second_line(alloc, counts.violations, counts.all)?;
    Ok(Head {
        width: sheet.scale.edge() + 28,
        height: sheet.foot + 50,
        title,
        about,
    })
}

/// The picture of what is on a sheet.
fn picture_of(
    alloc: Global,
    sheet: &Sheet,
    items: &[Item],
    counts: Counts,
    subject: &[u8],
) -> Result<Bytes, OutOfMemory>
    requires sheet { IsSheet sheet.now }
    requires items { All IsMarked items.now }
    requires lanes { length sheet.now.lanes.now ≡ length items.now + length items.now }
    ensures { IfOk result (IsOfRows sheet.now.scale sheet.now.unit sheet.now.lanes.now) }
{
    let subject = shown_subject(alloc, subject)?;
    let head = head_of(alloc, sheet, counts, subject.bytes())?;
    let second = second_line(alloc, counts.violations, counts.all)?;
    let layers = layers_of(alloc, sheet, items, subject.bytes(), second)?;
    picture_text(alloc, &head, &layers)
}

/// The picture of setups and holds on a scale.
fn on_scale(
    alloc: Global,
    told: &Told,
    fares: &Fares,
    counts: Counts,
    scale: Scale,
    subject: &[u8],
) -> Result<Bytes, OutOfMemory>
    requires in_range { IsInRange told.now.schedule.now }
    requires cycle { IsCycle told.now.schedule.now.cycle }
    requires few { length fares.now.items.items ≤ 6 }
    requires items { All IsMarked fares.now.items.items }
    requires lanes { All IsLane fares.now.lanes.items }
    requires rows { length fares.now.lanes.items ≡ length fares.now.items.items + length fares.now.items.items }
    requires scale { IsScale scale }
    ensures { IfOk result (IsOfRows scale told.now.unit fares.now.lanes.items) }
{
    let waves = waves_of(alloc, told.flat, told.schedule)?;
    let sheet = Sheet {
        lanes: &fares.lanes,
        waves: &waves,
        scale,
        den: told.schedule.den,
        cycle: told.schedule.cycle,
        unit: told.unit,
        table: told.table,
        foot: top_of(told.flat.phase_count(), fares.items.len()) + 6,
    };
    picture_of(alloc, &sheet, &fares.items, counts, subject)
}

/// The picture of these places of setups and holds, the worst off first, with the data that decides them.
fn places_picture(
    alloc: Global,
    causes: &Causes<'_>,
    told: &Told,
    places: &[Place],
    violations: usize,
    subject: &[u8],
) -> Result<Drawn, OutOfMemory>
    requires flat { told.now.flat.now ≡ causes.now.told.system.now.flat }
    requires schedule { told.now.schedule.now ≡ causes.now.told.schedule.now }
    requires in_range { IsInRange told.now.schedule.now }
    requires cycle { IsCycle told.now.schedule.now.cycle }
    requires worst { AreWorst causes.now.told.system.now causes.now.told.schedule.now causes.now.late.now
        causes.now.early.now places.now }
    requires each { All (IsPlace causes.now.told.system.now.flat) places.now }
    ensures { IfOk result (IsFaresDrawn causes.now.told.system.now causes.now.told.schedule.now
        causes.now.late.now causes.now.early.now) }
{
    let all = places.len();
    let fares = fares_of(alloc, causes, told, &places[..all.min(SHOWN)])?;
    let (den, cycle) = (told.schedule.den, told.schedule.cycle);
    let marks = marks_of(cycle, &fares.items);
    match scale_for(den, cycle, &fares.lanes, marks) {
        Some(scale) => {
            let counts = Counts { violations, all };
            let text = on_scale(alloc, told, &fares, counts, scale, subject)?;
            Ok(Drawn::Picture(text))
        }
        None => Ok(Drawn::TooLong),
    }
}

/// The picture of a schedule with so many violations, with the data that decides.
fn causes_picture(
    alloc: Global,
    causes: &Causes<'_>,
    violations: usize,
    table: bool,
    subject: &[u8],
) -> Result<Drawn, OutOfMemory>
    requires { pos 1 ≤ℤ causes.now.told.schedule.now.cycle }
    ensures { IfOk result (IsFaresDrawn causes.now.told.system.now causes.now.told.schedule.now
        causes.now.late.now causes.now.early.now) }
{
    let told = Told {
        flat: causes.told.flat(),
        schedule: causes.told.schedule,
        unit: causes.told.unit,
        table,
    };
    let places = places_of(alloc, causes)?;
    places_picture(alloc, causes, &told, &places, violations, subject)
}

/// The picture of how a schedule with so many violations fares: the setups and the broken holds that are worst off. It
/// says whether the design is a table, as the arcs of a table are called by the bits that they enter. Nothing is drawn
/// where no element departs at the latest, as data never settles.
pub fn fares_picture(
    alloc: Global,
    judged: &Judged<'_>,
    violations: usize,
    table: bool,
    view: &View,
) -> Result<Drawn, OutOfMemory>
    requires in_range { IsInRange judged.now.schedule.now }
    requires phases { length judged.now.schedule.now.starts ≡ phase_count judged.now.system.now.flat }
    ensures drawn { IfOk result IsDrawn }
    ensures fares { IfOk result (IsFaresDrawn judged.now.system.now judged.now.schedule.now judged.now.late.now
        judged.now.early.now) }
{
    let schedule = judged.schedule;
    if schedule.cycle <= 0 {
        return Ok(Drawn::NoCycle);
    }
    if judged.late.is_empty() && judged.system.flat().element_count() > 0 {
        return Ok(Drawn::Unsettled);
    }
    let cycle = Fraction::new(i128::from(schedule.cycle), i128::from(schedule.den));
    let causes = causes_of(alloc, judged, view.unit_for(&cycle))?;
    causes_picture(alloc, &causes, violations, table, view.subject.bytes())
}
