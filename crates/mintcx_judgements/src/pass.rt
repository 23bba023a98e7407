//! The text of a pass.
ghost use Rattle.std.specs.Prelude.{◌≡◌, ◌<◌, ℕ, ℤ, length, All, IfOk, IfSome};
ghost use Rattle.mintc_timing.specs.Design.{element_count, phase_count};
ghost use Rattle.mintc_timing.specs.Limits.{IsDesign, IsInRange};
ghost use Rattle.mintcx_judgements.specs.Passes.{IsPassText, element_row, room_cell, room_columns, room_head};
ghost use Rattle.mintcx_judgements.specs.Passes.{rooms_grid};
ghost use Rattle.mintcx_judgements.specs.Shown.{IsLong};

use crate::judged::{Causes, Judged, causes_of, cycle_time};
use crate::ranking::Place;
use crate::rooms::{by_room, hold_room, setup_room};
use crate::shown::fraction;
use crate::sources::departure;
use crate::told::Told;
use mintc_text::{Bytes, Lines, Name, Names, OutOfMemory};
use mintcx_columns::{Column, Table};
use mintcx_frame::{
    View, amount_cell, kind_on_phase, put_foot, put_head, put_more, put_phases, shown_rows,
    word_cell,
};
use std::alloc::Global;

/// The columns of the table of rooms.
fn room_columns(alloc: Global) -> Result<Vec<Column>, OutOfMemory>
    ensures { IfOk result (λ columns. columns.items ≡ room_columns) }
{
    let (left, right) = (Column::left(), Column::right());
    Ok(vec![in alloc; right, right, right, right, left, left]?)
}

/// Its first row.
fn room_head(alloc: Global) -> Result<Names, OutOfMemory>
    ensures { IfOk result (λ row. row ≡ room_head) }
{
    let setup = word_cell(alloc, b"setup")?;
    let hold = word_cell(alloc, b"hold")?;
    let late = word_cell(alloc, b"late")?;
    let early = word_cell(alloc, b"early")?;
    let element = word_cell(alloc, b"element")?;
    let on = word_cell(alloc, b"on")?;
    Ok(Names::new(vec![in alloc; setup, hold, late, early, element, on]?))
}

/// A room as a cell, empty where there is none.
fn room_cell(alloc: Global, told: &Told<'_>, room: Option<i128>) -> Result<Name, OutOfMemory>
    requires { IfSome room IsLong }
    ensures { IfOk result (λ cell. cell ≡ room_cell told.now.unit told.now.schedule.now room) }
{
    match room {
        Some(room) => amount_cell(alloc, &fraction(told, room), told.unit),
        None => word_cell(alloc, b""),
    }
}

/// The row of an element.
fn element_row(alloc: Global, causes: &Causes<'_>, element: u32) -> Result<Names, OutOfMemory>
    requires { element < element_count causes.now.told.system.now.flat }
    ensures { IfOk result (λ row. row ≡ element_row causes.now.told.system.now causes.now.told.schedule.now
        causes.now.late.now causes.now.early.now causes.now.told.unit element) }
{
    let told = &causes.told;
    let late = fraction(told, departure(causes.late, element));
    let early = fraction(told, departure(causes.early, element));
    let setup = room_cell(alloc, told, setup_room(causes, element))?;
    let hold = room_cell(alloc, told, hold_room(causes, element))?;
    let late = amount_cell(alloc, &late, told.unit)?;
    let early = amount_cell(alloc, &early, told.unit)?;
    let name = word_cell(alloc, told.element_name(element))?;
    let on = kind_on_phase(alloc, told.flat(), element)?;
    Ok(Names::new(vec![in alloc; setup, hold, late, early, name, on]?))
}

/// The table of the rooms of these elements.
fn rooms_table(alloc: Global, causes: &Causes<'_>, places: &[Place]) -> Result<Table, OutOfMemory>
    requires inside { All (λ (place : ℕ × ℤ × ℕ). place.2 < element_count causes.now.told.system.now.flat) places.now }
    requires design { IsDesign causes.now.told.system.now.flat }
    ensures { IfOk result (λ table. table ≡ rooms_grid causes.now.told.system.now causes.now.told.schedule.now
        causes.now.late.now causes.now.early.now causes.now.told.unit places.now) }
{
    let mut table = Table::new(alloc, room_columns(alloc)?);
    table.push(room_head(alloc)?)?;
    for place in places {
        table.push(element_row(alloc, causes, place.2 as u32)?)?;
    }
    Ok(table)
}

/// The text of a pass: the cycle, the phases, and the room that each setup and each hold leaves, the least setup first.
#[tactic(auto, using(crate::proofs::SharedPlaceLaws::by_room_inside))]
pub fn pass_text(alloc: Global, judged: &Judged<'_>, view: &View) -> Result<Bytes, OutOfMemory>
    requires in_range { IsInRange judged.now.schedule.now }
    requires phases { length judged.now.schedule.now.starts ≡ phase_count judged.now.system.now.flat }
    ensures { IfOk result (IsPassText judged.now.system.now judged.now.schedule.now judged.now.late.now
        judged.now.early.now view.now) }
{
    let time = cycle_time(judged.schedule);
    let unit = view.unit_for(&time);
    let causes = causes_of(alloc, judged, unit)?;
    let places = by_room(alloc, &causes)?;
    let shown = shown_rows(view.limit, places.len());
    let table = rooms_table(alloc, &causes, &places[..shown])?.text(alloc)?;
    let mut lines = Lines::new(alloc);
    put_head(&mut lines, b"pass", &time, view)?;
    lines.put(b"\n")?;
    put_phases(
        &mut lines,
        alloc,
        judged.system.flat(),
        judged.schedule,
        unit,
    )?;
    lines.put(b"\nroom that each setup and each hold leaves, the least setup first:\n\n")?;
    lines.put(&table)?;
    put_more(&mut lines, view.limit, places.len())?;
    lines.put(b"\n")?;
    put_foot(
        &mut lines,
        unit,
        b"late and early are when data leaves, from the start of the phase",
    )?;
    Ok(Bytes::new(lines.into_bytes()))
}
