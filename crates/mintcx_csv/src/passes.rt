//! The table of a pass.
ghost use Rattle.std.specs.Prelude.{◌≡◌, ◌<◌, ◌++◌, ℕ, ℤ, length, All, IfOk, OnOk};
ghost use Rattle.csv.specs.Writing.{row_text};
ghost use Rattle.mintc_timing.specs.Design.{element_count, phase_count};
ghost use Rattle.mintc_timing.specs.Limits.{IsDesign, IsInRange};
ghost use Rattle.mintcx_csv.specs.Passes.{IsPassTable, pass_fields, pass_record, pass_records, room_field};
ghost use Rattle.mintcx_csv.specs.Records.{IsBetween, text_so_far};
ghost use Rattle.mintcx_csv.specs.Tables.{IsTable, by_rfc, shown_over};

use crate::records::{Records, no_records, numeral, put_over, text_of};
use itoa::Buffer;
use mintc_text::{Bytes, OutOfMemory};
use mintcx_amounts::Unit;
use mintcx_frame::kind_on_phase;
use mintcx_judgements::{
    Causes, Judged, Place, by_room, causes_of, departure, hold_room, setup_room,
};
use std::alloc::Global;

/// How many columns the table has before that of the denominator.
const PASS_COLUMNS: usize = 6;

/// Writes the head line.
fn put_pass_head(records: &mut Records, den: i64) -> Result<(), OutOfMemory>
    requires { IsBetween records.old }
    ensures between { OnOk result (IsBetween records.new) }
    ensures text { OnOk result
        (text_so_far records.new ≡ text_so_far records.old ++ row_text by_rfc (shown_over den 6 pass_fields)) }
{
    put_over(
        records,
        &[
            b"element", b"on", b"late", b"early", b"setup", b"hold", b"den",
        ],
        PASS_COLUMNS,
        den,
    )
}

/// A room, empty where there is none.
fn room_field(buffer: &mut Buffer, room: Option<i128>) -> &[u8]
    ensures { result.now ≡ room_field room }
{
    match room {
        Some(room) => numeral(buffer, room),
        None => b"",
    }
}

/// Writes the row of an element.
fn put_room(
    records: &mut Records,
    alloc: Global,
    causes: &Causes<'_>,
    element: u32,
) -> Result<(), OutOfMemory>
    requires between { IsBetween records.old }
    requires inside { element < element_count causes.now.told.system.now.flat }
    ensures between { OnOk result (IsBetween records.new) }
    ensures text { OnOk result (text_so_far records.new ≡ text_so_far records.old
        ++ row_text by_rfc (shown_over causes.now.told.schedule.now.den 6 (pass_record causes.now.told.system.now
        causes.now.told.schedule.now causes.now.late.now causes.now.early.now element))) }
{
    let told = &causes.told;
    let den = told.schedule.den;
    let on = kind_on_phase(alloc, told.flat(), element)?;
    let (mut lates, mut earlies, mut dens) = (Buffer::new(), Buffer::new(), Buffer::new());
    let (mut setups, mut holds) = (Buffer::new(), Buffer::new());
    let late = numeral(&mut lates, departure(causes.late, element));
    let early = numeral(&mut earlies, departure(causes.early, element));
    let setup = room_field(&mut setups, setup_room(causes, element));
    let hold = room_field(&mut holds, hold_room(causes, element));
    let over = numeral(&mut dens, i128::from(den));
    put_over(
        records,
        &[
            told.element_name(element),
            on.bytes(),
            late,
            early,
            setup,
            hold,
            over,
        ],
        PASS_COLUMNS,
        den,
    )
}

/// The table of elements in the order of their places.
fn rooms_csv(alloc: Global, causes: &Causes<'_>, places: &[Place]) -> Result<Bytes, OutOfMemory>
    requires inside { All (λ (place : ℕ × ℤ × ℕ). place.2 < element_count causes.now.told.system.now.flat) places.now }
    requires design { IsDesign causes.now.told.system.now.flat }
    ensures { IfOk result (IsTable (pass_records causes.now.told.system.now causes.now.told.schedule.now
        causes.now.late.now causes.now.early.now places.now)) }
{
    let mut records = no_records(alloc);
    put_pass_head(&mut records, causes.told.schedule.den)?;
    for place in places {
        put_room(&mut records, alloc, causes, place.2 as u32)?;
    }
    text_of(records)
}

/// The table `element,on,late,early,setup,hold` of a schedule that breaks nothing: of each element its name, its kind
/// and phase, when data leaves it at the latest and at the earliest, counted from the start of its phase, and the room
/// that its setup and its hold leave, empty where there is none; the least room of a setup first. Times are whole
/// femtoseconds; where the denominator is above 1, they are numerators over it, and it stands in a last column `den`.
pub fn pass_csv(alloc: Global, judged: &Judged<'_>) -> Result<Bytes, OutOfMemory>
    requires in_range { IsInRange judged.now.schedule.now }
    requires phases { length judged.now.schedule.now.starts ≡ phase_count judged.now.system.now.flat }
    ensures { IfOk result (IsPassTable judged.now.system.now judged.now.schedule.now judged.now.late.now
        judged.now.early.now) }
{
    let causes = causes_of(alloc, judged, Unit::Femto)?;
    let places = by_room(alloc, &causes)?;
    rooms_csv(alloc, &causes, &places)
}
