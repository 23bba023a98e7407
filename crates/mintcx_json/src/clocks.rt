//! The phases of a schedule and the elements of a design.
ghost use Rattle.std.specs.Prelude.{◌≡◌, ◌<◌, ◌++◌, ◌∷◌, [], codes, length, map, OnOk};
ghost use Rattle.std.specs.List.{range_with_len};
ghost use Rattle.json.specs.Tree.{json_tokens};
ghost use Rattle.mintc_timing.specs.Clocking.{start_of, width_of};
ghost use Rattle.mintc_timing.specs.Departures.{departure};
ghost use Rattle.mintc_timing.specs.Design.{element_count, phase_count};
ghost use Rattle.mintc_timing.specs.Limits.{IsInRange, IsPhase};
ghost use Rattle.mintcx_frame.specs.Names.{kind_word};
ghost use Rattle.mintcx_chain.specs.Rows.{IsClocked};
ghost use Rattle.mintcx_json.specs.Clocks.{clock_fields, element_value, elements_value, phase_value, phases_value};
ghost use Rattle.mintcx_json.specs.Clocks.{schedule_fields};
ghost use Rattle.mintcx_json.specs.Pieces.{fields_tokens, values_tokens};

use crate::fields::{put_name, put_whole, put_word};
use crate::sheet::Sheet;
use mintc_text::OutOfMemory;
use mintc_timing::{Flat, Schedule};
use mintcx_frame::phase_name;
use std::alloc::Global;

/// When a phase starts.
fn start_at(schedule: &Schedule, phase: u32) -> i64
    requires { IsPhase (length schedule.now.starts) phase }
    ensures { result ≡ start_of schedule.now phase }
{
    schedule.starts.items()[phase as usize - 1]
}

/// How wide a phase is.
fn width_at(schedule: &Schedule, phase: u32) -> i64
    requires { IsPhase (length schedule.now.widths) phase }
    ensures { result ≡ width_of schedule.now phase }
{
    schedule.widths.items()[phase as usize - 1]
}

/// Writes a phase.
fn put_phase(
    sheet: &mut Sheet,
    alloc: Global,
    flat: &Flat,
    schedule: &Schedule,
    phase: u32,
) -> Result<(), OutOfMemory>
    requires in_range { IsInRange schedule.now }
    requires alike { length schedule.now.starts ≡ phase_count flat.now }
    requires phase { IsPhase (phase_count flat.now) phase }
    ensures { OnOk result (sheet.new ≡ sheet.old ++ json_tokens (phase_value flat.now schedule.now phase)) }
{
    sheet.open()?;
    put_name(sheet, alloc, "name", phase_name(flat, phase))?;
    put_whole(sheet, "start", start_at(schedule, phase))?;
    put_whole(sheet, "width", width_at(schedule, phase))?;
    sheet.close()
}

/// Writes the phases of a schedule, in order, as items of an array.
fn put_each_phase(
    sheet: &mut Sheet,
    alloc: Global,
    flat: &Flat,
    schedule: &Schedule,
) -> Result<(), OutOfMemory>
    requires in_range { IsInRange schedule.now }
    requires alike { length schedule.now.starts ≡ phase_count flat.now }
    ensures { OnOk result (sheet.new ≡ sheet.old
        ++ values_tokens (map (phase_value flat.now schedule.now) (range_with_len 1 (phase_count flat.now)))) }
{
    for at in 0..flat.phase_count() {
        put_phase(sheet, alloc, flat, schedule, at + 1)?;
    }
    Ok(())
}

/// Writes the member that has the phases of a schedule.
fn put_phases(
    sheet: &mut Sheet,
    alloc: Global,
    flat: &Flat,
    schedule: &Schedule,
) -> Result<(), OutOfMemory>
    requires in_range { IsInRange schedule.now }
    requires alike { length schedule.now.starts ≡ phase_count flat.now }
    ensures { OnOk result (sheet.new
        ≡ sheet.old ++ fields_tokens ((codes "phases", phases_value flat.now schedule.now) ∷ [])) }
{
    sheet.key("phases")?;
    sheet.open_array()?;
    put_each_phase(sheet, alloc, flat, schedule)?;
    sheet.close_array()
}

/// The word of an element's kind.
pub(crate) fn kind_word(flop: bool) -> &'static str
    ensures { result.now ≡ kind_word flop }
{
    if flop { "flop" } else { "latch" }
}

/// When an element departs, 0 for one past the end.
pub(crate) fn departure_at(departures: &[i64], number: u32) -> i64
    ensures { result ≡ departure departures.now number }
{
    match departures.get(number as usize) {
        Some(departure) => *departure,
        None => 0,
    }
}

/// Writes an element with its departure.
fn put_element(
    sheet: &mut Sheet,
    alloc: Global,
    flat: &Flat,
    departures: &[i64],
    number: u32,
) -> Result<(), OutOfMemory>
    requires { number < element_count flat.now }
    ensures { OnOk result (sheet.new ≡ sheet.old ++ json_tokens (element_value flat.now departures.now number)) }
{
    let element = flat.element(number);
    sheet.open()?;
    put_name(sheet, alloc, "name", element.name.bytes())?;
    put_word(sheet, "kind", kind_word(element.flop))?;
    put_name(sheet, alloc, "phase", phase_name(flat, element.phase))?;
    put_whole(sheet, "late", departure_at(departures, number))?;
    sheet.close()
}

/// Writes the elements of a design with their departures, in order, as items of an array.
fn put_each_element(
    sheet: &mut Sheet,
    alloc: Global,
    flat: &Flat,
    departures: &[i64],
) -> Result<(), OutOfMemory>
    ensures { OnOk result (sheet.new ≡ sheet.old
        ++ values_tokens (map (element_value flat.now departures.now) (range_with_len 0 (element_count flat.now)))) }
{
    for number in 0..flat.element_count() {
        put_element(sheet, alloc, flat, departures, number)?;
    }
    Ok(())
}

/// Writes the member that has the elements of a design with their departures.
fn put_elements(
    sheet: &mut Sheet,
    alloc: Global,
    flat: &Flat,
    departures: &[i64],
) -> Result<(), OutOfMemory>
    ensures { OnOk result (sheet.new
        ≡ sheet.old ++ fields_tokens ((codes "elements", elements_value flat.now departures.now) ∷ [])) }
{
    sheet.key("elements")?;
    sheet.open_array()?;
    put_each_element(sheet, alloc, flat, departures)?;
    sheet.close_array()
}

/// Writes the members that have a schedule: the denominator of all times, the cycle time and the phases.
pub(crate) fn put_schedule(
    sheet: &mut Sheet,
    alloc: Global,
    flat: &Flat,
    schedule: &Schedule,
) -> Result<(), OutOfMemory>
    requires in_range { IsInRange schedule.now }
    requires alike { length schedule.now.starts ≡ phase_count flat.now }
    ensures { OnOk result (sheet.new ≡ sheet.old ++ fields_tokens (schedule_fields flat.now schedule.now)) }
{
    put_whole(sheet, "den", schedule.den)?;
    put_whole(sheet, "cycle", schedule.cycle)?;
    put_phases(sheet, alloc, flat, schedule)
}

/// Writes the members that have a schedule with its departures.
pub(crate) fn put_clock(
    sheet: &mut Sheet,
    alloc: Global,
    flat: &Flat,
    schedule: &Schedule,
    departures: &[i64],
) -> Result<(), OutOfMemory>
    requires { IsClocked flat.now schedule.now departures.now }
    ensures { OnOk result (sheet.new
        ≡ sheet.old ++ fields_tokens (clock_fields flat.now schedule.now departures.now)) }
{
    put_schedule(sheet, alloc, flat, schedule)?;
    put_elements(sheet, alloc, flat, departures)
}
