//! Which setups and holds are worst off.
ghost use Rattle.std.specs.Prelude.{◌≡◌, ◌<◌, ◌++◌, All, IfOk, IfSome, OnOk};
ghost use Rattle.mintc_timing.specs.Design.{element_count};
ghost use Rattle.mintcx_fares.specs.Places.{AreWorst, IsPlace, hold_place, kept_rank, place_list, places_at};
ghost use Rattle.mintcx_fares.specs.Places.{setup_place};

use mintc_text::OutOfMemory;
use mintcx_judgements::{Causes, hold_room, setup_room};
use std::alloc::Global;

/// The place of a setup or of a hold: 0 where it is broken and else 1, 0 of a setup and 1 of a hold, how much room it
/// leaves, a numerator over the schedule's denominator, and the number of its element.
pub(crate) type Place = (u32, u32, i128, u32);

/// The first part of a place that leaves so much room.
fn kept_rank(room: i128) -> u32
    ensures { result ≡ kept_rank room }
{
    if room < 0 { 0 } else { 1 }
}

/// The place of the setup of an element, where data comes to it.
fn setup_place(causes: &Causes<'_>, element: u32) -> Option<Place>
    requires { element < element_count causes.now.told.system.now.flat }
    ensures value { result
        ≡ setup_place causes.now.told.system.now causes.now.told.schedule.now causes.now.late.now element }
    ensures place { IfSome result (IsPlace causes.now.told.system.now.flat) }
{
    causes.latest(element)?;
    let room = setup_room(causes, element)?;
    Some((kept_rank(room), 0, room, element))
}

/// The place of the hold of an element, where it is broken.
fn hold_place(causes: &Causes<'_>, element: u32) -> Option<Place>
    requires { element < element_count causes.now.told.system.now.flat }
    ensures value { result
        ≡ hold_place causes.now.told.system.now causes.now.told.schedule.now causes.now.early.now element }
    ensures place { IfSome result (IsPlace causes.now.told.system.now.flat) }
{
    let room = hold_room(causes, element)?;
    if room < 0 {
        Some((0, 1, room, element))
    } else {
        None
    }
}

/// Adds a place, where there is one.
fn push_place(places: &mut Vec<Place>, place: Option<Place>) -> Result<(), OutOfMemory>
    ensures { OnOk result (places.new.items ≡ places.old.items ++ place_list place) }
{
    if let Some(place) = place {
        places.push(place)?;
    }
    Ok(())
}

/// Adds the places of an element.
fn push_places(
    places: &mut Vec<Place>,
    causes: &Causes<'_>,
    element: u32,
) -> Result<(), OutOfMemory>
    requires { element < element_count causes.now.told.system.now.flat }
    ensures items { OnOk result (places.new.items ≡ places.old.items ++ places_at causes.now.told.system.now
        causes.now.told.schedule.now causes.now.late.now causes.now.early.now element) }
    ensures each { All (IsPlace causes.now.told.system.now.flat) places.old.items
        → OnOk result (All (IsPlace causes.now.told.system.now.flat) places.new.items) }
{
    push_place(places, setup_place(causes, element))?;
    push_place(places, hold_place(causes, element))
}

/// The places of the setups of all elements that data comes to, and of the holds that are broken: what is broken comes
/// first, then setups before holds, then what leaves less room.
pub(crate) fn places_of(alloc: Global, causes: &Causes<'_>) -> Result<Vec<Place>, OutOfMemory>
    ensures worst { IfOk result (λ places. AreWorst causes.now.told.system.now causes.now.told.schedule.now
        causes.now.late.now causes.now.early.now places.items) }
    ensures each { IfOk result (λ places. All (IsPlace causes.now.told.system.now.flat) places.items) }
{
    let mut places = Vec::new(alloc);
    for element in 0..causes.told.flat().element_count() {
        push_places(&mut places, causes, element)?;
    }
    places.sort_unstable();
    Ok(places)
}
