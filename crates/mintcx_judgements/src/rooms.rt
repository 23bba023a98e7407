//! The room that setups and holds leave.
ghost use Rattle.std.specs.Prelude.{◌≡◌, ◌<◌, map, IfOk, IfSome};
ghost use Rattle.mintc_timing.specs.Design.{element_count};
ghost use Rattle.mintcx_judgements.specs.Passes.{AreByRoom, hold_room, room_place, setup_room};
ghost use Rattle.mintcx_judgements.specs.Shown.{IsLong};

use crate::judged::Causes;
use crate::ranking::Place;
use crate::sources::{coming_early, coming_late, cycle, edge, hold, setup, there};
use mintc_text::OutOfMemory;
use std::alloc::Global;

/// How much later the data of an element could be there, its setup kept. A flop to which no data comes has none.
pub fn setup_room(causes: &Causes<'_>, element: u32) -> Option<i128>
    requires { element < element_count causes.now.told.system.now.flat }
    ensures value { result
        ≡ setup_room causes.now.told.system.now causes.now.told.schedule.now causes.now.late.now element }
    ensures range { IfSome result IsLong }
{
    let told = &causes.told;
    let last = edge(told, element) - setup(told, element);
    if !told.element(element).flop {
        return Some(last - there(told, causes.late, element));
    }
    let pair = causes.latest(element)?;
    Some(last - coming_late(told, causes.late, pair))
}

/// How much sooner its next data could come, its hold kept, where it has one and data comes.
pub fn hold_room(causes: &Causes<'_>, element: u32) -> Option<i128>
    requires { element < element_count causes.now.told.system.now.flat }
    ensures value { result
        ≡ hold_room causes.now.told.system.now causes.now.told.schedule.now causes.now.early.now element }
    ensures range { IfSome result IsLong }
{
    let told = &causes.told;
    if !told.element(element).has_hold {
        return None;
    }
    let pair = causes.earliest(element)?;
    let next = coming_early(told, causes.early, pair) + cycle(told);
    Some(next - edge(told, element) - hold(told, element))
}

/// The place of an element with such a room for its setup.
fn place(element: u32, room: Option<i128>) -> Place
    ensures { result ≡ room_place element room }
{
    match room {
        Some(room) => (0, room, element as usize),
        None => (1, 0, element as usize),
    }
}

/// The places of the elements: those with a room for the setup, the least first, then the others.
pub fn by_room(alloc: Global, causes: &Causes<'_>) -> Result<Vec<Place>, OutOfMemory>
    ensures { IfOk result (λ places. AreByRoom causes.now.told.system.now causes.now.told.schedule.now
        causes.now.late.now places.items) }
{
    let mut places = Vec::new(alloc);
    for element in 0..causes.told.flat().element_count() {
        places.push(place(element, setup_room(causes, element)))?;
    }
    places.sort_unstable();
    Ok(places)
}
