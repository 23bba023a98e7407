//! `violations`, `late` and `early` of mintc_departure: with memory they give their answers.
ghost use Rattle.std.specs.Prelude.{◌≡◌, ◌+◌, ◌*◌, ◌≤◌, IfSome, length};
ghost use Rattle.mintc_timing.specs.Design.{phase_count, element_count};
ghost use Rattle.mintc_timing.specs.Limits.{IsInRange};

use crate::systems::system_of;
use mintc_constraints::Room;
use mintc_departure::{Broken, Settling, Violation, early, late, violations};
use mintc_timing::{Schedule, System};
use mintc_timing_text::read_schedule;
use std::alloc::Global;
use std::process::Abort;
use std::test::Fail;

/// A design with one phase and nothing else.
const BARE: &str = "table 1\nphases 1\nphase p\nelements 0\ninner 0\narcs 0\nbounds 0\nend\n";

/// A room for a design with one phase and no elements, where these are such a design and a schedule of its phase.
fn room_for(alloc: Global, system: &System, schedule: &Schedule) -> Option<Room>
    ensures phases { IfSome result (λ room. length schedule.now.starts ≡ phase_count system.now.flat) }
    ensures room { IfSome result
        (λ room. 1 + 2 * phase_count system.now.flat + element_count system.now.flat ≤ room.nodes) }
{
    let flat = system.flat();
    let (phases, elements) = (flat.phases().items().len(), flat.elements().len());
    if phases != 1 || elements != 0 || schedule.starts.items().len() != 1 {
        return None;
    }
    Room::reserve(alloc, 3, 0).ok()
}

/// The schedule of a text.
fn schedule_of(rt: &impl Abort, text: &str) -> Option<Schedule>
    ensures in_range { IfSome result IsInRange }
{
    assert!(rt; text.len() < 1_000);
    read_schedule(text.as_bytes()).ok()
}

/// What a schedule breaks of a design such as the bare one.
fn broken_of(alloc: Global, system: &System, schedule: &Schedule) -> Option<Vec<Violation>>
    requires in_range { IsInRange schedule.now }
{
    let mut room = room_for(alloc, system, schedule)?;
    violations(alloc, system, schedule, &mut room).ok()
}

/// What a schedule breaks of the bare design.
fn broken(rt: &impl Abort, alloc: Global, schedule: &Schedule) -> Option<Vec<Violation>>
    requires in_range { IsInRange schedule.now }
{
    let system = system_of(rt, alloc, BARE)?;
    broken_of(alloc, &system, schedule)
}

/// How many departures there are in a room, late and early.
fn counted(system: &System, schedule: &Schedule, room: &mut Room) -> Option<(usize, usize)>
    requires in_range { IsInRange schedule.now }
    requires phases { length schedule.now.starts ≡ phase_count system.now.flat }
    requires room { 1 + 2 * phase_count system.now.flat + element_count system.now.flat ≤ room.old.nodes }
{
    match late(system, schedule, room) {
        Settling::Settled => {
            early(system, schedule, room);
            Some((room.late().len(), room.early().len()))
        }
        Settling::Loop => None,
    }
}

/// How many departures a design such as the bare one has, late and early.
fn departures_of(alloc: Global, system: &System, schedule: &Schedule) -> Option<(usize, usize)>
    requires in_range { IsInRange schedule.now }
{
    let mut room = room_for(alloc, system, schedule)?;
    counted(system, schedule, &mut room)
}

/// How many departures the bare design has, late and early.
fn departures(rt: &impl Abort, alloc: Global, schedule: &Schedule) -> Option<(usize, usize)>
    requires in_range { IsInRange schedule.now }
{
    let system = system_of(rt, alloc, BARE)?;
    departures_of(alloc, &system, schedule)
}

/// The phase and the amount of a span that is failed.
fn span(violation: &Violation) -> Option<(u32, i64)> {
    match &violation.broken {
        Broken::Span { phase } => Some((*phase, violation.amount)),
        _ => None,
    }
}

const WIDE: &str = "schedule 1\nden 1\ncycle 10\nphases 1\nphase 0 16\nend\n";

const KEPT: &str = "schedule 1\nden 1\ncycle 10\nphases 1\nphase 0 10\nend\n";

#[test]
fn a_wide_phase_is_named(rt: HostRuntime) -> Result<(), Fail> {
    let schedule = schedule_of(&rt, WIDE).ok_or("schedule")?;
    let found = broken(&rt, rt.alloc(), &schedule).ok_or("memory")?;
    assert!(rt; found.len() == 1 && span(&found[0]) == Some((1, 6)));
    Ok(())
}

#[test]
fn a_right_schedule_breaks_nothing(rt: HostRuntime) -> Result<(), Fail> {
    let schedule = schedule_of(&rt, KEPT).ok_or("schedule")?;
    let found = broken(&rt, rt.alloc(), &schedule).ok_or("memory")?;
    assert!(rt; found.is_empty());
    Ok(())
}

#[test]
fn a_design_without_elements_has_no_departures(rt: HostRuntime) -> Result<(), Fail> {
    let schedule = schedule_of(&rt, KEPT).ok_or("schedule")?;
    let counts = departures(&rt, rt.alloc(), &schedule);
    assert!(rt; counts == Some((0, 0)));
    Ok(())
}
