//! The early departures: rounds that rise from where no data reaches an element, until nothing changes.
ghost use Rattle.std.specs.Prelude.{◌≡◌, ◌≢◌, ◌<◌, ◌≤◌, ◌+◌, ◌*◌, ◌⊎◌, ℕ, ℤ, List, length};
ghost use Rattle.std.specs.Bool.{OnTrue, OnFalse};
ghost use Rattle.mintc_graph_walks.specs.Walks.{value_at};
ghost use Rattle.mintc_timing.specs.Departures.{departure, early_arrivals, early_departure, AreEarly, AreLate};
ghost use Rattle.mintc_timing.specs.Design.{element_count, phase_count};
ghost use Rattle.mintc_timing.specs.Extremes.{least_of};
ghost use Rattle.mintc_timing.specs.Limits.{IsInRange};
ghost use Rattle.mintc_departure.specs.Clocked.{IsClocked};
ghost use Rattle.mintc_departure.specs.Rounds.{AreSums, IsArrivalSum, IsFirst};
ghost use Rattle.mintc_departure.specs.Travels.{early_start_of};

use crate::arrivals::{NEVER, gather};
use crate::clocked_system::ClockedSystem;
use mintc_constraints::Room;
use mintc_timing::{Schedule, System};

/// When an element's data leaves at the earliest, by its earliest arrival.
pub(crate) fn departure_by(clocked: &ClockedSystem<'_>, number: u32, first: i128) -> i64
    requires number { number < element_count clocked.now.system.now.flat }
    requires first { (first ≡ NEVER) ⊎ IsArrivalSum first }
    ensures { (d : List ℤ) →
        IsFirst (least_of (early_arrivals clocked.now.system.now clocked.now.schedule.now d number)) first →
        result ≡ early_departure clocked.now.system.now clocked.now.schedule.now d number }
{
    let start = clocked.early_start(number);
    if clocked.system.element(number).flop {
        return start;
    }
    if first == NEVER {
        return start;
    }
    i64::max(start, first as i64)
}

/// Makes the early departures those of elements that no data reaches.
pub(crate) fn fill_early_starts(clocked: &ClockedSystem<'_>, room: &mut Room)
    requires nodes { element_count clocked.now.system.now.flat ≤ room.old.nodes }
    ensures kept { room.new ≡ record room.old { early = room.new.early } }
    ensures count { length room.new.early ≡ element_count clocked.now.system.now.flat }
    ensures each { (l : ℕ) → l < element_count clocked.now.system.now.flat →
        departure room.new.early l ≡ early_start_of clocked.now.system.now.flat clocked.now.schedule.now l }
    ensures clocked { IsClocked clocked.now.system.now clocked.now.schedule.now }
{
    let count = clocked.count();
    room.fill_early(count);
    for number in 0..count {
        room.set_early(number, clocked.early_start(number as u32));
    }
}

/// Makes the early departures what the earliest arrivals make them, which are the values. Whether any changed.
fn raise(clocked: &ClockedSystem<'_>, room: &mut Room) -> bool
    requires departures { AreSums clocked.now.system.now.flat room.old.early }
    requires values { length room.old.values ≡ element_count clocked.now.system.now.flat }
    requires firsts { (l : ℕ) → l < element_count clocked.now.system.now.flat →
        IsFirst (least_of (early_arrivals clocked.now.system.now clocked.now.schedule.now room.old.early l))
        (value_at room.old.values l) }
    ensures kept { room.new ≡ record room.old { early = room.new.early } }
    ensures count { length room.new.early ≡ element_count clocked.now.system.now.flat }
    ensures each { (l : ℕ) → l < element_count clocked.now.system.now.flat →
        departure room.new.early l ≡ early_departure clocked.now.system.now clocked.now.schedule.now room.old.early l }
    ensures still { OnFalse result ((l : ℕ) → l < element_count clocked.now.system.now.flat →
        early_departure clocked.now.system.now clocked.now.schedule.now room.old.early l ≡ departure room.old.early l) }
    ensures changed { OnTrue result ((l : ℕ) × (l < element_count clocked.now.system.now.flat)
        × (early_departure clocked.now.system.now clocked.now.schedule.now room.old.early l ≢ departure room.old.early
        l)) }
{
    let mut changed = false;
    for number in 0..clocked.count() {
        let before = room.early()[number];
        let time = departure_by(clocked, number as u32, room.values()[number]);
        room.set_early(number, time);
        if time != before {
            changed = true;
        }
    }
    changed
}

/// Raises the early departures by rounds until one changes nothing.
fn rise_in_rounds(clocked: &ClockedSystem<'_>, room: &mut Room)
    requires nodes { element_count clocked.now.system.now.flat ≤ room.old.nodes }
    requires late { AreLate clocked.now.system.now clocked.now.schedule.now room.old.late }
    ensures kept { room.new ≡ record room.old { early = room.new.early; values = room.new.values } }
    ensures early { AreEarly clocked.now.system.now clocked.now.schedule.now room.new.early }
{
    fill_early_starts(clocked, room);
    loop {
        gather(clocked, room);
        if !raise(clocked, room) {
            return;
        }
    }
}

/// The early departures of the elements, as numerators over the schedule's denominator, into the room's `early`:
/// one for each element, the least that are exact. The room's `late` has to hold the late departures, and stays.
pub fn early(system: &System, schedule: &Schedule, room: &mut Room)
    requires in_range { IsInRange schedule.now }
    requires phases { length schedule.now.starts ≡ phase_count system.now.flat }
    requires room { 1 + 2 * phase_count system.now.flat + element_count system.now.flat ≤ room.old.nodes }
    requires late { AreLate system.now schedule.now room.old.late }
    ensures early { AreEarly system.now schedule.now room.new.early }
    ensures late { room.new.late ≡ room.old.late }
    ensures before { room.new.before ≡ room.old.before }
    ensures chain { room.new.chain ≡ room.old.chain }
    ensures nodes { room.new.nodes ≡ room.old.nodes }
    ensures links { room.new.links ≡ room.old.links }
{
    rise_in_rounds(&ClockedSystem { system, schedule }, room);
}
