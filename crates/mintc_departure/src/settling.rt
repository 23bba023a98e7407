//! The late departures, or a loop round which data comes later each time.
ghost use Rattle.std.specs.Prelude.{◌≡◌, [], ◌<◌, ◌≤◌, ◌+◌, ◌*◌, ℕ, length};
ghost use Rattle.mintc_graph_walks.specs.Walks.{value_at};
ghost use Rattle.mintc_timing.specs.Design.{element_count, phase_count};
ghost use Rattle.mintc_timing.specs.Limits.{IsInRange};
ghost use Rattle.mintc_departure.specs.Networks.{late_start_of};
ghost use Rattle.mintc_departure.specs.Settled.{HasSettled, IsSum};

use crate::clocked_system::ClockedSystem;
use mintc_constraints::Room;
use mintc_graph_walks::{Answer, Steps};
use mintc_timing::{Schedule, System};
use std::marker::Brand;
use std::sync::ledger::{Blank, Ledger};

/// Whether departures settle.
#[derive(Clone, Copy, Debug, PartialEq, Eq)]
pub enum Settling {
    /// They do, and the room holds the late ones.
    Settled,
    /// They don't: data comes later each time that it goes round a loop, which the room holds.
    Loop,
}

/// Makes the values the departures of elements that no data reaches.
fn fill_starts(clocked: &ClockedSystem<'_>, room: &mut Room)
    requires nodes { element_count clocked.now.system.now.flat ≤ room.old.nodes }
    ensures kept { room.new ≡ record room.old { values = room.new.values } }
    ensures count { length room.new.values ≡ element_count clocked.now.system.now.flat }
    ensures each { (l : ℕ) → l < element_count clocked.now.system.now.flat →
        value_at room.new.values l ≡ late_start_of clocked.now.system.now.flat clocked.now.schedule.now l }
{
    let count = clocked.count();
    room.fill_values(count);
    for number in 0..count {
        room.set_values(number, i128::from(clocked.late_start(number as u32)));
    }
}

/// Keeps the values as late departures.
fn keep_late(room: &mut Room)
    requires nodes { length room.old.values ≤ room.old.nodes }
    requires range { (l : ℕ) → l < length room.old.values → IsSum (value_at room.old.values l) }
    ensures { room.new ≡ record room.old { late = room.old.values } }
{
    let count = room.values().len();
    room.fill_late(count);
    for number in 0..count {
        let departure = room.values()[number] as i64;
        room.set_late(number, departure);
    }
}

/// `late` with a blank for its counter of steps.
fn settle<L: Ledger>(clocked: &ClockedSystem<'_>, room: &mut Room, blank: Blank) -> Settling
    requires name { blank.name ≡ L.name }
    requires parts { blank.parts ≡ L.parts }
    requires part { 0 < L.parts }
    requires room { element_count clocked.now.system.now.flat ≤ room.old.nodes }
    ensures settled { HasSettled clocked.now.system.now clocked.now.schedule.now room.new result }
    ensures none { result ≡ Settling.Settled → room.new.chain ≡ [] }
    ensures late { result ≡ Settling.Loop → room.new.late ≡ room.old.late }
    ensures early { room.new.early ≡ room.old.early }
    ensures nodes { room.new.nodes ≡ room.old.nodes }
    ensures links { room.new.links ≡ room.old.links }
{
    room.fill_chain(0);
    fill_starts(clocked, room);
    if clocked.count() == 0 {
        keep_late(room);
        return Settling::Settled;
    }
    let mut steps = Steps::<L>::open(blank);
    match room.walk(clocked, &mut steps) {
        Answer::Values => {
            keep_late(room);
            Settling::Settled
        }
        Answer::Chain { .. } => Settling::Loop,
    }
}

/// The late departures of the elements, as numerators over the schedule's denominator, or a loop.
///
/// With `Settled` the room's `late` has one departure for each element: the least that are exact. `Loop` comes exactly
/// where no departures are exact. The room's `chain` then has the pair numbers, counted from 0, of a closed list of
/// pairs of latches that meets no element twice, round which data comes later each time.
pub fn late(system: &System, schedule: &Schedule, room: &mut Room) -> Settling
    requires in_range { IsInRange schedule.now }
    requires phases { length schedule.now.starts ≡ phase_count system.now.flat }
    requires room { 1 + 2 * phase_count system.now.flat + element_count system.now.flat ≤ room.old.nodes }
    ensures settled { HasSettled system.now schedule.now room.new result }
    ensures none { result ≡ Settling.Settled → room.new.chain ≡ [] }
    ensures late { result ≡ Settling.Loop → room.new.late ≡ room.old.late }
    ensures early { room.new.early ≡ room.old.early }
    ensures nodes { room.new.nodes ≡ room.old.nodes }
    ensures links { room.new.links ≡ room.old.links }
{
    settle::<Brand>(&ClockedSystem { system, schedule }, room, Blank::new(1))
}
