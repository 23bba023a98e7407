//! The early departures: each rises to what the others make it, and only elements that may change are looked at.
ghost use Rattle.std.specs.Prelude.{◌≡◌, ◌≢◌, ◌<◌, ◌≤◌, ◌<ℤ◌, ◌≤ℤ◌, ◌+◌, ◌*◌, ◌^◌, ℕ, length, slice_set, IfOk, OnOk};
ghost use Rattle.std.specs.Bool.{OnTrue, OnFalse};
ghost use Rattle.mintc_graph_walks.specs.Walks.{value_at};
ghost use Rattle.mintc_bitset.specs.BitSet.{IsIn, room};
ghost use Rattle.mintc_timing.specs.Departures.{departure, early_arrivals, early_departure, AreEarly, AreLate};
ghost use Rattle.mintc_timing.specs.Design.{element_count, pair_at, phase_count};
ghost use Rattle.mintc_timing.specs.Extremes.{least_of};
ghost use Rattle.mintc_departure.specs.PairEnds.{ArePairsByEnd};
ghost use Rattle.mintc_departure.specs.Clocked.{IsClocked};
ghost use Rattle.mintc_departure.specs.Rounds.{AreSums, AreSwept, IsFirst};

use crate::arrivals::{NEVER, arrival, gather};
use crate::clocked_system::ClockedSystem;
use crate::pair_ends::{End, pairs_by_end};
use crate::rounds::{departure_by, fill_early_starts};
use mintc_adjacency::Adjacency;
use mintc_bitset::BitSet;
use mintc_constraints::Room;
use mintc_text::OutOfMemory;
use mintc_timing::System;
use std::alloc::Global;

/// The earliest arrival at an element, by these departures.
fn earliest(
    clocked: &ClockedSystem<'_>,
    into: &Adjacency,
    departures: &[i64],
    element: usize,
) -> i128
    requires into { ArePairsByEnd clocked.now.system.now.pairs End.Second
        (element_count clocked.now.system.now.flat) into.now }
    requires departures { AreSums clocked.now.system.now.flat departures.now }
    requires element { element < element_count clocked.now.system.now.flat }
    ensures { IsFirst (least_of (early_arrivals clocked.now.system.now clocked.now.schedule.now departures.now element))
        result }
{
    let mut first = NEVER;
    for number in into.at(element) {
        let time = i128::from(arrival(clocked, departures, number));
        first = i128::min(time, first);
    }
    first
}

/// Makes an element's departure what its earliest arrival makes it. Whether it's another one.
fn recompute(clocked: &ClockedSystem<'_>, into: &Adjacency, room: &mut Room, element: usize) -> bool
    requires clocked { IsClocked clocked.now.system.now clocked.now.schedule.now }
    requires into { ArePairsByEnd clocked.now.system.now.pairs End.Second
        (element_count clocked.now.system.now.flat) into.now }
    requires departures { AreSums clocked.now.system.now.flat room.old.early }
    requires element { element < element_count clocked.now.system.now.flat }
    ensures kept { room.new ≡ record room.old { early = room.new.early } }
    ensures same { OnFalse result (room.new.early ≡ room.old.early) }
    ensures still { OnFalse result (departure room.old.early element
        ≡ early_departure clocked.now.system.now clocked.now.schedule.now room.old.early element) }
    ensures written { OnTrue result
        (room.new.early ≡ slice_set room.old.early element
        (early_departure clocked.now.system.now clocked.now.schedule.now room.old.early element)) }
    ensures changed { OnTrue result
        (departure room.old.early element ≢ early_departure clocked.now.system.now clocked.now.schedule.now
        room.old.early element) }
{
    let first = earliest(clocked, into, room.early(), element);
    let before = room.early()[element];
    let time = departure_by(clocked, element as u32, first);
    if time == before {
        return false;
    }
    room.set_early(element, time);
    true
}

/// Takes in each element that a pair from this one leads to.
fn wake(system: &System, out: &Adjacency, stale: &mut BitSet, element: usize)
    requires out { ArePairsByEnd system.now.pairs End.First (element_count system.now.flat) out.now }
    requires element { element < element_count system.now.flat }
    requires places { element_count system.now.flat ≤ room stale.old.words.items }
    ensures count { length stale.new.words.items ≡ length stale.old.words.items }
    ensures kept { (l : ℕ) → IsIn stale.old.words.items l → IsIn stale.new.words.items l }
    ensures woken { (n : ℕ) → n < length system.now.pairs → (pair_at system.now n).from ≡ element →
        IsIn stale.new.words.items (pair_at system.now n).to }
{
    for number in out.at(element) {
        stale.insert(system.pair(number).to as usize);
    }
}

/// Renews an element, which is then stale only where a pair leads from it to itself. Whether it has another departure.
fn recompute_at(
    clocked: &ClockedSystem<'_>,
    into: &Adjacency,
    out: &Adjacency,
    room: &mut Room,
    stale: &mut BitSet,
    element: usize,
) -> bool
    requires clocked { IsClocked clocked.now.system.now clocked.now.schedule.now }
    requires into { ArePairsByEnd clocked.now.system.now.pairs End.Second
        (element_count clocked.now.system.now.flat) into.now }
    requires out { ArePairsByEnd clocked.now.system.now.pairs End.First
        (element_count clocked.now.system.now.flat) out.now }
    requires late { AreLate clocked.now.system.now clocked.now.schedule.now room.old.late }
    requires swept { AreSwept clocked.now.system.now clocked.now.schedule.now room.old.late room.old.early
        stale.old.words.items }
    requires element { element < element_count clocked.now.system.now.flat }
    ensures kept { room.new ≡ record room.old { early = room.new.early } }
    ensures swept { AreSwept clocked.now.system.now clocked.now.schedule.now room.old.late room.new.early
        stale.new.words.items }
    ensures up { (l : ℕ) → l < element_count clocked.now.system.now.flat →
        departure room.old.early l ≤ℤ departure room.new.early l }
    ensures changed { OnTrue result (departure room.old.early element <ℤ departure room.new.early element) }
    ensures out { OnFalse result (IsIn stale.new.words.items element → ⊥) }
    ensures only { OnFalse result ((l : ℕ) → IsIn stale.new.words.items l → IsIn stale.old.words.items l) }
{
    stale.remove(element);
    if !recompute(clocked, into, room, element) {
        return false;
    }
    wake(clocked.system, out, stale, element);
    true
}

/// Renews the stale elements, once each from the first one on. Whether any has another departure.
fn sweep(
    clocked: &ClockedSystem<'_>,
    into: &Adjacency,
    out: &Adjacency,
    room: &mut Room,
    stale: &mut BitSet,
) -> bool
    requires into { ArePairsByEnd clocked.now.system.now.pairs End.Second
        (element_count clocked.now.system.now.flat) into.now }
    requires out { ArePairsByEnd clocked.now.system.now.pairs End.First
        (element_count clocked.now.system.now.flat) out.now }
    requires late { AreLate clocked.now.system.now clocked.now.schedule.now room.old.late }
    requires swept { AreSwept clocked.now.system.now clocked.now.schedule.now room.old.late room.old.early
        stale.old.words.items }
    ensures kept { room.new ≡ record room.old { early = room.new.early } }
    ensures swept { AreSwept clocked.now.system.now clocked.now.schedule.now room.old.late room.new.early
        stale.new.words.items }
    ensures up { (l : ℕ) → l < element_count clocked.now.system.now.flat →
        departure room.old.early l ≤ℤ departure room.new.early l }
    ensures changed { OnTrue result ((l : ℕ) × (l < element_count clocked.now.system.now.flat)
        × (departure room.old.early l <ℤ departure room.new.early l)) }
    ensures none { OnFalse result ((l : ℕ) → l < element_count clocked.now.system.now.flat →
        IsIn stale.new.words.items l → ⊥) }
{
    let count = clocked.count();
    let mut changed = false;
    let mut at = stale.next(0);
    while at < count {
        changed |= recompute_at(clocked, into, out, room, stale, at);
        at = stale.next(at + 1);
    }
    changed
}

/// The places of so many elements, all in it.
fn all_of(alloc: Global, count: usize) -> Result<BitSet, OutOfMemory>
    requires { count < 2 ^ 32 }
    ensures places { IfOk result (λ places. count ≤ room places.words.items) }
    ensures few { IfOk result (λ places. length places.words.items ≤ 2 ^ 32) }
    ensures all { IfOk result (λ places. (l : ℕ) → l < count → IsIn places.words.items l) }
{
    let mut places = BitSet::new(alloc, count)?;
    for place in 0..count {
        places.insert(place);
    }
    Ok(places)
}

/// Sweeps until none is stale.
fn rise(
    clocked: &ClockedSystem<'_>,
    into: &Adjacency,
    out: &Adjacency,
    room: &mut Room,
    stale: &mut BitSet,
)
    requires clocked { IsClocked clocked.now.system.now clocked.now.schedule.now }
    requires into { ArePairsByEnd clocked.now.system.now.pairs End.Second
        (element_count clocked.now.system.now.flat) into.now }
    requires out { ArePairsByEnd clocked.now.system.now.pairs End.First
        (element_count clocked.now.system.now.flat) out.now }
    requires late { AreLate clocked.now.system.now clocked.now.schedule.now room.old.late }
    requires swept { AreSwept clocked.now.system.now clocked.now.schedule.now room.old.late room.old.early
        stale.old.words.items }
    ensures kept { room.new ≡ record room.old { early = room.new.early } }
    ensures early { AreEarly clocked.now.system.now clocked.now.schedule.now room.new.early }
    ensures sums { AreSums clocked.now.system.now.flat room.new.early }
{
    while sweep(clocked, into, out, room, stale) {}
}

/// The early departures, by the room's late ones. The earliest arrivals by them are then the room's values.
pub(crate) fn sweep_early(
    alloc: Global,
    clocked: &ClockedSystem<'_>,
    room: &mut Room,
) -> Result<(), OutOfMemory>
    requires room { 1 + 2 * phase_count clocked.now.system.now.flat + element_count clocked.now.system.now.flat ≤
        room.old.nodes }
    requires late { AreLate clocked.now.system.now clocked.now.schedule.now room.old.late }
    ensures kept { room.new ≡ record room.old { early = room.new.early; values = room.new.values } }
    ensures early { OnOk result (AreEarly clocked.now.system.now clocked.now.schedule.now room.new.early) }
    ensures count { OnOk result (length room.new.values ≡ element_count clocked.now.system.now.flat) }
    ensures firsts { OnOk result ((l : ℕ) → l < element_count clocked.now.system.now.flat →
        IsFirst (least_of (early_arrivals clocked.now.system.now clocked.now.schedule.now room.new.early l))
        (value_at room.new.values l)) }
{
    let pairs = clocked.system.pairs();
    let count = clocked.count();
    let into = pairs_by_end(alloc, pairs, End::Second, count)?;
    let out = pairs_by_end(alloc, pairs, End::First, count)?;
    let mut stale = all_of(alloc, count)?;
    fill_early_starts(clocked, room);
    rise(clocked, &into, &out, room, &mut stale);
    gather(clocked, room);
    Ok(())
}
