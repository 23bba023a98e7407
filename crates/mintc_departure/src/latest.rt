//! The latest arrivals at each element.
ghost use Rattle.std.specs.Prelude.{◌≡◌, ◌<◌, ◌≤◌, ℕ, length, slice_set};
ghost use Rattle.std.specs.Int.{int_max};
ghost use Rattle.mintc_graph_walks.specs.Walks.{value_at};
ghost use Rattle.mintc_timing.specs.Departures.{late_arrival, late_arrivals};
ghost use Rattle.mintc_timing.specs.Design.{element_count, pair_at};
ghost use Rattle.mintc_timing.specs.Extremes.{greatest_of};
ghost use Rattle.mintc_departure.specs.Clocked.{IsClocked};
ghost use Rattle.mintc_departure.specs.Excesses.{IsLast};
ghost use Rattle.mintc_departure.specs.Rounds.{AreSums, IsArrivalSum};

use crate::arrivals::fill;
use crate::clocked_system::ClockedSystem;
use mintc_constraints::Room;

/// The latest arrival at an element that no pair leads to: earlier than any other.
pub(crate) const LONG_AGO: i128 = i128::MIN;

/// When data that leaves the first element of a pair reaches the second one at the latest.
fn latest(clocked: &ClockedSystem<'_>, departures: &[i64], number: usize) -> i64
    requires departures { AreSums clocked.now.system.now.flat departures.now }
    requires number { number < length clocked.now.system.now.pairs }
    ensures value { result ≡ late_arrival clocked.now.system.now.flat clocked.now.schedule.now departures.now
        (pair_at clocked.now.system.now number) }
    ensures range { IsArrivalSum result }
{
    departures[clocked.system.pair(number).from as usize] + clocked.late_delay(number)
}

/// Raises the value of a pair's second element to the pair's arrival.
fn bring_latest(clocked: &ClockedSystem<'_>, room: &mut Room, number: usize)
    requires departures { AreSums clocked.now.system.now.flat room.old.late }
    requires number { number < length clocked.now.system.now.pairs }
    requires count { length room.old.values ≡ element_count clocked.now.system.now.flat }
    ensures inside { (pair_at clocked.now.system.now number).to < element_count clocked.now.system.now.flat }
    ensures range { IsArrivalSum (late_arrival clocked.now.system.now.flat clocked.now.schedule.now room.old.late
        (pair_at clocked.now.system.now number)) }
    ensures value { let pair = pair_at clocked.now.system.now number in room.new ≡ record room.old {
      values = slice_set room.old.values pair.to
          (int_max (late_arrival clocked.now.system.now.flat clocked.now.schedule.now room.old.late pair)
          (value_at room.old.values pair.to));
    } }
{
    let to = clocked.system.pair(number).to as usize;
    let time = i128::from(latest(clocked, room.late(), number));
    let last = i128::max(time, room.values()[to]);
    room.set_values(to, last);
}

/// Makes the values the latest arrivals at the elements, by the room's late departures.
pub(crate) fn gather_latest(clocked: &ClockedSystem<'_>, room: &mut Room)
    requires nodes { element_count clocked.now.system.now.flat ≤ room.old.nodes }
    requires departures { AreSums clocked.now.system.now.flat room.old.late }
    ensures kept { room.new ≡ record room.old { values = room.new.values } }
    ensures count { length room.new.values ≡ element_count clocked.now.system.now.flat }
    ensures each { (l : ℕ) → l < element_count clocked.now.system.now.flat →
        IsLast (greatest_of (late_arrivals clocked.now.system.now clocked.now.schedule.now room.old.late l))
        (value_at room.new.values l) }
    ensures fits { IsClocked clocked.now.system.now clocked.now.schedule.now }
{
    fill(room, clocked.count(), LONG_AGO);
    for number in 0..clocked.system.pairs().len() {
        bring_latest(clocked, room, number);
    }
}
