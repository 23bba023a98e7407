//! The earliest arrivals at each element.
ghost use Rattle.std.specs.Prelude.{◌≡◌, ◌<◌, ◌≤◌, ℕ, length, slice_set};
ghost use Rattle.std.specs.Int.{int_min};
ghost use Rattle.mintc_graph_walks.specs.Walks.{value_at};
ghost use Rattle.mintc_timing.specs.Departures.{early_arrival, early_arrivals};
ghost use Rattle.mintc_timing.specs.Design.{element_count, pair_at};
ghost use Rattle.mintc_timing.specs.Extremes.{least_of};
ghost use Rattle.mintc_departure.specs.Rounds.{AreSums, IsArrivalSum, IsFirst};

use crate::clocked_system::ClockedSystem;
use mintc_constraints::Room;

/// The arrival at an element that no pair leads to: later than any other.
pub(crate) const NEVER: i128 = i128::MAX;

/// When data that leaves the first element of a pair reaches the second one at the earliest.
pub(crate) fn arrival(clocked: &ClockedSystem<'_>, departures: &[i64], number: usize) -> i64
    requires departures { AreSums clocked.now.system.now.flat departures.now }
    requires number { number < length clocked.now.system.now.pairs }
    ensures value { result ≡ early_arrival clocked.now.system.now.flat clocked.now.schedule.now departures.now
        (pair_at clocked.now.system.now number) }
    ensures range { IsArrivalSum result }
{
    departures[clocked.system.pair(number).from as usize] + clocked.early_delay(number)
}

/// Lowers the value of a pair's second element to the pair's arrival.
fn lower_to(clocked: &ClockedSystem<'_>, room: &mut Room, number: usize)
    requires departures { AreSums clocked.now.system.now.flat room.old.early }
    requires number { number < length clocked.now.system.now.pairs }
    requires count { length room.old.values ≡ element_count clocked.now.system.now.flat }
    ensures inside { (pair_at clocked.now.system.now number).to < element_count clocked.now.system.now.flat }
    ensures range { IsArrivalSum (early_arrival clocked.now.system.now.flat clocked.now.schedule.now room.old.early
        (pair_at clocked.now.system.now number)) }
    ensures value { let pair = pair_at clocked.now.system.now number in room.new ≡ record room.old {
      values = slice_set room.old.values pair.to
          (int_min (early_arrival clocked.now.system.now.flat clocked.now.schedule.now room.old.early pair)
          (value_at room.old.values pair.to));
    } }
{
    let to = clocked.system.pair(number).to as usize;
    let time = i128::from(arrival(clocked, room.early(), number));
    let earliest = i128::min(time, room.values()[to]);
    room.set_values(to, earliest);
}

/// Makes the values so many times the item.
pub(crate) fn fill(room: &mut Room, count: usize, item: i128)
    requires { count ≤ room.old.nodes }
    ensures kept { room.new ≡ record room.old { values = room.new.values } }
    ensures count { length room.new.values ≡ count }
    ensures each { (l : ℕ) → l < count → value_at room.new.values l ≡ item }
{
    room.fill_values(count);
    for number in 0..count {
        room.set_values(number, item);
    }
}

/// Makes the values the earliest arrivals at the elements, by the room's early departures.
pub(crate) fn gather(clocked: &ClockedSystem<'_>, room: &mut Room)
    requires nodes { element_count clocked.now.system.now.flat ≤ room.old.nodes }
    requires departures { AreSums clocked.now.system.now.flat room.old.early }
    ensures kept { room.new ≡ record room.old { values = room.new.values } }
    ensures count { length room.new.values ≡ element_count clocked.now.system.now.flat }
    ensures each { (l : ℕ) → l < element_count clocked.now.system.now.flat →
        IsFirst (least_of (early_arrivals clocked.now.system.now clocked.now.schedule.now room.old.early l))
        (value_at room.new.values l) }
{
    fill(room, clocked.count(), NEVER);
    for number in 0..clocked.system.pairs().len() {
        lower_to(clocked, room, number);
    }
}
