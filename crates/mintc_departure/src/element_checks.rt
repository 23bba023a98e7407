//! What the setups and the holds of the elements ask of a schedule, and by how much it fails.
#![tactic(auto, using(crate::proofs::FailedLaws::turns))]

ghost use Rattle.std.specs.Prelude.{◌≡◌, ◌<◌, ◌++◌, ◌∷◌, [], ◌⊎◌, ℕ, ℤ, pos, if◌then◌else◌, List, length, filter_map};
ghost use Rattle.std.specs.Prelude.{option_map, IfSome, OnOk};
ghost use Rattle.mintc_graph_walks.specs.Walks.{value_at};
ghost use Rattle.mintc_timing.specs.Clocking.{width_of};
ghost use Rattle.mintc_timing.specs.Departures.{departure, early_arrivals, late_arrivals};
ghost use Rattle.mintc_timing.specs.Design.{element_at, element_count, phase_of};
ghost use Rattle.mintc_timing.specs.Extremes.{greatest_of, least_of};
ghost use Rattle.mintc_timing.specs.Limits.{IsNumerator};
ghost use Rattle.mintc_timing.specs.Violations.{check, failed, hold_amount, hold_checks, setup_amount, setup_checks};
ghost use Rattle.mintc_departure.specs.Excesses.{IsExcess, IsLast};
ghost use Rattle.mintc_departure.specs.Rounds.{AreSums, IsArrivalSum, IsFirst};
ghost use Rattle.mintc_departure.specs.Settled.{IsSum};

use crate::arrivals::NEVER;
use crate::clock_checks::judge;
use crate::clocked_system::ClockedSystem;
use crate::latest::LONG_AGO;
use mintc_constraints::Room;
use mintc_text::OutOfMemory;
use mintc_timing::{Broken, Violation};
use mintc_timing_links::{times_denominator, width};

/// By how much an element fails its setup, by its late departure and its latest arrival; a flop that no pair leads
/// to has no setup to keep.
fn setup_excess(clocked: &ClockedSystem<'_>, time: i64, last: i128, number: u32) -> Option<i64>
    requires number { number < element_count clocked.now.system.now.flat }
    requires time { IsSum time }
    requires last { (last ≡ LONG_AGO) ⊎ IsArrivalSum last }
    ensures value { (d : List ℤ) → departure d number ≡ time →
        IsLast (greatest_of (late_arrivals clocked.now.system.now clocked.now.schedule.now d number)) last →
        result ≡ setup_amount clocked.now.system.now clocked.now.schedule.now d number }
    ensures range { IfSome result IsExcess }
{
    let element = clocked.system.element(number);
    let setup = times_denominator(element.setup, clocked.schedule.den);
    if !element.flop {
        return Some(i64::max(0, time) + setup - width(clocked.schedule, element.phase));
    }
    if last == LONG_AGO {
        return None;
    }
    Some(last as i64 + setup)
}

/// Appends an element's setup, if the element fails it.
fn judge_setup(
    clocked: &ClockedSystem<'_>,
    room: &Room,
    number: u32,
    violations: &mut Vec<Violation>,
) -> Result<(), OutOfMemory>
    requires number { number < element_count clocked.now.system.now.flat }
    requires departures { AreSums clocked.now.system.now.flat room.now.late }
    requires count { length room.now.values ≡ element_count clocked.now.system.now.flat }
    requires last { IsLast
        (greatest_of (late_arrivals clocked.now.system.now clocked.now.schedule.now room.now.late number))
        (value_at room.now.values number) }
    ensures { OnOk result (violations.new.items ≡ violations.old.items
        ++ failed (filter_map (λ l. option_map (check (Broken.Setup l))
        (setup_amount clocked.now.system.now clocked.now.schedule.now room.now.late l)) (number ∷ []))) }
{
    let time = room.late()[number as usize];
    let last = room.values()[number as usize];
    match setup_excess(clocked, time, last, number) {
        Some(amount) => judge(violations, Broken::Setup { element: number }, amount),
        None => Ok(()),
    }
}

/// Appends the setups that aren't kept. The room's values have to be the latest arrivals by its late departures.
pub(crate) fn judge_setups(
    clocked: &ClockedSystem<'_>,
    room: &Room,
    violations: &mut Vec<Violation>,
) -> Result<(), OutOfMemory>
    requires departures { AreSums clocked.now.system.now.flat room.now.late }
    requires count { length room.now.values ≡ element_count clocked.now.system.now.flat }
    requires lasts { (l : ℕ) → l < element_count clocked.now.system.now.flat →
        IsLast (greatest_of (late_arrivals clocked.now.system.now clocked.now.schedule.now room.now.late l))
        (value_at room.now.values l) }
    ensures { OnOk result (violations.new.items ≡ violations.old.items
        ++ failed (setup_checks clocked.now.system.now clocked.now.schedule.now room.now.late)) }
{
    for number in 0..clocked.count() {
        judge_setup(clocked, room, number as u32, violations)?;
    }
    Ok(())
}

/// How long after the start of its phase an element's data has to hold, its hold aside.
fn hold_start(clocked: &ClockedSystem<'_>, number: u32) -> i64
    requires number { number < element_count clocked.now.system.now.flat }
    ensures value { result
        ≡ (if (element_at clocked.now.system.now.flat number).flop then pos 0
        else width_of clocked.now.schedule.now (phase_of clocked.now.system.now.flat number)) }
    ensures range { IsNumerator result }
{
    let element = clocked.system.element(number);
    if element.flop {
        0
    } else {
        width(clocked.schedule, element.phase)
    }
}

/// By how much an element fails its hold, by its earliest arrival; one that has no hold, or that no pair leads to,
/// has none to keep.
fn hold_excess(clocked: &ClockedSystem<'_>, first: i128, number: u32) -> Option<i64>
    requires number { number < element_count clocked.now.system.now.flat }
    requires first { (first ≡ NEVER) ⊎ IsArrivalSum first }
    ensures value { (d : List ℤ) →
        IsFirst (least_of (early_arrivals clocked.now.system.now clocked.now.schedule.now d number)) first →
        result ≡ hold_amount clocked.now.system.now clocked.now.schedule.now d number }
    ensures range { IfSome result IsExcess }
{
    let element = clocked.system.element(number);
    if !element.has_hold {
        return None;
    }
    if first == NEVER {
        return None;
    }
    let hold = times_denominator(element.hold, clocked.schedule.den);
    Some(hold_start(clocked, number) + hold - (first as i64 + clocked.schedule.cycle))
}

/// Appends an element's hold, if the element fails it.
fn judge_hold(
    clocked: &ClockedSystem<'_>,
    room: &Room,
    number: u32,
    violations: &mut Vec<Violation>,
) -> Result<(), OutOfMemory>
    requires number { number < element_count clocked.now.system.now.flat }
    requires count { length room.now.values ≡ element_count clocked.now.system.now.flat }
    requires first { IsFirst
        (least_of (early_arrivals clocked.now.system.now clocked.now.schedule.now room.now.early number))
        (value_at room.now.values number) }
    ensures { OnOk result (violations.new.items ≡ violations.old.items
        ++ failed (filter_map (λ l. option_map (check (Broken.Hold l))
        (hold_amount clocked.now.system.now clocked.now.schedule.now room.now.early l)) (number ∷ []))) }
{
    let first = room.values()[number as usize];
    match hold_excess(clocked, first, number) {
        Some(amount) => judge(violations, Broken::Hold { element: number }, amount),
        None => Ok(()),
    }
}

/// Appends the holds that aren't kept. The room's values have to be the earliest arrivals by its early departures.
pub(crate) fn judge_holds(
    clocked: &ClockedSystem<'_>,
    room: &Room,
    violations: &mut Vec<Violation>,
) -> Result<(), OutOfMemory>
    requires count { length room.now.values ≡ element_count clocked.now.system.now.flat }
    requires firsts { (l : ℕ) → l < element_count clocked.now.system.now.flat →
        IsFirst (least_of (early_arrivals clocked.now.system.now clocked.now.schedule.now room.now.early l))
        (value_at room.now.values l) }
    ensures { OnOk result (violations.new.items ≡ violations.old.items
        ++ failed (hold_checks clocked.now.system.now clocked.now.schedule.now room.now.early)) }
{
    for number in 0..clocked.count() {
        judge_hold(clocked, room, number as u32, violations)?;
    }
    Ok(())
}
