//! The last arrivals at elements, and what they ask.
ghost use Rattle.std.specs.Prelude.{◌≡◌, ◌<◌, ◌+◌, ◌*◌, ℕ, ℤ, List, length, IfSome};
ghost use Rattle.std.specs.Int.{int_max};
ghost use Rattle.mintc_lanes.specs.Lanes.{joined};
ghost use Rattle.mintc_timing.specs.Departures.{AreExact, departure, late_departure as departure_of, late_opening};
ghost use Rattle.mintc_timing.specs.Design.{element_count};
ghost use Rattle.mintc_timing.specs.Limits.{IsModest};
ghost use Rattle.mintc_timing.specs.Right.{KeepsSetup};
ghost use Rattle.mintc_checker.specs.Decided.{Decides, OfTiming};
ghost use Rattle.mintc_checker.specs.Judged.{AreTimely, AreTimelyLabels, IsArrivalTime, IsLate};
ghost use Rattle.mintc_checker.specs.Labels.{AreLabels};
ghost use Rattle.mintc_checker.specs.Trails.{IsLastArrival};

use crate::clocked_design::ClockedDesign;
use crate::labels::{LabelTable, departure_at, label_in};
use mintc_timing::shift;
use mintc_timing_links::{times_denominator, width};

/// The later of two times, of which the second is moved; either may be absent.
fn later(last: Option<i64>, label: Option<i64>, add: i64) -> Option<i64>
    requires last { IfSome last IsArrivalTime }
    requires label { IfSome label IsLate }
    requires add { IsModest add }
    ensures value { result ≡ joined int_max last label add }
    ensures range { IfSome result IsArrivalTime }
{
    let Some(label) = label else {
        return last;
    };
    let Some(last) = last else {
        return Some(label + add);
    };
    Some(i64::max(last, label + add))
}

/// When the last data arrives at an element, counted from the start of its phase; None where no trail leads to it.
fn last_arrival(clocked: &ClockedDesign<'_>, labels: &LabelTable, number: u32) -> Option<i64>
    requires number { number < length clocked.now.flat.now.elements }
    requires count { length labels.now ≡ 2 * length clocked.now.flat.now.elements + length clocked.now.flat.now.inner }
    requires timely { AreTimely (length clocked.now.flat.now.elements) labels.now }
    ensures last { (d : List ℤ) → AreLabels clocked.now.flat.now clocked.now.schedule.now.den d labels.now →
        IsLastArrival clocked.now.flat.now clocked.now.schedule.now d number result }
    ensures range { IfSome result IsArrivalTime }
{
    let phase = clocked.flat.element(number).phase;
    let mut last = None;
    for lane in 0..clocked.flat.phase_count() {
        let add = shift(clocked.schedule, lane + 1, phase);
        last = later(
            last,
            label_in(labels, 2 * number as usize, lane as usize),
            add,
        );
    }
    last
}

/// When an element opens.
fn opening(clocked: &ClockedDesign<'_>, number: u32) -> i64
    requires number { number < length clocked.now.flat.now.elements }
    ensures value { result ≡ late_opening clocked.now.flat.now clocked.now.schedule.now number }
    ensures range { IsModest result }
{
    let element = clocked.flat.element(number);
    times_denominator(element.cq_max - element.dq_max, clocked.schedule.den)
}

/// When an element's data leaves, as the labels make it.
fn late_departure(clocked: &ClockedDesign<'_>, labels: &LabelTable, number: u32) -> i64
    requires number { number < length clocked.now.flat.now.elements }
    requires count { length labels.now ≡ 2 * length clocked.now.flat.now.elements + length clocked.now.flat.now.inner }
    requires timely { AreTimely (length clocked.now.flat.now.elements) labels.now }
    ensures value { (d : List ℤ) → AreLabels clocked.now.flat.now clocked.now.schedule.now.den d labels.now →
        OfTiming clocked.now.flat.now (λ t. result ≡ departure_of t clocked.now.schedule.now d number) }
{
    if clocked.flat.element(number).flop {
        return 0;
    }
    let open = opening(clocked, number);
    match last_arrival(clocked, labels, number) {
        Some(last) => i64::max(open, last),
        None => open,
    }
}

/// Whether an element's departure is what the labels make it.
fn is_exact(
    clocked: &ClockedDesign<'_>,
    labels: &LabelTable,
    departures: &[i64],
    number: u32,
) -> bool
    requires number { number < length clocked.now.flat.now.elements }
    requires labels { AreTimelyLabels clocked.now.flat.now clocked.now.schedule.now.den departures.now labels.now }
    ensures { Decides clocked.now.flat.now result (λ t. departure departures.now number
        ≡ departure_of t clocked.now.schedule.now departures.now number) }
{
    departure_at(departures, number as usize) == late_departure(clocked, labels, number)
}

/// Whether all departures are exact: the fourth test.
pub(crate) fn are_exact(
    clocked: &ClockedDesign<'_>,
    labels: &LabelTable,
    departures: &[i64],
) -> bool
    requires elements { length departures.now ≡ length clocked.now.flat.now.elements }
    requires labels { AreTimelyLabels clocked.now.flat.now clocked.now.schedule.now.den departures.now labels.now }
    ensures { Decides clocked.now.flat.now result (λ t. AreExact t clocked.now.schedule.now departures.now) }
{
    for number in 0..clocked.flat.element_count() {
        if !is_exact(clocked, labels, departures, number) {
            return false;
        }
    }
    true
}

/// Whether an element keeps its setup.
fn keeps_setup(
    clocked: &ClockedDesign<'_>,
    labels: &LabelTable,
    departures: &[i64],
    number: u32,
) -> bool
    requires number { number < length clocked.now.flat.now.elements }
    requires labels { AreTimelyLabels clocked.now.flat.now clocked.now.schedule.now.den departures.now labels.now }
    ensures { Decides clocked.now.flat.now result (λ t. KeepsSetup t clocked.now.schedule.now departures.now number) }
{
    let element = clocked.flat.element(number);
    let setup = times_denominator(element.setup, clocked.schedule.den);
    if !element.flop {
        let leaves = i64::max(0, departure_at(departures, number as usize));
        return leaves + setup <= width(clocked.schedule, element.phase);
    }
    match last_arrival(clocked, labels, number) {
        Some(last) => last + setup <= 0,
        None => true,
    }
}

/// Whether all elements keep their setups: the fifth test.
pub(crate) fn keep_setups(
    clocked: &ClockedDesign<'_>,
    labels: &LabelTable,
    departures: &[i64],
) -> bool
    requires labels { AreTimelyLabels clocked.now.flat.now clocked.now.schedule.now.den departures.now labels.now }
    ensures { Decides clocked.now.flat.now result (λ t. (l : ℕ) → l < element_count t.flat →
        KeepsSetup t clocked.now.schedule.now departures.now l) }
{
    for number in 0..clocked.flat.element_count() {
        if !keeps_setup(clocked, labels, departures, number) {
            return false;
        }
    }
    true
}
