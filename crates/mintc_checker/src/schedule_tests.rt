//! The tests of a schedule against the counts, the clock and the bounds.
ghost use Rattle.std.specs.Prelude.{◌≡◌, ◌+◌, ◌-◌, ◌*◌, ◌<◌, ◌≤◌, ◌≤ℤ◌, ◌-ℤ◌, ◌*ℤ◌, pos, ℕ, length, IsTrue, ◌↔◌, All};
ghost use Rattle.mintc_text.specs.declared.limits.TheConstants.{MOST_PHASES};
ghost use Rattle.mintc_timing.specs.Clocking.{KeepsApart, KeepsBound, KeepsClock, KeepsPhase, EachPhase, crosses_of};
ghost use Rattle.mintc_timing.specs.Clocking.{end_of, least_width, start_of, width_of};
ghost use Rattle.mintc_timing.specs.Limits.{IsBound, IsPhase};
ghost use Rattle.mintc_certificate.specs.Valid.{HasCounts};
ghost use Rattle.mintc_checker.specs.Decided.{Decides, IsFed};
ghost use Rattle.mintc_checker.specs.Judged.{AreTimelyLabels, IsFedAt, KeepsOwn};

use crate::clocked_design::ClockedDesign;
use crate::departing_design::DepartingDesign;
use crate::labels::{LabelTable, label_in};
use mintc_timing::{Bound, Flat, Schedule};
use mintc_timing_links::{
    apart_excess, bound_excess, cycle_excess, order_excess, span_excess, width_excess,
};

/// Whether the schedule has the design's phases, and the departures are as many as its elements: the first test.
pub(crate) fn has_counts(flat: &Flat, schedule: &Schedule, departures: &[i64]) -> bool
    ensures { IsTrue result ↔ HasCounts flat.now schedule.now departures.now }
{
    let phases = flat.phases().items().len();
    let elements = flat.elements().len();
    schedule.starts.items().len() == phases
        && schedule.widths.items().len() == phases
        && departures.len() == elements
}

/// Whether data of phase `i` reaches an element, if that is a latch on phase `j`.
fn feeds_element(flat: &Flat, labels: &LabelTable, i: u32, j: u32, number: u32) -> bool
    requires first { IsPhase MOST_PHASES i }
    requires number { number < length flat.now.elements }
    requires count { length labels.now ≡ 2 * length flat.now.elements + length flat.now.inner }
    ensures { IsTrue result ↔ IsFedAt flat.now labels.now i j number }
{
    let element = flat.element(number);
    if element.flop || element.phase != j {
        return false;
    }
    label_in(labels, 2 * number as usize, i as usize - 1).is_some()
}

/// Whether phase `i` feeds phase `j`.
fn feeds(flat: &Flat, labels: &LabelTable, i: u32, j: u32) -> bool
    requires first { IsPhase MOST_PHASES i }
    requires count { length labels.now ≡ 2 * length flat.now.elements + length flat.now.inner }
    ensures { IsTrue result ↔ ((l : ℕ) × (l < length flat.now.elements) × IsFedAt flat.now labels.now i j l) }
{
    for number in 0..flat.element_count() {
        if feeds_element(flat, labels, i, j, number) {
            return true;
        }
    }
    false
}

/// Which phase feeds which: `i` feeds `j` at place `8 * (i - 1) + (j - 1)`.
pub(crate) fn feeds_table(departing: &DepartingDesign<'_>, labels: &LabelTable) -> [bool; 64]
    requires { AreTimelyLabels departing.now.flat.now departing.now.den departing.now.departures.now labels.now }
    ensures { IsFed departing.now.flat.now result }
{
    let mut fed = [false; 64];
    for place in 0..64 {
        fed[place] = feeds(
            departing.flat,
            labels,
            place as u32 / 8 + 1,
            place as u32 % 8 + 1,
        );
    }
    fed
}

/// Whether phase `i` starts no sooner than phase `j` ends, the cycles taken off, where that is asked.
fn keeps_apart(clocked: &ClockedDesign<'_>, asked: bool, i: u32, j: u32) -> bool
    requires first { IsPhase (length clocked.now.schedule.now.starts) i }
    requires second { IsPhase (length clocked.now.schedule.now.starts) j }
    ensures { IsTrue result ↔ (IsTrue asked →
        (end_of clocked.now.schedule.now j -ℤ pos (crosses_of j i) *ℤ clocked.now.schedule.now.cycle) ≤ℤ start_of
        clocked.now.schedule.now i) }
{
    !asked || apart_excess(clocked.schedule, i, j) <= 0
}

/// Whether phase `i` is apart from all phases that it feeds.
fn keeps_aparts(clocked: &ClockedDesign<'_>, fed: &[bool], i: u32) -> bool
    requires phase { IsPhase (length clocked.now.schedule.now.starts) i }
    requires fed { IsFed clocked.now.flat.now fed.now }
    ensures { Decides clocked.now.flat.now result (λ t. EachPhase t.flat (KeepsApart t clocked.now.schedule.now i)) }
{
    for index in 0..clocked.flat.phase_count() {
        let asked = fed[8 * (i as usize - 1) + index as usize];
        if !keeps_apart(clocked, asked, i, index + 1) {
            return false;
        }
    }
    true
}

/// Whether a phase starts no later than the cycle.
fn starts_in_cycle(clocked: &ClockedDesign<'_>, phase: u32) -> bool
    requires phase { IsPhase (length clocked.now.schedule.now.starts) phase }
    ensures { IsTrue result ↔ (start_of clocked.now.schedule.now phase ≤ℤ clocked.now.schedule.now.cycle) }
{
    cycle_excess(clocked.schedule, phase) <= 0
}

/// Whether a phase is no wider than the cycle.
fn fits_cycle(clocked: &ClockedDesign<'_>, phase: u32) -> bool
    requires phase { IsPhase (length clocked.now.schedule.now.starts) phase }
    ensures { IsTrue result ↔ (width_of clocked.now.schedule.now phase ≤ℤ clocked.now.schedule.now.cycle) }
{
    span_excess(clocked.schedule, phase) <= 0
}

/// Whether a phase starts no later than the next one, if there is one.
fn starts_in_order(clocked: &ClockedDesign<'_>, phase: u32) -> bool
    requires phase { IsPhase (length clocked.now.schedule.now.starts) phase }
    ensures { IsTrue result ↔ (phase < length clocked.now.schedule.now.starts →
        start_of clocked.now.schedule.now phase ≤ℤ start_of clocked.now.schedule.now (phase + 1)) }
{
    phase as usize == clocked.schedule.starts.items().len()
        || order_excess(clocked.schedule, phase) <= 0
}

/// Whether a phase is as wide as its elements ask.
fn is_wide(clocked: &ClockedDesign<'_>, phase: u32) -> bool
    requires phase { IsPhase (length clocked.now.schedule.now.starts) phase }
    ensures { IsTrue result ↔
        ((least_width clocked.now.flat.now phase *ℤ clocked.now.schedule.now.den) ≤ℤ width_of clocked.now.schedule.now
        phase) }
{
    width_excess(clocked.flat, clocked.schedule, phase) <= 0
}

/// Whether a phase is in range, starts no later than the next one, and is as wide as its elements ask.
fn keeps_own(clocked: &ClockedDesign<'_>, phase: u32) -> bool
    requires phase { IsPhase (length clocked.now.schedule.now.starts) phase }
    ensures { IsTrue result ↔ KeepsOwn clocked.now.flat.now clocked.now.schedule.now phase }
{
    starts_in_cycle(clocked, phase)
        && fits_cycle(clocked, phase)
        && starts_in_order(clocked, phase)
        && is_wide(clocked, phase)
}

/// Whether a schedule keeps what the clock asks at a phase.
fn keeps_phase(clocked: &ClockedDesign<'_>, fed: &[bool], phase: u32) -> bool
    requires phase { IsPhase (length clocked.now.schedule.now.starts) phase }
    requires fed { IsFed clocked.now.flat.now fed.now }
    ensures { Decides clocked.now.flat.now result (λ t. KeepsPhase t clocked.now.schedule.now phase) }
{
    keeps_own(clocked, phase) && keeps_aparts(clocked, fed, phase)
}

/// Whether a schedule keeps the clock: the second test.
pub(crate) fn keeps_clock(clocked: &ClockedDesign<'_>, fed: &[bool]) -> bool
    requires fed { IsFed clocked.now.flat.now fed.now }
    ensures { Decides clocked.now.flat.now result (λ t. KeepsClock t clocked.now.schedule.now) }
{
    for index in 0..clocked.flat.phase_count() {
        if !keeps_phase(clocked, fed, index + 1) {
            return false;
        }
    }
    true
}

/// Whether a schedule keeps a bound.
fn keeps_bound(clocked: &ClockedDesign<'_>, bound: &Bound) -> bool
    requires bound { IsBound (length clocked.now.schedule.now.starts) bound.now }
    ensures { IsTrue result ↔ KeepsBound clocked.now.schedule.now bound.now }
{
    bound_excess(clocked.schedule, bound) <= 0
}

/// Whether a schedule keeps all bounds: the third test.
pub(crate) fn keeps_bounds(clocked: &ClockedDesign<'_>) -> bool
    ensures { IsTrue result ↔ All (KeepsBound clocked.now.schedule.now) clocked.now.flat.now.bounds }
{
    for bound in clocked.flat.bounds() {
        if !keeps_bound(clocked, bound) {
            return false;
        }
    }
    true
}
