//! What the clock and the bounds ask of a schedule, and by how much it fails.
ghost use Rattle.std.specs.Prelude.{◌≡◌, ◌+◌, ◌≤◌, ◌<◌, pos, ◌+ℤ◌, ◌-ℤ◌, ◌*ℤ◌, length};
ghost use Rattle.mintc_timing.specs.Clocking.{start_of, width_of, end_of, time_of, crosses_of, least_width};
ghost use Rattle.mintc_timing.specs.Limits.{IsBound, IsDenominator, IsInRange, IsModest, IsNumerator, IsPhase, IsPoint};
ghost use Rattle.mintc_timing.specs.Limits.{IsSpan, IsTime};

use crate::links::width_needed;
use mintc_timing::{Bound, Flat, Point, Schedule, crosses};

/// A span of time in femtoseconds, times the denominator.
pub fn times_denominator(span: i64, den: i64) -> i64
    requires span { IsSpan span }
    requires den { IsDenominator den }
    ensures value { result ≡ span *ℤ den }
    ensures range { IsModest result }
{
    span * den
}

/// When a phase starts.
fn start(schedule: &Schedule, phase: u32) -> i64
    requires in_range { IsInRange schedule.now }
    requires phase { IsPhase (length schedule.now.starts) phase }
    ensures value { result ≡ start_of schedule.now phase }
    ensures range { IsNumerator result }
{
    schedule.starts.items()[phase as usize - 1]
}

/// How wide a phase is.
pub fn width(schedule: &Schedule, phase: u32) -> i64
    requires in_range { IsInRange schedule.now }
    requires phase { IsPhase (length schedule.now.starts) phase }
    ensures value { result ≡ width_of schedule.now phase }
    ensures range { IsNumerator result }
{
    schedule.widths.items()[phase as usize - 1]
}

/// When a point of the clock comes.
fn time(schedule: &Schedule, point: Point) -> i64
    requires in_range { IsInRange schedule.now }
    requires point { IsPoint (length schedule.now.starts) point }
    ensures value { result ≡ time_of schedule.now point }
    ensures range { IsModest result }
{
    match point {
        Point::Origin => 0,
        Point::Start(phase) => start(schedule, phase),
        Point::End(phase) => start(schedule, phase) + width(schedule, phase),
    }
}

/// The time of no cycle or of one.
fn time_of_cycles(cycles: u32, schedule: &Schedule) -> i64
    requires in_range { IsInRange schedule.now }
    requires cycles { cycles ≤ 1 }
    ensures value { result ≡ pos cycles *ℤ schedule.now.cycle }
    ensures range { IsNumerator result }
{
    if cycles == 0 { 0 } else { schedule.cycle }
}

/// By how much a phase starts after the cycle.
pub fn cycle_excess(schedule: &Schedule, phase: u32) -> i64
    requires in_range { IsInRange schedule.now }
    requires phase { IsPhase (length schedule.now.starts) phase }
    ensures value { result ≡ start_of schedule.now phase -ℤ schedule.now.cycle }
    ensures range { IsTime result }
{
    start(schedule, phase) - schedule.cycle
}

/// By how much a phase starts after the next one.
pub fn order_excess(schedule: &Schedule, phase: u32) -> i64
    requires in_range { IsInRange schedule.now }
    requires phase { IsPhase (length schedule.now.starts) phase }
    requires next { phase < length schedule.now.starts }
    ensures value { result ≡ start_of schedule.now phase -ℤ start_of schedule.now (phase + 1) }
    ensures range { IsTime result }
{
    start(schedule, phase) - start(schedule, phase + 1)
}

/// By how much a phase is wider than the cycle.
pub fn span_excess(schedule: &Schedule, phase: u32) -> i64
    requires in_range { IsInRange schedule.now }
    requires phase { IsPhase (length schedule.now.starts) phase }
    ensures value { result ≡ width_of schedule.now phase -ℤ schedule.now.cycle }
    ensures range { IsTime result }
{
    width(schedule, phase) - schedule.cycle
}

/// By how much a phase is narrower than its elements ask.
pub fn width_excess(flat: &Flat, schedule: &Schedule, phase: u32) -> i64
    requires in_range { IsInRange schedule.now }
    requires phase { IsPhase (length schedule.now.starts) phase }
    ensures value { result ≡ least_width flat.now phase *ℤ schedule.now.den -ℤ width_of schedule.now phase }
    ensures range { IsTime result }
{
    times_denominator(width_needed(flat, phase), schedule.den) - width(schedule, phase)
}

/// By how much phase `j` ends after phase `i` starts, the cycles taken off.
pub fn apart_excess(schedule: &Schedule, i: u32, j: u32) -> i64
    requires in_range { IsInRange schedule.now }
    requires first { IsPhase (length schedule.now.starts) i }
    requires second { IsPhase (length schedule.now.starts) j }
    ensures value { result
        ≡ end_of schedule.now j -ℤ pos (crosses_of j i) *ℤ schedule.now.cycle -ℤ start_of schedule.now i }
    ensures range { IsTime result }
{
    start(schedule, j) + width(schedule, j)
        - time_of_cycles(crosses(j, i), schedule)
        - start(schedule, i)
}

/// By how much the later point of a bound comes too soon.
pub fn bound_excess(schedule: &Schedule, bound: &Bound) -> i64
    requires in_range { IsInRange schedule.now }
    requires bound { IsBound (length schedule.now.starts) bound.now }
    ensures value { result
        ≡ time_of schedule.now bound.now.from +ℤ bound.now.gap *ℤ schedule.now.den -ℤ pos bound.now.cycles *ℤ
        schedule.now.cycle -ℤ time_of schedule.now bound.now.to }
    ensures range { IsTime result }
{
    let gap = times_denominator(bound.gap, schedule.den);
    let earliest = time(schedule, bound.from) + gap - time_of_cycles(bound.cycles, schedule);
    earliest - time(schedule, bound.to)
}
