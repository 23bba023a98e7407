//! The schedule and the departures that moments of the nodes stand for.
ghost use Rattle.std.specs.Prelude.{◌≡◌, ◌<◌, ◌-ℤ◌, IfOk, All, map};
ghost use Rattle.mintc_graph_walks.specs.Walks.{value_at};
ghost use Rattle.mintc_timing.specs.Design.{element_count, phase_count};
ghost use Rattle.mintc_timing.specs.Limits.{IsDesign, IsInRange, IsNumerator, IsPhase};
ghost use Rattle.mintc_timing.specs.Links.{end_node as end_of, start_node as start_of};
ghost use Rattle.mintc_timing.specs.Violations.{phases_of};
ghost use Rattle.mintc_constraints.specs.Duality.{departure_of, departures_of, schedule_of};
ghost use Rattle.mintc_certificate.specs.Ranges.{IsDeparture};
ghost use Rattle.mintc_ratio.specs.Searched.{IsCycle};
ghost use Rattle.mintc_optimise.specs.Making.{AreSayable};

use arrayvec::ArrayVec;
use mintc_certificate::Departures;
use mintc_fraction::Fraction;
use mintc_text::OutOfMemory;
use mintc_timing::{Flat, PhaseNumbers, Schedule, System, end_node, start_node};
use std::alloc::Global;

/// When a phase starts.
fn start(flat: &Flat, values: &[i128], phase: u32) -> i64
    requires design { IsDesign flat.now }
    requires phase { IsPhase (phase_count flat.now) phase }
    requires sayable { AreSayable flat.now values.now }
    ensures value { result ≡ value_at values.now (start_of phase) }
    ensures in_range { IsNumerator result }
{
    values[start_node(phase) as usize] as i64
}

/// How wide a phase is.
#[tactic(auto, using(crate::proofs::TimesLaws::width_read))]
fn width(flat: &Flat, values: &[i128], phase: u32) -> i64
    requires design { IsDesign flat.now }
    requires phase { IsPhase (phase_count flat.now) phase }
    requires sayable { AreSayable flat.now values.now }
    ensures value { result ≡ value_at values.now (end_of phase) -ℤ value_at values.now (start_of phase) }
    ensures in_range { IsNumerator result }
{
    (values[end_node(phase) as usize] - values[start_node(phase) as usize]) as i64
}

/// The starts of the phases.
#[tactic(auto, using(crate::proofs::TimesLaws::said_count))]
fn starts(flat: &Flat, values: &[i128]) -> PhaseNumbers
    requires { AreSayable flat.now values.now }
    ensures value { result ≡ map (λ p. value_at values.now (start_of p)) (phases_of flat.now) }
    ensures in_range { All IsNumerator result }
{
    let mut starts = ArrayVec::new();
    for index in 0..flat.phase_count() {
        starts.push(start(flat, values, index + 1));
    }
    PhaseNumbers::new(starts)
}

/// The widths of the phases.
#[tactic(auto, using(crate::proofs::TimesLaws::said_count))]
fn widths(flat: &Flat, values: &[i128]) -> PhaseNumbers
    requires { AreSayable flat.now values.now }
    ensures value { result ≡ map (λ p. value_at values.now (end_of p) -ℤ value_at values.now (start_of p))
        (phases_of flat.now) }
    ensures in_range { All IsNumerator result }
{
    let mut widths = ArrayVec::new();
    for index in 0..flat.phase_count() {
        widths.push(width(flat, values, index + 1));
    }
    PhaseNumbers::new(widths)
}

/// The schedule with this cycle time and these moments, as numerators over the cycle time's denominator.
pub fn schedule(system: &System, cycle: &Fraction, values: &[i128]) -> Schedule
    requires cycle { IsCycle cycle.now }
    requires sayable { AreSayable system.now.flat values.now }
    ensures value { result ≡ schedule_of system.now.flat cycle.now.num cycle.now.den values.now }
    ensures in_range { IsInRange result }
{
    let flat = system.flat();
    Schedule {
        den: cycle.den() as i64,
        cycle: cycle.num() as i64,
        starts: starts(flat, values),
        widths: widths(flat, values),
    }
}

/// The departure of an element, since its phase's start; that of a flop is 0.
#[tactic(auto, using(crate::proofs::TimesLaws::departure_fits, crate::proofs::TimesLaws::departure_read))]
fn departure(system: &System, values: &[i128], number: u32) -> i64
    requires number { number < element_count system.now.flat }
    requires sayable { AreSayable system.now.flat values.now }
    ensures value { result ≡ departure_of system.now.flat values.now number }
    ensures in_range { IsDeparture result }
{
    let node = system.flat().element_node(number);
    let element = system.element(number);
    if element.flop {
        return 0;
    }
    let start = start_node(element.phase);
    (values[node as usize] - values[start as usize]) as i64
}

/// The departures of the elements.
pub fn departures(
    alloc: Global,
    system: &System,
    values: &[i128],
) -> Result<Departures, OutOfMemory>
    requires { AreSayable system.now.flat values.now }
    ensures value { IfOk result (λ departures. departures ≡ departures_of system.now.flat values.now) }
    ensures in_range { IfOk result (All IsDeparture) }
{
    let mut departures = Vec::new(alloc);
    for number in 0..system.flat().element_count() {
        departures.push(departure(system, values, number))?;
    }
    Ok(Departures::new(departures))
}
