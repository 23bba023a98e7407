//! When the moments of nodes are.
ghost use Rattle.std.specs.Prelude.{◌≡◌, ◌<◌, ◌≤◌, ◌*◌, pos, negsuc, ◌*ℤ◌, ◌≤ℤ◌};
ghost use Rattle.mintc_timing.specs.Clocking.{start_of, width_of};
ghost use Rattle.mintc_timing.specs.Departures.{departure};
ghost use Rattle.mintc_timing.specs.Design.{element_count, phase_count};
ghost use Rattle.mintc_timing.specs.Limits.{IsDenominator, IsNumerator, IsPhase, IsTime};
ghost use Rattle.mintc_timing.specs.Links.{node_count};
ghost use Rattle.mintc_timing.specs.Times.{element_time, node_time};
ghost use Rattle.mintc_certificate.specs.Ranges.{IsDeparture};
ghost use Rattle.mintcx_chain.specs.Names.{IsStageDelay};
ghost use Rattle.mintcx_chain.specs.Rows.{IsClocked};

use mintc_timing::{Flat, Schedule};

/// A span of femtoseconds over a denominator.
#[tactic(auto, using(crate::proofs::MomentLaws::span_low, crate::proofs::MomentLaws::span_high))]
pub(crate) fn span_of(span: i64, den: i64) -> i64
    requires span { IsStageDelay span }
    requires den { IsDenominator den }
    ensures value { result ≡ span *ℤ den }
    ensures low { negsuc 399999999999999 ≤ℤ result }
    ensures high { result ≤ℤ pos 400000000000000 }
{
    span * den
}

/// When the data of an element departs, from the start of its phase.
fn departure_at(flat: &Flat, schedule: &Schedule, departures: &[i64], number: u32) -> i64
    requires clocked { IsClocked flat.now schedule.now departures.now }
    requires element { number < element_count flat.now }
    ensures value { result ≡ departure departures.now number }
    ensures range { IsDeparture result }
{
    departures[number as usize]
}

/// When a phase starts.
fn start_at(flat: &Flat, schedule: &Schedule, departures: &[i64], phase: u32) -> i64
    requires clocked { IsClocked flat.now schedule.now departures.now }
    requires phase { IsPhase (phase_count flat.now) phase }
    ensures value { result ≡ start_of schedule.now phase }
    ensures range { IsNumerator result }
{
    schedule.starts.items()[phase as usize - 1]
}

/// How wide a phase is.
fn width_at(flat: &Flat, schedule: &Schedule, departures: &[i64], phase: u32) -> i64
    requires clocked { IsClocked flat.now schedule.now departures.now }
    requires phase { IsPhase (phase_count flat.now) phase }
    ensures value { result ≡ width_of schedule.now phase }
    ensures range { IsNumerator result }
{
    schedule.widths.items()[phase as usize - 1]
}

/// When an element's moment is: of a latch, when its data departs; of a flop, the setup before its phase starts.
fn element_moment(flat: &Flat, schedule: &Schedule, departures: &[i64], number: u32) -> i64
    requires clocked { IsClocked flat.now schedule.now departures.now }
    requires element { number < element_count flat.now }
    ensures value { result ≡ element_time flat.now schedule.now departures.now number }
    ensures range { IsTime result }
{
    let element = flat.element(number);
    let start = start_at(flat, schedule, departures, element.phase);
    if element.flop {
        start - span_of(element.setup, schedule.den)
    } else {
        start + departure_at(flat, schedule, departures, number)
    }
}

/// When the start or the end of a phase is, by its node.
#[tactic(auto, using(crate::proofs::MomentLaws::starts, crate::proofs::MomentLaws::ends))]
fn edge_moment(flat: &Flat, schedule: &Schedule, departures: &[i64], node: u32) -> i64
    requires clocked { IsClocked flat.now schedule.now departures.now }
    requires first { 1 ≤ node }
    requires last { node ≤ 2 * phase_count flat.now }
    ensures value { result ≡ node_time flat.now schedule.now departures.now node }
    ensures range { IsTime result }
{
    if node % 2 == 1 {
        start_at(flat, schedule, departures, node / 2 + 1)
    } else {
        let phase = node / 2;
        start_at(flat, schedule, departures, phase) + width_at(flat, schedule, departures, phase)
    }
}

/// When the moment of a node is by a schedule with its departures, a numerator over the schedule's denominator.
#[tactic(auto, using(crate::proofs::MomentLaws::elements))]
pub fn moment_of(flat: &Flat, schedule: &Schedule, departures: &[i64], node: u32) -> i64
    requires clocked { IsClocked flat.now schedule.now departures.now }
    requires node { node < node_count flat.now }
    ensures value { result ≡ node_time flat.now schedule.now departures.now node }
    ensures range { IsTime result }
{
    let edges = 2 * flat.phase_count();
    if node == 0 {
        0
    } else if node > edges {
        element_moment(flat, schedule, departures, node - edges - 1)
    } else {
        edge_moment(flat, schedule, departures, node)
    }
}
