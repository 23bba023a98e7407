//! What of a clock and a schedule SDC can't say.
ghost use Rattle.std.specs.Prelude.{◌≡◌, ◌<◌, ◌^◌, pos, ◌≤ℤ◌, length, IfNone, IfSome};
ghost use Rattle.mintc_timing.specs.Limits.{IsInRange, IsNumerator};
ghost use Rattle.mintcx_sdc.specs.Obstacles.{clock_obstacle, has_special, is_special, level_obstacle, name_obstacle};
ghost use Rattle.mintcx_sdc.specs.Obstacles.{obstacle_in, phase_obstacle, phases_obstacle, time_obstacle};
ghost use Rattle.mintcx_sdc.specs.Obstacles.{is_complement, late_by, output_obstacle, parts_obstacle, ports_obstacle};
ghost use Rattle.mintcx_sdc.specs.Obstacles.{rest_of, since_end};
ghost use Rattle.mintcx_sdc.specs.Obstacles.{scale_obstacle, special_port, start_obstacle, times_obstacle};
ghost use Rattle.mintcx_sdc.specs.Obstacles.{width_obstacle, window_of};

use crate::clocks::{clock_place, moment, start_at, width_at};
use mintc_clock::{Clock, Listed, PhaseDef};
use mintc_timing::Schedule;

/// From when to when a phase is active, in femtoseconds from the cycle's beginning on.
#[derive(Clone, Copy, Debug, Drop)]
pub struct Window {
    pub from: i64,
    pub to: i64,
}

/// What of a clock and a schedule SDC can't say. Phases and listed ports are counted from 1, times are femtoseconds.
#[derive(Clone, Copy, Debug, Drop)]
pub enum Obstacle {
    /// The schedule's times are numerators over this denominator, which isn't 1.
    Denominator {
        den: i64,
    },
    /// The cycle time is 0.
    NoCycle,
    /// A phase's name has a byte that Tcl reads otherwise.
    PhaseName {
        phase: usize,
    },
    /// A phase's port has such a byte.
    PhasePort {
        phase: usize,
    },
    /// A phase starts so long after the cycle ends.
    Start {
        phase: usize,
        late: i64,
    },
    /// A phase is wider than the cycle by so much.
    Width {
        phase: usize,
        over: i64,
    },
    /// Two phases are on the levels of one port, and the one at the low level isn't active just when the other one
    /// isn't: it starts so long after that one ends, or ends at another moment.
    Levels {
        high: usize,
        low: usize,
        late: i64,
        high_window: Window,
        low_window: Window,
    },
    /// A listed input has such a byte.
    Input {
        number: usize,
    },
    /// A listed output has such a byte.
    Output {
        number: usize,
    },
}

/// Whether a byte has a meaning in a pattern, or in braces, of Tcl.
fn is_special(byte: u8) -> bool
    ensures { result ≡ is_special byte }
{
    byte == b'*' || byte == b'?' || byte == b'\\' || byte == b'{' || byte == b'}'
}

/// Whether a name has such a byte.
fn has_special(name: &[u8]) -> bool
    ensures { result ≡ has_special name.now }
{
    for byte in name {
        if is_special(*byte) {
            return true;
        }
    }
    false
}

/// What is in the way of all times of a schedule.
fn scale_obstacle(schedule: &Schedule) -> Option<Obstacle>
    requires { IsInRange schedule.now }
    ensures value { result ≡ scale_obstacle schedule.now }
    ensures whole { IfNone result ((schedule.now.den ≡ pos 1) × (pos 1 ≤ℤ schedule.now.cycle)) }
{
    if schedule.den != 1 {
        return Some(Obstacle::Denominator { den: schedule.den });
    }
    if schedule.cycle == 0 {
        return Some(Obstacle::NoCycle);
    }
    None
}

/// What is in the way of the names of the phase at a place.
fn name_obstacle(phase: &PhaseDef, at: usize) -> Option<Obstacle>
    requires { at < 2 ^ 32 }
    ensures { result ≡ name_obstacle phase.now at }
{
    if has_special(phase.name.bytes()) {
        return Some(Obstacle::PhaseName { phase: at + 1 });
    }
    if has_special(phase.port.bytes()) {
        return Some(Obstacle::PhasePort { phase: at + 1 });
    }
    None
}

/// What is in the way of the start of the phase at a place.
fn start_obstacle(schedule: &Schedule, at: usize) -> Option<Obstacle>
    requires in_range { IsInRange schedule.now }
    requires inside { at < length schedule.now.starts }
    ensures { result ≡ start_obstacle schedule.now at }
{
    let late = start_at(schedule, at) - schedule.cycle;
    if late > 0 {
        Some(Obstacle::Start {
            phase: at + 1,
            late,
        })
    } else {
        None
    }
}

/// What is in the way of the width of the phase at a place.
fn width_obstacle(schedule: &Schedule, at: usize) -> Option<Obstacle>
    requires in_range { IsInRange schedule.now }
    requires inside { at < length schedule.now.starts }
    ensures { result ≡ width_obstacle schedule.now at }
{
    let over = width_at(schedule, at) - schedule.cycle;
    if over > 0 {
        Some(Obstacle::Width {
            phase: at + 1,
            over,
        })
    } else {
        None
    }
}

/// What is in the way of the times of the phase at a place.
fn time_obstacle(schedule: &Schedule, at: usize) -> Option<Obstacle>
    requires in_range { IsInRange schedule.now }
    requires inside { at < length schedule.now.starts }
    ensures { result ≡ time_obstacle schedule.now at }
{
    match start_obstacle(schedule, at) {
        Some(obstacle) => Some(obstacle),
        None => width_obstacle(schedule, at),
    }
}

/// How long after the phase at one place ends that at another one starts.
fn since_end(schedule: &Schedule, high: usize, low: usize) -> i64
    requires in_range { IsInRange schedule.now }
    requires high { high < length schedule.now.starts }
    requires low { low < length schedule.now.starts }
    ensures { result ≡ since_end schedule.now high low }
{
    start_at(schedule, low) - start_at(schedule, high) - width_at(schedule, high)
}

/// The same as a moment of the cycle.
fn late_by(schedule: &Schedule, high: usize, low: usize) -> i64
    requires in_range { IsInRange schedule.now }
    requires some { pos 1 ≤ℤ schedule.now.cycle }
    requires high { high < length schedule.now.starts }
    requires low { low < length schedule.now.starts }
    ensures value { result ≡ late_by schedule.now high low }
    ensures range { IsNumerator result }
{
    moment(schedule, since_end(schedule, high, low))
}

/// What of the cycle two phases leave.
fn rest_of(schedule: &Schedule, high: usize, low: usize) -> i64
    requires in_range { IsInRange schedule.now }
    requires high { high < length schedule.now.starts }
    requires low { low < length schedule.now.starts }
    ensures { result ≡ rest_of schedule.now high low }
{
    schedule.cycle - width_at(schedule, high) - width_at(schedule, low)
}

/// Whether two phases of which one starts so long after the other and which leave so much of the cycle are
/// complements.
fn is_complement(late: i64, rest: i64) -> bool
    ensures { result ≡ is_complement late rest }
{
    late == 0 && rest == 0
}

/// From when to when the phase at a place is active.
fn window_of(schedule: &Schedule, at: usize) -> Window
    requires in_range { IsInRange schedule.now }
    requires inside { at < length schedule.now.starts }
    ensures { result ≡ window_of schedule.now at }
{
    let from = start_at(schedule, at);
    Window {
        from,
        to: from + width_at(schedule, at),
    }
}

/// What is in the way of two phases on the levels of one port.
fn level_obstacle(schedule: &Schedule, high: usize, low: usize) -> Option<Obstacle>
    requires in_range { IsInRange schedule.now }
    requires some { pos 1 ≤ℤ schedule.now.cycle }
    requires high { high < length schedule.now.starts }
    requires low { low < length schedule.now.starts }
    ensures { result ≡ level_obstacle schedule.now high low }
{
    let late = late_by(schedule, high, low);
    let rest = rest_of(schedule, high, low);
    if is_complement(late, rest) {
        None
    } else {
        Some(Obstacle::Levels {
            high: high + 1,
            low: low + 1,
            late,
            high_window: window_of(schedule, high),
            low_window: window_of(schedule, low),
        })
    }
}

/// What is in the way of the clock of the phase at a place, where it is called after another one.
fn clock_obstacle(phases: &[PhaseDef], schedule: &Schedule, at: usize) -> Option<Obstacle>
    requires in_range { IsInRange schedule.now }
    requires some { pos 1 ≤ℤ schedule.now.cycle }
    requires alike { length phases.now ≡ length schedule.now.starts }
    requires inside { at < length phases.now }
    ensures { result ≡ clock_obstacle phases.now schedule.now at }
{
    let place = clock_place(phases, at);
    if place == at {
        return None;
    }
    level_obstacle(schedule, place, at)
}

/// What is in the way of the times and of the clock of the phase at a place.
fn times_obstacle(phases: &[PhaseDef], schedule: &Schedule, at: usize) -> Option<Obstacle>
    requires in_range { IsInRange schedule.now }
    requires some { pos 1 ≤ℤ schedule.now.cycle }
    requires alike { length phases.now ≡ length schedule.now.starts }
    requires inside { at < length phases.now }
    ensures { result ≡ times_obstacle phases.now schedule.now at }
{
    match time_obstacle(schedule, at) {
        Some(obstacle) => Some(obstacle),
        None => clock_obstacle(phases, schedule, at),
    }
}

/// What is in the way of the phase at a place.
fn phase_obstacle(phases: &[PhaseDef], schedule: &Schedule, at: usize) -> Option<Obstacle>
    requires in_range { IsInRange schedule.now }
    requires some { pos 1 ≤ℤ schedule.now.cycle }
    requires alike { length phases.now ≡ length schedule.now.starts }
    requires inside { at < length phases.now }
    ensures { result ≡ phase_obstacle phases.now schedule.now at }
{
    match name_obstacle(&phases[at], at) {
        Some(obstacle) => Some(obstacle),
        None => times_obstacle(phases, schedule, at),
    }
}

/// The first thing in the way of a phase.
fn phases_obstacle(phases: &[PhaseDef], schedule: &Schedule) -> Option<Obstacle>
    requires in_range { IsInRange schedule.now }
    requires some { pos 1 ≤ℤ schedule.now.cycle }
    requires alike { length phases.now ≡ length schedule.now.starts }
    ensures { result ≡ phases_obstacle phases.now schedule.now }
{
    for at in 0..phases.len() {
        match phase_obstacle(phases, schedule, at) {
            Some(obstacle) => return Some(obstacle),
            None => continue,
        }
    }
    None
}

/// The place of the first of some listed ports whose name has a byte that Tcl reads otherwise.
fn special_port(ports: &[Listed]) -> Option<usize>
    ensures value { result ≡ special_port ports.now }
    ensures inside { IfSome result (λ at. at < length ports.now) }
{
    for at in 0..ports.len() {
        if has_special(ports[at].port.bytes()) {
            return Some(at);
        }
    }
    None
}

/// The first thing in the way of a listed output.
fn output_obstacle(outputs: &[Listed]) -> Option<Obstacle>
    ensures { result ≡ output_obstacle outputs.now }
{
    match special_port(outputs) {
        Some(at) => Some(Obstacle::Output { number: at + 1 }),
        None => None,
    }
}

/// The first thing in the way of a listed port.
fn ports_obstacle(inputs: &[Listed], outputs: &[Listed]) -> Option<Obstacle>
    ensures { result ≡ ports_obstacle inputs.now outputs.now }
{
    match special_port(inputs) {
        Some(at) => Some(Obstacle::Input { number: at + 1 }),
        None => output_obstacle(outputs),
    }
}

/// The first thing in the way of a phase or of a listed port.
fn parts_obstacle(clock: &Clock, schedule: &Schedule) -> Option<Obstacle>
    requires in_range { IsInRange schedule.now }
    requires some { pos 1 ≤ℤ schedule.now.cycle }
    requires alike { length clock.now.phases ≡ length schedule.now.starts }
    ensures { result ≡ parts_obstacle clock.now schedule.now }
{
    match phases_obstacle(clock.phases.items(), schedule) {
        Some(obstacle) => Some(obstacle),
        None => ports_obstacle(clock.inputs.items(), clock.outputs.items()),
    }
}

/// The first thing in the way of a schedule in SDC, of which None is none: of the schedule as a whole, of the phases in
/// their order, of the listed inputs and then of the listed outputs. The phases of the schedule are those of the clock,
/// in their order.
pub fn obstacle_of(clock: &Clock, schedule: &Schedule) -> Option<Obstacle>
    requires in_range { IsInRange schedule.now }
    requires alike { length clock.now.phases ≡ length schedule.now.starts }
    ensures value { result ≡ obstacle_in clock.now schedule.now }
    ensures whole { IfNone result ((schedule.now.den ≡ pos 1) × (pos 1 ≤ℤ schedule.now.cycle)) }
{
    match scale_obstacle(schedule) {
        Some(obstacle) => Some(obstacle),
        None => parts_obstacle(clock, schedule),
    }
}
