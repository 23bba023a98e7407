//! Clocks: after which phase the clock of a port is called, and when the port rises and falls.
ghost use Rattle.std.specs.Prelude.{◌≡◌, ◌<◌, ◌++◌, pos, negsuc, ◌≤ℤ◌, length, OnOk};
ghost use Rattle.mintc_text.specs.Lines.{ended, text_of};
ghost use Rattle.mintc_timing.specs.Limits.{IsInRange, IsNumerator};
ghost use Rattle.mintcx_sdc.specs.Clocks.{clock_line, clock_lines, clock_place, clock_text, fall_of, is_high_on};
ghost use Rattle.mintcx_sdc.specs.Clocks.{moment};
ghost use Rattle.mintcx_sdc.specs.Clocks.{own_line, rise_of, span_of, start_at, wave_text, width_at};

use crate::times::{put_braced, put_ports, put_time};
use mintc_clock::PhaseDef;
use mintc_text::{Lines, OutOfMemory};
use mintc_timing::Schedule;

/// Whether a phase is active while a port is high.
fn is_high_on(port: &[u8], phase: &PhaseDef) -> bool
    ensures { result ≡ is_high_on port.now phase.now }
{
    phase.high && phase.port.bytes() == port
}

/// The place of the phase after which the clock on a phase's port is called: the first one that is active while that
/// port is high, and the phase itself where there is none.
pub(crate) fn clock_place(phases: &[PhaseDef], at: usize) -> usize
    requires { at < length phases.now }
    ensures value { result ≡ clock_place phases.now at }
    ensures inside { result < length phases.now }
{
    let port = phases[at].port.bytes();
    for place in 0..phases.len() {
        if is_high_on(port, &phases[place]) {
            return place;
        }
    }
    at
}

/// When the phase at a place starts, in femtoseconds.
pub(crate) fn start_at(schedule: &Schedule, at: usize) -> i64
    requires in_range { IsInRange schedule.now }
    requires inside { at < length schedule.now.starts }
    ensures value { result ≡ start_at schedule.now at }
    ensures range { IsNumerator result }
{
    schedule.starts.items()[at]
}

/// How wide the phase at a place is, in femtoseconds.
pub(crate) fn width_at(schedule: &Schedule, at: usize) -> i64
    requires in_range { IsInRange schedule.now }
    requires inside { at < length schedule.now.starts }
    ensures value { result ≡ width_at schedule.now at }
    ensures range { IsNumerator result }
{
    schedule.widths.items()[at]
}

/// A time as a moment of the cycle, from 0 to below the cycle time.
pub(crate) fn moment(schedule: &Schedule, time: i64) -> i64
    requires in_range { IsInRange schedule.now }
    requires some { pos 1 ≤ℤ schedule.now.cycle }
    ensures value { result ≡ moment schedule.now time }
    ensures range { IsNumerator result }
{
    time.rem_euclid(schedule.cycle)
}

/// When the port of the phase at a place rises.
fn rise_of(schedule: &Schedule, high: bool, at: usize) -> i64
    requires in_range { IsInRange schedule.now }
    requires some { pos 1 ≤ℤ schedule.now.cycle }
    requires inside { at < length schedule.now.starts }
    ensures value { result ≡ rise_of schedule.now high at }
    ensures range { IsNumerator result }
{
    let start = start_at(schedule, at);
    if high {
        moment(schedule, start)
    } else {
        moment(schedule, start + width_at(schedule, at))
    }
}

/// How long the port of the phase at a place is high.
fn span_of(schedule: &Schedule, high: bool, at: usize) -> i64
    requires in_range { IsInRange schedule.now }
    requires inside { at < length schedule.now.starts }
    ensures value { result ≡ span_of schedule.now high at }
{
    let width = width_at(schedule, at);
    if high { width } else { schedule.cycle - width }
}

/// Writes when a clock rises and when it falls.
fn put_wave(lines: &mut Lines, rise: i64, fall: i64) -> Result<(), OutOfMemory>
    ensures { OnOk result (lines.new ≡ lines.old ++ wave_text rise fall) }
{
    lines.put(b" -waveform {")?;
    put_time(lines, rise)?;
    lines.put(b" ")?;
    put_time(lines, fall)
}

/// Writes the name of a clock and its period.
fn put_clock(lines: &mut Lines, name: &[u8], cycle: i64) -> Result<(), OutOfMemory>
    ensures { OnOk result (lines.new ≡ lines.old ++ clock_text name.now cycle) }
{
    lines.put(b"create_clock -name ")?;
    put_braced(lines, name)?;
    lines.put(b" -period ")?;
    put_time(lines, cycle)
}

/// Writes the line of the clock that is called after a phase.
fn put_line(
    lines: &mut Lines,
    phase: &PhaseDef,
    cycle: i64,
    rise: i64,
    fall: i64,
) -> Result<(), OutOfMemory>
    ensures { OnOk result (lines.new ≡ lines.old ++ ended (clock_line phase.now cycle rise fall)) }
{
    put_clock(lines, phase.name.bytes(), cycle)?;
    put_wave(lines, rise, fall)?;
    lines.put(b"}")?;
    put_ports(lines, phase.port.bytes())?;
    lines.put(b"\n")
}

/// When the port of the phase at a place falls.
fn fall_of(schedule: &Schedule, high: bool, at: usize) -> i64
    requires in_range { IsInRange schedule.now }
    requires some { pos 1 ≤ℤ schedule.now.cycle }
    requires inside { at < length schedule.now.starts }
    ensures value { result ≡ fall_of schedule.now high at }
    ensures low { negsuc 99999999999999 ≤ℤ result }
    ensures high { result ≤ℤ pos 200000000000000 }
{
    let rise = rise_of(schedule, high, at);
    rise + span_of(schedule, high, at)
}

/// Writes the line of the clock that is called after the phase at a place.
fn put_own(
    lines: &mut Lines,
    phase: &PhaseDef,
    schedule: &Schedule,
    at: usize,
) -> Result<(), OutOfMemory>
    requires in_range { IsInRange schedule.now }
    requires some { pos 1 ≤ℤ schedule.now.cycle }
    requires inside { at < length schedule.now.starts }
    ensures { OnOk result (lines.new ≡ lines.old ++ ended (own_line phase.now schedule.now at)) }
{
    let rise = rise_of(schedule, phase.high, at);
    let fall = fall_of(schedule, phase.high, at);
    put_line(lines, phase, schedule.cycle, rise, fall)
}

/// Writes the line of the phase at a place, where the clock on its port is called after it.
pub(crate) fn put_phase(
    lines: &mut Lines,
    phases: &[PhaseDef],
    schedule: &Schedule,
    at: usize,
) -> Result<(), OutOfMemory>
    requires in_range { IsInRange schedule.now }
    requires some { pos 1 ≤ℤ schedule.now.cycle }
    requires alike { length phases.now ≡ length schedule.now.starts }
    requires inside { at < length phases.now }
    ensures { OnOk result (lines.new ≡ lines.old ++ text_of (clock_lines phases.now schedule.now at)) }
{
    if clock_place(phases, at) != at {
        return Ok(());
    }
    put_own(lines, &phases[at], schedule, at)
}
