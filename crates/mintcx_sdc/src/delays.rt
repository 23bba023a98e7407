//! The delays of listed ports: from the start of an input's phase, and before the end of an output's.
ghost use Rattle.std.specs.Prelude.{◌≡◌, ◌<◌, ◌≤◌, ◌-◌, ◌++◌, neg_ℤ, length, OnOk};
ghost use Rattle.mintc_text.specs.Lines.{ended, text_of};
ghost use Rattle.mintc_timing.specs.Limits.{IsGap};
ghost use Rattle.mintc_clock.specs.Laws.{KeepsListed};
ghost use Rattle.mintcx_sdc.specs.Delays.{at_text, clock_name, delay_line, edge_text, falls, from_text, hold_lines};
ghost use Rattle.mintcx_sdc.specs.Delays.{input_lines, output_lines, way_word};

use crate::clocks::clock_place;
use crate::times::{put_braced, put_ports, put_time};
use mintc_clock::{Listed, PhaseDef};
use mintc_text::{Lines, OutOfMemory};

/// Which way data goes at a port.
#[derive(Clone, Copy)]
pub(crate) enum Way {
    /// It comes in.
    In,
    /// It goes out.
    Out,
}

/// The command for the delays of a port.
fn way_word(way: Way) -> &'static [u8]
    ensures { result.now ≡ way_word way }
{
    match way {
        Way::In => b"set_input_delay -clock ",
        Way::Out => b"set_output_delay -clock ",
    }
}

/// Whether the edge that delays count from, the start of the phase of an input or the end of that of an output, is one
/// at which the phase's port falls.
fn falls(way: Way, high: bool) -> bool
    ensures { result ≡ falls way high }
{
    match way {
        Way::In => !high,
        Way::Out => high,
    }
}

/// The word for an edge. A rising one needs none.
fn edge_text(falls: bool) -> &'static [u8]
    ensures { result.now ≡ edge_text falls }
{
    if falls { b" -clock_fall" } else { b"" }
}

/// The name of the clock on the port of the phase at a place.
fn clock_name(phases: &[PhaseDef], at: usize) -> &[u8]
    requires { at < length phases.now }
    ensures { result.now ≡ clock_name phases.now at }
{
    phases[clock_place(phases, at)].name.bytes()
}

/// Writes a command and the edge that its delay counts from.
fn put_from(lines: &mut Lines, phases: &[PhaseDef], way: Way, at: usize) -> Result<(), OutOfMemory>
    requires { at < length phases.now }
    ensures { OnOk result (lines.new ≡ lines.old ++ from_text phases.now way at) }
{
    lines.put(way_word(way))?;
    put_braced(lines, clock_name(phases, at))?;
    lines.put(edge_text(falls(way, phases[at].high)))
}

/// Writes a delay with its kind, and its port.
fn put_at(lines: &mut Lines, kind: &[u8], time: i64, port: &[u8]) -> Result<(), OutOfMemory>
    ensures { OnOk result (lines.new ≡ lines.old ++ at_text kind.now time port.now) }
{
    lines.put(kind)?;
    put_time(lines, time)?;
    put_ports(lines, port)
}

/// The place of the phase of a listed port.
fn place_of(listed: &Listed) -> usize
    requires { 1 ≤ listed.now.phase }
    ensures { result ≡ listed.now.phase - 1 }
{
    listed.phase as usize - 1
}

/// The hold of an output with its sign turned, in femtoseconds.
fn turned_hold(output: &Listed) -> i64
    requires { IsGap output.now.hold }
    ensures value { result ≡ neg_ℤ output.now.hold }
    ensures range { IsGap result }
{
    -output.hold
}

/// Writes the line of a delay of a listed port.
fn put_delay(
    lines: &mut Lines,
    phases: &[PhaseDef],
    way: Way,
    listed: &Listed,
    kind: &[u8],
    time: i64,
) -> Result<(), OutOfMemory>
    requires { KeepsListed (length phases.now) listed.now }
    ensures { OnOk result (lines.new ≡ lines.old ++ ended (delay_line phases.now way listed.now kind.now time)) }
{
    put_from(lines, phases, way, place_of(listed))?;
    put_at(lines, kind, time, listed.port.bytes())?;
    lines.put(b"\n")
}

/// Writes the lines of a listed input.
pub(crate) fn put_input(
    lines: &mut Lines,
    phases: &[PhaseDef],
    input: &Listed,
) -> Result<(), OutOfMemory>
    requires { KeepsListed (length phases.now) input.now }
    ensures { OnOk result (lines.new ≡ lines.old ++ text_of (input_lines phases.now input.now)) }
{
    put_delay(lines, phases, Way::In, input, b" -min ", input.min)?;
    put_delay(lines, phases, Way::In, input, b" -max ", input.max)
}

/// Writes the line of the hold of a listed output, where it has one.
fn put_hold(lines: &mut Lines, phases: &[PhaseDef], output: &Listed) -> Result<(), OutOfMemory>
    requires { KeepsListed (length phases.now) output.now }
    ensures { OnOk result (lines.new ≡ lines.old ++ text_of (hold_lines phases.now output.now)) }
{
    if !output.has_hold {
        return Ok(());
    }
    let hold = turned_hold(output);
    put_delay(lines, phases, Way::Out, output, b" -min ", hold)
}

/// Writes the lines of a listed output.
pub(crate) fn put_output(
    lines: &mut Lines,
    phases: &[PhaseDef],
    output: &Listed,
) -> Result<(), OutOfMemory>
    requires { KeepsListed (length phases.now) output.now }
    ensures { OnOk result (lines.new ≡ lines.old ++ text_of (output_lines phases.now output.now)) }
{
    put_hold(lines, phases, output)?;
    put_delay(lines, phases, Way::Out, output, b" -max ", output.setup)
}
