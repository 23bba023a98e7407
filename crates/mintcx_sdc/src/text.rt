//! The text of a schedule in SDC.
ghost use Rattle.std.specs.Prelude.{◌≡◌, ◌++◌, None, pos, ◌≤ℤ◌, length, flat_map, All, IfOk, OnOk};
ghost use Rattle.std.specs.List.{range_with_len};
ghost use Rattle.mintc_text.specs.Lines.{ended, text_of};
ghost use Rattle.mintc_timing.specs.Limits.{IsInRange};
ghost use Rattle.mintc_clock.specs.Laws.{KeepsLimits, KeepsListed};
ghost use Rattle.mintcx_sdc.specs.Clocks.{clock_lines};
ghost use Rattle.mintcx_sdc.specs.Delays.{input_lines, output_lines};
ghost use Rattle.mintcx_sdc.specs.Obstacles.{obstacle_in};
ghost use Rattle.mintcx_sdc.specs.Texts.{cycle_text, fixed_lines, from_text, plain, plain_byte, sdc_lines};
ghost use Rattle.mintcx_sdc.specs.Texts.{title_line};

use crate::clocks::put_phase;
use crate::delays::{put_input, put_output};
use mintc_clock::{Clock, Listed, PhaseDef};
use mintc_text::{Bytes, Lines, Name, OutOfMemory};
use mintc_timing::Schedule;
use std::alloc::Global;

/// What the text tells of its origin: the design, as `ring` or `ring.table`, and the file that its schedule is from, as
/// `ring.cert`.
#[derive(Drop)]
pub struct Titles {
    pub subject: Name,
    pub source: Name,
}

/// A byte as it stands in a comment: `?` for those that aren't printed.
fn plain_byte(byte: u8) -> u8
    ensures { result ≡ plain_byte byte }
{
    if 32 <= byte && byte <= 126 {
        byte
    } else {
        b'?'
    }
}

/// Writes a name in a comment.
fn put_plain(lines: &mut Lines, name: &[u8]) -> Result<(), OutOfMemory>
    ensures { OnOk result (lines.new ≡ lines.old ++ plain name.now) }
{
    for byte in name {
        lines.put(&[plain_byte(*byte)])?;
    }
    Ok(())
}

/// Writes what the clocks are of, and from which file.
fn put_origin(lines: &mut Lines, titles: &Titles) -> Result<(), OutOfMemory>
    ensures { OnOk result (lines.new ≡ lines.old ++ from_text titles.now) }
{
    lines.put(b"# mintcx 0.1.0: clocks of ")?;
    put_plain(lines, titles.subject.bytes())?;
    lines.put(b" from ")?;
    put_plain(lines, titles.source.bytes())
}

/// Writes a cycle time in femtoseconds.
fn put_cycle(lines: &mut Lines, cycle: i64) -> Result<(), OutOfMemory>
    ensures { OnOk result (lines.new ≡ lines.old ++ cycle_text cycle) }
{
    lines.put(b", a cycle of ")?;
    lines.number(i128::from(cycle))?;
    lines.put(b" fs")
}

/// Writes the first line.
fn put_title(lines: &mut Lines, titles: &Titles, cycle: i64) -> Result<(), OutOfMemory>
    ensures { OnOk result (lines.new ≡ lines.old ++ ended (title_line titles.now cycle)) }
{
    put_origin(lines, titles)?;
    put_cycle(lines, cycle)?;
    lines.put(b"\n")
}

/// Writes the lines that tell the unit.
fn put_fixed(lines: &mut Lines) -> Result<(), OutOfMemory>
    ensures { OnOk result (lines.new ≡ lines.old ++ text_of fixed_lines) }
{
    lines.put(
        b"# All numbers are in ns, exactly; read this where the library's time unit is 1 ns.\n",
    )?;
    lines.put(b"set_units -time ns\n")
}

/// Writes the lines of the phases.
fn put_phases(
    lines: &mut Lines,
    phases: &[PhaseDef],
    schedule: &Schedule,
) -> Result<(), OutOfMemory>
    requires in_range { IsInRange schedule.now }
    requires some { pos 1 ≤ℤ schedule.now.cycle }
    requires alike { length phases.now ≡ length schedule.now.starts }
    ensures { OnOk result (lines.new ≡ lines.old
        ++ text_of (flat_map (clock_lines phases.now schedule.now) (range_with_len 0 (length phases.now)))) }
{
    for at in 0..phases.len() {
        put_phase(lines, phases, schedule, at)?;
    }
    Ok(())
}

/// Writes the lines of listed inputs.
fn put_inputs(lines: &mut Lines, phases: &[PhaseDef], inputs: &[Listed]) -> Result<(), OutOfMemory>
    requires { All (KeepsListed (length phases.now)) inputs.now }
    ensures { OnOk result (lines.new ≡ lines.old ++ text_of (flat_map (input_lines phases.now) inputs.now)) }
{
    for input in inputs {
        put_input(lines, phases, input)?;
    }
    Ok(())
}

/// Writes the lines of listed outputs.
fn put_outputs(
    lines: &mut Lines,
    phases: &[PhaseDef],
    outputs: &[Listed],
) -> Result<(), OutOfMemory>
    requires { All (KeepsListed (length phases.now)) outputs.now }
    ensures { OnOk result (lines.new ≡ lines.old ++ text_of (flat_map (output_lines phases.now) outputs.now)) }
{
    for output in outputs {
        put_output(lines, phases, output)?;
    }
    Ok(())
}

/// The clocks of a schedule as SDC, with the delays of the ports that the clock lists. The phases of the schedule are
/// those of the clock, in their order, and `obstacle_of` of both is None.
pub fn sdc_text(
    alloc: Global,
    clock: &Clock,
    schedule: &Schedule,
    titles: &Titles,
) -> Result<Bytes, OutOfMemory>
    requires in_range { IsInRange schedule.now }
    requires limits { KeepsLimits clock.now }
    requires alike { length clock.now.phases ≡ length schedule.now.starts }
    requires sayable { obstacle_in clock.now schedule.now ≡ None }
    ensures { IfOk result (λ text. text ≡ text_of (sdc_lines clock.now schedule.now titles.now)) }
{
    let phases = clock.phases.items();
    let mut lines = Lines::new(alloc);
    put_title(&mut lines, titles, schedule.cycle)?;
    put_fixed(&mut lines)?;
    put_phases(&mut lines, phases, schedule)?;
    put_inputs(&mut lines, phases, clock.inputs.items())?;
    put_outputs(&mut lines, phases, clock.outputs.items())?;
    Ok(Bytes::new(lines.into_bytes()))
}
