//! The lines of a design's parts.
ghost use Rattle.std.specs.Prelude.{◌≡◌, ◌≤◌, ◌++◌, ◌∷◌, OnOk, length, map};
ghost use Rattle.mintc_text.specs.Lines.{ended, text_of};
ghost use Rattle.mintc_text.specs.declared.limits.TheConstants.{MOST_ELEMENTS};
ghost use Rattle.mintc_timing_text.specs.LineForms.{count_line};
ghost use Rattle.mintcx_tables.specs.Lines.{arc_line, arc_lines, bound_line, bound_lines, element_line, element_lines};
ghost use Rattle.mintcx_tables.specs.Lines.{phase_line, phase_lines};

use crate::words::{put_bit, put_kind, put_margins, put_point, put_times, put_two, put_word};
use mintc_text::{Lines, Name, OutOfMemory};
use mintc_timing::{Bound, Element, TimingArc};

/// Writes the line of a count.
pub(crate) fn put_count(lines: &mut Lines, word: &[u8], count: usize) -> Result<(), OutOfMemory>
    ensures { OnOk result (lines.new ≡ lines.old ++ ended (count_line word.now count)) }
{
    lines.put(word)?;
    lines.put(b" ")?;
    lines.number(count as i128)?;
    lines.put(b"\n")
}

/// Writes the line of a phase.
fn put_phase(lines: &mut Lines, name: &[u8]) -> Result<(), OutOfMemory>
    ensures { OnOk result (lines.new ≡ lines.old ++ ended (phase_line name.now)) }
{
    lines.put(b"phase")?;
    put_word(lines, name)?;
    lines.put(b"\n")
}

/// Writes the number of phases, and the line of each.
pub(crate) fn put_phases(lines: &mut Lines, phases: &[Name]) -> Result<(), OutOfMemory>
    ensures { OnOk result (lines.new ≡ lines.old ++ text_of (phase_lines phases.now)) }
{
    put_count(lines, b"phases", phases.len())?;
    for phase in phases {
        put_phase(lines, phase.bytes())?;
    }
    Ok(())
}

/// Writes the line of an element.
fn put_element(lines: &mut Lines, element: &Element) -> Result<(), OutOfMemory>
    ensures { OnOk result (lines.new ≡ lines.old ++ ended (element_line element.now)) }
{
    lines.put(b"element")?;
    put_kind(lines, element)?;
    put_margins(lines, element)?;
    put_times(lines, element)?;
    lines.put(b"\n")
}

/// Writes the number of elements, and the line of each.
pub(crate) fn put_elements(lines: &mut Lines, elements: &[Element]) -> Result<(), OutOfMemory>
    ensures { OnOk result (lines.new ≡ lines.old ++ text_of (element_lines elements.now)) }
{
    put_count(lines, b"elements", elements.len())?;
    for element in elements {
        put_element(lines, element)?;
    }
    Ok(())
}

/// Writes the line of an arc of a design of so many elements.
fn put_arc(lines: &mut Lines, arc: &TimingArc, elements: u32) -> Result<(), OutOfMemory>
    requires { elements ≤ MOST_ELEMENTS }
    ensures { OnOk result (lines.new ≡ lines.old ++ ended (arc_line elements arc.now)) }
{
    lines.put(b"arc")?;
    put_bit(lines, b"q", arc.from, elements)?;
    put_bit(lines, b"d", arc.to, elements)?;
    put_two(lines, arc.min, arc.max)?;
    lines.put(b"\n")
}

/// Writes the number of arcs, and the line of each.
pub(crate) fn put_arcs(
    lines: &mut Lines,
    arcs: &[TimingArc],
    elements: u32,
) -> Result<(), OutOfMemory>
    requires { elements ≤ MOST_ELEMENTS }
    ensures { OnOk result (lines.new ≡ lines.old ++ text_of (arc_lines elements arcs.now)) }
{
    put_count(lines, b"arcs", arcs.len())?;
    for arc in arcs {
        put_arc(lines, arc, elements)?;
    }
    Ok(())
}

/// Writes the line of a bound.
fn put_bound(lines: &mut Lines, bound: &Bound) -> Result<(), OutOfMemory>
    ensures { OnOk result (lines.new ≡ lines.old ++ ended (bound_line bound.now)) }
{
    lines.put(b"bound")?;
    put_point(lines, bound.from)?;
    put_point(lines, bound.to)?;
    put_two(lines, bound.gap, i64::from(bound.cycles))?;
    lines.put(b"\n")
}

/// Writes the number of bounds, and the line of each.
pub(crate) fn put_bounds(lines: &mut Lines, bounds: &[Bound]) -> Result<(), OutOfMemory>
    ensures { OnOk result (lines.new ≡ lines.old ++ text_of (bound_lines bounds.now)) }
{
    put_count(lines, b"bounds", bounds.len())?;
    for bound in bounds {
        put_bound(lines, bound)?;
    }
    Ok(())
}
