//! The text of a pass.
ghost use Rattle.std.specs.Prelude.{◌≡◌, ◌++◌, IfOk, OnOk, length};
ghost use Rattle.mintc_text.specs.Lines.{ended, fraction_word};
ghost use Rattle.mintc_timing.specs.Departures.{AreLate, AreEarly};
ghost use Rattle.mintc_timing.specs.Design.{phase_count};
ghost use Rattle.mintc_timing.specs.Limits.{IsDenominator, IsInRange};
ghost use Rattle.mintc_report.specs.Answers.{element_line, AppendsLines, AreElementLines, IsPassText};

use crate::writing::{lowest, put_fraction};
use mintc_constraints::Room;
use mintc_fraction::Fraction;
use mintc_text::{Lines, OutOfMemory};
use mintc_text_refusals::put_word;
use mintc_timing::{Element, Schedule, System};
use std::alloc::Global;

/// Writes the line of an element.
fn put_element(
    lines: &mut Lines,
    name: &[u8],
    late: &Fraction,
    early: &Fraction,
) -> Result<(), OutOfMemory>
    ensures { OnOk result (lines.new ≡ lines.old
        ++ ended (element_line name.now (fraction_word late.now.num late.now.den)
        (fraction_word early.now.num early.now.den))) }
{
    lines.put(b"element")?;
    put_word(lines, name)?;
    put_word(lines, b"late")?;
    put_fraction(lines, late)?;
    put_word(lines, b"early")?;
    put_fraction(lines, early)?;
    lines.put(b"\n")
}

/// Writes the line of each element, with its departures over the denominator.
fn put_elements(
    lines: &mut Lines,
    elements: &[Element],
    den: i64,
    late: &[i64],
    early: &[i64],
) -> Result<(), OutOfMemory>
    requires den { IsDenominator den }
    requires late { length late.now ≡ length elements.now }
    requires early { length early.now ≡ length elements.now }
    ensures { OnOk result
        (AppendsLines (AreElementLines elements.now den late.now early.now (length elements.now)) lines.old lines.new) }
{
    for number in 0..elements.len() {
        put_element(
            lines,
            elements[number].name.bytes(),
            &lowest(late[number], den),
            &lowest(early[number], den),
        )?;
    }
    Ok(())
}

/// The text of a pass: `pass`, then for each element `element NAME late F early F`. The room has the late and the
/// early departures of the schedule; F is such a departure in femtoseconds, as a fraction in lowest terms.
pub fn pass_text(
    alloc: Global,
    system: &System,
    schedule: &Schedule,
    room: &Room,
) -> Result<Vec<u8>, OutOfMemory>
    requires in_range { IsInRange schedule.now }
    requires phases { length schedule.now.starts ≡ phase_count system.now.flat }
    requires late { AreLate system.now schedule.now room.now.late }
    requires early { AreEarly system.now schedule.now room.now.early }
    ensures { IfOk result (λ text. IsPassText system.now.flat schedule.now room.now.late room.now.early text.items) }
{
    let mut lines = Lines::new(alloc);
    lines.put(b"pass\n")?;
    put_elements(
        &mut lines,
        system.flat().elements(),
        schedule.den,
        room.late(),
        room.early(),
    )?;
    Ok(lines.into_bytes())
}
