//! The head and the foot of an answer.
ghost use Rattle.std.specs.Prelude.{◌≡◌, ◌++◌, OnOk};
ghost use Rattle.mintc_fraction.specs.Ratio.{IsModest};
ghost use Rattle.mintcx_frame.specs.Ends.{foot_text, head_text, note_text, rate_text, subject_text};

use crate::View;
use crate::cells::put_time;
use mintc_fraction::Fraction;
use mintc_text::{Lines, OutOfMemory};
use mintcx_amounts::{Unit, put_frequency};

/// Writes the frequency of a cycle time behind it. A cycle time of 0 has none.
fn put_rate(lines: &mut Lines, cycle: &Fraction) -> Result<(), OutOfMemory>
    requires { IsModest cycle.now }
    ensures { OnOk result (lines.new ≡ lines.old ++ rate_text cycle.now) }
{
    if cycle.num() <= 0 {
        return Ok(());
    }
    lines.put(b", ")?;
    put_frequency(lines, cycle)
}

/// Writes what an answer is about at the end of its first line: `  (ring)` and a line feed.
pub fn put_subject(lines: &mut Lines, view: &View) -> Result<(), OutOfMemory>
    ensures { OnOk result (lines.new ≡ lines.old ++ subject_text view.now.subject) }
{
    lines.put(b"  (")?;
    lines.put(view.subject.bytes())?;
    lines.put(b")\n")
}

/// Writes the first line of an answer with a cycle time in femtoseconds, as
/// `least  cycle 1307.5 ps, 764.818 MHz  (ring)` and a line feed.
pub fn put_head(
    lines: &mut Lines,
    verdict: &[u8],
    cycle: &Fraction,
    view: &View,
) -> Result<(), OutOfMemory>
    requires { IsModest cycle.now }
    ensures { OnOk result (lines.new ≡ lines.old ++ head_text verdict.now cycle.now view.now) }
{
    lines.put(verdict)?;
    lines.put(b"  cycle ")?;
    put_time(lines, cycle, view.unit_for(cycle))?;
    put_rate(lines, cycle)?;
    put_subject(lines, view)
}

/// Writes the note of a foot, where there is one.
fn put_note(lines: &mut Lines, note: &[u8]) -> Result<(), OutOfMemory>
    ensures { OnOk result (lines.new ≡ lines.old ++ note_text note.now) }
{
    if note.is_empty() {
        return Ok(());
    }
    lines.put(b"; ")?;
    lines.put(note)
}

/// Writes the last line of an answer: `times in ps`, or with a note `times in ps; NOTE`.
pub fn put_foot(lines: &mut Lines, unit: Unit, note: &[u8]) -> Result<(), OutOfMemory>
    ensures { OnOk result (lines.new ≡ lines.old ++ foot_text unit note.now) }
{
    lines.put(b"times in ")?;
    lines.put(unit.word())?;
    put_note(lines, note)?;
    lines.put(b"\n")
}
