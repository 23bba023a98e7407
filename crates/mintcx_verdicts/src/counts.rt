//! The first test in words.
ghost use Rattle.std.specs.Prelude.{◌≡◌, ◌++◌, OnOk};
ghost use Rattle.mintc_text.specs.Lines.{ended};
ghost use Rattle.mintcx_verdicts.specs.Counts.{both_text, counted, counted_word, counts_text, departures_line};
ghost use Rattle.mintcx_verdicts.specs.Counts.{phases_line, phases_text};

use mintc_text::{Lines, OutOfMemory};
use mintc_timing::{Flat, Schedule};
use mintcx_frame::put_number;

/// What is counted, in the singular or the plural.
fn counted_word<'a>(count: usize, one: &'a [u8], many: &'a [u8]) -> &'a [u8]
    ensures { result.now ≡ counted_word count one.now many.now }
{
    if count == 1 { one } else { many }
}

/// Writes a number and what is counted.
pub(crate) fn put_counted(
    lines: &mut Lines,
    count: usize,
    one: &[u8],
    many: &[u8],
) -> Result<(), OutOfMemory>
    ensures { OnOk result (lines.new ≡ lines.old ++ counted count one.now many.now) }
{
    put_number(lines, count as u64)?;
    lines.put(b" ")?;
    lines.put(counted_word(count, one, many))
}

/// Writes how many phases there are.
fn put_phases(lines: &mut Lines, flat: &Flat, schedule: &Schedule) -> Result<(), OutOfMemory>
    ensures { OnOk result (lines.new ≡ lines.old ++ ended (phases_line flat.now schedule.now)) }
{
    lines.put(b"  the design has ")?;
    put_counted(lines, flat.phases().items().len(), b"phase", b"phases")?;
    lines.put(b", the certificate ")?;
    put_number(lines, schedule.starts.items().len() as u64)?;
    lines.put(b"\n")
}

/// Writes how many elements and departures there are.
fn put_departures(lines: &mut Lines, flat: &Flat, departures: &[i64]) -> Result<(), OutOfMemory>
    ensures { OnOk result (lines.new ≡ lines.old ++ ended (departures_line flat.now departures.now)) }
{
    lines.put(b"  the design has ")?;
    put_counted(lines, flat.elements().len(), b"element", b"elements")?;
    lines.put(b", the certificate ")?;
    put_counted(lines, departures.len(), b"departure", b"departures")?;
    lines.put(b"\n")
}

/// Writes how many phases there are, where the numbers differ.
fn put_other_phases(lines: &mut Lines, flat: &Flat, schedule: &Schedule) -> Result<(), OutOfMemory>
    ensures { OnOk result (lines.new ≡ lines.old ++ phases_text flat.now schedule.now) }
{
    if schedule.starts.items().len() == flat.phases().items().len() {
        return Ok(());
    }
    put_phases(lines, flat, schedule)
}

/// Writes how many elements and departures there are, where the numbers differ.
fn put_other_departures(
    lines: &mut Lines,
    flat: &Flat,
    departures: &[i64],
) -> Result<(), OutOfMemory>
    ensures { OnOk result (lines.new ≡ lines.old ++ both_text flat.now departures.now) }
{
    if departures.len() == flat.elements().len() {
        return Ok(());
    }
    put_departures(lines, flat, departures)
}

/// Writes those of the counts that differ.
pub(crate) fn put_counts(
    lines: &mut Lines,
    flat: &Flat,
    schedule: &Schedule,
    departures: &[i64],
) -> Result<(), OutOfMemory>
    ensures { OnOk result (lines.new ≡ lines.old ++ counts_text flat.now schedule.now departures.now) }
{
    put_other_phases(lines, flat, schedule)?;
    put_other_departures(lines, flat, departures)
}
