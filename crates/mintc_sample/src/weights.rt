//! The delays of a sample.
ghost use Rattle.std.specs.Prelude.{◌≡◌, ◌<◌, ◌≤◌, ◌++◌, IfOk, OnOk};
ghost use Rattle.mintc_text.specs.Lines.{ended};
ghost use Rattle.mintc_sample.specs.Samples.{weight, digit, picoseconds, cell_line, entries_text, delays_text};

use crate::ring::{LATCHES, put_numbered};
use mintc_text::{Lines, OutOfMemory};
use std::alloc::Global;

/// The delay of the gate before a latch, in femtoseconds.
fn weight(number: u64, latch: u64) -> u64
    requires { latch < 2000 }
    ensures { result ≡ weight number latch }
{
    1_000_000 + number % 1_000 + (387 * latch + number % 1_000) % 1_000
}

/// The last decimal digit of a number, as its character.
fn digit(number: u64) -> u8
    ensures { result ≡ digit number }
{
    b'0' + (number % 10) as u8
}

/// Writes femtoseconds as picoseconds.
fn put_picoseconds(lines: &mut Lines, femtoseconds: u64) -> Result<(), OutOfMemory>
    ensures { OnOk result (lines.new ≡ lines.old ++ picoseconds femtoseconds) }
{
    lines.number((femtoseconds / 1_000) as i128)?;
    lines.put(&[
        b'.',
        digit(femtoseconds / 100),
        digit(femtoseconds / 10),
        digit(femtoseconds),
    ])
}

/// Writes the entry of the gate before a latch.
fn put_cell(lines: &mut Lines, number: u64, latch: u64) -> Result<(), OutOfMemory>
    requires { latch < 2000 }
    ensures { OnOk result (lines.new ≡ lines.old ++ ended (cell_line number latch)) }
{
    put_numbered(lines, b"(CELL (CELLTYPE \"MIX\") (INSTANCE g", latch)?;
    lines.put(b") (DELAY (ABSOLUTE (IOPATH A Y (")?;
    put_picoseconds(lines, weight(number, latch))?;
    lines.put(b")) (IOPATH B Y (0)))))\n")
}

/// Writes the entries of the gates of the first places of a ring.
fn put_cells(lines: &mut Lines, number: u64, count: u64) -> Result<(), OutOfMemory>
    requires { count ≤ 2000 }
    ensures { OnOk result (lines.new ≡ lines.old ++ entries_text number count) }
{
    for latch in 0..count {
        put_cell(lines, number, latch)?;
    }
    Ok(())
}

/// The delays of the sample of a number: one entry for each gate.
pub(crate) fn delays(alloc: Global, number: u64) -> Result<Vec<u8>, OutOfMemory>
    ensures { IfOk result (λ text. text.items ≡ delays_text number) }
{
    let mut lines = Lines::new(alloc);
    lines.put(b"(DELAYFILE\n(TIMESCALE 1 ps)\n")?;
    put_cells(&mut lines, number, LATCHES)?;
    lines.put(b")\n")?;
    Ok(lines.into_bytes())
}
