//! The seventh test in words.
ghost use Rattle.std.specs.Prelude.{◌≡◌, ◌++◌, ◌≢◌, pos, OnOk};
ghost use Rattle.mintc_fraction.specs.Ratio.{IsModest, over};
ghost use Rattle.mintc_text.specs.Lines.{ended};
ghost use Rattle.mintcx_verdicts.specs.Chains.{AreSums, asks, laps_of, laps_text, stuck_line, takes, tight_line};

use crate::counts::put_counted;
use mintc_certificate::ChainSums;
use mintc_fraction::Fraction;
use mintc_text::{Lines, OutOfMemory};
use mintcx_amounts::{Unit, put_amount};
use mintcx_frame::put_time;

/// The cycles of a chain, counted.
fn laps(sums: &ChainSums) -> usize
    requires { AreSums sums.now }
    ensures { result ≡ laps_of sums.now }
{
    sums.cycles as usize
}

/// What a chain takes, in femtoseconds.
pub(crate) fn delay(sums: &ChainSums) -> Fraction
    requires { AreSums sums.now }
    ensures value { result ≡ over sums.now.delay (pos 1) }
    ensures modest { IsModest result }
{
    Fraction::new(i128::from(sums.delay), 1)
}

/// Writes how many cycles a chain takes.
fn put_laps(lines: &mut Lines, count: usize) -> Result<(), OutOfMemory>
    ensures { OnOk result (lines.new ≡ lines.old ++ laps_text count) }
{
    if count == 0 {
        return lines.put(b"no cycle");
    }
    put_counted(lines, count, b"cycle", b"cycles")
}

/// Writes what a chain takes, and in how many cycles.
fn put_takes(lines: &mut Lines, unit: Unit, sums: &ChainSums) -> Result<(), OutOfMemory>
    requires { AreSums sums.now }
    ensures { OnOk result (lines.new ≡ lines.old ++ takes unit sums.now) }
{
    lines.put(b"  the chain takes ")?;
    put_time(lines, &delay(sums), unit)?;
    lines.put(b" in ")?;
    put_laps(lines, laps(sums))
}

/// Writes the cycle time that a chain with cycles asks for.
fn put_asks(lines: &mut Lines, unit: Unit, sums: &ChainSums) -> Result<(), OutOfMemory>
    requires sums { AreSums sums.now }
    requires cycles { laps_of sums.now ≢ 0 }
    ensures { OnOk result (lines.new ≡ lines.old ++ asks unit sums.now) }
{
    let cycle = Fraction::new(i128::from(sums.delay), i128::from(sums.cycles));
    put_amount(lines, &cycle, unit)
}

/// Writes what a chain takes that is to forbid each cycle time below a schedule's.
pub(crate) fn put_tight(
    lines: &mut Lines,
    unit: Unit,
    cycle: &Fraction,
    sums: &ChainSums,
) -> Result<(), OutOfMemory>
    requires sums { AreSums sums.now }
    requires cycle { IsModest cycle.now }
    ensures { OnOk result (lines.new ≡ lines.old ++ ended (tight_line unit cycle.now sums.now)) }
{
    put_takes(lines, unit, sums)?;
    if laps(sums) == 0 {
        return lines.put(b", and so asks for no cycle time\n");
    }
    lines.put(b", which asks for ")?;
    put_asks(lines, unit, sums)?;
    lines.put(b", and the schedule has ")?;
    put_amount(lines, cycle, unit)?;
    lines.put(b"\n")
}

/// Writes what a chain takes that is to forbid each cycle time.
pub(crate) fn put_stuck(lines: &mut Lines, unit: Unit, sums: &ChainSums) -> Result<(), OutOfMemory>
    requires { AreSums sums.now }
    ensures { OnOk result (lines.new ≡ lines.old ++ ended (stuck_line unit sums.now)) }
{
    put_takes(lines, unit, sums)?;
    if laps(sums) == 0 {
        return lines.put(b", which forbids no cycle time\n");
    }
    lines.put(b", which forbids no cycle time of ")?;
    put_asks(lines, unit, sums)?;
    lines.put(b" or more\n")
}
