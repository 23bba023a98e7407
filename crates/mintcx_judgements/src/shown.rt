//! Times and names amid words.
ghost use Rattle.std.specs.Prelude.{◌≡◌, ◌++◌, OnOk};
ghost use Rattle.mintc_fraction.specs.Ratio.{IsModest, over};
ghost use Rattle.mintcx_judgements.specs.Shown.{IsLong, about, measured, timed};

use crate::told::Told;
use mintc_fraction::Fraction;
use mintc_text::{Lines, OutOfMemory};
use mintcx_amounts::put_amount;
use mintcx_frame::put_time;

/// A time over the schedule's denominator.
pub(crate) fn fraction(told: &Told<'_>, time: i128) -> Fraction
    requires { IsLong time }
    ensures value { result ≡ over time told.now.schedule.now.den }
    ensures modest { IsModest result }
{
    Fraction::new(time, i128::from(told.schedule().den))
}

/// Writes words, and behind them a time without its unit.
pub fn put_timed(
    lines: &mut Lines,
    told: &Told<'_>,
    words: &[u8],
    time: i128,
) -> Result<(), OutOfMemory>
    requires { IsLong time }
    ensures { OnOk result (lines.new ≡ lines.old ++ timed told.now.unit told.now.schedule.now words.now time) }
{
    lines.put(words)?;
    put_amount(lines, &fraction(told, time), told.unit)
}

/// Writes words, and behind them a time with its unit.
pub fn put_measured(
    lines: &mut Lines,
    told: &Told<'_>,
    words: &[u8],
    time: i128,
) -> Result<(), OutOfMemory>
    requires { IsLong time }
    ensures { OnOk result (lines.new ≡ lines.old ++ measured told.now.unit told.now.schedule.now words.now time) }
{
    lines.put(words)?;
    put_time(lines, &fraction(told, time), told.unit)
}

/// Writes a name amid words.
pub(crate) fn put_about(
    lines: &mut Lines,
    before: &[u8],
    name: &[u8],
    after: &[u8],
) -> Result<(), OutOfMemory>
    ensures { OnOk result (lines.new ≡ lines.old ++ about before.now name.now after.now) }
{
    lines.put(before)?;
    lines.put(name)?;
    lines.put(after)
}
