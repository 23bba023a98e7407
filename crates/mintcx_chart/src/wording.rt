//! Times in words.
ghost use Rattle.std.specs.Prelude.{◌≡◌, ◌++◌, IfOk, OnOk};
ghost use Rattle.mintc_fraction.specs.Ratio.{IsModest};
ghost use Rattle.mintc_timing.specs.Limits.{IsDenominator};
ghost use Rattle.mintcx_chart.specs.Ranges.{IsDrawnTime};
ghost use Rattle.mintcx_chart.specs.Words.{moment_of, moment_text, span_text, word_and};

use mintc_fraction::Fraction;
use mintc_text::{Lines, Name, OutOfMemory};
use mintcx_amounts::Unit;
use mintcx_frame::put_time;
use std::alloc::Global;

/// A time over a denominator, in femtoseconds.
pub(crate) fn moment_of(time: i128, den: i64) -> Fraction
    requires time { IsDrawnTime time }
    requires den { IsDenominator den }
    ensures value { result ≡ moment_of time den }
    ensures modest { IsModest result }
{
    Fraction::new(time, i128::from(den))
}

/// Writes a time over a denominator, with its unit.
pub fn put_moment(lines: &mut Lines, unit: Unit, den: i64, time: i128) -> Result<(), OutOfMemory>
    requires time { IsDrawnTime time }
    requires den { IsDenominator den }
    ensures { OnOk result (lines.new ≡ lines.old ++ moment_text unit den time) }
{
    put_time(lines, &moment_of(time, den), unit)
}

/// Writes a span of femtoseconds with its unit.
pub fn put_span(lines: &mut Lines, unit: Unit, span: i64) -> Result<(), OutOfMemory>
    ensures { OnOk result (lines.new ≡ lines.old ++ span_text unit span) }
{
    put_time(lines, &Fraction::new(i128::from(span), 1), unit)
}

/// What was written, as a name.
pub fn name_of(alloc: Global, lines: Lines) -> Result<Name, OutOfMemory>
    ensures { IfOk result (λ name. name ≡ lines) }
{
    Name::new(alloc, &lines.into_bytes())
}

/// Writes a word with a span of femtoseconds behind it, and its unit.
fn put_word_span(lines: &mut Lines, word: &[u8], unit: Unit, span: i64) -> Result<(), OutOfMemory>
    ensures { OnOk result (lines.new ≡ lines.old ++ word_and word.now (span_text unit span)) }
{
    lines.put(word)?;
    lines.put(b" ")?;
    put_span(lines, unit, span)
}

/// A word with a span of femtoseconds behind it, and its unit.
pub(crate) fn word_and_span(
    alloc: Global,
    word: &[u8],
    unit: Unit,
    span: i64,
) -> Result<Name, OutOfMemory>
    ensures { IfOk result (λ name. name ≡ word_and word.now (span_text unit span)) }
{
    let mut lines = Lines::new(alloc);
    put_word_span(&mut lines, word, unit, span)?;
    name_of(alloc, lines)
}

/// What a latch borrows, in words.
pub(crate) fn borrows_words(
    alloc: Global,
    unit: Unit,
    den: i64,
    borrowed: i64,
) -> Result<Name, OutOfMemory>
    requires { IsDenominator den }
{
    let mut lines = Lines::new(alloc);
    lines.put(b"borrows ")?;
    put_moment(&mut lines, unit, den, i128::from(borrowed))?;
    name_of(alloc, lines)
}
