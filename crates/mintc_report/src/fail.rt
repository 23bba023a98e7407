//! The text of a fail.
ghost use Rattle.std.specs.Prelude.{◌≡◌, ◌≢◌, ◌<◌, ◌++◌, ◌∷◌, [], IfOk, OnOk, length, All, codes, decimal};
ghost use Rattle.mintc_text.specs.Lines.{ended, text_of, words, fraction_word};
ghost use Rattle.mintc_timing.specs.Limits.{IsDenominator, IsInRange};
ghost use Rattle.mintc_report.specs.Answers.{broken_words, reach_line, reach_lines, ring_of};
ghost use Rattle.mintc_report.specs.Answers.{AppendsLines, AppendsViolations, AreViolationLines, IsFailText, NamePairs};

use crate::writing::{lowest, put_fraction};
use mintc_fraction::Fraction;
use mintc_text::{Lines, OutOfMemory};
use mintc_text_refusals::{put_number, put_word};
use mintc_timing::{Broken, Pair, Schedule, System, Violation};
use std::alloc::Global;

/// Writes a constraint of one number.
fn put_violated(lines: &mut Lines, kind: &[u8], number: u32) -> Result<(), OutOfMemory>
    ensures { OnOk result (lines.new ≡ lines.old ++ words (codes "violated" ∷ kind.now ∷ decimal number ∷ [])) }
{
    lines.put(b"violated")?;
    put_word(lines, kind)?;
    put_number(lines, number as u64)
}

/// Writes that two phases come too close.
fn put_apart(lines: &mut Lines, i: u32, j: u32) -> Result<(), OutOfMemory>
    ensures { OnOk result (lines.new ≡ lines.old
        ++ words (codes "violated" ∷ codes "apart" ∷ decimal i ∷ decimal j ∷ [])) }
{
    put_violated(lines, b"apart", i)?;
    put_number(lines, j as u64)
}

/// Writes how many pairs a loop has.
fn put_loop(lines: &mut Lines, ring: &[u32]) -> Result<(), OutOfMemory>
    ensures { OnOk result (lines.new ≡ lines.old ++ words (codes "loop" ∷ decimal (length ring.now) ∷ [])) }
{
    lines.put(b"loop")?;
    put_number(lines, ring.len() as u64)
}

/// Writes a broken constraint.
fn put_broken(lines: &mut Lines, broken: &Broken) -> Result<(), OutOfMemory>
    ensures { OnOk result (lines.new ≡ lines.old ++ broken_words broken.now) }
{
    match broken {
        Broken::Cycle { phase } => put_violated(lines, b"cycle", *phase),
        Broken::Order { phase } => put_violated(lines, b"order", *phase),
        Broken::Span { phase } => put_violated(lines, b"span", *phase),
        Broken::Width { phase } => put_violated(lines, b"width", *phase),
        Broken::Apart { i, j } => put_apart(lines, *i, *j),
        Broken::Bound { index } => put_violated(lines, b"bound", *index),
        Broken::Loop { pairs } => put_loop(lines, pairs.items()),
        Broken::Setup { element } => put_violated(lines, b"setup", *element),
        Broken::Hold { element } => put_violated(lines, b"hold", *element),
    }
}

/// Writes by how much a constraint fails, and ends the line.
fn put_amount(lines: &mut Lines, amount: &Fraction) -> Result<(), OutOfMemory>
    ensures { OnOk result (lines.new ≡ lines.old
        ++ 32 ∷ ended (words (codes "by" ∷ fraction_word amount.now.num amount.now.den ∷ []))) }
{
    put_word(lines, b"by")?;
    put_fraction(lines, amount)?;
    lines.put(b"\n")
}

/// Writes the line of a pair of a loop.
fn put_reach(lines: &mut Lines, pair: &Pair) -> Result<(), OutOfMemory>
    ensures { OnOk result (lines.new ≡ lines.old ++ ended (reach_line pair.now)) }
{
    lines.put(b"reach")?;
    put_number(lines, pair.from as u64)?;
    put_number(lines, pair.to as u64)?;
    lines.put(b"\n")
}

/// Writes the lines of a loop's pairs.
fn put_ring(lines: &mut Lines, pairs: &[Pair], ring: &[u32]) -> Result<(), OutOfMemory>
    requires { All (λ n. n < length pairs.now) ring.now }
    ensures { OnOk result (lines.new ≡ lines.old ++ text_of (reach_lines pairs.now ring.now)) }
{
    for number in ring {
        put_reach(lines, &pairs[*number as usize])?;
    }
    Ok(())
}

/// The pairs of a loop, by their numbers. Other constraints have none.
fn ring(broken: &Broken) -> &[u32]
    ensures { result.now ≡ ring_of broken.now }
{
    match broken {
        Broken::Loop { pairs } => pairs.items(),
        _ => &[],
    }
}

/// Writes the lines of a violation.
fn put_violation(
    lines: &mut Lines,
    pairs: &[Pair],
    den: i64,
    violation: &Violation,
) -> Result<(), OutOfMemory>
    requires den { IsDenominator den }
    requires named { All (λ n. n < length pairs.now) (ring_of violation.now.broken) }
    ensures { OnOk result (AppendsLines (AreViolationLines pairs.now den violation.now) lines.old lines.new) }
{
    put_broken(lines, &violation.broken)?;
    put_amount(lines, &lowest(violation.amount, den))?;
    put_ring(lines, pairs, ring(&violation.broken))
}

/// Writes the lines of each violation.
fn put_violations(
    lines: &mut Lines,
    pairs: &[Pair],
    den: i64,
    violations: &[Violation],
) -> Result<(), OutOfMemory>
    requires den { IsDenominator den }
    requires named { NamePairs (length pairs.now) violations.now }
    ensures { OnOk result (AppendsViolations pairs.now den violations.now lines.old lines.new) }
{
    for violation in violations {
        put_violation(lines, pairs, den, violation)?;
    }
    Ok(())
}

/// The text of a fail: `fail`, then for each violation `violated KIND .. by F`, or `loop M by F` and for each of the
/// loop's M pairs `reach J L`. F is an amount in femtoseconds, as a fraction in lowest terms. Phases are counted from
/// 1, bounds and elements from 0.
pub fn fail_text(
    alloc: Global,
    system: &System,
    schedule: &Schedule,
    violations: &[Violation],
) -> Result<Vec<u8>, OutOfMemory>
    requires in_range { IsInRange schedule.now }
    requires named { NamePairs (length system.now.pairs) violations.now }
    requires some { violations.now ≢ [] }
    ensures { IfOk result (λ text. IsFailText system.now schedule.now violations.now text.items) }
{
    let mut lines = Lines::new(alloc);
    lines.put(b"fail\n")?;
    put_violations(&mut lines, system.pairs(), schedule.den, violations)?;
    Ok(lines.into_bytes())
}
