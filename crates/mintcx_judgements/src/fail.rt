//! The text of a fail.
ghost use Rattle.std.specs.Prelude.{◌≡◌, ◌<◌, ◌++◌, ℤ, ℕ, length, All, IfOk, OnOk};
ghost use Rattle.mintc_text.specs.Lines.{ended};
ghost use Rattle.mintc_timing.specs.Design.{phase_count};
ghost use Rattle.mintc_timing.specs.Limits.{IsInRange};
ghost use Rattle.mintcx_judgements.specs.Fails.{IsFailText, count_line, count_word, ranked_text, violation_text};
ghost use Rattle.mintcx_judgements.specs.Named.{AreNamed, IsNamed};

use crate::data::{put_hold, put_loop, put_setup};
use crate::judged::{Causes, Judged, causes_of, cycle_time};
use crate::ranking::{Place, ranked};
use crate::rules::put_rule;
use mintc_text::{Bytes, Lines, OutOfMemory};
use mintc_timing::{Broken, Violation};
use mintcx_frame::{View, put_foot, put_head, put_number};
use std::alloc::Global;

/// Writes a violation.
fn put_violation(
    lines: &mut Lines,
    causes: &Causes<'_>,
    violation: &Violation,
) -> Result<(), OutOfMemory>
    requires { IsNamed causes.now.told.system.now violation.now.broken }
    ensures { OnOk result (lines.new ≡ lines.old ++ violation_text causes.now.told.system.now
        causes.now.told.schedule.now causes.now.late.now causes.now.early.now causes.now.told.unit violation.now) }
{
    let told = &causes.told;
    let amount = violation.amount;
    match &violation.broken {
        Broken::Loop { pairs } => put_loop(lines, told, pairs.items(), amount),
        Broken::Setup { element } => {
            let latest = causes.latest(*element);
            put_setup(lines, told, causes.late, *element, amount, latest)
        }
        Broken::Hold { element } => {
            let earliest = causes.earliest(*element);
            put_hold(lines, told, causes.early, *element, amount, earliest)
        }
        rule => put_rule(lines, told, rule, amount),
    }
}

/// Writes violations in the order of their places.
fn put_ranked(
    lines: &mut Lines,
    causes: &Causes<'_>,
    violations: &[Violation],
    places: &[Place],
) -> Result<(), OutOfMemory>
    requires named { AreNamed causes.now.told.system.now violations.now }
    requires places { All (λ (place : ℕ × ℤ × ℕ). place.2 < length violations.now) places.now }
    ensures { OnOk result (lines.new ≡ lines.old ++ ranked_text causes.now.told.system.now
        causes.now.told.schedule.now causes.now.late.now causes.now.early.now causes.now.told.unit violations.now
        places.now) }
{
    for place in places {
        put_violation(lines, causes, &violations[place.2])?;
    }
    Ok(())
}

/// The words for so many violations.
fn count_word(count: usize) -> &'static [u8]
    ensures { result.now ≡ count_word count }
{
    if count == 1 {
        b" violation:"
    } else {
        b" violations:"
    }
}

/// Writes how many violations there are.
fn put_count(lines: &mut Lines, count: usize) -> Result<(), OutOfMemory>
    ensures { OnOk result (lines.new ≡ lines.old ++ ended (count_line count)) }
{
    put_number(lines, count as u64)?;
    lines.put(count_word(count))?;
    lines.put(b"\n")
}

/// The text of a fail: the cycle, and each violation with the numbers or the data that cause it: the rules of the clock
/// and a loop as they stand, then the setups, then the holds, of each kind the worst first.
#[tactic(auto, using(crate::proofs::SharedPlaceLaws::ranked_inside))]
pub fn fail_text(
    alloc: Global,
    judged: &Judged<'_>,
    violations: &[Violation],
    view: &View,
) -> Result<Bytes, OutOfMemory>
    requires in_range { IsInRange judged.now.schedule.now }
    requires phases { length judged.now.schedule.now.starts ≡ phase_count judged.now.system.now.flat }
    requires named { AreNamed judged.now.system.now violations.now }
    ensures { IfOk result (IsFailText judged.now.system.now judged.now.schedule.now judged.now.late.now
        judged.now.early.now view.now violations.now) }
{
    let time = cycle_time(judged.schedule);
    let unit = view.unit_for(&time);
    let causes = causes_of(alloc, judged, unit)?;
    let places = ranked(alloc, violations)?;
    let mut lines = Lines::new(alloc);
    put_head(&mut lines, b"fail", &time, view)?;
    lines.put(b"\n")?;
    put_count(&mut lines, violations.len())?;
    lines.put(b"\n")?;
    put_ranked(&mut lines, &causes, violations, &places)?;
    lines.put(b"\n")?;
    put_foot(&mut lines, unit, b"")?;
    Ok(Bytes::new(lines.into_bytes()))
}
