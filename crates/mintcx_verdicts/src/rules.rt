//! The second and the third test in words.
ghost use Rattle.std.specs.Prelude.{◌≡◌, ◌++◌, OnOk};
ghost use Rattle.mintcx_judgements.specs.Named.{AreNamed, IsNamed};
ghost use Rattle.mintcx_verdicts.specs.Rules.{is_told, rules_text, told_text};

use mintc_text::{Lines, OutOfMemory};
use mintc_timing::{Broken, Violation};
use mintcx_judgements::{Told, put_rule};

/// Whether what is broken is told where bounds are, or else where all others are.
fn is_told(bounds: bool, broken: &Broken) -> bool
    ensures { result ≡ is_told bounds broken.now }
{
    match broken {
        Broken::Bound { .. } => bounds,
        _ => !bounds,
    }
}

/// Writes a rule, where it is told.
fn put_told(
    lines: &mut Lines,
    told: &Told<'_>,
    bounds: bool,
    violation: &Violation,
) -> Result<(), OutOfMemory>
    requires { IsNamed told.now.system.now violation.now.broken }
    ensures { OnOk result (lines.new ≡ lines.old
        ++ told_text told.now.system.now told.now.schedule.now told.now.unit bounds violation.now) }
{
    if is_told(bounds, &violation.broken) {
        put_rule(lines, told, &violation.broken, violation.amount)
    } else {
        Ok(())
    }
}

/// Writes the rules of the clock, or the bounds, among some violations.
pub(crate) fn put_rules(
    lines: &mut Lines,
    told: &Told<'_>,
    bounds: bool,
    violations: &[Violation],
) -> Result<(), OutOfMemory>
    requires { AreNamed told.now.system.now violations.now }
    ensures { OnOk result (lines.new ≡ lines.old
        ++ rules_text told.now.system.now told.now.schedule.now told.now.unit bounds violations.now) }
{
    for violation in violations {
        put_told(lines, told, bounds, violation)?;
    }
    Ok(())
}
