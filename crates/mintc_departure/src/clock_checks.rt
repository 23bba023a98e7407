//! The list of what a schedule breaks of the clock and the bounds.
#![tactic(auto, using(crate::proofs::FailedLaws::turns))]

ghost use Rattle.std.specs.Prelude.{◌≡◌, ◌+◌, ◌-◌, ◌*◌, ◌<◌, ◌≤◌, ◌++◌, ◌∷◌, [], ℕ, if◌then◌else◌, map, false, OnOk};
ghost use Rattle.std.specs.Prelude.{length, slice_index_or};
ghost use Rattle.std.specs.List.{range_with_len};
ghost use Rattle.mintc_text.specs.declared.limits.TheConstants.{MOST_PHASES};
ghost use Rattle.mintc_timing.specs.Clocking.{feeds_of};
ghost use Rattle.mintc_timing.specs.Design.{phase_count};
ghost use Rattle.mintc_timing.specs.Limits.{IsPhase};
ghost use Rattle.mintc_timing.specs.Violations.{check, failed, apart_checks, bound_checks, clock_checks};
ghost use Rattle.mintc_departure.specs.Checks.{fed_checks, phase_check};

use crate::clocked_system::ClockedSystem;
use mintc_text::OutOfMemory;
use mintc_timing::{Broken, Violation, feeds};
use mintc_timing_links::{
    apart_excess, bound_excess, cycle_excess, order_excess, span_excess, width_excess,
};

/// Appends a constraint with its amount, if that is above 0.
pub(crate) fn judge(
    violations: &mut Vec<Violation>,
    broken: Broken,
    amount: i64,
) -> Result<(), OutOfMemory>
    ensures { OnOk result (violations.new.items ≡ violations.old.items ++ failed (check broken amount ∷ [])) }
{
    if amount <= 0 {
        return Ok(());
    }
    violations.push(Violation { broken, amount })?;
    Ok(())
}

/// What is asked of each phase by itself, or with the next one.
#[derive(Clone, Copy)]
pub(crate) enum PhaseRule {
    /// It starts within the cycle.
    Cycle,
    /// It starts no later than the next one.
    Order,
    /// It is no wider than the cycle.
    Span,
    /// It is as wide as its elements ask.
    Width,
}

/// Appends a phase, if it breaks a rule.
fn judge_phase(
    clocked: &ClockedSystem<'_>,
    rule: PhaseRule,
    phase: u32,
    violations: &mut Vec<Violation>,
) -> Result<(), OutOfMemory>
    requires phase { IsPhase (phase_count clocked.now.system.now.flat) phase }
    requires next { rule ≡ PhaseRule.Order → phase < phase_count clocked.now.system.now.flat }
    ensures { OnOk result (violations.new.items ≡ violations.old.items
        ++ failed (phase_check clocked.now.system.now.flat clocked.now.schedule.now rule phase ∷ [])) }
{
    let schedule = clocked.schedule;
    let flat = clocked.system.flat();
    match rule {
        PhaseRule::Cycle => judge(
            violations,
            Broken::Cycle { phase },
            cycle_excess(schedule, phase),
        ),
        PhaseRule::Order => judge(
            violations,
            Broken::Order { phase },
            order_excess(schedule, phase),
        ),
        PhaseRule::Span => judge(
            violations,
            Broken::Span { phase },
            span_excess(schedule, phase),
        ),
        PhaseRule::Width => judge(
            violations,
            Broken::Width { phase },
            width_excess(flat, schedule, phase),
        ),
    }
}

/// Appends those of the first so many phases that break a rule.
fn judge_phases(
    clocked: &ClockedSystem<'_>,
    rule: PhaseRule,
    count: usize,
    violations: &mut Vec<Violation>,
) -> Result<(), OutOfMemory>
    requires count { count ≤ phase_count clocked.now.system.now.flat }
    requires next { rule ≡ PhaseRule.Order → count < phase_count clocked.now.system.now.flat }
    ensures { OnOk result (violations.new.items ≡ violations.old.items
        ++ failed (map (phase_check clocked.now.system.now.flat clocked.now.schedule.now rule)
        (range_with_len 1 count))) }
{
    for index in 0..count {
        judge_phase(clocked, rule, index as u32 + 1, violations)?;
    }
    Ok(())
}

/// Appends a constraint that may not be asked with its amount, if it is asked and that is above 0.
fn judge_if(
    violations: &mut Vec<Violation>,
    asked: bool,
    broken: Broken,
    amount: i64,
) -> Result<(), OutOfMemory>
    ensures { OnOk result (violations.new.items ≡ violations.old.items
        ++ failed (if asked then check broken amount ∷ [] else [])) }
{
    if !asked {
        return Ok(());
    }
    judge(violations, broken, amount)
}

/// Appends the phases, fed by phase `i`, that end after it starts.
fn judge_apart(
    clocked: &ClockedSystem<'_>,
    fed: &[bool],
    i: u32,
    violations: &mut Vec<Violation>,
) -> Result<(), OutOfMemory>
    requires phase { IsPhase (phase_count clocked.now.system.now.flat) i }
    requires count { length fed.now ≡ 64 }
    requires table { (i j : ℕ) → IsPhase MOST_PHASES i → IsPhase MOST_PHASES j →
        slice_index_or fed.now (8 * (i - 1) + (j - 1)) false ≡ feeds_of clocked.now.system.now i j }
    ensures { OnOk result (violations.new.items ≡ violations.old.items
        ++ failed (fed_checks clocked.now.system.now clocked.now.schedule.now i)) }
{
    for index in 0..clocked.phase_count() {
        let j = index as u32 + 1;
        let asked = fed[8 * (i as usize - 1) + index];
        judge_if(
            violations,
            asked,
            Broken::Apart { i, j },
            apart_excess(clocked.schedule, i, j),
        )?;
    }
    Ok(())
}

/// Appends the pairs of phases that aren't apart.
fn judge_aparts(
    clocked: &ClockedSystem<'_>,
    violations: &mut Vec<Violation>,
) -> Result<(), OutOfMemory>
    ensures { OnOk result (violations.new.items ≡ violations.old.items
        ++ failed (apart_checks clocked.now.system.now clocked.now.schedule.now)) }
{
    let fed = feeds(clocked.system);
    for index in 0..clocked.phase_count() {
        judge_apart(clocked, fed.as_slice(), index as u32 + 1, violations)?;
    }
    Ok(())
}

/// Appends the bounds that aren't kept.
fn judge_bounds(
    clocked: &ClockedSystem<'_>,
    violations: &mut Vec<Violation>,
) -> Result<(), OutOfMemory>
    ensures { OnOk result (violations.new.items ≡ violations.old.items
        ++ failed (bound_checks clocked.now.system.now.flat clocked.now.schedule.now)) }
{
    let bounds = clocked.system.flat().bounds();
    for number in 0..bounds.len() {
        let index = number as u32;
        judge(
            violations,
            Broken::Bound { index },
            bound_excess(clocked.schedule, &bounds[number]),
        )?;
    }
    Ok(())
}

/// Appends what the schedule breaks of the clock and the bounds.
pub(crate) fn judge_clock(
    clocked: &ClockedSystem<'_>,
    violations: &mut Vec<Violation>,
) -> Result<(), OutOfMemory>
    ensures { OnOk result (violations.new.items ≡ violations.old.items
        ++ failed (clock_checks clocked.now.system.now clocked.now.schedule.now)) }
{
    let count = clocked.phase_count();
    judge_phases(clocked, PhaseRule::Cycle, count, violations)?;
    judge_phases(clocked, PhaseRule::Order, count - 1, violations)?;
    judge_phases(clocked, PhaseRule::Span, count, violations)?;
    judge_phases(clocked, PhaseRule::Width, count, violations)?;
    judge_aparts(clocked, violations)?;
    judge_bounds(clocked, violations)?;
    Ok(())
}
