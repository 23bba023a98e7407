//! What a schedule breaks.
ghost use Rattle.std.specs.Prelude.{◌≡◌, ◌≤◌, ◌+◌, ◌*◌, ◌++◌, ◌∷◌, [], length, All, IfOk, OnOk};
ghost use Rattle.mintc_timing.specs.Departures.{AreEarly, AreLate};
ghost use Rattle.mintc_timing.specs.Design.{element_count, phase_count};
ghost use Rattle.mintc_timing.specs.Limits.{IsInRange};
ghost use Rattle.mintc_timing.specs.Violations.{AreViolations, IsLoop, check, failed, hold_checks, loop_amount};
ghost use Rattle.mintc_timing.specs.Violations.{setup_checks};
ghost use Rattle.mintc_departure.specs.Clocked.{IsClocked};
ghost use Rattle.mintc_departure.specs.Settled.{IsSum};

use crate::clock_checks::judge_clock;
use crate::clocked_system::ClockedSystem;
use crate::element_checks::{judge_holds, judge_setups};
use crate::latest::gather_latest;
use crate::rising::sweep_early;
use crate::settling::{Settling, late};
use mintc_constraints::Room;
use mintc_text::{Numbers, OutOfMemory};
use mintc_timing::{Broken, Schedule, System, Violation};
use std::alloc::Global;

/// By how much data comes later each time that it goes round a loop.
fn loop_excess(clocked: &ClockedSystem<'_>, pairs: &[u32]) -> i64
    requires closed { IsLoop clocked.now.system.now pairs.now }
    ensures { result ≡ loop_amount clocked.now.system.now clocked.now.schedule.now pairs.now }
{
    let mut amount = 0;
    for pair in pairs {
        amount += clocked.late_delay(*pair as usize);
    }
    amount
}

/// Copies numbers.
fn copy(alloc: Global, numbers: &[u32]) -> Result<Numbers, OutOfMemory>
    ensures { IfOk result (λ copy. copy ≡ numbers.now) }
{
    let items = Vec::from_slice(alloc, numbers)?;
    Ok(Numbers::new(items))
}

/// Appends a loop with its amount.
fn push_loop(
    alloc: Global,
    clocked: &ClockedSystem<'_>,
    pairs: &[u32],
    violations: &mut Vec<Violation>,
) -> Result<(), OutOfMemory>
    requires closed { IsLoop clocked.now.system.now pairs.now }
    ensures { OnOk result (violations.new.items ≡ violations.old.items
        ++ check (Broken.Loop pairs.now) (loop_amount clocked.now.system.now clocked.now.schedule.now pairs.now) ∷ []) }
{
    let amount = loop_excess(clocked, pairs);
    let pairs = copy(alloc, pairs)?;
    let broken = Broken::Loop { pairs };
    violations.push(Violation { broken, amount })?;
    Ok(())
}

/// Appends the setups and the holds that aren't kept, by the room's late departures. The early ones are then in the
/// room.
fn judge_elements(
    alloc: Global,
    clocked: &ClockedSystem<'_>,
    room: &mut Room,
    violations: &mut Vec<Violation>,
) -> Result<(), OutOfMemory>
    requires room { 1 + 2 * phase_count clocked.now.system.now.flat + element_count clocked.now.system.now.flat ≤
        room.old.nodes }
    requires late { AreLate clocked.now.system.now clocked.now.schedule.now room.old.late }
    requires sums { All IsSum room.old.late }
    ensures early { OnOk result (AreEarly clocked.now.system.now clocked.now.schedule.now room.new.early) }
    ensures late { OnOk result (room.new.late ≡ room.old.late) }
    ensures nodes { room.new.nodes ≡ room.old.nodes }
    ensures links { room.new.links ≡ room.old.links }
    ensures violations { OnOk result (violations.new.items ≡ violations.old.items
        ++ failed (setup_checks clocked.now.system.now clocked.now.schedule.now room.old.late
        ++ hold_checks clocked.now.system.now clocked.now.schedule.now room.new.early)) }
    ensures fits { IsClocked clocked.now.system.now clocked.now.schedule.now }
{
    gather_latest(clocked, room);
    judge_setups(clocked, room, violations)?;
    sweep_early(alloc, clocked, room)?;
    judge_holds(clocked, room, violations)
}

/// What a schedule breaks, in this order: cycle, order, span, width, apart, bound, then either one loop, or all
/// setups and then all holds, numbers ascending inside a kind; each with the amount by which it fails, in
/// femtoseconds times the schedule's denominator. Phases are counted from 1, all else from 0. An empty list leaves
/// the late and the early departures in the room.
pub fn violations(
    alloc: Global,
    system: &System,
    schedule: &Schedule,
    room: &mut Room,
) -> Result<Vec<Violation>, OutOfMemory>
    requires in_range { IsInRange schedule.now }
    requires phases { length schedule.now.starts ≡ phase_count system.now.flat }
    requires room { 1 + 2 * phase_count system.now.flat + element_count system.now.flat ≤ room.old.nodes }
    ensures violations { IfOk result (λ violations. AreViolations system.now schedule.now violations.items) }
    ensures late { IfOk result (λ violations. violations.items ≡ [] → AreLate system.now schedule.now room.new.late) }
    ensures early { IfOk result (λ violations. violations.items ≡ [] →
        AreEarly system.now schedule.now room.new.early) }
    ensures nodes { room.new.nodes ≡ room.old.nodes }
    ensures links { room.new.links ≡ room.old.links }
{
    let clocked = ClockedSystem { system, schedule };
    let mut violations = Vec::new(alloc);
    judge_clock(&clocked, &mut violations)?;
    match late(system, schedule, room) {
        Settling::Settled => {
            judge_elements(alloc, &clocked, room, &mut violations)?;
            Ok(violations)
        }
        Settling::Loop => {
            push_loop(alloc, &clocked, room.chain(), &mut violations)?;
            Ok(violations)
        }
    }
}
