//! The schedule and the departures of each corner, from the moments of all nodes.
ghost use Rattle.std.specs.Prelude.{◌≡◌, ◌≤◌, ◌+◌, IfOk, All, length, slice_index_or};
ghost use Rattle.mintc_text.specs.declared.limits.TheConstants.{MOST_ELEMENTS};
ghost use Rattle.mintc_timing.specs.Limits.{IsInRange};
ghost use Rattle.mintc_constraints.specs.Duality.{schedule_of};
ghost use Rattle.mintc_ratio.specs.Searched.{IsCycle};
ghost use Rattle.mintc_corners.specs.CornerOptimum.{AreDeparturesInRange};
ghost use Rattle.mintc_corners.specs.Joined.{departures_of_all, no_timing, corner_values as corner_values_of};
ghost use Rattle.mintc_corners.specs.Joined.{AreSayableOfAll};

use crate::DeparturesList;
use crate::joining::clock_nodes;
use mintc_fraction::Fraction;
use mintc_optimise::{departures, schedule};
use mintc_text::OutOfMemory;
use mintc_timing::{Schedule, System};
use std::alloc::Global;

/// The moments of a corner's nodes: those of time 0 and the clock, and those of its elements, which come after
/// those of the corners before.
fn corner_values(
    alloc: Global,
    clock: usize,
    before: usize,
    count: usize,
    values: &[i128],
) -> Result<Vec<i128>, OutOfMemory>
    requires clock { clock ≤ 16 }
    requires before { before ≤ MOST_ELEMENTS }
    requires inside { 1 + clock + before + count ≤ length values.now }
    ensures { IfOk result (λ own. own.items ≡ corner_values_of clock before count values.now) }
{
    let mut own = Vec::new(alloc);
    own.extend_from_slice(&values[..1 + clock])?;
    let first = 1 + clock + before;
    own.extend_from_slice(&values[first..first + count])?;
    Ok(own)
}

/// The schedule with this cycle time and these moments, as numerators over the cycle time's denominator.
pub(crate) fn joint_schedule(
    alloc: Global,
    systems: &[System],
    cycle: &Fraction,
    values: &[i128],
) -> Result<Schedule, OutOfMemory>
    requires some { 1 ≤ length systems.now }
    requires cycle { IsCycle cycle.now }
    requires sayable { AreSayableOfAll systems.now values.now }
    ensures value { IfOk result
        (λ s. s ≡ schedule_of (slice_index_or systems.now 0 no_timing).flat cycle.now.num cycle.now.den values.now) }
    ensures in_range { IfOk result IsInRange }
{
    let system = &systems[0];
    let clock = clock_nodes(system) as usize;
    let count = system.flat().elements().len();
    let own = corner_values(alloc, clock, 0, count, values)?;
    Ok(schedule(system, cycle, &own))
}

/// The departures of each corner.
pub(crate) fn all_departures(
    alloc: Global,
    systems: &[System],
    values: &[i128],
) -> Result<DeparturesList, OutOfMemory>
    requires some { 1 ≤ length systems.now }
    requires sayable { AreSayableOfAll systems.now values.now }
    ensures value { IfOk result (λ all. all ≡ departures_of_all systems.now values.now) }
    ensures in_range { IfOk result (All AreDeparturesInRange) }
{
    let clock = clock_nodes(&systems[0]) as usize;
    let mut before = 0;
    let mut all = Vec::new(alloc);
    for system in systems {
        let count = system.flat().elements().len();
        let own = corner_values(alloc, clock, before, count, values)?;
        all.push(departures(alloc, system, &own)?)?;
        before += count;
    }
    Ok(DeparturesList::new(all))
}
