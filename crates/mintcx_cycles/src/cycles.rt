//! The test of one cycle time, and what is made of it.
ghost use Rattle.std.specs.Prelude.{◌≡◌, ◌<◌, pos, IfOk};
ghost use Rattle.mintc_fraction.specs.Ratio.{over};
ghost use Rattle.mintcx_cycles.specs.AtCycles.{IsAtCycle, IsSayable};

use mintc_certificate::{Departures, Members};
use mintc_constraints::{Room, links};
use mintc_fraction::Fraction;
use mintc_graph_walks::Steps;
use mintc_optimise::{departures, members, schedule};
use mintc_ratio::{Test, test_at};
use mintc_text::OutOfMemory;
use mintc_timing::{Schedule, System};
use std::alloc::Global;
use std::marker::Brand;
use std::sync::ledger::{Blank, Ledger};

/// What there is at a cycle time.
#[derive(Drop)]
pub enum AtCycle {
    /// The earliest right schedule, over the denominator 1, with its departures.
    Right {
        schedule: Schedule,
        departures: Departures,
    },
    /// A chain that takes longer than its cycles, so that no schedule is right.
    Short {
        chain: Members,
    },
}

/// A whole number of femtoseconds.
fn whole(cycle: u32) -> Fraction
    ensures { result ≡ over (pos cycle) (pos 1) }
{
    Fraction::new(i128::from(cycle), 1)
}

/// The earliest right schedule of a cycle time in femtoseconds, or a chain that forbids it and enters no node twice.
/// Which chain is given is free.
pub fn at_cycle<L: Ledger>(
    alloc: Global,
    system: &System,
    cycle: u32,
    steps: &mut Steps<L>,
) -> Result<AtCycle, OutOfMemory>
    ensures value { IfOk result (IsAtCycle system.now cycle) }
    ensures in_range { IfOk result IsSayable }
{
    let list = links(alloc, system)?;
    let mut room = Room::reserve(alloc, list.nodes() as usize, list.items().len())?;
    let at = whole(cycle);
    match test_at(&list, &at, &mut room, steps) {
        Test::Values => Ok(AtCycle::Right {
            schedule: schedule(system, &at, room.values()),
            departures: departures(alloc, system, room.values())?,
        }),
        Test::Chain => Ok(AtCycle::Short {
            chain: members(alloc, system, list.items(), room.chain())?,
        }),
    }
}

/// `at_cycle` with a counter of steps from a blank.
fn at_cycle_from<L: Ledger>(
    alloc: Global,
    system: &System,
    cycle: u32,
    blank: Blank,
) -> Result<AtCycle, OutOfMemory>
    requires name { blank.name ≡ L.name }
    requires parts { blank.parts ≡ L.parts }
    requires part { 0 < L.parts }
    ensures value { IfOk result (IsAtCycle system.now cycle) }
    ensures in_range { IfOk result IsSayable }
{
    let mut steps = Steps::<L>::open(blank);
    at_cycle(alloc, system, cycle, &mut steps)
}

/// The same as `at_cycle`, for callers that count no steps.
pub fn at_cycle_uncounted(
    alloc: Global,
    system: &System,
    cycle: u32,
) -> Result<AtCycle, OutOfMemory>
    ensures value { IfOk result (IsAtCycle system.now cycle) }
    ensures in_range { IfOk result IsSayable }
{
    at_cycle_from::<Brand>(alloc, system, cycle, Blank::new(1))
}
