//! The least cycle time that keeps hold, with its certificate.
ghost use Rattle.std.specs.Prelude.{◌≡◌, ◌≤◌, ◌+◌, ◌*◌, IfOk};
ghost use Rattle.mintc_ratio.specs.Climbing.{most_tests};
ghost use Rattle.mintc_timing.specs.Limits.{IsDesign};
ghost use Rattle.mintc_timing.specs.Links.{node_count};
ghost use Rattle.mintc_timing.specs.Order.{IsTiming};
ghost use Rattle.mintc_constraints.specs.Ordinary.{constraints_of};
ghost use Rattle.mintc_ratio.specs.Searched.{HasSearched};
ghost use Rattle.mintc_safe.specs.Beginning.{HasSafeBeginning};
ghost use Rattle.mintc_safe.specs.Hold.{safe_links_of};
ghost use Rattle.mintc_safe.specs.SafeOptimum.{IsSafeOptimum};

use crate::SafeCertificate;
use crate::chain::members;
use crate::holds::safe_links;
use mintc_constraints::{LinkList, Room};
use mintc_graph_walks::Steps;
use mintc_optimise::{beginning, departures, schedule, turned};
use mintc_ratio::{Outcome, search};
use mintc_text::OutOfMemory;
use mintc_timing::System;
use std::alloc::Global;
use std::sync::ledger::Ledger;

/// The certificate of what a search over a system's safe links found and left in a room.
fn certificate(
    alloc: Global,
    system: &System,
    list: &LinkList,
    room: &Room,
    outcome: Outcome,
) -> Result<SafeCertificate, OutOfMemory>
    requires list { list.now ≡ constraints_of (node_count system.now.flat) (safe_links_of system.now) }
    requires searched { HasSearched list.now room.now outcome }
    requires design { IsDesign system.now.flat }
    requires kept { IsTiming system.now.flat system.now.order system.now.pairs }
    ensures optimum { IfOk result (IsSafeOptimum system.now) }
    ensures begins { IfOk result (HasSafeBeginning system.now) }
{
    let numbers = room.chain();
    let first = beginning(alloc, list, numbers)?;
    let ring = members(alloc, system, list.items(), numbers)?;
    let chain = turned(ring, first);
    match outcome {
        Outcome::Least { cycle } => Ok(SafeCertificate::Least {
            schedule: schedule(system, &cycle, room.values()),
            departures: departures(alloc, system, room.values())?,
            chain,
        }),
        Outcome::Never => Ok(SafeCertificate::Never { chain }),
    }
}

/// The least cycle time of a system that keeps every hold with each output as early as it can be, with its
/// certificate: a right schedule of that cycle with its departures and a chain of safe links that forbids every
/// smaller cycle time, or a chain that forbids all. Each such schedule passes. Its starts, its ends and the moments
/// at which latches depart are the least that any solution of the safe links has. The chain enters no node twice, and
/// begins with that of its members whose link comes first in the list of safe links. Which chain is given is free.
pub fn safe<L: Ledger>(
    alloc: Global,
    system: &System,
    steps: &mut Steps<L>,
) -> Result<SafeCertificate, OutOfMemory>
    ensures optimum { IfOk result (IsSafeOptimum system.now) }
    ensures begins { IfOk result (HasSafeBeginning system.now) }
    ensures cost { steps.new ≤ steps.old + most_tests (node_count system.now.flat) * (node_count system.now.flat + 1) }
{
    let list = safe_links(alloc, system)?;
    let mut room = Room::reserve(alloc, list.nodes() as usize, list.items().len())?;
    let outcome = search(&list, &mut room, steps);
    certificate(alloc, system, &list, &room, outcome)
}
