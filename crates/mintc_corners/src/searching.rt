//! The least cycle time of several corners, with its certificate.
ghost use Rattle.std.specs.Prelude.{◌≡◌, ◌≤◌, ◌+◌, ◌*◌, IfOk, length, map, flat_map};
ghost use Rattle.mintc_ratio.specs.Climbing.{most_tests};
ghost use Rattle.mintc_text.specs.declared.limits.TheConstants.{MOST_ELEMENTS};
ghost use Rattle.mintc_constraints.specs.Ordinary.{constraints_of};
ghost use Rattle.mintc_ratio.specs.Searched.{HasSearched};
ghost use Rattle.mintc_corners.specs.Beginning.{HasJointBeginning};
ghost use Rattle.mintc_corners.specs.CornerOptimum.{IsOptimumOf};
ghost use Rattle.mintc_corners.specs.Joint.{joint_nodes, AreCorners};
ghost use Rattle.mintc_corners.specs.Joined.{joined_links, own_list};
ghost use Rattle.mintc_corners.specs.Laws.{AreSystems};

use crate::CornerCertificate;
use crate::chain::members;
use crate::departing::{all_departures, joint_schedule};
use crate::joining::{joint_links, own_lists};
use mintc_constraints::{LinkList, Room};
use mintc_graph_walks::Steps;
use mintc_optimise::{beginning, turned};
use mintc_ratio::{Outcome, search};
use mintc_text::OutOfMemory;
use mintc_timing::System;
use std::alloc::Global;
use std::sync::ledger::Ledger;

/// The certificate of what a search over the joint links found and left in a room.
fn certificate(
    alloc: Global,
    systems: &[System],
    lists: &[LinkList],
    list: &LinkList,
    room: &Room,
    outcome: Outcome,
) -> Result<CornerCertificate, OutOfMemory>
    requires few { length systems.now ≤ 4 }
    requires some { 1 ≤ length systems.now }
    requires alike { AreCorners systems.now }
    requires elements { length (flat_map (λ t. t.flat.elements) systems.now) ≤ MOST_ELEMENTS }
    requires kept { AreSystems systems.now }
    requires lists { lists.now ≡ map own_list systems.now }
    requires list { list.now ≡ constraints_of (joint_nodes systems.now) (joined_links systems.now) }
    requires searched { HasSearched list.now room.now outcome }
    ensures optimum { IfOk result (IsOptimumOf systems.now) }
    ensures begins { IfOk result (HasJointBeginning systems.now) }
{
    let numbers = room.chain();
    let first = beginning(alloc, list, numbers)?;
    let ring = members(alloc, systems, lists, numbers)?;
    let chain = turned(ring, first);
    match outcome {
        Outcome::Least { cycle } => {
            let schedule = joint_schedule(alloc, systems, &cycle, room.values())?;
            let departures = all_departures(alloc, systems, room.values())?;
            Ok(CornerCertificate::Least {
                schedule,
                departures,
                chain,
            })
        }
        Outcome::Never => Ok(CornerCertificate::Never { chain }),
    }
}

/// The least cycle time of one schedule that is right in each of two to four systems that differ in numbers alone,
/// with its certificate: such a schedule of that cycle with its departures in each and a chain of joint links that
/// forbids every smaller cycle time, or a chain that forbids all. Its starts, its ends and the moments at which
/// latches depart are the least that any solution of the joint links has. The chain enters no node twice, and begins
/// with that of its members whose link comes first in the list of joint links, those of each corner in turn. Which
/// chain is given is free.
pub fn corners<L: Ledger>(
    alloc: Global,
    systems: &[System],
    steps: &mut Steps<L>,
) -> Result<CornerCertificate, OutOfMemory>
    requires few { length systems.now ≤ 4 }
    requires some { 2 ≤ length systems.now }
    requires alike { AreCorners systems.now }
    requires elements { length (flat_map (λ t. t.flat.elements) systems.now) ≤ MOST_ELEMENTS }
    ensures optimum { IfOk result (IsOptimumOf systems.now) }
    ensures begins { IfOk result (HasJointBeginning systems.now) }
    ensures cost { steps.new ≤ steps.old + most_tests (joint_nodes systems.now) * (joint_nodes systems.now + 1) }
{
    let lists = own_lists(alloc, systems)?;
    let list = joint_links(alloc, systems, &lists)?;
    let mut room = Room::reserve(alloc, list.nodes() as usize, list.items().len())?;
    let outcome = search(&list, &mut room, steps);
    certificate(alloc, systems, &lists, &list, &room, outcome)
}
