//! The least cycle time with its certificate.
ghost use Rattle.std.specs.Prelude.{◌≡◌, ◌≤◌, ◌+◌, ◌*◌, length, IfOk};
ghost use Rattle.mintc_ratio.specs.Climbing.{most_tests};
ghost use Rattle.mintc_constraints.specs.Ordinary.{constraints_of};
ghost use Rattle.mintc_timing.specs.Design.{element_count};
ghost use Rattle.mintc_timing.specs.Limits.{IsDesign};
ghost use Rattle.mintc_timing.specs.Links.{links_of, node_count};
ghost use Rattle.mintc_timing.specs.Order.{IsTiming};
ghost use Rattle.mintc_certificate.specs.Optimal.{IsOptimal};
ghost use Rattle.mintc_certificate.specs.Ranges.{IsCertificateInRange};
ghost use Rattle.mintc_certificate.specs.Valid.{IsValid, chain_of};
ghost use Rattle.mintc_ratio.specs.Searched.{HasSearched};
ghost use Rattle.mintc_optimise.specs.Beginning.{HasBeginning};
ghost use Rattle.mintc_optimise.specs.Bounded.{CertifiesNeverOnlyWithBounds};
ghost use Rattle.mintc_optimise.specs.Optimum.{HasEarliest, HasSimple};

use crate::Bench;
use crate::chain::members;
use crate::times::{departures, schedule};
use crate::turning::{beginning, turned};
use mintc_certificate::Certificate;
use mintc_constraints::{LinkList, Room};
use mintc_graph_walks::Steps;
use mintc_ratio::Outcome;
use mintc_text::OutOfMemory;
use mintc_timing::System;
use std::alloc::Global;
use std::sync::ledger::Ledger;

/// The certificate of what a search over a system's links found and left in a room.
fn certificate(
    alloc: Global,
    system: &System,
    list: &LinkList,
    room: &Room,
    outcome: Outcome,
) -> Result<Certificate, OutOfMemory>
    requires list { list.now ≡ constraints_of (node_count system.now.flat) (links_of system.now) }
    requires searched { HasSearched list.now room.now outcome }
    requires design { IsDesign system.now.flat }
    requires kept { IsTiming system.now.flat system.now.order system.now.pairs }
    ensures valid { IfOk result (IsValid system.now) }
    ensures optimal { IfOk result (IsOptimal system.now) }
    ensures earliest { IfOk result (HasEarliest system.now) }
    ensures simple { IfOk result (HasSimple system.now) }
    ensures begins { IfOk result (HasBeginning system.now) }
    ensures bounded { IfOk result (CertifiesNeverOnlyWithBounds system.now.flat) }
    ensures in_range { IfOk result IsCertificateInRange }
    ensures short { IfOk result (λ certificate. length (chain_of certificate) ≤ element_count system.now.flat + 17) }
{
    let numbers = room.chain();
    let first = beginning(alloc, list, numbers)?;
    let ring = members(alloc, system, list.items(), numbers)?;
    let chain = turned(ring, first);
    match outcome {
        Outcome::Least { cycle } => Ok(Certificate::Least {
            schedule: schedule(system, &cycle, room.values()),
            departures: departures(alloc, system, room.values())?,
            chain,
        }),
        Outcome::Never => Ok(Certificate::Never { chain }),
    }
}

/// The least cycle time of a system with its certificate: a right schedule of that cycle with its departures and a
/// chain that forbids every smaller cycle time; or, which takes a bound, a chain that forbids all. Its starts, its
/// ends and the moments at which latches depart are the least that any solution has. The chain enters no node
/// twice, begins with that of its members whose link comes first in the list of links, and each of its reaches has a
/// path with the greatest delay of its pair. Which chain is given is free.
pub fn optimise<L: Ledger>(
    alloc: Global,
    system: &System,
    steps: &mut Steps<L>,
) -> Result<Certificate, OutOfMemory>
    ensures valid { IfOk result (IsValid system.now) }
    ensures optimal { IfOk result (IsOptimal system.now) }
    ensures earliest { IfOk result (HasEarliest system.now) }
    ensures simple { IfOk result (HasSimple system.now) }
    ensures begins { IfOk result (HasBeginning system.now) }
    ensures bounded { IfOk result (CertifiesNeverOnlyWithBounds system.now.flat) }
    ensures in_range { IfOk result IsCertificateInRange }
    ensures short { IfOk result (λ certificate. length (chain_of certificate) ≤ element_count system.now.flat + 17) }
    ensures cost { steps.new ≤ steps.old + most_tests (node_count system.now.flat) * (node_count system.now.flat + 1) }
{
    let mut bench = Bench::reserve(alloc, system)?;
    let outcome = bench.solve(steps);
    certificate(alloc, system, bench.links(), bench.room(), outcome)
}
