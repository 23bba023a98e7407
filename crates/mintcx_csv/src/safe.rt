//! The table of the chain of a safe certificate.
ghost use Rattle.std.specs.Prelude.{All, IfOk};
ghost use Rattle.mintc_safe.specs.SafeOptimum.{IsSafeChainInRange, IsSafeInRange, IsSafeMember, IsSafeValid};
ghost use Rattle.mintcx_chain.specs.Rows.{IsClocked};
ghost use Rattle.mintcx_csv.specs.Safe.{IsSafeLeastTable, IsSafeNeverTable, IsSafeTable};

use crate::chains::{chain_csv, hops_csv};
use mintc_safe::{SafeCertificate, SafeMember};
use mintc_text::{Bytes, OutOfMemory};
use mintc_timing::{Schedule, System};
use mintcx_optima::safe_chain_of;
use std::alloc::Global;

/// The table of the members of a chain that decides the least cycle of a schedule that keeps each hold.
fn least_csv(
    alloc: Global,
    system: &System,
    schedule: &Schedule,
    departures: &[i64],
    members: &[SafeMember],
) -> Result<Bytes, OutOfMemory>
    requires clocked { IsClocked system.now.flat schedule.now departures.now }
    requires chain { IsSafeChainInRange members.now }
    requires members { All (IsSafeMember system.now) members.now }
    ensures { IfOk result (IsSafeLeastTable system.now.flat schedule.now departures.now members.now) }
{
    let stages = safe_chain_of(alloc, system, departures, members)?;
    chain_csv(alloc, system.flat(), schedule, departures, stages.items())
}

/// The table of the members of a chain that forbids every cycle time.
fn never_csv(alloc: Global, system: &System, members: &[SafeMember]) -> Result<Bytes, OutOfMemory>
    requires chain { IsSafeChainInRange members.now }
    requires members { All (IsSafeMember system.now) members.now }
    ensures { IfOk result (IsSafeNeverTable system.now.flat members.now) }
{
    let stages = safe_chain_of(alloc, system, &[], members)?;
    hops_csv(alloc, system.flat(), stages.items())
}

/// The table of the chain of a safe certificate, from its beginning: that of `chain_csv` for the chain that decides the
/// least cycle, or that of `hops_csv` for the chain that forbids every cycle time.
pub fn safe_csv(
    alloc: Global,
    system: &System,
    certificate: &SafeCertificate,
) -> Result<Bytes, OutOfMemory>
    requires valid { IsSafeValid system.now certificate.now }
    requires in_range { IsSafeInRange certificate.now }
    ensures { IfOk result (IsSafeTable system.now.flat certificate.now) }
{
    match certificate {
        SafeCertificate::Least {
            schedule,
            departures,
            chain,
        } => least_csv(alloc, system, schedule, departures.items(), chain.items()),
        SafeCertificate::Never { chain } => never_csv(alloc, system, chain.items()),
    }
}
