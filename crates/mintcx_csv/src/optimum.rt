//! The table of the chain of a certificate.
ghost use Rattle.std.specs.Prelude.{All, IfOk};
ghost use Rattle.mintc_certificate.specs.Ranges.{IsCertificateInRange, IsChainInRange};
ghost use Rattle.mintc_certificate.specs.Valid.{IsMember, IsValid};
ghost use Rattle.mintcx_chain.specs.Rows.{IsClocked};
ghost use Rattle.mintcx_csv.specs.Chains.{IsLeastTable, IsNeverTable, IsOptimumTable};

use crate::chains::{chain_csv, hops_csv};
use mintc_certificate::{Certificate, Member};
use mintc_text::{Bytes, OutOfMemory};
use mintc_timing::{Schedule, System};
use mintcx_optima::chain_of;
use std::alloc::Global;

/// The table of the members of a chain that decides the least cycle of a schedule.
fn least_csv(
    alloc: Global,
    system: &System,
    schedule: &Schedule,
    departures: &[i64],
    members: &[Member],
) -> Result<Bytes, OutOfMemory>
    requires clocked { IsClocked system.now.flat schedule.now departures.now }
    requires chain { IsChainInRange members.now }
    requires members { All (IsMember system.now) members.now }
    ensures { IfOk result (IsLeastTable system.now.flat schedule.now departures.now members.now) }
{
    let stages = chain_of(alloc, system, departures, members)?;
    chain_csv(alloc, system.flat(), schedule, departures, stages.items())
}

/// The table of the members of a chain that forbids every cycle time.
pub(crate) fn never_csv(
    alloc: Global,
    system: &System,
    members: &[Member],
) -> Result<Bytes, OutOfMemory>
    requires chain { IsChainInRange members.now }
    requires members { All (IsMember system.now) members.now }
    ensures { IfOk result (IsNeverTable system.now.flat members.now) }
{
    let stages = chain_of(alloc, system, &[], members)?;
    hops_csv(alloc, system.flat(), stages.items())
}

/// The table of the chain of a certificate, from its beginning: that of `chain_csv` for the chain that decides the
/// least cycle, or that of `hops_csv` for the chain that forbids every cycle time.
pub fn optimum_csv(
    alloc: Global,
    system: &System,
    certificate: &Certificate,
) -> Result<Bytes, OutOfMemory>
    requires valid { IsValid system.now certificate.now }
    requires in_range { IsCertificateInRange certificate.now }
    ensures { IfOk result (IsOptimumTable system.now.flat certificate.now) }
{
    match certificate {
        Certificate::Least {
            schedule,
            departures,
            chain,
        } => least_csv(alloc, system, schedule, departures.items(), chain.items()),
        Certificate::Never { chain } => never_csv(alloc, system, chain.items()),
    }
}
