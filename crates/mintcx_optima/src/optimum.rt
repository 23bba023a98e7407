//! The text of an optimum.
ghost use Rattle.std.specs.Prelude.{◌≡◌, All, IfOk};
ghost use Rattle.mintc_certificate.specs.Ranges.{IsCertificateInRange, IsChainInRange};
ghost use Rattle.mintc_certificate.specs.Valid.{IsMember, IsValid};
ghost use Rattle.mintcx_chain.specs.Rows.{IsClocked};
ghost use Rattle.mintcx_optima.specs.Least.{IsRing};
ghost use Rattle.mintcx_optima.specs.Optimum.{AreStages, IsLeastOf, IsNeverOf, IsOptimumText};

use crate::least::{Decided, Opening, put_least};
use crate::never::put_never;
use mintc_certificate::{Certificate, Member};
use mintc_text::{Bytes, Lines, OutOfMemory};
use mintc_timing::{Schedule, System};
use mintcx_chain::{Stages, stages_of, turned};
use mintcx_frame::View;
use std::alloc::Global;

/// The stages of the members of a chain, from its beginning by departures.
pub fn chain_of(
    alloc: Global,
    system: &System,
    departures: &[i64],
    members: &[Member],
) -> Result<Stages, OutOfMemory>
    requires chain { IsChainInRange members.now }
    requires members { All (IsMember system.now) members.now }
    ensures stages { IfOk result (AreStages system.now.flat departures.now members.now) }
    ensures ring { IfOk result (IsRing system.now.flat) }
{
    let stages = stages_of(alloc, system, members)?;
    Ok(turned(system.flat(), departures, stages))
}

/// The text of the least cycle time of a schedule, which the members of a chain decide.
fn least_of(
    alloc: Global,
    system: &System,
    schedule: &Schedule,
    departures: &[i64],
    members: &[Member],
    view: &View,
) -> Result<Bytes, OutOfMemory>
    requires clocked { IsClocked system.now.flat schedule.now departures.now }
    requires chain { IsChainInRange members.now }
    requires members { All (IsMember system.now) members.now }
    ensures { IfOk result (IsLeastOf system.now.flat schedule.now departures.now members.now view.now) }
{
    let stages = chain_of(alloc, system, departures, members)?;
    let decided = Decided {
        schedule,
        departures,
        stages: stages.items(),
    };
    let opening = Opening {
        verdict: b"least",
        second: b"",
    };
    let mut lines = Lines::new(alloc);
    put_least(&mut lines, alloc, system.flat(), &decided, &opening, view)?;
    Ok(Bytes::new(lines.into_bytes()))
}

/// The text where the members of a chain forbid every cycle time.
pub fn never_of(
    alloc: Global,
    system: &System,
    members: &[Member],
    view: &View,
) -> Result<Bytes, OutOfMemory>
    requires chain { IsChainInRange members.now }
    requires members { All (IsMember system.now) members.now }
    ensures { IfOk result (IsNeverOf system.now.flat members.now view.now) }
{
    let stages = chain_of(alloc, system, &[], members)?;
    let mut lines = Lines::new(alloc);
    put_never(
        &mut lines,
        alloc,
        system.flat(),
        stages.items(),
        b"no schedule is right",
        view,
    )?;
    Ok(Bytes::new(lines.into_bytes()))
}

/// The text of a certificate for people: the least cycle time with the phases of its schedule and the chain that
/// forbids every smaller one, or the chain that forbids every cycle time.
pub fn optimum_text(
    alloc: Global,
    system: &System,
    certificate: &Certificate,
    view: &View,
) -> Result<Bytes, OutOfMemory>
    requires valid { IsValid system.now certificate.now }
    requires in_range { IsCertificateInRange certificate.now }
    ensures { IfOk result (IsOptimumText system.now.flat certificate.now view.now) }
{
    match certificate {
        Certificate::Least {
            schedule,
            departures,
            chain,
        } => least_of(
            alloc,
            system,
            schedule,
            departures.items(),
            chain.items(),
            view,
        ),
        Certificate::Never { chain } => never_of(alloc, system, chain.items(), view),
    }
}
