//! The object of an optimum.
ghost use Rattle.std.specs.Prelude.{◌≡◌, ◌++◌, All, IfOk, OnOk};
ghost use Rattle.json.specs.Tree.{json_tokens};
ghost use Rattle.mintc_certificate.specs.Ranges.{IsCertificateInRange, IsChainInRange};
ghost use Rattle.mintc_certificate.specs.Valid.{IsMember, IsValid};
ghost use Rattle.mintcx_chain.specs.Rows.{IsClocked};
ghost use Rattle.mintcx_optima.specs.Least.{IsRing};
ghost use Rattle.mintcx_json.specs.Optimum.{IsLeastObject, IsNeverObject, IsOptimumObject, least_value, never_value};

use crate::chains::{put_deciding, put_forbidding};
use crate::clocks::put_clock;
use crate::fields::{Heading, put_head, put_whole};
use crate::sheet::Sheet;
use mintc_certificate::{Certificate, Member};
use mintc_text::{Bytes, OutOfMemory};
use mintc_timing::{Flat, Schedule, System};
use mintcx_chain::Stage;
use mintcx_optima::chain_of;
use std::alloc::Global;

/// A schedule with its departures, and the chain that decides its cycle time.
#[derive(Clone, Copy)]
pub(crate) struct Decided<'a> {
    pub(crate) schedule: &'a Schedule,
    pub(crate) departures: &'a [i64],
    pub(crate) stages: &'a [Stage],
}

/// Writes the object of a least cycle time.
fn put_least(
    sheet: &mut Sheet,
    alloc: Global,
    heading: &Heading<'_>,
    flat: &Flat,
    decided: &Decided<'_>,
) -> Result<(), OutOfMemory>
    requires clocked { IsClocked flat.now decided.now.schedule.now decided.now.departures.now }
    requires ring { IsRing flat.now decided.now.stages.now }
    ensures { OnOk result (sheet.new ≡ sheet.old ++ json_tokens (least_value heading.now.command.now flat.now
        decided.now.schedule.now decided.now.departures.now decided.now.stages.now heading.now.subject.now)) }
{
    sheet.open()?;
    put_head(sheet, alloc, heading.command, 0, "least", heading.subject)?;
    put_clock(sheet, alloc, flat, decided.schedule, decided.departures)?;
    put_deciding(sheet, alloc, flat, decided.schedule, decided.stages)?;
    sheet.close()
}

/// Writes the object of a chain that forbids every cycle time.
pub(crate) fn put_never(
    sheet: &mut Sheet,
    alloc: Global,
    heading: &Heading<'_>,
    flat: &Flat,
    stages: &[Stage],
) -> Result<(), OutOfMemory>
    requires { IsRing flat.now stages.now }
    ensures { OnOk result (sheet.new ≡ sheet.old
        ++ json_tokens (never_value heading.now.command.now flat.now stages.now heading.now.subject.now)) }
{
    sheet.open()?;
    put_head(sheet, alloc, heading.command, 1, "never", heading.subject)?;
    put_whole(sheet, "den", 1)?;
    put_forbidding(sheet, alloc, flat, stages)?;
    sheet.close()
}

/// The object of a least cycle time, which the members of a chain decide.
fn least_json(
    alloc: Global,
    heading: &Heading<'_>,
    system: &System,
    schedule: &Schedule,
    departures: &[i64],
    members: &[Member],
) -> Result<Bytes, OutOfMemory>
    requires clocked { IsClocked system.now.flat schedule.now departures.now }
    requires chain { IsChainInRange members.now }
    requires members { All (IsMember system.now) members.now }
    ensures { IfOk result (IsLeastObject heading.now.command.now system.now.flat schedule.now departures.now
        members.now heading.now.subject.now) }
{
    let stages = chain_of(alloc, system, departures, members)?;
    let decided = Decided {
        schedule,
        departures,
        stages: stages.items(),
    };
    let mut sheet = Sheet::new(alloc);
    put_least(&mut sheet, alloc, heading, system.flat(), &decided)?;
    sheet.into_text()
}

/// The object of the members of a chain that forbids every cycle time.
fn never_json(
    alloc: Global,
    heading: &Heading<'_>,
    system: &System,
    members: &[Member],
) -> Result<Bytes, OutOfMemory>
    requires chain { IsChainInRange members.now }
    requires members { All (IsMember system.now) members.now }
    ensures { IfOk result
        (IsNeverObject heading.now.command.now system.now.flat members.now heading.now.subject.now) }
{
    let stages = chain_of(alloc, system, &[], members)?;
    let mut sheet = Sheet::new(alloc);
    put_never(&mut sheet, alloc, heading, system.flat(), stages.items())?;
    sheet.into_text()
}

/// The object of the optimum of a design, as a command answers it; the heading has the command and what the design is
/// called. It is the least cycle time with its schedule and the chain that decides it, from its beginning, or the chain
/// that forbids every cycle time, all of it. Times are femtoseconds times `den`.
pub fn optimum_json(
    alloc: Global,
    heading: &Heading<'_>,
    system: &System,
    certificate: &Certificate,
) -> Result<Bytes, OutOfMemory>
    requires valid { IsValid system.now certificate.now }
    requires in_range { IsCertificateInRange certificate.now }
    ensures { IfOk result (IsOptimumObject heading.now.command.now system.now.flat certificate.now
        heading.now.subject.now) }
{
    match certificate {
        Certificate::Least {
            schedule,
            departures,
            chain,
        } => least_json(
            alloc,
            heading,
            system,
            schedule,
            departures.items(),
            chain.items(),
        ),
        Certificate::Never { chain } => never_json(alloc, heading, system, chain.items()),
    }
}
