//! The object of an optimum that keeps each hold.
ghost use Rattle.std.specs.Prelude.{◌≡◌, ◌++◌, ◌∷◌, [], codes, All, IfOk, OnOk};
ghost use Rattle.json.specs.Tree.{json_tokens};
ghost use Rattle.mintc_safe.specs.SafeOptimum.{IsSafeChainInRange, IsSafeInRange, IsSafeMember, IsSafeValid};
ghost use Rattle.mintcx_chain.specs.Rows.{IsClocked};
ghost use Rattle.mintcx_optima.specs.Least.{IsRing};
ghost use Rattle.mintcx_json.specs.Objects.{object_of};
ghost use Rattle.mintcx_json.specs.Pieces.{fields_tokens};
ghost use Rattle.mintcx_json.specs.Safe.{IsSafeLeastObject, IsSafeNeverObject, IsSafeObject, safe_value};
ghost use Rattle.mintcx_json.specs.Slacks.{time_fields};

use crate::chains::put_deciding;
use crate::clocks::put_clock;
use crate::fields::{Heading, put_head};
use crate::optimum::{Decided, put_never};
use crate::sheet::Sheet;
use crate::slacks::put_time;
use mintc_fraction::Fraction;
use mintc_safe::{SafeCertificate, SafeMember};
use mintc_text::{Bytes, OutOfMemory};
use mintc_timing::{Flat, Schedule, System};
use mintcx_frame::View;
use mintcx_optima::safe_chain_of;
use std::alloc::Global;

/// Writes the member that has the cycle time without holds.
fn put_without(sheet: &mut Sheet, without: &Fraction) -> Result<(), OutOfMemory>
    ensures { OnOk result (sheet.new
        ≡ sheet.old ++ fields_tokens ((codes "without", object_of (time_fields without.now)) ∷ [])) }
{
    sheet.key("without")?;
    sheet.open()?;
    put_time(sheet, without)?;
    sheet.close()
}

/// Writes the object of a least cycle time that keeps each hold.
fn put_safe(
    sheet: &mut Sheet,
    alloc: Global,
    flat: &Flat,
    decided: &Decided<'_>,
    without: &Fraction,
    subject: &[u8],
) -> Result<(), OutOfMemory>
    requires clocked { IsClocked flat.now decided.now.schedule.now decided.now.departures.now }
    requires ring { IsRing flat.now decided.now.stages.now }
    ensures { OnOk result (sheet.new ≡ sheet.old ++ json_tokens (safe_value flat.now decided.now.schedule.now
        decided.now.departures.now decided.now.stages.now without.now subject.now)) }
{
    sheet.open()?;
    put_head(sheet, alloc, "safe", 0, "safe", subject)?;
    put_clock(sheet, alloc, flat, decided.schedule, decided.departures)?;
    put_deciding(sheet, alloc, flat, decided.schedule, decided.stages)?;
    put_without(sheet, without)?;
    sheet.close()
}

/// A schedule with its departures, and the members of the chain that decides its cycle time.
#[derive(Clone, Copy)]
struct Kept<'a> {
    schedule: &'a Schedule,
    departures: &'a [i64],
    members: &'a [SafeMember],
}

/// The object of a least cycle time that keeps each hold, which the members of a chain decide.
fn least_json(
    alloc: Global,
    system: &System,
    kept: &Kept<'_>,
    without: &Fraction,
    subject: &[u8],
) -> Result<Bytes, OutOfMemory>
    requires clocked { IsClocked system.now.flat kept.now.schedule.now kept.now.departures.now }
    requires chain { IsSafeChainInRange kept.now.members.now }
    requires members { All (IsSafeMember system.now) kept.now.members.now }
    ensures { IfOk result (IsSafeLeastObject system.now.flat kept.now.schedule.now kept.now.departures.now
        kept.now.members.now without.now subject.now) }
{
    let stages = safe_chain_of(alloc, system, kept.departures, kept.members)?;
    let decided = Decided {
        schedule: kept.schedule,
        departures: kept.departures,
        stages: stages.items(),
    };
    let mut sheet = Sheet::new(alloc);
    put_safe(&mut sheet, alloc, system.flat(), &decided, without, subject)?;
    sheet.into_text()
}

/// The object of the members of a chain that forbids every cycle time.
fn never_json(
    alloc: Global,
    system: &System,
    members: &[SafeMember],
    subject: &[u8],
) -> Result<Bytes, OutOfMemory>
    requires chain { IsSafeChainInRange members.now }
    requires members { All (IsSafeMember system.now) members.now }
    ensures { IfOk result (IsSafeNeverObject system.now.flat members.now subject.now) }
{
    let stages = safe_chain_of(alloc, system, &[], members)?;
    let heading = Heading {
        command: "safe",
        subject,
    };
    let mut sheet = Sheet::new(alloc);
    put_never(&mut sheet, alloc, &heading, system.flat(), stages.items())?;
    sheet.into_text()
}

/// The object of a safe certificate: the least cycle time that keeps each hold with its schedule, the chain that
/// decides it, from its beginning, and the least cycle time without holds; or the chain that forbids every cycle time.
/// Times are femtoseconds times `den`, of which the one without holds has its own.
pub fn safe_json(
    alloc: Global,
    system: &System,
    certificate: &SafeCertificate,
    without: &Fraction,
    view: &View,
) -> Result<Bytes, OutOfMemory>
    requires valid { IsSafeValid system.now certificate.now }
    requires in_range { IsSafeInRange certificate.now }
    ensures { IfOk result (IsSafeObject system.now.flat certificate.now without.now view.now.subject) }
{
    let subject = view.subject.bytes();
    match certificate {
        SafeCertificate::Least {
            schedule,
            departures,
            chain,
        } => {
            let kept = Kept {
                schedule,
                departures: departures.items(),
                members: chain.items(),
            };
            least_json(alloc, system, &kept, without, subject)
        }
        SafeCertificate::Never { chain } => never_json(alloc, system, chain.items(), subject),
    }
}
