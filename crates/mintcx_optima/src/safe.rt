//! The text of a safe certificate.
ghost use Rattle.std.specs.Prelude.{◌≡◌, ◌++◌, codes, All, IfOk, OnOk};
ghost use Rattle.mintc_fraction.specs.Ratio.{IsModest};
ghost use Rattle.mintc_safe.specs.SafeOptimum.{IsSafeChainInRange, IsSafeInRange, IsSafeMember, IsSafeValid};
ghost use Rattle.mintcx_chain.specs.Rows.{IsClocked};
ghost use Rattle.mintcx_optima.specs.Least.{cycle_text, unit_of as unit_of_schedule, IsRing};
ghost use Rattle.mintcx_optima.specs.Safe.{AreSafeStages, IsSafeNeverOf, IsSafeText, without_text};

use crate::holds::safe_stages;
use crate::least::{Decided, Opening, put_least, unit_of};
use crate::never::put_never;
use mintc_fraction::Fraction;
use mintc_safe::{SafeCertificate, SafeMember};
use mintc_text::{Bytes, Lines, OutOfMemory};
use mintc_timing::{Flat, System};
use mintcx_amounts::Unit;
use mintcx_chain::{Stages, turned};
use mintcx_frame::{View, put_time};
use std::alloc::Global;

/// The stages of the members of a chain, from its beginning by departures.
pub fn safe_chain_of(
    alloc: Global,
    system: &System,
    departures: &[i64],
    members: &[SafeMember],
) -> Result<Stages, OutOfMemory>
    requires chain { IsSafeChainInRange members.now }
    requires members { All (IsSafeMember system.now) members.now }
    ensures stages { IfOk result (AreSafeStages system.now.flat departures.now members.now) }
    ensures ring { IfOk result (IsRing system.now.flat) }
{
    let stages = safe_stages(alloc, system, members)?;
    Ok(turned(system.flat(), departures, stages))
}

/// Writes what is kept, and which cycle time would do without holds.
fn put_without(lines: &mut Lines, without: &Fraction, unit: Unit) -> Result<(), OutOfMemory>
    requires { IsModest without.now }
    ensures { OnOk result (lines.new ≡ lines.old ++ without_text without.now unit) }
{
    lines.put(b"keeping each hold, with each output as early as it can be; without holds ")?;
    put_time(lines, without, unit)?;
    lines.put(b" would do\n")
}

/// Writes the text of the least cycle time that keeps each hold, and beside it that of the one without holds.
fn put_safe(
    lines: &mut Lines,
    alloc: Global,
    flat: &Flat,
    decided: &Decided,
    without: &Fraction,
    view: &View,
) -> Result<(), OutOfMemory>
    requires clocked { IsClocked flat.now decided.now.schedule.now decided.now.departures.now }
    requires ring { IsRing flat.now decided.now.stages.now }
    requires without { IsModest without.now }
    ensures { OnOk result (lines.new ≡ lines.old ++ cycle_text (codes "safe")
        (without_text without.now (unit_of_schedule decided.now.schedule.now view.now)) flat.now
        decided.now.schedule.now decided.now.departures.now decided.now.stages.now view.now) }
{
    let mut second = Lines::new(alloc);
    put_without(&mut second, without, unit_of(decided.schedule, view))?;
    let second = second.into_bytes();
    let opening = Opening {
        verdict: b"safe",
        second: &second,
    };
    put_least(lines, alloc, flat, decided, &opening, view)
}

/// The text where the members of a chain forbid every cycle time.
fn safe_never_of(
    alloc: Global,
    system: &System,
    members: &[SafeMember],
    view: &View,
) -> Result<Bytes, OutOfMemory>
    requires chain { IsSafeChainInRange members.now }
    requires members { All (IsSafeMember system.now) members.now }
    ensures { IfOk result (IsSafeNeverOf system.now.flat members.now view.now) }
{
    let stages = safe_chain_of(alloc, system, &[], members)?;
    let mut lines = Lines::new(alloc);
    put_never(
        &mut lines,
        alloc,
        system.flat(),
        stages.items(),
        b"no schedule keeps each hold",
        view,
    )?;
    Ok(Bytes::new(lines.into_bytes()))
}

/// The text of a safe certificate for people: the least cycle time that keeps each hold, with the phases of its
/// schedule and the chain that forbids every smaller one, or the chain that forbids every cycle time. The least cycle
/// time without holds is told beside it.
pub fn safe_text(
    alloc: Global,
    system: &System,
    certificate: &SafeCertificate,
    without: &Fraction,
    view: &View,
) -> Result<Bytes, OutOfMemory>
    requires valid { IsSafeValid system.now certificate.now }
    requires in_range { IsSafeInRange certificate.now }
    requires without { IsModest without.now }
    ensures { IfOk result (IsSafeText system.now.flat certificate.now without.now view.now) }
{
    match certificate {
        SafeCertificate::Least {
            schedule,
            departures,
            chain,
        } => {
            let departures = departures.items();
            let stages = safe_chain_of(alloc, system, departures, chain.items())?;
            let decided = Decided {
                schedule,
                departures,
                stages: stages.items(),
            };
            let mut lines = Lines::new(alloc);
            put_safe(&mut lines, alloc, system.flat(), &decided, without, view)?;
            Ok(Bytes::new(lines.into_bytes()))
        }
        SafeCertificate::Never { chain } => safe_never_of(alloc, system, chain.items(), view),
    }
}
