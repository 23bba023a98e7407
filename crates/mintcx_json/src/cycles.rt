//! The object of what there is at a cycle time.
ghost use Rattle.std.specs.Prelude.{◌≡◌, ◌++◌, [], All, IfOk, List, OnOk};
ghost use Rattle.json.specs.Tree.{json_tokens};
ghost use Rattle.mintc_certificate.specs.Ranges.{IsChainInRange};
ghost use Rattle.mintc_certificate.specs.Valid.{IsMember};
ghost use Rattle.mintcx_chain.specs.Rows.{IsClocked};
ghost use Rattle.mintcx_chain.specs.declared.stages.Stage.{Stage as StageOf};
ghost use Rattle.mintcx_cycles.specs.AtCycles.{IsAtCycle, IsSayable};
ghost use Rattle.mintcx_optima.specs.Least.{IsRing};
ghost use Rattle.mintcx_optima.specs.Optimum.{AreStages};
ghost use Rattle.mintcx_json.specs.Cycles.{IsCycleObject, right_value, short_value};
ghost use Rattle.mintcx_json.specs.Objects.{IsTextOf};

use crate::chains::put_forbidding;
use crate::clocks::put_clock;
use crate::fields::{put_count, put_head, put_whole};
use crate::sheet::Sheet;
use mintc_certificate::Member;
use mintc_text::{Bytes, OutOfMemory};
use mintc_timing::{Flat, Schedule, System};
use mintcx_chain::Stage;
use mintcx_cycles::AtCycle;
use mintcx_frame::View;
use mintcx_optima::chain_of;
use std::alloc::Global;

/// Writes the object of a right schedule.
fn put_right(
    sheet: &mut Sheet,
    alloc: Global,
    flat: &Flat,
    schedule: &Schedule,
    departures: &[i64],
    subject: &[u8],
) -> Result<(), OutOfMemory>
    requires { IsClocked flat.now schedule.now departures.now }
    ensures { OnOk result (sheet.new
        ≡ sheet.old ++ json_tokens (right_value flat.now schedule.now departures.now subject.now)) }
{
    sheet.open()?;
    put_head(sheet, alloc, "optimise", 0, "right", subject)?;
    put_clock(sheet, alloc, flat, schedule, departures)?;
    sheet.close()
}

/// Writes the object of a chain that forbids a cycle time in femtoseconds.
fn put_short(
    sheet: &mut Sheet,
    alloc: Global,
    flat: &Flat,
    cycle: u32,
    stages: &[Stage],
    subject: &[u8],
) -> Result<(), OutOfMemory>
    requires { IsRing flat.now stages.now }
    ensures { OnOk result (sheet.new
        ≡ sheet.old ++ json_tokens (short_value flat.now cycle stages.now subject.now)) }
{
    sheet.open()?;
    put_head(sheet, alloc, "optimise", 1, "short", subject)?;
    put_whole(sheet, "den", 1)?;
    put_count(sheet, "cycle", u64::from(cycle))?;
    put_forbidding(sheet, alloc, flat, stages)?;
    sheet.close()
}

/// The object of a right schedule.
fn right_json(
    alloc: Global,
    flat: &Flat,
    schedule: &Schedule,
    departures: &[i64],
    subject: &[u8],
) -> Result<Bytes, OutOfMemory>
    requires { IsClocked flat.now schedule.now departures.now }
    ensures { IfOk result (IsTextOf (right_value flat.now schedule.now departures.now subject.now)) }
{
    let mut sheet = Sheet::new(alloc);
    put_right(&mut sheet, alloc, flat, schedule, departures, subject)?;
    sheet.into_text()
}

/// The object of the members of a chain that forbids a cycle time in femtoseconds.
fn short_json(
    alloc: Global,
    system: &System,
    cycle: u32,
    members: &[Member],
    subject: &[u8],
) -> Result<Bytes, OutOfMemory>
    requires chain { IsChainInRange members.now }
    requires members { All (IsMember system.now) members.now }
    ensures { IfOk result (λ text. (stages : List StageOf) × AreStages system.now.flat [] members.now stages
        × IsTextOf (short_value system.now.flat cycle stages subject.now) text) }
{
    let stages = chain_of(alloc, system, &[], members)?;
    let mut sheet = Sheet::new(alloc);
    put_short(
        &mut sheet,
        alloc,
        system.flat(),
        cycle,
        stages.items(),
        subject,
    )?;
    sheet.into_text()
}

/// The object of what there is at a cycle time in femtoseconds: its earliest right schedule with its departures, or the
/// chain that forbids it, from its beginning. Times are femtoseconds times `den`.
pub fn cycle_json(
    alloc: Global,
    system: &System,
    cycle: u32,
    found: &AtCycle,
    view: &View,
) -> Result<Bytes, OutOfMemory>
    requires found { IsAtCycle system.now cycle found.now }
    requires sayable { IsSayable found.now }
    ensures { IfOk result (IsCycleObject system.now.flat cycle found.now view.now.subject) }
{
    let subject = view.subject.bytes();
    match found {
        AtCycle::Right {
            schedule,
            departures,
        } => right_json(alloc, system.flat(), schedule, departures.items(), subject),
        AtCycle::Short { chain } => short_json(alloc, system, cycle, chain.items(), subject),
    }
}
