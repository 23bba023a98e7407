//! The text of a least cycle.
ghost use Rattle.std.specs.Prelude.{◌≡◌, ◌++◌, OnOk};
ghost use Rattle.mintc_fraction.specs.Ratio.{IsModest};
ghost use Rattle.mintc_timing.specs.Limits.{IsInRange};
ghost use Rattle.mintcx_chain.specs.Rows.{IsClocked};
ghost use Rattle.mintcx_optima.specs.Least.{cycle_of, cycle_text, deciding_text, unit_of, IsRing};

use crate::counts::put_decided;
use crate::tables::{Scale, put_chain};
use mintc_fraction::Fraction;
use mintc_text::{Lines, OutOfMemory};
use mintc_timing::{Flat, Schedule};
use mintcx_amounts::Unit;
use mintcx_chain::{Stage, rows_of, sums_of};
use mintcx_frame::{View, put_foot, put_head, put_phases};
use std::alloc::Global;

/// A schedule with its departures, and the stages of the chain that forbids every smaller cycle time.
#[derive(Clone, Copy)]
pub(crate) struct Decided<'a> {
    pub(crate) schedule: &'a Schedule,
    pub(crate) departures: &'a [i64],
    pub(crate) stages: &'a [Stage],
}

/// How a text begins: the word of its verdict, and what stands below its first line.
#[derive(Clone, Copy)]
pub(crate) struct Opening<'a> {
    pub(crate) verdict: &'a [u8],
    pub(crate) second: &'a [u8],
}

/// The cycle time of a schedule, in femtoseconds.
pub fn cycle_of(schedule: &Schedule) -> Fraction
    requires { IsInRange schedule.now }
    ensures value { result ≡ cycle_of schedule.now }
    ensures modest { IsModest result }
{
    Fraction::new(i128::from(schedule.cycle), i128::from(schedule.den))
}

/// The unit of the times of an answer with a schedule.
pub fn unit_of(schedule: &Schedule, view: &View) -> Unit
    requires { IsInRange schedule.now }
    ensures { result ≡ unit_of schedule.now view.now }
{
    view.unit_for(&cycle_of(schedule))
}

/// Writes the chain that decides: its sums, and its rows by a schedule with its departures.
fn put_deciding(
    lines: &mut Lines,
    alloc: Global,
    flat: &Flat,
    decided: &Decided,
    view: &View,
) -> Result<(), OutOfMemory>
    requires clocked { IsClocked flat.now decided.now.schedule.now decided.now.departures.now }
    requires ring { IsRing flat.now decided.now.stages.now }
    ensures { OnOk result (lines.new ≡ lines.old ++ deciding_text flat.now decided.now.schedule.now
        decided.now.departures.now decided.now.stages.now view.now) }
{
    let schedule = decided.schedule;
    let stages = decided.stages;
    let scale = Scale {
        den: schedule.den,
        unit: unit_of(schedule, view),
        limit: view.limit,
    };
    put_decided(lines, stages.len() as u64, &sums_of(stages), scale.unit)?;
    lines.put(b"\n")?;
    let rows = rows_of(alloc, flat, schedule, decided.departures, stages)?;
    put_chain(lines, alloc, flat, scale, stages, rows.items())
}

/// Writes the text of a least cycle: its head, the phases of its schedule, and the chain that decides.
pub(crate) fn put_least(
    lines: &mut Lines,
    alloc: Global,
    flat: &Flat,
    decided: &Decided,
    opening: &Opening,
    view: &View,
) -> Result<(), OutOfMemory>
    requires clocked { IsClocked flat.now decided.now.schedule.now decided.now.departures.now }
    requires ring { IsRing flat.now decided.now.stages.now }
    ensures { OnOk result (lines.new ≡ lines.old ++ cycle_text opening.now.verdict.now opening.now.second.now flat.now
        decided.now.schedule.now decided.now.departures.now decided.now.stages.now view.now) }
{
    let unit = unit_of(decided.schedule, view);
    put_head(lines, opening.verdict, &cycle_of(decided.schedule), view)?;
    lines.put(opening.second)?;
    lines.put(b"\n")?;
    put_phases(lines, alloc, flat, decided.schedule, unit)?;
    lines.put(b"\n")?;
    put_deciding(lines, alloc, flat, decided, view)?;
    lines.put(b"\n")?;
    put_foot(lines, unit, b"")
}
