//! The rows of a chain.
ghost use Rattle.std.specs.Prelude.{◌≡◌, ◌<◌, ◌≤◌, ◌-◌, pos, ◌+ℤ◌, ◌*ℤ◌, length, All, IfOk, OnOk};
ghost use Rattle.mintc_timing.specs.Limits.{IsDenominator, IsInRange, IsNumerator};
ghost use Rattle.mintcx_chain.specs.Names.{element_of, IsShort, IsStage, IsStageDelay};
ghost use Rattle.mintcx_chain.specs.Rows.{IsChainTime};
ghost use Rattle.mintcx_chart.specs.Ranges.{IsDrawnTime, IsHeight, IsLaps};
ghost use Rattle.mintcx_chart.specs.Sheets.{IsLane};
ghost use Rattle.mintcx_chart.specs.Stretches.{lane_times};
ghost use Rattle.mintcx_draw.specs.Lanes.{AreAll, AreFirst, HasOneMore, IsHolder, IsSoon, IsStaged, again_times};
ghost use Rattle.mintcx_draw.specs.Lanes.{facts_at, lane_facts, stage_facts, stage_times, times_at};
ghost use Rattle.mintcx_draw.specs.Parts.{IsCounted};

use crate::notes::{again_note, note_of};
use crate::parts::parts_of;
use mintc_text::{Items, OutOfMemory};
use mintcx_chain::{Row, Stage, Sums, element_of_stage, stage_from};
use mintcx_chart::{Holder, Lane, Sheet, Told, clock_holder, element_holder, height_of, span_time};
use std::alloc::Global;

/// How many stages of a chain are drawn.
pub(crate) const SHOWN: usize = 24;

/// A chain as it is drawn: its sheet, how many stages it has, their sums, whether all are shown, and how many rows have
/// bars.
#[derive(Clone, Copy)]
pub(crate) struct Chain<'a> {
    pub(crate) sheet: Sheet<'a>,
    pub(crate) members: usize,
    pub(crate) sums: Sums,
    pub(crate) whole: bool,
    pub(crate) bars: usize,
}

/// What a row needs of the element that a stage begins at, if it begins at one.
fn holder_of(told: &Told, stage: &Stage) -> Holder
    requires in_range { IsInRange told.now.schedule.now }
    requires stage { IsStage told.now.flat.now stage.now }
    ensures of { IsHolder told.now.flat.now told.now.schedule.now (element_of stage.now.why) result }
    ensures start { IsNumerator result.start }
    ensures width { IsNumerator result.width }
    ensures setup { IsStageDelay result.setup }
{
    match element_of_stage(stage) {
        Some(number) => element_holder(told, number),
        None => clock_holder(),
    }
}

/// The lap in which a row is, counted from 0.
fn lap_of(row: &Row) -> i64
    requires { IsSoon row.now }
    ensures value { result ≡ pos (row.now.cycle - 1) }
    ensures range { IsLaps result }
{
    row.cycle.saturating_sub(1) as i64
}

/// When a stage ends that begins at a time.
fn ends_of(at: i128, delay: i64, den: i64) -> i128
    requires at { IsChainTime at }
    requires delay { IsStageDelay delay }
    requires den { IsDenominator den }
    ensures value { result ≡ at +ℤ delay *ℤ den }
    ensures range { IsDrawnTime result }
{
    at + i128::from(span_time(delay, den))
}

/// The row of a stage.
fn lane_of(
    alloc: Global,
    told: &Told,
    stage: &Stage,
    row: &Row,
    top: u32,
) -> Result<Lane, OutOfMemory>
    requires in_range { IsInRange told.now.schedule.now }
    requires stage { IsStage told.now.flat.now stage.now }
    requires short { IsShort stage.now }
    requires counted { IsCounted stage.now }
    requires time { IsChainTime row.now.at }
    requires few { IsSoon row.now }
    requires top { IsHeight top }
    ensures lane { IfOk result IsLane }
    ensures facts { IfOk result (λ lane. lane_facts lane
        ≡ stage_facts told.now.flat.now told.now.schedule.now.den stage.now row.now) }
    ensures times { IfOk result (λ lane. lane_times told.now.schedule.now.cycle lane
        ≡ stage_times told.now.flat.now told.now.schedule.now stage.now row.now) }
{
    let holder = holder_of(told, stage);
    let name = stage_from(alloc, told.flat, stage)?;
    let note = note_of(alloc, told, stage, holder.kind, row.borrows)?;
    let parts = parts_of(alloc, told, stage, name.bytes(), row.at)?;
    Ok(Lane {
        kind: holder.kind,
        name,
        note,
        start: holder.start,
        width: holder.width,
        setup: holder.setup,
        borrowed: row.borrows,
        at: row.at,
        lap: lap_of(row),
        delay: stage.delay,
        ends: ends_of(row.at, stage.delay, told.schedule.den),
        parts,
        top,
    })
}

/// The row of a stage again, some cycles on, with what its latch borrows.
fn again_of(
    alloc: Global,
    told: &Told,
    stage: &Stage,
    row: &Row,
    borrowed: i64,
    top: u32,
) -> Result<Lane, OutOfMemory>
    requires in_range { IsInRange told.now.schedule.now }
    requires stage { IsStage told.now.flat.now stage.now }
    requires time { IsChainTime row.now.at }
    requires few { IsSoon row.now }
    requires top { IsHeight top }
    ensures lane { IfOk result IsLane }
    ensures times { IfOk result (λ lane. lane_times told.now.schedule.now.cycle lane
        ≡ stage_times told.now.flat.now told.now.schedule.now stage.now row.now) }
{
    let holder = holder_of(told, stage);
    let name = stage_from(alloc, told.flat, stage)?;
    let note = again_note(alloc, row.cycle.saturating_sub(1))?;
    Ok(Lane {
        kind: holder.kind,
        name,
        note,
        start: holder.start,
        width: holder.width,
        setup: holder.setup,
        borrowed,
        at: row.at,
        lap: lap_of(row),
        delay: 0,
        ends: row.at,
        parts: Items::new(Vec::new(alloc)),
        top,
    })
}

/// The stages of a chain, and when they begin, with a last row for the first stage again.
#[derive(Clone, Copy)]
pub(crate) struct Staged<'a> {
    pub(crate) stages: &'a [Stage],
    pub(crate) rows: &'a [Row],
}

/// The rows of a chain, and how high they end, in pixels.
#[derive(Drop)]
pub(crate) struct Lanes {
    pub(crate) lanes: Vec<Lane>,
    pub(crate) below: u32,
}

/// The row of the stage of a number.
fn lane_at(
    alloc: Global,
    told: &Told,
    staged: &Staged,
    number: usize,
    top: u32,
) -> Result<Lane, OutOfMemory>
    requires in_range { IsInRange told.now.schedule.now }
    requires staged { IsStaged told.now.flat.now staged.now.stages.now staged.now.rows.now }
    requires number { number < length staged.now.stages.now }
    requires top { IsHeight top }
    ensures lane { IfOk result IsLane }
    ensures facts { IfOk result (λ lane. lane_facts lane
        ≡ facts_at told.now.flat.now told.now.schedule.now.den staged.now.stages.now staged.now.rows.now number) }
    ensures times { IfOk result (λ lane. lane_times told.now.schedule.now.cycle lane
        ≡ times_at told.now.flat.now told.now.schedule.now staged.now.stages.now staged.now.rows.now number) }
{
    lane_of(
        alloc,
        told,
        &staged.stages[number],
        &staged.rows[number],
        top,
    )
}

/// The rows of the first stages of a chain.
fn first_lanes(alloc: Global, told: &Told, staged: &Staged) -> Result<Lanes, OutOfMemory>
    requires in_range { IsInRange told.now.schedule.now }
    requires staged { IsStaged told.now.flat.now staged.now.stages.now staged.now.rows.now }
    ensures { IfOk result
        (AreFirst told.now.flat.now told.now.schedule.now staged.now.stages.now staged.now.rows.now) }
{
    let mut lanes = Vec::new(alloc);
    let mut below = 138 + 36 * told.flat.phase_count();
    for number in 0..staged.stages.len().min(SHOWN) {
        let lane = lane_at(alloc, told, staged, number, below)?;
        below += height_of(lane.kind);
        lanes.push(lane)?;
    }
    Ok(Lanes { lanes, below })
}

/// The row of the first stage again.
fn again_at(alloc: Global, told: &Told, staged: &Staged, top: u32) -> Result<Lane, OutOfMemory>
    requires in_range { IsInRange told.now.schedule.now }
    requires staged { IsStaged told.now.flat.now staged.now.stages.now staged.now.rows.now }
    requires top { IsHeight top }
    ensures lane { IfOk result IsLane }
    ensures times { IfOk result (λ lane. lane_times told.now.schedule.now.cycle lane
        ≡ again_times told.now.flat.now told.now.schedule.now staged.now.stages.now staged.now.rows.now) }
{
    let row = &staged.rows[staged.stages.len()];
    again_of(
        alloc,
        told,
        &staged.stages[0],
        row,
        staged.rows[0].borrows,
        top,
    )
}

/// Adds a row for the first stage again.
fn push_again(
    shown: &mut Lanes,
    alloc: Global,
    told: &Told,
    staged: &Staged,
) -> Result<(), OutOfMemory>
    requires in_range { IsInRange told.now.schedule.now }
    requires staged { IsStaged told.now.flat.now staged.now.stages.now staged.now.rows.now }
    requires below { shown.old.below ≤ 1818 }
    ensures { OnOk result (HasOneMore told.now.schedule.now.cycle
        (again_times told.now.flat.now told.now.schedule.now staged.now.stages.now staged.now.rows.now)
        shown.old shown.new) }
{
    let again = again_at(alloc, told, staged, shown.below)?;
    shown.below += height_of(again.kind);
    shown.lanes.push(again)?;
    Ok(())
}

/// The rows of a chain: those of its first stages, and, where these are all, one for the first stage again.
pub(crate) fn lanes_of(alloc: Global, told: &Told, staged: &Staged) -> Result<Lanes, OutOfMemory>
    requires in_range { IsInRange told.now.schedule.now }
    requires staged { IsStaged told.now.flat.now staged.now.stages.now staged.now.rows.now }
    ensures { IfOk result
        (AreAll told.now.flat.now told.now.schedule.now staged.now.stages.now staged.now.rows.now) }
{
    let mut shown = first_lanes(alloc, told, staged)?;
    if staged.stages.len() > SHOWN {
        shown.below += 24;
        return Ok(shown);
    }
    push_again(&mut shown, alloc, told, staged)?;
    Ok(shown)
}
