//! The rows of a chain: when each stage begins, in which cycle, and what its latch borrows.
ghost use Rattle.std.specs.Prelude.{◌≡◌, ◌<◌, ◌≤◌, ◌+◌, pos, negsuc, ◌+ℤ◌, ◌*ℤ◌, ◌≤ℤ◌, length, All, IfOk, IfSome};
ghost use Rattle.mintc_text.specs.declared.limits.TheConstants.{MOST_MEMBERS};
ghost use Rattle.mintc_timing.specs.Design.{element_count};
ghost use Rattle.mintcx_chain.specs.Names.{element_of, IsShort, IsStage};
ghost use Rattle.mintc_timing.specs.Limits.{IsDenominator, IsTime};
ghost use Rattle.mintcx_chain.specs.Rows.{begins_at, borrowed, is_reach, rows_of, stage_before, AreInTime, IsChainTime};
ghost use Rattle.mintcx_chain.specs.Rows.{IsClocked};

use crate::moments::{moment_of, span_of};
use crate::names::element_of_stage;
use crate::stages::{Stage, Why};
use mintc_text::{Items, OutOfMemory};
use mintc_timing::{Flat, Schedule};
use std::alloc::Global;

/// When a stage begins, a numerator over the schedule's denominator, the cycle in which it does, counted from 1, and
/// how much the latch that it begins at borrows, 0 where it borrows nothing.
#[derive(Clone, Copy, Drop)]
pub struct Row {
    pub at: i128,
    pub cycle: u64,
    pub borrows: i64,
}

/// Rows in the order of their chain, seen as their list.
pub type Rows = Items<Row>;

/// Whether data goes along a stage.
fn is_reach(stage: &Stage) -> bool
    ensures { result ≡ is_reach stage.now.why }
{
    matches!(&stage.why, Why::Reach { .. })
}

/// What the latch that a stage begins at borrows, where data comes to it by the stage before: how long after its phase
/// starts it departs.
fn borrowed(flat: &Flat, departures: &[i64], comes: bool, stage: &Stage) -> i64
    requires { IfSome (element_of stage.now.why) (λ l. l < element_count flat.now) }
    ensures { result ≡ borrowed flat.now departures.now comes stage.now.why }
{
    let Some(element) = element_of_stage(stage) else {
        return 0;
    };
    if !comes || flat.element(element).flop {
        return 0;
    }
    match departures.get(element as usize) {
        Some(departure) if *departure > 0 => *departure,
        _ => 0,
    }
}

/// What is known where a stage begins: when it does, in which cycle, and whether data comes by the stage before.
#[derive(Clone, Copy)]
pub(crate) struct Pace {
    at: i128,
    cycle: u64,
    comes: bool,
}

/// What is known where the next stage begins.
fn paced(pace: Pace, den: i64, stage: &Stage) -> Pace
    requires time { IsChainTime pace.at }
    requires few { pace.cycle ≤ 1000000 }
    requires den { IsDenominator den }
    requires short { IsShort stage.now }
    ensures at { result.at ≡ pace.at +ℤ stage.now.delay *ℤ den }
    ensures low { (pace.at +ℤ negsuc 399999999999999) ≤ℤ result.at }
    ensures high { result.at ≤ℤ (pace.at +ℤ pos 400000000000000) }
    ensures cycle { result.cycle ≡ pace.cycle + stage.now.cycles }
    ensures comes { result.comes ≡ is_reach stage.now.why }
{
    Pace {
        at: pace.at + i128::from(span_of(stage.delay, den)),
        cycle: pace.cycle + u64::from(stage.cycles),
        comes: is_reach(stage),
    }
}

/// What is known where the first stage of a chain begins.
fn first_pace(flat: &Flat, schedule: &Schedule, departures: &[i64], stages: &[Stage]) -> Pace
    requires clocked { IsClocked flat.now schedule.now departures.now }
    requires stages { All (IsStage flat.now) stages.now }
    requires some { 1 ≤ length stages.now }
    ensures at { result.at ≡ begins_at flat.now schedule.now departures.now stages.now 0 }
    ensures range { IsTime result.at }
    ensures cycle { result.cycle ≡ 1 }
    ensures comes { result.comes ≡ is_reach (stage_before stages.now 0).why }
{
    Pace {
        at: i128::from(moment_of(flat, schedule, departures, stages[0].from)),
        cycle: 1,
        comes: is_reach(&stages[stages.len() - 1]),
    }
}

/// The row of a stage.
fn row_of(flat: &Flat, departures: &[i64], pace: Pace, stage: &Stage) -> Row
    requires { IfSome (element_of stage.now.why) (λ l. l < element_count flat.now) }
    ensures { result ≡ record {
      at = pace.at;
      cycle = pace.cycle;
      borrows = borrowed flat.now departures.now pace.comes stage.now.why;
    } }
{
    Row {
        at: pace.at,
        cycle: pace.cycle,
        borrows: borrowed(flat, departures, pace.comes, stage),
    }
}

/// The rows of the stages of a chain by a schedule with its departures, and a last row for the first stage again, some
/// cycles on.
pub fn rows_of(
    alloc: Global,
    flat: &Flat,
    schedule: &Schedule,
    departures: &[i64],
    stages: &[Stage],
) -> Result<Rows, OutOfMemory>
    requires clocked { IsClocked flat.now schedule.now departures.now }
    requires stages { All (IsStage flat.now) stages.now }
    requires short { All IsShort stages.now }
    requires some { 1 ≤ length stages.now }
    requires most { length stages.now ≤ MOST_MEMBERS }
    ensures value { IfOk result (λ rows. rows ≡ rows_of flat.now schedule.now departures.now stages.now) }
    ensures times { IfOk result AreInTime }
{
    let mut pace = first_pace(flat, schedule, departures, stages);
    let mut rows = Vec::new(alloc);
    for stage in stages {
        rows.push(row_of(flat, departures, pace, stage))?;
        pace = paced(pace, schedule.den, stage);
    }
    rows.push(Row {
        at: pace.at,
        cycle: pace.cycle,
        borrows: 0,
    })?;
    Ok(Rows::new(rows))
}
