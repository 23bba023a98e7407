//! The tables of chains.
ghost use Rattle.std.specs.Prelude.{◌≡◌, ◌≤◌, ◌+◌, ◌++◌, ◌*ℤ◌, length, map, All, IfOk, OnOk};
ghost use Rattle.std.specs.List.{range_with_len};
ghost use Rattle.csv.specs.Writing.{row_text};
ghost use Rattle.mintc_timing.specs.Limits.{IsDenominator};
ghost use Rattle.mintcx_chain.specs.Names.{IsShort, IsStage, IsStageDelay};
ghost use Rattle.mintcx_chain.specs.Rows.{IsClocked};
ghost use Rattle.mintcx_optima.specs.Least.{IsRing};
ghost use Rattle.mintcx_csv.specs.Chains.{chain_fields, chain_record, chain_record_at, chain_records, hop_fields};
ghost use Rattle.mintcx_csv.specs.Chains.{hop_record, hop_records};
ghost use Rattle.mintcx_csv.specs.Records.{IsBetween, text_so_far};
ghost use Rattle.mintcx_csv.specs.Tables.{IsTable, by_rfc, shown_over, text_of as table_text};

use crate::records::{Records, no_records, numeral, put_over, put_record, text_of};
use itoa::Buffer;
use mintc_text::{Bytes, OutOfMemory};
use mintc_timing::{Flat, Schedule};
use mintcx_chain::{Row, Stage, rows_of, stage_from, stage_to};
use std::alloc::Global;

/// A span of femtoseconds over a denominator.
#[tactic(auto, using(crate::proofs::SpanLaws::span_low, crate::proofs::SpanLaws::span_high))]
fn span_of(span: i64, den: i64) -> i64
    requires span { IsStageDelay span }
    requires den { IsDenominator den }
    ensures { result ≡ span *ℤ den }
{
    span * den
}

/// How many columns a chain that decides has before that of the denominator.
const CHAIN_COLUMNS: usize = 6;

/// Writes the head line of a chain that decides.
pub(crate) fn put_chain_head(records: &mut Records, den: i64) -> Result<(), OutOfMemory>
    requires { IsBetween records.old }
    ensures between { OnOk result (IsBetween records.new) }
    ensures text { OnOk result
        (text_so_far records.new ≡ text_so_far records.old ++ row_text by_rfc (shown_over den 6 chain_fields)) }
{
    put_over(
        records,
        &[
            b"cycle", b"from", b"at", b"borrows", b"delay", b"to", b"den",
        ],
        CHAIN_COLUMNS,
        den,
    )
}

/// Writes the row of a stage.
fn put_stage(
    records: &mut Records,
    alloc: Global,
    flat: &Flat,
    den: i64,
    row: &Row,
    stage: &Stage,
) -> Result<(), OutOfMemory>
    requires between { IsBetween records.old }
    requires den { IsDenominator den }
    requires stage { IsStage flat.now stage.now }
    requires short { IsShort stage.now }
    ensures between { OnOk result (IsBetween records.new) }
    ensures text { OnOk result (text_so_far records.new
        ≡ text_so_far records.old ++ row_text by_rfc (shown_over den 6 (chain_record flat.now den row.now stage.now))) }
{
    let from = stage_from(alloc, flat, stage)?;
    let to = stage_to(alloc, flat, stage)?;
    let (mut cycles, mut times) = (Buffer::new(), Buffer::new());
    let (mut loans, mut delays, mut dens) = (Buffer::new(), Buffer::new(), Buffer::new());
    let cycle = numeral(&mut cycles, i128::from(row.cycle));
    let at = numeral(&mut times, row.at);
    let borrows = numeral(&mut loans, i128::from(row.borrows));
    let delay = numeral(&mut delays, i128::from(span_of(stage.delay, den)));
    let over = numeral(&mut dens, i128::from(den));
    put_over(
        records,
        &[cycle, from.bytes(), at, borrows, delay, to.bytes(), over],
        CHAIN_COLUMNS,
        den,
    )
}

/// Writes the rows of the stages of a chain.
fn put_stages(
    records: &mut Records,
    alloc: Global,
    flat: &Flat,
    den: i64,
    rows: &[Row],
    stages: &[Stage],
) -> Result<(), OutOfMemory>
    requires between { IsBetween records.old }
    requires den { IsDenominator den }
    requires rows { length rows.now ≡ length stages.now + 1 }
    requires stages { All (IsStage flat.now) stages.now }
    requires short { All IsShort stages.now }
    ensures between { OnOk result (IsBetween records.new) }
    ensures text { OnOk result (text_so_far records.new ≡ text_so_far records.old
        ++ table_text (map (chain_record_at flat.now den rows.now stages.now) (range_with_len 0 (length stages.now)))) }
{
    for number in 0..stages.len() {
        put_stage(records, alloc, flat, den, &rows[number], &stages[number])?;
    }
    Ok(())
}

/// The table `cycle,from,at,borrows,delay,to` of the stages of a chain that decides the least cycle of a schedule, in
/// their order. Times are whole femtoseconds; where the schedule's denominator is above 1, they are numerators over it,
/// and it stands in a last column `den`.
pub fn chain_csv(
    alloc: Global,
    flat: &Flat,
    schedule: &Schedule,
    departures: &[i64],
    stages: &[Stage],
) -> Result<Bytes, OutOfMemory>
    requires clocked { IsClocked flat.now schedule.now departures.now }
    requires ring { IsRing flat.now stages.now }
    ensures { IfOk result (IsTable (chain_records flat.now schedule.now departures.now stages.now)) }
{
    let den = schedule.den;
    let rows = rows_of(alloc, flat, schedule, departures, stages)?;
    let mut records = no_records(alloc);
    put_chain_head(&mut records, den)?;
    put_stages(&mut records, alloc, flat, den, rows.items(), stages)?;
    text_of(records)
}

/// Writes the head line of a chain that forbids.
fn put_hop_head(records: &mut Records) -> Result<(), OutOfMemory>
    requires { IsBetween records.old }
    ensures between { OnOk result (IsBetween records.new) }
    ensures text { OnOk result (text_so_far records.new ≡ text_so_far records.old ++ row_text by_rfc hop_fields) }
{
    put_record(records, &[b"from", b"delay", b"cycles", b"to"])
}

/// Writes the row of a stage of a chain that forbids.
fn put_hop(
    records: &mut Records,
    alloc: Global,
    flat: &Flat,
    stage: &Stage,
) -> Result<(), OutOfMemory>
    requires between { IsBetween records.old }
    requires stage { IsStage flat.now stage.now }
    ensures between { OnOk result (IsBetween records.new) }
    ensures text { OnOk result (text_so_far records.new
        ≡ text_so_far records.old ++ row_text by_rfc (hop_record flat.now stage.now)) }
{
    let from = stage_from(alloc, flat, stage)?;
    let to = stage_to(alloc, flat, stage)?;
    let (mut delays, mut counts) = (Buffer::new(), Buffer::new());
    let delay = numeral(&mut delays, i128::from(stage.delay));
    let cycles = numeral(&mut counts, i128::from(stage.cycles));
    put_record(records, &[from.bytes(), delay, cycles, to.bytes()])
}

/// The table `from,delay,cycles,to` of the stages of a chain that forbids a cycle time or every one, in their order:
/// how many whole femtoseconds each asks for, in how many cycles.
pub fn hops_csv(alloc: Global, flat: &Flat, stages: &[Stage]) -> Result<Bytes, OutOfMemory>
    requires { All (IsStage flat.now) stages.now }
    ensures { IfOk result (IsTable (hop_records flat.now stages.now)) }
{
    let mut records = no_records(alloc);
    put_hop_head(&mut records)?;
    for stage in stages {
        put_hop(&mut records, alloc, flat, stage)?;
    }
    text_of(records)
}
