//! The text where no schedule is right.
ghost use Rattle.std.specs.Prelude.{◌≡◌, ◌≤◌, ◌++◌, pos, ◌≤ℤ◌, length, All, IfOk, OnOk};
ghost use Rattle.mintc_text.specs.declared.limits.TheConstants.{MOST_MEMBERS};
ghost use Rattle.mintcx_chain.specs.Names.{IsShort, IsStage};
ghost use Rattle.mintcx_optima.specs.Because.{because_text};
ghost use Rattle.mintcx_optima.specs.Least.{IsRing};
ghost use Rattle.mintcx_optima.specs.Never.{asks_text, claim_text, greatest_delay, never_columns, never_cells};
ghost use Rattle.mintcx_optima.specs.Never.{never_grid};
ghost use Rattle.mintcx_optima.specs.Never.{never_head, none_text, stages_text};

use crate::because::put_because;
use crate::counts::put_counted;
use mintc_fraction::Fraction;
use mintc_text::{Lines, Name, Names, OutOfMemory};
use mintc_timing::Flat;
use mintcx_amounts::Unit;
use mintcx_chain::{Stage, stage_from, stage_to, sums_of};
use mintcx_columns::{Column, Table};
use mintcx_frame::{
    View, put_foot, put_more, put_subject, put_time, shown_rows, time_cell, word_cell,
};
use mintcx_manners::Limit;
use std::alloc::Global;

/// The greatest delay of a stage of a chain, in femtoseconds; 0 where none is above 0.
fn greatest_delay(stages: &[Stage]) -> i64
    requires { All IsShort stages.now }
    ensures value { result ≡ greatest_delay stages.now }
    ensures least { pos 0 ≤ℤ result }
    ensures most { result ≤ℤ pos 4000000000 }
{
    let mut greatest = 0;
    for stage in stages {
        greatest = stage.delay.max(greatest);
    }
    greatest
}

/// The columns of the table.
fn never_columns(alloc: Global) -> Result<Vec<Column>, OutOfMemory>
    ensures { IfOk result (λ columns. columns.items ≡ never_columns) }
{
    let (left, right) = (Column::left(), Column::right());
    Ok(vec![in alloc; left, left, right, left]?)
}

/// Its first row.
fn never_head(alloc: Global) -> Result<Names, OutOfMemory>
    ensures { IfOk result (λ row. row ≡ never_head) }
{
    let from = word_cell(alloc, b"from")?;
    let to = word_cell(alloc, b"to")?;
    let least = word_cell(alloc, b"at least")?;
    let because = word_cell(alloc, b"because")?;
    Ok(Names::new(vec![in alloc; from, to, least, because]?))
}

/// Why a stage asks for time, as a cell.
fn because_cell(alloc: Global, flat: &Flat, stage: &Stage) -> Result<Name, OutOfMemory>
    requires { IsStage flat.now stage.now }
    ensures { IfOk result (λ cell. cell ≡ because_text flat.now stage.now) }
{
    let mut lines = Lines::new(alloc);
    put_because(&mut lines, alloc, flat, stage)?;
    word_cell(alloc, &lines.into_bytes())
}

/// The cells of a stage.
fn never_cells(alloc: Global, flat: &Flat, unit: Unit, stage: &Stage) -> Result<Names, OutOfMemory>
    requires { IsStage flat.now stage.now }
    ensures { IfOk result (λ cells. cells ≡ never_cells flat.now unit stage.now) }
{
    let from = stage_from(alloc, flat, stage)?;
    let to = stage_to(alloc, flat, stage)?;
    let least = time_cell(alloc, stage.delay, 1, unit)?;
    let because = because_cell(alloc, flat, stage)?;
    Ok(Names::new(vec![in alloc; from, to, least, because]?))
}

/// The table of some stages.
fn never_table(
    alloc: Global,
    flat: &Flat,
    unit: Unit,
    stages: &[Stage],
) -> Result<Table, OutOfMemory>
    requires { All (IsStage flat.now) stages.now }
    ensures { IfOk result (λ table. table ≡ never_grid flat.now unit stages.now) }
{
    let mut table = Table::new(alloc, never_columns(alloc)?);
    table.push(never_head(alloc)?)?;
    for stage in stages {
        table.push(never_cells(alloc, flat, unit, stage)?)?;
    }
    Ok(table)
}

/// Writes the line that says how much more a chain asks for than there is.
pub(crate) fn put_asks(lines: &mut Lines, stages: &[Stage], unit: Unit) -> Result<(), OutOfMemory>
    requires short { All IsShort stages.now }
    requires most { length stages.now ≤ MOST_MEMBERS }
    ensures { OnOk result (lines.new ≡ lines.old ++ asks_text stages.now unit) }
{
    let sums = sums_of(stages);
    lines.put(b"a chain of ")?;
    put_counted(lines, stages.len() as u64, b"constraint")?;
    lines.put(b" asks for ")?;
    put_time(lines, &Fraction::new(i128::from(sums.delay), 1), unit)?;
    lines.put(b" more than there are, in no cycle:\n\n")
}

/// Writes the table of the stages of a chain, as many as a limit allows.
fn put_stages(
    lines: &mut Lines,
    alloc: Global,
    flat: &Flat,
    unit: Unit,
    stages: &[Stage],
    limit: Limit,
) -> Result<(), OutOfMemory>
    requires { All (IsStage flat.now) stages.now }
    ensures { OnOk result (lines.new ≡ lines.old ++ stages_text flat.now unit stages.now limit) }
{
    let shown = shown_rows(limit, stages.len());
    let text = never_table(alloc, flat, unit, &stages[..shown])?.text(alloc)?;
    lines.put(&text)?;
    put_more(lines, limit, stages.len())
}

/// Writes the first line: that no schedule does what is asked.
fn put_claim(lines: &mut Lines, claim: &[u8], view: &View) -> Result<(), OutOfMemory>
    ensures { OnOk result (lines.new ≡ lines.old ++ claim_text claim.now view.now) }
{
    lines.put(b"never  ")?;
    lines.put(claim)?;
    lines.put(b", whatever its cycle time")?;
    put_subject(lines, view)
}

/// Writes the text where no schedule does what is asked, by a claim as `no schedule is right`: the chain that forbids
/// every cycle time.
pub(crate) fn put_never(
    lines: &mut Lines,
    alloc: Global,
    flat: &Flat,
    stages: &[Stage],
    claim: &[u8],
    view: &View,
) -> Result<(), OutOfMemory>
    requires { IsRing flat.now stages.now }
    ensures { OnOk result (lines.new ≡ lines.old ++ none_text claim.now flat.now stages.now view.now) }
{
    let unit = view.unit_for(&Fraction::new(i128::from(greatest_delay(stages)), 1));
    put_claim(lines, claim, view)?;
    lines.put(b"\n")?;
    put_asks(lines, stages, unit)?;
    put_stages(lines, alloc, flat, unit, stages, view.limit)?;
    lines.put(b"\n")?;
    put_foot(lines, unit, b"")
}
