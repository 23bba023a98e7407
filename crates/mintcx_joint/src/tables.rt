//! The table of the chain of corners.
ghost use Rattle.std.specs.Prelude.{◌≡◌, ◌≤◌, ◌++◌, length, take, All, IfOk, OnOk};
ghost use Rattle.mintcx_chain.specs.Names.{IsStage};
ghost use Rattle.mintcx_chain.specs.Turning.{turned};
ghost use Rattle.mintcx_joint.specs.Chains.{chain_cells, chain_columns, chain_grid, chain_head, number_text, rows_text};
ghost use Rattle.mintcx_joint.specs.Chains.{telling_text};
ghost use Rattle.mintcx_joint.specs.Shown.{IsRing, IsShown};

use crate::ring::{Ring, member_at};
use crate::shown::{corner_of, own_stage};
use mintc_corners::CornerMember;
use mintc_text::{Lines, Name, Names, OutOfMemory};
use mintc_timing::{Flat, System};
use mintcx_amounts::Unit;
use mintcx_chain::{Stage, put_through, stage_from, stage_to};
use mintcx_columns::{Column, Table};
use mintcx_frame::{number_cell, put_more, shown_rows, time_cell, word_cell};
use mintcx_manners::Limit;
use mintcx_optima::put_because;
use std::alloc::Global;

/// What the last cells of the rows of a chain tell: through what each stage goes, or why it asks for time.
#[derive(Clone, Copy)]
pub(crate) enum Telling {
    Through,
    Because,
}

/// How the rows of a chain are shown: what they tell, in which unit their times are, and how many there are.
#[derive(Clone, Copy)]
pub(crate) struct Scale {
    pub(crate) telling: Telling,
    pub(crate) unit: Unit,
    pub(crate) limit: Limit,
}

/// The columns of the table.
fn chain_columns(alloc: Global, telling: Telling) -> Result<Vec<Column>, OutOfMemory>
    ensures { IfOk result (λ columns. columns.items ≡ chain_columns telling) }
{
    let (left, right) = (Column::left(), Column::right());
    match telling {
        Telling::Through => Ok(vec![in alloc; right, left, right, left, left]?),
        Telling::Because => Ok(vec![in alloc; right, left, left, right, left]?),
    }
}

/// The first row of a table that tells through what each stage goes.
fn through_head(alloc: Global) -> Result<Names, OutOfMemory>
    ensures { IfOk result (λ row. row ≡ chain_head Telling.Through) }
{
    let corner = word_cell(alloc, b"corner")?;
    let from = word_cell(alloc, b"from")?;
    let delay = word_cell(alloc, b"delay")?;
    let to = word_cell(alloc, b"to")?;
    let through = word_cell(alloc, b"through")?;
    Ok(Names::new(vec![in alloc; corner, from, delay, to, through]?))
}

/// The first row of a table that tells why each stage asks for time.
fn because_head(alloc: Global) -> Result<Names, OutOfMemory>
    ensures { IfOk result (λ row. row ≡ chain_head Telling.Because) }
{
    let corner = word_cell(alloc, b"corner")?;
    let from = word_cell(alloc, b"from")?;
    let to = word_cell(alloc, b"to")?;
    let least = word_cell(alloc, b"at least")?;
    let because = word_cell(alloc, b"because")?;
    Ok(Names::new(vec![in alloc; corner, from, to, least, because]?))
}

/// The first row of the table.
fn chain_head(alloc: Global, telling: Telling) -> Result<Names, OutOfMemory>
    ensures { IfOk result (λ row. row ≡ chain_head telling) }
{
    match telling {
        Telling::Through => through_head(alloc),
        Telling::Because => because_head(alloc),
    }
}

/// The number of a corner, counted from 1, as a cell; empty where a member has none.
fn corner_cell(alloc: Global, number: u32) -> Result<Name, OutOfMemory>
    ensures { IfOk result (λ cell. cell ≡ number_text number) }
{
    if number == 0 {
        word_cell(alloc, b"")
    } else {
        number_cell(alloc, u64::from(number))
    }
}

/// Through what a stage goes, or why it asks for time, as a cell.
fn telling_cell(
    alloc: Global,
    telling: Telling,
    flat: &Flat,
    stage: &Stage,
) -> Result<Name, OutOfMemory>
    requires { IsStage flat.now stage.now }
    ensures { IfOk result (λ cell. cell ≡ telling_text telling flat.now stage.now) }
{
    let mut lines = Lines::new(alloc);
    match telling {
        Telling::Through => put_through(&mut lines, alloc, flat, &stage.why)?,
        Telling::Because => put_because(&mut lines, alloc, flat, stage)?,
    }
    word_cell(alloc, &lines.into_bytes())
}

/// The cells of a member.
fn chain_cells(
    alloc: Global,
    systems: &[System],
    scale: Scale,
    member: &CornerMember,
) -> Result<Names, OutOfMemory>
    requires { IsShown systems.now member.now }
    ensures { IfOk result (λ cells. cells ≡ chain_cells scale.telling systems.now scale.unit member.now) }
{
    let flat = systems[corner_of(systems, member)].flat();
    let stage = own_stage(alloc, systems, member)?;
    let corner = corner_cell(alloc, member.corner)?;
    let from = stage_from(alloc, flat, &stage)?;
    let delay = time_cell(alloc, stage.delay, 1, scale.unit)?;
    let to = stage_to(alloc, flat, &stage)?;
    let told = telling_cell(alloc, scale.telling, flat, &stage)?;
    match scale.telling {
        Telling::Through => Ok(Names::new(vec![in alloc; corner, from, delay, to, told]?)),
        Telling::Because => Ok(Names::new(vec![in alloc; corner, from, to, delay, told]?)),
    }
}

/// The table of a chain from where it begins, of so many rows.
fn chain_table(
    alloc: Global,
    systems: &[System],
    scale: Scale,
    ring: &Ring,
    shown: usize,
) -> Result<Table, OutOfMemory>
    requires ring { IsRing systems.now ring.now.members.now ring.now.stages.now ring.now.first }
    requires shown { shown ≤ length ring.now.members.now }
    ensures { IfOk result (λ table. table ≡ chain_grid scale.telling systems.now scale.unit
        (take shown (turned ring.now.first ring.now.members.now))) }
{
    let mut table = Table::new(alloc, chain_columns(alloc, scale.telling)?);
    table.push(chain_head(alloc, scale.telling)?)?;
    for at in 0..shown {
        let member = member_at(ring.members, ring.first, at);
        table.push(chain_cells(alloc, systems, scale, member)?)?;
    }
    Ok(table)
}

/// Writes the rows of a chain as a table, as many as its limit allows.
pub(crate) fn put_rows(
    lines: &mut Lines,
    alloc: Global,
    systems: &[System],
    scale: Scale,
    ring: &Ring,
) -> Result<(), OutOfMemory>
    requires { IsRing systems.now ring.now.members.now ring.now.stages.now ring.now.first }
    ensures { OnOk result (lines.new ≡ lines.old
        ++ rows_text scale.telling systems.now scale.unit scale.limit ring.now.members.now ring.now.first) }
{
    let count = ring.members.len();
    let shown = shown_rows(scale.limit, count);
    let text = chain_table(alloc, systems, scale, ring, shown)?.text(alloc)?;
    lines.put(&text)?;
    put_more(lines, scale.limit, count)
}
