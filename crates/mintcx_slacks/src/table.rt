//! The table of slacks.
ghost use Rattle.std.specs.Prelude.{◌≡◌, ◌<◌, ℕ, ℤ, pos, length, All, IfOk};
ghost use Rattle.mintc_fraction.specs.Ratio.{IsModest, over};
ghost use Rattle.mintc_timing.specs.Design.{element_count};
ghost use Rattle.mintcx_frame.specs.Names.{element_name};
ghost use Rattle.mintcx_slacks.specs.Slacks.{delay_of, slack_columns, slack_grid, slack_head, slack_row};

use crate::order::Place;
use mintc_fraction::Fraction;
use mintc_text::{Names, OutOfMemory};
use mintc_timing::System;
use mintcx_amounts::Unit;
use mintcx_columns::{Column, Table};
use mintcx_frame::{amount_cell, word_cell};
use std::alloc::Global;

/// A number of whole femtoseconds.
pub(crate) fn whole(time: i64) -> Fraction
    ensures value { result ≡ over time (pos 1) }
    ensures modest { IsModest result }
{
    Fraction::new(i128::from(time), 1)
}

/// How long the data of a pair takes at the most, in femtoseconds. Pairs are counted from 0.
pub fn delay(system: &System, pair: usize) -> i64
    requires { pair < length system.now.pairs }
    ensures { result ≡ delay_of system.now pair }
{
    let joined = system.pair(pair);
    system.element(joined.from).dq_max + joined.max
}

/// The name of an element.
fn element_name(system: &System, element: u32) -> &[u8]
    requires { element < element_count system.now.flat }
    ensures { result.now ≡ element_name system.now.flat element }
{
    system.element(element).name.bytes()
}

/// The columns of the table.
fn slack_columns(alloc: Global) -> Result<Vec<Column>, OutOfMemory>
    ensures { IfOk result (λ columns. columns.items ≡ slack_columns) }
{
    let (left, right) = (Column::left(), Column::right());
    Ok(vec![in alloc; right, left, left, right]?)
}

/// Its first row.
fn slack_head(alloc: Global) -> Result<Names, OutOfMemory>
    ensures { IfOk result (λ row. row ≡ slack_head) }
{
    let slack = word_cell(alloc, b"slack")?;
    let from = word_cell(alloc, b"from")?;
    let to = word_cell(alloc, b"to")?;
    let delay = word_cell(alloc, b"delay")?;
    Ok(Names::new(vec![in alloc; slack, from, to, delay]?))
}

/// The row of a pair.
fn slack_row(alloc: Global, system: &System, unit: Unit, place: Place) -> Result<Names, OutOfMemory>
    requires { place.1 < length system.now.pairs }
    ensures { IfOk result (λ row. row ≡ slack_row system.now unit place) }
{
    let pair = system.pair(place.1);
    let slack = amount_cell(alloc, &whole(place.0), unit)?;
    let from = word_cell(alloc, element_name(system, pair.from))?;
    let to = word_cell(alloc, element_name(system, pair.to))?;
    let delay = amount_cell(alloc, &whole(delay(system, place.1)), unit)?;
    Ok(Names::new(vec![in alloc; slack, from, to, delay]?))
}

/// The table of some places.
pub(crate) fn slack_table(
    alloc: Global,
    system: &System,
    unit: Unit,
    places: &[Place],
) -> Result<Table, OutOfMemory>
    requires { All (λ (place : ℤ × ℕ). place.1 < length system.now.pairs) places.now }
    ensures { IfOk result (λ table. table ≡ slack_grid system.now unit places.now) }
{
    let mut table = Table::new(alloc, slack_columns(alloc)?);
    table.push(slack_head(alloc)?)?;
    for place in places {
        table.push(slack_row(alloc, system, unit, *place)?)?;
    }
    Ok(table)
}
