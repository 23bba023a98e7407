//! The histogram of slacks.
ghost use Rattle.std.specs.Prelude.{◌≡◌, ◌≤◌, ◌*◌, ◌^◌, ◌++◌, ℕ, length, IfOk, OnOk};
ghost use Rattle.std.specs.Int.{div_ceil};
ghost use Rattle.mintc_fraction.specs.Ratio.{IsModest};
ghost use Rattle.mintc_text.specs.declared.limits.TheConstants.{MOST_PAIRS};
ghost use Rattle.mintc_slack.specs.Answers.{AreOfPairs};
ghost use Rattle.mintcx_slacks.specs.Histograms.{IsHistogramText, IsStep, bar_columns, bar_grid, bar_head, bar_name};
ghost use Rattle.mintcx_slacks.specs.Histograms.{bar_row, end_text, fullest_of, histogram_text as histogram_text_of};
ghost use Rattle.mintcx_slacks.specs.Histograms.{most_of, signs_of, step_at};

use crate::bars::{Step, bar, count, greatest, step_for};
use crate::listing::{never_text, put_pairs};
use mintc_fraction::Fraction;
use mintc_slack::Slacks;
use mintc_text::{Bytes, Lines, Name, Names, OutOfMemory};
use mintc_timing::System;
use mintcx_amounts::{Unit, put_amount};
use mintcx_columns::{Column, Table};
use mintcx_frame::{View, number_cell, put_foot, put_head, word_cell};
use std::alloc::Global;

/// Writes up to which slack a bar goes.
fn put_end(lines: &mut Lines, unit: Unit, end: u64) -> Result<(), OutOfMemory>
    requires { end ≤ 12 * 10 ^ 18 }
    ensures { OnOk result (lines.new ≡ lines.old ++ end_text unit end) }
{
    lines.put(b"up to ")?;
    put_amount(lines, &Fraction::new(i128::from(end), 1), unit)
}

/// Up to which slack a bar goes.
fn end_cell(alloc: Global, unit: Unit, end: u64) -> Result<Name, OutOfMemory>
    requires { end ≤ 12 * 10 ^ 18 }
    ensures { IfOk result (λ name. name ≡ end_text unit end) }
{
    let mut lines = Lines::new(alloc);
    put_end(&mut lines, unit, end)?;
    Name::new(alloc, &lines.into_bytes())
}

/// What a bar is called.
#[tactic(auto, using(crate::proofs::Steps::no_bar, crate::proofs::Steps::some_bar))]
fn bar_name(alloc: Global, unit: Unit, step: Step, number: u64) -> Result<Name, OutOfMemory>
    requires step { step.femtoseconds ≤ 10 ^ 18 }
    requires number { number ≤ 12 }
    ensures { IfOk result (λ name. name ≡ bar_name unit step.femtoseconds number) }
{
    if number == 0 {
        return word_cell(alloc, b"none");
    }
    end_cell(alloc, unit, number * step.femtoseconds)
}

/// The signs of a bar, of which the fullest has 40.
fn signs(alloc: Global, count: usize, fullest: usize) -> Result<Name, OutOfMemory>
    requires some { 1 ≤ fullest }
    requires few { count ≤ MOST_PAIRS }
    ensures { IfOk result (λ name. name ≡ signs_of fullest count) }
{
    let signs = (count * 40).div_ceil(fullest);
    Name::new(alloc, &vec![in alloc; b'#'; signs]?)
}

/// The columns of the table.
fn bar_columns(alloc: Global) -> Result<Vec<Column>, OutOfMemory>
    ensures { IfOk result (λ columns. columns.items ≡ bar_columns) }
{
    let (left, right) = (Column::left(), Column::right());
    Ok(vec![in alloc; right, right, left]?)
}

/// Its first row.
fn bar_head(alloc: Global) -> Result<Names, OutOfMemory>
    ensures { IfOk result (λ row. row ≡ bar_head) }
{
    let slack = word_cell(alloc, b"slack")?;
    let pairs = word_cell(alloc, b"pairs")?;
    Ok(Names::new(vec![in alloc; slack, pairs]?))
}

/// How many slacks the fullest bar has, and at least 1.
#[tactic(auto, using(crate::proofs::Steps::most_more))]
pub fn fullest(extra: &[i64], step: Step, last: u64) -> usize
    requires some { 1 ≤ step.femtoseconds }
    requires few { last ≤ 12 }
    requires last { last ≡ div_ceil (most_of extra.now) step.femtoseconds }
    ensures value { result ≡ fullest_of step.femtoseconds extra.now }
    ensures some { 1 ≤ result }
{
    let mut most = 1;
    for number in 0..last + 1 {
        most = usize::max(most, count(extra, step.femtoseconds, number));
    }
    most
}

/// The row of a bar.
fn bar_row(
    alloc: Global,
    unit: Unit,
    step: Step,
    extra: &[i64],
    fullest: usize,
    number: u64,
) -> Result<Names, OutOfMemory>
    requires some { 1 ≤ step.femtoseconds }
    requires step { step.femtoseconds ≤ 10 ^ 18 }
    requires count { length extra.now ≤ MOST_PAIRS }
    requires full { 1 ≤ fullest }
    requires number { number ≤ 12 }
    ensures { IfOk result (λ row. row ≡ bar_row unit step.femtoseconds extra.now fullest number) }
{
    let pairs = count(extra, step.femtoseconds, number);
    let name = bar_name(alloc, unit, step, number)?;
    let count = number_cell(alloc, pairs as u64)?;
    let signs = signs(alloc, pairs, fullest)?;
    Ok(Names::new(vec![in alloc; name, count, signs]?))
}

/// The table of the bars up to that of the greatest slack.
fn rows_table(
    alloc: Global,
    unit: Unit,
    step: Step,
    extra: &[i64],
    last: u64,
) -> Result<Table, OutOfMemory>
    requires some { 1 ≤ step.femtoseconds }
    requires step { step.femtoseconds ≤ 10 ^ 18 }
    requires count { length extra.now ≤ MOST_PAIRS }
    requires few { last ≤ 12 }
    requires last { last ≡ div_ceil (most_of extra.now) step.femtoseconds }
    ensures { IfOk result (λ table. table ≡ bar_grid unit step.femtoseconds extra.now) }
{
    let fullest = fullest(extra, step, last);
    let mut table = Table::new(alloc, bar_columns(alloc)?);
    table.push(bar_head(alloc)?)?;
    for number in 0..last + 1 {
        table.push(bar_row(alloc, unit, step, extra, fullest, number)?)?;
    }
    Ok(table)
}

/// The histogram of slacks at a least cycle, by steps of this size.
#[tactic(auto, using(crate::proofs::Steps::twelve_bars))]
fn steps_text(
    alloc: Global,
    cycle: &Fraction,
    extra: &[i64],
    view: &View,
    step: Step,
) -> Result<Bytes, OutOfMemory>
    requires cycle { IsModest cycle.now }
    requires some { 1 ≤ step.femtoseconds }
    requires step { step.femtoseconds ≤ 10 ^ 18 }
    requires count { length extra.now ≤ MOST_PAIRS }
    requires enough { most_of extra.now ≤ 12 * step.femtoseconds }
    ensures { IfOk result (λ text. text ≡ histogram_text_of cycle.now extra.now view.now step.femtoseconds) }
{
    let unit = view.unit_for(cycle);
    let last = bar(greatest(extra), step.femtoseconds);
    let table = rows_table(alloc, unit, step, extra, last)?.text(alloc)?;
    let mut lines = Lines::new(alloc);
    put_head(&mut lines, b"slack", cycle, view)?;
    lines.put(b"\n")?;
    put_pairs(&mut lines, extra)?;
    lines.put(b"\n")?;
    lines.put(&table)?;
    lines.put(b"\n")?;
    put_foot(&mut lines, unit, b"")?;
    Ok(Bytes::new(lines.into_bytes()))
}

/// The histogram of slacks at a least cycle.
fn bars_text(
    alloc: Global,
    cycle: &Fraction,
    extra: &[i64],
    view: &View,
) -> Result<Bytes, OutOfMemory>
    requires cycle { IsModest cycle.now }
    requires count { length extra.now ≤ MOST_PAIRS }
    ensures { IfOk result (λ text. (n : ℕ) × IsStep (most_of extra.now) n
        × (text ≡ histogram_text_of cycle.now extra.now view.now (step_at n))) }
{
    let step = step_for(greatest(extra));
    steps_text(alloc, cycle, extra, view, step)
}

/// The histogram of slacks: how many pairs have no slack, and how many have up to one step, two steps, and so on; or
/// that no schedule is right.
pub fn histogram_text(
    alloc: Global,
    system: &System,
    slacks: &Slacks,
    view: &View,
) -> Result<Bytes, OutOfMemory>
    requires { AreOfPairs system.now slacks.now }
    ensures { IfOk result (IsHistogramText view.now slacks.now) }
{
    let _pairs = system.pairs();
    match slacks {
        Slacks::Least { cycle, extra } => bars_text(alloc, cycle, extra.items(), view),
        Slacks::Never => never_text(alloc, view),
    }
}
