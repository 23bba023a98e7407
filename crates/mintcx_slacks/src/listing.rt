//! The text of slacks.
ghost use Rattle.std.specs.Prelude.{◌≡◌, ◌<◌, ◌++◌, ℕ, ℤ, List, length, All, IfOk, OnOk};
ghost use Rattle.mintc_fraction.specs.Ratio.{IsModest};
ghost use Rattle.mintc_slack.specs.Answers.{AreOfPairs};
ghost use Rattle.mintc_text.specs.Lines.{ended};
ghost use Rattle.mintcx_slacks.specs.Slacks.{AreBySlack, IsSlackText, least_text as least_text_of, never_text};
ghost use Rattle.mintcx_columns.specs.Tables.{table_text};
ghost use Rattle.mintcx_slacks.specs.Slacks.{listed_text, pairs_line, pairs_word, rest_text, slack_grid, tight_text};

use crate::order::{Place, by_slack, greatest_slack, tight_count};
use crate::table::{slack_table, whole};
use mintc_fraction::Fraction;
use mintc_slack::Slacks;
use mintc_text::{Bytes, Lines, OutOfMemory};
use mintc_timing::System;
use mintcx_amounts::{Unit, put_amount};
use mintcx_frame::{View, put_foot, put_head, put_number, put_subject, shown_rows};
use mintcx_manners::Limit;
use std::alloc::Global;

/// Writes how many pairs have no slack.
fn put_tight(lines: &mut Lines, count: usize) -> Result<(), OutOfMemory>
    ensures { OnOk result (lines.new ≡ lines.old ++ tight_text count) }
{
    if count == 0 {
        return lines.put(b"each has some slack");
    }
    if count == 1 {
        return lines.put(b"1 has no slack and holds the clock back");
    }
    put_number(lines, count as u64)?;
    lines.put(b" have no slack and hold the clock back")
}

/// The words for so many pairs.
fn pairs_word(count: usize) -> &'static [u8]
    ensures { result.now ≡ pairs_word count }
{
    if count == 1 {
        b" pair of elements; "
    } else {
        b" pairs of elements; "
    }
}

/// Writes the line that counts the pairs.
pub(crate) fn put_pairs(lines: &mut Lines, extra: &[i64]) -> Result<(), OutOfMemory>
    ensures { OnOk result (lines.new ≡ lines.old ++ ended (pairs_line extra.now)) }
{
    put_number(lines, extra.len() as u64)?;
    lines.put(pairs_word(extra.len()))?;
    put_tight(lines, tight_count(extra))?;
    lines.put(b"\n")
}

/// Writes the line for places that are left out; none for none.
fn put_rest(lines: &mut Lines, unit: Unit, greatest: i64, count: usize) -> Result<(), OutOfMemory>
    ensures { OnOk result (lines.new ≡ lines.old ++ rest_text unit greatest count) }
{
    if count == 0 {
        return Ok(());
    }
    lines.put(b"  ")?;
    put_number(lines, count as u64)?;
    lines.put(b" more, up to ")?;
    put_amount(lines, &whole(greatest), unit)?;
    lines.put(b" (--limit all)\n")
}

/// Writes the table of some places.
fn put_table(
    lines: &mut Lines,
    alloc: Global,
    system: &System,
    unit: Unit,
    places: &[Place],
) -> Result<(), OutOfMemory>
    requires { All (λ (place : ℤ × ℕ). place.1 < length system.now.pairs) places.now }
    ensures { OnOk result (lines.new ≡ lines.old ++ table_text (slack_grid system.now unit places.now)) }
{
    let table = slack_table(alloc, system, unit, places)?.text(alloc)?;
    lines.put(&table)
}

/// Writes the pairs of places with their slacks, as many as a limit allows, and the line for those that it leaves out.
fn put_listed(
    lines: &mut Lines,
    alloc: Global,
    system: &System,
    unit: Unit,
    places: &[Place],
    limit: Limit,
) -> Result<(), OutOfMemory>
    requires { All (λ (place : ℤ × ℕ). place.1 < length system.now.pairs) places.now }
    ensures { OnOk result (lines.new ≡ lines.old ++ listed_text system.now unit limit places.now) }
{
    let shown = shown_rows(limit, places.len());
    put_table(lines, alloc, system, unit, &places[..shown])?;
    put_rest(lines, unit, greatest_slack(places), places.len() - shown)
}

/// The text of slacks at a least cycle, by places in order.
fn places_text(
    alloc: Global,
    system: &System,
    cycle: &Fraction,
    extra: &[i64],
    places: &[Place],
    view: &View,
) -> Result<Bytes, OutOfMemory>
    requires cycle { IsModest cycle.now }
    requires places { All (λ (place : ℤ × ℕ). place.1 < length system.now.pairs) places.now }
    ensures { IfOk result (λ text. text ≡ least_text_of system.now cycle.now extra.now view.now places.now) }
{
    let unit = view.unit_for(cycle);
    let note = b"slack is how much a pair's delay may grow, alone, at this cycle";
    let mut lines = Lines::new(alloc);
    put_head(&mut lines, b"slack", cycle, view)?;
    lines.put(b"\n")?;
    put_pairs(&mut lines, extra)?;
    lines.put(b"\n")?;
    put_listed(&mut lines, alloc, system, unit, places, view.limit)?;
    lines.put(b"\n")?;
    put_foot(&mut lines, unit, note)?;
    Ok(Bytes::new(lines.into_bytes()))
}

/// The text of slacks at a least cycle.
fn least_text(
    alloc: Global,
    system: &System,
    cycle: &Fraction,
    extra: &[i64],
    view: &View,
) -> Result<Bytes, OutOfMemory>
    requires cycle { IsModest cycle.now }
    requires count { length extra.now ≡ length system.now.pairs }
    ensures { IfOk result (λ text. (places : List (ℤ × ℕ)) × AreBySlack extra.now places
        × (text ≡ least_text_of system.now cycle.now extra.now view.now places)) }
{
    let places = by_slack(alloc, extra)?;
    places_text(alloc, system, cycle, extra, &places, view)
}

/// The text where no schedule is right.
pub(crate) fn never_text(alloc: Global, view: &View) -> Result<Bytes, OutOfMemory>
    ensures { IfOk result (λ text. text ≡ never_text view.now) }
{
    let mut lines = Lines::new(alloc);
    lines.put(b"never  no schedule is right, whatever its cycle time")?;
    put_subject(&mut lines, view)?;
    Ok(Bytes::new(lines.into_bytes()))
}

/// The text of slacks: the least cycle, and the pairs with their slacks and delays, the least slack first, as many as
/// the limit lets it; or that no schedule is right.
pub fn slack_text(
    alloc: Global,
    system: &System,
    slacks: &Slacks,
    view: &View,
) -> Result<Bytes, OutOfMemory>
    requires { AreOfPairs system.now slacks.now }
    ensures { IfOk result (IsSlackText system.now view.now slacks.now) }
{
    match slacks {
        Slacks::Least { cycle, extra } => least_text(alloc, system, cycle, extra.items(), view),
        Slacks::Never => never_text(alloc, view),
    }
}
