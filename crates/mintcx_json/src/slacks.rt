//! The object of slacks.
ghost use Rattle.std.specs.Prelude.{◌≡◌, ◌<◌, ◌^◌, ◌++◌, ◌∷◌, [], ◌*ℤ◌, ◌≤ℤ◌, pos, negsuc, ℕ, ℤ, List};
ghost use Rattle.std.specs.Prelude.{length, map, All, IfOk, OnOk};
ghost use Rattle.json.specs.Tree.{json_tokens};
ghost use Rattle.mintc_fraction.specs.Ratio.{IsModest};
ghost use Rattle.mintc_slack.specs.Answers.{AreOfPairs};
ghost use Rattle.mintcx_slacks.specs.Slacks.{AreBySlack};
ghost use Rattle.mintcx_json.specs.Objects.{IsTextOf};
ghost use Rattle.mintcx_json.specs.Pieces.{fields_tokens, values_tokens};
ghost use Rattle.mintcx_json.specs.Slacks.{IsSlackObject, no_slacks_value, pair_value, pairs_field, slacks_value};
ghost use Rattle.mintcx_json.specs.Slacks.{time_fields};

use crate::fields::{put_head, put_long, put_name, put_none, put_whole};
use crate::sheet::Sheet;
use mintc_fraction::Fraction;
use mintc_slack::Slacks;
use mintc_text::{Bytes, OutOfMemory};
use mintc_timing::System;
use mintcx_frame::{View, element_name};
use mintcx_slacks::{Place, by_slack, delay};
use std::alloc::Global;

/// A span of femtoseconds over a denominator.
#[tactic(auto, using(crate::proofs::SpanLaws::long_low, crate::proofs::SpanLaws::long_high))]
fn long_span(span: i64, den: i128) -> i128
    requires some { pos 1 ≤ℤ den }
    requires most { den ≤ℤ pos (10 ^ 12) }
    ensures value { result ≡ span *ℤ den }
    ensures low { negsuc 9223372036854775807999999999999 ≤ℤ result }
    ensures high { result ≤ℤ pos 9223372036854775807000000000000 }
{
    i128::from(span) * den
}

/// Writes a pair with its slack, by its place.
fn put_pair(
    sheet: &mut Sheet,
    alloc: Global,
    system: &System,
    den: i128,
    place: Place,
) -> Result<(), OutOfMemory>
    requires pair { place.1 < length system.now.pairs }
    requires some { pos 1 ≤ℤ den }
    requires most { den ≤ℤ pos (10 ^ 12) }
    ensures { OnOk result (sheet.new ≡ sheet.old ++ json_tokens (pair_value system.now den place)) }
{
    let pair = system.pair(place.1);
    let flat = system.flat();
    sheet.open()?;
    put_name(sheet, alloc, "from", element_name(flat, pair.from))?;
    put_name(sheet, alloc, "to", element_name(flat, pair.to))?;
    put_long(sheet, "delay", long_span(delay(system, place.1), den))?;
    put_long(sheet, "slack", long_span(place.0, den))?;
    sheet.close()
}

/// Writes pairs, in the order of their places, as items of an array.
fn put_each_pair(
    sheet: &mut Sheet,
    alloc: Global,
    system: &System,
    den: i128,
    places: &[Place],
) -> Result<(), OutOfMemory>
    requires places { All (λ (place : ℤ × ℕ). place.1 < length system.now.pairs) places.now }
    requires some { pos 1 ≤ℤ den }
    requires most { den ≤ℤ pos (10 ^ 12) }
    ensures { OnOk result (sheet.new ≡ sheet.old ++ values_tokens (map (pair_value system.now den) places.now)) }
{
    for place in places {
        put_pair(sheet, alloc, system, den, *place)?;
    }
    Ok(())
}

/// Writes the member that has the pairs.
fn put_pairs(
    sheet: &mut Sheet,
    alloc: Global,
    system: &System,
    den: i128,
    places: &[Place],
) -> Result<(), OutOfMemory>
    requires places { All (λ (place : ℤ × ℕ). place.1 < length system.now.pairs) places.now }
    requires some { pos 1 ≤ℤ den }
    requires most { den ≤ℤ pos (10 ^ 12) }
    ensures { OnOk result (sheet.new ≡ sheet.old ++ fields_tokens (pairs_field system.now den places.now ∷ [])) }
{
    sheet.key("pairs")?;
    sheet.open_array()?;
    put_each_pair(sheet, alloc, system, den, places)?;
    sheet.close_array()
}

/// Writes the members that have a time.
pub(crate) fn put_time(sheet: &mut Sheet, time: &Fraction) -> Result<(), OutOfMemory>
    ensures { OnOk result (sheet.new ≡ sheet.old ++ fields_tokens (time_fields time.now)) }
{
    put_long(sheet, "den", time.den())?;
    put_long(sheet, "cycle", time.num())
}

/// Writes the object of the slacks at a least cycle time.
fn put_slacks(
    sheet: &mut Sheet,
    alloc: Global,
    system: &System,
    cycle: &Fraction,
    places: &[Place],
    subject: &[u8],
) -> Result<(), OutOfMemory>
    requires modest { IsModest cycle.now }
    requires places { All (λ (place : ℤ × ℕ). place.1 < length system.now.pairs) places.now }
    ensures { OnOk result (sheet.new
        ≡ sheet.old ++ json_tokens (slacks_value system.now cycle.now places.now subject.now)) }
{
    let den = cycle.den();
    sheet.open()?;
    put_head(sheet, alloc, "slack", 0, "slack", subject)?;
    put_time(sheet, cycle)?;
    put_pairs(sheet, alloc, system, den, places)?;
    sheet.close()
}

/// Writes the object that no pair has a slack.
fn put_no_slacks(sheet: &mut Sheet, alloc: Global, subject: &[u8]) -> Result<(), OutOfMemory>
    ensures { OnOk result (sheet.new ≡ sheet.old ++ json_tokens (no_slacks_value subject.now)) }
{
    sheet.open()?;
    put_head(sheet, alloc, "slack", 1, "never", subject)?;
    put_whole(sheet, "den", 1)?;
    put_none(sheet, "pairs")?;
    sheet.close()
}

/// The object of the slacks at a least cycle time.
fn least_json(
    alloc: Global,
    system: &System,
    cycle: &Fraction,
    extra: &[i64],
    subject: &[u8],
) -> Result<Bytes, OutOfMemory>
    requires modest { IsModest cycle.now }
    requires pairs { length extra.now ≡ length system.now.pairs }
    ensures { IfOk result (λ text. (places : List (ℤ × ℕ)) × AreBySlack extra.now places
        × IsTextOf (slacks_value system.now cycle.now places subject.now) text) }
{
    let places = by_slack(alloc, extra)?;
    let mut sheet = Sheet::new(alloc);
    put_slacks(&mut sheet, alloc, system, cycle, &places, subject)?;
    sheet.into_text()
}

/// The object that no pair has a slack.
fn never_json(alloc: Global, subject: &[u8]) -> Result<Bytes, OutOfMemory>
    ensures { IfOk result (IsTextOf (no_slacks_value subject.now)) }
{
    let mut sheet = Sheet::new(alloc);
    put_no_slacks(&mut sheet, alloc, subject)?;
    sheet.into_text()
}

/// The object of slacks: the least cycle time, and all pairs with how long their data takes and by how much more it
/// may, the least slack first; none where no schedule is right. Times are femtoseconds times `den`.
pub fn slack_json(
    alloc: Global,
    system: &System,
    slacks: &Slacks,
    view: &View,
) -> Result<Bytes, OutOfMemory>
    requires { AreOfPairs system.now slacks.now }
    ensures { IfOk result (IsSlackObject system.now slacks.now view.now.subject) }
{
    let subject = view.subject.bytes();
    match slacks {
        Slacks::Least { cycle, extra } => least_json(alloc, system, cycle, extra.items(), subject),
        Slacks::Never => never_json(alloc, subject),
    }
}
