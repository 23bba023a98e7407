//! The table of slacks.
ghost use Rattle.std.specs.Prelude.{◌≡◌, ◌<◌, ◌++◌, ◌∷◌, [], ℕ, ℤ, List, length, map, All, IfOk, OnOk};
ghost use Rattle.csv.specs.Writing.{row_text};
ghost use Rattle.mintc_text.specs.Lines.{numeral_of};
ghost use Rattle.mintc_timing.specs.Design.{element_count};
ghost use Rattle.mintc_slack.specs.Answers.{AreOfPairs};
ghost use Rattle.mintcx_frame.specs.Names.{element_name};
ghost use Rattle.mintcx_slacks.specs.Slacks.{AreBySlack};
ghost use Rattle.mintcx_csv.specs.Records.{IsBetween, text_so_far};
ghost use Rattle.mintcx_csv.specs.Slacks.{IsSlackTable, slack_fields, slack_record, slack_records};
ghost use Rattle.mintcx_csv.specs.Tables.{IsTable, by_rfc};

use crate::records::{Records, no_records, numeral, put_record, text_of};
use itoa::Buffer;
use mintc_slack::Slacks;
use mintc_text::{Bytes, OutOfMemory};
use mintc_timing::System;
use mintcx_slacks::{Place, by_slack, delay};
use std::alloc::Global;

/// The name of an element.
fn element_name(system: &System, element: u32) -> &[u8]
    requires { element < element_count system.now.flat }
    ensures { result.now ≡ element_name system.now.flat element }
{
    system.element(element).name.bytes()
}

/// Writes the head line.
pub(crate) fn put_head(records: &mut Records) -> Result<(), OutOfMemory>
    requires { IsBetween records.old }
    ensures between { OnOk result (IsBetween records.new) }
    ensures text { OnOk result (text_so_far records.new ≡ text_so_far records.old ++ row_text by_rfc slack_fields) }
{
    put_record(records, &[b"from", b"to", b"delay", b"slack"])
}

/// Writes a row: two elements, a delay and a slack in femtoseconds.
pub(crate) fn put_row(
    records: &mut Records,
    from: &[u8],
    to: &[u8],
    delay: i64,
    slack: i64,
) -> Result<(), OutOfMemory>
    requires { IsBetween records.old }
    ensures between { OnOk result (IsBetween records.new) }
    ensures text { OnOk result (text_so_far records.new ≡ text_so_far records.old
        ++ row_text by_rfc (from.now ∷ to.now ∷ numeral_of delay ∷ numeral_of slack ∷ [])) }
{
    let (mut delays, mut slacks) = (Buffer::new(), Buffer::new());
    let delay = numeral(&mut delays, i128::from(delay));
    let slack = numeral(&mut slacks, i128::from(slack));
    put_record(records, &[from, to, delay, slack])
}

/// Writes the row of a pair.
fn put_pair(records: &mut Records, system: &System, place: Place) -> Result<(), OutOfMemory>
    requires between { IsBetween records.old }
    requires pair { place.1 < length system.now.pairs }
    ensures between { OnOk result (IsBetween records.new) }
    ensures text { OnOk result (text_so_far records.new
        ≡ text_so_far records.old ++ row_text by_rfc (slack_record system.now place)) }
{
    let pair = system.pair(place.1);
    let from = element_name(system, pair.from);
    let to = element_name(system, pair.to);
    put_row(records, from, to, delay(system, place.1), place.0)
}

/// The table of some places.
fn places_csv(alloc: Global, system: &System, places: &[Place]) -> Result<Bytes, OutOfMemory>
    requires { All (λ (place : ℤ × ℕ). place.1 < length system.now.pairs) places.now }
    ensures { IfOk result (IsTable (slack_records system.now places.now)) }
{
    let mut records = no_records(alloc);
    put_head(&mut records)?;
    for place in places {
        put_pair(&mut records, system, *place)?;
    }
    text_of(records)
}

/// The table of all pairs, the least slack first.
fn least_csv(alloc: Global, system: &System, extra: &[i64]) -> Result<Bytes, OutOfMemory>
    requires { length extra.now ≡ length system.now.pairs }
    ensures { IfOk result (λ text. (places : List (ℤ × ℕ)) × AreBySlack extra.now places
        × IsTable (slack_records system.now places) text) }
{
    let places = by_slack(alloc, extra)?;
    places_csv(alloc, system, &places)
}

/// The table `from,to,delay,slack` of all pairs, the least slack first: how long the data of a pair takes, and by how
/// much more it may, in whole femtoseconds. Where no schedule is right, the head line alone.
pub fn slack_csv(alloc: Global, system: &System, slacks: &Slacks) -> Result<Bytes, OutOfMemory>
    requires { AreOfPairs system.now slacks.now }
    ensures { IfOk result (IsSlackTable system.now slacks.now) }
{
    match slacks {
        Slacks::Least { cycle: _, extra } => least_csv(alloc, system, extra.items()),
        Slacks::Never => places_csv(alloc, system, &[]),
    }
}
