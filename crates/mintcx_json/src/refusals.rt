//! The object of a refusal.
ghost use Rattle.std.specs.Prelude.{◌≡◌, ◌++◌, ◌∷◌, [], codes, length, map, IfOk, OnOk, Some};
ghost use Rattle.json.specs.Json.{string};
ghost use Rattle.json.specs.Tree.{json_tokens};
ghost use Rattle.mintc_text.specs.Refusals.{kind_word, role_word};
ghost use Rattle.mintcx_json.specs.Objects.{array_of, count, object_of};
ghost use Rattle.mintcx_json.specs.Pieces.{fields_tokens, values_tokens};
ghost use Rattle.mintcx_json.specs.Refusals.{IsRefusedObject, cause_fields, field_values, own_fields, place_fields};
ghost use Rattle.mintcx_json.specs.Refusals.{places_of, refused_value, told_fields};

use crate::fields::{put_count, put_name, put_none, put_word};
use crate::sheet::Sheet;
use mintc_text::{Bytes, Kind, OutOfMemory, Refusal, Role};
use std::alloc::Global;

/// A refusal, with its number and what it is in words.
#[derive(Clone, Copy)]
pub struct Cause<'a> {
    pub number: u32,
    pub refusal: &'a Refusal,
    pub message: &'a [u8],
}

/// What is marked in a file: a line and a column, both counted from 1, and so many bytes from there on.
#[derive(Clone, Copy)]
pub struct Spotted {
    pub line: u64,
    pub column: u64,
    pub length: u64,
}

/// A refusal of a command's files.
#[derive(Clone, Copy)]
pub struct Refused<'a> {
    /// The command, as its word stands in the command line.
    pub command: &'a str,
    pub cause: Cause<'a>,
    /// What its own files are refused for, of a corner.
    pub own: Option<Cause<'a>>,
    /// The file that it speaks of; empty where it speaks of none.
    pub file: &'a [u8],
    /// What is marked there, if that is known.
    pub spotted: Option<Spotted>,
    /// What is said of what is marked; empty where there is nothing to say.
    pub label: &'a [u8],
    /// What helps; empty where nothing is known.
    pub help: &'a [u8],
}

/// The word of a text.
fn role_word(role: Role) -> &'static str
    ensures { result.now ≡ role_word role }
{
    match role {
        Role::Netlist => "netlist",
        Role::Delays => "delays",
        Role::Cells => "cells",
        Role::Clock => "clock",
        Role::Schedule => "schedule",
        Role::Certificate => "certificate",
        Role::Table => "table",
    }
}

/// The word of a quantity.
fn kind_word(kind: Kind) -> &'static str
    ensures { result.now ≡ kind_word kind }
{
    match kind {
        Kind::Scopes => "scopes",
        Kind::Depth => "depth",
        Kind::Leaves => "leaves",
        Kind::Inner => "inner",
        Kind::Phases => "phases",
        Kind::Elements => "elements",
        Kind::Arcs => "arcs",
        Kind::Bounds => "bounds",
        Kind::Pairs => "pairs",
    }
}

/// Writes a count as the only item of an array.
fn put_one(sheet: &mut Sheet, number: u64) -> Result<(), OutOfMemory>
    ensures { OnOk result (sheet.new ≡ sheet.old ++ values_tokens (count number ∷ [])) }
{
    sheet.count(number)
}

/// Writes two counts as the items of an array.
fn put_two(sheet: &mut Sheet, first: u32, second: u32) -> Result<(), OutOfMemory>
    ensures { OnOk result (sheet.new ≡ sheet.old ++ values_tokens (count first ∷ count second ∷ [])) }
{
    put_one(sheet, u64::from(first))?;
    put_one(sheet, u64::from(second))
}

/// Writes a word and a count as the items of an array.
fn put_worded(sheet: &mut Sheet, word: &str, number: u64) -> Result<(), OutOfMemory>
    ensures { OnOk result (sheet.new ≡ sheet.old ++ values_tokens (string word.now ∷ count number ∷ [])) }
{
    sheet.word(word)?;
    put_one(sheet, number)
}

/// Writes counts as items of an array.
fn put_all(sheet: &mut Sheet, numbers: &[u32]) -> Result<(), OutOfMemory>
    ensures { OnOk result (sheet.new ≡ sheet.old ++ values_tokens (map count numbers.now)) }
{
    for number in numbers {
        put_one(sheet, u64::from(*number))?;
    }
    Ok(())
}

/// Writes a loop as the items of an array: its length, and its arcs.
fn put_loop(sheet: &mut Sheet, arcs: &[u32]) -> Result<(), OutOfMemory>
    ensures { OnOk result (sheet.new
        ≡ sheet.old ++ values_tokens (count (length arcs.now) ∷ map count arcs.now)) }
{
    put_one(sheet, arcs.len() as u64)?;
    put_all(sheet, arcs)
}

/// Writes the fields of a refusal as the items of an array.
fn put_values(sheet: &mut Sheet, refusal: &Refusal) -> Result<(), OutOfMemory>
    ensures { OnOk result (sheet.new ≡ sheet.old ++ values_tokens (field_values refusal.now)) }
{
    match refusal {
        Refusal::Syntax { role, entry } | Refusal::NoInstance { role, entry } => {
            put_worded(sheet, role_word(*role), u64::from(*entry))
        }
        Refusal::TooLong { role } => sheet.word(role_word(*role)),
        Refusal::NameTwice { entry }
        | Refusal::NoModule { entry }
        | Refusal::Recursive { entry }
        | Refusal::NoPin { entry }
        | Refusal::Width { entry }
        | Refusal::TwoDrivers { entry }
        | Refusal::NoArc { entry }
        | Refusal::Negative { entry }
        | Refusal::Range { entry } => put_one(sheet, u64::from(*entry)),
        Refusal::TopUnclear { count } => put_one(sheet, u64::from(*count)),
        Refusal::BadCell { entry, rule } | Refusal::BadClock { entry, rule } => {
            put_two(sheet, *entry, *rule)
        }
        Refusal::NoPhase { element } => put_one(sheet, u64::from(*element)),
        Refusal::CombinationalLoop { arcs } => put_loop(sheet, arcs.items()),
        Refusal::Limit { kind, count } => put_worded(sheet, kind_word(*kind), *count),
        Refusal::PhaseMismatch { design, schedule } => put_two(sheet, *design, *schedule),
        Refusal::PathRange { element, bit } => put_two(sheet, *element, *bit),
        Refusal::Corner { file } => put_one(sheet, u64::from(*file)),
    }
}

/// Writes the member that has the fields of a refusal.
fn put_fields(sheet: &mut Sheet, refusal: &Refusal) -> Result<(), OutOfMemory>
    ensures { OnOk result (sheet.new
        ≡ sheet.old ++ fields_tokens ((codes "fields", array_of (field_values refusal.now)) ∷ [])) }
{
    sheet.key("fields")?;
    sheet.open_array()?;
    put_values(sheet, refusal)?;
    sheet.close_array()
}

/// Writes the members that have a refusal.
fn put_cause(sheet: &mut Sheet, alloc: Global, cause: &Cause<'_>) -> Result<(), OutOfMemory>
    ensures { OnOk result (sheet.new ≡ sheet.old ++ fields_tokens (cause_fields cause.now)) }
{
    put_count(sheet, "number", u64::from(cause.number))?;
    put_fields(sheet, cause.refusal)?;
    put_name(sheet, alloc, "message", cause.message)
}

/// Writes the members that have what is marked, with its label.
fn put_spotted(
    sheet: &mut Sheet,
    alloc: Global,
    file: &[u8],
    spotted: &Spotted,
    label: &[u8],
) -> Result<(), OutOfMemory>
    ensures { OnOk result (sheet.new
        ≡ sheet.old ++ fields_tokens (place_fields file.now (Some spotted.now) label.now)) }
{
    put_name(sheet, alloc, "file", file)?;
    put_count(sheet, "line", spotted.line)?;
    put_count(sheet, "column", spotted.column)?;
    put_count(sheet, "length", spotted.length)?;
    put_name(sheet, alloc, "label", label)
}

/// Writes the members that have where a refusal is.
fn put_place(sheet: &mut Sheet, alloc: Global, told: &Refused<'_>) -> Result<(), OutOfMemory>
    ensures { OnOk result (sheet.new
        ≡ sheet.old ++ fields_tokens (place_fields told.now.file.now told.now.spotted told.now.label.now)) }
{
    match &told.spotted {
        Some(spotted) => put_spotted(sheet, alloc, told.file, spotted, told.label),
        None => put_name(sheet, alloc, "file", told.file),
    }
}

/// Writes where a refusal is, as the items of an array.
fn put_each_place(sheet: &mut Sheet, alloc: Global, told: &Refused<'_>) -> Result<(), OutOfMemory>
    ensures { OnOk result (sheet.new
        ≡ sheet.old ++ values_tokens (places_of told.now.file.now told.now.spotted told.now.label.now)) }
{
    if told.file.is_empty() {
        return Ok(());
    }
    sheet.open()?;
    put_place(sheet, alloc, told)?;
    sheet.close()
}

/// Writes the member that has the places of a refusal.
fn put_places(sheet: &mut Sheet, alloc: Global, told: &Refused<'_>) -> Result<(), OutOfMemory>
    ensures { OnOk result (sheet.new ≡ sheet.old ++ fields_tokens ((
      codes "places",
      array_of (places_of told.now.file.now told.now.spotted told.now.label.now),
    ) ∷ [])) }
{
    sheet.key("places")?;
    sheet.open_array()?;
    put_each_place(sheet, alloc, told)?;
    sheet.close_array()
}

/// Writes the member that has what a corner's own files are refused for.
fn put_own_cause(sheet: &mut Sheet, alloc: Global, cause: &Cause<'_>) -> Result<(), OutOfMemory>
    ensures { OnOk result (sheet.new
        ≡ sheet.old ++ fields_tokens ((codes "cause", object_of (cause_fields cause.now)) ∷ [])) }
{
    sheet.key("cause")?;
    sheet.open()?;
    put_cause(sheet, alloc, cause)?;
    sheet.close()
}

/// Writes what a corner's own files are refused for, of a corner.
fn put_own(sheet: &mut Sheet, alloc: Global, own: &Option<Cause<'_>>) -> Result<(), OutOfMemory>
    ensures { OnOk result (sheet.new ≡ sheet.old ++ fields_tokens (own_fields own.now)) }
{
    match own {
        Some(cause) => put_own_cause(sheet, alloc, cause),
        None => Ok(()),
    }
}

/// Writes the members that have a refusal with its places, and what helps.
fn put_told(sheet: &mut Sheet, alloc: Global, told: &Refused<'_>) -> Result<(), OutOfMemory>
    ensures { OnOk result (sheet.new ≡ sheet.old ++ fields_tokens (told_fields told.now)) }
{
    put_cause(sheet, alloc, &told.cause)?;
    put_places(sheet, alloc, told)?;
    put_name(sheet, alloc, "help", told.help)?;
    put_own(sheet, alloc, &told.own)
}

/// Writes the member that has a refusal.
fn put_refusal(sheet: &mut Sheet, alloc: Global, told: &Refused<'_>) -> Result<(), OutOfMemory>
    ensures { OnOk result (sheet.new
        ≡ sheet.old ++ fields_tokens ((codes "refusal", object_of (told_fields told.now)) ∷ [])) }
{
    sheet.key("refusal")?;
    sheet.open()?;
    put_told(sheet, alloc, told)?;
    sheet.close()
}

/// Writes the object of a refusal.
fn put_refused(sheet: &mut Sheet, alloc: Global, told: &Refused<'_>) -> Result<(), OutOfMemory>
    ensures { OnOk result (sheet.new ≡ sheet.old ++ json_tokens (refused_value told.now)) }
{
    sheet.open()?;
    put_count(sheet, "mintcx", 1)?;
    put_word(sheet, "command", told.command)?;
    put_count(sheet, "status", 2)?;
    put_none(sheet, "warnings")?;
    put_refusal(sheet, alloc, told)?;
    sheet.close()
}

/// The object of a refusal: its number and fields as in mintc's own line, what it is, where, and what helps.
pub fn refused_json(alloc: Global, told: &Refused<'_>) -> Result<Bytes, OutOfMemory>
    ensures { IfOk result (IsRefusedObject told.now) }
{
    let mut sheet = Sheet::new(alloc);
    put_refused(&mut sheet, alloc, told)?;
    sheet.into_text()
}
