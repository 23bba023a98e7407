//! What the words of a run give.
#![tactic(auto, using(crate::proofs::WordLaws::getters))]

ghost use Rattle.std.specs.Prelude.{◌≡◌, IfOk, map, option_and_then, string_bytes};
ghost use Rattle.clap.specs.Words.{App, found_of, first_of, kind_of, rows_of, subcommand_rows_of};
ghost use Rattle.mintcx_words.specs.CommandLine.{IsProgram, program_of};
ghost use Rattle.mintcx_requests.specs.Commands.{command_named};
ghost use Rattle.mintcx_words.specs.Given.{chosen_at, edges_at, flag_at, values_at, unit_at, sources_at};
ghost use Rattle.mintcx_words.specs.Given.{manner_at, particulars_at, given_by, given_of};
ghost use Rattle.mintcx_words.specs.Misread.{IsMisread, IsReading};

use crate::command_line::{Choices, make_choices, parse};
use clap::error::ErrorKind;
use clap::parser::ValueSource;
use clap::{ArgMatches, Error};
use mintc_text::{Name, Names, OutOfMemory};
use mintcx_manners::{Color, Detail, Format, TimeUnit};
use mintcx_project::{Edges, Sources};
use mintcx_requests::{Asked, COMMANDS, Given, MannerWords, Particulars};
use std::alloc::Global;

/// Why words gave nothing.
#[derive(Debug, Drop)]
pub enum Misread {
    /// They ask for help or for the version: this is the answer.
    Answer(Name),
    /// They are no command: this says why.
    Wrong(Name),
    /// They name no command; clap lets none through.
    NoCommand,
    /// Memory was wanting.
    OutOfMemory,
}

/// The first value of an option.
fn value_at(alloc: Global, matches: &ArgMatches<'_>, id: &str) -> Result<Option<Name>, OutOfMemory>
    ensures { IfOk result (λ v. v ≡ first_of id.now (rows_of (found_of matches.now))) }
{
    match matches.get_str(id) {
        Some(text) => Ok(Some(Name::new(alloc, text.as_bytes())?)),
        None => Ok(None),
    }
}

/// Texts as names.
fn names_of(alloc: Global, texts: &[&str]) -> Result<Names, OutOfMemory>
    ensures { IfOk result (λ v. v ≡ map (λ t. t.now) texts.now) }
{
    let mut names = Vec::new(alloc);
    for text in texts {
        names.push(Name::new(alloc, text.as_bytes())?)?;
    }
    Ok(Names::new(names))
}

/// All values of an option.
fn values_at(alloc: Global, matches: &ArgMatches<'_>, id: &str) -> Result<Names, OutOfMemory>
    ensures { IfOk result (λ v. v ≡ values_at (rows_of (found_of matches.now)) id.now) }
{
    match matches.get_raw(id) {
        Some(texts) => names_of(alloc, texts),
        None => Ok(Names::new(Vec::new(alloc))),
    }
}

/// Whether a flag is set.
fn flag_at(matches: &ArgMatches<'_>, id: &str) -> bool
    ensures { result ≡ flag_at (rows_of (found_of matches.now)) id.now }
{
    match matches.get_str(id) {
        Some(text) => text == "true",
        None => false,
    }
}

/// The value of an option that always has one, empty where it has none.
fn chosen_at<'a>(matches: &ArgMatches<'a>, id: &str) -> &'a str
    ensures { result.now ≡ chosen_at (rows_of (found_of matches.now)) id.now }
{
    match matches.get_str(id) {
        Some(text) => text,
        None => "",
    }
}

/// The unit that the words name.
fn unit_at(matches: &ArgMatches<'_>) -> Option<TimeUnit>
    ensures { result ≡ unit_at (rows_of (found_of matches.now)) }
{
    match matches.value_source("unit") {
        Some(ValueSource::CommandLine) => Some(TimeUnit::of(chosen_at(matches, "unit").as_bytes())),
        _ => None,
    }
}

/// What the words say of edges.
fn edges_at(matches: &ArgMatches<'_>) -> Option<Edges>
    ensures { result ≡ edges_at (rows_of (found_of matches.now)) }
{
    match matches.value_source("edges") {
        Some(ValueSource::CommandLine) => Some(Edges::of(chosen_at(matches, "edges").as_bytes())),
        _ => None,
    }
}

/// The parts of a design that the words name.
fn sources_at(alloc: Global, matches: &ArgMatches<'_>) -> Result<Sources, OutOfMemory>
    ensures { IfOk result (λ s. s ≡ sources_at (rows_of (found_of matches.now))) }
{
    Ok(Sources {
        netlist: value_at(alloc, matches, "netlist")?,
        delays: values_at(alloc, matches, "sdf")?,
        cells: value_at(alloc, matches, "cells")?,
        library: value_at(alloc, matches, "lib")?,
        clock_cells: values_at(alloc, matches, "clock-cell")?,
        clock: value_at(alloc, matches, "clock")?,
        table: value_at(alloc, matches, "table")?,
        edges: edges_at(matches),
    })
}

/// How the words say that the answer is given.
fn manner_at(alloc: Global, matches: &ArgMatches<'_>) -> Result<MannerWords, OutOfMemory>
    ensures { IfOk result (λ m. m ≡ manner_at (rows_of (found_of matches.now))) }
{
    Ok(MannerWords {
        format: Format::of(chosen_at(matches, "format").as_bytes()),
        unit: unit_at(matches),
        limit: value_at(alloc, matches, "limit")?,
        output: value_at(alloc, matches, "output")?,
        quiet: flag_at(matches, "quiet"),
        detail: Detail::of(chosen_at(matches, "errors").as_bytes()),
        color: Color::of(chosen_at(matches, "color").as_bytes()),
    })
}

/// What the words tell a command alone.
fn particulars_at(alloc: Global, matches: &ArgMatches<'_>) -> Result<Particulars, OutOfMemory>
    ensures { IfOk result (λ p. p ≡ particulars_at (rows_of (found_of matches.now))) }
{
    Ok(Particulars {
        subject: value_at(alloc, matches, "subject")?,
        certificate: value_at(alloc, matches, "certificate")?,
        cycle: value_at(alloc, matches, "cycle")?,
        histogram: flag_at(matches, "histogram"),
    })
}

/// What the matches of a command give.
fn given_by(alloc: Global, asked: Asked, matches: &ArgMatches<'_>) -> Result<Given, OutOfMemory>
    ensures { IfOk result (λ g. g ≡ given_by (rows_of (found_of matches.now)) asked) }
{
    Ok(Given {
        asked,
        particulars: particulars_at(alloc, matches)?,
        project: value_at(alloc, matches, "project")?,
        sources: sources_at(alloc, matches)?,
        clamp: flag_at(matches, "clamp-negative"),
        manner: manner_at(alloc, matches)?,
    })
}

/// The command of a word.
fn command_named(name: &str) -> Option<Asked>
    ensures { result ≡ command_named name.now }
{
    for asked in COMMANDS {
        if asked.word() == name {
            return Some(asked);
        }
    }
    None
}

/// What the matches of the program give: None where they have no command.
fn given_in(alloc: Global, matches: &ArgMatches<'_>) -> Result<Option<Given>, OutOfMemory>
    ensures { IfOk result (λ g. g ≡ option_and_then given_of (subcommand_rows_of matches.now)) }
{
    let Some((name, inner)) = matches.subcommand() else {
        return Ok(None);
    };
    match command_named(name) {
        Some(asked) => Ok(Some(given_by(alloc, asked, inner)?)),
        None => Ok(None),
    }
}

/// Why words gave no matches, as clap says it.
fn misread_by(alloc: Global, error: &Error) -> Misread
    ensures { IsMisread (kind_of error.now) result }
{
    let said = match format!(in alloc; "{error}") {
        Ok(text) => Name::new(alloc, text.as_bytes()),
        Err(_) => Err(OutOfMemory),
    };
    match said {
        Ok(text) => match error.kind() {
            ErrorKind::OutOfMemory => Misread::OutOfMemory,
            ErrorKind::DisplayHelp | ErrorKind::DisplayVersion => Misread::Answer(text),
            _ => Misread::Wrong(text),
        },
        Err(_) => Misread::OutOfMemory,
    }
}

/// What the words of a run give, where options take the words of these lists.
fn read_by<'a>(alloc: Global, choices: Choices<'a>, words: &'a [String]) -> Result<Given, Misread>
    ensures { IsReading (program_of choices.entry) (map string_bytes words.entry.now) result }
{
    let matches = match parse(alloc, choices, words) {
        Ok(matches) => matches,
        Err(error) => return Err(misread_by(alloc, &error)),
    };
    match given_in(alloc, &matches) {
        Ok(Some(given)) => Ok(given),
        Ok(None) => Err(Misread::NoCommand),
        Err(OutOfMemory) => Err(Misread::OutOfMemory),
    }
}

/// What the words of a run give, of which the first is the program's own name.
pub fn read_words(alloc: Global, words: &[String]) -> Result<Given, Misread>
    ensures { (a : App) × IsProgram a × IsReading a (map string_bytes words.now) result }
{
    read_by(alloc, make_choices(), words)
}
