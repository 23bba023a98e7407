//! The project file.
ghost use Rattle.std.specs.Prelude.{◌≡◌, ◌≤◌, IfOk, OnOk, MatchResult, map, length, option_map, bytes_eq, codes};
ghost use Rattle.std.specs.List.{list_any};
ghost use Rattle.toml.specs.Data.{get_member, no_members};
ghost use Rattle.toml.specs.View.{table_view};
ghost use Rattle.mintcx_manners.specs.Manners.{unit_of};
ghost use Rattle.mintcx_project.specs.Edges.{edges_of};
ghost use Rattle.mintcx_project.specs.Projects.{stray_fault, value_fault, text_fault, design_fault, answer_fault};
ghost use Rattle.mintcx_project.specs.Projects.{edges_fault, names_fault};
ghost use Rattle.mintcx_project.specs.Projects.{project_fault, is_table_in, text_at, table_at, folder_len, beside};
ghost use Rattle.mintcx_project.specs.Projects.{path_at, delays_in, with_paths, with_lists, no_sources, sources_in};
ghost use Rattle.mintcx_project.specs.Projects.{settings_of, Settles, IsTomlFault, Says, IsFaultOf, no_settings};

use crate::edges::Edges;
use crate::sources::Sources;
use mintc_text::{Name, Names, OutOfMemory};
use mintc_toml::{are_names, is_one_of, is_text, member, names};
use mintcx_manners::TimeUnit;
use std::alloc::{AllocFailed, Global};
use toml::Table;

/// The keys of the table of the design.
const DESIGN_KEYS: [&str; 8] = [
    "netlist",
    "sdf",
    "cells",
    "lib",
    "clock-cells",
    "clock",
    "table",
    "edges",
];

/// The units.
const UNITS: [&str; 4] = ["auto", "fs", "ps", "ns"];

/// What is said of edges.
const EDGES: [&str; 2] = ["merged", "apart"];

/// What a project file says.
#[derive(Debug, Drop)]
pub struct Settings {
    pub sources: Sources,
    pub unit: Option<TimeUnit>,
}

/// Why a project file says nothing.
#[derive(Debug, Drop)]
pub enum ProjectFault {
    /// It is no TOML: this says where, and what.
    NoToml(Name),
    /// It has this key, which no project file has.
    NoKey(Name),
    /// The value at this key is none that it takes.
    BadValue(Name),
    /// Memory was wanting.
    OutOfMemory,
}

impl From<OutOfMemory> for ProjectFault {
    ghost use Rattle.std.specs.Prelude.{◌≡◌};
    ghost use Rattle.mintcx_project.specs.declared.project.ProjectFault.TheVariants as fault;

    ghost from_gives = { λ _ e. e ≡ fault.OutOfMemory };

    fn from(_: OutOfMemory) -> Self {
        ProjectFault::OutOfMemory
    }
}

impl<T: Drop> From<AllocFailed<T>> for ProjectFault {
    ghost use Rattle.std.specs.Prelude.{◌≡◌};
    ghost use Rattle.mintcx_project.specs.declared.project.ProjectFault.TheVariants as fault;

    ghost from_gives = { λ _ e. e ≡ fault.OutOfMemory };

    fn from(_: AllocFailed<T>) -> Self {
        ProjectFault::OutOfMemory
    }
}

/// How many bytes of a path name its folder: those up to the last slash.
#[tactic(auto, using(crate::proofs::FolderLaws::slash_at, crate::proofs::FolderLaws::other_at))]
fn folder_len(path: &[u8]) -> usize
    ensures value { result ≡ folder_len path.now }
    ensures within { result ≤ length path.now }
{
    let mut len = path.len();
    while len > 0 {
        if path[len - 1] == b'/' {
            return len;
        }
        len -= 1;
    }
    0
}

/// A path that a project file names: from the file's folder, but for one that begins with a slash.
fn beside(alloc: Global, project: &[u8], path: &[u8]) -> Result<Name, OutOfMemory>
    ensures { IfOk result (λ name. name ≡ beside project.now path.now) }
{
    if path.first() == Some(&b'/') {
        return Name::new(alloc, path);
    }
    let mut bytes = Vec::from_slice(alloc, &project[..folder_len(project)])?;
    bytes.extend_from_slice(path)?;
    Name::new(alloc, &bytes)
}

/// Whether a key is one of these.
fn is_among(key: &str, keys: &[&str]) -> bool
    ensures { result ≡ list_any (bytes_eq key.now) (map (λ k. k.now) keys.now) }
{
    for known in keys {
        if key == *known {
            return true;
        }
    }
    false
}

/// Refuses the first key of a table that is none of these.
fn check_keys(alloc: Global, table: &Table, keys: &[&str]) -> Result<(), ProjectFault>
    ensures { Settles (stray_fault (map (λ k. k.now) keys.now) (table_view table.now)) result }
{
    for (key, _) in table.iter() {
        if !is_among(key.as_str(), keys) {
            return Err(ProjectFault::NoKey(Name::new(alloc, key.as_bytes())?));
        }
    }
    Ok(())
}

/// Refuses the value at a key.
fn check_value(alloc: Global, is_good: bool, key: &str) -> Result<(), ProjectFault>
    ensures { Settles (value_fault is_good key.now) result }
{
    if is_good {
        return Ok(());
    }
    Err(ProjectFault::BadValue(Name::new(alloc, key.as_bytes())?))
}

/// Whether a key holds a table, or is absent.
fn is_table(document: &Table, key: &str) -> bool
    ensures { result ≡ is_table_in (get_member key.now (table_view document.now)) }
{
    match member(document, key) {
        Some(value) => value.is_table(),
        None => true,
    }
}

/// The table at a key, or another one.
fn table_at<'a>(document: &'a Table, key: &str, empty: &'a Table) -> &'a Table
    requires { table_view empty.now ≡ no_members }
    ensures { table_view result.now ≡ table_at key.now (table_view document.entry.now) }
{
    match member(document, key) {
        Some(value) => match value.as_table() {
            Some(table) => table,
            None => empty,
        },
        None => empty,
    }
}

/// Refuses a key that holds no text.
fn check_text(alloc: Global, table: &Table, key: &str) -> Result<(), ProjectFault>
    ensures { Settles (text_fault key.now (table_view table.now)) result }
{
    check_value(alloc, is_text(table, key, true), key)
}

/// Refuses what the table of the design may not name.
fn check_names(alloc: Global, table: &Table) -> Result<(), ProjectFault>
    ensures { Settles (names_fault (table_view table.now)) result }
{
    check_keys(alloc, table, &DESIGN_KEYS)?;
    check_text(alloc, table, "netlist")?;
    let are_delays = is_text(table, "sdf", true) || are_names(table, "sdf", true);
    check_value(alloc, are_delays, "sdf")?;
    check_text(alloc, table, "cells")?;
    check_text(alloc, table, "lib")?;
    check_value(alloc, are_names(table, "clock-cells", true), "clock-cells")?;
    check_text(alloc, table, "clock")?;
    check_text(alloc, table, "table")
}

/// Refuses what is no word for edges.
fn check_edges(alloc: Global, table: &Table) -> Result<(), ProjectFault>
    ensures { Settles (edges_fault (table_view table.now)) result }
{
    check_value(alloc, is_one_of(table, "edges", &EDGES, "merged"), "edges")
}

/// Refuses what the table of the design may not hold.
fn check_design(alloc: Global, table: &Table) -> Result<(), ProjectFault>
    ensures { Settles (design_fault (table_view table.now)) result }
{
    check_names(alloc, table)?;
    check_edges(alloc, table)
}

/// Refuses what the table of the answer may not hold.
fn check_answer(alloc: Global, table: &Table) -> Result<(), ProjectFault>
    ensures { Settles (answer_fault (table_view table.now)) result }
{
    check_keys(alloc, table, &["unit"])?;
    check_value(alloc, is_one_of(table, "unit", &UNITS, "auto"), "unit")
}

/// The path at a key, from the project file's folder.
fn path_at(
    alloc: Global,
    project: &[u8],
    table: &Table,
    key: &str,
) -> Result<Option<Name>, OutOfMemory>
    ensures { IfOk result (λ p. p ≡ path_at project.now key.now (table_view table.now)) }
{
    match member(table, key) {
        Some(value) => match value.as_str() {
            Some(text) => Ok(Some(beside(alloc, project, text.as_bytes())?)),
            None => Ok(None),
        },
        None => Ok(None),
    }
}

/// Paths from the project file's folder.
fn all_beside(alloc: Global, project: &[u8], paths: &[Name]) -> Result<Names, OutOfMemory>
    ensures { IfOk result (λ p. p ≡ map (beside project.now) paths.now) }
{
    let mut names = Vec::new(alloc);
    for path in paths {
        names.push(beside(alloc, project, path.bytes())?)?;
    }
    Ok(Names::new(names))
}

/// The delay files, as they are written.
fn delays_in(alloc: Global, table: &Table) -> Result<Names, OutOfMemory>
    ensures { IfOk result (λ d. d ≡ delays_in (get_member (codes "sdf") (table_view table.now))) }
{
    match member(table, "sdf") {
        Some(value) => match value.as_str() {
            Some(text) => Ok(Names::new(vec![in alloc; Name::new(alloc, text.as_bytes())?]?)),
            None => names(alloc, table, "sdf"),
        },
        None => Ok(Names::new(Vec::new(alloc))),
    }
}

/// Puts in the paths that a table names, each once.
fn put_paths(
    alloc: Global,
    project: &[u8],
    table: &Table,
    sources: &mut Sources,
) -> Result<(), OutOfMemory>
    ensures { OnOk result (sources.new ≡ with_paths project.now (table_view table.now) sources.old) }
{
    sources.netlist = path_at(alloc, project, table, "netlist")?;
    sources.cells = path_at(alloc, project, table, "cells")?;
    sources.library = path_at(alloc, project, table, "lib")?;
    sources.clock = path_at(alloc, project, table, "clock")?;
    sources.table = path_at(alloc, project, table, "table")?;
    Ok(())
}

/// Puts in the names of which a table may have several.
fn put_lists(
    alloc: Global,
    project: &[u8],
    table: &Table,
    sources: &mut Sources,
) -> Result<(), OutOfMemory>
    ensures { OnOk result (sources.new ≡ with_lists project.now (table_view table.now) sources.old) }
{
    let delays = delays_in(alloc, table)?;
    sources.delays = all_beside(alloc, project, delays.items())?;
    sources.clock_cells = names(alloc, table, "clock-cells")?;
    Ok(())
}

/// No part of a design.
fn no_sources(alloc: Global) -> Sources
    ensures { result ≡ no_sources }
{
    Sources {
        netlist: None,
        delays: Names::new(Vec::new(alloc)),
        cells: None,
        library: None,
        clock_cells: Names::new(Vec::new(alloc)),
        clock: None,
        table: None,
        edges: None,
    }
}

/// What a table says of edges.
fn edges_in(table: &Table) -> Option<Edges>
    ensures { result ≡ option_map edges_of (text_at (codes "edges") (table_view table.now)) }
{
    match member(table, "edges") {
        Some(value) => match value.as_str() {
            Some(text) => Some(Edges::of(text.as_bytes())),
            None => None,
        },
        None => None,
    }
}

/// The parts of a design that a table names.
fn sources_in(alloc: Global, project: &[u8], table: &Table) -> Result<Sources, OutOfMemory>
    ensures { IfOk result (λ s. s ≡ sources_in project.now (table_view table.now)) }
{
    let mut sources = no_sources(alloc);
    put_paths(alloc, project, table, &mut sources)?;
    put_lists(alloc, project, table, &mut sources)?;
    sources.edges = edges_in(table);
    Ok(sources)
}

/// The unit that a table names.
fn unit_in(table: &Table) -> Option<TimeUnit>
    ensures { result ≡ option_map unit_of (text_at (codes "unit") (table_view table.now)) }
{
    match member(table, "unit") {
        Some(value) => match value.as_str() {
            Some(text) => Some(TimeUnit::of(text.as_bytes())),
            None => None,
        },
        None => None,
    }
}

/// What a document says.
fn read_settings(alloc: Global, project: &[u8], document: &Table) -> Result<Settings, ProjectFault>
    ensures value { IfOk result (λ s. s ≡ settings_of project.now (table_view document.now)) }
    ensures fault { Settles (project_fault (table_view document.now)) result }
{
    check_keys(alloc, document, &["design", "answer"])?;
    check_value(alloc, is_table(document, "design"), "design")?;
    check_value(alloc, is_table(document, "answer"), "answer")?;
    let empty = Table::new(alloc);
    let design = table_at(document, "design", &empty);
    let answer = table_at(document, "answer", &empty);
    check_design(alloc, design)?;
    check_answer(alloc, answer)?;
    Ok(Settings {
        sources: sources_in(alloc, project, design)?,
        unit: unit_in(answer),
    })
}

/// What the reader of TOML says of a text.
fn no_toml(alloc: Global, error: &toml::de::Error) -> ProjectFault
    ensures { IsTomlFault error.now result }
{
    let said = match format!(in alloc; "{error}") {
        Ok(text) => Name::new(alloc, text.as_bytes()),
        Err(_) => Err(OutOfMemory),
    };
    match said {
        Ok(text) => {
            if error.is_memory() {
                ProjectFault::OutOfMemory
            } else {
                ProjectFault::NoToml(text)
            }
        }
        Err(_) => ProjectFault::OutOfMemory,
    }
}

/// What the project file of that path says, by its text. Its paths are taken from its folder.
pub fn read_project(alloc: Global, path: &[u8], text: &[u8]) -> Result<Settings, ProjectFault>
    ensures { MatchResult result (Says path.now text.now) (IsFaultOf text.now) }
{
    match toml::table_from_slice(alloc, text) {
        Ok(document) => read_settings(alloc, path, &document),
        Err(error) => Err(no_toml(alloc, &error)),
    }
}

/// What stands where there is no project file.
pub fn no_project(alloc: Global) -> Settings
    ensures { result ≡ no_settings }
{
    Settings {
        sources: no_sources(alloc),
        unit: None,
    }
}
