//! Words with a project file, and the requests that they are.

use crate::shown;
use mintcx_project::read_project;
use mintcx_requests::request_of;
use mintcx_words::read_words;
use std::alloc::Global;
use std::process::Abort;
use std::test::Fail;

/// A project file of four files.
const FILES: &str =
    "[design]\nnetlist = \"netlist.v\"\nsdf = \"delays.sdf\"\nlib = \"osu035.lib\"\nclock-cells = [\"INVX8\"]\
     \nclock = \"/k/clock.toml\"\n[answer]\nunit = \"ps\"\n";

/// A project file of corners.
const CORNERS: &str =
    "[design]\nnetlist = \"n.v\"\nsdf = [\"hot.sdf\", \"cold.sdf\"]\ncells = \"c.toml\"\nclock = \"k.toml\"\n";

/// A project file with edges apart.
const EDGES: &str =
    "[design]\nnetlist = \"n.v\"\nsdf = \"d.sdf\"\ncells = \"c.toml\"\nclock = \"k.toml\"\nedges = \"apart\"\n";

/// A project file with edges merged.
const MERGED: &str =
    "[design]\nnetlist = \"n.v\"\nsdf = \"d.sdf\"\nclock = \"k.toml\"\nedges = \"merged\"\n";

/// Words, the project file's path and text, and the request or the message.
const ROWS: &[(&str, &str, &str, &str)] = &[
    (
        "mintcx optimise",
        "mintc.toml",
        FILES,
        "optimise - 0; netlist.v sdf delays.sdf lib osu035.lib INVX8 /k/clock.toml apart; false; Text Ps 10 - false \
         Full Auto",
    ),
    (
        "mintcx optimise -p chip/mintc.toml --unit auto --sdf other.sdf",
        "chip/mintc.toml",
        FILES,
        "optimise - 0; chip/netlist.v sdf other.sdf lib chip/osu035.lib INVX8 /k/clock.toml apart; false; Text Auto \
         10 - false Full Auto",
    ),
    (
        "mintcx optimise --cells c.toml",
        "a/b/mintc.toml",
        FILES,
        "optimise - 0; a/b/netlist.v sdf a/b/delays.sdf cells c.toml /k/clock.toml; false; Text Ps 10 - false Full \
         Auto",
    ),
    (
        "mintcx optimise --table t",
        "mintc.toml",
        FILES,
        "optimise - 0; table t; false; Text Ps 10 - false Full Auto",
    ),
    (
        "mintcx safe",
        "mintc.toml",
        EDGES,
        "safe; n.v sdf d.sdf cells c.toml k.toml apart; false; Text Auto 10 - false Full Auto",
    ),
    (
        "mintcx safe --edges merged",
        "mintc.toml",
        EDGES,
        "safe; n.v sdf d.sdf cells c.toml k.toml; false; Text Auto 10 - false Full Auto",
    ),
    (
        "mintcx safe --lib c.lib",
        "mintc.toml",
        MERGED,
        "safe; n.v sdf d.sdf lib c.lib k.toml; false; Text Auto 10 - false Full Auto",
    ),
    (
        "mintcx safe --table t",
        "mintc.toml",
        EDGES,
        "safe; table t; false; Text Auto 10 - false Full Auto",
    ),
    (
        "mintcx corners",
        "mintc.toml",
        CORNERS,
        "corners; n.v sdf hot.sdf cold.sdf cells c.toml k.toml; false; Text Auto 10 - false Full Auto",
    ),
    (
        "mintcx safe",
        "mintc.toml",
        CORNERS,
        "2 delay files are named, and this command takes one",
    ),
    (
        "mintcx safe",
        "x/mintc.toml",
        "[design]\ntable = \"loop.table\"\n",
        "safe; table x/loop.table; false; Text Auto 10 - false Full Auto",
    ),
    (
        "mintcx corners",
        "mintc.toml",
        "[design]\ntable = \"loop.table\"\n",
        "corners are of four files, and a table is named",
    ),
    (
        "mintcx safe",
        "mintc.toml",
        "[desing]\n",
        "`desing` is no key here",
    ),
    (
        "mintcx safe",
        "mintc.toml",
        "[design]\nnetlst = \"n\"\n",
        "`netlst` is no key here",
    ),
    (
        "mintcx safe",
        "mintc.toml",
        "[design]\nnetlist = 1\n",
        "`netlist` doesn't take this value",
    ),
    (
        "mintcx safe",
        "mintc.toml",
        "[answer]\nunit = \"us\"\n",
        "`unit` doesn't take this value",
    ),
];

/// What words are with a project file.
fn answered(alloc: Global, line: &str, path: &str, text: &str) -> Result<String, Fail> {
    let words = shown::words_of(alloc, line)?;
    let given = match read_words(alloc, &words) {
        Ok(given) => given,
        Err(_) => return Ok(String::from_str(alloc, "misread")?),
    };
    let settings = match read_project(alloc, path.as_bytes(), text.as_bytes()) {
        Ok(settings) => settings,
        Err(fault) => return Ok(format!(in alloc; "{fault}")?),
    };
    match request_of(given, settings) {
        Ok(request) => shown::request(alloc, &request),
        Err(fault) => Ok(format!(in alloc; "{fault}")?),
    }
}

/// Tries one row.
fn is_request(rt: &impl Abort, alloc: Global, row: &(&str, &str, &str, &str)) -> Result<(), Fail> {
    let found = answered(alloc, row.0, row.1, row.2)?;
    assert!(rt; found.as_str() == row.3, "{}: {}", row.0, found);
    Ok(())
}

#[test]
fn words_and_a_project_are_requests(rt: HostRuntime) -> Result<(), Fail> {
    for row in ROWS {
        is_request(&rt, rt.alloc(), row)?;
    }
    Ok(())
}
