//! Words without a project file, and the requests that they are.

use crate::shown;
use mintcx_project::no_project;
use mintcx_requests::request_of;
use mintcx_words::read_words;
use std::alloc::Global;
use std::process::Abort;
use std::test::Fail;

/// Words, and the request or the message.
const ROWS: &[(&str, &str)] = &[
    (
        "mintcx check own.schedule --table loop.table --unit ns",
        "check own.schedule; table loop.table; false; Text Ns 10 - false Full Auto",
    ),
    (
        "mintcx slack --netlist top.v --sdf top.sdf --lib osu035.lib --clock-cell INVX8 --clock clock.toml --limit 20",
        "slack false; top.v sdf top.sdf lib osu035.lib INVX8 clock.toml apart; false; Text Auto 20 - false Full Auto",
    ),
    (
        "mintcx report --table loop.table --limit all",
        "report; table loop.table; false; Text Auto 0 - false Full Auto",
    ),
    (
        "mintcx optimize --table=loop.table --cycle 1400ps -o a.txt -q --color never --errors short --format plain",
        "optimise - 1400000; table loop.table; false; Plain Auto 10 a.txt true Short Never",
    ),
    (
        "mintcx schedule --cycle 1.3ns --table t",
        "schedule - 1300000; table t; false; Text Auto 10 - false Full Auto",
    ),
    (
        "mintcx corners --netlist n.v --sdf hot.sdf --sdf cold.sdf --cells c.toml --clock k.toml --clamp-negative",
        "corners; n.v sdf hot.sdf cold.sdf cells c.toml k.toml; true; Text Auto 10 - false Full Auto",
    ),
    (
        "mintcx draw --slack --table t",
        "draw - true; table t; false; Text Auto 10 - false Full Auto",
    ),
    (
        "mintcx sdc ring.cert --table t --unit ps",
        "sdc ring.cert; table t; false; Text Ps 10 - false Full Auto",
    ),
    (
        "mintcx table --netlist n.v --sdf d.sdf --lib c.lib --clock k.toml --clamp-negative -o n.table",
        "table; n.v sdf d.sdf lib c.lib k.toml apart; true; Text Auto 10 n.table false Full Auto",
    ),
    (
        "mintcx table --netlist n.v --sdf d.sdf --lib c.lib --clock k.toml --edges merged",
        "table; n.v sdf d.sdf lib c.lib k.toml; false; Text Auto 10 - false Full Auto",
    ),
    (
        "mintcx table --netlist n.v --sdf d.sdf --cells c.toml --clock k.toml",
        "table; n.v sdf d.sdf cells c.toml k.toml; false; Text Auto 10 - false Full Auto",
    ),
    (
        "mintcx table --netlist n.v --sdf d.sdf --cells c.toml --clock k.toml --edges apart",
        "table; n.v sdf d.sdf cells c.toml k.toml apart; false; Text Auto 10 - false Full Auto",
    ),
    (
        "mintcx corners --netlist n.v --sdf hot.sdf --sdf cold.sdf --lib c.lib --clock k.toml",
        "corners; n.v sdf hot.sdf cold.sdf lib c.lib k.toml; false; Text Auto 10 - false Full Auto",
    ),
    (
        "mintcx corners --netlist n.v --sdf hot.sdf --sdf cold.sdf --cells c.toml --clock k.toml --edges merged",
        "corners; n.v sdf hot.sdf cold.sdf cells c.toml k.toml; false; Text Auto 10 - false Full Auto",
    ),
    (
        "mintcx corners --netlist n.v --sdf hot.sdf --sdf cold.sdf --cells c.toml --clock k.toml --edges apart",
        "'--edges apart' is of one delay file; give '--edges merged' for corners",
    ),
    (
        "mintcx safe --table t --edges apart",
        "'--edges apart' is of four files, and a table is named: its edges are as they are",
    ),
    (
        "mintcx safe --table t --edges merged",
        "safe; table t; false; Text Auto 10 - false Full Auto",
    ),
    ("mintcx explain same-phase", "explain same-phase"),
    (
        "mintcx safe",
        "no design is named: name one table or four files, by options or in mintc.toml",
    ),
    (
        "mintcx safe --table t --lib x.lib",
        "a table stands in place of the four files, and both are named",
    ),
    (
        "mintcx safe --table t --clock-cell X",
        "a table stands in place of the four files, and both are named",
    ),
    (
        "mintcx safe --cells c --lib x.lib",
        "the cells are of '--cells' or of '--lib', and both are named",
    ),
    (
        "mintcx safe --cells c --clock-cell X",
        "'--clock-cell' names a gate of a library, and goes with '--lib' alone",
    ),
    (
        "mintcx safe --cells c",
        "the netlist isn't named ('--netlist')",
    ),
    (
        "mintcx safe --netlist n",
        "the cells aren't named ('--cells' or '--lib')",
    ),
    (
        "mintcx safe --netlist n --cells c",
        "the delays aren't named ('--sdf')",
    ),
    (
        "mintcx safe --netlist n --cells c --sdf d",
        "the clock isn't named ('--clock')",
    ),
    (
        "mintcx corners --netlist n --cells c --sdf d --clock k",
        "corners take two to four delay files, not 1",
    ),
    (
        "mintcx optimise --table t --certificate c --cycle 1ps",
        "'--certificate' goes without '--cycle': a certificate is of the least cycle time",
    ),
    (
        "mintcx schedule c --cycle 1ps --table t",
        "a schedule is of a certificate or of '--cycle', not of both",
    ),
    (
        "mintcx draw c --slack --table t",
        "'--slack' goes without a file",
    ),
    (
        "mintcx optimise --table t --cycle 1.5fs",
        "'1.5fs' is no cycle time: a number and fs, ps or ns, whole femtoseconds from 1 fs to 1 us",
    ),
    (
        "mintcx optimise --table t --cycle 1400",
        "'1400' is no cycle time: a number and fs, ps or ns, whole femtoseconds from 1 fs to 1 us",
    ),
    (
        "mintcx report --table t --limit few",
        "'few' is no limit: a number up to 1000000000, or all",
    ),
];

/// What words are without a project file.
fn answered(alloc: Global, line: &str) -> Result<String, Fail> {
    let words = shown::words_of(alloc, line)?;
    let given = match read_words(alloc, &words) {
        Ok(given) => given,
        Err(_) => return Ok(String::from_str(alloc, "misread")?),
    };
    match request_of(given, no_project(alloc)) {
        Ok(request) => shown::request(alloc, &request),
        Err(fault) => Ok(format!(in alloc; "{fault}")?),
    }
}

/// Tries one row.
fn is_request(rt: &impl Abort, alloc: Global, row: &(&str, &str)) -> Result<(), Fail> {
    let found = answered(alloc, row.0)?;
    assert!(rt; found.as_str() == row.1, "{}: {}", row.0, found);
    Ok(())
}

#[test]
fn words_are_requests(rt: HostRuntime) -> Result<(), Fail> {
    for row in ROWS {
        is_request(&rt, rt.alloc(), row)?;
    }
    Ok(())
}
