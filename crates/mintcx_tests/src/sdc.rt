//! The texts of worked designs, and what is said of obstacles.
ghost use Rattle.std.specs.Prelude.{IfOk, IfSome};
ghost use Rattle.mintc_clock.specs.Laws.{KeepsLimits};
ghost use Rattle.mintc_timing.specs.Limits.{IsInRange};

use mintc_clock::{Clock, clocks_keep_limits, read_clock};
use mintc_text::limits::MOST_BYTES;
use mintc_text::{Limits, Name, OutOfMemory};
use mintc_timing::Schedule;
use mintc_timing_text::{read_schedule, read_table};
use mintcx_sdc::{Titles, clock_by_names, obstacle_of, sdc_text};
use std::alloc::Global;
use std::process::Abort;

const RING: &str = r#"
top = "ring"
phase = [{ name = "phi1", port = "phi1" }, { name = "phi2", port = "phi2" }]
input = [{ port = "x", phase = "phi2", min = 200_000, max = 400_000 }]
output = [{ port = "y", phase = "phi1", setup = 300_000 }]
"#;

const RING_SCHEDULE: &str = "schedule 1
den 1
cycle 1307500
phases 2
phase 0 384500
phase 384500 440000
end
";

const RING_TEXT: &str = "# mintcx 0.1.0: clocks of ring from ring.cert, a cycle of 1307500 fs
# All numbers are in ns, exactly; read this where the library's time unit is 1 ns.
set_units -time ns
create_clock -name {phi1} -period 1.3075 -waveform {0 0.3845} [get_ports {phi1}]
create_clock -name {phi2} -period 1.3075 -waveform {0.3845 0.8245} [get_ports {phi2}]
set_input_delay -clock {phi2} -min 0.2 [get_ports {x}]
set_input_delay -clock {phi2} -max 0.4 [get_ports {x}]
set_output_delay -clock {phi1} -clock_fall -max 0.3 [get_ports {y}]
";

/// A clock whose phase `q` is active while the port of `p` is low.
const LEVELS: &str = r#"
phase = [{ name = "q", port = "clk", level = "low" }, { name = "p", port = "clk" }]
input = [{ port = "a[0]", phase = "q", min = 10_000 }]
output = [{ port = "b", phase = "q", setup = 20_000, hold = 5_000 }]
"#;

const LEVELS_TEXT: &str = "# mintcx 0.1.0: clocks of ring from ring.cert, a cycle of 1000000 fs
# All numbers are in ns, exactly; read this where the library's time unit is 1 ns.
set_units -time ns
create_clock -name {p} -period 1 -waveform {0.7 1.1} [get_ports {clk}]
set_input_delay -clock {p} -clock_fall -min 0.01 [get_ports {a[0]}]
set_input_delay -clock {p} -clock_fall -max 0.01 [get_ports {a[0]}]
set_output_delay -clock {p} -min -0.005 [get_ports {b}]
set_output_delay -clock {p} -max 0.02 [get_ports {b}]
";

/// A clock of one phase, which is active while its port is low.
const LOW: &str = r#"
phase = [{ name = "q", port = "clk", level = "low" }]
"#;

const LOW_TEXT: &str = "# mintcx 0.1.0: clocks of ring from ring.cert, a cycle of 1000000 fs
# All numbers are in ns, exactly; read this where the library's time unit is 1 ns.
set_units -time ns
create_clock -name {q} -period 1 -waveform {0.4 1} [get_ports {clk}]
";

const ODD_NAME: &str = r#"
phase = [{ name = "p*", port = "clk" }]
"#;

const ODD_PORT: &str = r#"
phase = [{ name = "p", port = "c{k" }]
"#;

const ODD_INPUT: &str = r#"
phase = [{ name = "p", port = "clk" }]
input = [{ port = "a", phase = "p" }, { port = "b\\c", phase = "p" }]
"#;

const ODD_OUTPUT: &str = r#"
phase = [{ name = "p", port = "clk" }]
output = [{ port = "a?", phase = "p" }]
"#;

/// A schedule of one phase.
const ONE: &str = "schedule 1\nden 1\ncycle 1000000\nphases 1\nphase 1000000 400000\nend\n";

/// A clock, a schedule, and the text or the obstacle.
type Row = (&'static str, &'static str, &'static str);

const ROWS: &[Row] = &[
    (RING, RING_SCHEDULE, RING_TEXT),
    (
        LEVELS,
        "schedule 1\nden 1\ncycle 1000000\nphases 2\nphase 100000 600000\nphase 700000 400000\nend\n",
        LEVELS_TEXT,
    ),
    (LOW, ONE, LOW_TEXT),
    (
        LOW,
        "schedule 1\nden 2\ncycle 3\nphases 1\nphase 0 1\nend\n",
        "its times are over the denominator 2; `mintcx schedule --cycle` gives whole femtoseconds",
    ),
    (
        LOW,
        "schedule 1\nden 1\ncycle 0\nphases 1\nphase 0 0\nend\n",
        "its cycle time is 0",
    ),
    (
        LOW,
        "schedule 1\nden 1\ncycle 10\nphases 1\nphase 12 3\nend\n",
        "phase 1 starts 2 fs after the cycle ends",
    ),
    (
        LOW,
        "schedule 1\nden 1\ncycle 10\nphases 1\nphase 0 13\nend\n",
        "phase 1 is 3 fs wider than the cycle",
    ),
    (
        LEVELS,
        "schedule 1\nden 1\ncycle 10\nphases 2\nphase 1 3\nphase 5 4\nend\n",
        "phases 2 and 1 are on the levels of one port, and aren't each other's complement: \
         phase 2 is from 5 to 9 fs, and phase 1 from 1 to 4 fs",
    ),
    (
        ODD_NAME,
        ONE,
        "the name of phase 1 has a byte of `*?\\{}`, which Tcl reads otherwise",
    ),
    (
        ODD_PORT,
        ONE,
        "the port of phase 1 has a byte of `*?\\{}`, which Tcl reads otherwise",
    ),
    (
        ODD_INPUT,
        ONE,
        "listed input 2 has a byte of `*?\\{}`, which Tcl reads otherwise",
    ),
    (
        ODD_OUTPUT,
        ONE,
        "listed output 1 has a byte of `*?\\{}`, which Tcl reads otherwise",
    ),
];

const TABLE: &str = "table 1
phases 1
phase pulse
elements 0
inner 0
arcs 0
bounds 0
end
";

const TABLE_TEXT: &str = "# mintcx 0.1.0: clocks of ring.table from half.cert, a cycle of 450501 fs
# All numbers are in ns, exactly; read this where the library's time unit is 1 ns.
set_units -time ns
create_clock -name {pulse} -period 0.450501 -waveform {0 0.0905} [get_ports {pulse}]
";

fn titles(alloc: Global, subject: &str, source: &str) -> Result<Titles, OutOfMemory> {
    Ok(Titles {
        subject: Name::new(alloc, subject.as_bytes())?,
        source: Name::new(alloc, source.as_bytes())?,
    })
}

/// Whether this is what is said of a clock and a schedule: the text or the obstacle.
fn is_said(
    alloc: Global,
    clock: &Clock,
    schedule: &Schedule,
    titles: &Titles,
    said: &str,
) -> Result<bool, OutOfMemory>
    requires in_range { IsInRange schedule.now }
    requires limits { KeepsLimits clock.now }
{
    if clock.phases.items().len() != schedule.starts.items().len() {
        return Ok(false);
    }
    match obstacle_of(clock, schedule) {
        Some(obstacle) => Ok(format!(in alloc; "{obstacle}")?.as_str() == said),
        None => {
            let text = sdc_text(alloc, clock, schedule, titles)?;
            Ok(text.items() == said.as_bytes())
        }
    }
}

/// The same of the texts of a clock and a schedule.
fn is_row(alloc: Global, row: &Row) -> Result<bool, OutOfMemory> {
    let (clock, schedule, said) = *row;
    clocks_keep_limits();
    let titles = titles(alloc, "ring", "ring.cert")?;
    let text = clock.as_bytes();
    if text.len() > MOST_BYTES {
        return Ok(false);
    }
    let times = schedule.as_bytes();
    if times.len() > MOST_BYTES {
        return Ok(false);
    }
    match (read_clock(alloc, text), read_schedule(times)) {
        (Ok(clock), Ok(schedule)) => is_said(alloc, &clock, &schedule, &titles, said),
        _ => Ok(false),
    }
}

#[test]
fn texts_and_obstacles_are_as_worked(rt: HostRuntime) -> Result<(), OutOfMemory> {
    for row in ROWS {
        let same = is_row(rt.alloc(), row)?;
        assert!(rt; same, "{}", row.2);
    }
    Ok(())
}

/// The clock of a table's design, where the text has one.
fn table_clock(alloc: Global, text: &str) -> Result<Option<Clock>, OutOfMemory>
    ensures { IfOk result (λ clock. IfSome clock KeepsLimits) }
{
    let bytes = text.as_bytes();
    if bytes.len() > MOST_BYTES {
        return Ok(None);
    }
    match read_table(alloc, &Limits::usual(), bytes) {
        Ok(flat) => Ok(Some(clock_by_names(alloc, &flat)?)),
        Err(_) => Ok(None),
    }
}

/// Whether this is the text of a table's design and a schedule.
fn is_of_table(
    alloc: Global,
    table: &str,
    schedule: &str,
    said: &str,
) -> Result<bool, OutOfMemory> {
    let titles = titles(alloc, "ring.table", "half.cert")?;
    let clock = table_clock(alloc, table)?;
    let times = schedule.as_bytes();
    if times.len() > MOST_BYTES {
        return Ok(false);
    }
    match (clock, read_schedule(times)) {
        (Some(clock), Ok(schedule)) => is_said(alloc, &clock, &schedule, &titles, said),
        _ => Ok(false),
    }
}

#[test]
fn a_table_names_its_ports(rt: HostRuntime) -> Result<(), OutOfMemory> {
    let schedule = "schedule 1\nden 1\ncycle 450501\nphases 1\nphase 0 90500\nend\n";
    let same = is_of_table(rt.alloc(), TABLE, schedule, TABLE_TEXT)?;
    assert!(rt; same);
    Ok(())
}
