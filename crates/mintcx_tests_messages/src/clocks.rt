//! What is said of a latch or flop that is on no phase, by how its clock comes to it.
use crate::told::{Change, changed};
use mintc_text::{Name, OutOfMemory, Refusal, Role};
use mintcx_refusals::{Inputs, refusal_message, refusal_parts};
use std::alloc::Global;
use std::process::Abort;

const NETLIST: &str = "module m(c, e);
  input c;
  input e;
  wire g;
  wire h;
  LAT l ( .D(e), .G(g), .Q() );
endmodule
";

const CELLS: &str = "[cell.LAT]
kind = \"latch\"
d = \"D\"
g = \"G\"
outputs = [\"Q\"]
[cell.DFF]
kind = \"flop\"
d = \"D\"
clock = \"CK\"
outputs = [\"Q\"]
[cell.BUF]
kind = \"gate\"
inputs = [\"A\"]
outputs = [\"Y\"]
[cell.AND2]
kind = \"gate\"
inputs = [\"A\", \"B\"]
outputs = [\"Y\"]
[cell.TIE]
kind = \"gate\"
inputs = []
outputs = [\"Y\"]
[cell.GATE]
kind = \"clock\"
input = \"CK\"
output = \"Y\"
ignored = [\"E\"]
";

const LIBRARY: &str = "library (small) {
 cell (LAT) {
  latch (IQ, IQN) { enable : \"G\" ; data_in : \"D\" ; }
  pin (D) { direction : input ; }
  pin (G) { direction : input ; }
  pin (Q) { direction : output ; function : \"IQ\" ; }
 }
 cell (BUF) {
  pin (A) { direction : input ; }
  pin (Y) { direction : output ; function : \"A\" ; }
 }
 cell (AND2) {
  pin (A) { direction : input ; }
  pin (B) { direction : input ; }
  pin (Y) { direction : output ; function : \"A B\" ; }
 }
}
";

const ROLES: &[Role] = &[Role::Netlist, Role::Delays, Role::Cells, Role::Clock];

fn names(alloc: Global) -> Result<Vec<Name>, OutOfMemory> {
    let mut names = Vec::new(alloc);
    names.push(Name::new(alloc, b"top.v")?)?;
    names.push(Name::new(alloc, b"top.sdf")?)?;
    names.push(Name::new(alloc, b"cells.any")?)?;
    names.push(Name::new(alloc, b"clock.toml")?)?;
    Ok(names)
}

/// The changes of the netlist, the cells, the latch or flop, what stands behind the marks, and what helps.
type Row = (
    &'static [Change],
    &'static str,
    u32,
    &'static str,
    &'static str,
);

const ROWS: &[Row] = &[
    (
        &[("G(g)", "G(1'b1)")],
        CELLS,
        0,
        "its enable is a constant",
        "connect it to a clock",
    ),
    (
        &[("G(g)", "G()")],
        CELLS,
        0,
        "its enable isn't connected",
        "connect it to a clock",
    ),
    (
        &[("G(g)", "G(e)")],
        CELLS,
        0,
        "its enable leads back to no phase",
        "follow it back to an input of the top, and give that a phase of its level in clock.toml",
    ),
    (
        &[("LAT", "GATE k ( .CK(e), .E(c), .Y(g) );\n  LAT")],
        CELLS,
        0,
        "its enable leads back to no phase",
        "follow it back to an input of the top, and give that a phase of its level in clock.toml; or bring the clock to the `input` of each clock cell on the way",
    ),
    (
        &[(
            "LAT",
            "AND2 i ( .A(e), .Y(h) );\n  GATE k ( .CK(h), .E(c), .Y(g) );\n  LAT",
        )],
        CELLS,
        0,
        "its enable comes through a gate",
        "describe AND2 as a clock cell with the clock's pin as `input`, if it carries no data; else bring the clock to the `input` of each clock cell on the way",
    ),
    (
        &[("LAT", "TIE k ( .Y(g) );\n  LAT")],
        CELLS,
        0,
        "its enable comes through a gate",
        "connect it to a clock: this gate has no input",
    ),
    (
        &[("LAT", "LAT k ( .D(e), .G(c), .Q(g) );\n  LAT")],
        CELLS,
        1,
        "its enable comes through a latch",
        "if this is a clock gate, describe LAT as a clock cell; else bring this clock in at an input of the top",
    ),
    (
        &[
            ("LAT", "DFF k ( .D(e), .CK(c), .Q(g) );\n  LAT"),
            ("LAT l ( .D(e), .G(g)", "DFF l ( .D(e), .CK(g)"),
        ],
        CELLS,
        1,
        "its clock comes through a flop",
        "bring this clock in at an input of the top, with a phase of its own",
    ),
    (
        &[("LAT", "BUF k ( .A(c), .Y(g) );\n  LAT")],
        LIBRARY,
        0,
        "its enable comes through a gate",
        "give `--clock-cell BUF`, if it carries no data; and a phase has to have the input that it leads back to",
    ),
    (
        &[(
            "LAT",
            "AND2 i ( .A(c), .B(e), .Y(h) );\n  BUF k ( .A(h), .Y(g) );\n  LAT",
        )],
        LIBRARY,
        0,
        "its enable comes through a gate",
        "take `--cells` in the library's place (`liberty2toml` writes it), and describe AND2 as a clock cell with the clock's pin as `input`, if it carries no data; else use another cell here",
    ),
];

/// Whether what is said of a latch or flop on no phase is what a row says.
fn is_said(alloc: Global, row: &Row) -> Result<bool, OutOfMemory> {
    let names = names(alloc)?;
    let inputs = Inputs {
        roles: ROLES,
        names: &names,
        beside: row.1.as_bytes(),
    };
    let netlist = changed(alloc, NETLIST, row.0)?;
    let refusal = Refusal::NoPhase { element: row.2 };
    let parts = refusal_parts(alloc, &refusal, &inputs, &netlist)?;
    Ok(parts.label.items() == row.3.as_bytes() && parts.help.items() == row.4.as_bytes())
}

#[test]
fn ways_of_clocks_are_told(rt: HostRuntime) -> Result<(), OutOfMemory> {
    let alloc = rt.alloc();
    for row in ROWS {
        assert!(rt; is_said(alloc, row)?);
    }
    Ok(())
}

const THROUGH: &str = "error[15]: latch `l` is on no phase
 --> top.v:7:18
7 |   LAT l ( .D(e), .G(g), .Q() );
  |                  ^^^^^ its enable comes through a gate
 ::: top.v:6:3
6 |   BUF k ( .A(c), .Y(g) );
  |   ----- this one, `k`, of kind gate
  = why: a clock goes through the clock cells of the library and those of `--clock-cell` alone
  = help: give `--clock-cell BUF`, if it carries no data; and a phase has to have the input that it leads back to
  = note: `refused 15 0`; `mintcx explain 15` says more
";

const UNFOUND: &str = "error[15]: a latch or flop is on no phase
 --> top.v
 = why: it is latch or flop 7, counted from 0 as they stand in the hierarchy
 = why: a clock goes through the clock cells of the library and those of `--clock-cell` alone
 = help: name the gates on its clock's way by `--clock-cell`, if they carry no data, and give its port a phase
 = note: `refused 15 7`; `mintcx explain 15` says more
";

/// Whether the message of a latch or flop on no phase is this, with the library.
fn is_told(
    alloc: Global,
    changes: &[Change],
    element: u32,
    text: &str,
) -> Result<bool, OutOfMemory> {
    let names = names(alloc)?;
    let inputs = Inputs {
        roles: ROLES,
        names: &names,
        beside: LIBRARY.as_bytes(),
    };
    let netlist = changed(alloc, NETLIST, changes)?;
    let refusal = Refusal::NoPhase { element };
    let message = refusal_message(alloc, &refusal, &inputs, &netlist)?;
    Ok(message.items() == text.as_bytes())
}

const BUFFERED: &[Change] = &[("LAT", "BUF k ( .A(c), .Y(g) );\n  LAT")];

#[test]
fn clocks_of_libraries_are_told(rt: HostRuntime) -> Result<(), OutOfMemory> {
    let alloc = rt.alloc();
    assert!(rt; is_told(alloc, BUFFERED, 0, THROUGH)?);
    assert!(rt; is_told(alloc, &[], 7, UNFOUND)?);
    Ok(())
}
