//! The smallest inputs of refusals, and odd ones: where they are said to be at fault.
use crate::told::{Change, File, is_told, missing, syntax, told};
use mintc_text::{Name, Numbers, OutOfMemory, Refusal, Role};
use mintcx_refusals::{Inputs, refusal_message};
use std::alloc::Global;
use std::process::Abort;

const CELLS: &str = "[cell.LAT]
kind = \"latch\"
d = \"D\"
g = \"G\"
outputs = [\"Q\"]
setup = 10
dq_min = 10
[cell.BUF]
kind = \"gate\"
inputs = [\"A\"]
outputs = [\"Y\"]
";

const CLOCK: &str = "[[phase]]
name = \"p\"
port = \"c\"
";

const TABLE: &str = "table 1
phases 2
phase p
phase q
elements 0
inner 0
arcs 0
bounds 0
end
";

const SCHEDULE: &str = "schedule 1
den 1
cycle 100
phases 1
phase 0 50
end
";

const SMALL: &[File] = &[
    (Role::Netlist, "top.v", "module m(c); input c; endmodule\n"),
    (Role::Delays, "top.sdf", "(DELAYFILE)"),
    (Role::Cells, "cells.toml", CELLS),
    (Role::Clock, "clock.toml", CLOCK),
];

const LIBRARIES: &[File] = &[(Role::Cells, "cells.lib", "library(t){")];

const PLAIN: &[File] = &[
    (Role::Table, "top.table", TABLE),
    (Role::Schedule, "own.schedule", SCHEDULE),
];

/// Whether the message of a refusal in one line is this, where the file that it speaks of is changed.
fn is_placed(
    alloc: Global,
    files: &[File],
    changes: &[Change],
    refusal: &Refusal,
    line: &str,
) -> Result<bool, OutOfMemory> {
    let message = told(alloc, files, changes, refusal, true)?;
    Ok(message.items() == line.as_bytes())
}

const FORMS_1: &[Change] = &[("endmodule", "inout d; endmodule")];

const FORMS_2: &[Change] = &[("; input c; endmodule", "; ")];

const FORMS_3: &[Change] = &[("(DELAYFILE)", "")];

const FORMS_4: &[Change] = &[("E)", "E")];

#[test]
fn forms_are_placed(rt: HostRuntime) -> Result<(), OutOfMemory> {
    let alloc = rt.alloc();
    let refusal = syntax(Role::Netlist, 3);
    let line = "top.v:1:23: error[1]: this statement isn't structural Verilog\n";
    assert!(rt; is_placed(alloc, SMALL, FORMS_1, &refusal, line)?);
    let refusal = syntax(Role::Netlist, 2);
    let line = "top.v:1:1: error[1]: the netlist ends inside of a module\n";
    assert!(rt; is_placed(alloc, SMALL, FORMS_2, &refusal, line)?);
    let refusal = syntax(Role::Delays, 0);
    let line = "top.sdf: error[1]: this part of the delays isn't read\n";
    assert!(rt; is_placed(alloc, SMALL, FORMS_3, &refusal, line)?);
    let refusal = syntax(Role::Delays, 1);
    let line = "top.sdf:1:1: error[1]: this part of the delays isn't read\n";
    assert!(rt; is_placed(alloc, SMALL, FORMS_4, &refusal, line)?);
    let refusal = syntax(Role::Cells, 1);
    let line = "cells.lib: error[1]: this statement of the library is out of form\n";
    assert!(rt; is_placed(alloc, LIBRARIES, &[], &refusal, line)?);
    Ok(())
}

const NETLISTS_1: &[Change] = &[("endmodule", "wire w; wire w; endmodule")];

const NETLISTS_2: &[Change] = &[("endmodule", "FOO a (); endmodule")];

const NETLISTS_3: &[Change] = &[("endmodule", "m u (.c(c)); endmodule")];

const NETLISTS_4: &[Change] = &[("endmodule", "LAT a (.D(1'b0), .G(c), .E(c)); endmodule")];

const NETLISTS_5: &[Change] = &[("endmodule", "wire [1:0] w; assign w = c; endmodule")];

#[test]
fn netlists_are_placed(rt: HostRuntime) -> Result<(), OutOfMemory> {
    let alloc = rt.alloc();
    let refusal = Refusal::NameTwice { entry: 4 };
    let line = "top.v:1:36: error[3]: `w` is declared twice\n";
    assert!(rt; is_placed(alloc, SMALL, NETLISTS_1, &refusal, line)?);
    let refusal = Refusal::NoModule { entry: 3 };
    let line = "top.v:1:23: error[4]: there is no cell or module `FOO`\n";
    assert!(rt; is_placed(alloc, SMALL, NETLISTS_2, &refusal, line)?);
    let refusal = Refusal::Recursive { entry: 3 };
    let line = "top.v:1:23: error[5]: module `m` has itself inside\n";
    assert!(rt; is_placed(alloc, SMALL, NETLISTS_3, &refusal, line)?);
    let refusal = Refusal::NoPin { entry: 3 };
    let line = "top.v:1:48: error[6]: cell `LAT` has no pin `E`\n";
    assert!(rt; is_placed(alloc, SMALL, NETLISTS_4, &refusal, line)?);
    let refusal = Refusal::Width { entry: 4 };
    let line = "top.v:1:37: error[7]: the widths in this statement don't fit\n";
    assert!(rt; is_placed(alloc, SMALL, NETLISTS_5, &refusal, line)?);
    Ok(())
}

const DESIGNS_1: &[Change] = &[("endmodule", "assign c = 1'b0; endmodule")];

const DESIGNS_2: &[Change] = &[(
    "module m(c); input c; endmodule
",
    "",
)];

const DESIGNS_3: &[Change] = &[("\"c\"", "\"d\"")];

const DESIGNS_4: &[Change] = &[("endmodule", "LAT a (.D(c), .G(1'b1)); endmodule")];

const DESIGNS_5: &[Change] = &[(
    "[[phase]]
",
    "[[phase]]
[[phase]]
",
)];

#[test]
fn designs_are_placed(rt: HostRuntime) -> Result<(), OutOfMemory> {
    let alloc = rt.alloc();
    let refusal = Refusal::TwoDrivers { entry: 3 };
    let line = "top.v:1:30: error[8]: `c` has two drivers\n";
    assert!(rt; is_placed(alloc, SMALL, DESIGNS_1, &refusal, line)?);
    let refusal = Refusal::TopUnclear { count: 0 };
    let line = "top.v: error[9]: no module may be the top\n";
    assert!(rt; is_placed(alloc, SMALL, DESIGNS_2, &refusal, line)?);
    let refusal = missing(Role::Clock, 1);
    let line = "clock.toml:3:8: error[10]: the top has no input port bit `d`\n";
    assert!(rt; is_placed(alloc, SMALL, DESIGNS_3, &refusal, line)?);
    let refusal = Refusal::NoPhase { element: 0 };
    let line = "top.v:1:37: error[15]: latch `a` is on no phase\n";
    assert!(rt; is_placed(alloc, SMALL, DESIGNS_4, &refusal, line)?);
    let refusal = Refusal::BadClock { entry: 1, rule: 3 };
    let line = "clock.toml:1:1: error[14]: phase 1 has no `name`\n";
    assert!(rt; is_placed(alloc, SMALL, DESIGNS_5, &refusal, line)?);
    Ok(())
}

const DELAYS_1: &[Change] = &[("E)", "E(CELL(CELLTYPE \"BUF\")(INSTANCE x)))")];

const DELAYS_2: &[Change] = &[(
    "E)",
    "E(CELL(CELLTYPE \"BUF\")(INSTANCE x)(DELAY(ABSOLUTE(IOPATH Y A(1))))))",
)];

const DELAYS_3: &[Change] = &[(
    "E)",
    "E(CELL(CELLTYPE \"\")(INSTANCE)(DELAY(ABSOLUTE(PORT a(-1))))))",
)];

const DELAYS_4: &[Change] = &[(
    "E)",
    "E(CELL(CELLTYPE \"\")(INSTANCE)(DELAY(ABSOLUTE(PORT a(1e4))))))",
)];

#[test]
fn delays_are_placed(rt: HostRuntime) -> Result<(), OutOfMemory> {
    let alloc = rt.alloc();
    let refusal = missing(Role::Delays, 1);
    let line = "top.sdf:1:42: error[10]: the delays speak of `x`, and there is no such instance\n";
    assert!(rt; is_placed(alloc, SMALL, DELAYS_1, &refusal, line)?);
    let refusal = Refusal::NoArc { entry: 1 };
    let line = "top.sdf:1:67: error[11]: cell `BUF` has no way from `Y` to `A`\n";
    assert!(rt; is_placed(alloc, SMALL, DELAYS_2, &refusal, line)?);
    let refusal = Refusal::Negative { entry: 1 };
    let line = "top.sdf:1:62: error[12]: a delay below 0\n";
    assert!(rt; is_placed(alloc, SMALL, DELAYS_3, &refusal, line)?);
    let refusal = Refusal::Range { entry: 1 };
    let line = "top.sdf:1:62: error[18]: a number above 1 us\n";
    assert!(rt; is_placed(alloc, SMALL, DELAYS_4, &refusal, line)?);
    Ok(())
}

const CELLS_1: &[Change] = &[("[cell.LAT]", "=")];

const CELLS_2: &[Change] = &[("[cell.LAT]", "a=1")];

const CELLS_3: &[Change] = &[(
    "kind = \"gate\"
",
    "",
)];

const CELLS_4: &[Change] = &[(
    "kind = \"gate\"
",
    "kind = \"gate\"
a = 1
",
)];

const CELLS_5: &[Change] = &[(
    "kind = \"gate\"
",
    "kind = \"gate\"
min = 0.5
",
)];

#[test]
fn cells_are_placed(rt: HostRuntime) -> Result<(), OutOfMemory> {
    let alloc = rt.alloc();
    let refusal = Refusal::BadCell { entry: 0, rule: 0 };
    let line = "cells.toml: error[13]: cells.toml is no TOML\n";
    assert!(rt; is_placed(alloc, SMALL, CELLS_1, &refusal, line)?);
    let refusal = Refusal::BadCell { entry: 0, rule: 1 };
    let line = "cells.toml: error[13]: cells.toml has something else than cells\n";
    assert!(rt; is_placed(alloc, SMALL, CELLS_2, &refusal, line)?);
    let refusal = Refusal::BadCell { entry: 1, rule: 2 };
    let line = "cells.toml:8:1: error[13]: cell `BUF`: no kind, or a name that is none\n";
    assert!(rt; is_placed(alloc, SMALL, CELLS_3, &refusal, line)?);
    let refusal = Refusal::BadCell { entry: 1, rule: 3 };
    let line = "cells.toml:10:1: error[13]: cell `BUF`: its kind has no key `a`\n";
    assert!(rt; is_placed(alloc, SMALL, CELLS_4, &refusal, line)?);
    let refusal = Refusal::BadCell { entry: 1, rule: 6 };
    let line = "cells.toml:10:7: error[13]: cell `BUF`: min is no whole number\n";
    assert!(rt; is_placed(alloc, SMALL, CELLS_5, &refusal, line)?);
    Ok(())
}

const TABLES_1: &[Change] = &[(
    "elements 0
inner 0
arcs 0",
    "elements 0
inner 1
arcs 1
arc n0 n0 0 0",
)];

const TABLES_3: &[Change] = &[(
    "elements 0
inner 0
arcs 0",
    "elements 1
element a 1 0 - 0 0 0
inner 1
arcs 2
arc q0 n0 1000000000 1000000000
arc n0 d0 1 1",
)];

const TABLES_4: &[Change] = &[(
    "table 1
",
    "table 1\r
",
)];

const TABLES_5: &[Change] = &[(
    "end
",
    "",
)];

#[test]
fn tables_are_placed(rt: HostRuntime) -> Result<(), OutOfMemory> {
    let alloc = rt.alloc();
    let arcs = Numbers::new(vec![in alloc; 0]?);
    let refusal = Refusal::CombinationalLoop { arcs };
    let line =
        "top.table:8:1: error[16]: data can run round without a latch or flop, through 1 arc\n";
    assert!(rt; is_placed(alloc, PLAIN, TABLES_1, &refusal, line)?);
    let refusal = Refusal::PhaseMismatch {
        design: 2,
        schedule: 1,
    };
    let line = "own.schedule:4:1: error[19]: the design has 2 phases, the schedule 1\n";
    assert!(rt; is_placed(alloc, PLAIN, &[], &refusal, line)?);
    let refusal = Refusal::PathRange { element: 0, bit: 0 };
    let line = "top.table:10:1: error[21]: a path from `a` to `a` takes more than 1 us\n";
    assert!(rt; is_placed(alloc, PLAIN, TABLES_3, &refusal, line)?);
    let refusal = syntax(Role::Table, 1);
    let line = "top.table:1:1: error[1]: this line of the table is out of form\n";
    assert!(rt; is_placed(alloc, PLAIN, TABLES_4, &refusal, line)?);
    let refusal = syntax(Role::Table, 9);
    let line = "top.table:8:1: error[1]: the table ends too soon\n";
    assert!(rt; is_placed(alloc, PLAIN, TABLES_5, &refusal, line)?);
    Ok(())
}

/// How many bytes stand before what is at fault on a long line.
const MANY: usize = 100_000;

const LONG: &str = "error[1]: this statement isn't structural Verilog
 --> top.v:1:100023
1 | ...                                                                                  inout d; endmodule
  |                                                                                      ^^^^^^^^
  = why: `inout` ports have no direction that data goes in
  = help: leave pads out of what is timed, or declare it `input` or `output`
  = note: `refused 1 netlist 3`; `mintcx explain 1` says more
";

#[test]
fn long_lines_are_shown_in_part(rt: HostRuntime) -> Result<(), OutOfMemory> {
    let alloc = rt.alloc();
    let mut text = Vec::from_slice(alloc, b"module m(c); input c; ")?;
    for _byte in 0..MANY {
        text.push(b' ')?;
    }
    text.extend_from_slice(b"inout d; endmodule\n")?;
    let names = vec![in alloc; Name::new(alloc, b"top.v")?]?;
    let inputs = Inputs {
        roles: &[Role::Netlist],
        names: &names,
        beside: b"",
    };
    let message = refusal_message(alloc, &syntax(Role::Netlist, 3), &inputs, &text)?;
    assert!(rt; message.items() == LONG.as_bytes());
    Ok(())
}

const ODD: &[Change] = &[(" endmodule\n", "\t\tinout \u{e4}; // \u{e4}\r\nendmodule")];

const SHOWN: &str = "error[1]: this statement isn't structural Verilog
 --> top.v:1:24
1 | module m(c); input c;        inout ??; // ??
  |                              ^^^^^^^^^
  = why: `inout` ports have no direction that data goes in
  = help: leave pads out of what is timed, or declare it `input` or `output`
  = note: `refused 1 netlist 3`; `mintcx explain 1` says more
";

const RETURNS: &str = "error[1]: this line of the table is out of form
 --> top.table:2:1
2 | phases 2
  | ^^^^^^^^
  = why: a carriage return stands before its line feed
  = help: save the file with a line feed behind each line, and no other mark
  = note: `refused 1 table 2`; `mintcx explain 1` says more
";

const FED: &str = "error[1]: this line of the table is out of form
 --> top.table:9:1
9 | end
  | ^^^
  = why: no line feed ends it
  = help: save the file with a line feed behind each line, and no other mark
  = note: `refused 1 table 9`; `mintcx explain 1` says more
";

#[test]
fn odd_bytes_are_shown(rt: HostRuntime) -> Result<(), OutOfMemory> {
    let alloc = rt.alloc();
    assert!(rt; is_told(alloc, SMALL, ODD, &syntax(Role::Netlist, 3), SHOWN)?);
    let returns = &[("phases 2\n", "phases 2\r\n")];
    assert!(rt; is_told(alloc, PLAIN, returns, &syntax(Role::Table, 2), RETURNS)?);
    let unfed = &[("end\n", "end")];
    assert!(rt; is_told(alloc, PLAIN, unfed, &syntax(Role::Table, 9), FED)?);
    Ok(())
}
