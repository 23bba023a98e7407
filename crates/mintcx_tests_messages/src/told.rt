//! Messages of the inputs of people: a design of four files, or a table with a schedule or a certificate, at fault in
//! one place.
use mintc_text::{Bytes, Name, Numbers, OutOfMemory, Refusal, Role, place_of};
use mintcx_refusals::{Inputs, beside_of, file_of, refusal_message, short_message};
use std::alloc::Global;
use std::process::Abort;

const TOP: &str = "/* in the style of Yosys */
(* src = \"two.v:1.1-9.10\" *)
module two(phi1, phi2, y);
  input phi1;
  wire phi1;
  input phi2;
  wire phi2;
  output y;
  wire y;
  wire \\loop.back ;
  wire mid;
  assign y = \\loop.back ;
  half u1 ( .c(phi1), .i(\\loop.back ), .o(mid) );
  half u2 ( .c(phi2), .i(mid), .o(\\loop.back ) );
endmodule
module half(c, i, o);
  input c;
  input i;
  output o;
  wire q;
  LAT \\l[0]  ( .D(i), .G(c), .Q(q) );
  slice s ( .a(q), .t(1'h0), .z(o) );
endmodule
module slice(a, t, z);
  input a;
  input t;
  output z;
  BUF b ( .A(a), .Y(z) );
endmodule
";

const CELLS: &str = "[cell.LAT]
kind = \"latch\"
d = \"D\"
g = \"G\"
outputs = [\"Q\"]
setup = 10
dq_min = 10
[cell.BUF]
kind = \"gate\"
inputs = [\"A\"]
outputs = [\"Y\"]
";

const CLOCK: &str = "[[phase]]
name = \"p1\"
port = \"phi1\"
[[phase]]
name = \"p2\"
port = \"phi2\"
";

const DELAYS: &str = "(DELAYFILE (SDFVERSION \"3.0\") (DIVIDER /) (TIMESCALE 1ps)
(CELL (CELLTYPE \"BUF\") (INSTANCE u1/s/b)
 (DELAY (ABSOLUTE (IOPATH A Y (0.020:0.020:0.020)))))
(CELL (CELLTYPE \"BUF\") (INSTANCE u2/s/b)
 (DELAY (ABSOLUTE (IOPATH A Y (0.060) (0.050))))))
";

const LIBRARY: &str = "library (small) {
 cell (BUF) {
  area : 4.0
  pin (A) { direction : input ; }
  pin (Y) { direction : output ; function : \"A\" ; }
 }
}
";

const TABLE: &str = "table 1
phases 2
phase phi1
phase phi2
elements 2
element a 1 10 - 10 10 0
element b 2 10 - 10 10 0
inner 0
arcs 2
arc q0 d1 20 20
arc q1 d0 60 60
bounds 0
end
";

const SCHEDULE: &str = "schedule 1
den 1
cycle 100
phases 1
phase 0 50
end
";

const CERTIFICATE: &str = "certificate 2
least
den 1
cycle 100
phases 2
phase 0 10
phase 10 30
departures 2
departure 0
departure 20
chain 2
reach 0 1 1 0
reach 1 0 1 1
";

/// A file of a command: what it holds, how it is called, and its text.
pub(crate) type File = (Role, &'static str, &'static str);

/// What is put into a text, the first time that this stands there.
pub(crate) type Change = (&'static str, &'static str);

const DESIGN: &[File] = &[
    (Role::Netlist, "top.v", TOP),
    (Role::Delays, "top.sdf", DELAYS),
    (Role::Cells, "cells.toml", CELLS),
    (Role::Clock, "clock.toml", CLOCK),
];

const OF_LIBRARY: &[File] = &[
    (Role::Netlist, "top.v", TOP),
    (Role::Delays, "top.sdf", DELAYS),
    (Role::Cells, "cells.lib", LIBRARY),
    (Role::Clock, "clock.toml", CLOCK),
];

const TABLES: &[File] = &[
    (Role::Table, "top.table", TABLE),
    (Role::Schedule, "own.schedule", SCHEDULE),
];

const CERTIFIED: &[File] = &[
    (Role::Table, "top.table", TABLE),
    (Role::Certificate, "own.cert", CERTIFICATE),
];

/// A text with one thing put into the place of another, where that stands first.
fn replaced(alloc: Global, text: &[u8], change: &Change) -> Result<Vec<u8>, OutOfMemory> {
    let old = change.0.as_bytes();
    let mut out = Vec::new(alloc);
    for at in 0..text.len() {
        let rest = &text[at..];
        if rest.len() >= old.len() && rest.starts_with(old) {
            out.extend_from_slice(&text[..at])?;
            out.extend_from_slice(change.1.as_bytes())?;
            out.extend_from_slice(&rest[old.len()..])?;
            return Ok(out);
        }
    }
    Ok(out)
}

/// A text with all changes.
pub(crate) fn changed(
    alloc: Global,
    text: &str,
    changes: &[Change],
) -> Result<Vec<u8>, OutOfMemory> {
    let mut out = Vec::from_slice(alloc, text.as_bytes())?;
    for change in changes {
        out = replaced(alloc, &out, change)?;
    }
    Ok(out)
}

/// The text of a file by its number; none where there is none.
fn text_of(files: &[File], at: Option<usize>) -> &'static str {
    match at {
        Some(at) if at < files.len() => files[at].2,
        _ => "",
    }
}

/// What files hold.
fn roles_of(alloc: Global, files: &[File]) -> Result<Vec<Role>, OutOfMemory> {
    let mut roles = Vec::new(alloc);
    for file in files {
        roles.push(file.0)?;
    }
    Ok(roles)
}

/// How files are called.
fn names_of(alloc: Global, files: &[File]) -> Result<Vec<Name>, OutOfMemory> {
    let mut names = Vec::new(alloc);
    for file in files {
        names.push(Name::new(alloc, file.1.as_bytes())?)?;
    }
    Ok(names)
}

/// The message of a refusal, over several lines or in one, where the file that it speaks of is changed.
pub(crate) fn told(
    alloc: Global,
    files: &[File],
    changes: &[Change],
    refusal: &Refusal,
    is_short: bool,
) -> Result<Bytes, OutOfMemory> {
    let roles = roles_of(alloc, files)?;
    let names = names_of(alloc, files)?;
    let file = changed(alloc, text_of(files, file_of(&roles, refusal)), changes)?;
    let inputs = Inputs {
        roles: &roles,
        names: &names,
        beside: text_of(files, beside_of(&roles, refusal)).as_bytes(),
    };
    if is_short {
        short_message(alloc, refusal, &inputs, &file)
    } else {
        refusal_message(alloc, refusal, &inputs, &file)
    }
}

/// A message in one line: what stands behind its arrow, and its first line.
fn short_of(alloc: Global, text: &[u8]) -> Result<Vec<u8>, OutOfMemory> {
    let mut out = Vec::new(alloc);
    let end = place_of(b'\n', text, 0);
    let arrow = place_of(b'>', text, end);
    if arrow + 2 > text.len() {
        return Ok(out);
    }
    let behind = place_of(b'\n', text, arrow + 2);
    out.extend_from_slice(&text[arrow + 2..behind])?;
    out.extend_from_slice(b": ")?;
    out.extend_from_slice(&text[..end])?;
    out.push(b'\n')?;
    Ok(out)
}

/// Whether the message of a refusal is this, over several lines and in one.
pub(crate) fn is_told(
    alloc: Global,
    files: &[File],
    changes: &[Change],
    refusal: &Refusal,
    text: &str,
) -> Result<bool, OutOfMemory> {
    let message = told(alloc, files, changes, refusal, false)?;
    let line = told(alloc, files, changes, refusal, true)?;
    let short = short_of(alloc, text.as_bytes())?;
    Ok(message.items() == text.as_bytes() && line.items() == short.as_slice())
}

pub(crate) fn syntax(role: Role, entry: u32) -> Refusal {
    Refusal::Syntax { role, entry }
}

pub(crate) fn missing(role: Role, entry: u32) -> Refusal {
    Refusal::NoInstance { role, entry }
}

const TURNED_CHANGES: &[Change] = &[("b 2 10 - 10", "b 2 10 - 20")];

const TURNED: &str = "error[1]: this line of the table is out of form
 --> top.table:7:18
7 | element b 2 10 - 20 10 0
  |                  ^^^^^ 20 is above 10
  = why: the form is `element NAME PHASE SETUP HOLD DQMIN DQMAX WIDTH`
  = help: make the least number at most the greatest
  = note: `refused 1 table 7`; `mintcx explain 1` says more
";

const DECIMALS_CHANGES: &[Change] = &[(
    "phases 1
phase 0 50",
    "phases 2
phase 0 10
phase 10 30.5",
)];

const DECIMALS: &str = "error[1]: this line of the schedule is out of form
 --> own.schedule:6:10
6 | phase 10 30.5
  |          ^^^^ no whole number
  = why: times are whole numbers over `den`
  = help: write `den 2` and double each number, or take whole femtoseconds
  = note: `refused 1 schedule 6`; `mintcx explain 1` says more
";

const ENDLESS: &str = "error[1]: the certificate ends too soon
  --> own.cert:13:1
13 | reach 1 0 1 1
   | ^^^^^^^^^^^^^ the last line; `end` has to follow
   = why: line 14 is missing
   = help: write the certificate anew, with `mintcx optimise --certificate FILE`
   = note: `refused 1 certificate 14`; `mintcx explain 1` says more
";

#[test]
fn lines_out_of_form_are_told(rt: HostRuntime) -> Result<(), OutOfMemory> {
    let alloc = rt.alloc();
    let turned = syntax(Role::Table, 7);
    assert!(rt; is_told(alloc, TABLES, TURNED_CHANGES, &turned, TURNED)?);
    let decimals = syntax(Role::Schedule, 6);
    assert!(rt; is_told(alloc, TABLES, DECIMALS_CHANGES, &decimals, DECIMALS)?);
    let endless = syntax(Role::Certificate, 14);
    assert!(rt; is_told(alloc, CERTIFIED, &[], &endless, ENDLESS)?);
    Ok(())
}

const PADS_CHANGES: &[Change] = &[("input t", "inout t")];

const PADS: &str = "error[1]: this statement isn't structural Verilog
  --> top.v:26:3
26 |   inout t;
   |   ^^^^^^^^
   = why: `inout` ports have no direction that data goes in
   = help: leave pads out of what is timed, or declare it `input` or `output`
   = note: `refused 1 netlist 24`; `mintcx explain 1` says more
";

const BEHAVIOUR_CHANGES: &[Change] = &[(
    "  LAT",
    "  always @(posedge c) r <= i;
  LAT",
)];

const BEHAVIOUR: &str = "error[1]: this statement isn't structural Verilog
  --> top.v:21:3
21 |   always @(posedge c) r <= i;
   |   ^^^^^^^^^^^^^^^^^^^
   = why: `always` is behaviour, and a netlist has none
   = help: map it to cells first (Yosys: synth; dfflibmap; techmap; abc)
   = note: `refused 1 netlist 19`; `mintcx explain 1` says more
";

const INCREMENT_CHANGES: &[Change] = &[("ABSOLUTE", "INCREMENT")];

const INCREMENT: &str = "error[1]: this part of the delays isn't read
 --> top.sdf:3:10
3 |  (DELAY (INCREMENT (IOPATH A Y (0.020:0.020:0.020)))))
  |          ^^^^^^^^^ `INCREMENT` is outside of the profile
  = why: it is entry 4; entries are counted from 1, headers and cells alike
  = help: have the tool write sums, under ABSOLUTE
  = note: `refused 1 delays 4`; `mintcx explain 1` says more
";

const NO_SEMICOLON: &str = "error[1]: this statement of the library is out of form
 --> cells.lib:3:3
3 |   area : 4.0
  |   ^^^^^^^^^^ no `;` ends it
  = why: it is statement 1 directly in the library, a `cell` that holds it
  = help: end it with `;`, or fetch the library again
  = note: `refused 1 cells 1`; `mintcx explain 1` says more
";

#[test]
fn entries_out_of_form_are_told(rt: HostRuntime) -> Result<(), OutOfMemory> {
    let alloc = rt.alloc();
    let pads = syntax(Role::Netlist, 24);
    assert!(rt; is_told(alloc, DESIGN, PADS_CHANGES, &pads, PADS)?);
    let behaviour = syntax(Role::Netlist, 19);
    assert!(rt; is_told(alloc, DESIGN, BEHAVIOUR_CHANGES, &behaviour, BEHAVIOUR)?);
    let increment = syntax(Role::Delays, 4);
    assert!(rt; is_told(alloc, DESIGN, INCREMENT_CHANGES, &increment, INCREMENT)?);
    let no_semicolon = syntax(Role::Cells, 1);
    assert!(rt; is_told(alloc, OF_LIBRARY, &[], &no_semicolon, NO_SEMICOLON)?);
    Ok(())
}

const TWICE_CHANGES: &[Change] = &[(
    "  LAT",
    "  wire q;
  LAT",
)];

const TWICE: &str = "error[3]: `q` is declared twice
  --> top.v:21:8
21 |   wire q;
   |        ^ declared again
  ::: top.v:20:8
20 |   wire q;
   |        - declared here first
   = why: a net has one declaration in its module
   = help: take one of them out, or rename it
   = note: `refused 3 19`; `mintcx explain 3` says more
";

const NO_MODULE_CHANGES: &[Change] = &[(
    "  slice",
    "  INVX2 n ( .A(q), .Y() );
  slice",
)];

const NO_MODULE: &str = "error[4]: there is no cell or module `INVX2`
  --> top.v:22:3
22 |   INVX2 n ( .A(q), .Y() );
   |   ^^^^^ in module `half`
   = why: cells.toml describes 2 cells: BUF, LAT
   = help: describe it in cells.toml, give the library with --lib, or add its module
   = note: `refused 4 20`; `mintcx explain 4` says more
";

const RING_CHANGES: &[Change] = &[(
    "  BUF",
    "  half h ( .c(a), .i(a), .o() );
  BUF",
)];

const RING: &str = "error[5]: module `half` has itself inside
  --> top.v:22:3
22 |   slice s ( .a(q), .t(1'h0), .z(o) );
   |   ^^^^^ half -> slice -> half
   = why: modules that hold each other have no end
   = help: take the instance out
   = note: `refused 5 20`; `mintcx explain 5` says more
";

const TOPS_CHANGES: &[Change] = &[(
    "BUF b ( .A(a), .Y(z) );
endmodule
",
    "BUF b ( .A(a), .Y(z) );
endmodule
module spare(a);
  input a;
endmodule
",
)];

const TOPS: &str = "error[9]: 2 modules may be the top: `two`, `spare`
  --> top.v:3:8
 3 | module two(phi1, phi2, y);
   |        ^^^ nothing instantiates it
  ::: top.v:30:8
30 | module spare(a);
   |        ----- nor this
   = help: name one: `top = \"two\"` in clock.toml
   = note: `refused 9 2`; `mintcx explain 9` says more
";

#[test]
fn names_at_fault_are_told(rt: HostRuntime) -> Result<(), OutOfMemory> {
    let alloc = rt.alloc();
    let twice = Refusal::NameTwice { entry: 19 };
    assert!(rt; is_told(alloc, DESIGN, TWICE_CHANGES, &twice, TWICE)?);
    let no_module = Refusal::NoModule { entry: 20 };
    assert!(rt; is_told(alloc, DESIGN, NO_MODULE_CHANGES, &no_module, NO_MODULE)?);
    let ring = Refusal::Recursive { entry: 20 };
    assert!(rt; is_told(alloc, DESIGN, RING_CHANGES, &ring, RING)?);
    let tops = Refusal::TopUnclear { count: 2 };
    assert!(rt; is_told(alloc, DESIGN, TOPS_CHANGES, &tops, TOPS)?);
    Ok(())
}

const NO_PIN_CHANGES: &[Change] = &[(".A(a)", ".B(a)")];

const NO_PIN: &str = "error[6]: cell `BUF` has no pin `B`
  --> top.v:28:12
28 |   BUF b ( .B(a), .Y(z) );
   |            ^ not one of A, Y
   = help: mend the name, or list the pin under `ignored` of a latch, flop or clock cell
   = note: `refused 6 26`; `mintcx explain 6` says more
";

const TOO_WIDE_CHANGES: &[Change] = &[(".i(mid)", ".i({mid, mid})")];

const TOO_WIDE: &str = "error[7]: 2 bits are connected to port `i`, which has 1
  --> top.v:14:26
14 |   half u2 ( .c(phi2), .i({mid, mid}), .o(\\loop.back ) );
   |                          ^^^^^^^^^^ 2 bits
   = help: make both sides as wide
   = note: `refused 7 12`; `mintcx explain 7` says more
";

const DRIVEN_CHANGES: &[Change] = &[("mid), .o(\\loop.back ", "mid), .o(mid")];

const DRIVEN: &str = "error[8]: `mid` has two drivers
  --> top.v:14:35
14 |   half u2 ( .c(phi2), .i(mid), .o(mid) );
   |                                   ^^^ driven again
  ::: top.v:13:43
13 |   half u1 ( .c(phi1), .i(\\loop.back ), .o(mid) );
   |                                           --- driven here first
   = why: a bit has one driver: an input port, an assign or one output
   = help: leave one
   = note: `refused 8 12`; `mintcx explain 8` says more
";

const UNCLOCKED_CHANGES: &[Change] = &[
    (
        "  LAT",
        "  wire g;
  BUF k ( .A(c), .Y(g) );
  LAT",
    ),
    (".G(c)", ".G(g)"),
];

const UNCLOCKED: &str = "error[15]: latch `u1.l[0]` is on no phase
  --> top.v:23:23
23 |   LAT \\l[0]  ( .D(i), .G(g), .Q(q) );
   |                       ^^^^^ its enable comes through a gate
  ::: top.v:22:3
22 |   BUF k ( .A(c), .Y(g) );
   |   ----- this one, `u1.k`, of kind gate
   = why: a clock goes through cells of kind `clock` alone
   = help: describe BUF as a clock cell, if it carries no data; else use another cell here
   = note: `refused 15 0`; `mintcx explain 15` says more
";

#[test]
fn connections_at_fault_are_told(rt: HostRuntime) -> Result<(), OutOfMemory> {
    let alloc = rt.alloc();
    let no_pin = Refusal::NoPin { entry: 26 };
    assert!(rt; is_told(alloc, DESIGN, NO_PIN_CHANGES, &no_pin, NO_PIN)?);
    let too_wide = Refusal::Width { entry: 12 };
    assert!(rt; is_told(alloc, DESIGN, TOO_WIDE_CHANGES, &too_wide, TOO_WIDE)?);
    let driven = Refusal::TwoDrivers { entry: 12 };
    assert!(rt; is_told(alloc, DESIGN, DRIVEN_CHANGES, &driven, DRIVEN)?);
    let unclocked = Refusal::NoPhase { element: 0 };
    assert!(rt; is_told(alloc, DESIGN, UNCLOCKED_CHANGES, &unclocked, UNCLOCKED)?);
    Ok(())
}

const NO_INSTANCE_CHANGES: &[Change] = &[("u2/s/b", "u3/s/b")];

const NO_INSTANCE: &str = "error[10]: the delays speak of `u3/s/b`, and there is no such instance
 --> top.sdf:4:34
4 | (CELL (CELLTYPE \"BUF\") (INSTANCE u3/s/b)
  |                                  ^^^^^^ `u3` isn't in the top, `two`
  = why: paths are cut at `/`, as (DIVIDER /) says
  = help: write the SDF of this very netlist; look at DIVIDER, and at names with backslashes
  = note: `refused 10 delays 5`; `mintcx explain 10` says more
";

const NO_WAY_CHANGES: &[Change] = &[("A Y", "Y A")];

const NO_WAY: &str = "error[11]: cell `BUF` has no way from `Y` to `A`
 --> top.sdf:3:27
3 |  (DELAY (ABSOLUTE (IOPATH Y A (0.020:0.020:0.020)))))
  |                           ^^^ of `u1.s.b`, from A to Y
  = help: mend the pins; for a latch or flop look at its entry in cells.toml
  = note: `refused 11 4`; `mintcx explain 11` says more
";

const NEGATIVE_CHANGES: &[Change] = &[("(0.050)", "(-0.018)")];

const NEGATIVE: &str = "error[12]: a delay below 0
 --> top.sdf:5:40
5 |  (DELAY (ABSOLUTE (IOPATH A Y (0.060) (-0.018))))))
  |                                        ^^^^^^ -18 fs, at `u2.s.b`
  = why: static timing tools write them where tables are read beyond their ends, mostly at long nets
  = help: buffer the net; or `--clamp-negative`, which takes 0 for it: safe for setups, not for holds
  = note: `refused 12 5`; `mintcx explain 12` says more
";

const BLANKS_CHANGES: &[Change] = &[("(0.050)", "(-0.018 : 0 : 0)")];

const BLANKS: &str = "error[12]: a delay below 0
 --> top.sdf:5:40
5 |  (DELAY (ABSOLUTE (IOPATH A Y (0.060) (-0.018 : 0 : 0))))))
  |                                        ^^^^^^ -18 fs, at `u2.s.b`
  = why: static timing tools write them where tables are read beyond their ends, mostly at long nets
  = help: buffer the net; or write 0 for it, since `--clamp-negative` leaves values with blanks beside their colons
  = note: `refused 12 5`; `mintcx explain 12` says more
";

const TOO_FAR_CHANGES: &[Change] = &[("1ps", "1ns"), ("0.060", "1500")];

const TOO_FAR: &str = "error[18]: a number above 1 us
 --> top.sdf:5:32
5 |  (DELAY (ABSOLUTE (IOPATH A Y (1500) (0.050))))))
  |                                ^^^^ 1,500,000,000 fs, at `u2.s.b`
  = why: (TIMESCALE 1ns) on line 1 makes it nanoseconds
  = help: mend the unit: a microsecond between two latches is mostly a mistake
  = note: `refused 18 5`; `mintcx explain 18` says more
";

#[test]
fn delays_at_fault_are_told(rt: HostRuntime) -> Result<(), OutOfMemory> {
    let alloc = rt.alloc();
    let no_instance = missing(Role::Delays, 5);
    assert!(rt;
        is_told(
            alloc,
            DESIGN,
            NO_INSTANCE_CHANGES,
            &no_instance,
            NO_INSTANCE
        )?
    );
    let no_way = Refusal::NoArc { entry: 4 };
    assert!(rt; is_told(alloc, DESIGN, NO_WAY_CHANGES, &no_way, NO_WAY)?);
    let negative = Refusal::Negative { entry: 5 };
    assert!(rt; is_told(alloc, DESIGN, NEGATIVE_CHANGES, &negative, NEGATIVE)?);
    let too_far = Refusal::Range { entry: 5 };
    assert!(rt; is_told(alloc, DESIGN, TOO_FAR_CHANGES, &too_far, TOO_FAR)?);
    Ok(())
}

#[test]
fn delays_that_stay_refused_are_told(rt: HostRuntime) -> Result<(), OutOfMemory> {
    let alloc = rt.alloc();
    let negative = Refusal::Negative { entry: 5 };
    assert!(rt; is_told(alloc, DESIGN, BLANKS_CHANGES, &negative, BLANKS)?);
    Ok(())
}

const NO_WHOLE_CHANGES: &[Change] = &[("setup = 10", "setup = 0.01")];

const NO_WHOLE: &str = "error[13]: cell `LAT`: setup is no whole number
 --> cells.toml:6:9
6 | setup = 0.01
  |         ^^^^ a number with a point
  = why: times of descriptions are whole femtoseconds
  = help: 10 ps is `setup = 10_000`
  = note: `refused 13 2 6`; `mintcx explain 13` says more
";

const NO_TOML_CHANGES: &[Change] = &[("\"D\"", "\"D")];

const NO_TOML: &str = "error[13]: cells.toml is no TOML
 --> cells.toml:3:5
3 | d = \"D
  |     ^^ a quote is left open
  = help: close the quote
  = note: `refused 13 0 0`; `mintcx explain 13` says more
";

#[test]
fn cells_at_fault_are_told(rt: HostRuntime) -> Result<(), OutOfMemory> {
    let alloc = rt.alloc();
    let no_whole = Refusal::BadCell { entry: 2, rule: 6 };
    assert!(rt; is_told(alloc, DESIGN, NO_WHOLE_CHANGES, &no_whole, NO_WHOLE)?);
    let no_toml = Refusal::BadCell { entry: 0, rule: 0 };
    assert!(rt; is_told(alloc, DESIGN, NO_TOML_CHANGES, &no_toml, NO_TOML)?);
    Ok(())
}

const NO_PORT_CHANGES: &[Change] = &[("phi2", "phi3")];

const NO_PORT: &str = "error[10]: the top has no input port bit `phi3`
 --> clock.toml:6:8
6 | port = \"phi3\"
  |        ^^^^^^ the inputs are phi1, phi2
  = help: name a port of the top, one bit of an input
  = note: `refused 10 clock 2`; `mintcx explain 10` says more
";

const NO_KEY_CHANGES: &[Change] = &[(
    "port = \"phi2\"
",
    "",
)];

const NO_KEY: &str = "error[14]: phase 2 has no `port`
 --> clock.toml:4:1
4 | [[phase]]
  | ^^^^^^^^^
  = why: each phase has a `name` and a `port`
  = help: add `port = \"phi2\"`
  = note: `refused 14 2 3`; `mintcx explain 14` says more
";

const NO_PHASE_CHANGES: &[Change] = &[(
    "\"phi2\"
",
    "\"phi2\"
[[bound]]
from = \"end p3\"
to = \"start p1\"
gap = 5
cycles = 1
",
)];

const NO_PHASE: &str = "error[14]: bound 1 names no phase `p3`
 --> clock.toml:8:13
8 | from = \"end p3\"
  |             ^^ the phases are p1, p2
  = help: mend the name
  = note: `refused 14 1 5`; `mintcx explain 14` says more
";

#[test]
fn clocks_at_fault_are_told(rt: HostRuntime) -> Result<(), OutOfMemory> {
    let alloc = rt.alloc();
    let no_port = missing(Role::Clock, 2);
    assert!(rt; is_told(alloc, DESIGN, NO_PORT_CHANGES, &no_port, NO_PORT)?);
    let no_key = Refusal::BadClock { entry: 2, rule: 3 };
    assert!(rt; is_told(alloc, DESIGN, NO_KEY_CHANGES, &no_key, NO_KEY)?);
    let no_phase = Refusal::BadClock { entry: 1, rule: 5 };
    assert!(rt; is_told(alloc, DESIGN, NO_PHASE_CHANGES, &no_phase, NO_PHASE)?);
    Ok(())
}

const PHASES: &str = "error[19]: the design has 2 phases, the schedule 1
 --> own.schedule:4:1
4 | phases 1
  | ^^^^^^^^
  = why: the phases are phi1, phi2
  = help: write a line `phase START WIDTH` for each, in this order
  = note: `refused 19 2 1`; `mintcx explain 19` says more
";

const TOO_LONG_CHANGES: &[Change] = &[(
    "inner 0
arcs 2",
    "inner 2
arcs 5
arc q0 n1 900000000 900000000
arc n1 n0 200000000 200000000
arc n0 d1 1 1",
)];

const TOO_LONG: &str = "error[21]: a path from `a` to `b` takes more than 1 us
  --> top.table:11:1
11 | arc n1 n0 200000000 200000000
   | ^^^^^^^^^^^^^^^^^^^^^^^^^^^^^ here it passes 1,000,000,000 fs
   = why: the way is a, n1, n0, b: 900,000,000, 200,000,000 and 1 fs
   = help: look at the units of the delays on the way
   = note: `refused 21 0 2`; `mintcx explain 21` says more
";

#[test]
fn paths_at_fault_are_told(rt: HostRuntime) -> Result<(), OutOfMemory> {
    let alloc = rt.alloc();
    let phases = Refusal::PhaseMismatch {
        design: 2,
        schedule: 1,
    };
    assert!(rt; is_told(alloc, TABLES, &[], &phases, PHASES)?);
    let too_long = Refusal::PathRange { element: 0, bit: 2 };
    assert!(rt; is_told(alloc, TABLES, TOO_LONG_CHANGES, &too_long, TOO_LONG)?);
    Ok(())
}

const LOOP_CHANGES: &[Change] = &[(
    "inner 0
arcs 2",
    "inner 3
arcs 5
arc n0 n1 20 20
arc n1 n2 30 30
arc n2 n0 5 5",
)];

const LOOP: &str = "error[16]: data can run round without a latch or flop, through 3 arcs
  --> top.table:11:1
11 | arc n1 n2 30 30
   | ^^^^^^^^^^^^^^^ n1 -> n2
  ::: top.table:12:1
12 | arc n2 n0 5 5
   | ------------- n2 -> n0
  ::: top.table:10:1
10 | arc n0 n1 20 20
   | --------------- n0 -> n1
   = help: break the loop, or put the missing latch into it
   = note: `refused 16 3 0 1 2`; `mintcx explain 16` says more
";

#[test]
fn loops_are_told(rt: HostRuntime) -> Result<(), OutOfMemory> {
    let alloc = rt.alloc();
    let arcs = Numbers::new(vec![in alloc; 0, 1, 2]?);
    let refusal = Refusal::CombinationalLoop { arcs };
    assert!(rt; is_told(alloc, TABLES, LOOP_CHANGES, &refusal, LOOP)?);
    Ok(())
}
