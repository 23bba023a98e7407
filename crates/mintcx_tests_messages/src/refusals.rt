//! Messages by hand.
use mintc_text::{Kind, Name, Numbers, OutOfMemory, Refusal, Role};
use mintcx_refusals::{Inputs, corner_message, file_of, refusal_message, short_message, teller};
use std::alloc::Global;
use std::process::Abort;

const NETLIST: &str =
    "module m(a);\n  input a;\n  inout t;\n  always @(a) r <= 1;\n  mid u ( .x(a) );\n";

const PADS: &str = "error[1]: this statement isn't structural Verilog
 --> top.v:3:3
3 |   inout t;
  |   ^^^^^^^^
  = why: `inout` ports have no direction that data goes in
  = help: leave pads out of what is timed, or declare it `input` or `output`
  = note: `refused 1 netlist 3`; `mintcx explain 1` says more
";

const BEHAVIOUR: &str = "error[1]: this statement isn't structural Verilog
 --> top.v:4:3
4 |   always @(a) r <= 1;
  |   ^^^^^^^^^^^
  = why: `always` is behaviour, and a netlist has none
  = help: map it to cells first (Yosys: synth; dfflibmap; techmap; abc)
  = note: `refused 1 netlist 4`; `mintcx explain 1` says more
";

const NO_MODULE: &str = "error[4]: there is no cell or module `mid`
 --> top.v:5:3
5 |   mid u ( .x(a) );
  |   ^^^ in module `m`
  = help: describe it in cells.toml, give the library with --lib, or add its module
  = note: `refused 4 5`; `mintcx explain 4` says more
";

const UNREAD: &str = "error[4]: the cell of an instance is neither described nor a module
 --> top.v
 = why: it is statement 5; statements are counted from 1, `endmodule` alike
 = help: describe it in cells.toml, give the library with --lib, or add its module
 = note: `refused 4 5`; `mintcx explain 4` says more
";

const UNCLOSED: &str = "error[1]: the netlist ends inside of a module
 --> top.v:5:3
5 |   mid u ( .x(a) );
  |   ^^^^^^^^^^^^^^^^ the last statement; `endmodule` has to follow
  = why: statement 6 is missing
  = help: close the module, or fetch the file again
  = note: `refused 1 netlist 6`; `mintcx explain 1` says more
";

const NO_CLOCK: &str = "error[15]: a latch or flop is on no phase
 --> top.v
 = why: it is latch or flop 7, counted from 0 as they stand in the hierarchy
 = why: a clock goes through cells of kind `clock` alone
 = help: describe the cells on its clock's way in cells.toml with the kind `clock`, if they carry no data, and give its port a phase
 = note: `refused 15 7`; `mintcx explain 15` says more
";

const TOO_MANY: &str =
    "error[17]: the design has 1,000,001 instances of modules, and at most 1,000,000 are taken
 = help: judge the design in parts: name a smaller `top` in clock.toml
 = note: `refused 17 scopes 1000001`; `mintcx explain 17` says more
";

const TOO_MANY_ELEMENTS: &str =
    "error[17]: the design has 40,002 latches, flops and listed ports, and at most 20,000 are taken
 = help: judge the design in parts: name a smaller `top` in clock.toml; with edges apart `--edges merged` takes half
 = note: `refused 17 elements 40002`; `mintcx explain 17` says more
";

fn names(alloc: Global) -> Result<Vec<Name>, OutOfMemory> {
    let mut names = Vec::new(alloc);
    names.push(Name::new(alloc, b"top.v")?)?;
    names.push(Name::new(alloc, b"top.sdf")?)?;
    names.push(Name::new(alloc, b"cells.toml")?)?;
    names.push(Name::new(alloc, b"clock.toml")?)?;
    Ok(names)
}

const CORNERS: &[Role] = &[
    Role::Netlist,
    Role::Cells,
    Role::Clock,
    Role::Delays,
    Role::Delays,
];

const ROLES: &[Role] = &[Role::Netlist, Role::Delays, Role::Cells, Role::Clock];

fn is_told(alloc: Global, refusal: &Refusal, file: &str, text: &str) -> Result<bool, OutOfMemory> {
    let names = names(alloc)?;
    let inputs = Inputs {
        roles: ROLES,
        names: &names,
        beside: b"",
    };
    let message = refusal_message(alloc, refusal, &inputs, file.as_bytes())?;
    Ok(message.items() == text.as_bytes())
}

/// Whether the message of a refusal of the file beside a table is this.
fn is_told_beside(
    alloc: Global,
    name: &[u8],
    refusal: &Refusal,
    file: &str,
    text: &str,
) -> Result<bool, OutOfMemory> {
    let names = vec![in alloc; Name::new(alloc, b"top.table")?, Name::new(alloc, name)?]?;
    let beside = match refusal {
        Refusal::Syntax { role, .. } => *role,
        _ => Role::Schedule,
    };
    let inputs = Inputs {
        roles: &[Role::Table, beside],
        names: &names,
        beside: b"",
    };
    let message = refusal_message(alloc, refusal, &inputs, file.as_bytes())?;
    Ok(message.items() == text.as_bytes())
}

#[test]
fn statements_are_shown(rt: HostRuntime) -> Result<(), OutOfMemory> {
    let alloc = rt.alloc();
    for (entry, text) in &[(3, PADS), (4, BEHAVIOUR), (6, UNCLOSED)] {
        let refusal = Refusal::Syntax {
            role: Role::Netlist,
            entry: *entry,
        };
        assert!(rt; is_told(alloc, &refusal, NETLIST, text)?);
    }
    let no_module = Refusal::NoModule { entry: 5 };
    assert!(rt; is_told(alloc, &no_module, NETLIST, NO_MODULE)?);
    assert!(rt; is_told(alloc, &no_module, "", UNREAD)?);
    Ok(())
}

const TABLE: &str = "table 1
phases 2
phase phi1
phase phi2
elements 2
element a 1 10 - 10 10 0
element b 2 10 - 20 10 0
";

const TURNED: &str = "error[1]: this line of the table is out of form
 --> top.table:7:18
7 | element b 2 10 - 20 10 0
  |                  ^^^^^ 20 is above 10
  = why: the form is `element NAME PHASE SETUP HOLD DQMIN DQMAX WIDTH`
  = help: make the least number at most the greatest
  = note: `refused 1 table 7`; `mintcx explain 1` says more
";

const MODULES: &str = "module half(c, i, o);
  input c;
  input i;
  output o;
  wire q;
  wire q;
  slice s ( .a(q), .t(1'h0), .z(o) );
endmodule
module slice(a, t, z);
  half h ( .c(a), .i(a), .o() );
endmodule
";

const TWICE: &str = "error[3]: `q` is declared twice
 --> top.v:6:8
6 |   wire q;
  |        ^ declared again
 ::: top.v:5:8
5 |   wire q;
  |        - declared here first
  = why: a net has one declaration in its module
  = help: take one of them out, or rename it
  = note: `refused 3 6`; `mintcx explain 3` says more
";

const RING: &str = "error[5]: module `slice` has itself inside
  --> top.v:10:3
10 |   half h ( .c(a), .i(a), .o() );
   |   ^^^^ slice -> half -> slice
   = why: modules that hold each other have no end
   = help: take the instance out
   = note: `refused 5 10`; `mintcx explain 5` says more
";

const DRIVING: &str = "/* in the style of Yosys */
(* src = \"two.v:1.1-9.10\" *)
module two(phi1, phi2, y);
  input phi1;
  wire phi1;
  input phi2;
  wire phi2;
  output y;
  wire y;
  wire \\loop.back ;
  wire mid;
  assign y = \\loop.back ;
  half u1 ( .c(phi1), .i(\\loop.back ), .o(mid) );
  half u2 ( .c(phi2), .i(mid), .o(mid) );
endmodule
module half(c, i, o);
  input c;
  input i;
  output o;
  wire q;
  LAT \\l[0]  ( .D(i), .G(c), .Q(q) );
  slice s ( .a(q), .t(1'h0), .z(o) );
endmodule
module slice(a, t, z);
  input a;
  inout t;
  output z;
  BUF b ( .A(a), .Y(z) );
endmodule
";

const LOOP: &str = "table 1
arcs 3
arc n0 n1 20 20
arc n1 n2 30 30
arc n2 n0 5 5
";

const ROUND: &str = "error[16]: data can run round without a latch or flop, through 3 arcs
 --> top.table:4:1
4 | arc n1 n2 30 30
  | ^^^^^^^^^^^^^^^ n1 -> n2
 ::: top.table:5:1
5 | arc n2 n0 5 5
  | ------------- n2 -> n0
 ::: top.table:3:1
3 | arc n0 n1 20 20
  | --------------- n0 -> n1
  = help: break the loop, or put the missing latch into it
  = note: `refused 16 3 0 1 2`; `mintcx explain 16` says more
";

const TOPS: &str = "error[9]: 2 modules may be the top: `two`, `spare`
  --> top.v:1:8
 1 | module two(phi1, phi2, y);
   |        ^^^ nothing instantiates it
  ::: top.v:11:8
11 | module spare(a);
   |        ----- nor this
   = help: name one: `top = \"two\"` in clock.toml
   = note: `refused 9 2`; `mintcx explain 9` says more
";

const DRIVEN: &str = "error[8]: `mid` has two drivers
  --> top.v:14:35
14 |   half u2 ( .c(phi2), .i(mid), .o(mid) );
   |                                   ^^^ driven again
  ::: top.v:13:43
13 |   half u1 ( .c(phi1), .i(\\loop.back ), .o(mid) );
   |                                           --- driven here first
   = why: a bit has one driver: an input port, an assign or one output
   = help: leave one
   = note: `refused 8 12`; `mintcx explain 8` says more
";

#[test]
fn places_are_looked_for(rt: HostRuntime) -> Result<(), OutOfMemory> {
    let alloc = rt.alloc();
    let arcs = Refusal::CombinationalLoop {
        arcs: Numbers::new(vec![in alloc; 0, 1, 2]?),
    };
    assert!(rt; is_told_beside(alloc, b"own.table", &arcs, LOOP, ROUND)?);
    let netlist =
        "module two(phi1, phi2, y);\nendmodule\n\n\n\n\n\n\n\n\nmodule spare(a);\nendmodule\n";
    assert!(rt; is_told(alloc, &Refusal::TopUnclear { count: 2 }, netlist, TOPS)?);
    assert!(rt; is_told(alloc, &Refusal::TwoDrivers { entry: 12 }, DRIVING, DRIVEN)?);
    Ok(())
}

#[test]
fn words_at_fault_are_shown(rt: HostRuntime) -> Result<(), OutOfMemory> {
    let alloc = rt.alloc();
    let turned = Refusal::Syntax {
        role: Role::Table,
        entry: 7,
    };
    assert!(rt; is_told_beside(alloc, b"own.table", &turned, TABLE, TURNED)?);
    assert!(rt; is_told(alloc, &Refusal::NameTwice { entry: 6 }, MODULES, TWICE)?);
    assert!(rt; is_told(alloc, &Refusal::Recursive { entry: 10 }, MODULES, RING)?);
    Ok(())
}

#[test]
fn no_place_is_shown_where_none_is_known(rt: HostRuntime) -> Result<(), OutOfMemory> {
    let alloc = rt.alloc();
    assert!(rt; is_told(alloc, &Refusal::NoPhase { element: 7 }, NETLIST, NO_CLOCK)?);
    let many = Refusal::Limit {
        kind: Kind::Scopes,
        count: 1_000_001,
    };
    assert!(rt; is_told(alloc, &many, "", TOO_MANY)?);
    let elements = Refusal::Limit {
        kind: Kind::Elements,
        count: 40_002,
    };
    assert!(rt; is_told(alloc, &elements, "", TOO_MANY_ELEMENTS)?);
    Ok(())
}

const DELAYS: &str = "(DELAYFILE (SDFVERSION \"3.0\") (DIVIDER /) (TIMESCALE 1ns)
(CELL (CELLTYPE \"BUF\") (INSTANCE u1/s/b)
 (DELAY (INCREMENT (IOPATH Y A (0.020:0.020:0.020)))))
(CELL (CELLTYPE \"BUF\") (INSTANCE u2/s/b)
 (DELAY (ABSOLUTE (IOPATH A Y (1500) (0.050))))))
";

const NEGATIVES: &str = "(DELAYFILE (SDFVERSION \"3.0\") (DIVIDER /) (TIMESCALE 1ps)
(CELL (CELLTYPE \"BUF\") (INSTANCE u1/s/b)
 (DELAY (ABSOLUTE (IOPATH A Y (0.020:0.020:0.020)))))
(CELL (CELLTYPE \"BUF\") (INSTANCE u2/s/b)
 (DELAY (ABSOLUTE (IOPATH A Y (0.060) (-0.018))))))
";

const INCREMENT: &str = "error[1]: this part of the delays isn't read
 --> top.sdf:3:10
3 |  (DELAY (INCREMENT (IOPATH Y A (0.020:0.020:0.020)))))
  |          ^^^^^^^^^ `INCREMENT` is outside of the profile
  = why: it is entry 4; entries are counted from 1, headers and cells alike
  = help: have the tool write sums, under ABSOLUTE
  = note: `refused 1 delays 4`; `mintcx explain 1` says more
";

const UNENDED: &str = "error[1]: the delays don't end behind their last entry
 --> top.sdf:4:1
4 | (CELL (CELLTYPE \"BUF\") (INSTANCE u2/s/b)
  | ^^^^^^^^^^^^^^^^^^^^^^^^^^^^^^^^^^^^^^^^ the last entry; `)` alone has to follow
  = why: it is entry 6; entries are counted from 1, headers and cells alike
  = help: have the tool write ABSOLUTE delays and timing checks alone
  = note: `refused 1 delays 6`; `mintcx explain 1` says more
";

const NO_INSTANCE: &str = "error[10]: the delays speak of `u2/s/b`, and there is no such cell
 --> top.sdf:4:34
4 | (CELL (CELLTYPE \"BUF\") (INSTANCE u2/s/b)
  |                                  ^^^^^^
  = why: paths are cut at `/`, as (DIVIDER /) says
  = help: write the SDF of this very netlist; look at DIVIDER, and at names with backslashes
  = note: `refused 10 delays 5`; `mintcx explain 10` says more
";

const NO_ARC: &str = "error[11]: cell `BUF` has no way from `Y` to `A`
 --> top.sdf:3:28
3 |  (DELAY (INCREMENT (IOPATH Y A (0.020:0.020:0.020)))))
  |                            ^^^ of `u1.s.b`
  = help: mend the pins; for a latch or flop look at its entry in cells.toml
  = note: `refused 11 4`; `mintcx explain 11` says more
";

const NEGATIVE: &str = "error[12]: a delay below 0
 --> top.sdf:5:40
5 |  (DELAY (ABSOLUTE (IOPATH A Y (0.060) (-0.018))))))
  |                                        ^^^^^^ -18 fs, at `u2.s.b`
  = why: static timing tools write them where tables are read beyond their ends, mostly at long nets
  = help: buffer the net; or `--clamp-negative`, which takes 0 for it: safe for setups, not for holds
  = note: `refused 12 5`; `mintcx explain 12` says more
";

const TOO_LONG: &str = "error[18]: a number above 1 us
 --> top.sdf:5:32
5 |  (DELAY (ABSOLUTE (IOPATH A Y (1500) (0.050))))))
  |                                ^^^^ 1,500,000,000 fs, at `u2.s.b`
  = why: (TIMESCALE 1ns) on line 1 makes it nanoseconds
  = help: mend the unit: a microsecond between two latches is mostly a mistake
  = note: `refused 18 5`; `mintcx explain 18` says more
";

const LIBRARY: &str = "library (cells) {\n  cell (BUF) {\n  area : 4.0\n  }\n}\n";

const NO_SEMICOLON: &str = "error[1]: this statement of the library is out of form
 --> cells.lib:3:3
3 |   area : 4.0
  |   ^^^^^^^^^^ no `;` ends it
  = why: it is statement 1 directly in the library, a `cell` that holds it
  = help: end it with `;`, or fetch the library again
  = note: `refused 1 cells 1`; `mintcx explain 1` says more
";

#[test]
fn entries_out_of_form_are_shown(rt: HostRuntime) -> Result<(), OutOfMemory> {
    let alloc = rt.alloc();
    for (entry, text) in &[(4, INCREMENT), (6, UNENDED)] {
        let refusal = Refusal::Syntax {
            role: Role::Delays,
            entry: *entry,
        };
        assert!(rt; is_told(alloc, &refusal, DELAYS, text)?);
    }
    let statement = Refusal::Syntax {
        role: Role::Cells,
        entry: 1,
    };
    assert!(rt; is_told_beside(alloc, b"cells.lib", &statement, LIBRARY, NO_SEMICOLON)?);
    Ok(())
}

#[test]
fn entries_of_delays_are_shown(rt: HostRuntime) -> Result<(), OutOfMemory> {
    let alloc = rt.alloc();
    let no_instance = Refusal::NoInstance {
        role: Role::Delays,
        entry: 5,
    };
    assert!(rt; is_told(alloc, &no_instance, DELAYS, NO_INSTANCE)?);
    assert!(rt; is_told(alloc, &Refusal::NoArc { entry: 4 }, DELAYS, NO_ARC)?);
    assert!(rt; is_told(alloc, &Refusal::Negative { entry: 5 }, NEGATIVES, NEGATIVE)?);
    assert!(rt; is_told(alloc, &Refusal::Range { entry: 5 }, DELAYS, TOO_LONG)?);
    Ok(())
}

const SCHEDULE: &str = "schedule 1\nden 1\ncycle 100\nphases 1\nphase 10 30.5\nend\n";

const DECIMALS: &str = "error[1]: this line of the schedule is out of form
 --> own.schedule:5:10
5 | phase 10 30.5
  |          ^^^^ no whole number
  = why: times are whole numbers over `den`
  = help: write `den 2` and double each number, or take whole femtoseconds
  = note: `refused 1 schedule 5`; `mintcx explain 1` says more
";

const SHORT: &str = "error[1]: the schedule ends too soon
 --> own.schedule:6:1
6 | end
  | ^^^ the last line; `end` has to follow
  = why: line 7 is missing
  = help: complete the file
  = note: `refused 1 schedule 7`; `mintcx explain 1` says more
";

const PHASES: &str = "error[19]: the design has 2 phases, the schedule 1
 --> own.schedule:4:1
4 | phases 1
  | ^^^^^^^^
  = help: write a line `phase START WIDTH` for each, in this order
  = note: `refused 19 2 1`; `mintcx explain 19` says more
";

#[test]
fn lines_are_shown(rt: HostRuntime) -> Result<(), OutOfMemory> {
    let alloc = rt.alloc();
    for (entry, text) in &[(5, DECIMALS), (7, SHORT)] {
        let refusal = Refusal::Syntax {
            role: Role::Schedule,
            entry: *entry,
        };
        assert!(rt; is_told_beside(alloc, b"own.schedule", &refusal, SCHEDULE, text)?);
    }
    let phases = Refusal::PhaseMismatch {
        design: 2,
        schedule: 1,
    };
    assert!(rt; is_told_beside(alloc, b"own.schedule", &phases, SCHEDULE, PHASES)?);
    Ok(())
}

#[test]
fn short_messages_have_one_line(rt: HostRuntime) -> Result<(), OutOfMemory> {
    let names = names(rt.alloc())?;
    let inputs = Inputs {
        roles: ROLES,
        names: &names,
        beside: b"",
    };
    let refusal = Refusal::TwoDrivers { entry: 5 };
    let message = short_message(rt.alloc(), &refusal, &inputs, NETLIST.as_bytes())?;
    let text = "top.v:5:3: error[8]: this statement drives a bit that has a driver already\n";
    assert!(rt; message.items() == text.as_bytes());
    Ok(())
}

const CORNER: &str = "error[22]: corner 2, cold.sdf, is refused
error[1]: this part of the delays isn't read
 --> cold.sdf:1:1
1 | (DELAYFILE
  | ^ this isn't closed
  = why: each corner has to be a design by itself
  = help: mend that file
  = note: `refused 22 2; refused 1 delays 1`; `mintcx explain 22` says more
";

#[test]
fn corners_are_told_with_their_own_refusals(rt: HostRuntime) -> Result<(), OutOfMemory> {
    let alloc = rt.alloc();
    let names = vec![in alloc;
        Name::new(alloc, b"top.v")?,
        Name::new(alloc, b"cells.toml")?,
        Name::new(alloc, b"clock.toml")?,
        Name::new(alloc, b"hot.sdf")?,
        Name::new(alloc, b"cold.sdf")?,
    ]?;
    let inputs = Inputs {
        roles: CORNERS,
        names: &names,
        beside: b"",
    };
    let own = Refusal::Syntax {
        role: Role::Delays,
        entry: 1,
    };
    let message = corner_message(alloc, 2, &own, &inputs, b"(DELAYFILE\n")?;
    assert!(rt; message.items() == CORNER.as_bytes());
    let corner = Refusal::Corner { file: 2 };
    assert!(rt; file_of(CORNERS, teller(&corner, &own)) == Some(4));
    assert!(rt; file_of(CORNERS, teller(&corner, &Refusal::NoModule { entry: 1 })) == Some(0));
    Ok(())
}

#[test]
fn files_are_found_by_what_they_hold(rt: HostRuntime) {
    assert!(rt; file_of(ROLES, &Refusal::Negative { entry: 1 }) == Some(1));
    assert!(rt;
        file_of(
            ROLES,
            &Refusal::PhaseMismatch {
                design: 1,
                schedule: 2
            }
        )
        .is_none()
    );
    assert!(rt; file_of(CORNERS, &Refusal::Corner { file: 2 }) == Some(4));
    assert!(rt; file_of(CORNERS, &Refusal::Corner { file: 3 }).is_none());
}

const CELLS: &str = "[cell.LAT]
kind = \"latch\"
d = \"D\"
g = \"G\"
outputs = [\"Q\"]
setup = 0.01
dq_min = 10
[cell.BUF]
kind = \"gate\"
inputs = [\"A\"]
outputs = [\"Y\"]
";

const NO_WHOLE: &str = "error[13]: cell `LAT`: setup is no whole number
 --> cells.toml:6:9
6 | setup = 0.01
  |         ^^^^ a number with a point
  = why: times of descriptions are whole femtoseconds
  = help: 10 ps is `setup = 10_000`
  = note: `refused 13 2 6`; `mintcx explain 13` says more
";

const OPEN: &str = "[cell.LAT]
kind = \"latch\"
d = \"D
g = \"G\"
";

const NO_TOML: &str = "error[13]: cells.toml is no TOML
 --> cells.toml:3:5
3 | d = \"D
  |     ^^ a quote is left open
  = help: close the quote
  = note: `refused 13 0 0`; `mintcx explain 13` says more
";

const CLOCKS: &str = "[[phase]]
name = \"p1\"
port = \"phi1\"
[[phase]]
name = \"p2\"
[[bound]]
from = \"end p3\"
to = \"start p1\"
gap = 5
cycles = 1
[[phase]]
name = \"p2\"
port = \"phi3\"
";

const NO_KEY: &str = "error[14]: phase 2 has no `port`
 --> clock.toml:4:1
4 | [[phase]]
  | ^^^^^^^^^
  = why: each phase has a `name` and a `port`
  = help: add `port = ..`
  = note: `refused 14 2 3`; `mintcx explain 14` says more
";

const NO_NAME: &str = "error[14]: bound 1 names no phase `p3`
 --> clock.toml:7:13
7 | from = \"end p3\"
  |             ^^ the phases are p1, p2, p2
  = help: mend the name
  = note: `refused 14 1 5`; `mintcx explain 14` says more
";

const NO_BIT: &str = "error[10]: the top has no input port bit `phi3`
  --> clock.toml:13:8
13 | port = \"phi3\"
   |        ^^^^^^
   = help: name a port of the top, one bit of an input
   = note: `refused 10 clock 3`; `mintcx explain 10` says more
";

#[test]
fn keys_of_descriptions_are_shown(rt: HostRuntime) -> Result<(), OutOfMemory> {
    let alloc = rt.alloc();
    let no_whole = Refusal::BadCell { entry: 2, rule: 6 };
    assert!(rt; is_told(alloc, &no_whole, CELLS, NO_WHOLE)?);
    let no_toml = Refusal::BadCell { entry: 0, rule: 0 };
    assert!(rt; is_told(alloc, &no_toml, OPEN, NO_TOML)?);
    for (entry, rule, text) in &[(2, 3, NO_KEY), (1, 5, NO_NAME)] {
        let refusal = Refusal::BadClock {
            entry: *entry,
            rule: *rule,
        };
        assert!(rt; is_told(alloc, &refusal, CLOCKS, text)?);
    }
    let no_bit = Refusal::NoInstance {
        role: Role::Clock,
        entry: 3,
    };
    assert!(rt; is_told(alloc, &no_bit, CLOCKS, NO_BIT)?);
    Ok(())
}

const CONNECTED: &str = "module two(phi1, phi2, y);
  input phi1, phi2;
  output y;
  wire mid;
  half u2 ( .c(phi2), .i({mid, mid}), .o(y), .p(mid) );
endmodule
module half(c, i, o);
  input c;
  input i;
  output o;
endmodule
";

const TOO_WIDE: &str = "error[7]: 2 bits are connected to port `i`, which has 1
 --> top.v:5:26
5 |   half u2 ( .c(phi2), .i({mid, mid}), .o(y), .p(mid) );
  |                          ^^^^^^^^^^ 2 bits
  = help: make both sides as wide
  = note: `refused 7 5`; `mintcx explain 7` says more
";

const NO_PORT: &str = "error[6]: module `half` has no port `p`
 --> top.v:5:47
5 |   half u2 ( .c(phi2), .i({mid, mid}), .o(y), .p(mid) );
  |                                               ^ not one of c, i, o
  = help: mend the name, or add the port to the module
  = note: `refused 6 5`; `mintcx explain 6` says more
";

#[test]
fn connections_are_shown(rt: HostRuntime) -> Result<(), OutOfMemory> {
    let alloc = rt.alloc();
    assert!(rt; is_told(alloc, &Refusal::Width { entry: 5 }, CONNECTED, TOO_WIDE)?);
    assert!(rt; is_told(alloc, &Refusal::NoPin { entry: 5 }, CONNECTED, NO_PORT)?);
    Ok(())
}
