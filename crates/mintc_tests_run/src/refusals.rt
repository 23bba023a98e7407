//! Each refusal by its number: texts that are refused, of which most are the smallest ones of docs/refusals.md.
//! Number 17 is tried in `limits`.
use super::harness::{CLOCK, NO_ELEMENT, is_answered, is_optimised, is_refused};
use mintc_command::Status;
use mintc_tests_designs::{SUM_PAST_LIMIT, TWO_CELLS, TWO_LATCHES, shelf_of};
use mintc_text::{MemoryShelf, Name, Numbers, OutOfMemory};
use std::alloc::Global;
use std::process::Abort;
use std::test::Fail;

/// The words of a run, files with their texts, and the answer.
type Run = (
    &'static str,
    &'static [(&'static str, &'static str)],
    &'static str,
);

/// A run is refused with its answer.
fn is_refused_run(rt: &impl Abort, alloc: Global, run: &Run) -> Result<(), OutOfMemory> {
    let (words, files, answer) = *run;
    let mut shelf = shelf_of(alloc, files, &[])?;
    let wanted = (Status::Refused, answer.as_bytes());
    is_answered(rt, alloc, &mut shelf, words, None, wanted);
    Ok(())
}

/// Each run is refused with its answer.
fn are_refused_runs(rt: &impl Abort, alloc: Global, runs: &[Run]) -> Result<(), OutOfMemory> {
    for run in runs {
        is_refused_run(rt, alloc, run)?;
    }
    Ok(())
}

/// What stands in the module `m`, and the answers of which one comes.
type Body = (&'static str, &'static [&'static str]);

/// The module `m` with this body is refused with one of these answers.
fn is_refused_body(
    rt: &impl Abort,
    alloc: Global,
    body: &str,
    answers: &[&str],
) -> Result<(), OutOfMemory> {
    let netlist = format!(in alloc; "module m(c); input c; {body} endmodule")?;
    is_refused(rt, alloc, netlist.as_str(), answers)
}

/// The module `m` with each of these bodies is refused with one of its answers.
fn are_refused(rt: &impl Abort, alloc: Global, bodies: &[Body]) -> Result<(), OutOfMemory> {
    for (body, answers) in bodies {
        is_refused_body(rt, alloc, body, answers)?;
    }
    Ok(())
}

const OF_1_TABLES: &[Run] = &[
    (
        "check table t s",
        &[("t", ""), ("s", "")],
        "refused 1 table 1\n",
    ),
    (
        "check table t s",
        &[("t", TWO_LATCHES), ("s", "")],
        "refused 1 schedule 1\n",
    ),
    (
        "verify table t x",
        &[("t", TWO_LATCHES), ("x", "")],
        "refused 1 certificate 1\n",
    ),
];

#[test]
fn refusal_1_of_tables_schedules_and_certificates(rt: HostRuntime) -> Result<(), Fail> {
    are_refused_runs(&rt, rt.alloc(), OF_1_TABLES)?;
    Ok(())
}

/// Whole netlists, and their answers.
const OF_1_TEXTS: &[(&str, &str)] = &[
    (
        "module m(c); input c; LAT a (.D(c)",
        "refused 1 netlist 3\n",
    ),
    ("module m(c); input c;", "refused 1 netlist 3\n"),
    ("inout d;", "refused 1 netlist 1\n"),
    ("module m;", "refused 1 netlist 2\n"),
];

const OF_1_BODIES: &[Body] = &[
    ("inout d;", &["refused 1 netlist 3\n"]),
    (
        "wire w; assign w = {{{{{{{{{{{{{{{{{{{{{{{{{{{{{{{{{c}}}}}}}}}}}}}}}}}}}}}}}}}}}}}}}}};",
        &["refused 1 netlist 4\n"],
    ),
];

#[test]
fn refusal_1_of_netlists(rt: HostRuntime) -> Result<(), Fail> {
    are_refused(&rt, rt.alloc(), OF_1_BODIES)?;
    for (text, answer) in OF_1_TEXTS {
        is_refused(&rt, rt.alloc(), text, &[*answer])?;
    }
    Ok(())
}

/// A netlist of one buffer.
const LEAF: &str = "module m(c); input c; BUF b (.A(c)); endmodule";

const OF_1_DELAYS: &[Run] = &[
    (
        "optimise files v d c k",
        &[("v", LEAF), ("d", ""), ("c", TWO_CELLS), ("k", CLOCK)],
        "refused 1 delays 0\n",
    ),
    (
        "optimise files v d c k",
        &[
            ("v", LEAF),
            ("d", "(DELAYFILE"),
            ("c", TWO_CELLS),
            ("k", CLOCK),
        ],
        "refused 1 delays 1\n",
    ),
];

#[test]
fn refusal_1_of_delays(rt: HostRuntime) -> Result<(), Fail> {
    are_refused_runs(&rt, rt.alloc(), OF_1_DELAYS)?;
    Ok(())
}

/// A shelf with a table of so many bytes.
fn long_shelf(alloc: Global, length: usize) -> Result<MemoryShelf, OutOfMemory> {
    let mut held = Vec::new(alloc);
    let bytes = vec![in alloc; b't'; length]?;
    held.push((Name::new(alloc, b"t")?, bytes))?;
    Ok(MemoryShelf::new(held, Numbers::new(Vec::new(alloc))))
}

#[test]
fn refusal_2_of_a_table_that_is_too_long(rt: HostRuntime) -> Result<(), Fail> {
    let mut shelf = long_shelf(rt.alloc(), 67_108_865)?;
    let wanted = (Status::Refused, b"refused 2 table\n".as_slice());
    is_answered(
        &rt,
        rt.alloc(),
        &mut shelf,
        "optimise table t",
        None,
        wanted,
    );
    Ok(())
}

const OF_3: &[Body] = &[
    ("wire w; wire w;", &["refused 3 4\n"]),
    ("FOO a (); wire w; wire w;", &["refused 3 5\n"]),
    ("LAT a (.D(c), .G(c), .Q(), .Q());", &["refused 3 3\n"]),
];

#[test]
fn refusal_3_of_a_name_that_is_given_twice(rt: HostRuntime) -> Result<(), Fail> {
    are_refused(&rt, rt.alloc(), OF_3)?;
    Ok(())
}

const OF_4: &[Body] = &[
    ("FOO a ();", &["refused 4 3\n"]),
    ("assign c = 1'b0; FOO a ();", &["refused 4 4\n"]),
];

#[test]
fn refusal_4_of_a_cell_that_is_not_there(rt: HostRuntime) -> Result<(), Fail> {
    are_refused(&rt, rt.alloc(), OF_4)?;
    Ok(())
}

const OF_5: &[Body] = &[("m u (.c(c));", &["refused 5 3\n"])];

#[test]
fn refusal_5_of_instances_that_lead_round(rt: HostRuntime) -> Result<(), Fail> {
    are_refused(&rt, rt.alloc(), OF_5)?;
    Ok(())
}

const OF_6: &[Body] = &[("LAT a (.D(1'b0), .G(c), .E(c));", &["refused 6 3\n"])];

#[test]
fn refusal_6_of_a_pin_that_is_not_there(rt: HostRuntime) -> Result<(), Fail> {
    are_refused(&rt, rt.alloc(), OF_6)?;
    Ok(())
}

const OF_7: &[Body] = &[("wire [1:0] w; assign w = c;", &["refused 7 4\n"])];

#[test]
fn refusal_7_of_widths_that_do_not_fit(rt: HostRuntime) -> Result<(), Fail> {
    are_refused(&rt, rt.alloc(), OF_7)?;
    Ok(())
}

const OF_8: &[Body] = &[
    ("assign c = 1'b0;", &["refused 8 3\n"]),
    ("wire w; assign {w, w} = 2'b0;", &["refused 8 4\n"]),
];

#[test]
fn refusal_8_of_a_bit_with_two_drivers(rt: HostRuntime) -> Result<(), Fail> {
    are_refused(&rt, rt.alloc(), OF_8)?;
    Ok(())
}

#[test]
fn refusal_9_where_no_module_is_the_top(rt: HostRuntime) -> Result<(), Fail> {
    is_refused(&rt, rt.alloc(), "", &["refused 9 0\n"])?;
    Ok(())
}

const OF_10: &[Run] = &[
    (
        "optimise files v d c k",
        &[
            ("v", LEAF),
            ("d", "(DELAYFILE)"),
            ("c", TWO_CELLS),
            ("k", "[[phase]]\nname = \"p\"\nport = \"d\"\n"),
        ],
        "refused 10 clock 1\n",
    ),
    (
        "optimise files v d c k",
        &[
            ("v", LEAF),
            (
                "d",
                "(DELAYFILE(CELL(CELLTYPE \"BUF\")(INSTANCE x)(DELAY(ABSOLUTE(IOPATH A Y (1))))))",
            ),
            ("c", TWO_CELLS),
            ("k", CLOCK),
        ],
        "refused 10 delays 1\n",
    ),
];

#[test]
fn refusal_10_of_a_port_or_an_instance_that_is_not_there(rt: HostRuntime) -> Result<(), Fail> {
    are_refused_runs(&rt, rt.alloc(), OF_10)?;
    Ok(())
}

const OF_11: &[Run] = &[(
    "optimise files v d c k",
    &[
        ("v", LEAF),
        (
            "d",
            "(DELAYFILE(CELL(CELLTYPE \"BUF\")(INSTANCE b)(DELAY(ABSOLUTE(IOPATH Y A (1))))))",
        ),
        ("c", TWO_CELLS),
        ("k", CLOCK),
    ],
    "refused 11 1\n",
)];

#[test]
fn refusal_11_of_pins_that_a_leaf_does_not_have(rt: HostRuntime) -> Result<(), Fail> {
    are_refused_runs(&rt, rt.alloc(), OF_11)?;
    Ok(())
}

// The second is row negative-delay.
const OF_12: &[Run] = &[
    (
        "optimise files v d c k",
        &[
            ("v", LEAF),
            (
                "d",
                "(DELAYFILE(CELL(CELLTYPE\"\")(INSTANCE)(DELAY(ABSOLUTE(PORT a(-1))))))",
            ),
            ("c", TWO_CELLS),
            ("k", CLOCK),
        ],
        "refused 12 1\n",
    ),
    (
        "optimise files v d c k",
        &[
            ("v", LEAF),
            (
                "d",
                "(DELAYFILE (SDFVERSION \"3.0\") (DIVIDER /) (TIMESCALE 1 ns)\n\
                 (CELL (CELLTYPE \"BUF\") (INSTANCE b) (DELAY (ABSOLUTE (IOPATH A Y (-0.1))))))\n",
            ),
            ("c", TWO_CELLS),
            ("k", CLOCK),
        ],
        "refused 12 4\n",
    ),
];

#[test]
fn refusal_12_of_a_negative_delay(rt: HostRuntime) -> Result<(), Fail> {
    are_refused_runs(&rt, rt.alloc(), OF_12)?;
    Ok(())
}

const OF_13: &[Run] = &[
    (
        "optimise files v d c k",
        &[("v", LEAF), ("d", "(DELAYFILE)"), ("c", "="), ("k", CLOCK)],
        "refused 13 0 0\n",
    ),
    (
        "optimise files v d c k",
        &[
            ("v", LEAF),
            ("d", "(DELAYFILE)"),
            ("c", "cell.a=1"),
            ("k", CLOCK),
        ],
        "refused 13 1 2\n",
    ),
];

#[test]
fn refusal_13_of_cells(rt: HostRuntime) -> Result<(), Fail> {
    are_refused_runs(&rt, rt.alloc(), OF_13)?;
    Ok(())
}

const OF_14: &[Run] = &[
    (
        "optimise files v d c k",
        &[
            ("v", LEAF),
            ("d", "(DELAYFILE)"),
            ("c", TWO_CELLS),
            ("k", "="),
        ],
        "refused 14 0 0\n",
    ),
    (
        "optimise files v d c k",
        &[
            ("v", LEAF),
            ("d", "(DELAYFILE)"),
            ("c", TWO_CELLS),
            ("k", ""),
        ],
        "refused 14 0 2\n",
    ),
];

#[test]
fn refusal_14_of_a_clock(rt: HostRuntime) -> Result<(), Fail> {
    are_refused_runs(&rt, rt.alloc(), OF_14)?;
    Ok(())
}

const OF_15: &[Body] = &[("LAT a (.D(c), .G(1'b1));", &["refused 15 0\n"])];

#[test]
fn refusal_15_of_an_enable_without_a_phase(rt: HostRuntime) -> Result<(), Fail> {
    are_refused(&rt, rt.alloc(), OF_15)?;
    Ok(())
}

const OF_16: &[Body] = &[(
    "wire a, b; assign a = b; assign b = a;",
    &["refused 16 2 0 1\n", "refused 16 2 1 0\n"],
)];

#[test]
fn refusal_16_of_assignments_that_lead_round(rt: HostRuntime) -> Result<(), Fail> {
    are_refused(&rt, rt.alloc(), OF_16)?;
    Ok(())
}

/// A schedule of one phase.
const ONE_PHASE: &str = "schedule 1\nden 1\ncycle 100\nphases 1\nphase 0 50\nend\n";

const OF_16_TABLE: &[Run] = &[(
    "check table t s",
    &[
        (
            "t",
            "table 1\nphases 1\nphase p\nelements 0\ninner 1\narcs 1\narc n0 n0 0 0\nbounds 0\nend\n",
        ),
        ("s", ONE_PHASE),
    ],
    "refused 16 1 0\n",
)];

#[test]
fn refusal_16_of_an_inner_bit_that_leads_to_itself(rt: HostRuntime) -> Result<(), Fail> {
    are_refused_runs(&rt, rt.alloc(), OF_16_TABLE)?;
    Ok(())
}

// Row limits-and-one-past: numbers of delays.
#[test]
fn refusal_18_of_delays_above_the_limit(rt: HostRuntime) -> Result<(), Fail> {
    let alloc = rt.alloc();
    let far =
        "(DELAYFILE (TIMESCALE 1 us) (CELL (CELLTYPE \"BUF\") (INSTANCE b) (DELAY (ABSOLUTE (IOPATH A Y \
         (1.0000000000000001))))))";
    let near =
        "(DELAYFILE (TIMESCALE 1 us) (CELL (CELLTYPE \"BUF\") (INSTANCE b) (DELAY (ABSOLUTE (IOPATH A Y (1.0))))))";
    let refused = (Status::Refused, "refused 18 2\n", [""].as_slice());
    is_optimised(&rt, alloc, LEAF, far, CLOCK, refused)?;
    is_optimised(&rt, alloc, LEAF, near, CLOCK, NO_ELEMENT)?;
    Ok(())
}

const OF_18: &[Run] = &[(
    "optimise files v d c k",
    &[
        ("v", LEAF),
        (
            "d",
            "(DELAYFILE(CELL(CELLTYPE\"\")(INSTANCE)(DELAY(ABSOLUTE(PORT a(1e4))))))",
        ),
        ("c", TWO_CELLS),
        ("k", CLOCK),
    ],
    "refused 18 1\n",
)];

#[test]
fn refusal_18_names_the_entry_of_the_number(rt: HostRuntime) -> Result<(), Fail> {
    are_refused_runs(&rt, rt.alloc(), OF_18)?;
    Ok(())
}

const OF_19: &[Run] = &[(
    "check table t s",
    &[
        (
            "t",
            "table 1\nphases 2\nphase p\nphase q\nelements 0\ninner 0\narcs 0\nbounds 0\nend\n",
        ),
        ("s", ONE_PHASE),
    ],
    "refused 19 2 1\n",
)];

#[test]
fn refusal_19_of_a_schedule_with_other_phases(rt: HostRuntime) -> Result<(), Fail> {
    are_refused_runs(&rt, rt.alloc(), OF_19)?;
    Ok(())
}

const OF_21: &[Run] = &[(
    "check table t s",
    &[("t", SUM_PAST_LIMIT), ("s", ONE_PHASE)],
    "refused 21 0 0\n",
)];

#[test]
fn refusal_21_of_a_path_that_is_too_long(rt: HostRuntime) -> Result<(), Fail> {
    are_refused_runs(&rt, rt.alloc(), OF_21)?;
    Ok(())
}

const OF_22: &[Run] = &[(
    "corners v c k d e",
    &[
        ("v", LEAF),
        ("d", "(DELAYFILE)"),
        ("c", TWO_CELLS),
        ("k", CLOCK),
        ("e", "(DELAYFILE"),
    ],
    "refused 22 2\nrefused 1 delays 1\n",
)];

#[test]
fn refusal_22_of_the_second_corner(rt: HostRuntime) -> Result<(), Fail> {
    are_refused_runs(&rt, rt.alloc(), OF_22)?;
    Ok(())
}
